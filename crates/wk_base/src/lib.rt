//! What every layer of the renderer speaks of: byte strings, lists, titles, and the allowances of a page.
//!
//! - `bytes`: a byte string, seen as the list of its bytes
//! - `list`: a list that keeps its allocator, seen as the list of its items
//! - `left`: how much a page may use, and how much of it is left
//! - `title`: namespaces and titles of pages
//! - `title_read`: how a text is read as a title
//! - `steps`: a counter of turns
//! - `space`: white space, and a text without it at the ends
//!
//! Read `specs/Titles.antt` first: what a title is, and which one a text is read as. `specs/Space.antt` says what white
//! space is. `proofs/Options.antt` and `proofs/Numbers.antt` hold the lemmas that several crates use and std doesn't have.
//!
//! Want of memory is the one failure here, and is always `NoMemory`.
#![tactic(auto)]

pub mod bytes;
pub mod left;
pub mod list;
pub mod space;
pub mod steps;
pub mod title;
pub mod title_read;

pub use bytes::Bytes;
pub use left::{Left, Limits};
pub use list::List;
use std::alloc::AllocError;
pub use steps::Steps;
pub use title::{Namespace, Title};
pub use title_read::{TitleFault, text_reads_back};

/// Memory ran out. Nothing else is known of a call that answers this, beside what its contract says.
#[derive(Clone, Copy, Debug, PartialEq, Eq)]
pub struct NoMemory;

impl From<AllocError> for NoMemory {
    fn from(_error: AllocError) -> NoMemory {
        NoMemory
    }
}
