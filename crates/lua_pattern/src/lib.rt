//! Lua patterns over bytes and over code points: reading, and the first match with an exact count of tries.
//!
//! - `alphabet`: what the symbols of a text are, and which of them a class holds
//! - `item`, `items`: the items of a pattern, and where each leads at a subject's end
//! - `byte_table`: a bit for each byte
//! - `prepared`: sets whose tests cost a bounded time
//! - `slots`: the marks of the captures
//! - `pattern`: a pattern, and its first match
//! - `read`: the reading of a pattern
//! - `fits`: which symbols a single character fits
//! - `steps`, `trail`, `passes`, `search`: the search, without recursion
//!
//! The definitions: begin with `specs/Letters.antt` (what an alphabet is), then `specs/Way.antt` (the first way in which items
//! match, with its tries) and `specs/Read.antt` (how a pattern is read).
#![tactic(auto)]

pub mod alphabet;
mod byte_table;
pub mod fits;
pub mod item;
pub mod items;
mod passes;
pub mod pattern;
pub mod prepared;
pub mod read;
mod search;
pub mod slots;
mod steps;
mod trail;

pub use alphabet::{Alphabet, OneByte, OnePoint};
pub use pattern::{Capture, Match, Pattern, Search};
pub use prepared::PreparedSet;
pub use read::{PatternFault, read_set};
pub use steps::{symbol_at, text_from};
pub use wk_base::List;
