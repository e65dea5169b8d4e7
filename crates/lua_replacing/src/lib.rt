//! What a `gsub` holds that waits for the replacement of a match (manual 5.4, `string.gsub`; Scribunto, `mw.ustring.gsub`).
//!
//! - `far`: how far it is
//! - `job`: what stays the same from match to match, and what waits
//!
//! What they are seen as stands in `specs/Seen.antt`; the records of the meaning are in `specs/Gsub.antt` of `lua_meaning`.
#![tactic(auto)]

pub mod far;
pub mod job;

pub use far::{Far, Stand};
pub use job::{AnyPattern, Job, Replacer, Replacing};
pub use lua_store::Value;
