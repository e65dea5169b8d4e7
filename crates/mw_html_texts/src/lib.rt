//! The text of an object of `mw.html` over the store of a page: what `tostring` gives (Scribunto, HTML library).
//!
//! - `tags`: the tag of an object
//! - `levels`: an object with all that is in it, at most 200 objects down
//! - `giving`: what is given, and what it costs
//!
//! Begin with `specs/Given.antt`.
#![tactic(auto)]

pub mod giving;
pub mod levels;
pub mod tags;

pub use giving::{ObjectText, give_object_text, object_text};
pub use lua_strings::{Left, MarkupId, RUN_CHARGE, kind_of, object};
