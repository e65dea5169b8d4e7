//! The cases that the text of a test module names.
//!
//! Read `specs/Cases.antt`: which keys of functions are cases, and in which order. `specs/Examples.antt` has worked texts.
//!
//! - `functions`: the keys under which a text puts functions into a table
//! - `naming`: those keys that name cases, each once
//! - `examples`: the worked texts
#![tactic(auto)]

mod examples;
mod functions;
mod naming;

pub use examples::{assigned_keys, other_keys, returned_keys};
pub use naming::cases;
