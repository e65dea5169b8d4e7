//! The fresh environment of a run of Lua, made in the store of a page (manual 5; Scribunto, "Lua environment").
//!
//! Read `specs/Made.antt` first.
//!
//! - `fields`: fields of a table of the library
//! - `made`: the tables of a fresh environment
#![tactic(auto)]

pub mod fields;
pub mod made;

pub use made::{Tables, fresh};
