//! What a run keeps by title: at most one item for each title. Two titles are one where their texts are.
//!
//! The model of `ByTitle` is the list of its items in the order in which their titles came (`lua_meaning`, `specs/Titled.antt`).
//!
//! - `by_title`: the items, which are found, put and taken out by title
#![tactic(auto)]

pub mod by_title;

pub use by_title::ByTitle;
pub use wk_base::Steps;
