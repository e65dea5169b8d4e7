//! Tests of `lua_resolve` on texts: how many local variables have cells, how many stand in plain registers, and which numbers constants have.
//!
//! - `count`: the counts of a text
//! - `constants`: the numbers of its texts and names
//! - `modules`: the modules of the examples
//! - `tests`: texts with their counts
//!
//! There are no definitions here.
#![tactic(auto)]

mod constants;
mod count;

pub use constants::{has_constants, returns};
pub use count::{Counts, counts_of};

#[cfg(test)]
mod modules;
#[cfg(test)]
mod tests;
