//! Tests of `lua_flat_code` on texts: how many operations and registers they take, what the operations charge, and where jumps lead; and of
//! `lua_flat_loop` on their code.
//!
//! - `made`: flat code of a text
//! - `count`: the counts of a function in flat code
//! - `tests`: texts with their counts, and what is at a bound
//! - `runs`: one run of the loop
//! - `loops`: texts with the registers and steps of a run
//!
//! There are no definitions here.
#![tactic(auto)]

mod count;
mod made;
mod runs;

pub use count::{Counts, counts_of, target_at};
pub use runs::{Begin, Ended, run_text};

#[cfg(test)]
mod loops;
#[cfg(test)]
mod tests;
