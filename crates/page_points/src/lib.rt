//! The stack of a page's tasks: which of them stand on it, each after which replies, and how one waits for another.
//!
//! Nothing here is executed. The definitions stand in `specs/`, best read in this order:
//!
//! - `Places`: where the tasks of a page stand, one upon another
//! - `Loads`: data loads, of which some were kept
//! - `Machines`: a machine of Lua at its place
//! - `Apart`: what one machine does leaves the others alone
//! - `Laws`
//!
//! Each function has an empty body, and its contract is a law about those definitions:
//!
//! - `stack`: the laws of the stack, as `Laws` says them
//!
//! Who drives machines and expanders cites the lemmas of `proofs/`: `Moves`, `Loads`, `Machines`, `Expansions`, `Apart`.
#![tactic(auto)]

pub mod stack;
