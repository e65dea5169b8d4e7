//! More worked examples of `lua_slots`, apart from its definitions and laws. Nothing here is executed.
//!
//! - `Closures`: closures of one call that share a cell, and closures that a loop with `while` makes
//! - `Loads`: a data module is loaded, and a load is spent
//!
//! Read `specs/Closures.antt` first. They are written as those of `lua_slots` are (`Trial` there).
//!
//! - `examples`: functions with an empty body, whose contracts are the examples
#![tactic(auto)]

pub mod examples;
