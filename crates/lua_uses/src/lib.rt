//! Which global variables a module of Lua uses, with the modules that it requires: what a linter tells of them. Definitions, and worked
//! examples as a function with an empty body.
//!
//! Read `specs/Uses.antt` first (where a text names a global), then `specs/Modules.antt`: the modules that are reached, and the answer.
//! `specs/Examples.antt` has modules with their answers.
#![tactic(auto)]

mod examples;

pub use examples::rows_hold;
