//! Expressions of Lua that begin, and frames that wait in expressions and constructors (manual 2.5).
//!
//! - `exits`: ends of a move at which nothing can fail
//! - `running`: what the running function has: its variables, its values of `...`, its module
//! - `forms`: how each form of an expression begins
//! - `closures`: how a function expression does
//! - `evaluation`: an expression begins; a list goes on
//! - `operands`: what a frame in an expression does with values
//! - `giving`: any frame in an expression is given values
//! - `constructors`: table constructors, from their first entry to the last
//!
//! Begin with `specs/Makes.antt` of `lua_state`: that code makes a move. The moves are those of `lua_slots` (`specs/Expressions.antt`).
#![tactic(auto)]

pub mod closures;
pub mod constructors;
pub mod evaluation;
pub mod exits;
pub mod forms;
pub mod giving;
pub mod operands;
pub mod running;

pub use constructors::give_constructor;
pub use evaluation::{evaluate, list};
pub use giving::give_expression;
pub use lua_state::call;
