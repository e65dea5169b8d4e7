//! The operators of Lua on values, in code.
//!
//! - `handlers`: a handler is called with both operands
//! - `arithmetic`: the operators of arithmetic, and negation
//! - `lengths`: the length of a text or a table
//! - `comparison`: equality, and the order of values by their handlers
//! - `ordering`: "less" and "at most"
//! - `concatenation`: two texts become one
//! - `dispatch`: what an operator gives
//!
//! Begin with `specs/Orders.antt` and, in `lua_arms`, `specs/Paid.antt`: what a step is seen as whose charges are taken. The moves are those of
//! `lua_slots` (`specs/Operators.antt`).
#![tactic(auto)]

pub mod arithmetic;
pub mod comparison;
pub mod concatenation;
pub mod dispatch;
pub mod handlers;
pub mod lengths;
pub mod ordering;

pub use dispatch::{apply, operate};
pub use lua_arms::index::index;
pub use lua_arms::lists::{choose_operand, list, more_values};
pub use lua_arms::operands::begin_operands;
pub use lua_arms::setting::set_entry;
pub use lua_arms::{
    ClosureKind, Environment, Focus, Frame, Frames, InAssignment, InConstructor, InExpression,
    Left, Store, TextId, Value, is_nil, is_true, read, single, text_in,
};
