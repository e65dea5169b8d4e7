//! Several moves of the machine of Lua at once, where expressions are read where they stand.
//!
//! - `running`: what the running function has: its variables
//! - `operators`: what operators and indices give in place
//! - `reading`: the value of an expression that is read in place, and how many nodes it has
//! - `next`: what is next behind them
//! - `ending`: how several moves at once end: their nodes are paid together
//! - `calls`: calls whose function and arguments are read in place
//! - `conditions`: an `if` whose first test is read in place
//! - `statements`: assignments, declarations and `return` of what is read in place
//! - `striding`: from what is next to where several moves lead
//!
//! Begin with `specs/Strides.antt`: what several moves at once are. Which expressions have a value in place, and which, says
//! `lua_in_place`, whose `proofs/Statements.antt` has what the moves of statements come to.
#![tactic(auto)]

pub mod calls;
pub mod conditions;
pub mod ending;
pub mod next;
pub mod operators;
pub mod reading;
pub mod running;
pub mod statements;
pub mod striding;

pub use lua_state::{
    ClosureId, Found, InStatement, Setting, TableId, constant_at_hand, handler, write,
};
pub use next::{Next, focus_for};
pub use striding::stride;
