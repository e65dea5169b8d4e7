//! Strides of the machine of Lua in a row, with calls of the library among them that are made in place: where what is called and its arguments
//! are read where they stand, a function that answers at once is called without a frame that waits for it.
//!
//! - `ready`: calls of functions of the library whose parts are read in place
//! - `making`: such a call is paid for and made
//! - `in_place`: what follows it: an expression, a statement or a declaration goes on
//! - `operand`: an operator whose one operand is such a call
//! - `rows`: strides and such calls in a row
//!
//! Begin with `specs/Rows.antt`: what a row comes to.
#![tactic(auto)]

pub mod in_place;
pub mod making;
pub mod operand;
pub mod ready;
pub mod rows;

pub use lua_calls::{enter_library, hear, resume};
pub use lua_turns::waiting::{Waiting, drop_newest, of_newest};
pub use lua_turns::{
    Next, count_turn, each_turn, enter_body, give_end, give_loop, leave_call, pass_end,
    repeat_turn, while_turn,
};
pub use rows::{Went, row, strides, turn_for};
