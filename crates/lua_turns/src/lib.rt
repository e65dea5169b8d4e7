//! Strides of the machine of Lua in a row: values and jumps reach what waits for them, blocks, turns of loops and functions end, and
//! what follows is strode on from, without the whole of what is next being handed from move to move.
//!
//! - `waiting`: the newest frame, where it is gone on with here
//! - `leaving`: blocks and functions that are left
//! - `counting`: the next turn of a counting loop
//! - `giving`: a value reaches what waits for it
//! - `ending`: no value does
//! - `passing`: a `return` does
//! - `entering`: a function of Lua is entered
//! - `calling`: arguments reach the frame that calls
//! - `setting`: an entry that is set
//! - `at_hand`: an expression that is read where it comes up
//! - `beginning`: an expression or a `return` whose first operand is not read in place
//! - `operands`: an expression that begins with its first operand
//! - `statements`: statements whose expressions are not read in place
//! - `entries`: an assignment to an entry whose value is not read in place
//! - `deciding`: operands of `and`, `or`, and of operators with one operand
//! - `joining`: two texts become one
//! - `branching`: tests of `if` and `while`
//! - `listing`: lists of expressions
//! - `methods`: methods and entries that are found at once
//! - `rows`: what is next is gone on with, or a row begins with it
//!
//! Begin with `specs/Rows.antt`: what moves in a row are.
#![tactic(auto)]

pub mod at_hand;
pub mod beginning;
pub mod branching;
pub mod calling;
pub mod counting;
pub mod deciding;
pub mod ending;
pub mod entering;
pub mod entries;
pub mod giving;
pub mod joining;
pub mod leaving;
pub mod listing;
pub mod methods;
pub mod operands;
pub mod passing;
pub mod rows;
pub mod setting;
pub mod statements;
pub mod waiting;

pub use lua_loops::{
    Ending, Slot, Stack, State, Steps, Values, count_turn, each_turn, enter_body, enter_call,
    give_end, give_loop, leave_call, open, open_all, pass_end, repeat_turn, while_turn,
};
pub use lua_operators::{Focus, Frame, Frames, InExpression, Left, Store, Value, single};
pub use lua_strides::ending::pay_nodes;
pub use lua_strides::reading::{LEVELS, read};
pub use lua_strides::running::variable;
pub use lua_strides::striding::{front_of, only};
pub use lua_strides::{InStatement, Next, constant_at_hand, focus_for};
pub use rows::{begin_row, follow};
