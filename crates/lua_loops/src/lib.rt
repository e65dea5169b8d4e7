//! Loops of Lua, ends of blocks and functions, and functions that are entered (manual 2.4.4, 2.4.5, 2.5.8 and 2.5.9).
//!
//! - `exits`: ends of a move at which nothing can fail
//! - `turns`: turns of loops that begin
//! - `bounds`: what follows a test, a bound, or the results of an iterator
//! - `giving`: a frame that waits in a loop is given values
//! - `leaving`: registers, functions and calls that are given back
//! - `endings`: an end is come to
//! - `passing`: an end is jumped out of
//! - `bodies`: functions of Lua that are entered
//!
//! Begin with `specs/Makes.antt` of `lua_state`: that code makes a move. The moves are those of `lua_slots` (`specs/Loops.antt`,
//! `specs/Calls.antt`, and the frames in `specs/Moves.antt`).
#![tactic(auto)]

pub mod bodies;
pub mod bounds;
pub mod endings;
pub mod exits;
pub mod giving;
pub mod leaving;
pub mod passing;
pub mod turns;

pub use bodies::enter_body;
pub use endings::give_end;
pub use giving::give_loop;
pub use lua_state::{
    Activations, Callee, Ending, InLoop, Slot, Stack, State, Steps, Values, enter_call, leave_call,
    open, open_all,
};
pub use passing::pass_end;
pub use turns::{count_turn, each_turn, repeat_turn, while_turn};
