//! Statements of Lua that begin, targets that are found and set, and what the frames that wait in an assignment or in a statement do with
//! values (manual 2.4).
//!
//! - `exits`: ends of a move at which nothing can fail
//! - `running`: what the running function has: its cells
//! - `functions`: local functions
//! - `conditions`: `if`
//! - `forms`: how each other form of a statement begins
//! - `statements`: a block goes on with its first statement
//! - `targets`: the targets of an assignment are found
//! - `setting`: they are set
//! - `assignments`: a frame in an assignment is given values
//! - `giving`: a frame in a statement is
//!
//! Begin with `specs/Makes.antt` of `lua_state`: that code makes a move. The moves are those of `lua_slots` (`specs/Statements.antt`).
#![tactic(auto)]

pub mod assignments;
pub mod conditions;
pub mod exits;
pub mod forms;
pub mod functions;
pub mod giving;
pub mod running;
pub mod setting;
pub mod statements;
pub mod targets;

pub use assignments::give_assignment;
pub use giving::give_statement;
pub use lua_state::{
    Activations, ArgText, ByTitle, Codes, Focus, Frame, Frames, Given, Jump, Left, Outcome, Stack,
    State, Steps, TextIn, Thing, Turn, Values, World, boxed, finish, finish_paid, index_link,
    merge_args, set_link,
};
pub use setting::set;
pub use statements::run;
pub use targets::find;
