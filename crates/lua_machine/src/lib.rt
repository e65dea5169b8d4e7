//! The machine of Lua: one move after another, until an event.
//!
//! - `machine`: a machine, its start, its going on, and its answers
//! - `event`: how a machine stops, and what it is answered
//! - `going`: moves until a step is paid, and until an event
//! - `library`: a function of the library is called, and its call ends
//! - `moving`: one move, with its charges
//! - `frames`: what reaches a frame that waits
//! - `things`: what begins at a step of its own
//!
//! Begin with `specs/Events.antt`: what a call of a machine says. `specs/Moved.antt` and `specs/Going.antt` say what a move, and what moves one
//! after another are.
#![tactic(auto)]

pub mod event;
pub mod frames;
pub mod going;
pub mod library;
pub mod machine;
pub mod moving;
pub mod things;

pub use event::{Answer, Event};
pub use lua_blocks::{ArgText, Given, Jump, Left, Outcome, Steps, TextIn, World, merge_args};
pub use lua_runs::Work;
pub use lua_store::{Store, Value};
pub use machine::Machine;
