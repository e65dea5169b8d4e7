//! What a machine of Lua holds: frames that wait, registers, functions in progress, values in flight, and what it does next.
//!
//! - `stack`: a list of which the newest item is at hand
//! - `values`: values in flight
//! - `frame`: what waits, and what begins
//! - `frames`: all that waits, the newest first
//! - `focus`: what the machine does next
//! - `boxes`: a box for what is rare or large, so that what is handed from move to move stays small
//! - `register`: local variables, in registers and in cells
//! - `opening`: new local variables
//! - `activation`: functions in progress, and the places of their errors
//! - `environment`: the tables of a run, and the names of handlers
//! - `raising`: an error with its message
//! - `laws`: what a machine holds stays while its store grows
//!
//! Begin with `specs/Seen.antt`: what each of these is seen as in `lua_slots`. `specs/Of.antt` says when all their values are of a
//! store.
#![tactic(auto)]

pub mod activation;
pub mod boxes;
pub mod environment;
pub mod focus;
pub mod frame;
pub mod frames;
pub mod laws;
pub mod opening;
pub mod raising;
pub mod register;
pub mod stack;
pub mod values;

pub use activation::{Activation, Activations, Callee, Level};
pub use boxes::boxed;
pub use environment::Environment;
pub use focus::{Focus, Jump, Work};
pub use frame::{
    Asked, EachLoop, Ending, Finding, Found, Frame, InAssignment, InConstructor, InExpression,
    InLoop, InRun, InStatement, Pending, Setting, Thing,
};
pub use frames::Frames;
pub use lua_store::ClosureId;
pub use page_run::Which;
pub use raising::Raising;
pub use register::Slot;
pub use stack::Stack;
pub use values::{Given, Values};
