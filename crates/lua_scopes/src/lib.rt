//! Functions in progress while code is made of a text of Lua, and where names stand in them (manual 2.6, local variables and upvalues).
//!
//! - `looks`: a first look at a text, which makes no code; `sketch`: what it tells
//! - `scopes`: the functions in progress, and what they capture from one another
//! - `level`: one of them, its variables and captured names
//! - `spots`: what is known of names
//! - `names`: the names of a text, and their numbers
//! - `cells`: which variables have cells
//! - `stack`: a list of which the newest item is at hand
//!
//! Begin with `specs/Scopes.antt`: functions in progress, and where names stand by them.
#![tactic(auto)]

mod cells;
mod level;
mod looks;
mod names;
mod scopes;
mod sketch;
mod spots;
mod stack;

pub use looks::first_look;
pub use scopes::Scopes;
pub use sketch::Sketch;
