//! A whole run of Lua in a machine: how it begins, and what its module, its function and what that gave come to (Scribunto, "Invoking modules" and mw.loadData).
//!
//! - `html`: texts of failures without marks of HTML
//! - `messages`: texts of failures
//! - `ends`: how a run ends
//! - `answers`: the text of an answer
//! - `frames`: what the frames of a run do with values and jumps
//! - `starts`: how a run begins
//!
//! The moves stand in `lua_slots` (`specs/Starts.antt`); that code makes one is `Makes` of `lua_state`.
#![tactic(auto)]

pub mod answers;
pub mod ends;
pub mod frames;
pub mod html;
pub mod messages;
pub mod starts;

pub use answers::texts;
pub use frames::{give_run, pass_run};
pub use lua_modules::{Scenes, Work};
pub use starts::begin_work;
