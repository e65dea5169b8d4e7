//! What `wikifmt` does with its words: the text of a module, laid out; or the globals that it uses.
//!
//! Read `specs/Command.antt` first (the command that words are), then `specs/Due.antt`: what a run is to answer and to write.
//!
//! - `command`: the command that the words are
//! - `answer`: what a module of a folder gives
//! - `top_call`: `run_fmt`, over any shelf and any two sinks
#![tactic(auto)]

mod answer;
mod command;
mod top_call;

pub use top_call::{CANNOT_READ, run_fmt};
