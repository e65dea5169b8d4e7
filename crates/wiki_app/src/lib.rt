//! What the program does with its words: pages of a folder of wiki files are rendered, or pages that it makes itself.
//!
//! Read `specs/Report.antt` first: what the words are to give. Which command they are is said in `wiki_words`, the bytes that are written in
//! `wiki_output`, what a page of a wiki comes to in `wiki_batch`. Then `specs/Ending.antt` of `wk_tool`: what a run leaves on the two streams.
//!
//! - `pages`: the pages that a command is about, and what is told of those that are expanded
//! - `answer`: what titles give on the pages of a wiki
//! - `top_call`: `run`, over any shelf and any two sinks
//! - `laws`: the number of jobs changes nothing
#![tactic(auto)]

mod answer;
mod laws;
mod pages;
mod top_call;

pub use laws::jobs_change_nothing;
pub use top_call::{CANNOT_READ, run};
pub use wiki_batch::{Gate, JobEnd, OpenGate, Page, RawPage, Wiki, expand_page_in, load, run_job};
