//! What a run of the program is about, and what it writes: the pages of a folder that are shown, a wiki that the program makes itself, the bytes
//! for the two streams.
//!
//! Read `specs/Output.antt` first: what is written of pages that were expanded. The statuses and the lines on standard error stand in `wk_tool`.
//!
//! - `made`: a page that was expanded
//! - `putting`: pieces of text
//! - `output`: what is written of the pages
//! - `report`: what pages give that were expanded
//! - `choice`: which pages of a folder are shown, and in which order
//! - `demo`: a wiki that the program makes itself
#![tactic(auto)]

mod choice;
mod demo;
mod made;
mod output;
mod putting;
mod report;

pub use choice::{in_text_order, shown_titles};
pub use demo::demo_pages;
pub use made::{Form, Made, Used};
pub use output::text_in;
pub use report::done_report;
