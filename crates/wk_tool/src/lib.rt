//! What the command-line tools share: how a run ended, what it writes, and what is left on the two streams.
//!
//! - `report`: statuses, the lines on standard error, and what a run is to answer
//! - `put`: putting a report to the two streams
//! - `ending`: the end of a run, from what the work on the words came to
//!
//! Read `specs/Report.antt` first, then `specs/Ending.antt`: what a run leaves on the two streams, and what a tool promises of it.
#![tactic(auto)]

mod ending;
mod put;
mod report;

pub use ending::{Unread, finish, finish_usage};
pub use put::{after_put, put_both, put_piece};
pub use report::{Report, Status, missing_report, put_bytes, refusal, source_report, usage_report};
pub use wk_shelf::{
    Bytes, FolderFault, FolderPage, FolderShelf, List, Namespace, NoMemory, Shelf, Sink,
    StreamSink, Title, TitleFault, read_folder,
};
