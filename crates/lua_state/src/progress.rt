//! Modules that were required (manual 5.3, `require`).
use mw_frames::Value;

/// A module that was required: its text runs, or gave its value.
#[derive(Clone, Copy)]
pub enum Progress {
    Running,
    Finished(Value),
}
