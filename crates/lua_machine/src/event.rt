//! How a machine stops, and what it is answered.
use lua_blocks::Outcome;
use lua_store::Value;
use mw_frame::{Ask, Bytes};
use page_run::Which;

/// How a machine stops: at its end, where an allowance is spent, or at a question.
#[derive(Drop)]
pub enum Event {
    Over(Outcome),
    Spent(Which),
    Asks(Ask),
}

/// The answer to a question (Scribunto, Frame object and `mw.loadData`).
#[derive(Drop)]
pub enum Answer {
    /// A text that was expanded.
    Expanded(Bytes),
    /// There is no such template, or no such data module.
    NoPage,
    /// The tables of a data module, which are read-only.
    Loaded(Value),
    /// The message of a load that failed.
    LoadFailed(Bytes),
}
