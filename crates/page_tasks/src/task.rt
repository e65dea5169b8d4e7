//! A task on the stack, and how it halts.
use crate::boxed::Boxed;
use lua_machine::Machine;
use mw_frame::{Ask, Job, Title};
use page_ground::JobOutcome;
use page_ground::data::Data;
use page_run::Which;
use wiki_expand::Expander;

/// A data load that has begun: its module, and the steps that were left.
#[derive(Drop)]
pub struct Begun {
    pub title: Title,
    pub steps: u64,
}

/// A task: an expansion, an invocation, or the load of a data module.
#[derive(Drop)]
pub enum Task<'w> {
    Expansion(Boxed<Expander<'w>>),
    Invocation(Boxed<Machine<'w>>),
    Load(Begun, Boxed<Machine<'w>>),
}

/// What a task came to: an expansion to its text, with which it is done, and an invocation to any of its ends; a load to data, or to an allowance
/// that is spent.
#[derive(Drop)]
pub enum Reply {
    /// What stands as a text on a page.
    Ended(JobOutcome),
    Data(Data),
    /// Who asked for the load is spent with it.
    Spent(Which),
}

/// How a task halts: it has come to its reply, or it asks.
#[derive(Drop)]
pub enum Halt {
    Comes(Reply),
    Invokes(Boxed<Job>),
    Asks(Boxed<Ask>),
}

/// A task that has halted.
#[derive(Drop)]
pub struct Halted<'w> {
    pub task: Task<'w>,
    pub halt: Halt,
}
