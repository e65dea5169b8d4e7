//! Functions in progress, where the loop stands, and why it left.
use lua_store::ClosureId;
use page_run::Which;
use wk_base::Left;

/// A function in progress.
#[derive(Clone, Copy)]
pub struct Act {
    /// The number of its module among those that are ready, and its own number in the module.
    pub source: u32,
    pub index: u32,
    /// The place of its next operation, or of the one at which it waits.
    pub pc: usize,
    /// Its first register.
    pub base: u32,
    /// How many frames wait for its outcome before the function that called it does.
    pub frames: u32,
    /// How many values of `...` it has.
    pub dots: u32,
    /// The closure whose cells it has, if it stands in one.
    pub closure: Option<ClosureId>,
    /// The line that called it, if a place of a text did.
    pub called_at: Option<u32>,
}

/// Where the loop stands.
#[derive(Clone, Copy)]
pub struct At {
    /// The function that runs, and how many functions wait below it.
    pub act: Act,
    pub depth: usize,
    /// The register behind the values that were given, where as many were given as there were.
    pub top: usize,
    /// The steps that are left; and these with the nodes that were counted.
    pub rest: u64,
    pub total: u64,
}

/// What is left beside steps, the calls in progress, and the most that were in progress at one time.
#[derive(Clone, Copy)]
pub struct Purse {
    pub left: Left,
    pub calls: u64,
    pub height: u64,
}

/// Why the loop left.
#[derive(Clone, Copy, Debug, PartialEq, Eq)]
pub enum Exit {
    /// The operation at its place is to be done outside. Nothing of it has happened, and its charge is not taken.
    Aside,
    /// The operation at its place needs more registers, or more room for functions that wait. Nothing of it has happened.
    Full,
    /// An allowance is spent.
    Spent(Which),
    /// Memory ran out.
    NoMemory,
}

/// Why the loop left, and where.
#[derive(Clone, Copy)]
pub struct Halt {
    pub exit: Exit,
    pub at: At,
}
