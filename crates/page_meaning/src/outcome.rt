//! How an invocation ends by itself.
use page_run::Which;
use wk_base::Bytes;

/// How an invocation ends by itself (Extension:Scribunto). On a page each of these stands as a text.
#[derive(Drop)]
pub enum JobOutcome {
    /// The text that its function gave.
    Done(Bytes),
    /// The message of its failure, without marks of HTML (Scribunto, "Script error").
    Failed(Bytes),
    /// The allowance that is spent: nothing in the run catches that.
    Spent(Which),
}
