//! What of a page is in progress below the task on top.
ghost use Rattle.std.specs.Prelude.{◌≡◌};
ghost use Rattle.page_driver.specs.Moving.{next_of};

use lua_code::NoMemory;
use page_tasks::task::{Halted, Reply, Task};
use page_tasks::{Keep, Numbers, Stack};

/// The tasks that wait, the data that is kept, the steps of loads that were found kept, and the numbers of the runs.
#[derive(Drop)]
pub struct Tower<'w> {
    pub stack: Stack<Task<'w>>,
    pub keep: Keep,
    pub repeat_charges: u64,
    pub numbers: Numbers,
}

/// What is next: the page is expanded, with what its root came to, or a task has halted.
#[derive(Drop)]
pub enum Next<'w> {
    Over(Reply),
    On(Halted<'w>),
}

/// A task that has halted is next.
pub(crate) fn on<'w>(halted: Result<Halted<'w>, NoMemory>) -> Result<Next<'w>, NoMemory>
    ensures { result ≡ next_of halted.entry }
{
    match halted {
        Ok(one) => Ok(Next::On(one)),
        Err(error) => Err(error),
    }
}
