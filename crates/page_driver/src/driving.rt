//! A page in progress: what a task that has halted leads to, and the loop until the page is expanded.
ghost use Rattle.std.specs.Prelude.{IfOk};
ghost use Rattle.page_tasks.specs.PageGroundGround.{ground_of};
ghost use Rattle.page_driver.specs.Driven.{InProgress, IsStarting, MovesOn, ComesTo};
ghost use Rattle.page_driver.specs.Moving.{Sinks, SinksToQuestion, IsQuestionIf, TakesSteps};

use crate::asking::answer_question;
use crate::handing::hand_over;
use crate::stacking::invoke;
use crate::tower::{Next, Tower};
use lua_code::NoMemory;
use page_tasks::going::go_on;
use page_tasks::task::{Halt, Halted, Reply, Task};
use page_tasks::{Context, Left, Steps, Store};
use std::sync::ledger::Ledger;

/// A page moves on, from a task that has halted to the next that halts.
pub fn move_on<'w, L: Ledger>(
    around: &Context<'w>,
    store: &mut Store,
    left: &mut Left,
    tower: &mut Tower<'w>,
    halted: Halted<'w>,
    turns: &mut Steps<L>,
) -> Result<Next<'w>, NoMemory>
    requires { InProgress (ground_of around.now) store.old left.old turns.old tower.old halted }
    ensures moves { IfOk result (λ n.
        MovesOn (ground_of around.now) store.old left.old turns.old tower.old halted.entry
        store.new left.new turns.new tower.new n) }
    ensures sinks { IfOk result (λ n. Sinks left.old tower.old halted.entry left.new tower.new n) }
{
    let Halted { task, halt } = halted;
    match halt {
        Halt::Comes(reply) => hand_over(around, store, left, tower, task, reply, turns),
        Halt::Invokes(job) => invoke(around, store, left, tower, task, job, turns),
        Halt::Asks(question) => {
            let asked = question.into_inner();
            answer_question(around, store, left, tower, task, asked, turns)
        }
    }
}

/// Whether a task has halted at a question of Lua.
fn asks_lua(halted: &Halted<'_>) -> bool
    ensures { IsQuestionIf halted.now.halt result }
{
    match halted.halt {
        Halt::Comes(_) => false,
        Halt::Invokes(_) => false,
        Halt::Asks(_) => true,
    }
}

/// Moves on until a run of Lua asks, or until the page is expanded.
fn move_to_question<'w, L: Ledger>(
    around: &Context<'w>,
    store: &mut Store,
    left: &mut Left,
    tower: &mut Tower<'w>,
    halted: Halted<'w>,
    turns: &mut Steps<L>,
) -> Result<Next<'w>, NoMemory>
    requires { InProgress (ground_of around.now) store.old left.old turns.old tower.old halted }
    ensures moves { IfOk result (λ n.
        MovesOn (ground_of around.now) store.old left.old turns.old tower.old halted.entry
        store.new left.new turns.new tower.new n) }
    ensures sinks { IfOk result (λ n. SinksToQuestion left.old halted.entry left.new n) }
{
    let mut now = halted;
    'moves: loop {
        if asks_lua(&now) {
            return Ok(Next::On(now));
        }
        let moved = move_on(around, store, left, tower, now, turns)?;
        match moved {
            Next::Over(reply) => return Ok(Next::Over(reply)),
            Next::On(next) => now = next,
        }
    }
}

/// Moves on past the next question of Lua.
fn pass_question<'w, L: Ledger>(
    around: &Context<'w>,
    store: &mut Store,
    left: &mut Left,
    tower: &mut Tower<'w>,
    halted: Halted<'w>,
    turns: &mut Steps<L>,
) -> Result<Next<'w>, NoMemory>
    requires { InProgress (ground_of around.now) store.old left.old turns.old tower.old halted }
    ensures moves { IfOk result (λ n.
        MovesOn (ground_of around.now) store.old left.old turns.old tower.old halted.entry
        store.new left.new turns.new tower.new n) }
    ensures takes { IfOk result (λ n. TakesSteps left.old halted.entry left.new n) }
{
    let reached = move_to_question(around, store, left, tower, halted, turns)?;
    match reached {
        Next::Over(reply) => Ok(Next::Over(reply)),
        Next::On(asking) => move_on(around, store, left, tower, asking, turns),
    }
}

/// Goes on with the first task of a page, and with all that it leads to, until the page is expanded.
pub fn drive<'w, L: Ledger>(
    around: &Context<'w>,
    store: &mut Store,
    left: &mut Left,
    tower: &mut Tower<'w>,
    task: Task<'w>,
    turns: &mut Steps<L>,
) -> Result<Reply, NoMemory>
    requires { IsStarting (ground_of around.now) store.old left.old turns.old tower.old task }
    ensures { IfOk result (λ r.
        ComesTo (ground_of around.now) store.old left.old turns.old tower.old task.entry
        store.new left.new turns.new tower.new r) }
{
    let mut halted = go_on(around.alloc, store, left, task, turns)?;
    'questions: loop {
        let moved = pass_question(around, store, left, tower, halted, turns)?;
        match moved {
            Next::Over(reply) => return Ok(reply),
            Next::On(next) => halted = next,
        }
    }
}
