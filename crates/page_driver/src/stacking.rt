//! A task begins above the one that asks for it.
ghost use Rattle.std.specs.Prelude.{◌≡◌, ◌<◌, ◌≤◌, true, false, IfOk, OnOk};
ghost use Rattle.page_tasks.specs.PageGroundGround.{ground_of};
ghost use Rattle.page_tasks.specs.PageGroundNumbered.{after_start};
ghost use Rattle.page_driver.specs.Driven.{InProgress, IsStarting, MovesOn, StartsOn};
ghost use Rattle.page_driver.specs.Moving.{invokes_with, tower_with, GoesDown, Sinks};
ghost use Rattle.page_tasks.specs.Refusing.{start_charge};

use crate::tower::{Next, Tower, on};
use lua_code::NoMemory;
use mw_frame::Job;
use page_tasks::beginning::begin_invocation;
use page_tasks::boxed::Boxed;
use page_tasks::going::go_on;
use page_tasks::task::Task;
use page_tasks::telling::tell_unpaid;
use page_tasks::{Context, Left, Steps, Store};
use std::sync::ledger::Ledger;

/// One task more waits.
pub(crate) fn push_task<'w>(tower: &mut Tower<'w>, task: Task<'w>) -> Result<(), NoMemory>
    ensures { OnOk result (tower.new ≡ tower_with task.entry tower.old) }
{
    tower.stack.push(task)
}

/// One task more waits, and above it a run of Lua starts: the number of that run is the next one, and is at work in the store.
pub(crate) fn push_run<'w>(
    store: &mut Store,
    tower: &mut Tower<'w>,
    task: Task<'w>,
) -> Result<(), NoMemory>
    ensures tower { OnOk result (tower.new
        ≡ tower_with task.entry (record tower.old { numbers = after_start tower.old.numbers })) }
    ensures store { OnOk result (store.new ≡ record store.old { env = tower.old.numbers.started }) }
{
    push_task(tower, task)?;
    tower.numbers.start(store)
}

/// Goes on with a task that has begun above all that wait.
pub(crate) fn go_above<'w, L: Ledger>(
    around: &Context<'w>,
    store: &mut Store,
    left: &mut Left,
    tower: &Tower<'w>,
    inner: Task<'w>,
    turns: &mut Steps<L>,
) -> Result<Next<'w>, NoMemory>
    requires { IsStarting (ground_of around.now) store.old left.old turns.old tower.now inner }
    ensures on { IfOk result (λ n.
        StartsOn (ground_of around.now) store.old left.old turns.old tower.now inner.entry
        store.new left.new turns.new tower.now n) }
    ensures falls { IfOk result (λ n. GoesDown left.old inner.entry left.new n) }
{
    let _ = tower;
    on(go_on(around.alloc, store, left, inner, turns))
}

/// An invocation that can be paid begins above the expansion that asks for it, with the next number.
fn start_invocation<'w, L: Ledger>(
    around: &Context<'w>,
    store: &mut Store,
    left: &mut Left,
    tower: &mut Tower<'w>,
    task: Task<'w>,
    job: Boxed<Job>,
    turns: &mut Steps<L>,
) -> Result<Next<'w>, NoMemory>
    requires { InProgress (ground_of around.now) store.old left.old turns.old tower.old
        (invokes_with task job) }
    ensures moves { IfOk result (λ n.
        MovesOn (ground_of around.now) store.old left.old turns.old tower.old
        (invokes_with task.entry job) store.new left.new turns.new tower.new n) }
    ensures sinks { IfOk result (λ n.
        Sinks left.old tower.old (invokes_with task.entry job) left.new tower.new n) }
    ensures numbers { OnOk result (tower.new.numbers ≡ after_start tower.old.numbers) }
{
    push_run(store, tower, task)?;
    let inner = begin_invocation(around, store, job.into_inner())?;
    go_above(around, store, left, tower, inner, turns)
}

/// Whether the start of a run can be paid.
fn is_covered(left: &Left) -> bool
    ensures paid { result ≡ true → start_charge ≤ left.now.steps }
    ensures unpaid { result ≡ false → left.now.steps < start_charge }
{
    left.steps >= 1000
}

/// An expansion asks for an invocation, which begins above it. Where its start can't be paid nothing begins, and the expansion is told so at once.
pub(crate) fn invoke<'w, L: Ledger>(
    around: &Context<'w>,
    store: &mut Store,
    left: &mut Left,
    tower: &mut Tower<'w>,
    task: Task<'w>,
    job: Boxed<Job>,
    turns: &mut Steps<L>,
) -> Result<Next<'w>, NoMemory>
    requires { InProgress (ground_of around.now) store.old left.old turns.old tower.old (invokes_with task job) }
    ensures moves { IfOk result (λ n. MovesOn (ground_of around.now) store.old left.old turns.old tower.old (invokes_with task.entry job) store.new left.new turns.new tower.new n) }
    ensures sinks { IfOk result (λ n. Sinks left.old tower.old (invokes_with task.entry job) left.new tower.new n) }
    // A run that can be paid has the next number, and one that can't be paid does not start.
    ensures numbers { OnOk result (start_charge ≤ left.old.steps → tower.new.numbers ≡ after_start tower.old.numbers) }
    ensures refused { OnOk result (left.old.steps < start_charge → tower.new ≡ tower.old) }
{
    let covered = is_covered(left);
    if covered {
        return start_invocation(around, store, left, tower, task, job, turns);
    }
    on(tell_unpaid(around.alloc, store, left, task, turns))
}
