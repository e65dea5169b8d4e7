//! A task has come to its reply, which the one below it is told.
ghost use Rattle.std.specs.Prelude.{◌≡◌, ◌-◌, ◌≤◌, IfOk, OnOk, min};
ghost use Rattle.page_meaning.specs.PageRunState.{Gives};
ghost use Rattle.page_tasks.specs.PageGroundGround.{ground_of};
ghost use Rattle.page_tasks.specs.PageGroundSeen.{data_seen, CanBePut};
ghost use Rattle.page_tasks.specs.Tasks.{TaskIn, CanBeTold};
ghost use Rattle.page_tasks.specs.Going.{Halts, GoesOnWithCounting};
ghost use Rattle.page_tasks.specs.Falling.{CanGiveBack, Falls};
ghost use Rattle.page_tasks.specs.PageGroundKept.{keep_with};
ghost use Rattle.page_tasks.specs.PageGroundNumbered.{Renumbers};
ghost use Rattle.page_tasks.specs.declared.task.Reply.TheVariants as reply_kind;
ghost use Rattle.page_driver.specs.Driven.{InProgress, MovesOn};
ghost use Rattle.page_driver.specs.Moving.{comes_with, loads_with, tower_with, after_task, Sinks};

use crate::tower::{Next, Tower, on};
use lua_code::NoMemory;
use mw_frame::Title;
use page_tasks::boxed::Boxed;
use page_tasks::task::{Begun, Halted, Reply, Task};
use page_tasks::telling::{tell_data, tell_spent, tell_text};
use page_tasks::{Context, Data, Keep, Kept, Left, Machine, Numbers, Steps, Store, keep_first};
use std::alloc::Global;
use std::sync::ledger::Ledger;

/// The steps that a load took.
fn charge_of(begun: &Begun, left: &Left) -> u64
    ensures { result ≡ begun.now.steps - left.now.steps }
{
    begun.steps.saturating_sub(left.steps)
}

/// The most calls that were in progress at one time in a load, which are never more than are left now that all are given back.
fn height_of(machine: &Boxed<Machine<'_>>, left: &Left) -> u64
    ensures { result ≡ min machine.now.height left.now.calls }
{
    machine.get().height().min(left.calls)
}

/// A task is told what a load gave, which is kept.
fn tell_kept<'w, L: Ledger>(
    alloc: Global,
    store: &mut Store,
    left: &mut Left,
    keep: &mut Keep,
    title: Title,
    kept: Kept,
    waiting: Task<'w>,
    turns: &mut Steps<L>,
) -> Result<Halted<'w>, NoMemory>
    requires of { TaskIn store.old waiting }
    requires waits { CanBeTold waiting }
    requires back { CanGiveBack left.old waiting }
    requires given { CanBePut kept.given }
    requires height { kept.height ≤ left.old.calls }
    ensures halts { IfOk result (λ x.
        Halts store.old left.old turns.old waiting.entry store.new left.new turns.new x) }
    ensures goes { IfOk result (λ x.
        GoesOnWithCounting store.old left.old turns.old waiting.entry (Gives (data_seen kept.given))
        kept.height store.new left.new turns.new x) }
    ensures falls { IfOk result (λ x. Falls left.old waiting.entry left.new x) }
    ensures keep { OnOk result (keep.new ≡ keep_with keep.old title kept) }
{
    let halted = tell_data(alloc, store, left, waiting, &kept.given, kept.height, turns)?;
    match keep_first(keep, title, kept) {
        Ok(_) => Ok(halted),
        Err(_) => {
            drop(halted);
            Err(NoMemory)
        }
    }
}

/// What a load gave is kept, and told to the task that asked for it.
fn hand_loaded<'w, L: Ledger>(
    around: &Context<'w>,
    store: &mut Store,
    left: &mut Left,
    tower: &mut Tower<'w>,
    begun: Begun,
    machine: Boxed<Machine<'w>>,
    given: Data,
    waiting: Task<'w>,
    turns: &mut Steps<L>,
) -> Result<Next<'w>, NoMemory>
    requires { InProgress (ground_of around.now) store.old left.old turns.old
        (tower_with waiting tower.old) (loads_with begun machine given) }
    ensures moves { IfOk result (λ n.
        MovesOn (ground_of around.now) store.old left.old turns.old
        (tower_with waiting.entry tower.old) (loads_with begun machine.entry given)
        store.new left.new turns.new tower.new n) }
    ensures sinks { IfOk result (λ n.
        Sinks left.old (tower_with waiting.entry tower.old) (loads_with begun machine.entry given)
        left.new tower.new n) }
    ensures numbers { OnOk result (tower.new.numbers ≡ tower.old.numbers) }
{
    let charge = charge_of(&begun, left);
    let height = height_of(&machine, left);
    drop(machine);
    let kept = Kept {
        given,
        charge,
        height,
    };
    on(tell_kept(
        around.alloc,
        store,
        left,
        &mut tower.keep,
        begun.title,
        kept,
        waiting,
        turns,
    ))
}

/// Data, to which only a load comes.
fn hand_data<'w, L: Ledger>(
    around: &Context<'w>,
    store: &mut Store,
    left: &mut Left,
    tower: &mut Tower<'w>,
    task: Task<'w>,
    given: Data,
    waiting: Task<'w>,
    turns: &mut Steps<L>,
) -> Result<Next<'w>, NoMemory>
    requires { InProgress (ground_of around.now) store.old left.old turns.old
        (tower_with waiting tower.old) (comes_with task (reply_kind.Data given)) }
    ensures moves { IfOk result (λ n.
        MovesOn (ground_of around.now) store.old left.old turns.old
        (tower_with waiting.entry tower.old) (comes_with task.entry (reply_kind.Data given))
        store.new left.new turns.new tower.new n) }
    ensures sinks { IfOk result (λ n.
        Sinks left.old (tower_with waiting.entry tower.old)
        (comes_with task.entry (reply_kind.Data given)) left.new tower.new n) }
    ensures numbers { OnOk result (tower.new.numbers ≡ tower.old.numbers) }
{
    match task {
        Task::Load(begun, machine) => hand_loaded(
            around, store, left, tower, begun, machine, given, waiting, turns,
        ),
        Task::Expansion(_) => unreachable!(),
        Task::Invocation(_) => unreachable!(),
    }
}

/// The newest of those that wait is told the reply, and goes on until it halts.
fn hand_down<'w, L: Ledger>(
    around: &Context<'w>,
    store: &mut Store,
    left: &mut Left,
    tower: &mut Tower<'w>,
    task: Task<'w>,
    reply: Reply,
    waiting: Task<'w>,
    turns: &mut Steps<L>,
) -> Result<Next<'w>, NoMemory>
    requires { InProgress (ground_of around.now) store.old left.old turns.old
        (tower_with waiting tower.old) (comes_with task reply) }
    ensures moves { IfOk result (λ n.
        MovesOn (ground_of around.now) store.old left.old turns.old
        (tower_with waiting.entry tower.old) (comes_with task.entry reply)
        store.new left.new turns.new tower.new n) }
    ensures sinks { IfOk result (λ n.
        Sinks left.old (tower_with waiting.entry tower.old) (comes_with task.entry reply)
        left.new tower.new n) }
    ensures numbers { OnOk result (tower.new.numbers ≡ tower.old.numbers) }
{
    match reply {
        Reply::Ended(so) => {
            drop(task);
            on(tell_text(around.alloc, store, left, waiting, so, turns))
        }
        Reply::Data(data) => hand_data(around, store, left, tower, task, data, waiting, turns),
        Reply::Spent(which) => {
            drop(task);
            on(tell_spent(around.alloc, left, waiting, which))
        }
    }
}

/// Where a task that has come to its reply is a run of Lua, the run around it is at work again.
fn leave_run(store: &mut Store, numbers: &mut Numbers, task: &Task<'_>)
    ensures numbers { numbers.new ≡ after_task task.now numbers.old }
    ensures renumbers { Renumbers store.old numbers.old store.new numbers.new }
{
    match task {
        Task::Expansion(_) => {}
        Task::Invocation(_) => numbers.end(store),
        Task::Load(_, _) => numbers.end(store),
    }
}

/// A task has come to its reply, and is left: where nobody waits the page is expanded.
pub(crate) fn hand_over<'w, L: Ledger>(
    around: &Context<'w>,
    store: &mut Store,
    left: &mut Left,
    tower: &mut Tower<'w>,
    task: Task<'w>,
    reply: Reply,
    turns: &mut Steps<L>,
) -> Result<Next<'w>, NoMemory>
    requires { InProgress (ground_of around.now) store.old left.old turns.old tower.old
        (comes_with task reply) }
    ensures moves { IfOk result (λ n.
        MovesOn (ground_of around.now) store.old left.old turns.old tower.old
        (comes_with task.entry reply) store.new left.new turns.new tower.new n) }
    ensures sinks { IfOk result (λ n.
        Sinks left.old tower.old (comes_with task.entry reply) left.new tower.new n) }
    ensures numbers { OnOk result (tower.new.numbers ≡ after_task task.entry tower.old.numbers) }
{
    leave_run(store, &mut tower.numbers, &task);
    match tower.stack.pop() {
        None => {
            drop(task);
            Ok(Next::Over(reply))
        }
        Some(waiting) => hand_down(around, store, left, tower, task, reply, waiting, turns),
    }
}
