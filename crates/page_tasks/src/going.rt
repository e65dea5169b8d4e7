//! A task that can go on goes on until it halts.
ghost use Rattle.std.specs.Prelude.{◌≡◌, ◌+◌, ◌<◌, ◌^◌, ℕ, false, IfOk};
ghost use Rattle.lua_machine.specs.LuaStoreSeen.{StoreView};
ghost use Rattle.wiki_expand.specs.Standing.{IsReady, depth_in, templates_in};
ghost use Rattle.lua_machine.specs.declared.event.Event.TheVariants as event_kind;
ghost use Rattle.lua_machine.specs.Events.{MachineOf, EventOf};
ghost use Rattle.page_tasks.specs.declared.task.Task.TheVariants as task_kind;
ghost use Rattle.page_tasks.specs.Tasks.{TaskIn, CanGo};
ghost use Rattle.page_tasks.specs.declared.task.Halt.TheVariants as halt_kind;
ghost use Rattle.page_tasks.specs.Going.{Halts, GoesOnCounting, MachineGoes, IsInvocationHalt, IsLoadHalt, halt_of};
ghost use Rattle.page_tasks.specs.Calls.{ExpanderGoes, ExpandsTo, RunsTo};
ghost use Rattle.page_tasks.specs.Falling.{CanGiveBack, StepsFall, Falls};

use crate::boxed::Boxed;
use crate::task::{Begun, Halt, Halted, Reply, Task};
use lua_code::NoMemory;
use lua_machine::{Event, Machine, Outcome, Steps, Store};
use mw_frame::{Ask, Job};
use page_ground::JobOutcome;
use page_ground::ending::{end_data, end_outcome};
use std::alloc::Global;
use std::sync::ledger::Ledger;
use wiki_expand::{Expander, Left, Move};

/// An expansion halts at an invocation.
fn invokes(alloc: Global, job: Job) -> Result<Halt, NoMemory>
    ensures { IfOk result (λ h. h ≡ halt_kind.Invokes job) }
{
    let held = Boxed::new(alloc, job)?;
    Ok(Halt::Invokes(held))
}

/// How an expansion halts.
fn move_halt(alloc: Global, next: Move) -> Result<Halt, NoMemory>
    ensures { IfOk result (λ h. h ≡ halt_of next) }
{
    match next {
        Move::Text(text) => Ok(Halt::Comes(Reply::Ended(JobOutcome::Done(text)))),
        Move::Invoke(job) => invokes(alloc, job),
    }
}

/// Goes on with an expansion up to its move.
fn go_expander<'w>(left: &mut Left, expander: &mut Boxed<Expander<'w>>) -> Result<Move, NoMemory>
    requires can { IsReady expander.old }
    requires depth { left.old.depth + depth_in expander.old < 2 ^ 64 }
    requires templates { left.old.templates + templates_in expander.old < 2 ^ 64 }
    ensures { IfOk result (λ m. ExpanderGoes expander.old left.old m expander.new left.new) }
{
    expander.get_mut().go(left)
}

/// Goes on with an expansion up to how it halts.
fn run_expansion<'w>(
    alloc: Global,
    left: &mut Left,
    expander: &mut Boxed<Expander<'w>>,
) -> Result<Halt, NoMemory>
    requires can { IsReady expander.old }
    requires depth { left.old.depth + depth_in expander.old < 2 ^ 64 }
    requires templates { left.old.templates + templates_in expander.old < 2 ^ 64 }
    ensures { IfOk result (λ h. ExpandsTo expander.old left.old expander.new left.new h) }
{
    let next = go_expander(left, expander)?;
    move_halt(alloc, next)
}

/// Goes on with an expansion.
pub(crate) fn go_expansion<'w>(
    alloc: Global,
    left: &mut Left,
    expander: Boxed<Expander<'w>>,
) -> Result<Halted<'w>, NoMemory>
    requires can { IsReady expander }
    requires back { CanGiveBack left.old (task_kind.Expansion expander) }
    ensures halts { (s : StoreView) (k : ℕ)
        → IfOk result (λ x.
        Halts s left.old k (task_kind.Expansion expander.entry) s left.new k x) }
    ensures goes { (s : StoreView) (k k' : ℕ)
        → IfOk result (λ x.
        GoesOnCounting s left.old k (task_kind.Expansion expander.entry) s left.new k' x) }
    ensures falls { IfOk result (λ x.
        Falls left.old (task_kind.Expansion expander.entry) left.new x) }
{
    let mut expander = expander;
    match run_expansion(alloc, left, &mut expander) {
        Ok(halt) => Ok(Halted {
            task: Task::Expansion(expander),
            halt,
        }),
        Err(_) => {
            drop(expander);
            Err(NoMemory)
        }
    }
}

/// Whether a run of Lua asks that has taken no step.
fn is_idle(event: &Event, before: u64, after: u64) -> bool
    ensures { result ≡ false → StepsFall event.now before after }
{
    match event {
        Event::Asks(_) => after >= before,
        Event::Over(_) => false,
        Event::Spent(_) => false,
    }
}

/// A value, unless it is refused.
fn unless<T: Drop>(refused: bool, value: T) -> Result<T, NoMemory>
    ensures { IfOk result (λ x. (x ≡ value) × (refused ≡ false)) }
{
    if refused {
        return Err(NoMemory);
    }
    Ok(value)
}

/// Goes on with a run of Lua up to its event. One that asks has called a function since it began or was told a reply, and so has taken a step:
/// that pages come to an end rests on it. A machine does not promise it, so it is tested.
fn go_machine<'w, L: Ledger>(
    store: &mut Store,
    left: &mut Left,
    machine: &mut Boxed<Machine<'w>>,
    turns: &mut Steps<L>,
) -> Result<Event, NoMemory>
    requires of { MachineOf store.old machine.old }
    requires calls { left.old.calls + machine.old.state.calls < 2 ^ 64 }
    ensures went { IfOk result (λ e.
        MachineGoes store.old left.old turns.old machine.old
        store.new left.new turns.new machine.new e) }
    ensures falls { IfOk result (λ e. StepsFall e left.old.steps left.new.steps) }
{
    let before = left.steps;
    let event = machine.get_mut().go(store, left, turns)?;
    let idle = is_idle(&event, before, left.steps);
    unless(idle, event)
}

/// A run of Lua halts at a question.
fn asks(alloc: Global, question: Ask) -> Result<Halt, NoMemory>
    ensures { IfOk result (λ h. h ≡ halt_kind.Asks question) }
{
    let held = Boxed::new(alloc, question)?;
    Ok(Halt::Asks(held))
}

/// How an invocation halts that is over.
fn over_halt(alloc: Global, store: &Store, outcome: Outcome) -> Result<Halt, NoMemory>
    requires { EventOf store.now (event_kind.Over outcome) }
    ensures { IfOk result (λ h. IsInvocationHalt store.now (event_kind.Over outcome) h) }
{
    let so = end_outcome(alloc, store, &outcome)?;
    Ok(Halt::Comes(Reply::Ended(so)))
}

/// How an invocation halts: it has ended by itself in any case, or asks. An allowance that is spent ends the invocation, and not the page.
fn invocation_halt(alloc: Global, store: &Store, event: Event) -> Result<Halt, NoMemory>
    requires { EventOf store.now event }
    ensures { IfOk result (λ h. IsInvocationHalt store.now event h) }
{
    match event {
        Event::Over(outcome) => over_halt(alloc, store, outcome),
        Event::Spent(which) => Ok(Halt::Comes(Reply::Ended(JobOutcome::Spent(which)))),
        Event::Asks(question) => asks(alloc, question),
    }
}

/// How the load of a data module halts that is over: with data.
fn loaded_halt(alloc: Global, store: &Store, outcome: Outcome) -> Result<Halt, NoMemory>
    requires { EventOf store.now (event_kind.Over outcome) }
    ensures { IfOk result (λ h. IsLoadHalt store.now (event_kind.Over outcome) h) }
{
    let data = end_data(alloc, store, &outcome)?;
    Ok(Halt::Comes(Reply::Data(data)))
}

/// How the load of a data module halts: with data, spent, or it asks.
fn load_halt(alloc: Global, store: &Store, event: Event) -> Result<Halt, NoMemory>
    requires { EventOf store.now event }
    ensures { IfOk result (λ h. IsLoadHalt store.now event h) }
{
    match event {
        Event::Over(outcome) => loaded_halt(alloc, store, outcome),
        Event::Spent(which) => Ok(Halt::Comes(Reply::Spent(which))),
        Event::Asks(question) => asks(alloc, question),
    }
}

/// Goes on with the run of an invocation.
fn run_invocation<'w, L: Ledger>(
    alloc: Global,
    store: &mut Store,
    left: &mut Left,
    machine: &mut Boxed<Machine<'w>>,
    turns: &mut Steps<L>,
) -> Result<Halt, NoMemory>
    requires of { MachineOf store.old machine.old }
    requires calls { left.old.calls + machine.old.state.calls < 2 ^ 64 }
    ensures { IfOk result (λ h.
        RunsTo IsInvocationHalt store.old left.old turns.old machine.old
        store.new left.new turns.new machine.new h) }
{
    let event = go_machine(store, left, machine, turns)?;
    invocation_halt(alloc, store, event)
}

/// Goes on with the run of a load.
fn run_load<'w, L: Ledger>(
    alloc: Global,
    store: &mut Store,
    left: &mut Left,
    machine: &mut Boxed<Machine<'w>>,
    turns: &mut Steps<L>,
) -> Result<Halt, NoMemory>
    requires of { MachineOf store.old machine.old }
    requires calls { left.old.calls + machine.old.state.calls < 2 ^ 64 }
    ensures { IfOk result (λ h.
        RunsTo IsLoadHalt store.old left.old turns.old machine.old
        store.new left.new turns.new machine.new h) }
{
    let event = go_machine(store, left, machine, turns)?;
    load_halt(alloc, store, event)
}

/// Goes on with an invocation.
pub(crate) fn go_invocation<'w, L: Ledger>(
    alloc: Global,
    store: &mut Store,
    left: &mut Left,
    machine: Boxed<Machine<'w>>,
    turns: &mut Steps<L>,
) -> Result<Halted<'w>, NoMemory>
    requires of { MachineOf store.old machine }
    requires back { CanGiveBack left.old (task_kind.Invocation machine) }
    ensures halts { IfOk result (λ x.
        Halts store.old left.old turns.old (task_kind.Invocation machine.entry)
        store.new left.new turns.new x) }
    ensures goes { IfOk result (λ x.
        GoesOnCounting store.old left.old turns.old (task_kind.Invocation machine.entry)
        store.new left.new turns.new x) }
    ensures falls { IfOk result (λ x.
        Falls left.old (task_kind.Invocation machine.entry) left.new x) }
{
    let mut machine = machine;
    match run_invocation(alloc, store, left, &mut machine, turns) {
        Ok(halt) => Ok(Halted {
            task: Task::Invocation(machine),
            halt,
        }),
        Err(_) => {
            drop(machine);
            Err(NoMemory)
        }
    }
}

/// Goes on with the load of a data module.
pub(crate) fn go_load<'w, L: Ledger>(
    alloc: Global,
    store: &mut Store,
    left: &mut Left,
    begun: Begun,
    machine: Boxed<Machine<'w>>,
    turns: &mut Steps<L>,
) -> Result<Halted<'w>, NoMemory>
    requires of { TaskIn store.old (task_kind.Load begun machine) }
    requires back { CanGiveBack left.old (task_kind.Load begun machine) }
    ensures halts { IfOk result (λ x.
        Halts store.old left.old turns.old (task_kind.Load begun machine.entry)
        store.new left.new turns.new x) }
    ensures goes { IfOk result (λ x.
        GoesOnCounting store.old left.old turns.old (task_kind.Load begun machine.entry)
        store.new left.new turns.new x) }
    ensures falls { IfOk result (λ x.
        Falls left.old (task_kind.Load begun machine.entry) left.new x) }
{
    let mut machine = machine;
    match run_load(alloc, store, left, &mut machine, turns) {
        Ok(halt) => Ok(Halted {
            task: Task::Load(begun, machine),
            halt,
        }),
        Err(_) => {
            drop(begun);
            drop(machine);
            Err(NoMemory)
        }
    }
}

/// Goes on with a task until it has come to its reply, or asks. `left` is what is left of the page's allowances; the counter of turns rises by
/// what a run of Lua counts.
pub fn go_on<'w, L: Ledger>(
    alloc: Global,
    store: &mut Store,
    left: &mut Left,
    task: Task<'w>,
    turns: &mut Steps<L>,
) -> Result<Halted<'w>, NoMemory>
    requires of { TaskIn store.old task }
    requires can { CanGo task }
    requires back { CanGiveBack left.old task }
    ensures halts { IfOk result (λ x.
        Halts store.old left.old turns.old task.entry store.new left.new turns.new x) }
    ensures goes { IfOk result (λ x.
        GoesOnCounting store.old left.old turns.old task.entry store.new left.new turns.new x) }
    ensures falls { IfOk result (λ x. Falls left.old task.entry left.new x) }
{
    match task {
        Task::Expansion(expander) => go_expansion(alloc, left, expander),
        Task::Invocation(machine) => go_invocation(alloc, store, left, machine, turns),
        Task::Load(begun, machine) => go_load(alloc, store, left, begun, machine, turns),
    }
}
