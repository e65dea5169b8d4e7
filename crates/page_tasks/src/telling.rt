//! A task that waits is told a reply, and goes on until it halts.
ghost use Rattle.std.specs.Prelude.{◌≡◌, ◌+◌, ◌<◌, ◌≤◌, ◌^◌, [], ℕ, List, IfOk, OnOk};
ghost use Rattle.page_run.specs.Outcome.{Outcome as PlainOutcome};
ghost use Rattle.page_run.specs.State.{Gives, Exhausts};
ghost use Rattle.lua_code.specs.LuaHeapValue.{Value as PlainValue};
ghost use Rattle.lua_machine.specs.LuaMeaningActs.{Jump};
ghost use Rattle.page_ground.specs.LuaMeaningQuestions.{Expanded, NoPage};
ghost use Rattle.lua_machine.specs.LuaStoreSeen.{StoreView};
ghost use Rattle.lua_machine.specs.LuaStoreParts.{IsLater};
ghost use Rattle.lua_machine.specs.Events.{MachineOf, AnswerOf, answer_outcome};
ghost use Rattle.wiki_expand.specs.Standing.{IsReady, IsWaiting};
ghost use Rattle.page_ground.specs.PageMeaningOutcomes.{outcome_text};
ghost use Rattle.page_tasks.specs.declared.task.Task.TheVariants as task_kind;
ghost use Rattle.page_ground.specs.Seen.{data_seen, CanBePut};
ghost use Rattle.page_tasks.specs.Seen.{answered_text};
ghost use Rattle.page_tasks.specs.Tasks.{TaskIn, CanBeTold};
ghost use Rattle.page_tasks.specs.Going.{Halts, GoesOnWith, GoesOnWithCounting, ToldCounting, TextToldCounting, PutsAnswer};
ghost use Rattle.page_tasks.specs.Calls.{ExpanderIsTold, MachineIsTold};
ghost use Rattle.page_tasks.specs.Falling.{CanGiveBack, Falls};
ghost use Rattle.page_tasks.specs.Refusing.{none_left, refusal};

use crate::boxed::Boxed;
use crate::going::{go_expansion, go_invocation, go_load};
use crate::task::{Begun, Halt, Halted, Reply, Task};
use lua_code::NoMemory;
use lua_machine::{Answer, Machine, Steps, Store};
use mw_frame::Bytes;
use page_ground::data::Data;
use page_ground::ending::outcome_text;
use page_ground::{JobOutcome, put_in};
use page_run::Which;
use std::alloc::Global;
use std::sync::ledger::Ledger;
use wiki_expand::{Expander, Left};

/// No bytes.
fn no_text(alloc: Global) -> Bytes
    ensures { result ≡ [] }
{
    Bytes::of_vec(Vec::new(alloc))
}

/// The text that an expansion is told for an answer. It is told no other answer than a text.
fn text_answered(alloc: Global, answer: Answer) -> Bytes
    ensures { result ≡ answered_text answer }
{
    match answer {
        Answer::Expanded(text) => text,
        Answer::NoPage => no_text(alloc),
        Answer::Loaded(_) => no_text(alloc),
        Answer::LoadFailed(_) => no_text(alloc),
    }
}

/// An expansion is told a text.
fn answer_expander<'w>(
    left: &mut Left,
    expander: &mut Boxed<Expander<'w>>,
    text: Bytes,
) -> Result<(), NoMemory>
    requires { IsWaiting expander.old }
    ensures answers { OnOk result (ExpanderIsTold expander.old left.old text expander.new
        left.new) }
    ensures can { OnOk result (IsReady expander.new) }
{
    expander.get_mut().answer(left, text)
}

/// An expansion is told a text, and goes on.
fn tell_expansion<'w>(
    alloc: Global,
    left: &mut Left,
    expander: Boxed<Expander<'w>>,
    text: Bytes,
) -> Result<Halted<'w>, NoMemory>
    requires waits { IsWaiting expander }
    requires back { CanGiveBack left.old (task_kind.Expansion expander) }
    ensures halts { (s : StoreView) (k : ℕ)
        → IfOk result (λ x.
        Halts s left.old k (task_kind.Expansion expander.entry) s left.new k x) }
    ensures goes { (s : StoreView) (k k' high : ℕ) (o : PlainOutcome (List PlainValue) Jump)
        → IfOk result (λ x.
        TextToldCounting s left.old k (task_kind.Expansion expander.entry) text o high s
        left.new k' x) }
    ensures falls { IfOk result (λ x.
        Falls left.old (task_kind.Expansion expander.entry) left.new x) }
{
    let mut expander = expander;
    match answer_expander(left, &mut expander, text) {
        Ok(_) => go_expansion(alloc, left, expander),
        Err(_) => {
            drop(expander);
            Err(NoMemory)
        }
    }
}

/// A run of Lua is told an answer of the store.
fn answer_machine<'w>(
    store: &mut Store,
    machine: &mut Boxed<Machine<'w>>,
    answer: Answer,
    height: u64,
) -> Result<(), NoMemory>
    requires of { MachineOf store.old machine.old }
    requires answer { AnswerOf store.old answer }
    requires height { machine.old.state.calls + height < 2 ^ 64 }
    ensures answers { OnOk result (MachineIsTold store.old machine.old
        (answer_outcome store.old.texts answer) height store.new machine.new) }
    ensures of { OnOk result (MachineOf store.new machine.new) }
{
    machine.get_mut().answer(store, answer, height)
}

/// An invocation is told an answer of the store, and goes on.
fn tell_invocation<'w, L: Ledger>(
    alloc: Global,
    store: &mut Store,
    left: &mut Left,
    machine: Boxed<Machine<'w>>,
    answer: Answer,
    height: u64,
    turns: &mut Steps<L>,
) -> Result<Halted<'w>, NoMemory>
    requires of { MachineOf store.old machine }
    requires back { CanGiveBack left.old (task_kind.Invocation machine) }
    requires answer { AnswerOf store.old answer }
    requires height { height ≤ left.old.calls }
    ensures halts { IfOk result (λ x.
        Halts store.old left.old turns.old (task_kind.Invocation machine.entry)
        store.new left.new turns.new x) }
    ensures goes { IfOk result (λ x.
        ToldCounting store.old left.old turns.old (task_kind.Invocation machine.entry)
        (answer_outcome store.old.texts answer) height store.new left.new turns.new x) }
    ensures falls { IfOk result (λ x.
        Falls left.old (task_kind.Invocation machine.entry) left.new x) }
{
    let mut machine = machine;
    match answer_machine(store, &mut machine, answer, height) {
        Ok(_) => go_invocation(alloc, store, left, machine, turns),
        Err(_) => {
            drop(machine);
            Err(NoMemory)
        }
    }
}

/// A load is told an answer of the store, and goes on.
fn tell_load<'w, L: Ledger>(
    alloc: Global,
    store: &mut Store,
    left: &mut Left,
    begun: Begun,
    machine: Boxed<Machine<'w>>,
    answer: Answer,
    height: u64,
    turns: &mut Steps<L>,
) -> Result<Halted<'w>, NoMemory>
    requires of { TaskIn store.old (task_kind.Load begun machine) }
    requires back { CanGiveBack left.old (task_kind.Load begun machine) }
    requires answer { AnswerOf store.old answer }
    requires height { height ≤ left.old.calls }
    ensures halts { IfOk result (λ x.
        Halts store.old left.old turns.old (task_kind.Load begun machine.entry)
        store.new left.new turns.new x) }
    ensures goes { IfOk result (λ x.
        ToldCounting store.old left.old turns.old (task_kind.Load begun machine.entry)
        (answer_outcome store.old.texts answer) height store.new left.new turns.new x) }
    ensures falls { IfOk result (λ x.
        Falls left.old (task_kind.Load begun machine.entry) left.new x) }
{
    let mut machine = machine;
    match answer_machine(store, &mut machine, answer, height) {
        Ok(_) => go_load(alloc, store, left, begun, machine, turns),
        Err(_) => {
            drop(begun);
            drop(machine);
            Err(NoMemory)
        }
    }
}

/// A task is told an answer of the store, and goes on. An expansion is told its text.
fn tell<'w, L: Ledger>(
    alloc: Global,
    store: &mut Store,
    left: &mut Left,
    task: Task<'w>,
    answer: Answer,
    height: u64,
    turns: &mut Steps<L>,
) -> Result<Halted<'w>, NoMemory>
    requires of { TaskIn store.old task }
    requires waits { CanBeTold task }
    requires back { CanGiveBack left.old task }
    requires answer { AnswerOf store.old answer }
    requires height { height ≤ left.old.calls }
    ensures halts { IfOk result (λ x.
        Halts store.old left.old turns.old task.entry store.new left.new turns.new x) }
    ensures goes { IfOk result (λ x.
        TextToldCounting store.old left.old turns.old task.entry (answered_text answer)
        (answer_outcome store.old.texts answer) height store.new left.new turns.new x) }
    ensures falls { IfOk result (λ x. Falls left.old task.entry left.new x) }
{
    match task {
        Task::Expansion(expander) => {
            let text = text_answered(alloc, answer);
            tell_expansion(alloc, left, expander, text)
        }
        Task::Invocation(machine) => {
            tell_invocation(alloc, store, left, machine, answer, height, turns)
        }
        Task::Load(begun, machine) => {
            tell_load(alloc, store, left, begun, machine, answer, height, turns)
        }
    }
}

/// A task is told the text of what it asked for, which ended so.
pub fn tell_text<'w, L: Ledger>(
    alloc: Global,
    store: &mut Store,
    left: &mut Left,
    task: Task<'w>,
    so: JobOutcome,
    turns: &mut Steps<L>,
) -> Result<Halted<'w>, NoMemory>
    requires of { TaskIn store.old task }
    requires waits { CanBeTold task }
    requires back { CanGiveBack left.old task }
    ensures halts { IfOk result (λ x.
        Halts store.old left.old turns.old task.entry store.new left.new turns.new x) }
    ensures goes { IfOk result (λ x.
        GoesOnWithCounting store.old left.old turns.old task.entry
        (Gives (Expanded (outcome_text so))) 0 store.new left.new turns.new x) }
    ensures falls { IfOk result (λ x. Falls left.old task.entry left.new x) }
{
    match outcome_text(alloc, so) {
        Ok(text) => tell(alloc, store, left, task, Answer::Expanded(text), 0, turns),
        Err(_) => {
            drop(task);
            Err(NoMemory)
        }
    }
}

/// A task is told that the invocation for which it asked can't be paid: the steps that are left go, and nothing is made for it (Extension:Scribunto,
/// "Script error").
pub fn tell_unpaid<'w, L: Ledger>(
    alloc: Global,
    store: &mut Store,
    left: &mut Left,
    task: Task<'w>,
    turns: &mut Steps<L>,
) -> Result<Halted<'w>, NoMemory>
    requires of { TaskIn store.old task }
    requires waits { CanBeTold task }
    requires back { CanGiveBack left.old task }
    ensures halts { IfOk result (λ x. Halts store.old (none_left left.old) turns.old task.entry store.new left.new turns.new x) }
    ensures goes { IfOk result (λ x. (n : ℕ) → turns.new ≡ turns.old + n → GoesOnWith store.old (none_left left.old) task.entry (Gives refusal) 0 store.new left.new n x) }
    ensures falls { IfOk result (λ x. Falls (none_left left.old) task.entry left.new x) }
{
    left.steps = 0;
    let spent = JobOutcome::Spent(Which::Steps);
    tell_text(alloc, store, left, task, spent, turns)
}

/// A task is told that there is no such page or module.
pub fn tell_none<'w, L: Ledger>(
    alloc: Global,
    store: &mut Store,
    left: &mut Left,
    task: Task<'w>,
    turns: &mut Steps<L>,
) -> Result<Halted<'w>, NoMemory>
    requires of { TaskIn store.old task }
    requires waits { CanBeTold task }
    requires back { CanGiveBack left.old task }
    ensures halts { IfOk result (λ x.
        Halts store.old left.old turns.old task.entry store.new left.new turns.new x) }
    ensures goes { IfOk result (λ x.
        GoesOnWithCounting store.old left.old turns.old task.entry (Gives NoPage) 0
        store.new left.new turns.new x) }
    ensures falls { IfOk result (λ x. Falls left.old task.entry left.new x) }
{
    tell(alloc, store, left, task, Answer::NoPage, 0, turns)
}

/// Data as an answer of the store: its tables are put into the store, read-only (Scribunto, `mw.loadData`).
fn put_data(alloc: Global, store: &mut Store, given: &Data) -> Result<Answer, NoMemory>
    requires { CanBePut given.now }
    ensures of { IfOk result (AnswerOf store.new) }
    ensures later { OnOk result (IsLater store.old store.new) }
    ensures puts { IfOk result (λ a.
        PutsAnswer store.old.heap store.new.heap (data_seen given.now)
        (answer_outcome store.new.texts a)) }
    ensures text { IfOk result (λ a. answered_text a ≡ []) }
{
    match given {
        Data::Tables(graph) => {
            let root = put_in(alloc, store, graph, true)?;
            Ok(Answer::Loaded(root))
        }
        Data::Failed(message) => {
            let message = message.copy()?;
            Ok(Answer::LoadFailed(message))
        }
    }
}

/// A task is told data, whose tables are put into the store, read-only (Scribunto, `mw.loadData`), or the message of a load that failed.
/// `height` is the most calls that were in progress at one time in the load.
pub fn tell_data<'w, L: Ledger>(
    alloc: Global,
    store: &mut Store,
    left: &mut Left,
    task: Task<'w>,
    given: &Data,
    height: u64,
    turns: &mut Steps<L>,
) -> Result<Halted<'w>, NoMemory>
    requires of { TaskIn store.old task }
    requires waits { CanBeTold task }
    requires back { CanGiveBack left.old task }
    requires data { CanBePut given.now }
    requires height { height ≤ left.old.calls }
    ensures halts { IfOk result (λ x.
        Halts store.old left.old turns.old task.entry store.new left.new turns.new x) }
    ensures goes { IfOk result (λ x.
        GoesOnWithCounting store.old left.old turns.old task.entry (Gives (data_seen given.now))
        height store.new left.new turns.new x) }
    ensures falls { IfOk result (λ x. Falls left.old task.entry left.new x) }
{
    match put_data(alloc, store, given) {
        Ok(answer) => tell(alloc, store, left, task, answer, height, turns),
        Err(_) => {
            drop(task);
            Err(NoMemory)
        }
    }
}

/// The calls in progress of a run that is spent are left again.
fn give_back<'w>(left: &mut Left, machine: &Boxed<Machine<'w>>)
    requires { left.old.calls + machine.now.state.calls < 2 ^ 64 }
    ensures { left.new ≡ record left.old { calls = left.old.calls + machine.now.state.calls } }
{
    let calls = machine.get().calls();
    left.calls += calls;
}

/// An invocation is told that an allowance is spent: it gives back its calls, and ends so.
fn spend_invocation<'w>(left: &mut Left, machine: Boxed<Machine<'w>>, which: Which) -> Halted<'w>
    requires back { CanGiveBack left.old (task_kind.Invocation machine) }
    ensures halts { (s : StoreView) (k : ℕ) → MachineOf s machine.entry
        → Halts s left.old k (task_kind.Invocation machine.entry) s left.new k result }
    ensures goes { (s : StoreView) (high : ℕ)
        → GoesOnWith s left.old (task_kind.Invocation machine.entry) (Exhausts which) high s
        left.new 0 result }
    ensures falls { Falls left.old (task_kind.Invocation machine.entry) left.new result }
{
    give_back(left, &machine);
    Halted {
        task: Task::Invocation(machine),
        halt: Halt::Comes(Reply::Ended(JobOutcome::Spent(which))),
    }
}

/// A load is told that an allowance is spent: it gives back its calls, and is spent too.
fn spend_load<'w>(
    left: &mut Left,
    begun: Begun,
    machine: Boxed<Machine<'w>>,
    which: Which,
) -> Halted<'w>
    requires back { CanGiveBack left.old (task_kind.Load begun machine) }
    ensures halts { (s : StoreView) (k : ℕ) → TaskIn s (task_kind.Load begun machine.entry)
        → Halts s left.old k (task_kind.Load begun machine.entry) s left.new k result }
    ensures goes { (s : StoreView) (high : ℕ)
        → GoesOnWith s left.old (task_kind.Load begun machine.entry) (Exhausts which) high s
        left.new 0 result }
    ensures falls { Falls left.old (task_kind.Load begun machine.entry) left.new result }
{
    give_back(left, &machine);
    Halted {
        task: Task::Load(begun, machine),
        halt: Halt::Comes(Reply::Spent(which)),
    }
}

/// A task is told that an allowance of Lua is spent, in a load that it asked for: an invocation ends so, and a load is
/// spent too. Neither the store nor the counter of turns changes. An expansion is never told so.
pub fn tell_spent<'w>(
    alloc: Global,
    left: &mut Left,
    task: Task<'w>,
    which: Which,
) -> Result<Halted<'w>, NoMemory>
    requires waits { CanBeTold task }
    requires back { CanGiveBack left.old task }
    ensures halts { IfOk result (λ x.
        (s : StoreView) (k : ℕ) → TaskIn s task.entry
        → Halts s left.old k task.entry s left.new k x) }
    ensures goes { IfOk result (λ x.
        (s : StoreView) (high : ℕ)
        → GoesOnWith s left.old task.entry (Exhausts which) high s left.new 0 x) }
    ensures falls { IfOk result (λ x. Falls left.old task.entry left.new x) }
{
    match task {
        Task::Expansion(expander) => {
            let text = no_text(alloc);
            tell_expansion(alloc, left, expander, text)
        }
        Task::Invocation(machine) => Ok(spend_invocation(left, machine, which)),
        Task::Load(begun, machine) => Ok(spend_load(left, begun, machine, which)),
    }
}
