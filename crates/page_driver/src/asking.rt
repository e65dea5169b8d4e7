//! A run of Lua asks for a template, for the expansion of a text, or for data (Scribunto, `frame:expandTemplate`, `frame:preprocess` and
//! `mw.loadData`).
ghost use Rattle.std.specs.Prelude.{◌≡◌, ◌≤◌, true, IfOk, OnOk};
ghost use Rattle.page_meaning.specs.PageRunState.{Gives};
ghost use Rattle.mw_frame.specs.declared.question.Ask.TheVariants as question_kind;
ghost use Rattle.page_tasks.specs.PageGroundGround.{ground_of, TellsHeld};
ghost use Rattle.page_tasks.specs.PageGroundKept.{kept_for, IsShort};
ghost use Rattle.page_tasks.specs.PageGroundNumbered.{after_start};
ghost use Rattle.page_tasks.specs.PageGroundSeen.{data_seen, CanBePut};
ghost use Rattle.page_tasks.specs.Tasks.{TaskIn, CanBeTold};
ghost use Rattle.page_tasks.specs.Going.{Halts, GoesOnWithCounting};
ghost use Rattle.page_tasks.specs.Falling.{CanGiveBack, Falls};
ghost use Rattle.page_driver.specs.Driven.{InProgress, MovesOn};
ghost use Rattle.page_driver.specs.Moving.{asks_with, less_steps, Sinks};

use crate::stacking::{go_above, push_run, push_task};
use crate::tower::{Next, Tower, on};
use lua_code::NoMemory;
use mw_frame::{Arg, Ask, Bytes, List, Scene, Title};
use page_tasks::beginning::{begin_load, begin_template, begin_text};
use page_tasks::task::{Halted, Task};
use page_tasks::telling::{tell_data, tell_none};
use page_tasks::{Context, Kept, Left, Steps, Store, find_covered, is_held};
use std::alloc::Global;
use std::sync::ledger::Ledger;

/// A template is expanded above the task that asks; where there is none of that title, the task is told so.
fn ask_template<'w, L: Ledger>(
    around: &Context<'w>,
    store: &mut Store,
    left: &mut Left,
    tower: &mut Tower<'w>,
    task: Task<'w>,
    scene: Scene,
    title: Title,
    args: List<Arg>,
    turns: &mut Steps<L>,
) -> Result<Next<'w>, NoMemory>
    requires { InProgress (ground_of around.now) store.old left.old turns.old tower.old
        (asks_with task (question_kind.Template scene title args)) }
    ensures moves { IfOk result (λ n.
        MovesOn (ground_of around.now) store.old left.old turns.old tower.old
        (asks_with task.entry (question_kind.Template scene title args))
        store.new left.new turns.new tower.new n) }
    ensures sinks { IfOk result (λ n.
        Sinks left.old tower.old (asks_with task.entry (question_kind.Template scene title args))
        left.new tower.new n) }
{
    let held = around.pages.holds(&title);
    if held {
        push_task(tower, task)?;
        let inner = begin_template(around, scene, title, args)?;
        return go_above(around, store, left, tower, inner, turns);
    }
    on(tell_none(around.alloc, store, left, task, turns))
}

/// A text is expanded above the task that asks.
fn ask_text<'w, L: Ledger>(
    around: &Context<'w>,
    store: &mut Store,
    left: &mut Left,
    tower: &mut Tower<'w>,
    task: Task<'w>,
    scene: Scene,
    text: Bytes,
    turns: &mut Steps<L>,
) -> Result<Next<'w>, NoMemory>
    requires { InProgress (ground_of around.now) store.old left.old turns.old tower.old
        (asks_with task (question_kind.Preprocess scene text)) }
    ensures moves { IfOk result (λ n.
        MovesOn (ground_of around.now) store.old left.old turns.old tower.old
        (asks_with task.entry (question_kind.Preprocess scene text))
        store.new left.new turns.new tower.new n) }
    ensures sinks { IfOk result (λ n.
        Sinks left.old tower.old (asks_with task.entry (question_kind.Preprocess scene text))
        left.new tower.new n) }
{
    push_task(tower, task)?;
    let inner = begin_text(around, scene, &text)?;
    go_above(around, store, left, tower, inner, turns)
}

/// A task is told what was kept of a module. It is charged as its load was, though nothing is run.
fn serve_kept<'w, L: Ledger>(
    alloc: Global,
    store: &mut Store,
    left: &mut Left,
    task: Task<'w>,
    kept: &Kept,
    turns: &mut Steps<L>,
) -> Result<Halted<'w>, NoMemory>
    requires of { TaskIn store.old task }
    requires waits { CanBeTold task }
    requires back { CanGiveBack left.old task }
    requires data { CanBePut kept.now.given }
    requires charge { kept.now.charge ≤ left.old.steps }
    requires height { kept.now.height ≤ left.old.calls }
    ensures halts { IfOk result (λ x.
        Halts store.old (less_steps left.old kept.now.charge) turns.old task.entry
        store.new left.new turns.new x) }
    ensures goes { IfOk result (λ x.
        GoesOnWithCounting store.old (less_steps left.old kept.now.charge) turns.old task.entry
        (Gives (data_seen kept.now.given)) kept.now.height store.new left.new turns.new x) }
    ensures falls { IfOk result (λ x.
        Falls (less_steps left.old kept.now.charge) task.entry left.new x) }
{
    left.steps -= kept.charge;
    tell_data(alloc, store, left, task, &kept.given, kept.height, turns)
}

/// A module of data is loaded above the task that asks, in a run with the next number.
fn ask_load<'w, L: Ledger>(
    around: &Context<'w>,
    store: &mut Store,
    left: &mut Left,
    tower: &mut Tower<'w>,
    task: Task<'w>,
    title: Title,
    turns: &mut Steps<L>,
) -> Result<Next<'w>, NoMemory>
    requires held { TellsHeld around.now.world.modules.now title true }
    requires short { IsShort (kept_for tower.old.keep title) left.old }
    requires progress { InProgress (ground_of around.now) store.old left.old turns.old tower.old
        (asks_with task (question_kind.Data title)) }
    ensures moves { IfOk result (λ n.
        MovesOn (ground_of around.now) store.old left.old turns.old tower.old
        (asks_with task.entry (question_kind.Data title))
        store.new left.new turns.new tower.new n) }
    ensures sinks { IfOk result (λ n.
        Sinks left.old tower.old (asks_with task.entry (question_kind.Data title))
        left.new tower.new n) }
    ensures numbers { OnOk result (tower.new.numbers ≡ after_start tower.old.numbers) }
{
    push_run(store, tower, task)?;
    let inner = begin_load(around, store, title, left.steps)?;
    go_above(around, store, left, tower, inner, turns)
}

/// Data of a module that is held is served from what is kept, where that is covered; else the module is loaded above the task that asks.
fn ask_held_data<'w, L: Ledger>(
    around: &Context<'w>,
    store: &mut Store,
    left: &mut Left,
    tower: &mut Tower<'w>,
    task: Task<'w>,
    title: Title,
    turns: &mut Steps<L>,
) -> Result<Next<'w>, NoMemory>
    requires held { TellsHeld around.now.world.modules.now title true }
    requires progress { InProgress (ground_of around.now) store.old left.old turns.old tower.old
        (asks_with task (question_kind.Data title)) }
    ensures moves { IfOk result (λ n.
        MovesOn (ground_of around.now) store.old left.old turns.old tower.old
        (asks_with task.entry (question_kind.Data title))
        store.new left.new turns.new tower.new n) }
    ensures sinks { IfOk result (λ n.
        Sinks left.old tower.old (asks_with task.entry (question_kind.Data title))
        left.new tower.new n) }
{
    match find_covered(&tower.keep, &title, left) {
        Some(kept) => {
            let charge = kept.charge;
            let halted = serve_kept(around.alloc, store, left, task, kept, turns)?;
            tower.repeat_charges += charge;
            Ok(Next::On(halted))
        }
        None => ask_load(around, store, left, tower, task, title, turns),
    }
}

/// Data of a module. Where none of that title is held, the task that asks is told so.
fn ask_known_data<'w, L: Ledger>(
    around: &Context<'w>,
    store: &mut Store,
    left: &mut Left,
    tower: &mut Tower<'w>,
    task: Task<'w>,
    title: Title,
    held: bool,
    turns: &mut Steps<L>,
) -> Result<Next<'w>, NoMemory>
    requires held { TellsHeld around.now.world.modules.now title held }
    requires progress { InProgress (ground_of around.now) store.old left.old turns.old tower.old
        (asks_with task (question_kind.Data title)) }
    ensures moves { IfOk result (λ n.
        MovesOn (ground_of around.now) store.old left.old turns.old tower.old
        (asks_with task.entry (question_kind.Data title))
        store.new left.new turns.new tower.new n) }
    ensures sinks { IfOk result (λ n.
        Sinks left.old tower.old (asks_with task.entry (question_kind.Data title))
        left.new tower.new n) }
{
    if held {
        return ask_held_data(around, store, left, tower, task, title, turns);
    }
    on(tell_none(around.alloc, store, left, task, turns))
}

/// Data of a module.
fn ask_data<'w, L: Ledger>(
    around: &Context<'w>,
    store: &mut Store,
    left: &mut Left,
    tower: &mut Tower<'w>,
    task: Task<'w>,
    title: Title,
    turns: &mut Steps<L>,
) -> Result<Next<'w>, NoMemory>
    requires { InProgress (ground_of around.now) store.old left.old turns.old tower.old
        (asks_with task (question_kind.Data title)) }
    ensures moves { IfOk result (λ n.
        MovesOn (ground_of around.now) store.old left.old turns.old tower.old
        (asks_with task.entry (question_kind.Data title))
        store.new left.new turns.new tower.new n) }
    ensures sinks { IfOk result (λ n.
        Sinks left.old tower.old (asks_with task.entry (question_kind.Data title))
        left.new tower.new n) }
{
    match is_held(around.world.modules, &title) {
        Some(held) => ask_known_data(around, store, left, tower, task, title, held, turns),
        None => {
            drop(task);
            Err(NoMemory)
        }
    }
}

/// A question is answered at once, or a task begins that answers it.
pub(crate) fn answer_question<'w, L: Ledger>(
    around: &Context<'w>,
    store: &mut Store,
    left: &mut Left,
    tower: &mut Tower<'w>,
    task: Task<'w>,
    question: Ask,
    turns: &mut Steps<L>,
) -> Result<Next<'w>, NoMemory>
    requires { InProgress (ground_of around.now) store.old left.old turns.old tower.old
        (asks_with task question) }
    ensures moves { IfOk result (λ n.
        MovesOn (ground_of around.now) store.old left.old turns.old tower.old
        (asks_with task.entry question) store.new left.new turns.new tower.new n) }
    ensures sinks { IfOk result (λ n.
        Sinks left.old tower.old (asks_with task.entry question) left.new tower.new n) }
{
    match question {
        Ask::Template(scene, title, args) => {
            ask_template(around, store, left, tower, task, scene, title, args, turns)
        }
        Ask::Preprocess(scene, text) => {
            ask_text(around, store, left, tower, task, scene, text, turns)
        }
        Ask::Data(title) => ask_data(around, store, left, tower, task, title, turns),
    }
}
