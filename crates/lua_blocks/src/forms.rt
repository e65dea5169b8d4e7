//! How each form of a statement begins, whose node is paid and counted. What follows the statement waits.
ghost use Rattle.std.specs.Prelude.{◌≡◌, ◌∷◌, [], map, option_map, IfOk};
ghost use Rattle.page_run.specs.WkBaseDeclaredLeftLeft.{Left as Allowance};
ghost use Rattle.lua_code.specs.Seen.{expression_seen, expressions_seen, block_seen, target_seen};
ghost use Rattle.lua_state.specs.LuaSlotsPoints as point;
ghost use Rattle.lua_state.specs.LuaSlotsPoints.{Now, StatsNext};
ghost use Rattle.lua_code.specs.LuaSlotsStatements as machine;
ghost use Rattle.lua_state.specs.LuaStackOf.{FocusOf, FrameOf, InLoopOf};
ghost use Rattle.lua_state.specs.LuaStackSeen.{focus_seen, frame_seen, in_loop_seen};
ghost use Rattle.lua_state.specs.Makes.{Makes};
ghost use Rattle.lua_state.specs.Of.{StateOf};
ghost use Rattle.lua_state.specs.Seen.{frames_of, slots_of};

use crate::exits::{wait, wait_within};
use lua_code::{Expression, List, NoMemory, Statement, Target};
use lua_state::{Ending, Focus, Frame, InLoop, InStatement, State, Store, Thing, Turn, Values};
use std::alloc::Global;

/// This is next, before these statements.
pub fn then<'m>(
    store: &Store,
    state: &mut State<'m>,
    focus: Focus<'m>,
    rest: &'m [Statement],
) -> Result<Turn<'m>, NoMemory>
    requires state { StateOf store.now state.old }
    requires focus { FocusOf store.now focus }
    ensures { (l : Allowance) → IfOk result (λ r. Makes store.now state.old l store.now state.new l
        (Now (focus_seen store.now focus.entry (StatsNext (block_seen rest.now) ∷ frames_of store.now state.old)) (slots_of store.now state.old)) r) }
{
    let frame = Frame::Statement(InStatement::StatsNext(rest));
    wait(store, state, frame, focus)
}

/// The targets of an assignment are to be found (manual 2.4.3).
pub fn assign<'m>(
    alloc: Global,
    store: &Store,
    state: &mut State<'m>,
    targets: &'m List<Target>,
    values: &'m List<Expression>,
    rest: &'m [Statement],
) -> Result<Turn<'m>, NoMemory>
    requires state { StateOf store.now state.old }
    ensures { (l : Allowance) → IfOk result (λ r. Makes store.now state.old l store.now state.new l
        (Now (point.Finds (map target_seen targets.now) [] (expressions_seen values.now) (StatsNext (block_seen rest.now) ∷ frames_of store.now state.old)) (slots_of store.now state.old)) r) }
{
    let focus = Focus::Finds(targets.as_slice(), List::new(alloc), values);
    then(store, state, focus, rest)
}

/// A block of its own (manual 2.4.1): at its end its registers are gone.
pub fn block<'m>(
    store: &Store,
    state: &mut State<'m>,
    body: &'m List<Statement>,
    rest: &'m [Statement],
) -> Result<Turn<'m>, NoMemory>
    requires state { StateOf store.now state.old }
    ensures { (l : Allowance) → IfOk result (λ r. Makes store.now state.old l store.now state.new l
        (machine.within (block_seen body.now) (StatsNext (block_seen rest.now) ∷ frames_of store.now state.old) (slots_of store.now state.old)) r) }
{
    let outer = Frame::Statement(InStatement::StatsNext(rest));
    let inner = Frame::End(Ending::BlockEnd(state.regs.len()));
    let focus = Focus::Runs(body.as_slice());
    wait_within(store, state, outer, inner, focus)
}

/// An expression is evaluated, for which a loop waits that is to begin (manual 2.4.4 and 2.4.5).
pub fn loop_begins<'m>(
    store: &Store,
    state: &mut State<'m>,
    first: &'m Expression,
    waiting: InLoop<'m>,
    rest: &'m [Statement],
) -> Result<Turn<'m>, NoMemory>
    requires state { StateOf store.now state.old }
    requires waiting { InLoopOf store.now waiting }
    ensures { (l : Allowance) → IfOk result (λ r. Makes store.now state.old l store.now state.new l
        (Now (point.Evals (expression_seen first.now) (in_loop_seen store.now.texts waiting.entry ∷ StatsNext (block_seen rest.now) ∷ frames_of store.now state.old)) (slots_of store.now state.old)) r) }
{
    let outer = Frame::Statement(InStatement::StatsNext(rest));
    wait_within(
        store,
        state,
        outer,
        Frame::Loop(waiting),
        Focus::Evaluates(first),
    )
}

/// The first turn of a `repeat` (manual 2.4.4).
pub fn repeat<'m>(
    store: &Store,
    state: &mut State<'m>,
    body: &'m List<Statement>,
    test: &'m Expression,
    rest: &'m [Statement],
) -> Result<Turn<'m>, NoMemory>
    requires state { StateOf store.now state.old }
    ensures { (l : Allowance) → IfOk result (λ r. Makes store.now state.old l store.now state.new l
        (Now (point.Starts (point.RepeatTurnS (block_seen body.now) (expression_seen test.now)) (StatsNext (block_seen rest.now) ∷ frames_of store.now state.old)) (slots_of store.now state.old)) r) }
{
    let focus = Focus::Starts(Thing::RepeatTurn(body, test));
    then(store, state, focus, rest)
}

/// The step of a counting loop, if one is given.
fn step_of<'m>(by: &'m Option<Box<Expression>>) -> Option<&'m Expression>
    ensures { option_map (λ e. expression_seen e.now) result ≡ option_map (λ b. expression_seen b.value) by.now }
{
    match by {
        Some(by) => Some(by),
        None => None,
    }
}

/// A counting loop begins with its first bound.
pub fn count<'m>(
    store: &Store,
    state: &mut State<'m>,
    boxed: bool,
    bounds: (&'m Box<Expression>, &'m Box<Expression>),
    by: &'m Option<Box<Expression>>,
    body: &'m List<Statement>,
    line: u32,
    rest: &'m [Statement],
) -> Result<Turn<'m>, NoMemory>
    requires state { StateOf store.now state.old }
    ensures { (l : Allowance) → IfOk result (λ r. Makes store.now state.old l store.now state.new l
        (Now (point.Evals (expression_seen bounds.entry.0.now.value) (point.CountFrom boxed (expression_seen bounds.entry.1.now.value) (option_map (λ b. expression_seen b.value) by.now) (block_seen body.now) line ∷ StatsNext (block_seen rest.now) ∷ frames_of store.now state.old)) (slots_of store.now state.old)) r) }
{
    let (from, to) = bounds;
    let step = step_of(by);
    let waiting = InLoop::CountFrom(boxed, to, step, body, line);
    loop_begins(store, state, from, waiting, rest)
}

/// The values of these expressions are next, for which this frame waits.
fn values_for<'m>(
    alloc: Global,
    store: &Store,
    state: &mut State<'m>,
    values: &'m List<Expression>,
    waiting: Frame<'m>,
    rest: &'m [Statement],
) -> Result<Turn<'m>, NoMemory>
    requires state { StateOf store.now state.old }
    requires waiting { FrameOf store.now waiting }
    ensures { (l : Allowance) → IfOk result (λ r. Makes store.now state.old l store.now state.new l
        (Now (point.Lists (expressions_seen values.now) [] (frame_seen store.now.texts waiting.entry ∷ StatsNext (block_seen rest.now) ∷ frames_of store.now state.old)) (slots_of store.now state.old)) r) }
{
    let outer = Frame::Statement(InStatement::StatsNext(rest));
    let focus = Focus::Lists(values.as_slice(), Values::new(alloc));
    wait_within(store, state, outer, waiting, focus)
}

/// The values that a function gives are next (manual 2.4.4).
pub fn return_values<'m>(
    alloc: Global,
    store: &Store,
    state: &mut State<'m>,
    values: &'m List<Expression>,
    rest: &'m [Statement],
) -> Result<Turn<'m>, NoMemory>
    requires state { StateOf store.now state.old }
    ensures { (l : Allowance) → IfOk result (λ r. Makes store.now state.old l store.now state.new l
        (Now (point.Lists (expressions_seen values.now) [] (point.ReturnNow ∷ StatsNext (block_seen rest.now) ∷ frames_of store.now state.old)) (slots_of store.now state.old)) r) }
{
    let frame = Frame::Statement(InStatement::ReturnNow);
    values_for(alloc, store, state, values, frame, rest)
}

/// The values of new local variables are next (manual 2.4.7), which the statements behind see.
pub fn declare<'m>(
    alloc: Global,
    store: &Store,
    state: &mut State<'m>,
    flags: &'m List<bool>,
    values: &'m List<Expression>,
    rest: &'m [Statement],
) -> Result<Turn<'m>, NoMemory>
    requires state { StateOf store.now state.old }
    ensures { (l : Allowance) → IfOk result (λ r. Makes store.now state.old l store.now state.new l
        (Now (point.Lists (expressions_seen values.now) [] (point.DeclareNow flags.now (block_seen rest.now) ∷ frames_of store.now state.old)) (slots_of store.now state.old)) r) }
{
    let frame = InStatement::DeclareNow(flags.as_slice(), rest);
    let focus = Focus::Lists(values.as_slice(), Values::new(alloc));
    wait(store, state, Frame::Statement(frame), focus)
}

/// A generic loop begins with the values of its iterator (manual 2.4.5).
pub fn each<'m>(
    alloc: Global,
    store: &Store,
    state: &mut State<'m>,
    flags: &'m List<bool>,
    values: &'m List<Expression>,
    body: &'m List<Statement>,
    line: u32,
    rest: &'m [Statement],
) -> Result<Turn<'m>, NoMemory>
    requires state { StateOf store.now state.old }
    ensures { (l : Allowance) → IfOk result (λ r. Makes store.now state.old l store.now state.new l
        (Now (point.Lists (expressions_seen values.now) [] (point.EachValues flags.now (block_seen body.now) line ∷ StatsNext (block_seen rest.now) ∷ frames_of store.now state.old)) (slots_of store.now state.old)) r) }
{
    let waiting = InLoop::EachValues(flags.as_slice(), body, line);
    values_for(alloc, store, state, values, Frame::Loop(waiting), rest)
}
