//! One move, with its charges.
ghost use Rattle.std.specs.Prelude.{◌+◌, ◌<◌, ◌^◌, ℕ, IfOk};
ghost use Rattle.lua_environment.specs.LuaStackOf.{FocusOf, GivenOf, JumpOf};
ghost use Rattle.lua_environment.specs.LuaStackDeclaredFocusFocusTheVariants as focus_kind;
ghost use Rattle.lua_evals.specs.LuaSlotsExpressions.{evals};
ghost use Rattle.lua_blocks.specs.LuaSlotsPoints.{Costs};
ghost use Rattle.lua_blocks.specs.LuaSlotsMoves.{begins};
ghost use Rattle.lua_code.specs.Seen.{expression_seen};
ghost use Rattle.lua_blocks.specs.LuaStackSeen.{thing_seen};
ghost use Rattle.lua_environment.specs.LuaStackOf.{ThingOf};
ghost use Rattle.lua_blocks.specs.LuaStateSeen.{slots_of, frames_of, constants_in};
ghost use Rattle.lua_blocks.specs.LuaStateOf.{StateOf};
ghost use Rattle.lua_runs.specs.LuaStateWorlds.{world_seen};
ghost use Rattle.lua_blocks.specs.LuaStateMakes.{Counts, LateCounts};
ghost use Rattle.lua_machine.specs.Moved.{MovesTo};
ghost use Rattle.lua_blocks.specs.LuaMeaningCharges.{node_charge};

use crate::frames::{give_frame, pass_frame};
use crate::things::begin;
use lua_blocks::{Focus, Given, Jump, Left, State, Steps, Thing, Turn, find, run, set};
use lua_code::{Expression, NoMemory};
use lua_evals::{evaluate, list};
use lua_runs::{begin_work, texts};
use lua_store::Store;
use page_run::Which;
use std::alloc::Global;
use std::sync::ledger::Ledger;

/// Values reach the newest frame. At the end, where no frame waits, they stay what is next.
#[inline(always)]
fn give<'m>(
    alloc: Global,
    store: &mut Store,
    left: &mut Left,
    state: &mut State<'m>,
    values: Given,
) -> Result<Turn<'m>, NoMemory>
    requires state { StateOf store.old state.old }
    requires calls { left.old.calls + state.old.calls < 2 ^ 64 }
    requires values { GivenOf store.old values }
    ensures { IfOk result (λ r. (k : ℕ) → MovesTo store.old state.old (focus_kind.Gives values) left.old k store.new state.new left.new k r) }
{
    match state.frames.pop() {
        Some(frame) => give_frame(alloc, store, left, state, frame, values),
        None => Ok(Turn::On(Focus::Gives(values))),
    }
}

/// A jump reaches the newest frame. At the end, where no frame waits, it stays what is next.
#[inline(always)]
fn pass<'m>(
    alloc: Global,
    store: &mut Store,
    left: &mut Left,
    state: &mut State<'m>,
    jump: Jump,
) -> Result<Turn<'m>, NoMemory>
    requires state { StateOf store.old state.old }
    requires calls { left.old.calls + state.old.calls < 2 ^ 64 }
    requires jump { JumpOf store.old jump }
    ensures { IfOk result (λ r. (k : ℕ) → MovesTo store.old state.old (focus_kind.Jumps jump) left.old k store.new state.new left.new k r) }
{
    match state.frames.pop() {
        Some(frame) => pass_frame(alloc, store, left, state, frame, jump),
        None => Ok(Turn::On(Focus::Jumps(jump))),
    }
}

/// An expression begins: it is a node.
#[inline(always)]
fn begin_expression<'m, L: Ledger>(
    alloc: Global,
    store: &mut Store,
    left: &mut Left,
    state: &mut State<'m>,
    expression: &'m Expression,
    turns: &mut Steps<L>,
) -> Result<Turn<'m>, NoMemory>
    requires state { StateOf store.old state.old }
    ensures { IfOk result (λ r. Counts store.old state.old left.old turns.old store.new state.new left.new turns.new (evals (constants_in store.old state.old) (expression_seen expression.now) (frames_of store.old state.old) (slots_of store.old state.old)) r) }
{
    if !left.take_steps(1) {
        return Ok(Turn::Spent(Which::Steps));
    }
    turns.tick();
    evaluate(alloc, store, left, state, expression)
}

/// A thing begins, which takes a step.
#[inline(always)]
fn begin_thing<'m, L: Ledger>(
    alloc: Global,
    store: &mut Store,
    left: &mut Left,
    state: &mut State<'m>,
    thing: Thing<'m>,
    turns: &mut Steps<L>,
) -> Result<Turn<'m>, NoMemory>
    requires state { StateOf store.old state.old }
    requires calls { left.old.calls + state.old.calls < 2 ^ 64 }
    requires thing { ThingOf store.old thing }
    ensures { IfOk result (λ r. LateCounts store.old state.old left.old turns.old store.new state.new left.new turns.new (Costs node_charge (begins (world_seen state.old.codes.world) (thing_seen store.old thing.entry) (frames_of store.old state.old) (slots_of store.old state.old))) r) }
{
    if !left.take_steps(1) {
        return Ok(Turn::Spent(Which::Steps));
    }
    begin(alloc, store, left, state, thing, turns)
}

/// One move, with its charges. Each arm hands on what its part answers.
#[inline(always)]
pub fn turn<'m, L: Ledger>(
    alloc: Global,
    store: &mut Store,
    left: &mut Left,
    state: &mut State<'m>,
    focus: Focus<'m>,
    turns: &mut Steps<L>,
) -> Result<Turn<'m>, NoMemory>
    requires state { StateOf store.old state.old }
    requires calls { left.old.calls + state.old.calls < 2 ^ 64 }
    requires focus { FocusOf store.old focus }
    ensures { IfOk result (λ r. MovesTo store.old state.old focus.entry left.old turns.old store.new state.new left.new turns.new r) }
{
    match focus {
        Focus::Gives(values) => give(alloc, store, left, state, values),
        Focus::Jumps(jump) => pass(alloc, store, left, state, jump),
        Focus::Evaluates(expression) => {
            begin_expression(alloc, store, left, state, expression, turns)
        }
        Focus::Lists(items, before) => list(alloc, store, left, state, items, before),
        Focus::Finds(targets, before, values) => {
            find(alloc, store, left, state, targets, before, values, turns)
        }
        Focus::Sets(pairs) => set(alloc, store, left, state, pairs),
        Focus::Runs(statements) => run(alloc, store, left, state, statements, turns),
        Focus::Starts(thing) => begin_thing(alloc, store, left, state, thing, turns),
        Focus::Texts(values, before) => texts(alloc, store, left, state, values, before),
        Focus::Asks(question) => Ok(Turn::On(Focus::Asks(question))),
        Focus::Works(work) => begin_work(alloc, store, left, state, Box::into_inner(work)),
    }
}
