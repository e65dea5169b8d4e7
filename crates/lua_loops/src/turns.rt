//! Turns of loops that begin (manual 2.4.4 and 2.4.5). A turn has fresh local variables.
ghost use Rattle.std.specs.Prelude.{◌≡◌, ℕ, List as Items, length, IfOk};
ghost use Rattle.lua_code.specs.Seen.{expression_seen, block_seen};
ghost use Rattle.lua_code.specs.LuaSlotsLoops as loops;
ghost use Rattle.lua_state.specs.LuaStoreSeen.{seen};
ghost use Rattle.lua_state.specs.LuaStackOf.{EachOf, GivenOf};
ghost use Rattle.lua_state.specs.LuaStackSeen.{given_seen, registers_seen};
ghost use Rattle.lua_state.specs.Makes.{Counts};
ghost use Rattle.lua_state.specs.Of.{StateOf};
ghost use Rattle.lua_state.specs.Seen.{frames_of, slots_of};

use crate::exits::run_body;
use lua_code::{Expression, List, NoMemory, Statement};
use lua_state::{
    EachLoop, Ending, Given, Left, Slot, Stack, State, Steps, Store, Turn, Value, open, open_all,
};
use std::alloc::Global;
use std::sync::ledger::Ledger;

/// How many registers there are.
pub fn depth_of(regs: &Stack<Slot>) -> usize
    ensures { (texts : Items (Items ℕ)) → result ≡ length (registers_seen texts regs.now) }
{
    regs.len()
}

/// A turn of a `while` begins.
pub fn while_turn<'m, L: Ledger>(
    alloc: Global,
    store: &mut Store,
    left: &mut Left,
    state: &mut State<'m>,
    test: &'m Expression,
    body: &'m List<Statement>,
    turns: &mut Steps<L>,
) -> Result<Turn<'m>, NoMemory>
    requires state { StateOf store.old state.old }
    ensures { IfOk result (λ r. Counts store.old state.old left.old turns.old store.new state.new left.new turns.new (loops.while_turn (expression_seen test.now) (block_seen body.now) (frames_of store.old state.old) (slots_of store.old state.old)) r) }
{
    turns.tick();
    let depth = depth_of(&state.regs);
    let ending = Ending::WhileEnd(depth, test, body);
    let focus = run_body(&mut state.frames, ending, body)?;
    Ok(Turn::On(focus))
}

/// A turn of a `repeat` begins.
pub fn repeat_turn<'m, L: Ledger>(
    alloc: Global,
    store: &mut Store,
    left: &mut Left,
    state: &mut State<'m>,
    body: &'m List<Statement>,
    test: &'m Expression,
    turns: &mut Steps<L>,
) -> Result<Turn<'m>, NoMemory>
    requires state { StateOf store.old state.old }
    ensures { IfOk result (λ r. Counts store.old state.old left.old turns.old store.new state.new left.new turns.new (loops.repeat_turn (block_seen body.now) (expression_seen test.now) (frames_of store.old state.old) (slots_of store.old state.old)) r) }
{
    turns.tick();
    let depth = depth_of(&state.regs);
    let ending = Ending::TestNext(test, depth, body);
    let focus = run_body(&mut state.frames, ending, body)?;
    Ok(Turn::On(focus))
}

/// A turn of a counting loop begins: its variable has the index. The range is the index, the limit and the step.
pub fn count_turn<'m, L: Ledger>(
    alloc: Global,
    store: &mut Store,
    left: &mut Left,
    state: &mut State<'m>,
    boxed: bool,
    range: (i64, i64, i64),
    body: &'m List<Statement>,
    turns: &mut Steps<L>,
) -> Result<Turn<'m>, NoMemory>
    requires state { StateOf store.old state.old }
    ensures { IfOk result (λ r. Counts store.old state.old left.old turns.old store.new state.new left.new turns.new (loops.count_turn boxed range.0 range.1 range.2 (block_seen body.now) (frames_of store.old state.old) (slots_of store.old state.old)) r) }
{
    turns.tick();
    let depth = depth_of(&state.regs);
    let (index, limit, step) = range;
    open(store, &mut state.regs, boxed, Value::Number(index))?;
    let ending = Ending::CountEnd(depth, boxed, index, limit, step, body);
    let focus = run_body(&mut state.frames, ending, body)?;
    Ok(Turn::On(focus))
}

/// A turn of a generic loop begins: its variables have the results of the iterator. The values are the iterator and the state.
pub fn each_turn<'m, L: Ledger>(
    alloc: Global,
    store: &mut Store,
    left: &mut Left,
    state: &mut State<'m>,
    each: Box<EachLoop<'m>>,
    results: Given,
    turns: &mut Steps<L>,
) -> Result<Turn<'m>, NoMemory>
    requires state { StateOf store.old state.old }
    requires each { EachOf store.old each.value }
    requires results { GivenOf store.old results }
    ensures { IfOk result (λ r. Counts store.old state.old left.old turns.old store.new state.new left.new turns.new (loops.each_turn each.entry.value.flags.now (seen store.old.texts each.entry.value.iterator) (seen store.old.texts each.entry.value.state) (given_seen store.old.texts results) (block_seen each.entry.value.body.now) each.entry.value.line (frames_of store.old state.old) (slots_of store.old state.old)) r) }
{
    turns.tick();
    let depth = depth_of(&state.regs);
    let first = results.first();
    let mut opened = results.into_values(alloc)?;
    open_all(store, &mut state.regs, each.flags, &mut opened)?;
    let body = each.body;
    let ending = Ending::EachEnd(depth, each, first);
    let focus = run_body(&mut state.frames, ending, body)?;
    Ok(Turn::On(focus))
}
