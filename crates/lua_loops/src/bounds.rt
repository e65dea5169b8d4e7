//! What follows a test of a loop, a bound, or the results of an iterator (manual 2.4.4 and 2.4.5).
ghost use Rattle.std.specs.Prelude.{◌≡◌, ℕ, List as Items, option_map, IfOk};
ghost use Rattle.lua_code.specs.Seen.{expression_seen, block_seen};
ghost use Rattle.lua_code.specs.LuaMeaningValues as plain;
ghost use Rattle.lua_code.specs.LuaSlotsLoops as loops;
ghost use Rattle.lua_state.specs.LuaStoreParts.{IsOf};
ghost use Rattle.lua_state.specs.LuaStoreSeen.{StoreView, seen};
ghost use Rattle.lua_state.specs.LuaStackOf.{EachOf, GivenOf};
ghost use Rattle.lua_state.specs.LuaStackSeen.{given_seen};
ghost use Rattle.lua_state.specs.Makes.{Makes};
ghost use Rattle.lua_state.specs.Of.{StateOf};
ghost use Rattle.lua_state.specs.Seen.{frames_of, slots_of};

use lua_code::{Expression, List, NoMemory, Statement};
use lua_state::{
    EachLoop, Given, Left, State, Store, Turn, Value, count_next, counting, each_from, each_next,
    finish, repeat_next, step_next, while_next,
};
use std::alloc::Global;

/// The test of a `while` has this value.
pub fn test_while<'m>(
    alloc: Global,
    store: &mut Store,
    left: &mut Left,
    state: &State<'m>,
    test: &'m Expression,
    body: &'m List<Statement>,
    value: Value,
) -> Result<Turn<'m>, NoMemory>
    requires state { StateOf store.old state.now }
    ensures { IfOk result (λ r. Makes store.old state.now left.old store.new state.now left.new
        (loops.while_next (expression_seen test.now) (block_seen body.now) (seen store.old.texts value) (frames_of store.old state.now) (slots_of store.old state.now)) r) }
{
    let step = while_next(alloc, test, body, value);
    finish(alloc, store, left, state, step)
}

/// The test of a `repeat` has this value.
pub fn test_repeat<'m>(
    alloc: Global,
    store: &mut Store,
    left: &mut Left,
    state: &State<'m>,
    body: &'m List<Statement>,
    test: &'m Expression,
    value: Value,
) -> Result<Turn<'m>, NoMemory>
    requires state { StateOf store.old state.now }
    ensures { IfOk result (λ r. Makes store.old state.now left.old store.new state.now left.new
        (loops.repeat_next (block_seen body.now) (expression_seen test.now) (seen store.old.texts value) (frames_of store.old state.now) (slots_of store.old state.now)) r) }
{
    let step = repeat_next(alloc, body, test, value);
    finish(alloc, store, left, state, step)
}

/// A counting loop has its first two bounds: the step is evaluated, or is 1.
pub fn two_bounds<'m>(
    alloc: Global,
    store: &mut Store,
    left: &mut Left,
    state: &mut State<'m>,
    boxed: bool,
    bounds: (Value, Value),
    by: Option<&'m Expression>,
    body: &'m List<Statement>,
    line: u32,
) -> Result<Turn<'m>, NoMemory>
    requires state { StateOf store.old state.old }
    requires from { IsOf store.old bounds.0 }
    requires to { IsOf store.old bounds.1 }
    ensures { IfOk result (λ r. Makes store.old state.old left.old store.new state.new left.new
        (loops.step_next boxed (seen store.old.texts bounds.0) (seen store.old.texts bounds.1) (option_map (λ e. expression_seen e.now) by.entry) (block_seen body.now) line (frames_of store.old state.old) (slots_of store.old state.old)) r) }
{
    let step = step_next(
        alloc,
        store,
        &mut state.frames,
        boxed,
        bounds,
        by,
        body,
        line,
    )?;
    finish(alloc, store, left, state, step)
}

/// A counting loop has its three bounds.
pub fn three_bounds<'m>(
    alloc: Global,
    store: &mut Store,
    left: &mut Left,
    state: &State<'m>,
    boxed: bool,
    bounds: (Value, Value, Value),
    body: &'m List<Statement>,
    line: u32,
) -> Result<Turn<'m>, NoMemory>
    requires state { StateOf store.old state.now }
    requires from { IsOf store.old bounds.0 }
    requires to { IsOf store.old bounds.1 }
    requires by { IsOf store.old bounds.2 }
    ensures { IfOk result (λ r. Makes store.old state.now left.old store.new state.now left.new
        (loops.counting boxed (seen store.old.texts bounds.0) (seen store.old.texts bounds.1) (seen store.old.texts bounds.2) (block_seen body.now) line (frames_of store.old state.now) (slots_of store.old state.now)) r) }
{
    let step = counting(alloc, store, boxed, bounds, body, line);
    finish(alloc, store, left, state, step)
}

/// A turn of a counting loop is over: it goes on at the next index. The range is the index, the limit and the step.
pub fn next_index<'m>(
    alloc: Global,
    store: &mut Store,
    left: &mut Left,
    state: &State<'m>,
    boxed: bool,
    range: (i64, i64, i64),
    body: &'m List<Statement>,
) -> Result<Turn<'m>, NoMemory>
    requires state { StateOf store.old state.now }
    ensures { IfOk result (λ r. Makes store.old state.now left.old store.new state.now left.new
        (loops.count_next boxed range.0 range.1 range.2 (block_seen body.now) (frames_of store.old state.now) (slots_of store.old state.now)) r) }
{
    let step = count_next(alloc, boxed, range.0, range.1, range.2, body);
    finish(alloc, store, left, state, step)
}

/// A generic loop calls its iterator. The values are the iterator, the state, and the value before.
pub fn call_iterator<'m>(
    alloc: Global,
    store: &mut Store,
    left: &mut Left,
    state: &mut State<'m>,
    each: Box<EachLoop<'m>>,
    before: Value,
) -> Result<Turn<'m>, NoMemory>
    requires state { StateOf store.old state.old }
    requires each { EachOf store.old each.value }
    requires before { IsOf store.old before }
    ensures { IfOk result (λ r. Makes store.old state.old left.old store.new state.new left.new
        (loops.each_from each.entry.value.flags.now (seen store.old.texts each.entry.value.iterator) (seen store.old.texts each.entry.value.state) (seen store.old.texts before) (block_seen each.entry.value.body.now) each.entry.value.line (frames_of store.old state.old) (slots_of store.old state.old)) r) }
{
    let step = each_from(alloc, store, &state.env, &mut state.frames, each, before)?;
    finish(alloc, store, left, state, step)
}

/// The iterator of a generic loop gave results. The values are the iterator and the state.
pub fn next_results<'m>(
    alloc: Global,
    store: &mut Store,
    left: &mut Left,
    state: &State<'m>,
    each: Box<EachLoop<'m>>,
    results: Given,
) -> Result<Turn<'m>, NoMemory>
    requires state { StateOf store.old state.now }
    requires each { EachOf store.old each.value }
    requires results { GivenOf store.old results }
    ensures { IfOk result (λ r. Makes store.old state.now left.old store.new state.now left.new
        (loops.each_next each.entry.value.flags.now (seen store.old.texts each.entry.value.iterator) (seen store.old.texts each.entry.value.state) (given_seen store.old.texts results) (block_seen each.entry.value.body.now) each.entry.value.line (frames_of store.old state.now) (slots_of store.old state.now)) r) }
{
    let step = each_next(alloc, store, each, results);
    finish(alloc, store, left, state, step)
}

/// The first three of some values; what is absent is nil.
pub fn first_three(values: Given) -> (Value, Value, Value)
    ensures of { (s : StoreView) → GivenOf s values → IsOf s result.0 × IsOf s result.1 × IsOf s result.2 }
    ensures first { (texts : Items (Items ℕ)) → seen texts result.0 ≡ plain.first (given_seen texts values) }
    ensures second { (texts : Items (Items ℕ)) → seen texts result.1 ≡ plain.second (given_seen texts values) }
    ensures third { (texts : Items (Items ℕ)) → seen texts result.2 ≡ plain.third (given_seen texts values) }
{
    match values {
        Given::One(value) => (value, Value::Nil, Value::Nil),
        Given::Many(values) => {
            let mut values = values;
            let first = values.take_first();
            let second = values.take_first();
            let third = values.take_first();
            (first, second, third)
        }
    }
}
