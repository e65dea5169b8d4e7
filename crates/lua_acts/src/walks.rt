//! Walks over tables: `pairs` and `ipairs`, and a step of `ipairs` (manual 5.1).
ghost use Rattle.std.specs.Prelude.{◌∷◌, [], None, codes, IfOk};
ghost use Rattle.page_run.specs.WkBaseDeclaredLeftLeft.{Left as Allowance};
ghost use Rattle.lua_code.specs.LuaHeapValue as kind;
ghost use Rattle.lua_libs.specs.LuaMeaningArguments.{a_number as plain_number, a_table as plain_table};
ghost use Rattle.lua_code.specs.LuaSlotsCallBacks as machine;
ghost use Rattle.lua_state.specs.LuaSlotsCalls as calls;
ghost use Rattle.lua_state.specs.LuaSlotsErrors.{gives, with_argument};
ghost use Rattle.lua_state.specs.LuaSlotsPoints.{Waits};
ghost use Rattle.lua_code.specs.LuaMeaningPending.{PairsWaits};
ghost use Rattle.lua_code.specs.LuaMeaningValues as plain;
ghost use Rattle.lua_state.specs.LuaStoreParts.{IsOf, IsTableOf};
ghost use Rattle.lua_state.specs.LuaStoreSeen.{seen};
ghost use Rattle.lua_state.specs.LuaStackOf.{GivenOf, ValuesOf};
ghost use Rattle.lua_state.specs.LuaStackSeen.{given_seen, values_seen};
ghost use Rattle.lua_state.specs.Makes.{Makes};
ghost use Rattle.lua_state.specs.Of.{OutcomeOf, StateOf};
ghost use Rattle.lua_state.specs.Seen.{frames_of, outcome_seen, slots_of};

use crate::exits::{call_and_wait, give, give_all, one, pass, three};
use crate::raising::refuse;
use lua_code::NoMemory;
use lua_libs::{Library, TableId, a_number, a_table, first, rest, second, third};
use lua_number::add;
use lua_state::{Given, Outcome, Pending, State, Store, Turn, Value, Values, handler, is_nil, two};
use mw_html_texts::Left;
use std::alloc::Global;

/// A step with the table and the first state of a walk.
fn walk<'m>(
    alloc: Global,
    store: &Store,
    state: &State<'m>,
    step: Library,
    table: TableId,
    start: Value,
) -> Result<Turn<'m>, NoMemory>
    requires state { StateOf store.now state.now }
    requires table { IsTableOf store.now table }
    requires start { IsOf store.now start }
    ensures { (l : Allowance) → IfOk result (λ r. Makes store.now state.now l store.now state.now l
        (gives (kind.Builtin step ∷ kind.Table table.at ∷ seen store.now.texts start ∷ []) (frames_of store.now state.now) (slots_of store.now state.now)) r) }
{
    let values = three(alloc, Value::Builtin(step), Value::Table(table), start)?;
    Ok(give_all(store, state, values))
}

/// A walk over the first argument of the function of this name, which must be a table.
fn begin<'m>(
    alloc: Global,
    store: &mut Store,
    left: &mut Left,
    state: &State<'m>,
    name: &[u8],
    walked: (Library, Value),
    arguments: Values,
    line: Option<u32>,
) -> Result<Turn<'m>, NoMemory>
    requires state { StateOf store.old state.now }
    requires start { IsOf store.old walked.1 }
    requires arguments { ValuesOf store.old arguments }
    ensures { IfOk result (λ r. Makes store.old state.now left.old store.new state.now left.new
        (with_argument (plain_table 1 name.now (values_seen store.old.texts arguments)) line (frames_of store.old state.now) (slots_of store.old state.now)
        (λ t. gives (kind.Builtin walked.0 ∷ kind.Table t ∷ seen store.old.texts walked.1 ∷ []) (frames_of store.old state.now) (slots_of store.old state.now))) r) }
{
    let list = arguments.into_list();
    let (step, start) = walked;
    match a_table(alloc, store, 1, name, list.as_slice()) {
        Ok(table) => {
            let turn = walk(alloc, store, state, step, table, start)?;
            Ok(turn)
        }
        Err(stop) => {
            let turn = refuse(alloc, store, left, state, line, stop)?;
            Ok(turn)
        }
    }
}

/// A value's handler for `pairs` or `ipairs` is called with the value.
fn ask<'m>(
    alloc: Global,
    store: &mut Store,
    left: &mut Left,
    state: &mut State<'m>,
    found: Value,
    value: Value,
    line: Option<u32>,
) -> Result<Turn<'m>, NoMemory>
    requires state { StateOf store.old state.old }
    requires found { IsOf store.old found }
    requires value { IsOf store.old value }
    ensures { IfOk result (λ r. Makes store.old state.old left.old store.new state.new left.new
        (calls.call (seen store.old.texts found) (seen store.old.texts value ∷ []) None (Waits PairsWaits line ∷ frames_of store.old state.old) (slots_of store.old state.old)) r) }
{
    let arguments = one(alloc, value)?;
    let pending = Pending::Pairs;
    let turn = call_and_wait(alloc, store, left, state, found, arguments, pending, line)?;
    Ok(turn)
}

/// `pairs(t)`: what its handler gives, or a walk over all entries.
pub fn pairs<'m>(
    alloc: Global,
    store: &mut Store,
    left: &mut Left,
    state: &mut State<'m>,
    arguments: Values,
    line: Option<u32>,
) -> Result<Turn<'m>, NoMemory>
    requires state { StateOf store.old state.old }
    requires arguments { ValuesOf store.old arguments }
    ensures { IfOk result (λ r. Makes store.old state.old left.old store.new state.new left.new
        (machine.pairs (values_seen store.old.texts arguments) line (frames_of store.old state.old) (slots_of store.old state.old)) r) }
{
    let value = arguments.first();
    let found = handler(store, value, state.env.pairs);
    if is_nil(found) {
        let walked = (Library::BasicNext, Value::Nil);
        let turn = begin(alloc, store, left, state, b"pairs", walked, arguments, line)?;
        return Ok(turn);
    }
    let turn = ask(alloc, store, left, state, found, value, line)?;
    Ok(turn)
}

/// `ipairs(t)`: what its handler gives, or a walk over the places from 1 on.
pub fn ipairs<'m>(
    alloc: Global,
    store: &mut Store,
    left: &mut Left,
    state: &mut State<'m>,
    arguments: Values,
    line: Option<u32>,
) -> Result<Turn<'m>, NoMemory>
    requires state { StateOf store.old state.old }
    requires arguments { ValuesOf store.old arguments }
    ensures { IfOk result (λ r. Makes store.old state.old left.old store.new state.new left.new
        (machine.ipairs (values_seen store.old.texts arguments) line (frames_of store.old state.old) (slots_of store.old state.old)) r) }
{
    let value = arguments.first();
    let found = handler(store, value, state.env.ipairs);
    if is_nil(found) {
        let walked = (Library::IpairsStep, Value::Number(0));
        let turn = begin(
            alloc, store, left, state, b"ipairs", walked, arguments, line,
        )?;
        return Ok(turn);
    }
    let turn = ask(alloc, store, left, state, found, value, line)?;
    Ok(turn)
}

/// The first three values of a list, where an absent one is nil.
fn three_of<'m>(
    alloc: Global,
    store: &Store,
    state: &State<'m>,
    given: Given,
) -> Result<Turn<'m>, NoMemory>
    requires state { StateOf store.now state.now }
    requires given { GivenOf store.now given }
    ensures { (l : Allowance) → IfOk result (λ r. Makes store.now state.now l store.now state.now l
        (gives (plain.first (given_seen store.now.texts given) ∷ plain.second (given_seen store.now.texts given) ∷ plain.third (given_seen store.now.texts given) ∷ [])
        (frames_of store.now state.now) (slots_of store.now state.now)) r) }
{
    let all = given.into_values(alloc)?;
    let list = all.into_list();
    let values = list.as_slice();
    let step = first(values);
    let walked = second(values);
    let start = third(values);
    let kept = three(alloc, step, walked, start)?;
    Ok(give_all(store, state, kept))
}

/// What a handler for `pairs` or `ipairs` came to: three values.
pub fn three_answer<'m>(
    alloc: Global,
    store: &Store,
    state: &State<'m>,
    outcome: Outcome,
) -> Result<Turn<'m>, NoMemory>
    requires state { StateOf store.now state.now }
    requires outcome { OutcomeOf store.now outcome }
    ensures { (l : Allowance) → IfOk result (λ r. Makes store.now state.now l store.now state.now l
        (machine.three_answer (outcome_seen store.now.texts outcome) (frames_of store.now state.now) (slots_of store.now state.now)) r) }
{
    match outcome {
        Outcome::Goes(given) => three_of(alloc, store, state, given),
        Outcome::Jumps(jump) => Ok(pass(store, state, jump)),
    }
}

/// A place with its value, or nil where that is nil.
fn give_place<'m>(
    alloc: Global,
    store: &Store,
    state: &State<'m>,
    place: i64,
    value: Value,
) -> Result<Turn<'m>, NoMemory>
    requires state { StateOf store.now state.now }
    requires value { IsOf store.now value }
    ensures { (l : Allowance) → IfOk result (λ r. Makes store.now state.now l store.now state.now l
        (gives (machine.place_and_value place (seen store.now.texts value)) (frames_of store.now state.now) (slots_of store.now state.now)) r) }
{
    if is_nil(value) {
        return Ok(give(store, state, Value::Nil));
    }
    let values = two(alloc, Value::Number(place), value)?;
    Ok(give_all(store, state, values))
}

/// The place behind this one, with its value.
fn next_place<'m>(
    alloc: Global,
    store: &Store,
    state: &State<'m>,
    table: TableId,
    place: i64,
) -> Result<Turn<'m>, NoMemory>
    requires state { StateOf store.now state.now }
    requires table { IsTableOf store.now table }
    ensures { (l : Allowance) → IfOk result (λ r. Makes store.now state.now l store.now state.now l
        (machine.next_place table.at place (frames_of store.now state.now) (slots_of store.now state.now)) r) }
{
    match add(place, 1) {
        Ok(next) => {
            let value = store.get(table, Value::Number(next));
            let turn = give_place(alloc, store, state, next, value)?;
            Ok(turn)
        }
        Err(_) => Ok(give(store, state, Value::Nil)),
    }
}

/// A step of `ipairs` over this table, from the place that is the second of its arguments.
fn step_over<'m>(
    alloc: Global,
    store: &mut Store,
    left: &mut Left,
    state: &State<'m>,
    table: TableId,
    arguments: &[Value],
    line: Option<u32>,
) -> Result<Turn<'m>, NoMemory>
    requires state { StateOf store.old state.now }
    requires table { IsTableOf store.old table }
    requires arguments { ValuesOf store.old arguments.now }
    ensures { IfOk result (λ r. Makes store.old state.now left.old store.new state.now left.new
        (with_argument (plain_number 2 (codes "ipairs") (plain.rest (values_seen store.old.texts arguments.now))) line (frames_of store.old state.now) (slots_of store.old state.now)
        (λ n. machine.next_place table.at n (frames_of store.old state.now) (slots_of store.old state.now))) r) }
{
    match a_number(alloc, store, 2, b"ipairs", rest(arguments)) {
        Ok(place) => {
            let turn = next_place(alloc, store, state, table, place)?;
            Ok(turn)
        }
        Err(stop) => {
            let turn = refuse(alloc, store, left, state, line, stop)?;
            Ok(turn)
        }
    }
}

/// A step of `ipairs`: the next place and its value, or nil where that is nil.
pub fn ipairs_step<'m>(
    alloc: Global,
    store: &mut Store,
    left: &mut Left,
    state: &State<'m>,
    arguments: Values,
    line: Option<u32>,
) -> Result<Turn<'m>, NoMemory>
    requires state { StateOf store.old state.now }
    requires arguments { ValuesOf store.old arguments }
    ensures { IfOk result (λ r. Makes store.old state.now left.old store.new state.now left.new
        (machine.ipairs_step (values_seen store.old.texts arguments) line (frames_of store.old state.now) (slots_of store.old state.now)) r) }
{
    let list = arguments.into_list();
    let values = list.as_slice();
    match a_table(alloc, store, 1, b"ipairs", values) {
        Ok(table) => {
            let turn = step_over(alloc, store, left, state, table, values, line)?;
            Ok(turn)
        }
        Err(stop) => {
            let turn = refuse(alloc, store, left, state, line, stop)?;
            Ok(turn)
        }
    }
}
