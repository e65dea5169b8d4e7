//! `tostring` (manual 5.1).
ghost use Rattle.std.specs.Prelude.{codes, IfOk};
ghost use Rattle.mw_html_texts.specs.LuaMeaningHtml.{text_of_object};
ghost use Rattle.lua_code.specs.LuaMeaningMetatables.{handler as handler_of};
ghost use Rattle.lua_code.specs.LuaMeaningValues as plain;
ghost use Rattle.lua_code.specs.LuaSlotsCallBacks as machine;
ghost use Rattle.lua_state.specs.LuaSlotsErrors as errors;
ghost use Rattle.lua_state.specs.LuaStoreParts.{IsMarkupOf, IsOf};
ghost use Rattle.lua_state.specs.LuaStoreSeen.{seen};
ghost use Rattle.lua_state.specs.LuaStackOf.{ValuesOf};
ghost use Rattle.lua_state.specs.LuaStackSeen.{values_seen};
ghost use Rattle.lua_state.specs.Makes.{Makes};
ghost use Rattle.lua_state.specs.Of.{OutcomeOf, StateOf};
ghost use Rattle.lua_state.specs.Seen.{frames_of, outcome_seen, slots_of};

use crate::exits::{call_and_wait, give_all, one, pass};
use crate::raising::refuse;
use crate::texts::{give_text, give_text_of};
use lua_code::NoMemory;
use lua_libs::text_in;
use lua_state::{Outcome, Pending, State, Store, Turn, Value, Values, fail, handler, is_nil};
use mw_html_texts::{Left, MarkupId, give_object_text, object};
use std::alloc::Global;

/// The text of a value that is no object: its handler is asked, if it has one.
fn string_by<'m>(
    alloc: Global,
    store: &mut Store,
    left: &mut Left,
    state: &mut State<'m>,
    value: Value,
    line: Option<u32>,
) -> Result<Turn<'m>, NoMemory>
    requires state { StateOf store.old state.old }
    requires value { IsOf store.old value }
    ensures { IfOk result (λ r. Makes store.old state.old left.old store.new state.new left.new
        (machine.to_string_by (handler_of store.old.heap (seen store.old.texts value) (codes "__tostring")) (seen store.old.texts value) line (frames_of store.old state.old) (slots_of store.old state.old)) r) }
{
    let found = handler(store, value, state.env.to_string);
    if is_nil(found) {
        let turn = give_text_of(alloc, store, left, state, value)?;
        return Ok(turn);
    }
    let arguments = one(alloc, value)?;
    let pending = Pending::ToString;
    let turn = call_and_wait(alloc, store, left, state, found, arguments, pending, line)?;
    Ok(turn)
}

/// The text of an object of `mw.html`.
fn give_object<'m>(
    alloc: Global,
    store: &mut Store,
    left: &mut Left,
    state: &State<'m>,
    id: MarkupId,
    line: Option<u32>,
) -> Result<Turn<'m>, NoMemory>
    requires state { StateOf store.old state.now }
    requires id { IsMarkupOf store.old id }
    ensures { IfOk result (λ r. Makes store.old state.now left.old store.new state.now left.new
        (errors.plain (text_of_object id.at store.old.heap) line (frames_of store.old state.now) (slots_of store.old state.now)) r) }
{
    match give_object_text(alloc, store, left, id) {
        Ok(values) => Ok(give_all(store, state, Values::of_list(values))),
        Err(stop) => {
            let turn = refuse(alloc, store, left, state, line, stop)?;
            Ok(turn)
        }
    }
}

/// The text of a value: an object's, what its handler gives, or its own.
fn string_of<'m>(
    alloc: Global,
    store: &mut Store,
    left: &mut Left,
    state: &mut State<'m>,
    value: Value,
    line: Option<u32>,
) -> Result<Turn<'m>, NoMemory>
    requires state { StateOf store.old state.old }
    requires value { IsOf store.old value }
    ensures { IfOk result (λ r. Makes store.old state.old left.old store.new state.new left.new
        (machine.to_string_of (seen store.old.texts value) line (frames_of store.old state.old) (slots_of store.old state.old)) r) }
{
    match object(value) {
        Some(id) => give_object(alloc, store, left, state, id, line),
        None => string_by(alloc, store, left, state, value, line),
    }
}

/// `tostring(v)`
pub fn to_string<'m>(
    alloc: Global,
    store: &mut Store,
    left: &mut Left,
    state: &mut State<'m>,
    arguments: Values,
    line: Option<u32>,
) -> Result<Turn<'m>, NoMemory>
    requires state { StateOf store.old state.old }
    requires arguments { ValuesOf store.old arguments }
    ensures { IfOk result (λ r. Makes store.old state.old left.old store.new state.new left.new
        (machine.to_string (values_seen store.old.texts arguments) line (frames_of store.old state.old) (slots_of store.old state.old)) r) }
{
    let value = arguments.first();
    let turn = string_of(alloc, store, left, state, value, line)?;
    Ok(turn)
}

/// What a handler for `tostring` gave must be a text or a number.
fn string_given<'m>(
    alloc: Global,
    store: &mut Store,
    left: &mut Left,
    state: &State<'m>,
    value: Value,
    line: Option<u32>,
) -> Result<Turn<'m>, NoMemory>
    requires state { StateOf store.old state.now }
    requires value { IsOf store.old value }
    ensures { IfOk result (λ r. Makes store.old state.now left.old store.new state.now left.new
        (machine.string_given (plain.text_in (seen store.old.texts value)) line (frames_of store.old state.now) (slots_of store.old state.now)) r) }
{
    let given = text_in(alloc, store, value)?;
    match given {
        Some(text) => {
            let turn = give_text(store, left, state, text.as_slice())?;
            Ok(turn)
        }
        None => {
            let message = b"'tostring' must return a string";
            fail(alloc, store, left, state, line, message)
        }
    }
}

/// What the call of a handler for `tostring` came to.
pub fn string_answer<'m>(
    alloc: Global,
    store: &mut Store,
    left: &mut Left,
    state: &State<'m>,
    outcome: Outcome,
    line: Option<u32>,
) -> Result<Turn<'m>, NoMemory>
    requires state { StateOf store.old state.now }
    requires outcome { OutcomeOf store.old outcome }
    ensures { IfOk result (λ r. Makes store.old state.now left.old store.new state.now left.new
        (machine.string_answer (outcome_seen store.old.texts outcome) line (frames_of store.old state.now) (slots_of store.old state.now)) r) }
{
    match outcome {
        Outcome::Goes(given) => {
            let value = given.first();
            let turn = string_given(alloc, store, left, state, value, line)?;
            Ok(turn)
        }
        Outcome::Jumps(jump) => Ok(pass(store, state, jump)),
    }
}
