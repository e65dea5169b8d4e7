//! What waits for a call, and for the answer to a question.
ghost use Rattle.std.specs.Prelude.{◌≡◌, ◌++◌, IfOk, OnOk};
ghost use Rattle.page_run.specs.WkBaseDeclaredLeftLeft.{Left as Allowance};
ghost use Rattle.page_run.specs.Outcome.{Goes};
ghost use Rattle.lua_code.specs.LuaHeapValue as kind;
ghost use Rattle.lua_code.specs.LuaMeaningActs as act;
ghost use Rattle.lua_modules.specs.LuaMeaningMessages as plain;
ghost use Rattle.lua_acts.specs.LuaSlotsCallBacks.{gives_text};
ghost use Rattle.lua_modules.specs.LuaSlotsErrors.{fails_quoting, jumps};
ghost use Rattle.lua_code.specs.LuaSlotsLibraries as libraries;
ghost use Rattle.lua_tables.specs.LuaStoreParts.{IsTextOf};
ghost use Rattle.lua_tables.specs.LuaStoreSeen.{text_at};
ghost use Rattle.lua_modules.specs.LuaStackLists.{given_values};
ghost use Rattle.lua_modules.specs.LuaStackOf.{AskedOf, GivenOf, PendingOf};
ghost use Rattle.lua_modules.specs.LuaStackSeen.{asked_seen, given_seen, pending_seen};
ghost use Rattle.lua_modules.specs.LuaStateMakes.{Makes};
ghost use Rattle.lua_modules.specs.LuaStateOf.{OutcomeOf, StateOf};
ghost use Rattle.lua_modules.specs.LuaStateSeen.{frames_of, outcome_seen, slots_of};
ghost use Rattle.lua_calls.specs.Answers.{answer_in, one_answer_in};

use crate::gsubs::gsub_answer;
use lua_acts::{
    give_text, handler_answer, pcall_answer, raise, string_answer, three_answer, xpcall_answer,
};
use lua_code::NoMemory;
use lua_modules::{
    Asked, Given, Outcome, Pending, State, Turn, Values, data_answer, fail_quoting, module_answer,
};
use lua_tables::{Left, Store, TextId, Value};
use std::alloc::Global;

/// What an answer is to a function that waits for a text.
#[derive(Clone, Copy, Debug, PartialEq, Eq)]
pub enum TextAnswer {
    Text(TextId),
    Nothing,
    /// It does not belong to the question.
    Other,
}

/// What a single value is.
fn one_answer(value: Value) -> TextAnswer
    ensures { result ≡ one_answer_in value }
{
    match value {
        Value::Text(id) => TextAnswer::Text(id),
        Value::Nil => TextAnswer::Other,
        Value::Bool(_) => TextAnswer::Other,
        Value::Number(_) => TextAnswer::Other,
        Value::Table(_) => TextAnswer::Other,
        Value::Closure(_) => TextAnswer::Other,
        Value::Builtin(_) => TextAnswer::Other,
        Value::Markup(_) => TextAnswer::Other,
    }
}

/// What a list of values is.
fn list_answer(values: &Values) -> TextAnswer
    ensures { result ≡ answer_in values.now }
{
    let count = values.len();
    if count == 0 {
        return TextAnswer::Nothing;
    }
    if count == 1 {
        return one_answer(values.first());
    }
    TextAnswer::Other
}

/// What some values are as an answer.
fn answer_of(given: &Given) -> TextAnswer
    ensures { result ≡ answer_in (given_values given.now) }
{
    match given {
        Given::One(value) => one_answer(*value),
        Given::Many(values) => list_answer(values),
    }
}

/// An answer that does not belong to its question.
fn wrong_answer<'m>(store: &mut Store, state: &State<'m>) -> Result<Turn<'m>, NoMemory>
    requires { StateOf store.old state.now }
    ensures { (l : Allowance) → IfOk result (λ r. Makes store.old state.now l store.new state.now l
        (jumps (act.Raised (kind.Text plain.wrong_answer)) (frames_of store.old state.now) (slots_of store.old state.now)) r) }
{
    let turn = raise(store, state, b"the answer does not belong to the question")?;
    Ok(turn)
}

/// A text of the store, which costs its bytes.
fn give_id<'m>(
    store: &mut Store,
    left: &mut Left,
    state: &State<'m>,
    id: TextId,
) -> Result<Turn<'m>, NoMemory>
    requires state { StateOf store.old state.now }
    requires text { IsTextOf store.old id }
    ensures { IfOk result (λ r. Makes store.old state.now left.old store.new state.now left.new
        (gives_text (text_at store.old.texts id.at) (frames_of store.old state.now) (slots_of store.old state.now)) r) }
{
    let bytes = store.bytes(id);
    let turn = give_text(store, left, state, bytes)?;
    Ok(turn)
}

/// Values in the place of a text that was asked for.
fn text_given<'m>(
    store: &mut Store,
    left: &mut Left,
    state: &State<'m>,
    given: Given,
) -> Result<Turn<'m>, NoMemory>
    requires state { StateOf store.old state.now }
    requires given { GivenOf store.old given }
    ensures { IfOk result (λ r. Makes store.old state.now left.old store.new state.now left.new
        (libraries.text_answer (Goes (given_seen store.old.texts given)) (frames_of store.old state.now) (slots_of store.old state.now)) r) }
{
    match answer_of(&given) {
        TextAnswer::Text(id) => {
            let turn = give_id(store, left, state, id)?;
            Ok(turn)
        }
        TextAnswer::Nothing => {
            let turn = wrong_answer(store, state)?;
            Ok(turn)
        }
        TextAnswer::Other => {
            let turn = wrong_answer(store, state)?;
            Ok(turn)
        }
    }
}

/// A text that was asked for.
pub fn text_answer<'m>(
    store: &mut Store,
    left: &mut Left,
    state: &State<'m>,
    outcome: Outcome,
) -> Result<Turn<'m>, NoMemory>
    requires state { StateOf store.old state.now }
    requires outcome { OutcomeOf store.old outcome }
    ensures { IfOk result (λ r. Makes store.old state.now left.old store.new state.now left.new
        (libraries.text_answer (outcome_seen store.old.texts outcome) (frames_of store.old state.now) (slots_of store.old state.now)) r) }
{
    match outcome {
        Outcome::Goes(given) => text_given(store, left, state, given),
        Outcome::Jumps(_) => wrong_answer(store, state),
    }
}

/// More bytes behind a text.
fn append(text: &mut Vec<u8>, bytes: &[u8]) -> Result<(), NoMemory>
    ensures { OnOk result (text.new.items ≡ text.old.items ++ bytes.now) }
{
    match text.extend_from_slice(bytes) {
        Ok(_) => Ok(()),
        Err(_) => Err(NoMemory),
    }
}

/// The message that there is no template of this name.
fn absent(alloc: Global, name: &[u8]) -> Result<Vec<u8>, NoMemory>
    ensures { IfOk result (λ text. text.items ≡ plain.no_template name.now) }
{
    let mut text = Vec::new(alloc);
    append(&mut text, b"template '")?;
    append(&mut text, name)?;
    append(&mut text, b"' does not exist")?;
    Ok(text)
}

/// There is no template of this name.
fn no_template<'m>(
    alloc: Global,
    store: &mut Store,
    left: &mut Left,
    state: &State<'m>,
    name: TextId,
    line: Option<u32>,
) -> Result<Turn<'m>, NoMemory>
    requires state { StateOf store.old state.now }
    requires name { IsTextOf store.old name }
    ensures { IfOk result (λ r. Makes store.old state.now left.old store.new state.now left.new
        (fails_quoting line (plain.no_template (text_at store.old.texts name.at)) (frames_of store.old state.now) (slots_of store.old state.now)) r) }
{
    let text = absent(alloc, store.bytes(name))?;
    let turn = fail_quoting(alloc, store, left, state, line, text.as_slice())?;
    Ok(turn)
}

/// Values in the place of the text of a template of this name.
fn template_given<'m>(
    alloc: Global,
    store: &mut Store,
    left: &mut Left,
    state: &State<'m>,
    name: TextId,
    given: Given,
    line: Option<u32>,
) -> Result<Turn<'m>, NoMemory>
    requires state { StateOf store.old state.now }
    requires name { IsTextOf store.old name }
    requires given { GivenOf store.old given }
    ensures { IfOk result (λ r. Makes store.old state.now left.old store.new state.now left.new
        (libraries.template_answer (text_at store.old.texts name.at) (Goes (given_seen store.old.texts given)) line (frames_of store.old state.now) (slots_of store.old state.now)) r) }
{
    match answer_of(&given) {
        TextAnswer::Nothing => {
            let turn = no_template(alloc, store, left, state, name, line)?;
            Ok(turn)
        }
        TextAnswer::Text(_) => {
            let turn = text_given(store, left, state, given)?;
            Ok(turn)
        }
        TextAnswer::Other => {
            let turn = text_given(store, left, state, given)?;
            Ok(turn)
        }
    }
}

/// The text of a template of this name that was asked for.
pub fn template_answer<'m>(
    alloc: Global,
    store: &mut Store,
    left: &mut Left,
    state: &State<'m>,
    name: TextId,
    outcome: Outcome,
    line: Option<u32>,
) -> Result<Turn<'m>, NoMemory>
    requires state { StateOf store.old state.now }
    requires name { IsTextOf store.old name }
    requires outcome { OutcomeOf store.old outcome }
    ensures { IfOk result (λ r. Makes store.old state.now left.old store.new state.now left.new
        (libraries.template_answer (text_at store.old.texts name.at) (outcome_seen store.old.texts outcome) line (frames_of store.old state.now) (slots_of store.old state.now)) r) }
{
    match outcome {
        Outcome::Goes(given) => template_given(alloc, store, left, state, name, given, line),
        Outcome::Jumps(_) => wrong_answer(store, state),
    }
}

/// What waits for a call goes on with its outcome; the line is that of its own call.
pub fn resume<'m>(
    alloc: Global,
    store: &mut Store,
    left: &mut Left,
    state: &mut State<'m>,
    pending: Pending,
    outcome: Outcome,
    line: Option<u32>,
) -> Result<Turn<'m>, NoMemory>
    requires state { StateOf store.old state.old }
    requires pending { PendingOf store.old pending }
    requires outcome { OutcomeOf store.old outcome }
    ensures { IfOk result (λ r. Makes store.old state.old left.old store.new state.new left.new (libraries.resumes (pending_seen store.old.texts pending) (outcome_seen store.old.texts outcome) line (frames_of store.old state.old) (slots_of store.old state.old)) r) }
{
    match pending {
        Pending::Pcall => pcall_answer(alloc, store, state, outcome),
        Pending::Xpcall(handler) => {
            xpcall_answer(alloc, store, left, state, handler, outcome, line)
        }
        Pending::Handler => handler_answer(alloc, store, state, outcome),
        Pending::ToString => string_answer(alloc, store, left, state, outcome, line),
        Pending::Pairs => three_answer(alloc, store, state, outcome),
        Pending::Gsub(waits) => gsub_answer(alloc, store, left, state, waits, outcome, line),
        Pending::Module(title) => module_answer(alloc, store, left, state, title, outcome),
    }
}

/// What waits for an answer goes on with what that tells; the line is that of its own call.
pub fn hear<'m>(
    alloc: Global,
    store: &mut Store,
    left: &mut Left,
    state: &mut State<'m>,
    asked: Asked,
    outcome: Outcome,
    line: Option<u32>,
) -> Result<Turn<'m>, NoMemory>
    requires state { StateOf store.old state.old }
    requires asked { AskedOf store.old asked }
    requires outcome { OutcomeOf store.old outcome }
    ensures { IfOk result (λ r. Makes store.old state.old left.old store.new state.new left.new (libraries.hears (asked_seen store.old.texts asked) (outcome_seen store.old.texts outcome) line (frames_of store.old state.old) (slots_of store.old state.old)) r) }
{
    match asked {
        Asked::Template(name) => template_answer(alloc, store, left, state, name, outcome, line),
        Asked::Text => text_answer(store, left, state, outcome),
        Asked::Data(text, title) => {
            data_answer(alloc, store, left, state, text, title, outcome, line)
        }
    }
}
