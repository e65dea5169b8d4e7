//! The text of an answer (Scribunto, "Invoking modules"): each value's text as `tostring` gives it, one after another.
ghost use Rattle.std.specs.Prelude.{◌≡◌, ◌++◌, ◌∷◌, [], None, codes, length, IfOk, MatchOption};
ghost use Rattle.page_run.specs.Outcome.{Goes};
ghost use Rattle.page_run.specs.WkBaseDeclaredLeftLeft.{Left as Allowance};
ghost use Rattle.mw_html_texts.specs.MwHtmlRender.{render};
ghost use Rattle.lua_code.specs.LuaMeaningCallBacks.{text_of as plain_text};
ghost use Rattle.lua_code.specs.LuaMeaningMetatables.{handler as handler_of};
ghost use Rattle.lua_code.specs.LuaMeaningStart.{Done};
ghost use Rattle.lua_modules.specs.LuaSlotsCalls as calls;
ghost use Rattle.lua_modules.specs.LuaSlotsPoints as point;
ghost use Rattle.lua_code.specs.LuaSlotsStarts as starts;
ghost use Rattle.lua_store.specs.Parts.{IsMarkupOf, IsOf, IsTextOf};
ghost use Rattle.lua_store.specs.Seen.{seen, text_at};
ghost use Rattle.lua_modules.specs.LuaStackOf.{ValuesOf, TextsOf};
ghost use Rattle.lua_modules.specs.LuaStackSeen.{values_seen, joined_seen};
ghost use Rattle.lua_modules.specs.LuaStateCharges.{Pays};
ghost use Rattle.lua_modules.specs.LuaStateMakes.{Makes};
ghost use Rattle.lua_modules.specs.LuaStateOf.{StateOf};
ghost use Rattle.lua_modules.specs.LuaStateSeen.{frames_of, slots_of};

use crate::ends::{done, too_deep};
use crate::html::append;
use lua_code::NoMemory;
use lua_modules::{Focus, Frame, InRun, State, Turn, Values, call, finish, handler, is_nil, pay};
use lua_store::{MarkupId, Store, TextId, Value};
use mw_frame::List;
use mw_html_texts::{Left, ObjectText, object, object_text};
use page_run::Which;
use std::alloc::Global;

/// One value as a list.
pub fn one(alloc: Global, value: Value) -> Result<Values, NoMemory>
    ensures { IfOk result (λ values. values ≡ value ∷ []) }
{
    let mut values = Values::new(alloc);
    values.add(value)?;
    Ok(values)
}

/// The texts of the values behind one whose text this is are next.
pub fn follow<'m>(
    store: &Store,
    state: &State<'m>,
    values: Values,
    before: List<TextId>,
    text: TextId,
) -> Result<Turn<'m>, NoMemory>
    requires state { StateOf store.now state.now }
    requires values { ValuesOf store.now values }
    requires before { TextsOf store.now before }
    requires text { IsTextOf store.now text }
    ensures { (l : Allowance) → IfOk result (λ r. Makes store.now state.now l store.now state.now l
        (point.Now (point.Texts (values_seen store.now.texts values) (joined_seen store.now.texts before ++ text_at store.now.texts text.at) (frames_of store.now state.now)) (slots_of store.now state.now)) r) }
{
    let mut before = before;
    before.push(text)?;
    Ok(Turn::On(Focus::Texts(values, before)))
}

/// The same behind a text that the store may not have yet.
pub fn follow_made<'m>(
    store: &mut Store,
    state: &State<'m>,
    text: &[u8],
    values: Values,
    before: List<TextId>,
) -> Result<Turn<'m>, NoMemory>
    requires state { StateOf store.old state.now }
    requires values { ValuesOf store.old values }
    requires before { TextsOf store.old before }
    ensures { (l : Allowance) → IfOk result (λ r. Makes store.old state.now l store.new state.now l
        (point.Now (point.Texts (values_seen store.old.texts values) (joined_seen store.old.texts before ++ text.now) (frames_of store.old state.now)) (slots_of store.old state.now)) r) }
{
    let id = store.text(text)?;
    let turn = follow(store, state, values, before, id)?;
    Ok(turn)
}

/// A value that has no handler for `tostring`: its own text, or its kind.
fn with_plain<'m>(
    alloc: Global,
    store: &mut Store,
    state: &State<'m>,
    value: Value,
    values: Values,
    before: List<TextId>,
) -> Result<Turn<'m>, NoMemory>
    requires state { StateOf store.old state.now }
    requires value { IsOf store.old value }
    requires values { ValuesOf store.old values }
    requires before { TextsOf store.old before }
    ensures { (l : Allowance) → IfOk result (λ r. Makes store.old state.now l store.new state.now l
        (point.Now (point.Texts (values_seen store.old.texts values) (joined_seen store.old.texts before ++ plain_text (seen store.old.texts value)) (frames_of store.old state.now)) (slots_of store.old state.now)) r) }
{
    match value {
        Value::Text(id) => follow(store, state, values, before, id),
        Value::Number(n) => {
            let digits = lua_number::text(alloc, n)?;
            let text = digits.as_slice();
            follow_made(store, state, text, values, before)
        }
        Value::Nil => follow_made(store, state, b"nil", values, before),
        Value::Bool(true) => follow_made(store, state, b"true", values, before),
        Value::Bool(false) => follow_made(store, state, b"false", values, before),
        Value::Table(_) => follow_made(store, state, b"table", values, before),
        Value::Closure(_) => follow_made(store, state, b"function", values, before),
        Value::Builtin(_) => follow_made(store, state, b"function", values, before),
        Value::Markup(_) => follow_made(store, state, b"table", values, before),
    }
}

/// A value's handler for `tostring` is called.
fn ask<'m>(
    alloc: Global,
    store: &mut Store,
    left: &mut Left,
    state: &mut State<'m>,
    asked: (Value, Value),
    values: Values,
    before: List<TextId>,
) -> Result<Turn<'m>, NoMemory>
    requires state { StateOf store.old state.old }
    requires handler { IsOf store.old asked.0 }
    requires value { IsOf store.old asked.1 }
    requires values { ValuesOf store.old values }
    requires before { TextsOf store.old before }
    ensures { IfOk result (λ r. Makes store.old state.old left.old store.new state.new left.new
        (calls.call (seen store.old.texts asked.0) (seen store.old.texts asked.1 ∷ []) None
        (point.TextNow (values_seen store.old.texts values) (joined_seen store.old.texts before) ∷ frames_of store.old state.old) (slots_of store.old state.old)) r) }
{
    state
        .frames
        .push(Frame::Run(InRun::TextNow(values, before)))?;
    let arguments = one(alloc, asked.1)?;
    let step = call(store, &state.env, asked.0, arguments, None)?;
    let turn = finish(alloc, store, left, state, step)?;
    Ok(turn)
}

/// The first of some values, in its place, where it is no object: its handler is called, or its own text is taken.
fn text_by<'m>(
    alloc: Global,
    store: &mut Store,
    left: &mut Left,
    state: &mut State<'m>,
    value: Value,
    values: Values,
    before: List<TextId>,
) -> Result<Turn<'m>, NoMemory>
    requires state { StateOf store.old state.old }
    requires value { IsOf store.old value }
    requires values { ValuesOf store.old values }
    requires before { TextsOf store.old before }
    ensures { IfOk result (λ r. Makes store.old state.old left.old store.new state.new left.new
        (starts.text_by (handler_of store.old.heap (seen store.old.texts value) (codes "__tostring")) (seen store.old.texts value) (values_seen store.old.texts values) (joined_seen store.old.texts before) (frames_of store.old state.old) (slots_of store.old state.old)) r) }
{
    let handler = handler(store, value, state.env.to_string);
    if is_nil(handler) {
        let turn = with_plain(alloc, store, state, value, values, before)?;
        return Ok(turn);
    }
    let asked = (handler, value);
    let turn = ask(alloc, store, left, state, asked, values, before)?;
    Ok(turn)
}

/// The first of some values is an object of `mw.html`: its text is taken, once it is paid for.
fn object_next<'m>(
    alloc: Global,
    store: &mut Store,
    left: &mut Left,
    state: &State<'m>,
    id: MarkupId,
    values: Values,
    before: List<TextId>,
) -> Result<Turn<'m>, NoMemory>
    requires state { StateOf store.old state.now }
    requires id { IsMarkupOf store.old id }
    requires values { ValuesOf store.old values }
    requires before { TextsOf store.old before }
    ensures { IfOk result (λ r. Makes store.old state.now left.old store.new state.now left.new
        (starts.rendered (render store.old.heap.markup id.at) (values_seen store.old.texts values) (joined_seen store.old.texts before) (frames_of store.old state.now) (slots_of store.old state.now)) r) }
{
    let text = object_text(alloc, store, left, id)?;
    match text {
        ObjectText::Text(bytes) => {
            let turn = follow_made(store, state, bytes.as_slice(), values, before)?;
            Ok(turn)
        }
        ObjectText::TooDeep => {
            let turn = too_deep(store, state)?;
            Ok(turn)
        }
        ObjectText::Spent => Ok(Turn::Spent(Which::Steps)),
    }
}

/// The first of some values, in its place: the text of an object, or what its handler gives, or its own.
fn next_text<'m>(
    alloc: Global,
    store: &mut Store,
    left: &mut Left,
    state: &mut State<'m>,
    value: Value,
    values: Values,
    before: List<TextId>,
) -> Result<Turn<'m>, NoMemory>
    requires state { StateOf store.old state.old }
    requires value { IsOf store.old value }
    requires values { ValuesOf store.old values }
    requires before { TextsOf store.old before }
    ensures { IfOk result (λ r. Makes store.old state.old left.old store.new state.new left.new
        (starts.next_text (seen store.old.texts value) (values_seen store.old.texts values) (joined_seen store.old.texts before) (frames_of store.old state.old) (slots_of store.old state.old)) r) }
{
    match object(value) {
        Some(id) => object_next(alloc, store, left, state, id, values, before),
        None => text_by(alloc, store, left, state, value, values, before),
    }
}

/// The first of these texts and those behind it.
fn split(ids: &[TextId]) -> Option<(&TextId, &[TextId])>
    ensures { MatchOption result (ids.now ≡ []) (λ p. ids.now ≡ p.0.now ∷ p.1.now) }
{
    match ids {
        [id, behind @ ..] => Some((id, behind)),
        [] => None,
    }
}

/// Takes a step for each byte of a text.
fn pay_text(store: &Store, left: &mut Left, id: TextId) -> bool
    requires { IsTextOf store.now id }
    ensures { Pays (length (text_at store.now.texts id.at)) left.old left.new result }
{
    pay(left, store.bytes(id).len() as u64)
}

/// Takes a step for each byte of these texts. Where fewer are left, the answer is false and none stay.
fn pay_texts(store: &Store, left: &mut Left, ids: &[TextId]) -> bool
    requires { TextsOf store.now ids.now }
    ensures { Pays (length (joined_seen store.now.texts ids.now)) left.old left.new result }
{
    let mut rest = ids;
    'texts: while let Some((id, behind)) = split(rest) {
        if !pay_text(store, left, *id) {
            return false;
        }
        rest = behind;
    }
    true
}

/// These texts one after another.
fn joined(alloc: Global, store: &Store, ids: &[TextId]) -> Result<Vec<u8>, NoMemory>
    requires { TextsOf store.now ids.now }
    ensures { IfOk result (λ made. made.items ≡ joined_seen store.now.texts ids.now) }
{
    let mut made = Vec::new(alloc);
    let mut rest = ids;
    'texts: while let Some((id, behind)) = split(rest) {
        append(&mut made, store.bytes(*id))?;
        rest = behind;
    }
    Ok(made)
}

/// The answer of an invocation, whose texts are paid for.
fn give_joined<'m>(
    alloc: Global,
    store: &mut Store,
    state: &State<'m>,
    ids: &[TextId],
) -> Result<Turn<'m>, NoMemory>
    requires state { StateOf store.old state.now }
    requires texts { TextsOf store.old ids.now }
    ensures { (l : Allowance) → IfOk result (λ r. Makes store.old state.now l store.new state.now l
        (starts.invoke_ends (Goes (Done (joined_seen store.old.texts ids.now))) (frames_of store.old state.now) (slots_of store.old state.now)) r) }
{
    let answer = joined(alloc, store, ids)?;
    let text = answer.as_slice();
    let turn = done(store, state, text)?;
    Ok(turn)
}

/// All texts of the answer are there. They are paid for before they are joined.
fn answer<'m>(
    alloc: Global,
    store: &mut Store,
    left: &mut Left,
    state: &State<'m>,
    ids: &[TextId],
) -> Result<Turn<'m>, NoMemory>
    requires state { StateOf store.old state.now }
    requires texts { TextsOf store.old ids.now }
    ensures { IfOk result (λ r. Makes store.old state.now left.old store.new state.now left.new
        (starts.texts [] (joined_seen store.old.texts ids.now) (frames_of store.old state.now) (slots_of store.old state.now)) r) }
{
    if !pay_texts(store, left, ids) {
        return Ok(Turn::Spent(Which::Steps));
    }
    let turn = give_joined(alloc, store, state, ids)?;
    Ok(turn)
}

/// The texts of these values, behind the texts before; behind the last one, the answer of the invocation.
pub fn texts<'m>(
    alloc: Global,
    store: &mut Store,
    left: &mut Left,
    state: &mut State<'m>,
    values: Values,
    before: List<TextId>,
) -> Result<Turn<'m>, NoMemory>
    requires state { StateOf store.old state.old }
    requires values { ValuesOf store.old values }
    requires before { TextsOf store.old before }
    ensures { IfOk result (λ r. Makes store.old state.old left.old store.new state.new left.new (starts.texts (values_seen store.old.texts values) (joined_seen store.old.texts before) (frames_of store.old state.old) (slots_of store.old state.old)) r) }
{
    if values.len() == 0 {
        let ids = before.as_slice();
        let turn = answer(alloc, store, left, state, ids)?;
        return Ok(turn);
    }
    let mut values = values;
    let value = values.take_first();
    let turn = next_text(alloc, store, left, state, value, values, before)?;
    Ok(turn)
}
