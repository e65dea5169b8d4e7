//! `mw.loadData` (Scribunto, mw.loadData): the tables of a data module are asked for once, and kept.
ghost use Rattle.std.specs.Prelude.{◌≡◌, ◌∷◌, [], ℕ, List, Option, IfOk, OnOk};
ghost use Rattle.lua_code.specs.WkBaseTitles.{title_of};
ghost use Rattle.page_run.specs.WkBaseDeclaredLeftLeft.{Left as Allowance};
ghost use Rattle.lua_code.specs.WkBaseDeclaredTitleNamespaceTheVariants.{Main};
ghost use Rattle.lua_code.specs.WkBaseDeclaredTitleTitle.{Title as Name};
ghost use Rattle.mw_frame.specs.declared.question.Ask.TheVariants as ask;
ghost use Rattle.page_run.specs.Outcome.{Jumps};
ghost use Rattle.lua_code.specs.LuaHeapValue as kind;
ghost use Rattle.lua_code.specs.LuaMeaningQuestions as asking;
ghost use Rattle.lua_code.specs.LuaMeaningTitled.{item_of};
ghost use Rattle.lua_state.specs.LuaSlotsErrors.{gives};
ghost use Rattle.lua_code.specs.LuaSlotsModules as machine;
ghost use Rattle.lua_state.specs.LuaSlotsPoints as point;
ghost use Rattle.lua_state.specs.LuaStoreSeen.{text_at};
ghost use Rattle.lua_state.specs.LuaStoreParts.{IsTableOf, IsTextOf};
ghost use Rattle.lua_state.specs.LuaStackLists.{given_values};
ghost use Rattle.lua_state.specs.LuaStackOf.{JumpOf, ValuesOf};
ghost use Rattle.lua_state.specs.LuaStackSeen.{jump_seen, values_seen};
ghost use Rattle.lua_state.specs.Makes.{Makes};
ghost use Rattle.lua_state.specs.Of.{OutcomeOf, StateOf};
ghost use Rattle.lua_state.specs.Seen.{frames_of, outcome_seen, slots_of};
ghost use Rattle.lua_modules.specs.Answers.{one_answer_in, answer_in, data_move, raised_in, DataAnswerOf};

use crate::raising::{lacks_data, wrong_answer};
use crate::texts::{read_title, refuse};
use lua_code::NoMemory;
use lua_state::{
    Asked, Focus, Frame, Given, Jump, Left, Outcome, State, Store, TableId, TextId, Turn, Value,
    Values, boxed, text_in,
};
use mw_frame::{Ask, Title};
use std::alloc::Global;

/// A call of `mw.loadData` at this line waits for the tables of this data module from now on.
fn wait_for(
    store: &Store,
    state: &mut State<'_>,
    text: TextId,
    title: &Title,
    line: Option<u32>,
) -> Result<(), NoMemory>
    requires state { StateOf store.now state.old }
    requires text { IsTextOf store.now text }
    ensures of { OnOk result (StateOf store.now state.new) }
    ensures same { OnOk result (state.new ≡ record state.old { frames = state.new.frames }) }
    ensures frames { OnOk result (frames_of store.now state.new ≡ point.Hears (asking.DataAsked (text_at store.now.texts text.at) title.now) line ∷ frames_of store.now state.old) }
{
    let named = title.copy()?;
    state
        .frames
        .push(Frame::Hears(Asked::Data(text, named), line))?;
    Ok(())
}

/// The tables of a data module are asked for, of which messages say the text of this name.
fn ask_named<'m>(
    alloc: Global,
    store: &Store,
    state: &mut State<'m>,
    text: TextId,
    title: Title,
    line: Option<u32>,
) -> Result<Turn<'m>, NoMemory>
    requires state { StateOf store.now state.old }
    requires text { IsTextOf store.now text }
    ensures { (l : Allowance) → IfOk result (λ r. Makes store.now state.old l store.now state.new l
        (point.Now (point.Asking (ask.Data title) (point.Hears (asking.DataAsked (text_at store.now.texts text.at) title) line ∷ frames_of store.now state.old)) (slots_of store.now state.old)) r) }
{
    wait_for(store, state, text, &title, line)?;
    let question = boxed(alloc, Ask::Data(title))?;
    Ok(Turn::On(Focus::Asks(question)))
}

/// The tables of a data module are asked for, of which messages say this text.
fn ask_data<'m>(
    alloc: Global,
    store: &mut Store,
    state: &mut State<'m>,
    text: &[u8],
    title: Title,
    line: Option<u32>,
) -> Result<Turn<'m>, NoMemory>
    requires state { StateOf store.old state.old }
    ensures { (l : Allowance) → IfOk result (λ r. Makes store.old state.old l store.new state.new l
        (point.Now (point.Asking (ask.Data title) (point.Hears (asking.DataAsked text.now title) line ∷ frames_of store.old state.old)) (slots_of store.old state.old)) r) }
{
    let id = store.text(text)?;
    let turn = ask_named(alloc, store, state, id, title, line)?;
    Ok(turn)
}

/// The tables of the data module of a title: they are kept, or they are asked for.
fn load_titled<'m>(
    alloc: Global,
    store: &mut Store,
    state: &mut State<'m>,
    text: &[u8],
    title: Title,
    line: Option<u32>,
) -> Result<Turn<'m>, NoMemory>
    requires state { StateOf store.old state.old }
    ensures { (l : Allowance) → IfOk result (λ r. Makes store.old state.old l store.new state.new l
        (machine.load_as text.now title (item_of (slots_of store.old state.old).data_ title) line (frames_of store.old state.old) (slots_of store.old state.old)) r) }
{
    let found = state.loaded.get(&title)?;
    match found {
        Some(value) => Ok(Turn::On(Focus::Gives(Given::One(value)))),
        None => {
            let turn = ask_data(alloc, store, state, text, title, line)?;
            Ok(turn)
        }
    }
}

/// `mw.loadData` of a text, which must be a title.
fn load_text<'m>(
    alloc: Global,
    store: &mut Store,
    left: &mut Left,
    state: &mut State<'m>,
    text: &[u8],
    line: Option<u32>,
) -> Result<Turn<'m>, NoMemory>
    requires state { StateOf store.old state.old }
    ensures { IfOk result (λ r. Makes store.old state.old left.old store.new state.new left.new
        (machine.load_titled text.now (title_of text.now Main) line (frames_of store.old state.old) (slots_of store.old state.old)) r) }
{
    let read = read_title(alloc, text)?;
    match read {
        Some(title) => {
            let turn = load_titled(alloc, store, state, text, title, line)?;
            Ok(turn)
        }
        None => {
            let turn = lacks_data(alloc, store, left, state, text, line)?;
            Ok(turn)
        }
    }
}

/// `mw.loadData(name)`: the tables of a data module, which are asked for where they have not been loaded yet.
pub fn load_data<'m>(
    alloc: Global,
    store: &mut Store,
    left: &mut Left,
    state: &mut State<'m>,
    arguments: Values,
    line: Option<u32>,
) -> Result<Turn<'m>, NoMemory>
    requires state { StateOf store.old state.old }
    requires arguments { ValuesOf store.old arguments }
    ensures { IfOk result (λ r. Makes store.old state.old left.old store.new state.new left.new
        (machine.load_data (values_seen store.old.texts arguments) line (frames_of store.old state.old) (slots_of store.old state.old)) r) }
{
    let first = arguments.first();
    let found = text_in(alloc, store, first)?;
    match found {
        Some(text) => {
            let bytes = text.as_slice();
            let turn = load_text(alloc, store, left, state, bytes, line)?;
            Ok(turn)
        }
        None => {
            let given = arguments.into_list();
            let values = given.as_slice();
            let turn = refuse(alloc, store, left, state, b"loadData", values, line)?;
            Ok(turn)
        }
    }
}

/// What an answer is to `mw.loadData`.
#[derive(Clone, Copy)]
pub enum DataAnswer {
    Table(TableId),
    Nothing,
    /// It does not belong to the question.
    Other,
}

/// What a single value is.
fn one_answer(value: Value) -> DataAnswer
    ensures { result ≡ one_answer_in value }
{
    match value {
        Value::Table(table) => DataAnswer::Table(table),
        Value::Nil => DataAnswer::Other,
        Value::Bool(_) => DataAnswer::Other,
        Value::Number(_) => DataAnswer::Other,
        Value::Text(_) => DataAnswer::Other,
        Value::Closure(_) => DataAnswer::Other,
        Value::Builtin(_) => DataAnswer::Other,
        Value::Markup(_) => DataAnswer::Other,
    }
}

/// What a list of values is.
fn list_answer(values: &Values) -> DataAnswer
    ensures { result ≡ answer_in values.now }
{
    let count = values.len();
    if count == 0 {
        return DataAnswer::Nothing;
    }
    if count == 1 {
        return one_answer(values.first());
    }
    DataAnswer::Other
}

/// What some values are as an answer.
fn answer_of(given: &Given) -> DataAnswer
    ensures { result ≡ answer_in (given_values given.now) }
{
    match given {
        Given::One(value) => one_answer(*value),
        Given::Many(values) => list_answer(values),
    }
}

/// The tables of a data module are there, and are kept.
fn keep_data<'m>(
    store: &Store,
    state: &mut State<'m>,
    title: Title,
    table: TableId,
) -> Result<Turn<'m>, NoMemory>
    requires state { StateOf store.now state.old }
    requires table { IsTableOf store.now table }
    ensures { (l : Allowance) → IfOk result (λ r. Makes store.now state.old l store.now state.new l
        (gives (kind.Table table.at ∷ []) (frames_of store.now state.old) (machine.with_data title (kind.Table table.at) (slots_of store.now state.old))) r) }
{
    let root = Value::Table(table);
    state.loaded.put(title, root)?;
    Ok(Turn::On(Focus::Gives(Given::One(root))))
}

/// The answer to a question of `mw.loadData`, where it is values.
fn data_given<'m>(
    alloc: Global,
    store: &mut Store,
    left: &mut Left,
    state: &mut State<'m>,
    text: TextId,
    title: Title,
    answer: DataAnswer,
    line: Option<u32>,
) -> Result<Turn<'m>, NoMemory>
    requires state { StateOf store.old state.old }
    requires text { IsTextOf store.old text }
    requires answer { DataAnswerOf store.old answer }
    ensures { IfOk result (λ r. Makes store.old state.old left.old store.new state.new left.new
        (data_move answer (text_at store.old.texts text.at) title line (frames_of store.old state.old) (slots_of store.old state.old)) r) }
{
    match answer {
        DataAnswer::Table(table) => keep_data(store, state, title, table),
        DataAnswer::Nothing => {
            let bytes = store.bytes(text);
            let turn = lacks_data(alloc, store, left, state, bytes, line)?;
            Ok(turn)
        }
        DataAnswer::Other => wrong_answer(store, state),
    }
}

/// The value of an error, if a jump is one.
fn raised(jump: &Jump) -> Option<Value>
    ensures { result ≡ raised_in jump.now }
{
    match jump {
        Jump::Raised(value) => Some(*value),
        Jump::Returned(_) => None,
        Jump::Broke => None,
    }
}

/// The answer to a question of `mw.loadData`, where it is none: an error is raised as it is.
fn data_failed<'m>(store: &mut Store, state: &State<'m>, jump: &Jump) -> Result<Turn<'m>, NoMemory>
    requires state { StateOf store.old state.now }
    requires jump { JumpOf store.old jump.now }
    ensures { (l : Allowance) (text : List ℕ) (title : Name) (line : Option ℕ) → IfOk result (λ r. Makes store.old state.now l store.new state.now l
        (machine.data_answer text title (Jumps (jump_seen store.old.texts jump.now)) line (frames_of store.old state.now) (slots_of store.old state.now)) r) }
{
    let found = raised(jump);
    match found {
        Some(value) => Ok(Turn::On(Focus::Jumps(Jump::Raised(value)))),
        None => {
            let turn = wrong_answer(store, state)?;
            Ok(turn)
        }
    }
}

/// What the question of `mw.loadData` came to: tables are kept, and the message of a load that failed is raised as it is.
pub fn data_answer<'m>(
    alloc: Global,
    store: &mut Store,
    left: &mut Left,
    state: &mut State<'m>,
    text: TextId,
    title: Title,
    outcome: Outcome,
    line: Option<u32>,
) -> Result<Turn<'m>, NoMemory>
    requires state { StateOf store.old state.old }
    requires text { IsTextOf store.old text }
    requires outcome { OutcomeOf store.old outcome }
    ensures { IfOk result (λ r. Makes store.old state.old left.old store.new state.new left.new
        (machine.data_answer (text_at store.old.texts text.at) title (outcome_seen store.old.texts outcome) line (frames_of store.old state.old) (slots_of store.old state.old)) r) }
{
    match outcome {
        Outcome::Goes(given) => {
            let answer = answer_of(&given);
            let turn = data_given(alloc, store, left, state, text, title, answer, line)?;
            Ok(turn)
        }
        Outcome::Jumps(jump) => {
            let turn = data_failed(store, state, &jump)?;
            Ok(turn)
        }
    }
}
