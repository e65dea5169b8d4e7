//! What is read off a run of Lua that is over: how an invocation ended, the data of a load; and the text that stands for such an end on a page.
ghost use Rattle.std.specs.Prelude.{◌≡◌, IfOk, IfSome};
ghost use Rattle.lua_graph.specs.LuaHeapGraph.{Graph as PlainGraph};
ghost use Rattle.lua_graph.specs.LuaWalkData.{Checked, taken};
ghost use Rattle.page_meaning.specs.LuaMeaningQuestions.{LoadFailed};
ghost use Rattle.page_meaning.specs.LuaMeaningStart.{end_of};
ghost use Rattle.lua_graph.specs.LuaStoreSeen.{seen};
ghost use Rattle.lua_graph.specs.LuaStoreParts.{IsOf, IsTextOf};
ghost use Rattle.lua_graph.specs.Taken.{IsFault};
ghost use Rattle.lua_state.specs.LuaStackLists.{given_values};
ghost use Rattle.lua_state.specs.Of.{OutcomeOf};
ghost use Rattle.lua_state.specs.Seen.{outcome_seen};
ghost use Rattle.page_meaning.specs.Told.{spent_text, graph_answer};
ghost use Rattle.page_meaning.specs.Outcomes.{end_outcome, outcome_text};
ghost use Rattle.page_points.specs.Machines.{data_told};
ghost use Rattle.page_ground.specs.Seen.{data_seen, CanBePut};
ghost use Rattle.page_ground.specs.Ending.{text_in_value, only_text_in, raised_text_in, text_or_none};

use crate::data::Data;
use expand_texts::texts::joined;
use lua_graph::{DataFault, Store, TextId, Value, take_out};
use lua_state::{Given, Jump, Outcome, Values};
use page_meaning::JobOutcome;
use page_run::Which;
use std::alloc::Global;
use wk_base::{Bytes, NoMemory};

/// The text that a value is.
fn text_in(value: Value) -> Option<TextId>
    ensures { result ≡ text_in_value value }
{
    match value {
        Value::Text(id) => Some(id),
        Value::Nil => None,
        Value::Bool(_) => None,
        Value::Number(_) => None,
        Value::Table(_) => None,
        Value::Closure(_) => None,
        Value::Builtin(_) => None,
        Value::Markup(_) => None,
    }
}

/// The text that the only value of a list is.
fn text_in_list(values: &Values) -> Option<TextId>
    ensures { result ≡ only_text_in values.now }
{
    let count = values.len();
    if count == 1 {
        return text_in(values.first());
    }
    None
}

/// The text that the only one of some values is.
fn only_text(given: &Given) -> Option<TextId>
    ensures { result ≡ only_text_in (given_values given.now) }
{
    match given {
        Given::One(value) => text_in(*value),
        Given::Many(values) => text_in_list(values),
    }
}

/// The text that the value of an error is.
fn raised_text(jump: &Jump) -> Option<TextId>
    ensures { result ≡ raised_text_in jump.now }
{
    match jump {
        Jump::Raised(value) => text_in(*value),
        Jump::Returned(_) => None,
        Jump::Broke => None,
    }
}

/// A copy of a text of the store, or no bytes.
fn copied_text(alloc: Global, store: &Store, text: Option<TextId>) -> Result<Bytes, NoMemory>
    requires { IfSome text (IsTextOf store.now) }
    ensures { IfOk result (λ made. made ≡ text_or_none store.now.texts text) }
{
    match text {
        Some(id) => {
            let made = Bytes::of(alloc, store.bytes(id))?;
            Ok(made)
        }
        None => Ok(Bytes::of_vec(Vec::new(alloc))),
    }
}

/// How an invocation ended that is over (Extension:Scribunto, "Script error"): with the text that it gave, or with the message of its failure,
/// which is written without marks of HTML already.
pub fn end_outcome(alloc: Global, store: &Store, outcome: &Outcome) -> Result<JobOutcome, NoMemory>
    requires { OutcomeOf store.now outcome.now }
    ensures { IfOk result (λ so.
        so ≡ end_outcome (end_of (outcome_seen store.now.texts outcome.now))) }
{
    match outcome {
        Outcome::Goes(given) => {
            let found = only_text(given);
            let text = copied_text(alloc, store, found)?;
            Ok(JobOutcome::Done(text))
        }
        Outcome::Jumps(jump) => {
            let found = raised_text(jump);
            let message = copied_text(alloc, store, found)?;
            Ok(JobOutcome::Failed(message))
        }
    }
}

/// The text of an invocation that spent an allowance.
fn spent_text(alloc: Global, which: Which) -> Result<Bytes, NoMemory>
    ensures { IfOk result (λ text. text ≡ spent_text which) }
{
    match which {
        Which::Steps => {
            let text = Bytes::of(
                alloc,
                b"<strong class=\"error\">Script error: The allowance of steps is spent.</strong>",
            )?;
            Ok(text)
        }
        Which::Calls => {
            let text = Bytes::of(
                alloc,
                b"<strong class=\"error\">Script error: The allowance of nested calls is spent.</strong>",
            )?;
            Ok(text)
        }
    }
}

/// The text that stands on a page for an invocation that ended so (Extension:Scribunto, "Script error").
pub fn outcome_text(alloc: Global, outcome: JobOutcome) -> Result<Bytes, NoMemory>
    ensures { IfOk result (λ text. text ≡ outcome_text outcome) }
{
    match outcome {
        JobOutcome::Done(text) => Ok(text),
        JobOutcome::Failed(message) => {
            let bytes = message.as_slice();
            let shown = joined(alloc, b"<strong class=\"error\">", bytes, b"</strong>")?;
            Ok(Bytes::of_vec(shown))
        }
        JobOutcome::Spent(which) => {
            let text = spent_text(alloc, which)?;
            Ok(text)
        }
    }
}

/// Why a value is no data, as the message of the load (Scribunto, `mw.loadData`); want of memory has none.
fn fault_message(fault: DataFault) -> Option<&'static [u8]>
    ensures { IfSome result (λ message.
        (r : Checked PlainGraph) → IsFault r fault → graph_answer r ≡ LoadFailed message.now) }
{
    match fault {
        DataFault::NotATable => Some(b"data module returned no table"),
        DataFault::HasFunction => Some(b"data module holds a function"),
        DataFault::HasMetatable => Some(b"data module holds a metatable"),
        DataFault::BadKey => Some(b"data module holds a bad key"),
        DataFault::NoMemory => None,
    }
}

/// The data of a value, or why it has none.
fn value_data(alloc: Global, store: &Store, value: Value) -> Result<Data, NoMemory>
    requires { IsOf store.now value }
    ensures data { IfOk result (λ d.
        data_seen d ≡ graph_answer (taken store.now.heap (seen store.now.texts value))) }
    ensures put { IfOk result CanBePut }
{
    match take_out(alloc, store, value) {
        Ok(graph) => Ok(Data::Tables(graph)),
        Err(fault) => match fault_message(fault) {
            Some(message) => {
                let copy = Bytes::of(alloc, message)?;
                Ok(Data::Failed(copy))
            }
            None => Err(NoMemory),
        },
    }
}

/// What the load of a data module gave that is over (Scribunto, `mw.loadData`): the tables of its value, or why there are none.
pub fn end_data(alloc: Global, store: &Store, outcome: &Outcome) -> Result<Data, NoMemory>
    requires { OutcomeOf store.now outcome.now }
    ensures data { IfOk result (λ d.
        data_seen d
        ≡ data_told store.now.heap (end_of (outcome_seen store.now.texts outcome.now))) }
    ensures put { IfOk result CanBePut }
{
    match outcome {
        Outcome::Goes(given) => {
            let value = given.first();
            let data = value_data(alloc, store, value)?;
            Ok(data)
        }
        Outcome::Jumps(jump) => {
            let found = raised_text(jump);
            let message = copied_text(alloc, store, found)?;
            Ok(Data::Failed(message))
        }
    }
}
