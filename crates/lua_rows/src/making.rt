//! A call that is ready is paid for and made (manual 2.5.8).
ghost use Rattle.std.specs.Prelude.{◌≡◌, IfOk};
ghost use Rattle.lua_calls.specs.LuaBasicSeen.{AllOf};
ghost use Rattle.lua_calls.specs.LuaGsubsBegun.{BegunOf};
ghost use Rattle.lua_turns.specs.LuaStackOf.{ValuesOf};
ghost use Rattle.lua_turns.specs.LuaStackSeen.{values_seen};
ghost use Rattle.lua_turns.specs.LuaStateOf.{StateOf};
ghost use Rattle.lua_turns.specs.LuaStoreParts.{IsLater};
ghost use Rattle.lua_calls.specs.MwFramesScenes.{NamesOf};
ghost use Rattle.lua_rows.specs.Begins.{begun_of, begun_one, begun_list, AnswersAtOnce, Begins};
ghost use Rattle.lua_rows.specs.Made.{MayMake};

use crate::ready::Callee;
use lua_calls::answering::once_call;
use lua_calls::table::AtOnce;
use lua_calls::{Begun, FieldNames, Stop, StringFunction, gsub_begin, sub};
use lua_code::{List, NoMemory};
use lua_turns::{Left, State, Steps, Store, Value, enter_call, pay_nodes};
use std::alloc::Global;
use std::sync::ledger::Ledger;

/// What came of a call that was made. It is small, since each call hands it on: what is seldom, and large, stands in a box.
#[derive(Drop)]
pub enum Made {
    /// One value, with no list around it.
    GaveOne(Value),
    Gave(List<Value>),
    /// The function raised an error, an allowance is spent, or it begins to ask.
    Stopped(Box<Result<Begun, Stop>>),
}

/// What the one value of a function comes to.
fn of_one(alloc: Global, answer: Result<Value, Stop>) -> Result<Made, NoMemory>
    ensures { IfOk result (λ m. begun_of m ≡ begun_one answer) }
{
    match answer {
        Ok(value) => Ok(Made::GaveOne(value)),
        Err(stop) => boxed(alloc, Err(stop)),
    }
}

/// What a function that has begun comes to.
fn of_begun(alloc: Global, begun: Result<Begun, Stop>) -> Result<Made, NoMemory>
    ensures { IfOk result (λ m. begun_of m ≡ begun) }
{
    match begun {
        Ok(Begun::Answers(values)) => Ok(Made::Gave(values)),
        stopped => boxed(alloc, stopped),
    }
}

/// What is seldom, in a box.
fn boxed(alloc: Global, begun: Result<Begun, Stop>) -> Result<Made, NoMemory>
    ensures { IfOk result (λ m. begun_of m ≡ begun) }
{
    match Box::new(alloc, begun) {
        Ok(begun) => Ok(Made::Stopped(begun)),
        Err(_) => Err(NoMemory),
    }
}

/// What the values of a function come to.
fn of_list(alloc: Global, answer: Result<List<Value>, Stop>) -> Result<Made, NoMemory>
    ensures { IfOk result (λ m. begun_of m ≡ begun_list answer) }
{
    match answer {
        Ok(values) => Ok(Made::Gave(values)),
        Err(stop) => boxed(alloc, Err(stop)),
    }
}

/// What a function answers to these arguments that answers at once. `string.sub` is the one that is called most.
fn answer(
    alloc: Global,
    store: &mut Store,
    left: &mut Left,
    names: FieldNames,
    function: AtOnce,
    arguments: &[Value],
) -> Result<Made, NoMemory>
    requires arguments { AllOf store.old arguments.now }
    requires names { NamesOf store.old names }
    ensures begins { IfOk result (λ m. AnswersAtOnce function (values_seen store.old.texts arguments.now) store.old left.old store.new left.new (begun_of m)) }
    ensures of { IfOk result (λ m. BegunOf store.new (begun_of m)) }
    ensures later { IsLater store.old store.new }
{
    match function {
        AtOnce::Strings(StringFunction::Sub) => {
            let answer = sub(alloc, store, left, arguments);
            of_one(alloc, answer)
        }
        _ => {
            let answer = once_call(alloc, store, left, names, function, arguments);
            of_list(alloc, answer)
        }
    }
}

/// What a function answers to these arguments, or how it begins to ask.
fn begin(
    alloc: Global,
    store: &mut Store,
    left: &mut Left,
    names: FieldNames,
    callee: Callee,
    arguments: &[Value],
) -> Result<Made, NoMemory>
    requires arguments { AllOf store.old arguments.now }
    requires names { NamesOf store.old names }
    ensures begins { IfOk result (λ m. Begins callee (values_seen store.old.texts arguments.now) store.old left.old store.new left.new (begun_of m)) }
    ensures of { IfOk result (λ m. BegunOf store.new (begun_of m)) }
    ensures later { IsLater store.old store.new }
{
    match callee {
        Callee::Answers(function) => answer(alloc, store, left, names, function, arguments),
        Callee::Gsub(function) => {
            let begun = gsub_begin(alloc, store, left, function, arguments);
            of_begun(alloc, begun)
        }
    }
}

/// A call begins whose function and arguments are there, if so many nodes, its own step and its call are left: it is entered then.
pub fn make_call<'m, L: Ledger>(
    alloc: Global,
    store: &mut Store,
    left: &mut Left,
    state: &mut State<'m>,
    callee: Callee,
    arguments: &[Value],
    nodes: u64,
    turns: &mut Steps<L>,
) -> Result<Option<Made>, NoMemory>
    requires state { StateOf store.old state.old }
    requires arguments { ValuesOf store.old arguments.now }
    ensures { IfOk result (MayMake store.old state.old callee arguments.now nodes left.old turns.old store.new state.new left.new turns.new) }
{
    if left.steps <= nodes {
        return Ok(None);
    }
    if left.calls == 0 {
        return Ok(None);
    }
    if !pay_nodes(left, turns, nodes) {
        return Ok(None);
    }
    left.steps -= 1;
    let entered = enter_call(state, left)?;
    if !entered {
        unreachable!();
    }
    turns.tick();
    let names = state.scenes.names();
    let made = begin(alloc, store, left, names, callee, arguments)?;
    Ok(Some(made))
}
