//! Loops (manual 2.4.4 and 2.4.5): what follows a test, a bound or the results of an iterator.
ghost use Rattle.std.specs.Prelude.{◌≡◌, [], List, option_map, IfOk};
ghost use Rattle.lua_code.specs.Seen.{expression_seen, block_seen};
ghost use Rattle.lua_code.specs.LuaMeaningLoops as plain;
ghost use Rattle.lua_code.specs.LuaMeaningValues as values_of;
ghost use Rattle.lua_basic.specs.LuaStoreSeen.{StoreView, seen};
ghost use Rattle.lua_basic.specs.LuaStoreParts.{IsOf};
ghost use Rattle.lua_stack.specs.LuaSlotsSlots.{Slots};
ghost use Rattle.lua_stack.specs.LuaSlotsPoints.{SFrame};
ghost use Rattle.lua_code.specs.LuaSlotsLoops as machine;
ghost use Rattle.lua_stack.specs.LuaSlotsErrors.{gives};
ghost use Rattle.lua_stack.specs.Seen.{frames_seen, given_seen};
ghost use Rattle.lua_stack.specs.Of.{EachOf, FramesOf, GivenOf, EnvironmentOf};
ghost use Rattle.lua_arms.specs.Steps.{step_seen, StepOf};

use crate::calls::call;
use crate::index::two;
use crate::numbers::number_in;
use crate::step::{Failure, Step};
use lua_basic::{Store, Value};
use lua_code::{Expression, List, NoMemory, Statement};
use lua_number::add;
use lua_stack::values::{is_nil, is_true};
use lua_stack::{EachLoop, Environment, Focus, Frame, Frames, Given, InLoop, Thing, Values};
use std::alloc::Global;

/// No values for the frames: a loop or a statement is over.
pub fn nothing<'m>(alloc: Global) -> Step<'m>
    ensures of { (store : StoreView) → StepOf store result }
    ensures move_ { (store : StoreView) (fs : List SFrame) (s : Slots) → gives [] fs s ≡ step_seen store result fs s }
{
    Step::On(Focus::Gives(Given::Many(Values::new(alloc))))
}

/// After the test of a `while`: another turn, or the end.
pub fn while_next<'m>(
    alloc: Global,
    test: &'m Expression,
    body: &'m List<Statement>,
    value: Value,
) -> Step<'m>
    ensures of { (store : StoreView) → StepOf store result }
    ensures move_ { (store : StoreView) (fs : List SFrame) (s : Slots)
        → machine.while_next (expression_seen test.now) (block_seen body.now) (seen store.texts value) fs s ≡ step_seen store result fs s }
{
    if is_true(value) {
        return Step::On(Focus::Starts(Thing::WhileTurn(test, body)));
    }
    nothing(alloc)
}

/// After the test of a `repeat`: the end, or another turn.
pub fn repeat_next<'m>(
    alloc: Global,
    body: &'m List<Statement>,
    test: &'m Expression,
    value: Value,
) -> Step<'m>
    ensures of { (store : StoreView) → StepOf store result }
    ensures move_ { (store : StoreView) (fs : List SFrame) (s : Slots)
        → machine.repeat_next (block_seen body.now) (expression_seen test.now) (seen store.texts value) fs s ≡ step_seen store result fs s }
{
    if is_true(value) {
        return nothing(alloc);
    }
    Step::On(Focus::Starts(Thing::RepeatTurn(body, test)))
}

/// Whether a counting loop has a turn at this index.
fn is_within(index: i64, limit: i64, step: i64) -> bool
    ensures { result ≡ plain.is_within index limit step }
{
    if step > 0 {
        return index <= limit;
    }
    limit <= index
}

/// A counting loop at this index: a turn, or the end.
pub fn count_from<'m>(
    alloc: Global,
    boxed: bool,
    index: i64,
    limit: i64,
    step: i64,
    body: &'m List<Statement>,
) -> Step<'m>
    ensures of { (store : StoreView) → StepOf store result }
    ensures move_ { (store : StoreView) (fs : List SFrame) (s : Slots)
        → machine.count_from boxed index limit step (block_seen body.now) fs s ≡ step_seen store result fs s }
{
    if is_within(index, limit, step) {
        return Step::On(Focus::Starts(Thing::CountTurn(boxed, index, limit, step, body)));
    }
    nothing(alloc)
}

/// After a turn of a counting loop: it goes on at the next index, and where that is out of range, it is over.
pub fn count_next<'m>(
    alloc: Global,
    boxed: bool,
    index: i64,
    limit: i64,
    step: i64,
    body: &'m List<Statement>,
) -> Step<'m>
    ensures of { (store : StoreView) → StepOf store result }
    ensures move_ { (store : StoreView) (fs : List SFrame) (s : Slots)
        → machine.count_next boxed index limit step (block_seen body.now) fs s ≡ step_seen store result fs s }
{
    match add(index, step) {
        Ok(next) => count_from(alloc, boxed, next, limit, step, body),
        Err(_) => nothing(alloc),
    }
}

/// A counting loop with its three bounds begins.
pub fn counting<'m>(
    alloc: Global,
    store: &Store,
    boxed: bool,
    bounds: (Value, Value, Value),
    body: &'m List<Statement>,
    line: u32,
) -> Step<'m>
    requires from { IsOf store.now bounds.0 }
    requires to { IsOf store.now bounds.1 }
    requires by { IsOf store.now bounds.2 }
    ensures of { StepOf store.now result }
    ensures move_ { (fs : List SFrame) (s : Slots)
        → machine.counting boxed (seen store.now.texts bounds.0) (seen store.now.texts bounds.1) (seen store.now.texts bounds.2) (block_seen body.now) line fs s ≡ step_seen store.now result fs s }
{
    let (from, to, by) = bounds;
    match number_in(store, from) {
        None => Step::Fails(Some(line), Failure::NoInitialValue),
        Some(index) => match number_in(store, to) {
            None => Step::Fails(Some(line), Failure::NoLimit),
            Some(limit) => match number_in(store, by) {
                None => Step::Fails(Some(line), Failure::NoStep),
                Some(step) => count_from(alloc, boxed, index, limit, step, body),
            },
        },
    }
}

/// After the first two bounds: the step is evaluated, or is 1.
pub fn step_next<'m>(
    alloc: Global,
    store: &Store,
    frames: &mut Frames<'m>,
    boxed: bool,
    bounds: (Value, Value),
    by: Option<&'m Expression>,
    body: &'m List<Statement>,
    line: u32,
) -> Result<Step<'m>, NoMemory>
    requires from { IsOf store.now bounds.0 }
    requires to { IsOf store.now bounds.1 }
    requires frames { FramesOf store.now frames.old }
    ensures of { IfOk result (λ r. StepOf store.now r × FramesOf store.now frames.new) }
    ensures move_ { IfOk result (λ r. (s : Slots)
        → machine.step_next boxed (seen store.now.texts bounds.0) (seen store.now.texts bounds.1) (option_map (λ e. expression_seen e.now) by.entry) (block_seen body.now) line (frames_seen store.now.texts frames.old) s
        ≡ step_seen store.now r (frames_seen store.now.texts frames.new) s) }
{
    let (from, to) = bounds;
    match by {
        None => {
            let bounds = (from, to, Value::Number(1));
            Ok(counting(alloc, store, boxed, bounds, body, line))
        }
        Some(by) => {
            frames.push(Frame::Loop(InLoop::CountBy(boxed, from, to, body, line)))?;
            Ok(Step::On(Focus::Evaluates(by)))
        }
    }
}

/// A generic loop calls its iterator with the state and the value before.
pub fn each_from<'m>(
    alloc: Global,
    store: &Store,
    env: &Environment,
    frames: &mut Frames<'m>,
    each: Box<EachLoop<'m>>,
    before: Value,
) -> Result<Step<'m>, NoMemory>
    requires each { EachOf store.now each.value }
    requires before { IsOf store.now before }
    requires env { EnvironmentOf store.now env.now }
    requires frames { FramesOf store.now frames.old }
    ensures of { IfOk result (λ r. StepOf store.now r × FramesOf store.now frames.new) }
    ensures move_ { IfOk result (λ r. (s : Slots) → s.heap ≡ store.now.heap
        → machine.each_from each.entry.value.flags.now (seen store.now.texts each.entry.value.iterator) (seen store.now.texts each.entry.value.state) (seen store.now.texts before) (block_seen each.entry.value.body.now) each.entry.value.line (frames_seen store.now.texts frames.old) s
        ≡ step_seen store.now r (frames_seen store.now.texts frames.new) s) }
{
    let iterator = each.iterator;
    let state = each.state;
    let line = each.line;
    frames.push(Frame::Loop(InLoop::EachNext(each)))?;
    let arguments = two(alloc, state, before)?;
    let step = call(store, env, iterator, arguments, Some(line))?;
    Ok(step)
}

/// After the iterator of a generic loop: another turn with its results, or the end where the first is nil.
pub fn each_next<'m>(
    alloc: Global,
    store: &Store,
    each: Box<EachLoop<'m>>,
    results: Given,
) -> Step<'m>
    requires each { EachOf store.now each.value }
    requires results { GivenOf store.now results }
    ensures of { StepOf store.now result }
    ensures move_ { (fs : List SFrame) (s : Slots)
        → machine.each_next each.entry.value.flags.now (seen store.now.texts each.entry.value.iterator) (seen store.now.texts each.entry.value.state) (given_seen store.now.texts results) (block_seen each.entry.value.body.now) each.entry.value.line fs s ≡ step_seen store.now result fs s }
{
    if is_nil(results.first()) {
        return nothing(alloc);
    }
    Step::On(Focus::Starts(Thing::EachTurn(each, results)))
}
