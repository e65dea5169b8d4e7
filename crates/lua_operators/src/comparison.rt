//! Comparison (manual 2.5.2): equality, and the order of values by their handlers.
ghost use Rattle.std.specs.Prelude.{◌≡◌, List, IfOk, codes};
ghost use Rattle.lua_code.specs.LuaMeaningMetatables as plain;
ghost use Rattle.lua_arms.specs.LuaStoreSeen.{StoreView, seen};
ghost use Rattle.lua_arms.specs.LuaStoreParts.{IsOf};
ghost use Rattle.lua_arms.specs.LuaSlotsSlots.{Slots};
ghost use Rattle.lua_arms.specs.LuaSlotsPoints.{SFrame};
ghost use Rattle.lua_code.specs.LuaSlotsOperators as machine;
ghost use Rattle.lua_arms.specs.LuaStackSeen.{frames_seen};
ghost use Rattle.lua_arms.specs.LuaStackOf.{FramesOf, EnvironmentOf};
ghost use Rattle.lua_arms.specs.Steps.{step_seen, StepOf};

use lua_arms::calls::call;
use lua_arms::index::two;
use lua_arms::tables::common_handler;
use lua_arms::{
    Environment, Failure, Focus, Frame, Frames, Given, InExpression, Step, Store, Value, is_nil,
};
use lua_code::NoMemory;
use std::alloc::Global;

/// A truth, or its negation.
pub fn answer<'m>(negated: bool, truth: bool) -> Step<'m>
    ensures of { (store : StoreView) → StepOf store result }
    ensures move_ { (store : StoreView) (fs : List SFrame) (s : Slots) → machine.answers negated truth fs s ≡ step_seen store result fs s }
{
    let told = if negated { !truth } else { truth };
    Step::On(Focus::Gives(Given::One(Value::Bool(told))))
}

/// A handler tells a truth, or its negation; without one it is false.
fn truth_by<'m>(
    alloc: Global,
    store: &Store,
    env: &Environment,
    frames: &mut Frames<'m>,
    negated: bool,
    handler: Value,
    operands: (Value, Value),
    line: Option<u32>,
) -> Result<Step<'m>, NoMemory>
    requires handler { IsOf store.now handler }
    requires first { IsOf store.now operands.0 }
    requires second { IsOf store.now operands.1 }
    requires env { EnvironmentOf store.now env.now }
    requires frames { FramesOf store.now frames.old }
    ensures of { IfOk result (λ r. StepOf store.now r × FramesOf store.now frames.new) }
    ensures move_ { IfOk result (λ r. (s : Slots) → s.heap ≡ store.now.heap
        → machine.truth_by negated (seen store.now.texts handler) (seen store.now.texts operands.0) (seen store.now.texts operands.1) line (frames_seen store.now.texts frames.old) s
        ≡ step_seen store.now r (frames_seen store.now.texts frames.new) s) }
{
    if is_nil(handler) {
        return Ok(answer(negated, false));
    }
    frames.push(Frame::Expression(InExpression::Verdict(negated)))?;
    let (first, second) = operands;
    let arguments = two(alloc, first, second)?;
    let step = call(store, env, handler, arguments, line)?;
    Ok(step)
}

/// Whether two values are equal, or are not (manual 2.5.2).
pub fn equals<'m>(
    alloc: Global,
    store: &Store,
    env: &Environment,
    frames: &mut Frames<'m>,
    negated: bool,
    operands: (Value, Value),
    line: Option<u32>,
) -> Result<Step<'m>, NoMemory>
    requires first { IsOf store.now operands.0 }
    requires second { IsOf store.now operands.1 }
    requires env { EnvironmentOf store.now env.now }
    requires frames { FramesOf store.now frames.old }
    ensures of { IfOk result (λ r. StepOf store.now r × FramesOf store.now frames.new) }
    ensures move_ { IfOk result (λ r. (s : Slots) → s.heap ≡ store.now.heap
        → machine.equals negated (seen store.now.texts operands.0) (seen store.now.texts operands.1) line (frames_seen store.now.texts frames.old) s
        ≡ step_seen store.now r (frames_seen store.now.texts frames.new) s) }
{
    let (first, second) = operands;
    if store.is_same(first, second) {
        return Ok(answer(negated, true));
    }
    let handler = common_handler(store, first, second, env.equal);
    let step = truth_by(alloc, store, env, frames, negated, handler, operands, line)?;
    Ok(step)
}

/// A handler tells whether the first operand is less; without one they cannot be compared.
fn less_by<'m>(
    alloc: Global,
    store: &Store,
    env: &Environment,
    frames: &mut Frames<'m>,
    handler: Value,
    operands: (Value, Value),
    line: Option<u32>,
) -> Result<Step<'m>, NoMemory>
    requires handler { IsOf store.now handler }
    requires first { IsOf store.now operands.0 }
    requires second { IsOf store.now operands.1 }
    requires env { EnvironmentOf store.now env.now }
    requires frames { FramesOf store.now frames.old }
    ensures of { IfOk result (λ r. StepOf store.now r × FramesOf store.now frames.new) }
    ensures move_ { IfOk result (λ r. (s : Slots) → s.heap ≡ store.now.heap
        → machine.less_by (seen store.now.texts handler) (seen store.now.texts operands.0) (seen store.now.texts operands.1) line (frames_seen store.now.texts frames.old) s
        ≡ step_seen store.now r (frames_seen store.now.texts frames.new) s) }
{
    if is_nil(handler) {
        let (first, second) = operands;
        return Ok(Step::Fails(line, Failure::CannotCompare(first, second)));
    }
    let step = truth_by(alloc, store, env, frames, false, handler, operands, line)?;
    Ok(step)
}

/// The handler for "less" tells whether the second operand is less, and the answer is the negation.
fn not_less_by<'m>(
    alloc: Global,
    store: &Store,
    env: &Environment,
    frames: &mut Frames<'m>,
    handler: Value,
    operands: (Value, Value),
    line: Option<u32>,
) -> Result<Step<'m>, NoMemory>
    requires handler { IsOf store.now handler }
    requires first { IsOf store.now operands.0 }
    requires second { IsOf store.now operands.1 }
    requires env { EnvironmentOf store.now env.now }
    requires frames { FramesOf store.now frames.old }
    ensures of { IfOk result (λ r. StepOf store.now r × FramesOf store.now frames.new) }
    ensures move_ { IfOk result (λ r. (s : Slots) → s.heap ≡ store.now.heap
        → machine.not_less_by (seen store.now.texts handler) (seen store.now.texts operands.0) (seen store.now.texts operands.1) line (frames_seen store.now.texts frames.old) s
        ≡ step_seen store.now r (frames_seen store.now.texts frames.new) s) }
{
    let (first, second) = operands;
    if is_nil(handler) {
        return Ok(Step::Fails(line, Failure::CannotCompare(first, second)));
    }
    let turned = (second, first);
    let step = truth_by(alloc, store, env, frames, true, handler, turned, line)?;
    Ok(step)
}

/// The handler for "at most" tells, or else the one for "less".
fn at_most_by<'m>(
    alloc: Global,
    store: &Store,
    env: &Environment,
    frames: &mut Frames<'m>,
    at_most: Value,
    less: Value,
    operands: (Value, Value),
    line: Option<u32>,
) -> Result<Step<'m>, NoMemory>
    requires at_most { IsOf store.now at_most }
    requires less { IsOf store.now less }
    requires first { IsOf store.now operands.0 }
    requires second { IsOf store.now operands.1 }
    requires env { EnvironmentOf store.now env.now }
    requires frames { FramesOf store.now frames.old }
    ensures of { IfOk result (λ r. StepOf store.now r × FramesOf store.now frames.new) }
    ensures move_ { IfOk result (λ r. (s : Slots) → s.heap ≡ store.now.heap
        → machine.at_most_by (seen store.now.texts at_most) (seen store.now.texts less) (seen store.now.texts operands.0) (seen store.now.texts operands.1) line (frames_seen store.now.texts frames.old) s
        ≡ step_seen store.now r (frames_seen store.now.texts frames.new) s) }
{
    if is_nil(at_most) {
        let step = not_less_by(alloc, store, env, frames, less, operands, line)?;
        return Ok(step);
    }
    let step = truth_by(alloc, store, env, frames, false, at_most, operands, line)?;
    Ok(step)
}

/// Whether one value is less than another that has no order with it but by their handler.
pub fn less_by_handler<'m>(
    alloc: Global,
    store: &Store,
    env: &Environment,
    frames: &mut Frames<'m>,
    operands: (Value, Value),
    line: Option<u32>,
) -> Result<Step<'m>, NoMemory>
    requires first { IsOf store.now operands.0 }
    requires second { IsOf store.now operands.1 }
    requires env { EnvironmentOf store.now env.now }
    requires frames { FramesOf store.now frames.old }
    ensures of { IfOk result (λ r. StepOf store.now r × FramesOf store.now frames.new) }
    ensures move_ { IfOk result (λ r. (s : Slots) → s.heap ≡ store.now.heap
        → machine.less_by (plain.common_handler s.heap (seen store.now.texts operands.0) (seen store.now.texts operands.1) (codes "__lt")) (seen store.now.texts operands.0) (seen store.now.texts operands.1) line (frames_seen store.now.texts frames.old) s
        ≡ step_seen store.now r (frames_seen store.now.texts frames.new) s) }
{
    let (first, second) = operands;
    let handler = common_handler(store, first, second, env.less);
    let step = less_by(alloc, store, env, frames, handler, operands, line)?;
    Ok(step)
}

/// Whether one value is at most another that has no order with it but by their handlers.
pub fn at_most_by_handler<'m>(
    alloc: Global,
    store: &Store,
    env: &Environment,
    frames: &mut Frames<'m>,
    operands: (Value, Value),
    line: Option<u32>,
) -> Result<Step<'m>, NoMemory>
    requires first { IsOf store.now operands.0 }
    requires second { IsOf store.now operands.1 }
    requires env { EnvironmentOf store.now env.now }
    requires frames { FramesOf store.now frames.old }
    ensures of { IfOk result (λ r. StepOf store.now r × FramesOf store.now frames.new) }
    ensures move_ { IfOk result (λ r. (s : Slots) → s.heap ≡ store.now.heap
        → machine.at_most_by (plain.common_handler s.heap (seen store.now.texts operands.0) (seen store.now.texts operands.1) (codes "__le")) (plain.common_handler s.heap (seen store.now.texts operands.0) (seen store.now.texts operands.1) (codes "__lt")) (seen store.now.texts operands.0) (seen store.now.texts operands.1) line (frames_seen store.now.texts frames.old) s
        ≡ step_seen store.now r (frames_seen store.now.texts frames.new) s) }
{
    let (first, second) = operands;
    let at_most = common_handler(store, first, second, env.at_most);
    let less = common_handler(store, first, second, env.less);
    let step = at_most_by(alloc, store, env, frames, at_most, less, operands, line)?;
    Ok(step)
}
