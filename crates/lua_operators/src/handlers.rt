//! Handlers of operators (manual 2.8): one is called with both operands.
ghost use Rattle.std.specs.Prelude.{◌≡◌, IfOk};
ghost use Rattle.lua_arms.specs.LuaStoreSeen.{seen, text_at};
ghost use Rattle.lua_arms.specs.LuaStoreParts.{IsOf, IsTextOf};
ghost use Rattle.lua_arms.specs.LuaSlotsSlots.{Slots};
ghost use Rattle.lua_code.specs.LuaSlotsOperators as machine;
ghost use Rattle.lua_arms.specs.LuaStackSeen.{frames_seen};
ghost use Rattle.lua_arms.specs.LuaStackOf.{FramesOf, EnvironmentOf};
ghost use Rattle.lua_arms.specs.Steps.{step_seen, StepOf, FailureOf, failure_text};

use lua_arms::calls::call;
use lua_arms::index::two;
use lua_arms::tables::either_handler;
use lua_arms::{
    Environment, Failure, Frame, Frames, InExpression, Step, Store, TextId, Value, is_nil,
};
use lua_code::NoMemory;
use std::alloc::Global;

/// A handler is called with both operands, and its first value counts; without a handler something failed.
pub fn by_handler<'m>(
    alloc: Global,
    store: &Store,
    env: &Environment,
    frames: &mut Frames<'m>,
    handler: Value,
    operands: (Value, Value),
    line: Option<u32>,
    failure: Failure,
) -> Result<Step<'m>, NoMemory>
    requires handler { IsOf store.now handler }
    requires first { IsOf store.now operands.0 }
    requires second { IsOf store.now operands.1 }
    requires failure { FailureOf store.now failure }
    requires env { EnvironmentOf store.now env.now }
    requires frames { FramesOf store.now frames.old }
    ensures of { IfOk result (λ r. StepOf store.now r × FramesOf store.now frames.new) }
    ensures move_ { IfOk result (λ r. (s : Slots) → s.heap ≡ store.now.heap
        → machine.by_handler (seen store.now.texts handler) (seen store.now.texts operands.0) (seen store.now.texts operands.1) line (failure_text store.now.texts failure) (frames_seen store.now.texts frames.old) s
        ≡ step_seen store.now r (frames_seen store.now.texts frames.new) s) }
{
    if is_nil(handler) {
        return Ok(Step::Fails(line, failure));
    }
    frames.push(Frame::Expression(InExpression::First))?;
    let (first, second) = operands;
    let arguments = two(alloc, first, second)?;
    let step = call(store, env, handler, arguments, line)?;
    Ok(step)
}

/// The handler of either operand is called, the first one's where it has one.
pub fn by_either<'m>(
    alloc: Global,
    store: &Store,
    env: &Environment,
    frames: &mut Frames<'m>,
    name: TextId,
    operands: (Value, Value),
    line: Option<u32>,
    failure: Failure,
) -> Result<Step<'m>, NoMemory>
    requires name { IsTextOf store.now name }
    requires first { IsOf store.now operands.0 }
    requires second { IsOf store.now operands.1 }
    requires failure { FailureOf store.now failure }
    requires env { EnvironmentOf store.now env.now }
    requires frames { FramesOf store.now frames.old }
    ensures of { IfOk result (λ r. StepOf store.now r × FramesOf store.now frames.new) }
    ensures move_ { IfOk result (λ r. (s : Slots) → s.heap ≡ store.now.heap
        → machine.by_either (seen store.now.texts operands.0) (seen store.now.texts operands.1) (text_at store.now.texts name.at) line (failure_text store.now.texts failure) (frames_seen store.now.texts frames.old) s
        ≡ step_seen store.now r (frames_seen store.now.texts frames.new) s) }
{
    let (first, second) = operands;
    let handler = either_handler(store, first, second, name);
    let step = by_handler(alloc, store, env, frames, handler, operands, line, failure)?;
    Ok(step)
}
