//! Arithmetic (manual 2.5.1).
ghost use Rattle.std.specs.Prelude.{◌≡◌, List, IfOk};
ghost use Rattle.lua_code.specs.Seen.{arithmetic_seen};
ghost use Rattle.lua_code.specs.LuaMeaningValues as values_of;
ghost use Rattle.lua_code.specs.LuaMeaningOperators as plain;
ghost use Rattle.lua_arms.specs.LuaStoreSeen.{StoreView, seen, text_at};
ghost use Rattle.lua_arms.specs.LuaStoreParts.{IsOf, IsTextOf};
ghost use Rattle.lua_arms.specs.LuaSlotsSlots.{Slots};
ghost use Rattle.lua_arms.specs.LuaSlotsPoints.{SFrame};
ghost use Rattle.lua_code.specs.LuaSlotsOperators as machine;
ghost use Rattle.lua_arms.specs.LuaStackSeen.{frames_seen};
ghost use Rattle.lua_arms.specs.LuaStackOf.{FramesOf, EnvironmentOf};
ghost use Rattle.lua_arms.specs.Steps.{step_seen, StepOf};

use crate::handlers::by_either;
use lua_arms::numbers::number_in;
use lua_arms::{Environment, Failure, Focus, Frames, Given, Step, Store, TextId, Value};
use lua_code::{Arithmetic, NoMemory};
use lua_number::{NumberFault, neg};
use std::alloc::Global;

/// A number, or why there is none.
fn number_or_fail<'m>(line: Option<u32>, number: Result<i64, NumberFault>) -> Step<'m>
    ensures of { (store : StoreView) → StepOf store result }
    ensures move_ { (store : StoreView) (fs : List SFrame) (s : Slots) → machine.number_or_fail line number fs s ≡ step_seen store result fs s }
{
    match number {
        Ok(n) => Step::On(Focus::Gives(Given::One(Value::Number(n)))),
        Err(fault) => Step::Fails(line, Failure::Number(fault)),
    }
}

/// The name of the handler for an operator of arithmetic.
fn event(env: &Environment, op: Arithmetic) -> TextId
    ensures { (s : StoreView) → EnvironmentOf s env.now → IsTextOf s result × (text_at s.texts result.at ≡ plain.event (arithmetic_seen op)) }
{
    match op {
        Arithmetic::Plus => env.add,
        Arithmetic::Minus => env.subtract,
        Arithmetic::Times => env.multiply,
        Arithmetic::Divide => env.divide,
        Arithmetic::Modulo => env.modulo,
        Arithmetic::Power => env.power,
    }
}

/// What an operator of arithmetic gives for two numbers.
fn result_of(op: Arithmetic, a: i64, b: i64) -> Result<i64, NumberFault>
    ensures { result ≡ plain.result_of (arithmetic_seen op) a b }
{
    match op {
        Arithmetic::Plus => lua_number::add(a, b),
        Arithmetic::Minus => lua_number::sub(a, b),
        Arithmetic::Times => lua_number::mul(a, b),
        Arithmetic::Divide => lua_number::div(a, b),
        Arithmetic::Modulo => lua_number::rem(a, b),
        Arithmetic::Power => lua_number::pow(a, b),
    }
}

/// An operator of arithmetic on two values (manual 2.5.1).
pub fn calculate<'m>(
    alloc: Global,
    store: &Store,
    env: &Environment,
    frames: &mut Frames<'m>,
    op: Arithmetic,
    operands: (Value, Value),
    line: Option<u32>,
) -> Result<Step<'m>, NoMemory>
    requires first { IsOf store.now operands.0 }
    requires second { IsOf store.now operands.1 }
    requires env { EnvironmentOf store.now env.now }
    requires frames { FramesOf store.now frames.old }
    ensures of { IfOk result (λ r. StepOf store.now r × FramesOf store.now frames.new) }
    ensures move_ { IfOk result (λ r. (s : Slots) → s.heap ≡ store.now.heap
        → machine.calculate (arithmetic_seen op) (seen store.now.texts operands.0) (seen store.now.texts operands.1) (values_of.number_in (seen store.now.texts operands.0)) (values_of.number_in (seen store.now.texts operands.1)) line (frames_seen store.now.texts frames.old) s
        ≡ step_seen store.now r (frames_seen store.now.texts frames.new) s) }
{
    let (first, second) = operands;
    let name = event(env, op);
    match number_in(store, first) {
        None => {
            let failure = Failure::CannotCalculate(first);
            let step = by_either(alloc, store, env, frames, name, operands, line, failure)?;
            Ok(step)
        }
        Some(a) => match number_in(store, second) {
            None => {
                let failure = Failure::CannotCalculate(second);
                let step = by_either(alloc, store, env, frames, name, operands, line, failure)?;
                Ok(step)
            }
            Some(b) => Ok(number_or_fail(line, result_of(op, a, b))),
        },
    }
}

/// The negative of a value (manual 2.5.1).
pub fn negate<'m>(
    alloc: Global,
    store: &Store,
    env: &Environment,
    frames: &mut Frames<'m>,
    value: Value,
    line: Option<u32>,
) -> Result<Step<'m>, NoMemory>
    requires value { IsOf store.now value }
    requires env { EnvironmentOf store.now env.now }
    requires frames { FramesOf store.now frames.old }
    ensures of { IfOk result (λ r. StepOf store.now r × FramesOf store.now frames.new) }
    ensures move_ { IfOk result (λ r. (s : Slots) → s.heap ≡ store.now.heap
        → machine.negate (seen store.now.texts value) (values_of.number_in (seen store.now.texts value)) line (frames_seen store.now.texts frames.old) s
        ≡ step_seen store.now r (frames_seen store.now.texts frames.new) s) }
{
    match number_in(store, value) {
        None => {
            let failure = Failure::CannotCalculate(value);
            let operands = (value, value);
            let step = by_either(
                alloc, store, env, frames, env.negate, operands, line, failure,
            )?;
            Ok(step)
        }
        Some(n) => Ok(number_or_fail(line, neg(n))),
    }
}
