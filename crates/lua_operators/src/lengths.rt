//! Lengths (manual 2.5.5).
ghost use Rattle.std.specs.Prelude.{◌≡◌, List};
ghost use Rattle.lua_arms.specs.LuaStoreSeen.{seen};
ghost use Rattle.lua_arms.specs.LuaStoreParts.{IsOf};
ghost use Rattle.lua_arms.specs.LuaSlotsSlots.{Slots};
ghost use Rattle.lua_arms.specs.LuaSlotsPoints.{SFrame};
ghost use Rattle.lua_code.specs.LuaSlotsOperators as machine;
ghost use Rattle.lua_arms.specs.Steps.{step_seen, StepOf};

use lua_arms::{Failure, Focus, Given, Step, Store, Value};

/// The length of a text or a table (manual 2.5.5).
pub fn length_of<'m>(store: &Store, value: Value, line: Option<u32>) -> Step<'m>
    requires { IsOf store.now value }
    ensures of { StepOf store.now result }
    ensures move_ { (fs : List SFrame) (s : Slots) → s.heap ≡ store.now.heap → machine.length_of (seen store.now.texts value) line fs s ≡ step_seen store.now result fs s }
{
    match value {
        Value::Text(text) => {
            let length = store.bytes(text).len() as i64;
            Step::On(Focus::Gives(Given::One(Value::Number(length))))
        }
        Value::Table(table) => {
            let length = store.border(table);
            Step::On(Focus::Gives(Given::One(Value::Number(length))))
        }
        Value::Nil => Step::Fails(line, Failure::NoLength(value)),
        Value::Bool(_) => Step::Fails(line, Failure::NoLength(value)),
        Value::Number(_) => Step::Fails(line, Failure::NoLength(value)),
        Value::Closure(_) => Step::Fails(line, Failure::NoLength(value)),
        Value::Builtin(_) => Step::Fails(line, Failure::NoLength(value)),
        Value::Markup(_) => Step::Fails(line, Failure::NoLength(value)),
    }
}
