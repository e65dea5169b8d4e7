//! What is called begins as a thing (manual 2.5.8, and 2.8 under "call").
ghost use Rattle.std.specs.Prelude.{◌≡◌, List, IfOk};
ghost use Rattle.lua_code.specs.LuaHeapHeap.{closure_at};
ghost use Rattle.lua_code.specs.LuaHeapValue as kind;
ghost use Rattle.lua_basic.specs.LuaStoreSeen.{seen};
ghost use Rattle.lua_basic.specs.LuaStoreParts.{IsOf, IsTableOf, IsClosureOf};
ghost use Rattle.lua_stack.specs.LuaSlotsSlots.{Slots};
ghost use Rattle.lua_stack.specs.LuaSlotsPoints.{SFrame};
ghost use Rattle.lua_code.specs.LuaSlotsCalls as machine;
ghost use Rattle.lua_stack.specs.Seen.{values_seen};
ghost use Rattle.lua_stack.specs.Of.{ValuesOf, EnvironmentOf};
ghost use Rattle.lua_arms.specs.Steps.{step_seen, StepOf};

use crate::step::{Failure, Step};
use crate::tables::handler;
use lua_basic::{ClosureKind, Store, TableId, Value};
use lua_code::NoMemory;
use lua_stack::values::is_nil;
use lua_stack::{Callee, ClosureId, Environment, Focus, Thing, Values};

/// A closure is called: a function of Lua, or an iterator, which is the first of its arguments.
fn enter<'m>(
    store: &Store,
    id: ClosureId,
    arguments: Values,
    line: Option<u32>,
) -> Result<Step<'m>, NoMemory>
    requires closure { IsClosureOf store.now id }
    requires arguments { ValuesOf store.now arguments }
    ensures of { IfOk result (λ r. StepOf store.now r) }
    ensures move_ { IfOk result (λ r. (fs : List SFrame) (s : Slots)
        → machine.enter (kind.Closure id.at) (closure_at store.now.heap id.at) (values_seen store.now.texts arguments) line fs s ≡ step_seen store.now r fs s) }
{
    let mut arguments = arguments;
    match store.closure(id).kind {
        ClosureKind::Function(proto) => {
            let callee = Callee {
                source: proto.title,
                index: proto.index,
                closure: Some(id),
            };
            Ok(Step::On(Focus::Starts(Thing::Body(callee, arguments, line))))
        }
        ClosureKind::Iterator(step) => {
            arguments.put(Value::Closure(id))?;
            Ok(Step::On(Focus::Starts(Thing::Library(step, arguments, line))))
        }
    }
}

/// A table is called: its handler gets it in front of the arguments.
fn call_table<'m>(
    store: &Store,
    env: &Environment,
    table: TableId,
    arguments: Values,
    line: Option<u32>,
) -> Result<Step<'m>, NoMemory>
    requires table { IsTableOf store.now table }
    requires arguments { ValuesOf store.now arguments }
    requires env { EnvironmentOf store.now env.now }
    ensures of { IfOk result (λ r. StepOf store.now r) }
    ensures move_ { IfOk result (λ r. (fs : List SFrame) (s : Slots) → s.heap ≡ store.now.heap
        → machine.call (kind.Table table.at) (values_seen store.now.texts arguments) line fs s ≡ step_seen store.now r fs s) }
{
    let called = Value::Table(table);
    let handler = handler(store, called, env.call);
    if is_nil(handler) {
        return Ok(Step::Fails(line, Failure::CannotCall(called)));
    }
    let mut arguments = arguments;
    arguments.put(called)?;
    Ok(Step::On(Focus::Starts(Thing::CallLink(handler, arguments, line))))
}

/// A value is called.
pub fn call<'m>(
    store: &Store,
    env: &Environment,
    called: Value,
    arguments: Values,
    line: Option<u32>,
) -> Result<Step<'m>, NoMemory>
    requires called { IsOf store.now called }
    requires arguments { ValuesOf store.now arguments }
    requires env { EnvironmentOf store.now env.now }
    ensures of { IfOk result (λ r. StepOf store.now r) }
    ensures move_ { IfOk result (λ r. (fs : List SFrame) (s : Slots) → s.heap ≡ store.now.heap
        → machine.call (seen store.now.texts called) (values_seen store.now.texts arguments) line fs s ≡ step_seen store.now r fs s) }
{
    match called {
        Value::Closure(id) => {
            let step = enter(store, id, arguments, line)?;
            Ok(step)
        }
        Value::Table(table) => {
            let step = call_table(store, env, table, arguments, line)?;
            Ok(step)
        }
        Value::Builtin(which) => Ok(Step::On(Focus::Starts(Thing::Library(
            which, arguments, line,
        )))),
        Value::Nil => Ok(Step::Fails(line, Failure::CannotCall(called))),
        Value::Bool(_) => Ok(Step::Fails(line, Failure::CannotCall(called))),
        Value::Number(_) => Ok(Step::Fails(line, Failure::CannotCall(called))),
        Value::Text(_) => Ok(Step::Fails(line, Failure::CannotCall(called))),
        Value::Markup(_) => Ok(Step::Fails(line, Failure::CannotCall(called))),
    }
}
