//! Indexing, up to the next link of a chain of handlers (manual 2.3, and 2.8 under "index").
ghost use Rattle.std.specs.Prelude.{◌≡◌, ◌∷◌, [], List, IfOk};
ghost use Rattle.lua_basic.specs.LuaStoreSeen.{seen};
ghost use Rattle.lua_basic.specs.LuaStoreParts.{IsOf, IsTableOf};
ghost use Rattle.lua_stack.specs.LuaSlotsSlots.{Slots};
ghost use Rattle.lua_stack.specs.LuaSlotsPoints.{SFrame};
ghost use Rattle.lua_code.specs.LuaSlotsIndex as machine;
ghost use Rattle.lua_stack.specs.Of.{EnvironmentOf};
ghost use Rattle.lua_arms.specs.Steps.{step_seen, StepOf};

use crate::calls::call;
use crate::step::{Failure, Step};
use crate::tables::handler;
use lua_basic::objects::object_field;
use lua_basic::{Store, TableId, Value};
use lua_code::NoMemory;
use lua_stack::values::{is_function, is_nil};
use lua_stack::{Environment, Focus, Given, Thing, Values};
use std::alloc::Global;

/// The value of a table at a key, or the first link of a chain that leads to it.
pub fn index_table<'m>(
    store: &Store,
    env: &Environment,
    table: TableId,
    key: Value,
    line: Option<u32>,
) -> Step<'m>
    requires table { IsTableOf store.now table }
    requires key { IsOf store.now key }
    requires env { EnvironmentOf store.now env.now }
    ensures of { StepOf store.now result }
    ensures move_ { (fs : List SFrame) (s : Slots) → s.heap ≡ store.now.heap → machine.index_table table.at (seen store.now.texts key) line fs s ≡ step_seen store.now result fs s }
{
    let value = store.get(table, key);
    if !is_nil(value) {
        return Step::On(Focus::Gives(Given::One(value)));
    }
    let object = Value::Table(table);
    let handler = handler(store, object, env.index);
    if is_nil(handler) {
        return Step::On(Focus::Gives(Given::One(Value::Nil)));
    }
    Step::On(Focus::Starts(Thing::IndexLink(object, handler, key, line)))
}

/// The value of anything at a key, the first link of a chain that leads to it, or what fails.
pub fn index<'m>(
    store: &Store,
    env: &Environment,
    of: Value,
    key: Value,
    line: Option<u32>,
) -> Step<'m>
    requires of { IsOf store.now of }
    requires key { IsOf store.now key }
    requires env { EnvironmentOf store.now env.now }
    ensures of { StepOf store.now result }
    ensures move_ { (fs : List SFrame) (s : Slots) → s.heap ≡ store.now.heap → s.strings ≡ env.now.strings.at
        → machine.index (seen store.now.texts of) (seen store.now.texts key) line fs s ≡ step_seen store.now result fs s }
{
    match of {
        Value::Table(table) => index_table(store, env, table, key, line),
        Value::Text(_) => index_table(store, env, env.strings, key, line),
        Value::Markup(_) => Step::On(Focus::Gives(Given::One(object_field(store, key)))),
        Value::Nil => Step::Fails(line, Failure::CannotIndex(of)),
        Value::Bool(_) => Step::Fails(line, Failure::CannotIndex(of)),
        Value::Number(_) => Step::Fails(line, Failure::CannotIndex(of)),
        Value::Closure(_) => Step::Fails(line, Failure::CannotIndex(of)),
        Value::Builtin(_) => Step::Fails(line, Failure::CannotIndex(of)),
    }
}

/// Two values as a list.
pub fn two(alloc: Global, first: Value, second: Value) -> Result<Values, NoMemory>
    ensures { IfOk result (λ values. values ≡ first ∷ second ∷ []) }
{
    let mut values = Values::new(alloc);
    values.add(first)?;
    values.add(second)?;
    Ok(values)
}

/// A link of a chain: a handler that is a function is called, and another one is indexed.
pub fn index_link<'m>(
    alloc: Global,
    store: &Store,
    env: &Environment,
    object: Value,
    handler: Value,
    key: Value,
    line: Option<u32>,
) -> Result<Step<'m>, NoMemory>
    requires object { IsOf store.now object }
    requires handler { IsOf store.now handler }
    requires key { IsOf store.now key }
    requires env { EnvironmentOf store.now env.now }
    ensures of { IfOk result (λ r. StepOf store.now r) }
    ensures move_ { IfOk result (λ r. (fs : List SFrame) (s : Slots) → s.heap ≡ store.now.heap → s.strings ≡ env.now.strings.at
        → machine.index_link (seen store.now.texts object) (seen store.now.texts handler) (seen store.now.texts key) line fs s ≡ step_seen store.now r fs s) }
{
    if is_function(handler) {
        let arguments = two(alloc, object, key)?;
        let step = call(store, env, handler, arguments, line)?;
        return Ok(step);
    }
    Ok(index(store, env, handler, key, line))
}
