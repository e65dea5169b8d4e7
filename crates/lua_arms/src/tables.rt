//! Handlers of tables (manual 2.8).
ghost use Rattle.std.specs.Prelude.{◌≡◌};
ghost use Rattle.lua_code.specs.LuaMeaningMetatables as plain;
ghost use Rattle.lua_basic.specs.LuaStoreSeen.{seen, text_at};
ghost use Rattle.lua_basic.specs.LuaStoreParts.{IsOf, IsTextOf};

use lua_basic::{Store, TextId, Value};
use lua_stack::values::is_nil;

/// The field at a text of what stands as a metatable, or nil.
fn field(store: &Store, of: Value, name: TextId) -> Value
    requires of { IsOf store.now of }
    requires name { IsTextOf store.now name }
    ensures of { IsOf store.now result }
    ensures value { seen store.now.texts result ≡ plain.field store.now.heap (seen store.now.texts of) (text_at store.now.texts name.at) }
{
    match of {
        Value::Table(table) => store.get(table, Value::Text(name)),
        Value::Nil => Value::Nil,
        Value::Bool(_) => Value::Nil,
        Value::Number(_) => Value::Nil,
        Value::Text(_) => Value::Nil,
        Value::Closure(_) => Value::Nil,
        Value::Builtin(_) => Value::Nil,
        Value::Markup(_) => Value::Nil,
    }
}

/// The metatable of a value, or nil.
fn metatable(store: &Store, of: Value) -> Value
    requires { IsOf store.now of }
    ensures of { IsOf store.now result }
    ensures value { seen store.now.texts result ≡ plain.metatable store.now.heap (seen store.now.texts of) }
{
    match of {
        Value::Table(table) => store.meta(table),
        Value::Nil => Value::Nil,
        Value::Bool(_) => Value::Nil,
        Value::Number(_) => Value::Nil,
        Value::Text(_) => Value::Nil,
        Value::Closure(_) => Value::Nil,
        Value::Builtin(_) => Value::Nil,
        Value::Markup(_) => Value::Nil,
    }
}

/// The handler of a value for the event of this name, or nil.
pub fn handler(store: &Store, of: Value, name: TextId) -> Value
    requires of { IsOf store.now of }
    requires name { IsTextOf store.now name }
    ensures of { IsOf store.now result }
    ensures value { seen store.now.texts result ≡ plain.handler store.now.heap (seen store.now.texts of) (text_at store.now.texts name.at) }
{
    let meta = metatable(store, of);
    field(store, meta, name)
}

/// The first operand's handler, or else the second's.
pub fn either_handler(store: &Store, a: Value, b: Value, name: TextId) -> Value
    requires a { IsOf store.now a }
    requires b { IsOf store.now b }
    requires name { IsTextOf store.now name }
    ensures of { IsOf store.now result }
    ensures value { seen store.now.texts result ≡ plain.either_handler store.now.heap (seen store.now.texts a) (seen store.now.texts b) (text_at store.now.texts name.at) }
{
    let first = handler(store, a, name);
    if is_nil(first) {
        return handler(store, b, name);
    }
    first
}

/// The handler that both operands have, or nil where theirs are not the same.
pub fn common_handler(store: &Store, a: Value, b: Value, name: TextId) -> Value
    requires a { IsOf store.now a }
    requires b { IsOf store.now b }
    requires name { IsTextOf store.now name }
    ensures of { IsOf store.now result }
    ensures value { seen store.now.texts result ≡ plain.common_handler store.now.heap (seen store.now.texts a) (seen store.now.texts b) (text_at store.now.texts name.at) }
{
    let first = handler(store, a, name);
    let second = handler(store, b, name);
    if store.is_same(first, second) {
        return first;
    }
    Value::Nil
}
