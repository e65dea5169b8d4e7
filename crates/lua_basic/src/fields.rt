//! Fields of tables, and metatables (manual 2.8). Only tables have metatables, and no handler is asked here.
ghost use Rattle.std.specs.Prelude.{◌≡◌, IfOk, OnOk};
ghost use Rattle.lua_meaning.specs.Metatables as meaning;
ghost use Rattle.lua_store.specs.Seen.{seen, text_at};
ghost use Rattle.lua_store.specs.Parts.{IsOf, IsTextOf, IsLater};
ghost use Rattle.lua_store.specs.declared.value.Value as own;

use lua_number::NoMemory;
use lua_store::{Store, TextId, Value};

/// The metatable of a value, or nil.
pub fn metatable(store: &Store, value: Value) -> Value
    requires { IsOf store.now value }
    ensures of { IsOf store.now result }
    ensures value { seen store.now.texts result
        ≡ meaning.metatable store.now.heap (seen store.now.texts value) }
{
    match value {
        Value::Table(table) => store.meta(table),
        Value::Nil => Value::Nil,
        Value::Bool(_) => Value::Nil,
        Value::Number(_) => Value::Nil,
        Value::Text(_) => Value::Nil,
        Value::Closure(_) => Value::Nil,
        Value::Builtin(_) => Value::Nil,
        Value::Markup(_) => Value::Nil,
    }
}

/// The field of a table at a text, or nil; of another value nil.
pub fn field_at(store: &Store, of: Value, name: TextId) -> Value
    requires of { IsOf store.now of }
    requires name { IsTextOf store.now name }
    ensures of { IsOf store.now result }
    ensures value { seen store.now.texts result
        ≡ meaning.field store.now.heap (seen store.now.texts of) (text_at store.now.texts name.at) }
{
    match of {
        Value::Table(table) => store.get(table, Value::Text(name)),
        Value::Nil => Value::Nil,
        Value::Bool(_) => Value::Nil,
        Value::Number(_) => Value::Nil,
        Value::Text(_) => Value::Nil,
        Value::Closure(_) => Value::Nil,
        Value::Builtin(_) => Value::Nil,
        Value::Markup(_) => Value::Nil,
    }
}

/// The same, where the text may be new to the store.
pub fn field(store: &mut Store, of: Value, name: &[u8]) -> Result<Value, NoMemory>
    requires { IsOf store.old of }
    ensures of { IfOk result (IsOf store.new) }
    ensures value { IfOk result (λ v.
        seen store.new.texts v ≡ meaning.field store.old.heap (seen store.old.texts of) name.now) }
    ensures heap { store.new.heap ≡ store.old.heap }
    ensures stays { (v : own.Value) → IsOf store.old v
        → IsOf store.new v × (seen store.new.texts v ≡ seen store.old.texts v) }
    ensures later { IsLater store.old store.new }
{
    let name = store.text(name)?;
    Ok(field_at(store, of, name))
}
