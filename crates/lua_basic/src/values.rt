//! Values, and lists of values (manual 2.2, 2.2.1, 2.4.3 and 2.5).
ghost use Rattle.std.specs.Prelude.{◌≡◌, ℕ, List, [], ◌∷◌, IfOk};
ghost use Rattle.lua_meaning.specs.LuaHeapValue as kind;
ghost use Rattle.lua_meaning.specs.Values as meaning;
ghost use Rattle.lua_store.specs.Seen.{StoreView, seen};
ghost use Rattle.lua_store.specs.Parts.{IsOf};
ghost use Rattle.lua_basic.specs.Seen.{values_seen, AllOf};

use lua_number::{NoMemory, read_number};
use lua_store::{List, Store, Value};
use std::alloc::Global;

/// Whether a value is nil.
pub fn is_nil(value: Value) -> bool
    ensures { (texts : List (List ℕ)) → result ≡ kind.is_nil (seen texts value) }
{
    match value {
        Value::Nil => true,
        Value::Bool(_) => false,
        Value::Number(_) => false,
        Value::Text(_) => false,
        Value::Table(_) => false,
        Value::Closure(_) => false,
        Value::Builtin(_) => false,
        Value::Markup(_) => false,
    }
}

/// Whether a value counts as true (manual 2.4.4).
pub fn is_true(value: Value) -> bool
    ensures { (texts : List (List ℕ)) → result ≡ kind.is_true (seen texts value) }
{
    match value {
        Value::Nil => false,
        Value::Bool(b) => b,
        Value::Number(_) => true,
        Value::Text(_) => true,
        Value::Table(_) => true,
        Value::Closure(_) => true,
        Value::Builtin(_) => true,
        Value::Markup(_) => true,
    }
}

/// The name of a value's kind, as `type` gives it (manual 5.1).
pub fn kind_of(value: Value) -> &'static [u8]
    ensures { (texts : List (List ℕ)) → result.now ≡ meaning.kind_of (seen texts value) }
{
    match value {
        Value::Nil => b"nil",
        Value::Bool(_) => b"boolean",
        Value::Number(_) => b"number",
        Value::Text(_) => b"string",
        Value::Table(_) => b"table",
        Value::Closure(_) => b"function",
        Value::Builtin(_) => b"function",
        Value::Markup(_) => b"table",
    }
}

/// The first of a list, or nil.
pub fn first(values: &[Value]) -> Value
    ensures of { (s : StoreView) → AllOf s values.now → IsOf s result }
    ensures value { (texts : List (List ℕ))
        → seen texts result ≡ meaning.first (values_seen texts values.now) }
{
    match values {
        [first, ..] => *first,
        [] => Value::Nil,
    }
}

/// The values behind the first one.
pub fn rest(values: &[Value]) -> &[Value]
    ensures of { (s : StoreView) → AllOf s values.now → AllOf s result.now }
    ensures values { (texts : List (List ℕ))
        → values_seen texts result.now ≡ meaning.rest (values_seen texts values.now) }
{
    match values {
        [_, rest @ ..] => rest,
        [] => values,
    }
}

/// The second of a list, or nil.
pub fn second(values: &[Value]) -> Value
    ensures of { (s : StoreView) → AllOf s values.now → IsOf s result }
    ensures value { (texts : List (List ℕ))
        → seen texts result ≡ meaning.second (values_seen texts values.now) }
{
    first(rest(values))
}

/// The third of a list, or nil.
pub fn third(values: &[Value]) -> Value
    ensures of { (s : StoreView) → AllOf s values.now → IsOf s result }
    ensures value { (texts : List (List ℕ))
        → seen texts result ≡ meaning.third (values_seen texts values.now) }
{
    second(rest(values))
}

/// The number that a value is, or that its text reads as (manual 2.2.1).
pub fn number_in(store: &Store, value: Value) -> Option<i64>
    requires { IsOf store.now value }
    ensures { result ≡ meaning.number_in (seen store.now.texts value) }
{
    match value {
        Value::Number(n) => Some(n),
        Value::Text(text) => read_number(store.bytes(text)),
        Value::Nil => None,
        Value::Bool(_) => None,
        Value::Table(_) => None,
        Value::Closure(_) => None,
        Value::Builtin(_) => None,
        Value::Markup(_) => None,
    }
}

/// A list with a single value.
pub fn single(alloc: Global, value: Value) -> Result<List<Value>, NoMemory>
    ensures { IfOk result (λ values. values ≡ value ∷ []) }
{
    let mut values = List::new(alloc);
    values.push(value)?;
    Ok(values)
}

/// A list with two values.
pub fn pair(alloc: Global, a: Value, b: Value) -> Result<List<Value>, NoMemory>
    ensures { IfOk result (λ values. values ≡ a ∷ b ∷ []) }
{
    let mut values = List::new(alloc);
    values.push(a)?;
    values.push(b)?;
    Ok(values)
}

/// A list with these values.
pub fn copy(alloc: Global, values: &[Value]) -> Result<List<Value>, NoMemory>
    ensures { IfOk result (λ copy. copy ≡ values.now) }
{
    match values.to_vec(alloc) {
        Ok(copy) => Ok(List::of_vec(copy)),
        Err(_) => Err(NoMemory),
    }
}
