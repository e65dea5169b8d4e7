//! `select` and `type` (manual 5.1).
ghost use Rattle.std.specs.Prelude.{◌≡◌, ◌≤◌, ℕ, List, length, drop, pos, IfSome};
ghost use Rattle.lua_meaning.specs.LuaHeapValue as kind;
ghost use Rattle.lua_meaning.specs.Basic as meaning;
ghost use Rattle.lua_store.specs.Seen.{StoreView, seen};
ghost use Rattle.lua_store.specs.Parts.{IsOf, IsLater};
ghost use Rattle.lua_basic.specs.Seen.{values_seen, AllOf, Free, AnswerOf};
ghost use Rattle.lua_basic.specs.Select as lem;

use crate::arguments::a_number;
use crate::messages::refuse;
use crate::stop::Stop;
use crate::values::{copy, first, kind_of, rest, single};
use lua_store::{List, Store, Value};
use std::alloc::Global;

/// `type(v)`: the name of its kind.
pub fn kind(alloc: Global, store: &mut Store, args: &[Value]) -> Result<List<Value>, Stop>
    requires { AllOf store.old args.now }
    ensures answer { Free (meaning.kind (values_seen store.old.texts args.now) store.old.heap)
        store.new result }
    ensures of { AnswerOf store.new result }
    ensures later { IsLater store.old store.new }
{
    let text = store.text(kind_of(first(args)))?;
    let values = single(alloc, Value::Text(text))?;
    Ok(values)
}

/// Whether a value is the text `#`, which asks for a count.
fn is_count(store: &Store, value: Value) -> bool
    requires { IsOf store.now value }
    ensures { result ≡ meaning.is_count (seen store.now.texts value) }
{
    match value {
        Value::Text(text) => store.bytes(text) == b"#".as_slice(),
        Value::Nil => false,
        Value::Bool(_) => false,
        Value::Number(_) => false,
        Value::Table(_) => false,
        Value::Closure(_) => false,
        Value::Builtin(_) => false,
        Value::Markup(_) => false,
    }
}

/// How many of so many values a place leaves out in front; a negative one counts from the end.
fn left_out(place: i64, count: usize) -> Option<usize>
    ensures place { result ≡ lem.left_out place count }
    ensures within { IfSome result (λ n. n ≤ count) }
{
    let distance = place.unsigned_abs();
    if place > 0 {
        let before = distance - 1;
        if before < count as u64 {
            return Some(before as usize);
        }
        return Some(count);
    }
    if distance == 0 || distance > count as u64 {
        return None;
    }
    Some(count - distance as usize)
}

/// The values behind so many.
fn behind(values: &[Value], n: usize) -> &[Value]
    requires { n ≤ length values.now }
    ensures { result.now ≡ drop n values.now }
{
    &values[n..]
}

/// How many values there are, as a value.
fn counted(values: &[Value]) -> Value
    ensures of { (s : StoreView) → IsOf s result }
    ensures value { (texts : List (List ℕ))
        → seen texts result ≡ kind.Number (pos (length values.now)) }
{
    Value::Number(values.len() as i64)
}

/// The values from a place on.
fn from_place(
    alloc: Global,
    store: &mut Store,
    place: i64,
    values: &[Value],
) -> Result<List<Value>, Stop>
    requires { AllOf store.old values.now }
    ensures answer { Free
        (meaning.from_place place (values_seen store.old.texts values.now) store.old.heap)
        store.new result }
    ensures of { AnswerOf store.new result }
    ensures later { IsLater store.old store.new }
{
    match left_out(place, values.len()) {
        Some(n) => {
            let chosen = copy(alloc, behind(values, n))?;
            Ok(chosen)
        }
        None => Err(refuse(alloc, store, 1, b"select", b"out of range")),
    }
}

/// `select(n, ...)`: the arguments from number n on, or their count for `#`.
pub fn select(alloc: Global, store: &mut Store, args: &[Value]) -> Result<List<Value>, Stop>
    requires { AllOf store.old args.now }
    ensures answer { Free (meaning.select (values_seen store.old.texts args.now) store.old.heap)
        store.new result }
    ensures of { AnswerOf store.new result }
    ensures later { IsLater store.old store.new }
{
    let others = rest(args);
    if is_count(store, first(args)) {
        let values = single(alloc, counted(others))?;
        return Ok(values);
    }
    let place = a_number(alloc, store, 1, b"select", args)?;
    from_place(alloc, store, place, others)
}
