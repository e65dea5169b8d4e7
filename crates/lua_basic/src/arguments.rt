//! The arguments of functions of the library (manual 5). `given` are the arguments from number n on.
ghost use Rattle.std.specs.Prelude.{◌≡◌, ℕ, List, Ok, IfOk, IfErr, IfSome, OnOk};
ghost use Rattle.lua_meaning.specs.Scope.{Bytes};
ghost use Rattle.lua_meaning.specs.Arguments as meaning;
ghost use Rattle.lua_meaning.specs.Basic as basic;
ghost use Rattle.lua_store.specs.Seen.{StoreView, seen};
ghost use Rattle.lua_store.specs.Parts.{IsOf, IsTableOf, IsLater};
ghost use Rattle.lua_basic.specs.Seen.{values_seen, AllOf, StopOf, Refuses};
ghost use Rattle.lua_basic.specs.Arguments.{found_table, text_bytes};

use crate::messages::refuse_kind;
use crate::stop::Stop;
use crate::texts::{TextIn, text_in};
use crate::values::{first, is_nil, number_in};
use lua_store::{Store, TableId, Value};
use std::alloc::Global;

/// The first of these arguments, where it is a table.
fn table_in(given: &[Value]) -> Option<TableId>
    ensures of { (s : StoreView) → AllOf s given.now → IfSome result (IsTableOf s) }
    ensures table { (texts : List (List ℕ)) (n : ℕ) (function : Bytes)
        → meaning.a_table n function (values_seen texts given.now)
        ≡ found_table n function (values_seen texts given.now) result }
{
    match given {
        [Value::Table(id), ..] => Some(*id),
        _ => None,
    }
}

/// An argument that must be a table.
pub fn a_table(
    alloc: Global,
    store: &mut Store,
    n: u8,
    function: &[u8],
    given: &[Value],
) -> Result<TableId, Stop>
    requires { AllOf store.old given.now }
    ensures found { IfOk result (λ id.
        meaning.a_table n function.now (values_seen store.old.texts given.now) ≡ Ok id.at) }
    ensures table { IfOk result (IsTableOf store.new) }
    ensures same { OnOk result (store.new ≡ store.old) }
    ensures refused { IfErr result (Refuses
        (meaning.a_table n function.now (values_seen store.old.texts given.now)) store.old
        store.new) }
    ensures of { IfErr result (StopOf store.new) }
    ensures later { IsLater store.old store.new }
{
    match table_in(given) {
        Some(table) => Ok(table),
        None => Err(refuse_kind(alloc, store, n, function, b"table", given)),
    }
}

/// An argument that must be a number, or a text that reads as one.
pub fn a_number(
    alloc: Global,
    store: &mut Store,
    n: u8,
    function: &[u8],
    given: &[Value],
) -> Result<i64, Stop>
    requires { AllOf store.old given.now }
    ensures found { IfOk result (λ z.
        meaning.a_number n function.now (values_seen store.old.texts given.now) ≡ Ok z) }
    ensures same { OnOk result (store.new ≡ store.old) }
    ensures refused { IfErr result (Refuses
        (meaning.a_number n function.now (values_seen store.old.texts given.now)) store.old
        store.new) }
    ensures of { IfErr result (StopOf store.new) }
    ensures later { IsLater store.old store.new }
{
    match number_in(store, first(given)) {
        Some(number) => Ok(number),
        None => Err(refuse_kind(alloc, store, n, function, b"number", given)),
    }
}

/// A number that may be left out, or be nil.
pub fn number_or(
    alloc: Global,
    store: &mut Store,
    default: i64,
    n: u8,
    function: &[u8],
    given: &[Value],
) -> Result<i64, Stop>
    requires { AllOf store.old given.now }
    ensures found { IfOk result (λ z.
        meaning.number_or default n function.now (values_seen store.old.texts given.now) ≡ Ok z) }
    ensures same { OnOk result (store.new ≡ store.old) }
    ensures refused { IfErr result (Refuses
        (meaning.number_or default n function.now (values_seen store.old.texts given.now)) store.old
        store.new) }
    ensures of { IfErr result (StopOf store.new) }
    ensures later { IsLater store.old store.new }
{
    if is_nil(first(given)) {
        return Ok(default);
    }
    a_number(alloc, store, n, function, given)
}

/// An argument that must be a text, or a number, which gives its digits.
pub fn a_text<'b>(
    alloc: Global,
    store: &mut Store<'b>,
    n: u8,
    function: &[u8],
    given: &[Value],
) -> Result<TextIn<'b>, Stop>
    requires { AllOf store.old given.now }
    ensures found { IfOk result (λ text.
        meaning.a_text n function.now (values_seen store.old.texts given.now)
        ≡ Ok (text_bytes text)) }
    ensures same { OnOk result (store.new ≡ store.old) }
    ensures refused { IfErr result (Refuses
        (meaning.a_text n function.now (values_seen store.old.texts given.now)) store.old
        store.new) }
    ensures of { IfErr result (StopOf store.new) }
    ensures later { IsLater store.old store.new }
{
    match text_in(alloc, store, first(given)) {
        Ok(Some(text)) => Ok(text),
        Ok(None) => Err(refuse_kind(alloc, store, n, function, b"string", given)),
        Err(_) => Err(Stop::NoMemory),
    }
}
