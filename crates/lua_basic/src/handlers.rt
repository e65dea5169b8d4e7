//! Metatables as modules see and set them (manual 5.1).
ghost use Rattle.std.specs.Prelude.{◌≡◌, ℕ, List, Ok, IfOk, IfErr, IfSome, OnOk};
ghost use Rattle.lua_meaning.specs.Basic as meaning;
ghost use Rattle.lua_store.specs.Seen.{StoreView, seen};
ghost use Rattle.lua_store.specs.Parts.{IsOf, IsTableOf, IsLater};
ghost use Rattle.lua_basic.specs.Seen.{values_seen, AllOf, StopOf, Refuses, Free, AnswerOf};
ghost use Rattle.lua_basic.specs.Arguments.{found_meta};

use crate::arguments::a_table;
use crate::fields::{field, metatable};
use crate::messages::{fail, refuse_kind};
use crate::stop::Stop;
use crate::values::{first, is_nil, rest, single};
use lua_store::{List, Store, TableId, Value};
use std::alloc::Global;

/// `getmetatable(v)`: the field `__metatable` of the metatable, if that is there, else the metatable or nil.
pub fn get_metatable(alloc: Global, store: &mut Store, args: &[Value]) -> Result<List<Value>, Stop>
    requires { AllOf store.old args.now }
    ensures answer { Free
        (meaning.get_metatable (values_seen store.old.texts args.now) store.old.heap)
        store.new result }
    ensures of { AnswerOf store.new result }
    ensures later { IsLater store.old store.new }
{
    let meta = metatable(store, first(args));
    let protected = field(store, meta, b"__metatable")?;
    if is_nil(protected) {
        let values = single(alloc, meta)?;
        return Ok(values);
    }
    let values = single(alloc, protected)?;
    Ok(values)
}

/// The first of these arguments, where it can be a metatable: a table, nil, or nothing.
fn meta_in(given: &[Value]) -> Option<Value>
    ensures of { (s : StoreView) → AllOf s given.now → IfSome result (IsOf s) }
    ensures meta { (texts : List (List ℕ))
        → meaning.a_metatable (values_seen texts given.now) ≡ found_meta texts given.now result }
{
    match given {
        [] => Some(Value::Nil),
        [Value::Nil, ..] => Some(Value::Nil),
        [Value::Table(table), ..] => Some(Value::Table(*table)),
        _ => None,
    }
}

/// The argument that is to be a metatable.
fn a_metatable(alloc: Global, store: &mut Store, given: &[Value]) -> Result<Value, Stop>
    requires { AllOf store.old given.now }
    ensures found { IfOk result (λ v.
        meaning.a_metatable (values_seen store.old.texts given.now) ≡ Ok (seen store.old.texts v)) }
    ensures value { IfOk result (IsOf store.new) }
    ensures same { OnOk result (store.new ≡ store.old) }
    ensures refused { IfErr result (Refuses
        (meaning.a_metatable (values_seen store.old.texts given.now)) store.old store.new) }
    ensures of { IfErr result (StopOf store.new) }
    ensures later { IsLater store.old store.new }
{
    match meta_in(given) {
        Some(meta) => Ok(meta),
        None => Err(refuse_kind(alloc, store, 2, b"setmetatable", b"table", given)),
    }
}

/// Gives a table a metatable, or none by nil, where that is allowed.
fn with_metatable(
    alloc: Global,
    store: &mut Store,
    table: TableId,
    meta: Value,
) -> Result<List<Value>, Stop>
    requires table { IsTableOf store.old table }
    requires meta { IsOf store.old meta }
    ensures answer { Free
        (meaning.with_metatable table.at (seen store.old.texts meta) store.old.heap)
        store.new result }
    ensures of { AnswerOf store.new result }
    ensures later { IsLater store.old store.new }
{
    if store.is_frozen(table) {
        return Err(fail(store, b"table from mw.loadData is read-only"));
    }
    let old = store.meta(table);
    let protected = field(store, old, b"__metatable")?;
    if !is_nil(protected) {
        return Err(fail(store, b"cannot change a protected metatable"));
    }
    store.set_meta(table, meta);
    let values = single(alloc, Value::Table(table))?;
    Ok(values)
}

/// `setmetatable(t, m)` gives t, whose metatable is then m.
pub fn set_metatable(alloc: Global, store: &mut Store, args: &[Value]) -> Result<List<Value>, Stop>
    requires { AllOf store.old args.now }
    ensures answer { Free
        (meaning.set_metatable (values_seen store.old.texts args.now) store.old.heap)
        store.new result }
    ensures of { AnswerOf store.new result }
    ensures later { IsLater store.old store.new }
{
    let table = a_table(alloc, store, 1, b"setmetatable", args)?;
    let meta = a_metatable(alloc, store, rest(args))?;
    with_metatable(alloc, store, table, meta)
}
