//! Tables without handlers (manual 5.1).
ghost use Rattle.std.specs.Prelude.{◌≡◌};
ghost use Rattle.lua_store.specs.LuaHeapHeap.{table_at};
ghost use Rattle.lua_meaning.specs.Basic as meaning;
ghost use Rattle.lua_store.specs.Seen.{seen};
ghost use Rattle.lua_store.specs.Parts.{IsOf, IsTableOf, IsLater};
ghost use Rattle.lua_basic.specs.Seen.{values_seen, AllOf, Free, Paid, AnswerOf};

use crate::arguments::a_table;
use crate::charges::ENTRY_CHARGE;
use crate::messages::fail;
use crate::stop::{Stop, pay};
use crate::values::{first, is_nil, second, single, third};
use lua_number::Left;
use lua_store::{List, Store, TableId, Value};
use std::alloc::Global;

/// `rawequal(a, b)`: whether they are the same value.
pub fn raw_equal(alloc: Global, store: &mut Store, args: &[Value]) -> Result<List<Value>, Stop>
    requires { AllOf store.old args.now }
    ensures answer { Free (meaning.raw_equal (values_seen store.old.texts args.now) store.old.heap)
        store.new result }
    ensures of { AnswerOf store.new result }
    ensures later { IsLater store.old store.new }
{
    let same = store.is_same(first(args), second(args));
    let values = single(alloc, Value::Bool(same))?;
    Ok(values)
}

/// `rawget(t, k)`.
pub fn raw_get(alloc: Global, store: &mut Store, args: &[Value]) -> Result<List<Value>, Stop>
    requires { AllOf store.old args.now }
    ensures answer { Free (meaning.raw_get (values_seen store.old.texts args.now) store.old.heap)
        store.new result }
    ensures of { AnswerOf store.new result }
    ensures later { IsLater store.old store.new }
{
    let table = a_table(alloc, store, 1, b"rawget", args)?;
    let value = store.get(table, second(args));
    let values = single(alloc, value)?;
    Ok(values)
}

/// What a key costs that is set: a new entry has its charge.
fn set_charge(store: &Store, table: TableId, key: Value, value: Value) -> u64
    requires table { IsTableOf store.now table }
    requires key { IsOf store.now key }
    ensures { result
        ≡ meaning.set_charge (table_at store.now.heap table.at).entries (seen store.now.texts key)
        (seen store.now.texts value) }
{
    if store.has(table, key) || is_nil(value) {
        0
    } else {
        ENTRY_CHARGE
    }
}

/// Sets a key of a table, where that is allowed.
fn with_entry(
    alloc: Global,
    store: &mut Store,
    left: &mut Left,
    table: TableId,
    key: Value,
    value: Value,
) -> Result<List<Value>, Stop>
    requires table { IsTableOf store.old table }
    requires key { IsOf store.old key }
    requires value { IsOf store.old value }
    ensures answer { Paid
        (meaning.with_entry table.at (seen store.old.texts key) (seen store.old.texts value)
        store.old.heap)
        store.old left.old store.new left.new result }
    ensures of { AnswerOf store.new result }
    ensures later { IsLater store.old store.new }
{
    if store.is_frozen(table) {
        return Err(fail(store, b"table from mw.loadData is read-only"));
    }
    if is_nil(key) {
        return Err(fail(store, b"table index is nil"));
    }
    pay(left, set_charge(store, table, key, value))?;
    match store.set(table, key, value) {
        Ok(_) => {}
        Err(_) => return Err(Stop::NoMemory),
    }
    let values = single(alloc, Value::Table(table))?;
    Ok(values)
}

/// `rawset(t, k, v)` gives t. A new entry costs 4 steps.
pub fn raw_set(
    alloc: Global,
    store: &mut Store,
    left: &mut Left,
    args: &[Value],
) -> Result<List<Value>, Stop>
    requires { AllOf store.old args.now }
    ensures answer { Paid (meaning.raw_set (values_seen store.old.texts args.now) store.old.heap)
        store.old left.old store.new left.new result }
    ensures of { AnswerOf store.new result }
    ensures later { IsLater store.old store.new }
{
    let table = a_table(alloc, store, 1, b"rawset", args)?;
    with_entry(alloc, store, left, table, second(args), third(args))
}
