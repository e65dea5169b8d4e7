//! Values are read and put at places of a table.
ghost use Rattle.std.specs.Prelude.{◌≡◌, ◌≤◌, ◌+ℤ◌, ◌-ℤ◌, ◌<ℤ◌, ◌≤ℤ◌, ◌++◌, pos, false, length, OnOk, MatchOption};
ghost use Rattle.std.specs.Prelude.{◌∷◌, []};
ghost use Rattle.lua_basic.specs.LuaHeapHeap.{table_at, set_in};
ghost use Rattle.lua_basic.specs.LuaHeapTable.{get};
ghost use Rattle.lua_basic.specs.LuaHeapValue as kind;
ghost use Rattle.lua_basic.specs.LuaMeaningBasic.{set_charge, entries_from, count_between};
ghost use Rattle.lua_basic.specs.LuaStoreSeen.{seen};
ghost use Rattle.lua_basic.specs.LuaStoreParts.{IsOf, IsTableOf, IsLater};
ghost use Rattle.lua_basic.specs.Seen.{values_seen, AllOf};
ghost use Rattle.lua_basic.specs.LuaMeaningTableLibrary as meaning;

use lua_basic::values::is_nil;
use lua_basic::{List, Store, TableId, Value};
use lua_number::NoMemory;
use lua_table::SetFault;

/// The first item, and those behind it.
pub(crate) fn split<T: Copy>(items: &[T]) -> Option<(T, &[T])>
    ensures { MatchOption result (items.now ≡ []) (λ p. items.now ≡ p.0 ∷ p.1.now) }
{
    match items {
        [] => None,
        [item, more @ ..] => Some((*item, more)),
    }
}

/// How many places there are from one to a border.
pub(crate) fn count_to(place: i64, border: i64) -> u64
    requires { pos 1 ≤ℤ place }
    ensures count { result ≡ count_between place border }
    ensures within { (place +ℤ pos result) ≤ℤ pos 9223372036854775808 }
    ensures few { result ≤ 9223372036854775807 }
{
    if border < place {
        return 0;
    }
    border.abs_diff(place) + 1
}

/// The place so far behind the first one.
pub(crate) fn place_behind(first: i64, offset: u64) -> i64
    requires { (first +ℤ pos offset) <ℤ pos 9223372036854775808 }
    ensures { result ≡ first +ℤ pos offset }
{
    match first.checked_add_unsigned(offset) {
        Some(at) => at,
        None => unreachable!(),
    }
}

/// The value at that place.
pub(crate) fn value_behind(store: &Store, table: TableId, first: i64, offset: u64) -> Value
    requires table { IsTableOf store.now table }
    requires within { (first +ℤ pos offset) <ℤ pos 9223372036854775808 }
    ensures of { IsOf store.now result }
    ensures value { seen store.now.texts result ≡ get (table_at store.now.heap table.at).entries (kind.Number (first +ℤ pos offset)) }
{
    store.get(table, Value::Number(place_behind(first, offset)))
}

/// Reads the values at so many places, behind those that are there.
pub(crate) fn read_onto(
    values: &mut List<Value>,
    store: &Store,
    table: TableId,
    first: i64,
    count: u64,
) -> Result<(), NoMemory>
    requires table { IsTableOf store.now table }
    requires within { (first +ℤ pos count) ≤ℤ pos 9223372036854775808 }
    ensures values { OnOk result (values_seen store.now.texts values.new ≡ values_seen store.now.texts values.old ++ entries_from count first (table_at store.now.heap table.at).entries) }
    ensures of { OnOk result (AllOf store.now values.old → AllOf store.now values.new) }
{
    'numbers: for offset in 0..count {
        values.push(value_behind(store, table, first, offset))?;
    }
    Ok(())
}

/// What a value that is put at a place costs beside its step: 4 where it makes a new entry.
pub(crate) fn entry_charge(store: &Store, table: TableId, place: i64, value: Value) -> u64
    requires table { IsTableOf store.now table }
    requires value { IsOf store.now value }
    ensures charge { result ≡ set_charge (table_at store.now.heap table.at).entries (kind.Number place) (seen store.now.texts value) }
    ensures small { result ≤ 4 }
{
    if store.has(table, Value::Number(place)) || is_nil(value) {
        0
    } else {
        4
    }
}

/// Puts a value at a place of a table that can be written.
pub(crate) fn put_at(
    store: &mut Store,
    table: TableId,
    place: i64,
    value: Value,
) -> Result<(), NoMemory>
    requires table { IsTableOf store.old table }
    requires value { IsOf store.old value }
    requires writable { (table_at store.old.heap table.at).frozen ≡ false }
    ensures put { OnOk result (store.new ≡ record store.old { heap = set_in store.old.heap table.at (kind.Number place) (seen store.old.texts value) }) }
    ensures later { IsLater store.old store.new }
{
    match store.set(table, Value::Number(place), value) {
        Ok(_) => Ok(()),
        Err(SetFault::NoMemory) => Err(NoMemory),
        Err(SetFault::Frozen) => unreachable!(),
        Err(SetFault::NotAKey) => unreachable!(),
    }
}

/// Puts values at the places from the first one on.
pub(crate) fn put_from(
    store: &mut Store,
    table: TableId,
    first: i64,
    values: &[Value],
) -> Result<(), NoMemory>
    requires table { IsTableOf store.old table }
    requires values { AllOf store.old values.now }
    requires writable { (table_at store.old.heap table.at).frozen ≡ false }
    requires low { pos 1 ≤ℤ first }
    requires within { (first +ℤ pos (length values.now)) ≤ℤ pos 9223372036854775808 }
    ensures put { OnOk result (store.new ≡ record store.old { heap = meaning.put_from first (values_seen store.old.texts values.now) table.at store.old.heap }) }
    ensures later { IsLater store.old store.new }
{
    let mut rest = values;
    let mut offset = 0;
    'places: while let Some((value, more)) = split(rest) {
        put_at(store, table, place_behind(first, offset), value)?;
        rest = more;
        offset += 1;
    }
    Ok(())
}
