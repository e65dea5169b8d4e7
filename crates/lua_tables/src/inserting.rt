//! `insert` (manual 5.5).
ghost use Rattle.std.specs.Prelude.{◌≡◌, ◌+◌, ◌+ℤ◌, ◌<ℤ◌, ◌≤ℤ◌, ◌∷◌, pos, false, OnOk};
ghost use Rattle.lua_basic.specs.LuaHeapHeap.{table_at};
ghost use Rattle.lua_basic.specs.LuaHeapTable as entries;
ghost use Rattle.lua_basic.specs.LuaMeaningBasic.{count_between, entries_from};
ghost use Rattle.lua_basic.specs.LuaStoreSeen.{seen};
ghost use Rattle.lua_basic.specs.LuaStoreParts.{IsOf, IsTableOf, IsLater};
ghost use Rattle.lua_basic.specs.Seen.{values_seen, AllOf, Paid, AnswerOf};
ghost use Rattle.lua_basic.specs.LuaMeaningTableLibrary as meaning;
ghost use Rattle.lua_tables.specs.Moves.{last_put};

use crate::paying::take_both;
use crate::places::{
    count_to, entry_charge, place_behind, put_at, put_from, read_onto, value_behind,
};
use lua_basic::arguments::{a_number, a_table};
use lua_basic::messages::{fail, refuse};
use lua_basic::values::{rest, second, single, third};
use lua_basic::{Left, List, Stop, Store, TableId, Value};
use lua_number::NoMemory;
use std::alloc::Global;

/// The value that is put last: what stood at the border, or where nothing moves the inserted value itself.
fn last_of(store: &Store, table: TableId, place: i64, moved: u64, value: Value) -> Value
    requires table { IsTableOf store.now table }
    requires value { IsOf store.now value }
    requires within { (place +ℤ pos moved) <ℤ pos 9223372036854775808 }
    ensures of { IsOf store.now result }
    ensures value { seen store.now.texts result ≡ last_put moved place (seen store.now.texts value) (table_at store.now.heap table.at).entries }
{
    if moved == 0 {
        return value;
    }
    value_behind(store, table, place, moved - 1)
}

/// Puts a value at a place, and so many that stood from there on one place further.
fn put_inserted(
    alloc: Global,
    store: &mut Store,
    table: TableId,
    place: i64,
    moved: u64,
    value: Value,
) -> Result<(), NoMemory>
    requires table { IsTableOf store.old table }
    requires value { IsOf store.old value }
    requires writable { (table_at store.old.heap table.at).frozen ≡ false }
    requires low { pos 1 ≤ℤ place }
    requires within { (place +ℤ pos moved) <ℤ pos 9223372036854775808 }
    ensures put { OnOk result (store.new ≡ record store.old { heap = meaning.put_from place (seen store.old.texts value ∷ entries_from moved place (table_at store.old.heap table.at).entries) table.at store.old.heap }) }
    ensures later { IsLater store.old store.new }
{
    if moved == 0 {
        return put_at(store, table, place, value);
    }
    let mut values = single(alloc, value)?;
    read_onto(&mut values, store, table, place, moved)?;
    put_from(store, table, place, values.as_slice())
}

/// Puts a value at a place of a table that can be written, and so many that stood from there to the border one place further.
fn insert_fitting(
    alloc: Global,
    store: &mut Store,
    left: &mut Left,
    table: TableId,
    place: i64,
    moved: u64,
    value: Value,
) -> Result<List<Value>, Stop>
    requires table { IsTableOf store.old table }
    requires value { IsOf store.old value }
    requires writable { (table_at store.old.heap table.at).frozen ≡ false }
    requires low { pos 1 ≤ℤ place }
    requires within { (place +ℤ pos moved) <ℤ pos 9223372036854775808 }
    requires moved { moved ≡ count_between place (pos (entries.border (table_at store.old.heap table.at).entries)) }
    ensures answer { Paid (meaning.insert_fitting table.at place moved (seen store.old.texts value) store.old.heap) store.old left.old store.new left.new result }
    ensures of { AnswerOf store.new result }
    ensures later { IsLater store.old store.new }
{
    let top = place_behind(place, moved);
    let last = last_of(store, table, place, moved, value);
    let charge = entry_charge(store, table, top, last);
    take_both(left, moved, moved + 1 + charge)?;
    put_inserted(alloc, store, table, place, moved, value)?;
    Ok(List::new(alloc))
}

/// The same, where the greatest place is a number.
fn insert_values(
    alloc: Global,
    store: &mut Store,
    left: &mut Left,
    table: TableId,
    place: i64,
    moved: u64,
    value: Value,
) -> Result<List<Value>, Stop>
    requires table { IsTableOf store.old table }
    requires value { IsOf store.old value }
    requires writable { (table_at store.old.heap table.at).frozen ≡ false }
    requires low { pos 1 ≤ℤ place }
    requires moved { moved ≡ count_between place (pos (entries.border (table_at store.old.heap table.at).entries)) }
    ensures answer { Paid (meaning.insert_values table.at place moved (seen store.old.texts value) store.old.heap) store.old left.old store.new left.new result }
    ensures of { AnswerOf store.new result }
    ensures later { IsLater store.old store.new }
{
    match place.checked_add_unsigned(moved) {
        Some(_) => insert_fitting(alloc, store, left, table, place, moved, value),
        None => Err(fail(store, b"number out of range")),
    }
}

/// Puts a value at a place from 1 on.
fn insert_at(
    alloc: Global,
    store: &mut Store,
    left: &mut Left,
    table: TableId,
    place: i64,
    value: Value,
) -> Result<List<Value>, Stop>
    requires table { IsTableOf store.old table }
    requires value { IsOf store.old value }
    ensures answer { Paid (meaning.insert_at table.at place (seen store.old.texts value) store.old.heap) store.old left.old store.new left.new result }
    ensures of { AnswerOf store.new result }
    ensures later { IsLater store.old store.new }
{
    if place < 1 {
        return Err(refuse(alloc, store, 2, b"insert", b"out of range"));
    }
    if store.is_frozen(table) {
        return Err(fail(store, b"table from mw.loadData is read-only"));
    }
    let border = store.border(table);
    let moved = count_to(place, border);
    insert_values(alloc, store, left, table, place, moved, value)
}

/// Puts a value behind the border.
fn append(
    alloc: Global,
    store: &mut Store,
    left: &mut Left,
    table: TableId,
    value: Value,
) -> Result<List<Value>, Stop>
    requires table { IsTableOf store.old table }
    requires value { IsOf store.old value }
    ensures answer { Paid (meaning.append table.at (seen store.old.texts value) store.old.heap) store.old left.old store.new left.new result }
    ensures of { AnswerOf store.new result }
    ensures later { IsLater store.old store.new }
{
    if store.is_frozen(table) {
        return Err(fail(store, b"table from mw.loadData is read-only"));
    }
    let border = store.border(table);
    match border.checked_add(1) {
        Some(place) => insert_values(alloc, store, left, table, place, 0, value),
        None => Err(fail(store, b"number out of range")),
    }
}

/// `insert(t, v)` puts v behind the border; `insert(t, place, v)` puts v at a place, and what stood from there on one place further.
/// Each entry that is read or written costs a step, and a new one 4 more.
pub fn insert(
    alloc: Global,
    store: &mut Store,
    left: &mut Left,
    args: &[Value],
) -> Result<List<Value>, Stop>
    requires { AllOf store.old args.now }
    ensures answer { Paid (meaning.insert (values_seen store.old.texts args.now) store.old.heap) store.old left.old store.new left.new result }
    ensures of { AnswerOf store.new result }
    ensures later { IsLater store.old store.new }
{
    let table = a_table(alloc, store, 1, b"insert", args)?;
    if args.len() <= 2 {
        return append(alloc, store, left, table, second(args));
    }
    let place = a_number(alloc, store, 2, b"insert", rest(args))?;
    insert_at(alloc, store, left, table, place, third(args))
}
