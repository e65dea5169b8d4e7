//! `remove` (manual 5.5).
ghost use Rattle.std.specs.Prelude.{◌≡◌, ◌+ℤ◌, ◌≤ℤ◌, pos, suc, false};
ghost use Rattle.lua_basic.specs.LuaHeapHeap.{table_at};
ghost use Rattle.lua_basic.specs.LuaHeapTable as entries;
ghost use Rattle.lua_basic.specs.LuaMeaningBasic.{count_between, entries_from};
ghost use Rattle.lua_basic.specs.LuaStoreParts.{IsTableOf, IsLater};
ghost use Rattle.lua_basic.specs.Seen.{values_seen, AllOf, Paid, AnswerOf};
ghost use Rattle.lua_basic.specs.LuaMeaningTableLibrary as meaning;

use crate::paying::take_both;
use crate::places::{count_to, put_from, read_onto, value_behind};
use lua_basic::arguments::{a_table, number_or};
use lua_basic::messages::fail;
use lua_basic::values::{rest, single};
use lua_basic::{Left, List, Stop, Store, TableId, Value};
use std::alloc::Global;

/// Gives the value at a place, and puts what stands behind it, of so many from the place on, one place nearer. The last is cleared.
fn remove_values(
    alloc: Global,
    store: &mut Store,
    left: &mut Left,
    table: TableId,
    place: i64,
    count: u64,
) -> Result<List<Value>, Stop>
    requires table { IsTableOf store.old table }
    requires writable { (table_at store.old.heap table.at).frozen ≡ false }
    requires low { pos 1 ≤ℤ place }
    requires high { place ≤ℤ pos (entries.border (table_at store.old.heap table.at).entries) }
    requires count { count ≡ count_between place (pos (entries.border (table_at store.old.heap table.at).entries)) }
    requires within { (place +ℤ pos count) ≤ℤ pos 9223372036854775808 }
    ensures answer { Paid (meaning.remove_values table.at place (entries_from count place (table_at store.old.heap table.at).entries) store.old.heap) store.old left.old store.new left.new result }
    ensures of { AnswerOf store.new result }
    ensures later { IsLater store.old store.new }
{
    take_both(left, count, count)?;
    let value = value_behind(store, table, place, 0);
    let mut values = List::new(alloc);
    read_onto(&mut values, store, table, place, count)?;
    values.push(Value::Nil)?;
    put_from(store, table, place, rest(values.as_slice()))?;
    let given = single(alloc, value)?;
    Ok(given)
}

/// Removes the entry at a place from 1 to the border.
fn remove_at(
    alloc: Global,
    store: &mut Store,
    left: &mut Left,
    table: TableId,
    place: i64,
) -> Result<List<Value>, Stop>
    requires { IsTableOf store.old table }
    ensures answer { Paid (meaning.remove_at table.at place store.old.heap) store.old left.old store.new left.new result }
    ensures of { AnswerOf store.new result }
    ensures later { IsLater store.old store.new }
{
    let border = store.border(table);
    if place < 1 || place > border {
        return Ok(List::new(alloc));
    }
    if store.is_frozen(table) {
        return Err(fail(store, b"table from mw.loadData is read-only"));
    }
    let count = count_to(place, border);
    remove_values(alloc, store, left, table, place, count)
}

/// `remove(t, place)`: what stands at a place, or at the border, is given, and what stands behind it moves one place nearer. Any place
/// but those from 1 to the border gives nothing. Each entry that is read or written costs a step.
pub fn remove(
    alloc: Global,
    store: &mut Store,
    left: &mut Left,
    args: &[Value],
) -> Result<List<Value>, Stop>
    requires { AllOf store.old args.now }
    ensures answer { Paid (meaning.remove (values_seen store.old.texts args.now) store.old.heap) store.old left.old store.new left.new result }
    ensures of { AnswerOf store.new result }
    ensures later { IsLater store.old store.new }
{
    let table = a_table(alloc, store, 1, b"remove", args)?;
    let border = store.border(table);
    let place = number_or(alloc, store, border, 2, b"remove", rest(args))?;
    remove_at(alloc, store, left, table, place)
}
