//! `sort` (manual 5.5).
ghost use Rattle.std.specs.Prelude.{◌≡◌, ◌≤◌, ℕ, List as Items, pos, length};
ghost use Rattle.lua_basic.specs.LuaHeapHeap.{table_at};
ghost use Rattle.lua_basic.specs.LuaHeapTable as entries;
ghost use Rattle.lua_basic.specs.LuaHeapValue as kind;
ghost use Rattle.lua_basic.specs.LuaMeaningBasic.{entries_from};
ghost use Rattle.lua_basic.specs.LuaMeaningValues.{first};
ghost use Rattle.lua_basic.specs.LuaStoreSeen.{seen};
ghost use Rattle.lua_basic.specs.LuaStoreParts.{IsTableOf, IsLater};
ghost use Rattle.lua_basic.specs.Seen.{values_seen, AllOf, Paid, AnswerOf};
ghost use Rattle.lua_basic.specs.LuaMeaningTableLibrary as meaning;

use crate::checks::a_nil;
use crate::ordering::in_order;
use crate::paying::take_sort;
use crate::places::{count_to, put_from};
use crate::walking::{Walked, Wanted, is_number, walk};
use lua_basic::arguments::a_table;
use lua_basic::messages::{fail, refuse_kind};
use lua_basic::values::rest;
use lua_basic::{Left, List, Stop, Store, TableId, Value};
use std::alloc::Global;

/// The kind of values that were wanted, where this one is the first.
fn wanted_kind(one: Value) -> &'static [u8]
    ensures { (texts : Items (Items ℕ)) → result.now ≡ meaning.wanted_kind (seen texts one) }
{
    if is_number(one) { b"number" } else { b"string" }
}

/// Values that were read from place 1 to the border are put back in order.
fn sort_values(
    alloc: Global,
    store: &mut Store,
    left: &mut Left,
    table: TableId,
    values: &[Value],
) -> Result<List<Value>, Stop>
    requires table { IsTableOf store.old table }
    requires of { AllOf store.old values.now }
    requires read { values_seen store.old.texts values.now ≡ entries_from (entries.border (table_at store.old.heap table.at).entries) (pos 1) (table_at store.old.heap table.at).entries }
    requires kinds { meaning.walk (meaning.may_stand (length values.now) (first (values_seen store.old.texts values.now))) (values_seen store.old.texts values.now) ≡ meaning.PassedAll }
    ensures answer { Paid (meaning.sort_values table.at (values_seen store.old.texts values.now) store.old.heap) store.old left.old store.new left.new result }
    ensures of { AnswerOf store.new result }
    ensures later { IsLater store.old store.new }
{
    if values.is_empty() {
        return Ok(List::new(alloc));
    }
    if store.is_frozen(table) {
        return Err(fail(store, b"table from mw.loadData is read-only"));
    }
    take_sort(left, values.len() as u64)?;
    let sorted = in_order(alloc, store, values)?;
    put_from(store, table, 1, sorted.as_slice())?;
    Ok(List::new(alloc))
}

/// The entries of a table from 1 to its border are put in order.
fn sort_table(
    alloc: Global,
    store: &mut Store,
    left: &mut Left,
    table: TableId,
) -> Result<List<Value>, Stop>
    requires { IsTableOf store.old table }
    ensures answer { Paid (meaning.sort_table table.at store.old.heap) store.old left.old store.new left.new result }
    ensures of { AnswerOf store.new result }
    ensures later { IsLater store.old store.new }
{
    let border = store.border(table);
    let one = store.get(table, Value::Number(1));
    let wanted = Wanted::Like(count_to(1, border), one);
    let walked = walk(alloc, store, left, table, 1, border, wanted)?;
    match &walked {
        Walked::Passed(values) => sort_values(alloc, store, left, table, values.as_slice()),
        Walked::Refused(_, value) => {
            Err(refuse_kind(alloc, store, 1, b"sort", wanted_kind(one), &[*value]))
        }
    }
}

/// `sort(t)` puts the entries from 1 to the border in order, where they are numbers alone or strings alone. A comparing function is
/// refused. Each entry that is read or written costs a step, and putting n of them in order n times the binary digits of n.
pub fn sort(
    alloc: Global,
    store: &mut Store,
    left: &mut Left,
    args: &[Value],
) -> Result<List<Value>, Stop>
    requires { AllOf store.old args.now }
    ensures answer { Paid (meaning.sort (values_seen store.old.texts args.now) store.old.heap) store.old left.old store.new left.new result }
    ensures of { AnswerOf store.new result }
    ensures later { IsLater store.old store.new }
{
    let table = a_table(alloc, store, 1, b"sort", args)?;
    a_nil(alloc, store, 2, b"sort", rest(args))?;
    sort_table(alloc, store, left, table)
}
