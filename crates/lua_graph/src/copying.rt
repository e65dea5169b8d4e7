//! Copies of a table and of all tables that it reaches.
ghost use Rattle.std.specs.Prelude.{◌≡◌, ◌≢◌, ◌≤◌, ◌-◌, ◌<◌, ◌++◌, ◌↔◌, ◌∷◌, [], ℕ, IsTrue, is_some, length, IfOk, IfSome, OnOk, MatchOption};
ghost use Rattle.std.specs.List.{AllByRecursion, Contains};
ghost use Rattle.lua_walk.specs.LuaHeapHeap.{tab, TableObj, table_at, put};
ghost use Rattle.lua_store.specs.LuaHeapTable.{empty_table};
ghost use Rattle.lua_walk.specs.LuaHeapValue as heap;
ghost use Rattle.lua_walk.specs.Copy as walk;
ghost use Rattle.lua_walk.specs.Copy.{copied_table, copies, copy_cost};
ghost use Rattle.lua_walk.specs.Laws.{table_in};
ghost use Rattle.lua_store.specs.Seen.{seen};
ghost use Rattle.lua_store.specs.Parts.{IsOf, IsTableOf, IsLater};
ghost use Rattle.lua_graph.specs.Copied.{IsCopy, IsClosedAt, copied_entries};
ghost use Rattle.lua_graph.specs.Put.{filled, AreFrom};
ghost use Rattle.lua_graph.specs.Taken.{places};

use crate::order::{entry_at, nth, place_of_table, reached};
use crate::paying::take_tables;
use crate::putting::new_tables;
use indexmap::IndexSet;
use lua_store::{Left, NoMemory, Slot, Store, TableId, Value, laws};
use std::alloc::Global;

/// The copy of a value: of a table the new one at its place in the order, and whatever else is its own copy.
fn copy_of(store: &Store, order: &IndexSet<TableId>, tables: &[TableId], value: Value) -> Value
    requires value { IsOf store.now value }
    requires tables { AllByRecursion (IsTableOf store.now) tables.now }
    requires count { length tables.now ≡ length order.now.keys }
    requires reached { AllByRecursion (Contains (places order.now.keys))
        (table_in (seen store.now.texts value)) }
    ensures of { IsOf store.now result }
    ensures copy { (k : ℕ) → AreFrom k tables.now
        → seen store.now.texts result
        ≡ walk.copy_of k (places order.now.keys) (seen store.now.texts value) }
{
    let _store = store;
    match value {
        Value::Table(table) => Value::Table(tables[place_of_table(order, table)]),
        _ => value,
    }
}

/// The copy of an entry, where it is not cleared, in a table.
fn copy_entry(
    store: &mut Store,
    order: &IndexSet<TableId>,
    tables: &[TableId],
    target: TableId,
    entry: (Value, Value),
) -> Result<(), NoMemory>
    requires target { IsTableOf store.old target }
    requires key { IsOf store.old entry.0 }
    requires value { IsOf store.old entry.1 }
    requires tables { AllByRecursion (IsTableOf store.old) tables.now }
    requires count { length tables.now ≡ length order.now.keys }
    requires reached { AllByRecursion (Contains (places order.now.keys))
        (table_in (seen store.old.texts entry.1)) }
    ensures put { OnOk result ((k : ℕ) → AreFrom k tables.now
        → store.new
        ≡ record store.old
        { heap = filled target.at (copied_entries k (places order.now.keys) ((seen store.old.texts entry.0, seen store.old.texts entry.1) ∷ [])) store.old.heap }) }
    ensures only { OnOk result (store.new ≡ record store.old { heap = store.new.heap }) }
    ensures others { OnOk result ((n : ℕ) → n ≢ target.at
        → table_at store.new.heap n ≡ table_at store.old.heap n) }
    ensures later { IsLater store.old store.new }
{
    let (key, value) = entry;
    if value.is_nil() {
        return Ok(());
    }
    let value = copy_of(store, order, tables, value);
    match store.set(target, key, value) {
        Ok(_) => Ok(()),
        Err(_) => Err(NoMemory),
    }
}

/// A new table becomes the copy of another table.
fn copy_table(
    store: &mut Store,
    order: &IndexSet<TableId>,
    tables: &[TableId],
    source: TableId,
    target: TableId,
) -> Result<(), NoMemory>
    requires source { IsTableOf store.old source }
    requires target { IsTableOf store.old target }
    requires apart { source.at ≢ target.at }
    requires empty { table_at store.old.heap target.at ≡ empty_table }
    requires tables { AllByRecursion (IsTableOf store.old) tables.now }
    requires count { length tables.now ≡ length order.now.keys }
    requires reached { IsClosedAt store.old.heap (places order.now.keys) source.at }
    ensures put { OnOk result ((k : ℕ) → AreFrom k tables.now
        → store.new
        ≡ record store.old
        { heap = put store.old.heap (tab target.at) (TableObj (copied_table k (places order.now.keys) (table_at store.old.heap source.at))) }) }
    ensures later { IsLater store.old store.new }
{
    laws::keys_are_once(store);
    let meta = copy_of(store, order, tables, store.meta(source));
    store.set_meta(target, meta);
    for at in 0..usize::MAX {
        match entry_at(store, source, at) {
            Some(entry) => copy_entry(store, order, tables, target, entry)?,
            None => return Ok(()),
        }
    }
    Err(NoMemory)
}

/// New tables that are the copies of those of the order, and the first of them.
fn copy_tables(
    alloc: Global,
    store: &mut Store,
    order: &IndexSet<TableId>,
) -> Result<TableId, NoMemory>
    requires of { AllByRecursion (IsTableOf store.old) order.now.keys }
    requires rooted { 0 < length order.now.keys }
    requires closed { AllByRecursion (IsClosedAt store.old.heap (places order.now.keys))
        (places order.now.keys) }
    ensures put { OnOk result (store.new
        ≡ record store.old
        { heap = record store.old.heap { tables = store.old.heap.tables ++ copies store.old.heap (places order.now.keys) } }) }
    ensures root { IfOk result (λ root. root.at ≡ length store.old.heap.tables) }
    ensures of { IfOk result (IsTableOf store.new) }
    ensures later { IsLater store.old store.new }
{
    let list = new_tables(alloc, store, order.len())?;
    let tables = list.as_slice();
    for at in 0..usize::MAX {
        match nth(order, at) {
            Some(source) => copy_table(store, order, tables, source, tables[at])?,
            None => return Ok(tables[0]),
        }
    }
    Err(NoMemory)
}

/// A copy of a value (Scribunto, `mw.clone`): of a table and of all tables that it reaches, as values or as metatables, with
/// their cycles. Keys, functions and objects of `mw.html` are shared, cleared entries are left out, and a copy can be written.
///
/// It costs 8 steps for each table and 4 for each entry, all of which are taken before a table is made. `None` where they are
/// not covered: then no steps are left, and the store is as it was.
pub fn copy(
    alloc: Global,
    store: &mut Store,
    value: Value,
    left: &mut Left,
) -> Result<Option<Value>, NoMemory>
    requires { IsOf store.old value }
    ensures covered { IfOk result (λ copy.
        IsTrue (is_some copy)
        ↔ (copy_cost store.old.heap (seen store.old.texts value) ≤ left.old.steps)) }
    ensures made { IfOk result (λ copy.
        MatchOption copy (store.new ≡ store.old) (IsCopy store.old value store.new)) }
    ensures rest { OnOk result (left.new
        ≡ record left.old
        { steps = left.old.steps - copy_cost store.old.heap (seen store.old.texts value) }) }
    ensures of { IfOk result (λ copy. IfSome copy (IsOf store.new)) }
    ensures later { IsLater store.old store.new }
{
    laws::names_what_is_there(store);
    let root = match value {
        Value::Table(root) => root,
        _ => return Ok(Some(value)),
    };
    let order = reached(alloc, store, root)?;
    if !take_tables(store, &order, left)? {
        return Ok(None);
    }
    let root = copy_tables(alloc, store, &order)?;
    Ok(Some(Value::Table(root)))
}
