//! The tables that a table reaches, in order of first reach.
ghost use Rattle.std.specs.Prelude.{◌≡◌, ◌+◌, ℕ, List, [], ◌∷◌, slice_get, drop, IfOk, IfSome, OnOk, MatchOption};
ghost use Rattle.std.specs.List.{AllByRecursion};
ghost use Rattle.std.specs.Option.{option_map};
ghost use Rattle.lua_walk.specs.LuaHeapHeap.{table_at};
ghost use Rattle.lua_walk.specs.Order as walk;
ghost use Rattle.lua_walk.specs.Order.{place_of, with_table, with_value, with_links};
ghost use Rattle.lua_store.specs.Seen.{StoreView, seen};
ghost use Rattle.lua_store.specs.Parts.{IsOf, IsTableOf};
ghost use Rattle.lua_graph.specs.Taken.{places};

use indexmap::IndexSet;
use lua_store::{NoMemory, Store, TableId, Value};
use std::alloc::Global;

/// The order with a table behind the others, where it is not among them.
fn reach_table(order: &mut IndexSet<TableId>, table: TableId) -> Result<(), NoMemory>
    ensures order { OnOk result (places order.new.keys
        ≡ with_table (places order.old.keys) table.at) }
    ensures of { OnOk result ((s : StoreView) → AllByRecursion (IsTableOf s) order.old.keys
        → IsTableOf s table → AllByRecursion (IsTableOf s) order.new.keys) }
{
    match order.insert_full(table) {
        Ok(_) => Ok(()),
        Err(_) => Err(NoMemory),
    }
}

/// The order with the table that a value is, if it is one.
fn reach_value(order: &mut IndexSet<TableId>, value: Value) -> Result<(), NoMemory>
    ensures order { OnOk result ((texts : List (List ℕ))
        → places order.new.keys ≡ with_value (places order.old.keys) (seen texts value)) }
    ensures of { OnOk result ((s : StoreView) → AllByRecursion (IsTableOf s) order.old.keys
        → IsOf s value → AllByRecursion (IsTableOf s) order.new.keys) }
{
    match value {
        Value::Table(table) => reach_table(order, table),
        _ => Ok(()),
    }
}

/// The entry of a table at a place, before those behind it.
pub(crate) fn entry_at(store: &Store, table: TableId, at: usize) -> Option<(Value, Value)>
    requires { IsTableOf store.now table }
    ensures entry { MatchOption result (drop at (table_at store.now.heap table.at).entries ≡ []) (λ p.
        drop at (table_at store.now.heap table.at).entries
        ≡ (seen store.now.texts p.0, seen store.now.texts p.1)
        ∷ drop (at + 1) (table_at store.now.heap table.at).entries) }
    ensures of { IfSome result (λ p. IsOf store.now p.0 × IsOf store.now p.1) }
{
    match store.entry(table, at) {
        Some(entry) => Some(entry),
        None => None,
    }
}

/// The order with what a table leads to: its metatable, and the values of its entries.
fn reach_links(store: &Store, order: &mut IndexSet<TableId>, table: TableId) -> Result<(), NoMemory>
    requires table { IsTableOf store.now table }
    requires order { AllByRecursion (IsTableOf store.now) order.old.keys }
    ensures order { OnOk result (places order.new.keys
        ≡ with_links (places order.old.keys) (table_at store.now.heap table.at)) }
    ensures of { OnOk result (AllByRecursion (IsTableOf store.now) order.new.keys) }
{
    reach_value(order, store.meta(table))?;
    for at in 0..usize::MAX {
        match entry_at(store, table, at) {
            Some((_, value)) => reach_value(order, value)?,
            None => return Ok(()),
        }
    }
    Err(NoMemory)
}

/// The table at a place of the order.
#[tactic(auto, using(crate::proofs::Places::nth_place, crate::proofs::Places::nth_some))]
pub(crate) fn nth(order: &IndexSet<TableId>, at: usize) -> Option<TableId>
    ensures place { option_map (λ t. t.at) result ≡ slice_get (places order.now.keys) at }
    ensures of { (s : StoreView) → AllByRecursion (IsTableOf s) order.now.keys
        → IfSome result (IsTableOf s) }
{
    order.get_index(at).copied()
}

/// The place of a table in the order, or how many there are where it is not among them.
pub(crate) fn place_of_table(order: &IndexSet<TableId>, table: TableId) -> usize
    ensures { result ≡ place_of (places order.now.keys) table.at }
{
    match order.get_index_of(&table) {
        Some(at) => at,
        None => order.len(),
    }
}

/// All tables that a table reaches, in order of first reach. Their numbers count up and no module chooses them, so the set
/// needs no seed.
pub(crate) fn reached(
    alloc: Global,
    store: &Store,
    root: TableId,
) -> Result<IndexSet<TableId>, NoMemory>
    requires { IsTableOf store.now root }
    ensures order { IfOk result (λ order. places order.keys ≡ walk.reached store.now.heap root.at) }
    ensures of { IfOk result (λ order. AllByRecursion (IsTableOf store.now) order.keys) }
{
    let mut order = IndexSet::new(alloc);
    reach_table(&mut order, root)?;
    for at in 0..store.table_count() {
        match nth(&order, at) {
            Some(table) => reach_links(store, &mut order, table)?,
            None => return Ok(order),
        }
    }
    Ok(order)
}
