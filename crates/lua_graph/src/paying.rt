//! The steps that a copy costs are taken.
ghost use Rattle.std.specs.Prelude.{◌≡◌, ◌-◌, ◌≤◌, ◌↔◌, ℕ, List, IsTrue, IfOk, OnOk};
ghost use Rattle.std.specs.List.{AllByRecursion};
ghost use Rattle.lua_walk.specs.LuaHeapHeap.{table_at};
ghost use Rattle.lua_walk.specs.Copy.{tables_cost};
ghost use Rattle.lua_store.specs.Seen.{seen};
ghost use Rattle.lua_store.specs.Parts.{IsTableOf};
ghost use Rattle.lua_graph.specs.Copied.{entry_cost, table_cost};
ghost use Rattle.lua_graph.specs.Taken.{places};

use crate::order::{entry_at, nth};
use indexmap::IndexSet;
use lua_store::{Left, NoMemory, Slot, Store, TableId, Value};

/// A table that is copied.
const TABLE_CHARGE: u64 = 8;

/// An entry that is copied.
const ENTRY_CHARGE: u64 = 4;

/// Takes the steps of an entry with that value, or none where it is cleared.
fn take_entry(left: &mut Left, value: Value) -> bool
    ensures covered { (texts : List (List ℕ))
        → IsTrue result ↔ (entry_cost (seen texts value) ≤ left.old.steps) }
    ensures rest { (texts : List (List ℕ))
        → left.new ≡ record left.old { steps = left.old.steps - entry_cost (seen texts value) } }
{
    if value.is_nil() {
        return true;
    }
    left.take_steps(ENTRY_CHARGE)
}

/// Takes the steps of a table, and those of its entries. Where they are not covered, none stay.
fn take_table(store: &Store, table: TableId, left: &mut Left) -> Result<bool, NoMemory>
    requires { IsTableOf store.now table }
    ensures covered { IfOk result (λ covered.
        IsTrue covered ↔ (table_cost (table_at store.now.heap table.at) ≤ left.old.steps)) }
    ensures rest { OnOk result (left.new
        ≡ record left.old
        { steps = left.old.steps - table_cost (table_at store.now.heap table.at) }) }
{
    if !left.take_steps(TABLE_CHARGE) {
        return Ok(false);
    }
    for at in 0..usize::MAX {
        match entry_at(store, table, at) {
            Some((_, value)) => {
                if !take_entry(left, value) {
                    return Ok(false);
                }
            }
            None => return Ok(true),
        }
    }
    Err(NoMemory)
}

/// Takes the steps that copies of all tables of the order cost. Where they are not covered, none stay.
pub(crate) fn take_tables(
    store: &Store,
    order: &IndexSet<TableId>,
    left: &mut Left,
) -> Result<bool, NoMemory>
    requires { AllByRecursion (IsTableOf store.now) order.now.keys }
    ensures covered { IfOk result (λ covered.
        IsTrue covered ↔ (tables_cost store.now.heap (places order.now.keys) ≤ left.old.steps)) }
    ensures rest { OnOk result (left.new
        ≡ record left.old
        { steps = left.old.steps - tables_cost store.now.heap (places order.now.keys) }) }
{
    for at in 0..usize::MAX {
        match nth(order, at) {
            Some(table) => {
                if !take_table(store, table, left)? {
                    return Ok(false);
                }
            }
            None => return Ok(true),
        }
    }
    Err(NoMemory)
}
