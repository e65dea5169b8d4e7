//! Copies and what they cost.
ghost use Rattle.std.specs.Prelude.{IfOk, IfSome};
ghost use Rattle.lua_store.specs.Parts.{IsTableOf, IsOf, IsLater};

use crate::making::{field, give_meta, meta_of, put};
use crate::start::{fixed_seed, holds, left_with};
use bumpalo::Bump;
use lua_graph::copy;
use lua_heap::Library;
use lua_store::{Store, TableId, Value};
use std::alloc::Global;
use std::hash::RandomState;
use std::process::Abort;
use std::test::Fail;
use wk_base::{Left, NoMemory};

const FUNCTION: Value = Value::Builtin(Library::BasicNext);

const ONE: Value = Value::Number(1);

const TWO: Value = Value::Number(2);

const THREE: Value = Value::Number(3);

/// A copy where so many steps are left, if they are enough; want of memory is nil.
fn copy_with(alloc: Global, store: &mut Store, value: Value, left: &mut Left) -> Option<Value>
    requires { IsOf store.old value }
    ensures of { IfSome result (IsOf store.new) }
    ensures later { IsLater store.old store.new }
{
    match copy(alloc, store, value, left) {
        Ok(copy) => copy,
        Err(_) => Some(Value::Nil),
    }
}

/// `t[1] = t; t[2] = next`
fn hold_itself(store: &mut Store, table: TableId) -> Result<(), NoMemory>
    requires { IsTableOf store.old table }
    ensures { IsLater store.old store.new }
{
    put(store, table, ONE, Value::Table(table))?;
    put(store, table, TWO, FUNCTION)
}

/// `t[3] = 0; t[3] = nil`
fn clear_three(store: &mut Store, table: TableId) -> Result<(), NoMemory>
    requires { IsTableOf store.old table }
    ensures { IsLater store.old store.new }
{
    put(store, table, THREE, Value::Number(0))?;
    put(store, table, THREE, Value::Nil)
}

/// `t[1] = t; t[2] = next; t[3] = 0; t[3] = nil`
fn fill_numbers(store: &mut Store, table: TableId) -> Result<(), NoMemory>
    requires { IsTableOf store.old table }
    ensures { IsLater store.old store.new }
{
    hold_itself(store, table)?;
    clear_three(store, table)
}

/// `t[1] = t; t[2] = next; t[3] = 0; t[3] = nil; t[key] = 3`
fn fill(store: &mut Store, table: TableId, key: Value) -> Result<(), NoMemory>
    requires table { IsTableOf store.old table }
    requires key { IsOf store.old key }
    ensures { IsLater store.old store.new }
{
    fill_numbers(store, table)?;
    put(store, table, key, THREE)
}

/// A new table that is filled.
fn filled(store: &mut Store, key: Value) -> Result<TableId, NoMemory>
    requires { IsOf store.old key }
    ensures table { IfOk result (IsTableOf store.new) }
    ensures later { IsLater store.old store.new }
{
    let table = store.new_table()?;
    fill(store, table, key)?;
    Ok(table)
}

/// A new table that holds another one at 1.
fn holder(store: &mut Store, table: TableId) -> Result<Value, NoMemory>
    requires { IsTableOf store.old table }
    ensures of { IfOk result (IsOf store.new) }
    ensures later { IsLater store.old store.new }
{
    let meta = store.new_table()?;
    put(store, meta, ONE, Value::Table(table))?;
    Ok(Value::Table(meta))
}

/// `setmetatable(t, {t})`
fn give_holder(store: &mut Store, table: TableId) -> Result<(), NoMemory>
    requires { IsTableOf store.old table }
    ensures { IsLater store.old store.new }
{
    let meta = holder(store, table)?;
    give_meta(store, table, meta);
    Ok(())
}

/// `t = {}; t[1] = t; t[2] = next; t[3] = 0; t[3] = nil; t[key] = 3; setmetatable(t, {t})`
fn entangled(store: &mut Store, key: Value) -> Result<TableId, NoMemory>
    requires { IsOf store.old key }
    ensures table { IfOk result (IsTableOf store.new) }
    ensures later { IsLater store.old store.new }
{
    let table = filled(store, key)?;
    give_holder(store, table)?;
    Ok(table)
}

/// Such a table, which then is made read-only.
fn frozen(store: &mut Store, key: Value) -> Result<TableId, NoMemory>
    requires { IsOf store.old key }
    ensures table { IfOk result (IsTableOf store.new) }
    ensures later { IsLater store.old store.new }
{
    let table = entangled(store, key)?;
    store.freeze(table);
    Ok(table)
}

/// The copy holds itself; the key and the function are shared.
fn is_copy(rt: &impl Abort, store: &Store, table: Value, key: Value, copy: Value)
    requires table { IsOf store.now table }
    requires key { IsOf store.now key }
    requires copy { IsOf store.now copy }
{
    holds(rt, copy != table, "another table");
    holds(rt, field(store, copy, ONE) == copy, "itself");
    holds(rt, field(store, copy, TWO) == FUNCTION, "function");
    holds(rt, field(store, copy, key) == THREE, "key");
}

/// The metatable of the copy is another one, and holds the copy.
fn has_copied_meta(rt: &impl Abort, store: &Store, table: Value, copy: Value)
    requires table { IsOf store.now table }
    requires copy { IsOf store.now copy }
{
    let meta = meta_of(store, copy);
    holds(rt, meta != meta_of(store, table), "another metatable");
    holds(rt, field(store, meta, ONE) == copy, "held by its metatable");
}

/// The copy can be written, and has no cleared entry.
fn is_fresh(rt: &impl Abort, store: &Store, copy: Value)
    requires { IsOf store.now copy }
{
    match copy {
        Value::Table(id) => {
            holds(rt, !store.is_frozen(id), "not frozen");
            holds(rt, store.entry(id, 2) != None, "three entries");
            holds(rt, store.entry(id, 3) == None, "no more");
        }
        _ => holds(rt, false, "a table"),
    }
}

/// 31 steps are not enough for a copy of such tables.
fn is_dear(rt: &impl Abort, alloc: Global, store: &mut Store, table: Value)
    requires { IsOf store.old table }
    ensures { IsLater store.old store.new }
{
    let count = store.table_count();
    let mut few = left_with(31);
    let copy = copy_with(alloc, store, table, &mut few);
    holds(rt, copy == None, "31 steps");
    holds(rt, few.steps == 0, "none are left");
    holds(rt, store.table_count() == count, "no table");
}

/// A copy of such tables costs 32 steps.
fn is_copied(rt: &impl Abort, alloc: Global, store: &mut Store, table: Value, key: Value)
    requires table { IsOf store.old table }
    requires key { IsOf store.old key }
{
    let count = store.table_count();
    let mut enough = left_with(33);
    match copy_with(alloc, store, table, &mut enough) {
        Some(copy) => {
            is_copy(rt, store, table, key, copy);
            has_copied_meta(rt, store, table, copy);
            is_fresh(rt, store, copy);
        }
        None => holds(rt, false, "33 steps"),
    }
    holds(rt, enough.steps == 1, "one is left");
    holds(
        rt,
        store.table_count() == count.saturating_add(2),
        "two tables",
    );
}

/// Two tables with three entries and one cost 32 steps, and are not copied for 31.
fn tables(rt: &impl Abort, alloc: Global, store: &mut Store) -> Result<(), NoMemory> {
    let key = Value::Table(store.new_table()?);
    let table = Value::Table(frozen(store, key)?);
    is_dear(rt, alloc, store, table);
    is_copied(rt, alloc, store, table, key);
    Ok(())
}

/// Whether a copy of a value for so many steps leaves none, and whether there is one.
fn is_spent(alloc: Global, store: &mut Store, value: Value, steps: u64) -> Option<bool>
    requires { IsOf store.old value }
    ensures { IsLater store.old store.new }
{
    let mut left = left_with(steps);
    let copy = copy_with(alloc, store, value, &mut left);
    if left.steps == 0 {
        Some(copy.is_some())
    } else {
        None
    }
}

/// `t = {}; t[1] = t` costs 12; what is no table costs nothing.
fn costs(rt: &impl Abort, alloc: Global, store: &mut Store) -> Result<(), NoMemory> {
    let table = store.new_table()?;
    put(store, table, ONE, Value::Table(table))?;
    holds(
        rt,
        is_spent(alloc, store, Value::Table(table), 11) == Some(false),
        "11 steps",
    );
    holds(
        rt,
        is_spent(alloc, store, Value::Table(table), 12) == Some(true),
        "12 steps",
    );
    let mut none = left_with(0);
    holds(
        rt,
        copy_with(alloc, store, FUNCTION, &mut none) == Some(FUNCTION),
        "no table",
    );
    Ok(())
}

/// Copies tables of a new store.
fn copy_in_new_store(rt: &impl Abort, alloc: Global, seed: RandomState) {
    let arena = Bump::new(alloc);
    let mut store = Store::new(alloc, &arena, seed);
    holds(rt, tables(rt, alloc, &mut store).is_ok(), "tables");
    holds(rt, costs(rt, alloc, &mut store).is_ok(), "costs");
}

#[test]
fn a_copy_is_new(rt: HostRuntime) -> Result<(), Fail> {
    let seed = fixed_seed()?;
    copy_in_new_store(&rt, rt.alloc(), seed);
    Ok(())
}
