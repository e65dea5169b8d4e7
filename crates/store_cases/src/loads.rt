//! Data modules: what a load gave is kept, and shared read-only.
ghost use Rattle.lua_store.specs.Parts.{IsTableOf, IsOf};

use crate::start::{fixed_seed, holds};
use bumpalo::Bump;
use lua_graph::DataFault;
use lua_store::{Store, TableId, Value};
use lua_table::SetFault;
use mw_loader::{DataKeep, Kept, make_shared};
use std::alloc::Global;
use std::hash::RandomState;
use std::process::Abort;
use std::test::Fail;
use wk_base::{Bytes, Namespace, NoMemory, Title};

/// Whether a number for a key makes a table hold itself.
fn put_itself(store: &mut Store, table: TableId) -> bool
    requires { IsTableOf store.old table }
    ensures { IsTableOf store.new table }
{
    store
        .set(table, Value::Number(1), Value::Table(table))
        .is_ok()
}

fn is_shared(rt: &impl Abort, store: &mut Store, root: TableId)
    requires { IsTableOf store.old root }
{
    holds(
        rt,
        store.get(root, Value::Number(1)) == Value::Table(root),
        "itself",
    );
    holds(
        rt,
        store.set(root, Value::Nil, Value::Nil) == Err(SetFault::Frozen),
        "set",
    );
}

/// Shares a table.
fn share_table(rt: &impl Abort, alloc: Global, store: &mut Store, table: TableId)
    requires { IsTableOf store.old table }
{
    match make_shared(alloc, store, Value::Table(table)) {
        Ok(Value::Table(root)) => is_shared(rt, store, root),
        _ => holds(rt, false, "a table"),
    }
}

/// Whether a value is not shared, for this fault.
fn is_refused(alloc: Global, store: &mut Store, value: Value, fault: DataFault) -> bool
    requires { IsOf store.old value }
{
    make_shared(alloc, store, value) == Err(fault)
}

/// Shares a table that holds itself, and then what is no table.
fn share(rt: &impl Abort, alloc: Global, store: &mut Store) -> Result<(), NoMemory> {
    let table = store.new_table()?;
    holds(rt, put_itself(store, table), "put");
    share_table(rt, alloc, store, table);
    let refused = is_refused(alloc, store, Value::Number(1), DataFault::NotATable);
    holds(rt, refused, "a number");
    Ok(())
}

/// Gives a table a metatable.
fn give_meta(store: &mut Store, table: TableId) -> Result<(), NoMemory>
    requires { IsTableOf store.old table }
    ensures { IsTableOf store.new table }
{
    let meta = store.new_table()?;
    if !store.is_frozen(table) {
        store.set_meta(table, Value::Table(meta));
    }
    Ok(())
}

/// A table with a metatable is not shared, and the store stays as it is.
fn refuse(rt: &impl Abort, alloc: Global, store: &mut Store) -> Result<(), NoMemory> {
    let table = store.new_table()?;
    give_meta(store, table)?;
    let count = store.table_count();
    let refused = is_refused(alloc, store, Value::Table(table), DataFault::HasMetatable);
    holds(rt, refused, "a metatable");
    holds(rt, store.table_count() == count, "count");
    Ok(())
}

fn titled(alloc: Global, name: &[u8]) -> Result<Title, NoMemory> {
    let name = Bytes::of(alloc, name)?;
    Ok(Title {
        ns: Namespace::Module,
        name,
    })
}

/// Keeps what a load gave, where nothing is kept of it.
fn keep_number(keep: &mut DataKeep, title: Title, number: i64) -> Result<(), NoMemory> {
    if keep.find(&title).is_some() {
        return Ok(());
    }
    let kept = Kept {
        result: Ok(Value::Number(number)),
        charge: 7,
        height: 2,
    };
    keep.keep(title, kept)
}

fn number_of(keep: &DataKeep, title: &Title) -> Option<i64> {
    match keep.find(title) {
        Some(kept) => match kept.result {
            Ok(Value::Number(number)) => Some(number),
            _ => None,
        },
        None => None,
    }
}

/// Whether the load of a module is kept, or was.
fn keeps(alloc: Global, keep: &mut DataKeep, name: &[u8], number: i64) -> bool {
    match titled(alloc, name) {
        Ok(title) => keep_number(keep, title, number).is_ok(),
        Err(_) => false,
    }
}

/// Whether this is what was kept of a module.
fn has_kept(alloc: Global, keep: &DataKeep, name: &[u8], number: Option<i64>) -> bool {
    match titled(alloc, name) {
        Ok(title) => number_of(keep, &title) == number,
        Err(_) => false,
    }
}

/// Keeps the loads of two modules, and one of them again.
fn keep_two(rt: &impl Abort, alloc: Global, keep: &mut DataKeep) {
    holds(rt, keeps(alloc, keep, b"A", 1), "keep A");
    holds(rt, keeps(alloc, keep, b"B", 2), "keep B");
    holds(rt, keeps(alloc, keep, b"A", 3), "keep A again");
    holds(rt, has_kept(alloc, keep, b"A", Some(1)), "A");
    holds(rt, has_kept(alloc, keep, b"B", Some(2)), "B");
    holds(rt, has_kept(alloc, keep, b"C", None), "C");
}

/// Shares tables of a new store.
fn share_in_new_store(rt: &impl Abort, alloc: Global, seed: RandomState) {
    let arena = Bump::new(alloc);
    let mut store = Store::new(alloc, &arena, seed);
    holds(rt, share(rt, alloc, &mut store).is_ok(), "shared");
    holds(rt, refuse(rt, alloc, &mut store).is_ok(), "refused");
}

#[test]
fn data_are_shared(rt: HostRuntime) -> Result<(), Fail> {
    let seed = fixed_seed()?;
    share_in_new_store(&rt, rt.alloc(), seed);
    Ok(())
}

#[test]
fn loads_are_kept(rt: HostRuntime) -> Result<(), Fail> {
    let seed = fixed_seed()?;
    let mut keep = DataKeep::new(rt.alloc(), seed);
    keep_two(&rt, rt.alloc(), &mut keep);
    Ok(())
}
