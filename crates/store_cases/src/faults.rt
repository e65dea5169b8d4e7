//! Why values are no data.
ghost use Rattle.std.specs.Prelude.{◌≡◌, None, [], IfOk};
ghost use Rattle.lua_store.specs.Parts.{IsTableOf, IsOf, IsLater};

use crate::making::{give_meta, put};
use crate::start::{fixed_seed, holds, sides, words};
use bumpalo::Bump;
use lua_graph::{DataFault, take_out};
use lua_heap::Library;
use lua_store::{MarkupNode, Store, TableId, TextId, Value};
use std::alloc::Global;
use std::hash::RandomState;
use std::process::Abort;
use std::test::Fail;
use wk_base::{List, NoMemory};

/// An object of `mw.html` without a tag.
fn object(alloc: Global, name: TextId) -> MarkupNode
    ensures name { result.name ≡ name }
    ensures parent { result.parent ≡ None }
    ensures attrs { result.attrs ≡ [] }
    ensures styles { result.styles ≡ [] }
    ensures children { result.children ≡ [] }
{
    MarkupNode {
        name,
        closed: false,
        parent: None,
        attrs: List::new(alloc),
        styles: List::new(alloc),
        children: List::new(alloc),
    }
}

fn new_object(alloc: Global, store: &mut Store) -> Result<Value, NoMemory>
    ensures of { IfOk result (IsOf store.new) }
    ensures later { IsLater store.old store.new }
{
    let name = store.text(b"")?;
    Ok(Value::Markup(store.new_markup(object(alloc, name))?))
}

/// Gives a table a metatable of its own.
fn give_class(store: &mut Store, table: TableId) -> Result<(), NoMemory>
    requires { IsTableOf store.old table }
    ensures { IsLater store.old store.new }
{
    let meta = store.new_table()?;
    give_meta(store, table, Value::Table(meta));
    Ok(())
}

fn new_table(store: &mut Store) -> Result<Value, NoMemory>
    ensures of { IfOk result (IsOf store.new) }
    ensures later { IsLater store.old store.new }
{
    let table = store.new_table()?;
    Ok(Value::Table(table))
}

fn classed(store: &mut Store) -> Result<Value, NoMemory>
    ensures of { IfOk result (IsOf store.new) }
    ensures later { IsLater store.old store.new }
{
    let table = store.new_table()?;
    give_class(store, table)?;
    Ok(Value::Table(table))
}

/// A key, a value, or a metatable, by its name in a row.
fn value_of(alloc: Global, store: &mut Store, made: &str) -> Result<Value, NoMemory>
    ensures of { IfOk result (IsOf store.new) }
    ensures later { IsLater store.old store.new }
{
    match made {
        "one" => Ok(Value::Number(1)),
        "function" => Ok(Value::Builtin(Library::BasicNext)),
        "table" => new_table(store),
        "classed" => classed(store),
        "object" => new_object(alloc, store),
        _ => Ok(Value::Nil),
    }
}

/// Sets a key to a value that is made. A key that is nil sets nothing.
fn put_value(
    alloc: Global,
    store: &mut Store,
    table: TableId,
    key: Value,
    made: &str,
) -> Result<(), NoMemory>
    requires table { IsTableOf store.old table }
    requires key { IsOf store.old key }
    ensures { IsLater store.old store.new }
{
    let value = value_of(alloc, store, made)?;
    if key == Value::Nil {
        return Ok(());
    }
    put(store, table, key, value)
}

/// The two sides of an entry, `KEY=VALUE`.
fn key_and_value(entry: &str) -> (&str, &str) {
    entry.split_once('=').unwrap_or((entry, "nil"))
}

/// Sets an entry, `KEY=VALUE`.
fn put_made(alloc: Global, store: &mut Store, table: TableId, entry: &str) -> Result<(), NoMemory>
    requires { IsTableOf store.old table }
    ensures { IsLater store.old store.new }
{
    let (key, made) = key_and_value(entry);
    let key = value_of(alloc, store, key)?;
    put_value(alloc, store, table, key, made)
}

/// Sets two entries, `KEY=VALUE KEY=VALUE`.
fn put_two(alloc: Global, store: &mut Store, table: TableId, row: &str) -> Result<(), NoMemory>
    requires { IsTableOf store.old table }
    ensures { IsLater store.old store.new }
{
    let (first, second) = words(row);
    put_made(alloc, store, table, first)?;
    put_made(alloc, store, table, second)
}

/// The fault of a table with such entries and such a metatable.
fn fault_of(
    alloc: Global,
    store: &mut Store,
    entries: &str,
    meta: &str,
) -> Result<Option<DataFault>, NoMemory> {
    let table = store.new_table()?;
    put_two(alloc, store, table, entries)?;
    let meta = value_of(alloc, store, meta)?;
    give_meta(store, table, meta);
    Ok(take_out(alloc, store, Value::Table(table)).err())
}

/// The fault that a row tells.
fn told(fault: &str) -> Option<DataFault> {
    match fault {
        "function" => Some(DataFault::HasFunction),
        "metatable" => Some(DataFault::HasMetatable),
        "key" => Some(DataFault::BadKey),
        _ => None,
    }
}

/// Entries, and the metatable behind ` | `, if there is one.
fn entries_and_meta(row: &str) -> (&str, &str) {
    row.split_once(" | ").unwrap_or((row, "nil"))
}

/// Whether a row holds: `KEY=VALUE KEY=VALUE | METATABLE => FAULT`.
fn row_holds(alloc: Global, store: &mut Store, row: &str) -> bool {
    let (table, fault) = sides(row);
    let (entries, meta) = entries_and_meta(table);
    fault_of(alloc, store, entries, meta) == Ok(told(fault))
}

/// Tables with one entry or two, and maybe a metatable, and the fault that keeps them from being data. The key is looked at before
/// the value, and no key of a cleared entry; a table's metatable before its entries, and that of a table which it holds behind
/// them. A `classed` table is `setmetatable({}, {})`, an `object` one of `mw.html`.
fn rows() -> &'static str {
    "one=one => none
one=table => none
one=function => function
function=one => key
function=function => key
function=nil => none
table=one => key
object=one => key
one=object => metatable
one=classed => metatable
function=one function=nil => none
one=function | table => metatable
one=classed function=one => key"
}

fn rows_hold(rt: &impl Abort, alloc: Global, store: &mut Store) {
    for row in rows().lines() {
        holds(rt, row_holds(alloc, store, row), row);
    }
}

/// Tells the faults of tables of a new store.
fn tell_in_new_store(rt: &impl Abort, alloc: Global, seed: RandomState) {
    let arena = Bump::new(alloc);
    let mut store = Store::new(alloc, &arena, seed);
    rows_hold(rt, alloc, &mut store);
    let fault = take_out(alloc, &store, Value::Number(1)).err();
    holds(rt, fault == Some(DataFault::NotATable), "a number");
}

#[test]
fn the_first_fault_is_told(rt: HostRuntime) -> Result<(), Fail> {
    let seed = fixed_seed()?;
    tell_in_new_store(&rt, rt.alloc(), seed);
    Ok(())
}
