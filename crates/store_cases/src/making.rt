//! Tables that are taken out and copied.
ghost use Rattle.std.specs.Prelude.{IfOk};
ghost use Rattle.lua_store.specs.Parts.{IsTableOf, IsOf, IsLater};

use lua_store::{Store, TableId, Value};
use wk_base::NoMemory;

/// Sets a key of a table.
pub fn put(store: &mut Store, table: TableId, key: Value, value: Value) -> Result<(), NoMemory>
    requires table { IsTableOf store.old table }
    requires key { IsOf store.old key }
    requires value { IsOf store.old value }
    ensures { IsLater store.old store.new }
{
    match store.set(table, key, value) {
        Ok(_) => Ok(()),
        Err(_) => Err(NoMemory),
    }
}

/// Sets a key that is a text.
pub fn put_text(store: &mut Store, table: TableId, key: &[u8], value: Value) -> Result<(), NoMemory>
    requires table { IsTableOf store.old table }
    requires value { IsOf store.old value }
    ensures { IsLater store.old store.new }
{
    let key = Value::Text(store.text(key)?);
    put(store, table, key, value)
}

/// Gives a table a metatable, where it can be written.
pub fn give_meta(store: &mut Store, table: TableId, meta: Value)
    requires table { IsTableOf store.old table }
    requires meta { IsOf store.old meta }
    ensures { IsLater store.old store.new }
{
    if !store.is_frozen(table) {
        store.set_meta(table, meta);
    }
}

/// The value of a key of a table; nil where there is no table.
pub fn field(store: &Store, table: Value, key: Value) -> Value
    requires table { IsOf store.now table }
    requires key { IsOf store.now key }
    ensures { IsOf store.now result }
{
    match table {
        Value::Table(id) => store.get(id, key),
        _ => Value::Nil,
    }
}

/// The metatable of a table; nil where there is no table.
pub fn meta_of(store: &Store, table: Value) -> Value
    requires { IsOf store.now table }
    ensures { IsOf store.now result }
{
    match table {
        Value::Table(id) => store.meta(id),
        _ => Value::Nil,
    }
}

/// So many tables and one more, each of which holds the next one at 1; the first of them.
pub fn chain(store: &mut Store, count: i64) -> Result<TableId, NoMemory>
    ensures { IfOk result (IsTableOf store.new) }
{
    let mut first = store.new_table()?;
    for n in 0..count {
        let table = store.new_table()?;
        put(store, table, Value::Number(1), Value::Table(first))?;
        first = table;
    }
    Ok(first)
}

/// A table of so many keys, of which all but the last are cleared.
pub fn cleared(store: &mut Store, count: i64) -> Result<TableId, NoMemory>
    ensures { IfOk result (IsTableOf store.new) }
{
    let table = store.new_table()?;
    for n in 0..count {
        put(store, table, Value::Number(n), Value::Bool(true))?;
        put(store, table, Value::Number(n.wrapping_sub(1)), Value::Nil)?;
    }
    Ok(table)
}
