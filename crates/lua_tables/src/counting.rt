//! `maxn` (manual 5.5).
ghost use Rattle.std.specs.Prelude.{◌≡◌, ℕ, List as Items};
ghost use Rattle.lua_basic.specs.LuaHeapHeap.{table_at};
ghost use Rattle.lua_basic.specs.LuaStoreSeen.{seen};
ghost use Rattle.lua_basic.specs.LuaStoreParts.{IsTableOf, IsLater};
ghost use Rattle.lua_basic.specs.Seen.{values_seen, AllOf, Paid, AnswerOf};
ghost use Rattle.lua_tables.specs.Counted.{Counts};
ghost use Rattle.lua_basic.specs.LuaMeaningTableLibrary as meaning;

use crate::paying::take;
use lua_basic::arguments::a_table;
use lua_basic::values::{is_nil, single};
use lua_basic::{Left, List, Stop, Store, TableId, Value};
use std::alloc::Global;

/// The number that a key is, or 0.
fn number_key(key: Value) -> i64
    ensures { (texts : Items (Items ℕ)) → result ≡ meaning.number_key (seen texts key) }
{
    match key {
        Value::Number(number) => number,
        Value::Nil => 0,
        Value::Bool(_) => 0,
        Value::Text(_) => 0,
        Value::Table(_) => 0,
        Value::Closure(_) => 0,
        Value::Builtin(_) => 0,
        Value::Markup(_) => 0,
    }
}

/// The greater one of a number and the key of an entry that is not cleared.
fn greater_key(number: i64, key: Value, value: Value) -> i64
    ensures { (texts : Items (Items ℕ)) → result ≡ meaning.greater_key number (seen texts key, seen texts value) }
{
    if is_nil(value) {
        return number;
    }
    number.max(number_key(key))
}

/// The greatest number that is a key with a value, or 0. Each entry costs a step.
fn greatest_key(store: &Store, left: &mut Left, table: TableId) -> Result<i64, Stop>
    requires { IsTableOf store.now table }
    ensures { Counts (table_at store.now.heap table.at).entries left.old left.new result }
{
    let mut greatest = 0;
    'entries: for at in 0..usize::MAX {
        match store.entry(table, at) {
            Some((key, value)) => {
                take(left, 1)?;
                greatest = greater_key(greatest, key, value);
            }
            None => return Ok(greatest),
        }
    }
    // so many entries do not fit in memory
    Err(Stop::NoMemory)
}

/// `maxn(t)`: the greatest number that is a key with a value, or 0. Each entry, cleared or not, costs a step.
pub fn maxn(
    alloc: Global,
    store: &mut Store,
    left: &mut Left,
    args: &[Value],
) -> Result<List<Value>, Stop>
    requires { AllOf store.old args.now }
    ensures answer { Paid (meaning.maxn (values_seen store.old.texts args.now) store.old.heap) store.old left.old store.new left.new result }
    ensures of { AnswerOf store.new result }
    ensures later { IsLater store.old store.new }
{
    let table = a_table(alloc, store, 1, b"maxn", args)?;
    let greatest = greatest_key(store, left, table)?;
    let values = single(alloc, Value::Number(greatest))?;
    Ok(values)
}
