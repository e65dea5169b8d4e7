//! `next` (manual 5.1).
ghost use Rattle.std.specs.Prelude.{◌≡◌, ℕ, List, IfOk};
ghost use Rattle.lua_store.specs.LuaHeapHeap.{table_at};
ghost use Rattle.lua_meaning.specs.Basic as meaning;
ghost use Rattle.lua_store.specs.Seen.{StoreView, seen};
ghost use Rattle.lua_store.specs.Parts.{IsOf, IsTableOf, IsLater};
ghost use Rattle.lua_basic.specs.Seen.{values_seen, AllOf, Paid, AnswerOf};

use crate::arguments::a_table;
use crate::messages::fail;
use crate::stop::{Stop, pay};
use crate::values::{is_nil, pair, second, single};
use lua_number::{Left, NoMemory};
use lua_store::{List, Store, TableId, Value};
use std::alloc::Global;

/// The key and the value of an entry, or nil alone at the end.
fn key_and_value(alloc: Global, key: Value, value: Value) -> Result<List<Value>, NoMemory>
    ensures values { IfOk result (λ values.
        (texts : List (List ℕ))
        → values_seen texts values
        ≡ meaning.key_and_value (seen texts key) (seen texts value)) }
    ensures of { IfOk result (λ values.
        (s : StoreView) → IsOf s key → IsOf s value → AllOf s values) }
{
    if is_nil(key) {
        single(alloc, Value::Nil)
    } else {
        pair(alloc, key, value)
    }
}

/// The entry behind a key, or the first one for nil. Each cleared entry that is passed costs a step.
fn next_entry(
    alloc: Global,
    store: &mut Store,
    left: &mut Left,
    table: TableId,
    key: Value,
) -> Result<List<Value>, Stop>
    requires table { IsTableOf store.old table }
    requires key { IsOf store.old key }
    ensures answer { Paid
        (meaning.next_entry store.old.heap
        (meaning.behind (seen store.old.texts key) (table_at store.old.heap table.at).entries))
        store.old left.old store.new left.new result }
    ensures of { AnswerOf store.new result }
    ensures later { IsLater store.old store.new }
{
    match store.next(table, key) {
        Ok(step) => {
            pay(left, step.passed as u64)?;
            let values = key_and_value(alloc, step.key, step.value)?;
            Ok(values)
        }
        Err(_) => Err(fail(store, b"invalid key to 'next'")),
    }
}

/// `next(t, k)`.
pub fn next(
    alloc: Global,
    store: &mut Store,
    left: &mut Left,
    args: &[Value],
) -> Result<List<Value>, Stop>
    requires { AllOf store.old args.now }
    ensures answer { Paid (meaning.next (values_seen store.old.texts args.now) store.old.heap)
        store.old left.old store.new left.new result }
    ensures of { AnswerOf store.new result }
    ensures later { IsLater store.old store.new }
{
    let table = a_table(alloc, store, 1, b"next", args)?;
    next_entry(alloc, store, left, table, second(args))
}
