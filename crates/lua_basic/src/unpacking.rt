//! `unpack` (manual 5.1).
ghost use Rattle.std.specs.Prelude.{◌≡◌, ◌<◌, ◌^◌, ◌+ℤ◌, ◌<ℤ◌, ◌≤ℤ◌, pos, IfOk, IfSome, MatchOption};
ghost use Rattle.lua_store.specs.LuaHeapHeap.{table_at};
ghost use Rattle.lua_store.specs.LuaHeapTable.{get};
ghost use Rattle.lua_meaning.specs.LuaHeapValue as kind;
ghost use Rattle.lua_store.specs.Seen.{seen};
ghost use Rattle.lua_meaning.specs.Basic as meaning;
ghost use Rattle.lua_store.specs.Parts.{IsOf, IsTableOf, IsLater};
ghost use Rattle.lua_basic.specs.Seen.{values_seen, AllOf, Paid, AnswerOf};
ghost use Rattle.lua_basic.specs.declared.stop.Stop.TheVariants as stop;
ghost use Rattle.lua_basic.specs.Unpack.{unpacked};

use crate::arguments::{a_table, number_or};
use crate::stop::{Stop, pay};
use crate::values::rest;
use lua_number::{Left, NoMemory};
use lua_store::{List, Store, TableId, Value};
use std::alloc::Global;

/// How many whole numbers there are from one to another, or None for 2^64.
fn count_between(first: i64, last: i64) -> Option<u64>
    ensures count { MatchOption result (meaning.count_between first last ≡ 2 ^ 64) (λ n.
        meaning.count_between first last ≡ n) }
    ensures within { IfSome result (λ n. (first +ℤ pos n) ≤ℤ pos 9223372036854775808) }
{
    if last < first {
        return Some(0);
    }
    last.abs_diff(first).checked_add(1)
}

/// No step is left.
fn spend(left: &mut Left) -> Stop
    ensures stop_ { result ≡ stop.Spent }
    ensures rest { left.new ≡ record left.old { steps = 0 } }
    ensures within { left.old.steps < 2 ^ 64 }
{
    let _steps = left.steps;
    left.steps = 0;
    Stop::Spent
}

/// The number so far behind the first one.
fn number_at(first: i64, offset: u64) -> i64
    requires { (first +ℤ pos offset) <ℤ pos 9223372036854775808 }
    ensures { result ≡ first +ℤ pos offset }
{
    match first.checked_add_unsigned(offset) {
        Some(at) => at,
        None => unreachable!(),
    }
}

/// The value of a table at a number.
fn value_at(store: &Store, table: TableId, first: i64, offset: u64) -> Value
    requires table { IsTableOf store.now table }
    requires within { (first +ℤ pos offset) <ℤ pos 9223372036854775808 }
    ensures of { IsOf store.now result }
    ensures value { seen store.now.texts result
        ≡ get (table_at store.now.heap table.at).entries (kind.Number (first +ℤ pos offset)) }
{
    store.get(table, Value::Number(number_at(first, offset)))
}

/// The values of a table at so many numbers.
fn entries_from(
    alloc: Global,
    store: &Store,
    table: TableId,
    first: i64,
    count: u64,
) -> Result<List<Value>, NoMemory>
    requires table { IsTableOf store.now table }
    requires within { (first +ℤ pos count) ≤ℤ pos 9223372036854775808 }
    ensures values { IfOk result (λ values.
        values_seen store.now.texts values
        ≡ meaning.entries_from count first (table_at store.now.heap table.at).entries) }
    ensures of { IfOk result (AllOf store.now) }
{
    let mut values = List::new(alloc);
    'numbers: for offset in 0..count {
        values.push(value_at(store, table, first, offset))?;
    }
    Ok(values)
}

/// The entries are read, each for a step.
fn unpack_between(
    alloc: Global,
    store: &mut Store,
    left: &mut Left,
    table: TableId,
    first: i64,
    last: i64,
) -> Result<List<Value>, Stop>
    requires { IsTableOf store.old table }
    ensures answer { Paid (unpacked store.old.heap table.at first last) store.old left.old
        store.new left.new result }
    ensures of { AnswerOf store.new result }
    ensures same { store.new ≡ store.old }
{
    let Some(count) = count_between(first, last) else {
        return Err(spend(left));
    };
    pay(left, count)?;
    let values = entries_from(alloc, store, table, first, count)?;
    Ok(values)
}

/// `unpack(t, i, j)`: the values at the numbers from i to j, or from 1 to the border. Each costs a step.
pub fn unpack(
    alloc: Global,
    store: &mut Store,
    left: &mut Left,
    args: &[Value],
) -> Result<List<Value>, Stop>
    requires { AllOf store.old args.now }
    ensures answer { Paid (meaning.unpack (values_seen store.old.texts args.now) store.old.heap)
        store.old left.old store.new left.new result }
    ensures of { AnswerOf store.new result }
    ensures later { IsLater store.old store.new }
{
    let table = a_table(alloc, store, 1, b"unpack", args)?;
    let others = rest(args);
    let first = number_or(alloc, store, 1, 2, b"unpack", others)?;
    let border = store.border(table);
    let last = number_or(alloc, store, border, 3, b"unpack", rest(others))?;
    unpack_between(alloc, store, left, table, first, last)
}
