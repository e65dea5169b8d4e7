//! Values of a table are read, one place after another, up to the first one that a test refuses.
ghost use Rattle.std.specs.Prelude.{◌≡◌, ◌+ℤ◌, ◌<◌, ◌≤◌, ℕ, pos, List as Items, MatchOption};
ghost use Rattle.lua_basic.specs.LuaHeapHeap.{table_at};
ghost use Rattle.lua_basic.specs.LuaMeaningBasic.{entries_from, count_between};
ghost use Rattle.lua_basic.specs.LuaStoreSeen.{seen};
ghost use Rattle.lua_basic.specs.LuaStoreParts.{IsTableOf};
ghost use Rattle.lua_basic.specs.LuaMeaningTableLibrary as meaning;
ghost use Rattle.lua_tables.specs.Walked.{test_of, Walks};

use crate::paying::take;
use lua_basic::{Left, List, Stop, Store, TableId, Value};
use std::alloc::Global;

/// What the values have to be.
#[derive(Clone, Copy, Debug, PartialEq, Eq)]
pub enum Wanted {
    /// Strings and numbers.
    Part,
    /// Of the kind of the first one, which is a string or a number, where there are two of them or more.
    Like(u64, Value),
}

/// What was read.
#[derive(Drop)]
pub enum Walked {
    /// All values.
    Passed(List<Value>),
    /// So many values, and behind them one that is not what was wanted.
    Refused(u64, Value),
}

/// Whether a value is a string or a number.
fn is_part(value: Value) -> bool
    ensures { (texts : Items (Items ℕ)) → result ≡ meaning.is_part (seen texts value) }
{
    match value {
        Value::Number(_) => true,
        Value::Text(_) => true,
        Value::Nil => false,
        Value::Bool(_) => false,
        Value::Table(_) => false,
        Value::Closure(_) => false,
        Value::Builtin(_) => false,
        Value::Markup(_) => false,
    }
}

/// Whether both are numbers, or both are strings.
fn goes_with(one: Value, value: Value) -> bool
    ensures { (texts : Items (Items ℕ)) → result ≡ meaning.goes_with (seen texts one) (seen texts value) }
{
    match one {
        Value::Number(_) => is_number(value),
        Value::Text(_) => is_string(value),
        Value::Nil => false,
        Value::Bool(_) => false,
        Value::Table(_) => false,
        Value::Closure(_) => false,
        Value::Builtin(_) => false,
        Value::Markup(_) => false,
    }
}

/// Whether a value is a number.
pub(crate) fn is_number(value: Value) -> bool
    ensures { (texts : Items (Items ℕ)) → result ≡ meaning.is_number (seen texts value) }
{
    match value {
        Value::Number(_) => true,
        Value::Text(_) => false,
        Value::Nil => false,
        Value::Bool(_) => false,
        Value::Table(_) => false,
        Value::Closure(_) => false,
        Value::Builtin(_) => false,
        Value::Markup(_) => false,
    }
}

/// Whether a value is a string.
fn is_string(value: Value) -> bool
    ensures { (texts : Items (Items ℕ)) → result ≡ meaning.is_string (seen texts value) }
{
    match value {
        Value::Text(_) => true,
        Value::Number(_) => false,
        Value::Nil => false,
        Value::Bool(_) => false,
        Value::Table(_) => false,
        Value::Closure(_) => false,
        Value::Builtin(_) => false,
        Value::Markup(_) => false,
    }
}

/// Whether a value may stand in a list of so many that begins with another one.
fn may_stand(count: u64, one: Value, value: Value) -> bool
    ensures { (texts : Items (Items ℕ)) → result ≡ meaning.may_stand count (seen texts one) (seen texts value) }
{
    count <= 1 || goes_with(one, value)
}

/// Whether a value is what is wanted.
fn passes(wanted: Wanted, value: Value) -> bool
    ensures { (texts : Items (Items ℕ)) → result ≡ test_of texts wanted (seen texts value) }
{
    match wanted {
        Wanted::Part => is_part(value),
        Wanted::Like(count, one) => may_stand(count, one, value),
    }
}

/// The place so far behind the first one, where it is not past the last one.
fn place_within(first: i64, offset: u64, last: i64) -> Option<i64>
    ensures { MatchOption result (count_between first last ≤ offset) (λ place. (offset < count_between first last) × (place ≡ first +ℤ pos offset)) }
{
    let Some(place) = first.checked_add_unsigned(offset) else {
        return None;
    };
    if place <= last { Some(place) } else { None }
}

/// Reads the values from one place to another, each for a step, up to the first that is not what is wanted.
pub(crate) fn walk(
    alloc: Global,
    store: &Store,
    left: &mut Left,
    table: TableId,
    first: i64,
    last: i64,
    wanted: Wanted,
) -> Result<Walked, Stop>
    requires { IsTableOf store.now table }
    ensures { let vs = entries_from (count_between first last) first (table_at store.now.heap table.at).entries in
        Walks store.now vs (meaning.walk (test_of store.now.texts wanted) vs) left.old left.new result }
{
    let mut values = List::new(alloc);
    'places: for offset in 0..u64::MAX {
        match place_within(first, offset, last) {
            Some(place) => {
                take(left, 1)?;
                let value = store.get(table, Value::Number(place));
                if !passes(wanted, value) {
                    return Ok(Walked::Refused(offset, value));
                }
                values.push(value)?;
            }
            None => return Ok(Walked::Passed(values)),
        }
    }
    // so many values do not fit in memory
    Err(Stop::NoMemory)
}
