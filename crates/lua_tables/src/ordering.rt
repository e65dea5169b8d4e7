//! Values are put in order: numbers, and strings by their bytes.
ghost use Rattle.std.specs.Prelude.{◌≡◌, ◌++◌, ◌∷◌, [], ℕ, List as Items, map, length, IfOk, OnOk};
ghost use Rattle.std.specs.Ordering.{nat_cmp, int_cmp};
ghost use Rattle.std.specs.Cmp.Lexicographic.{slice_cmp};
ghost use Rattle.lua_basic.specs.LuaHeapValue as kind;
ghost use Rattle.lua_basic.specs.LuaMeaningValues.{first};
ghost use Rattle.lua_basic.specs.LuaStoreSeen.{StoreView, seen};
ghost use Rattle.lua_basic.specs.Seen.{values_seen, AllOf};
ghost use Rattle.lua_tables.specs.Kinds as kinds;
ghost use Rattle.lua_basic.specs.LuaMeaningTableLibrary as meaning;

use crate::distinct::{counted, named_texts, spread_out};
use crate::places::split;
use crate::walking::is_number;
use lua_basic::values::{copy, first};
use lua_basic::{List, Store, Value};
use lua_number::NoMemory;
use std::alloc::Global;

/// A value behind numbers, if it is one.
fn add_number(numbers: &mut List<i64>, value: Value) -> Result<(), NoMemory>
    ensures { OnOk result ((texts : Items (Items ℕ)) → numbers.new ≡ numbers.old ++ kinds.numbers_in (seen texts value ∷ [])) }
{
    match value {
        Value::Number(number) => numbers.push(number),
        Value::Text(_) => Ok(()),
        Value::Nil => Ok(()),
        Value::Bool(_) => Ok(()),
        Value::Table(_) => Ok(()),
        Value::Closure(_) => Ok(()),
        Value::Builtin(_) => Ok(()),
        Value::Markup(_) => Ok(()),
    }
}

/// The numbers among values.
fn numbers_in(alloc: Global, values: &[Value]) -> Result<List<i64>, NoMemory>
    ensures { IfOk result (λ numbers. (texts : Items (Items ℕ)) → numbers ≡ kinds.numbers_in (values_seen texts values.now)) }
{
    let mut numbers = List::new(alloc);
    let mut rest = values;
    'values: while let Some((value, more)) = split(rest) {
        add_number(&mut numbers, value)?;
        rest = more;
    }
    Ok(numbers)
}

/// Numbers as values.
fn number_values(alloc: Global, numbers: &[i64]) -> Result<List<Value>, NoMemory>
    ensures values { IfOk result (λ values. (texts : Items (Items ℕ)) → values_seen texts values ≡ map kind.Number numbers.now) }
    ensures of { IfOk result (λ values. (s : StoreView) → AllOf s values) }
{
    let mut values = List::new(alloc);
    let mut rest = numbers;
    'numbers: while let Some((number, more)) = split(rest) {
        values.push(Value::Number(number))?;
        rest = more;
    }
    Ok(values)
}

/// The numbers among values, in order.
fn sorted_numbers(alloc: Global, values: &[Value]) -> Result<List<Value>, NoMemory>
    ensures values { IfOk result (λ sorted. (texts : Items (Items ℕ)) → values_seen texts sorted ≡ map kind.Number (meaning.in_order int_cmp (kinds.numbers_in (values_seen texts values.now)))) }
    ensures of { IfOk result (λ sorted. (s : StoreView) → AllOf s sorted) }
{
    let mut numbers = numbers_in(alloc, values)?.into_vec();
    numbers.sort_unstable();
    let sorted = number_values(alloc, numbers.as_slice())?;
    Ok(sorted)
}

/// The strings among values, in order of their bytes. No two of one text are compared.
fn sorted_texts(alloc: Global, store: &Store, values: &[Value]) -> Result<List<Value>, NoMemory>
    requires { AllOf store.now values.now }
    ensures values { IfOk result (λ sorted. values_seen store.now.texts sorted ≡ map kind.Text (meaning.in_order (slice_cmp nat_cmp) (kinds.texts_in (values_seen store.now.texts values.now)))) }
    ensures of { IfOk result (AllOf store.now) }
{
    let counts = counted(alloc, values)?;
    let mut named = named_texts(alloc, store, &counts)?;
    named.sort_unstable_by(|a, b| a.bytes.cmp(b.bytes));
    let sorted = spread_out(alloc, named.as_slice())?;
    Ok(sorted)
}

/// Values in order, which are numbers alone or strings alone, where there are two or more.
pub(crate) fn in_order(
    alloc: Global,
    store: &Store,
    values: &[Value],
) -> Result<List<Value>, NoMemory>
    requires of { AllOf store.now values.now }
    requires kinds { meaning.walk (meaning.may_stand (length values.now) (first (values_seen store.now.texts values.now))) (values_seen store.now.texts values.now) ≡ meaning.PassedAll }
    ensures values { IfOk result (λ sorted. values_seen store.now.texts sorted ≡ meaning.in_order meaning.value_cmp (values_seen store.now.texts values.now)) }
    ensures of { IfOk result (AllOf store.now) }
{
    if values.len() <= 1 {
        return copy(alloc, values);
    }
    if is_number(first(values)) {
        let numbers = sorted_numbers(alloc, values)?;
        return Ok(numbers);
    }
    let texts = sorted_texts(alloc, store, values)?;
    Ok(texts)
}
