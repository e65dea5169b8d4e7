//! `listToText` (Scribunto, mw.text.listToText).
ghost use Rattle.std.specs.Prelude.{◌≡◌, ◌*◌, ◌+◌, ◌<◌, ◌≤◌, ◌+ℤ◌, ℕ, List as Items, [], ◌∷◌, pos, map, Ok, IfOk, IfErr, OnOk, MatchOption};
ghost use Rattle.mw_text.specs.Answers.{total};
ghost use Rattle.mw_text.specs.Joined.{joined};
ghost use Rattle.mw_ustrings.specs.LuaHeapHeap.{table_at};
ghost use Rattle.mw_ustrings.specs.LuaHeapTable.{border, get};
ghost use Rattle.mw_ustrings.specs.LuaMeaningBasic.{entries_from};
ghost use Rattle.mw_ustrings.specs.LuaHeapValue as kind;
ghost use Rattle.mw_ustrings.specs.LuaMeaningArguments.{gives_text};
ghost use Rattle.mw_ustrings.specs.LuaStoreSeen.{StoreView, seen};
ghost use Rattle.mw_ustrings.specs.LuaStoreParts.{IsOf, IsTableOf, IsLater};
ghost use Rattle.mw_ustrings.specs.LuaBasicArguments.{text_bytes};
ghost use Rattle.mw_ustrings.specs.LuaBasicSeen.{values_seen, AllOf, Paid, StopOf, AnswerOf, Refuses};
ghost use Rattle.mw_ustrings.specs.MwFramesCosts.{Pays};
ghost use Rattle.mw_texts.specs.Costs.{glue_charge};
ghost use Rattle.mw_ustrings.specs.LuaMeaningTexts as meaning;

use lua_string::{List, NoMemory};
use mw_text::{Bytes, list_to_text as joined_text};
use mw_ustrings::arguments::text_or;
use mw_ustrings::giving::{spend, text_value};
use mw_ustrings::{Left, Stop, Store, TableId, TextIn, Value, a_table, a_text, pay, rest};
use std::alloc::Global;

/// The number so far behind 1.
fn number_at(offset: u64) -> Value
    requires { offset < 9223372036854775807 }
    ensures of { (s : StoreView) → IsOf s result }
    ensures value { (texts : Items (Items ℕ))
        → seen texts result ≡ kind.Number (pos 1 +ℤ pos offset) }
{
    Value::Number((offset + 1) as i64)
}

/// The value of a table at the number so far behind 1.
fn value_at(store: &Store, table: TableId, offset: u64) -> Value
    requires table { IsTableOf store.now table }
    requires within { offset < 9223372036854775807 }
    ensures of { IsOf store.now result }
    ensures value { seen store.now.texts result
        ≡ get (table_at store.now.heap table.at).entries (kind.Number (pos 1 +ℤ pos offset)) }
{
    store.get(table, number_at(offset))
}

/// The values of a table at the numbers from 1 to one.
fn values_to(
    alloc: Global,
    store: &Store,
    table: TableId,
    count: u64,
) -> Result<List<Value>, NoMemory>
    requires table { IsTableOf store.now table }
    requires within { count ≤ 9223372036854775807 }
    ensures values { IfOk result (λ values.
        values_seen store.now.texts values
        ≡ entries_from count (pos 1) (table_at store.now.heap table.at).entries) }
    ensures of { IfOk result (AllOf store.now) }
{
    let mut values = List::new(alloc);
    'numbers: for offset in 0..count {
        values.push(value_at(store, table, offset))?;
    }
    Ok(values)
}

/// The border of a table.
fn border_of(store: &Store, table: TableId) -> u64
    requires { IsTableOf store.now table }
    ensures border { result ≡ border (table_at store.now.heap table.at).entries }
    ensures within { result ≤ 9223372036854775807 }
{
    let border = store.border(table);
    border.unsigned_abs()
}

/// The values of a table at the numbers from 1 to its border.
fn list_values(alloc: Global, store: &Store, table: TableId) -> Result<List<Value>, NoMemory>
    requires { IsTableOf store.now table }
    ensures values { IfOk result (λ values.
        values_seen store.now.texts values
        ≡ meaning.list_values (table_at store.now.heap table.at).entries) }
    ensures of { IfOk result (AllOf store.now) }
{
    values_to(alloc, store, table, border_of(store, table))
}

fn split_values(values: &[Value]) -> Option<(Value, &[Value])>
    ensures { MatchOption result (values.now ≡ []) (λ p. values.now ≡ p.0 ∷ p.1.now) }
{
    match values {
        [value, more @ ..] => Some((*value, more)),
        [] => None,
    }
}

/// Values as items: each must be a text or a number.
fn the_items<'b>(
    alloc: Global,
    store: &mut Store<'b>,
    values: &[Value],
) -> Result<List<TextIn<'b>>, Stop>
    requires { AllOf store.old values.now }
    ensures found { IfOk result (λ items.
        meaning.items_of (values_seen store.old.texts values.now) ≡ Ok (map text_bytes items)) }
    ensures same { OnOk result (store.new ≡ store.old) }
    ensures refused { IfErr result (Refuses
        (meaning.items_of (values_seen store.old.texts values.now)) store.old store.new) }
    ensures of { IfErr result (StopOf store.new) }
    ensures later { IsLater store.old store.new }
{
    let mut items = List::new(alloc);
    let mut left = values;
    'each: while let Some((value, more)) = split_values(left) {
        match a_text(alloc, store, 1, b"listToText", &[value]) {
            Ok(item) => items.push(item)?,
            Err(stop) => return Err(stop),
        }
        left = more;
    }
    Ok(items)
}

/// Takes a step for each byte of the items.
fn pay_items(left: &mut Left, items: &[TextIn]) -> Result<(), Stop>
    ensures { Pays (total (map text_bytes items.now)) left.old left.new result }
{
    'each: for item in items {
        pay(left, item.as_slice().len() as u64)?;
    }
    Ok(())
}

/// Takes so many steps so many times.
fn pay_times(left: &mut Left, steps: u64, times: u64) -> Result<(), Stop>
    ensures { Pays (steps * times) left.old left.new result }
{
    let _steps = left.steps;
    match steps.checked_mul(times) {
        Some(all) => pay(left, all),
        None => Err(spend(left)),
    }
}

/// Takes a step for each byte that stands between so many items.
fn pay_glue(left: &mut Left, separator: usize, conjunction: usize, count: usize) -> Result<(), Stop>
    ensures { Pays (glue_charge separator conjunction count) left.old left.new result }
{
    match count.checked_sub(2) {
        None => Ok(()),
        Some(separators) => {
            pay(left, conjunction as u64)?;
            pay_times(left, separator as u64, separators as u64)
        }
    }
}

/// Items with copies of their texts.
fn copy_items(alloc: Global, items: &[TextIn]) -> Result<List<Bytes>, NoMemory>
    ensures { IfOk result (λ copies. copies ≡ map text_bytes items.now) }
{
    let mut copies = List::new(alloc);
    'each: for item in items {
        let copy = Bytes::of(alloc, item.as_slice())?;
        copies.push(copy)?;
    }
    Ok(copies)
}

/// The items as a text, which has been paid for.
fn joined_items(
    alloc: Global,
    items: &[TextIn],
    separator: &[u8],
    conjunction: &[u8],
) -> Result<Vec<u8>, NoMemory>
    ensures { IfOk result (λ text.
        text.items ≡ joined separator.now conjunction.now (map text_bytes items.now)) }
{
    let copies = copy_items(alloc, items)?;
    let text = joined_text(alloc, copies.as_slice(), separator, conjunction)?;
    Ok(text)
}

/// The items are given as a text, after what it costs.
fn give_joined(
    alloc: Global,
    store: &mut Store,
    left: &mut Left,
    items: &[TextIn],
    separator: &[u8],
    conjunction: &[u8],
) -> Result<List<Value>, Stop>
    ensures answer { Paid
        (gives_text store.old.heap
        (joined separator.now conjunction.now (map text_bytes items.now)))
        store.old left.old store.new left.new result }
    ensures of { AnswerOf store.new result }
    ensures later { IsLater store.old store.new }
{
    pay_items(left, items)?;
    pay_glue(left, separator.len(), conjunction.len(), items.len())?;
    let made = joined_items(alloc, items, separator, conjunction)?;
    let values = text_value(alloc, store, made.as_slice())?;
    Ok(values)
}

/// `mw.text.listToText(t, separator, conjunction)`: the items with `conjunction`, by default ` and `, before the last one, and
/// `separator`, by default `, `, between the others.
pub fn list_to_text(
    alloc: Global,
    store: &mut Store,
    left: &mut Left,
    args: &[Value],
) -> Result<List<Value>, Stop>
    requires { AllOf store.old args.now }
    ensures answer { Paid
        (meaning.list_to_text (values_seen store.old.texts args.now) store.old.heap) store.old
        left.old store.new left.new result }
    ensures of { AnswerOf store.new result }
    ensures later { IsLater store.old store.new }
{
    let table = a_table(alloc, store, 1, b"listToText", args)?;
    let values = list_values(alloc, store, table)?;
    let items = the_items(alloc, store, values.as_slice())?;
    let others = rest(args);
    let separator = text_or(alloc, store, b", ", 2, b"listToText", others)?;
    let conjunction = text_or(alloc, store, b" and ", 3, b"listToText", rest(others))?;
    give_joined(
        alloc,
        store,
        left,
        items.as_slice(),
        separator.as_slice(),
        conjunction.as_slice(),
    )
}
