//! `concat` (manual 5.5).
ghost use Rattle.std.specs.Prelude.{◌≡◌, ◌++◌, ◌+◌, ◌+ℤ◌, ℕ, List as Items, pos, length, IfOk, OnOk};
ghost use Rattle.lua_basic.specs.LuaHeapHeap.{table_at};
ghost use Rattle.lua_basic.specs.LuaMeaningArguments.{fails, gives_text};
ghost use Rattle.lua_basic.specs.LuaStoreSeen.{seen};
ghost use Rattle.lua_basic.specs.LuaStoreParts.{IsOf, IsTableOf, IsLater};
ghost use Rattle.lua_basic.specs.Seen.{values_seen, AllOf, Paid, Stops, StopOf, AnswerOf};
ghost use Rattle.lua_basic.specs.Arguments.{text_bytes};
ghost use Rattle.lua_tables.specs.Paying.{Takes};
ghost use Rattle.lua_basic.specs.LuaMeaningTableLibrary as meaning;

use crate::checks::text_or;
use crate::paying::take_both;
use crate::places::{place_behind, split};
use crate::walking::{Walked, Wanted, walk};
use lua_basic::arguments::{a_table, number_or};
use lua_basic::messages::fail;
use lua_basic::texts::{TextIn, text_in};
use lua_basic::values::{rest, single};
use lua_basic::{Left, List, Stop, Store, TableId, Value};
use lua_number::NoMemory;
use std::alloc::Global;

/// The text of a string or a number; of any other value the empty one.
fn part<'b>(alloc: Global, store: &Store<'b>, value: Value) -> Result<TextIn<'b>, NoMemory>
    requires { IsOf store.now value }
    ensures { IfOk result (λ text. text_bytes text ≡ meaning.part (seen store.now.texts value)) }
{
    match text_in(alloc, store, value)? {
        Some(text) => Ok(text),
        None => Ok(TextIn::Kept(b"")),
    }
}

/// Takes the steps of a separator and a part.
fn take_part(
    alloc: Global,
    store: &Store,
    left: &mut Left,
    separator: &[u8],
    value: Value,
) -> Result<(), Stop>
    requires { IsOf store.now value }
    ensures { Takes (length (separator.now ++ meaning.part (seen store.now.texts value))) left.old left.new result }
{
    let text = part(alloc, store, value)?;
    take_both(left, separator.len() as u64, text.as_slice().len() as u64)
}

/// Takes the steps of values that stand behind a first one, each with a separator in front.
fn take_behind(
    alloc: Global,
    store: &Store,
    left: &mut Left,
    separator: &[u8],
    values: &[Value],
) -> Result<(), Stop>
    requires { AllOf store.now values.now }
    ensures { Takes (length (meaning.behind_parts separator.now (values_seen store.now.texts values.now))) left.old left.new result }
{
    let mut rest = values;
    'parts: while let Some((value, more)) = split(rest) {
        take_part(alloc, store, left, separator, value)?;
        rest = more;
    }
    Ok(())
}

/// Takes the steps of a first value, and of those behind it.
fn take_parts(
    alloc: Global,
    store: &Store,
    left: &mut Left,
    separator: &[u8],
    first: Value,
    others: &[Value],
) -> Result<(), Stop>
    requires first { IsOf store.now first }
    requires others { AllOf store.now others.now }
    ensures { Takes (length (meaning.part (seen store.now.texts first)) + length (meaning.behind_parts separator.now (values_seen store.now.texts others.now))) left.old left.new result }
{
    take_part(alloc, store, left, b"", first)?;
    take_behind(alloc, store, left, separator, others)
}

/// Takes the steps of the text that the values give together.
fn take_joined(
    alloc: Global,
    store: &Store,
    left: &mut Left,
    separator: &[u8],
    values: &[Value],
) -> Result<(), Stop>
    requires { AllOf store.now values.now }
    ensures { Takes (length (meaning.joined separator.now (values_seen store.now.texts values.now))) left.old left.new result }
{
    match split(values) {
        Some((first, others)) => take_parts(alloc, store, left, separator, first, others),
        None => Ok(()),
    }
}

/// More bytes behind a text.
fn add(text: &mut Vec<u8>, bytes: &[u8]) -> Result<(), NoMemory>
    ensures { OnOk result (text.new.items ≡ text.old.items ++ bytes.now) }
{
    match text.extend_from_slice(bytes) {
        Ok(_) => Ok(()),
        Err(_) => Err(NoMemory),
    }
}

/// A separator and a part behind a text.
fn add_part(
    alloc: Global,
    store: &Store,
    text: &mut Vec<u8>,
    separator: &[u8],
    value: Value,
) -> Result<(), NoMemory>
    requires { IsOf store.now value }
    ensures { OnOk result (text.new.items ≡ text.old.items ++ (separator.now ++ meaning.part (seen store.now.texts value))) }
{
    let part = part(alloc, store, value)?;
    add(text, separator)?;
    add(text, part.as_slice())
}

/// Values that stand behind a first one, each with a separator in front, behind a text.
fn add_behind(
    alloc: Global,
    store: &Store,
    text: &mut Vec<u8>,
    separator: &[u8],
    values: &[Value],
) -> Result<(), NoMemory>
    requires { AllOf store.now values.now }
    ensures { OnOk result (text.new.items ≡ text.old.items ++ meaning.behind_parts separator.now (values_seen store.now.texts values.now)) }
{
    let mut rest = values;
    'parts: while let Some((value, more)) = split(rest) {
        add_part(alloc, store, text, separator, value)?;
        rest = more;
    }
    Ok(())
}

/// The text that the values give together.
fn join(
    alloc: Global,
    store: &Store,
    separator: &[u8],
    values: &[Value],
) -> Result<Vec<u8>, NoMemory>
    requires { AllOf store.now values.now }
    ensures { IfOk result (λ text. text.items ≡ meaning.joined separator.now (values_seen store.now.texts values.now)) }
{
    let mut text = Vec::new(alloc);
    match split(values) {
        Some((first, others)) => {
            add_part(alloc, store, &mut text, b"", first)?;
            add_behind(alloc, store, &mut text, separator, others)?;
            Ok(text)
        }
        None => Ok(text),
    }
}

/// The values are joined; it costs the bytes of the text.
fn join_values(
    alloc: Global,
    store: &mut Store,
    left: &mut Left,
    separator: &[u8],
    values: &[Value],
) -> Result<List<Value>, Stop>
    requires { AllOf store.old values.now }
    ensures answer { Paid (gives_text store.old.heap (meaning.joined separator.now (values_seen store.old.texts values.now))) store.old left.old store.new left.new result }
    ensures of { AnswerOf store.new result }
    ensures later { IsLater store.old store.new }
{
    take_joined(alloc, store, left, separator, values)?;
    let text = join(alloc, store, separator, values)?;
    let id = store.text(text.as_slice())?;
    let values = single(alloc, Value::Text(id))?;
    Ok(values)
}

/// That neither a string nor a number stands at a place.
fn invalid_item(alloc: Global, place: i64) -> Result<Vec<u8>, NoMemory>
    ensures { IfOk result (λ text. text.items ≡ meaning.invalid_item place) }
{
    let mut text = Vec::new(alloc);
    add(&mut text, b"invalid value (at index ")?;
    let number = lua_number::text(alloc, place)?;
    add(&mut text, number.as_slice())?;
    add(&mut text, b") in table for 'concat'")?;
    Ok(text)
}

/// Neither a string nor a number stands at a place.
fn refuse_item(alloc: Global, store: &mut Store, place: i64) -> Stop
    ensures raises { Stops (fails store.old.heap (meaning.invalid_item place)) store.new result }
    ensures of { StopOf store.new result }
    ensures later { IsLater store.old store.new }
{
    match invalid_item(alloc, place) {
        Ok(message) => fail(store, message.as_slice()),
        Err(_) => Stop::NoMemory,
    }
}

/// The strings and numbers from one place to another are joined.
fn concat_between(
    alloc: Global,
    store: &mut Store,
    left: &mut Left,
    table: TableId,
    separator: &[u8],
    first: i64,
    last: i64,
) -> Result<List<Value>, Stop>
    requires { IsTableOf store.old table }
    ensures answer { Paid (meaning.concat_between table.at separator.now first last store.old.heap) store.old left.old store.new left.new result }
    ensures of { AnswerOf store.new result }
    ensures later { IsLater store.old store.new }
{
    let walked = walk(alloc, store, left, table, first, last, Wanted::Part)?;
    match &walked {
        Walked::Passed(values) => join_values(alloc, store, left, separator, values.as_slice()),
        Walked::Refused(offset, _) => {
            Err(refuse_item(alloc, store, place_behind(first, *offset)))
        }
    }
}

/// `concat(t, sep, i, j)`: the strings and numbers from i to j, or from 1 to the border, with sep between each two. Each entry that is
/// read costs a step, and the text its bytes.
pub fn concat(
    alloc: Global,
    store: &mut Store,
    left: &mut Left,
    args: &[Value],
) -> Result<List<Value>, Stop>
    requires { AllOf store.old args.now }
    ensures answer { Paid (meaning.concat (values_seen store.old.texts args.now) store.old.heap) store.old left.old store.new left.new result }
    ensures of { AnswerOf store.new result }
    ensures later { IsLater store.old store.new }
{
    let table = a_table(alloc, store, 1, b"concat", args)?;
    let others = rest(args);
    let separator = text_or(alloc, store, b"", 2, b"concat", others)?;
    let places = rest(others);
    let first = number_or(alloc, store, 1, 3, b"concat", places)?;
    let border = store.border(table);
    let last = number_or(alloc, store, border, 4, b"concat", rest(places))?;
    concat_between(alloc, store, left, table, separator.as_slice(), first, last)
}
