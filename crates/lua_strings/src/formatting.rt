//! `string.format` (manual 5.4).
ghost use Rattle.std.specs.Prelude.{◌≡◌, ◌+◌, List as Items, map, drop, IfOk, codes};
ghost use Rattle.lua_format.specs.Format.{formatted, HasLength};
ghost use Rattle.lua_basic.specs.LuaHeapValue as kind;
ghost use Rattle.lua_basic.specs.LuaMeaningMessages.{bad_argument, expected};
ghost use Rattle.lua_basic.specs.LuaMeaningArguments.{fails};
ghost use Rattle.lua_basic.specs.LuaStoreSeen.{seen};
ghost use Rattle.lua_basic.specs.LuaStoreParts.{IsOf, IsLater};
ghost use Rattle.lua_basic.specs.Seen.{values_seen, AllOf, Stops, StopOf, Paid, AnswerOf};
ghost use Rattle.lua_basic.specs.LuaMeaningChecks.{out_of_range};
ghost use Rattle.lua_basic.specs.LuaMeaningFormats as meaning;

use crate::messages::{refuse, refuse_kind};
use crate::paying::{split_values, take, take_texts, text_value};
use lua_basic::arguments::a_text;
use lua_basic::messages::fail;
use lua_basic::values::rest;
use lua_basic::{Left, Stop, Store, Value};
use lua_format::{Bytes, FormatFault, FormatValue, Want, format_length};
use lua_pattern::List;
use lua_string::NoMemory;
use std::alloc::Global;

/// A value as a format takes it, with a copy of its text.
fn format_value(alloc: Global, store: &Store, value: Value) -> Result<FormatValue, NoMemory>
    requires { IsOf store.now value }
    ensures { IfOk result (λ made. made ≡ meaning.format_value (seen store.now.texts value)) }
{
    match value {
        Value::Number(n) => Ok(FormatValue::Number(n)),
        Value::Text(text) => {
            let copy = Bytes::of(alloc, store.bytes(text))?;
            Ok(FormatValue::Text(copy))
        }
        Value::Nil => Ok(FormatValue::Other),
        Value::Bool(_) => Ok(FormatValue::Other),
        Value::Table(_) => Ok(FormatValue::Other),
        Value::Closure(_) => Ok(FormatValue::Other),
        Value::Builtin(_) => Ok(FormatValue::Other),
        Value::Markup(_) => Ok(FormatValue::Other),
    }
}

/// Values as a format takes them. Their bytes are paid for already.
fn format_values(
    alloc: Global,
    store: &Store,
    values: &[Value],
) -> Result<List<FormatValue>, NoMemory>
    requires { AllOf store.now values.now }
    ensures { IfOk result (λ made.
        made ≡ map meaning.format_value (values_seen store.now.texts values.now)) }
{
    let mut made = List::new(alloc);
    let mut rest = values;
    'values: while let Some((value, more)) = split_values(rest) {
        let item = format_value(alloc, store, value)?;
        made.push(item)?;
        rest = more;
    }
    Ok(made)
}

/// The kind that is wanted, by its name.
fn wanted_kind(want: Want) -> &'static [u8]
    ensures { result.now ≡ meaning.wanted_kind want }
{
    match want {
        Want::Number => b"number",
        Want::Text => b"string",
    }
}

/// The values behind so many.
fn values_behind(values: &[Value], at: usize) -> &[Value]
    ensures { result.now ≡ drop at values.now }
{
    if values.len() <= at {
        return &[];
    }
    &values[at..]
}

/// The number of an argument of `format`, by the place of its value.
fn argument_number(at: usize) -> Result<u64, NoMemory>
    ensures { IfOk result (λ n. n ≡ at + 2) }
{
    match (at as u64).checked_add(2) {
        Some(n) => Ok(n),
        None => Err(NoMemory),
    }
}

/// A value is absent or of another kind than was wanted.
fn refuse_value(alloc: Global, store: &mut Store, at: usize, want: Want, given: &[Value]) -> Stop
    ensures raises { Stops
        (fails store.old.heap
        (bad_argument (at + 2) (codes "format")
        (expected (meaning.wanted_kind want) (values_seen store.old.texts given.now))))
        store.new result }
    ensures of { StopOf store.new result }
    ensures later { IsLater store.old store.new }
{
    match argument_number(at) {
        Ok(n) => refuse_kind(alloc, store, n, b"format", wanted_kind(want), given),
        Err(_) => Stop::NoMemory,
    }
}

/// A number is out of range.
fn refuse_number(alloc: Global, store: &mut Store, at: usize) -> Stop
    ensures raises { Stops (fails store.old.heap (out_of_range (at + 2) (codes "format")))
        store.new result }
    ensures of { StopOf store.new result }
    ensures later { IsLater store.old store.new }
{
    match argument_number(at) {
        Ok(n) => refuse(alloc, store, n, b"format", b"out of range"),
        Err(_) => Stop::NoMemory,
    }
}

/// A format has a fault.
fn refuse_format(alloc: Global, store: &mut Store, values: &[Value], fault: FormatFault) -> Stop
    ensures raises { Stops
        (fails store.old.heap
        (meaning.format_message (values_seen store.old.texts values.now) fault))
        store.new result }
    ensures of { StopOf store.new result }
    ensures later { IsLater store.old store.new }
{
    match fault {
        FormatFault::BadOption => fail(store, b"invalid option to 'format'"),
        FormatFault::Missing(at, want) => refuse_value(alloc, store, at, want, &[]),
        FormatFault::WrongKind(at, want) => {
            refuse_value(alloc, store, at, want, values_behind(values, at))
        }
        FormatFault::OutOfRange(at) => refuse_number(alloc, store, at),
        FormatFault::NoMemory => Stop::NoMemory,
    }
}

/// The text of a format, made after so many steps are taken as it has bytes.
fn give_formatted(
    alloc: Global,
    store: &mut Store,
    left: &mut Left,
    spec: &[u8],
    made: &[FormatValue],
    length: u64,
) -> Result<List<Value>, Stop>
    requires { HasLength (formatted made.now spec.now 0) length }
    ensures answer { (values : Items kind.Value)
        → Paid (meaning.laid_out values (formatted made.now spec.now 0) store.old.heap) store.old
        left.old store.new left.new result }
    ensures of { AnswerOf store.new result }
    ensures later { IsLater store.old store.new }
{
    take(left, length)?;
    match lua_format::format(alloc, spec, made) {
        Ok(text) => {
            let values = text_value(alloc, store, text.as_slice())?;
            Ok(values)
        }
        Err(_) => Err(Stop::NoMemory),
    }
}

/// A format and its values.
fn format_by(
    alloc: Global,
    store: &mut Store,
    left: &mut Left,
    spec: &[u8],
    values: &[Value],
) -> Result<List<Value>, Stop>
    requires { AllOf store.old values.now }
    ensures answer { Paid
        (meaning.format_by spec.now (values_seen store.old.texts values.now) store.old.heap)
        store.old left.old store.new left.new result }
    ensures of { AnswerOf store.new result }
    ensures later { IsLater store.old store.new }
{
    let made = format_values(alloc, store, values)?;
    match format_length(spec, made.as_slice()) {
        Ok(length) => give_formatted(alloc, store, left, spec, made.as_slice(), length),
        Err(fault) => Err(refuse_format(alloc, store, values, fault)),
    }
}

/// The format is the first argument.
fn format_given(
    alloc: Global,
    store: &mut Store,
    left: &mut Left,
    args: &[Value],
) -> Result<List<Value>, Stop>
    requires { AllOf store.old args.now }
    ensures answer { Paid
        (meaning.format_given (values_seen store.old.texts args.now) store.old.heap) store.old
        left.old store.new left.new result }
    ensures of { AnswerOf store.new result }
    ensures later { IsLater store.old store.new }
{
    let spec = a_text(alloc, store, 1, b"format", args)?;
    format_by(alloc, store, left, spec.as_slice(), rest(args))
}

/// `string.format(spec, ..)`: the bytes of all arguments that are texts are taken first, and then those of the text that is made.
pub fn format(
    alloc: Global,
    store: &mut Store,
    left: &mut Left,
    args: &[Value],
) -> Result<List<Value>, Stop>
    requires { AllOf store.old args.now }
    ensures answer { Paid (meaning.format (values_seen store.old.texts args.now) store.old.heap)
        store.old left.old store.new left.new result }
    ensures of { AnswerOf store.new result }
    ensures later { IsLater store.old store.new }
{
    take_texts(store, left, args)?;
    format_given(alloc, store, left, args)
}
