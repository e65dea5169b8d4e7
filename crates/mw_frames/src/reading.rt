//! Arguments that are read of a table (Scribunto, `frame:expandTemplate` and `frame:newChild`). Their texts are not copied.
ghost use Rattle.std.specs.Prelude.{◌≡◌, ℕ, ◌+◌, List as Items, ◌∷◌, [], Some, length, drop, IfOk, IfSome, MatchOption};
ghost use Rattle.lua_basic.specs.LuaHeapHeap.{table_at};
ghost use Rattle.lua_basic.specs.LuaMeaningValues as values;
ghost use Rattle.lua_basic.specs.LuaMeaningFrameMethods as meaning;
ghost use Rattle.lua_home.specs.LuaMeaningFrames.{bytes_of, args_charge};
ghost use Rattle.lua_basic.specs.LuaStoreSeen.{seen, seen_entry};
ghost use Rattle.lua_basic.specs.LuaStoreParts.{IsOf, IsTableOf, IsEntryOf};
ghost use Rattle.lua_basic.specs.Arguments.{text_bytes};
ghost use Rattle.std.specs.Option.{option_map};
ghost use Rattle.mw_frames.specs.Costs.{Pays, MayPay};
ghost use Rattle.mw_frames.specs.Reading.{arg_seen, args_seen, found_arg, found_args, is_read, IsPassed, IsRead};
ghost use Rattle.lua_basic.specs.LuaMeaningArguments.{passed};
ghost use Rattle.lua_basic.specs.LuaMeaningCharges.{argument_charge};
ghost use Rattle.lua_basic.specs.LuaMeaningScope.{Bytes};
ghost use Rattle.lua_basic.specs.LuaMeaningTag.{entry_attribute};

use crate::paying::{pay, pay_texts};
use lua_basic::charges::ARGUMENT_CHARGE;
use lua_basic::texts::{TextIn, text_in};
use lua_basic::values::is_nil;
use lua_basic::{Left, Stop, Store, TableId, Value};
use mw_frame::{List, NoMemory};
use std::alloc::Global;

/// An argument whose texts are those of a store, or digits of numbers.
#[derive(Drop)]
pub struct ArgText<'b> {
    pub name: TextIn<'b>,
    pub value: TextIn<'b>,
}

/// The text of a value as an argument: numbers give their digits, true gives `1`, and false the empty text.
fn arg_value<'b>(
    alloc: Global,
    store: &Store<'b>,
    value: Value,
) -> Result<Option<TextIn<'b>>, NoMemory>
    requires { IsOf store.now value }
    ensures { IfOk result (λ text.
        option_map text_bytes text ≡ meaning.arg_value (seen store.now.texts value)) }
{
    match value {
        Value::Bool(true) => Ok(Some(TextIn::Kept(b"1"))),
        Value::Bool(false) => Ok(Some(TextIn::Kept(b""))),
        Value::Number(_) => text_in(alloc, store, value),
        Value::Text(_) => text_in(alloc, store, value),
        Value::Nil => Ok(None),
        Value::Table(_) => Ok(None),
        Value::Closure(_) => Ok(None),
        Value::Builtin(_) => Ok(None),
        Value::Markup(_) => Ok(None),
    }
}

/// An entry as an argument, if it is one.
fn arg_of<'b>(
    alloc: Global,
    store: &Store<'b>,
    key: Value,
    value: Value,
) -> Result<Option<ArgText<'b>>, NoMemory>
    requires key { IsOf store.now key }
    requires value { IsOf store.now value }
    ensures { IfOk result (λ arg.
        meaning.arg_of (values.text_in (seen store.now.texts key))
        (meaning.arg_value (seen store.now.texts value))
        ≡ found_arg arg) }
{
    let Some(name) = text_in(alloc, store, key)? else {
        return Ok(None);
    };
    let Some(value) = arg_value(alloc, store, value)? else {
        return Ok(None);
    };
    Ok(Some(ArgText { name, value }))
}

/// The entry of a table at a place, before those behind it.
pub fn entry_at(store: &Store, table: TableId, place: usize) -> Option<(Value, Value)>
    requires { IsTableOf store.now table }
    ensures entry { MatchOption result (drop place (table_at store.now.heap table.at).entries ≡ [])
        (λ e.
        drop place (table_at store.now.heap table.at).entries
        ≡ seen_entry store.now.texts e
        ∷ drop (place + 1) (table_at store.now.heap table.at).entries) }
    ensures of { IfSome result (IsEntryOf store.now) }
{
    match store.entry(table, place) {
        Some(entry) => Some(entry),
        None => None,
    }
}

/// Reads an entry behind those that were read, if it is not cleared; or false, where it is no argument.
fn read_entry<'b>(
    alloc: Global,
    store: &Store<'b>,
    args: &mut List<ArgText<'b>>,
    entry: (Value, Value),
) -> Result<bool, NoMemory>
    requires { IsEntryOf store.now entry }
    ensures { IfOk result (IsRead (args_seen args.old) (args_seen args.new)
        (seen_entry store.now.texts entry)) }
{
    let (key, value) = entry;
    if is_nil(value) {
        return Ok(true);
    }
    let Some(arg) = arg_of(alloc, store, key, value)? else {
        return Ok(false);
    };
    args.push(arg)?;
    Ok(true)
}

/// All entries of a table that are not cleared, in order; or None where one of them is no argument.
pub fn read_args<'b>(
    alloc: Global,
    store: &Store<'b>,
    table: TableId,
) -> Result<Option<List<ArgText<'b>>>, NoMemory>
    requires { IsTableOf store.now table }
    ensures { IfOk result (λ args.
        meaning.read_args (table_at store.now.heap table.at).entries ≡ found_args args) }
{
    let mut args = List::new(alloc);
    'places: for place in 0..usize::MAX {
        match entry_at(store, table, place) {
            None => return Ok(Some(args)),
            Some(entry) => {
                if !read_entry(alloc, store, &mut args, entry)? {
                    return Ok(None);
                }
            }
        }
    }
    Err(NoMemory)
}

/// Whether a value is written as a text: a text, a number or a truth value.
fn is_written(value: Value) -> bool
    ensures args { (texts : Items (Items ℕ)) (name : Bytes)
        → result ≡ is_read (meaning.arg_of (Some name) (meaning.arg_value (seen texts value))) }
{
    match value {
        Value::Bool(true) => true,
        Value::Bool(false) => true,
        Value::Number(_) => true,
        Value::Text(_) => true,
        Value::Nil => false,
        Value::Table(_) => false,
        Value::Closure(_) => false,
        Value::Builtin(_) => false,
        Value::Markup(_) => false,
    }
}

/// Whether an entry is one of names and their values: its key is a text or a number, and its value is written as a text.
fn is_named(key: Value, value: Value) -> bool
    ensures { (texts : Items (Items ℕ))
        → result ≡ is_read (meaning.entry_arg (seen texts key, seen texts value)) }
{
    match key {
        Value::Number(_) => is_written(value),
        Value::Text(_) => is_written(value),
        Value::Nil => false,
        Value::Bool(_) => false,
        Value::Table(_) => false,
        Value::Closure(_) => false,
        Value::Builtin(_) => false,
        Value::Markup(_) => false,
    }
}

/// Takes a step for an entry that is cleared. True where the walk goes on behind it: an entry that is none ends it.
fn pass_entry(store: &Store, left: &mut Left, entry: (Value, Value)) -> Result<bool, Stop>
    requires { IsEntryOf store.now entry }
    ensures { IsPassed (seen_entry store.now.texts entry) left.old left.new result }
{
    let (key, value) = entry;
    if is_nil(value) {
        pay(left, 1)?;
        return Ok(true);
    }
    Ok(is_named(key, value))
}

/// Takes a step for each cleared entry of a table of names and their values, up to the first entry that is none.
pub fn pay_passed(store: &Store, left: &mut Left, table: TableId) -> Result<(), Stop>
    requires { IsTableOf store.now table }
    ensures args { MayPay (passed meaning.entry_arg (table_at store.now.heap table.at).entries)
        left.old left.new result }
    ensures attributes { MayPay (passed entry_attribute (table_at store.now.heap table.at).entries)
        left.old left.new result }
{
    'places: for place in 0..usize::MAX {
        match entry_at(store, table, place) {
            None => return Ok(()),
            Some(entry) => {
                if !pass_entry(store, left, entry)? {
                    return Ok(());
                }
            }
        }
    }
    Err(Stop::NoMemory)
}

/// Takes a step for each byte of the names and values of arguments.
pub fn pay_bytes(left: &mut Left, args: &[ArgText]) -> Result<(), Stop>
    ensures { Pays (bytes_of (args_seen args.now)) left.old left.new result }
{
    'texts: for arg in args {
        pay_texts(left, arg.name.as_slice(), arg.value.as_slice())?;
    }
    Ok(())
}

/// Takes what an argument of a frame costs.
fn pay_one(left: &mut Left, arg: &ArgText) -> Result<(), Stop>
    ensures { Pays
        (argument_charge + length (arg_seen arg.now).name + length (arg_seen arg.now).value)
        left.old left.new result }
{
    pay(left, ARGUMENT_CHARGE)?;
    pay_texts(left, arg.name.as_slice(), arg.value.as_slice())
}

/// Takes what arguments cost where they stand in a frame.
pub fn pay_read(left: &mut Left, args: &[ArgText]) -> Result<(), Stop>
    ensures { Pays (args_charge (args_seen args.now)) left.old left.new result }
{
    'texts: for arg in args {
        pay_one(left, arg)?;
    }
    Ok(())
}
