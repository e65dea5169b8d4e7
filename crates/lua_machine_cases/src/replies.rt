//! Answers to questions, written by hand.
ghost use Rattle.std.specs.Prelude.{◌≡◌, IfOk, OnOk};
ghost use Rattle.lua_machine.specs.LuaStoreParts.{IsOf, IsTableOf, IsLater};
ghost use Rattle.lua_machine.specs.Events.{AnswerOf};

use lua_code::{Bytes, List, NoMemory};
use lua_machine::{Answer, Left, Store, Value};
use lua_resolve::TableId;
use std::alloc::Global;

/// What a question is answered with.
#[derive(Drop)]
pub enum Told {
    Text(Vec<u8>),
    NoPage,
    Failed(Vec<u8>),
    /// A read-only table.
    Table(List<Entry>),
}

/// An entry of a table: its key and its value, each `#` with a number, `@` for the table itself, or a text.
#[derive(Drop)]
pub struct Entry {
    pub key: Vec<u8>,
    pub value: Vec<u8>,
}

/// What becomes of the steps that are left.
#[derive(Clone, Copy)]
pub enum Change {
    Leaves(u64),
    Takes(u64),
}

/// An answer, and what it makes of the steps.
#[derive(Drop)]
pub struct Reply {
    pub told: Told,
    pub change: Change,
}

/// Changes the steps that are left; whether what was taken was there.
pub fn change_steps(left: &mut Left, change: Change) -> bool
    ensures { left.new.calls ≡ left.old.calls }
{
    match change {
        Change::Leaves(steps) => {
            left.steps = steps;
            true
        }
        Change::Takes(steps) => left.take_steps(steps),
    }
}

/// The whole number that digits write, with a sign or without; other bytes are passed over.
fn number(text: &[u8]) -> i64 {
    let mut value = 0i64;
    for byte in text.iter().copied() {
        if byte.is_ascii_digit() {
            value = value
                .saturating_mul(10)
                .saturating_add(i64::from(byte - b'0'));
        }
    }
    match text {
        [b'-', ..] => value.wrapping_neg(),
        _ => value,
    }
}

/// A text as a value.
fn text_value(store: &mut Store, text: &[u8]) -> Result<Value, NoMemory>
    ensures of { IfOk result (IsOf store.new) }
    ensures later { OnOk result (IsLater store.old store.new) }
{
    let id = store.text(text)?;
    Ok(Value::Text(id))
}

/// The key or the value of an entry.
fn entry_value(store: &mut Store, table: TableId, text: &[u8]) -> Result<Value, NoMemory>
    requires { IsTableOf store.old table }
    ensures of { IfOk result (IsOf store.new) }
    ensures later { OnOk result (IsLater store.old store.new) }
{
    match text {
        [b'@'] => Ok(Value::Table(table)),
        [b'#', digits @ ..] => Ok(Value::Number(number(digits))),
        _ => text_value(store, text),
    }
}

/// Sets a key of a table that has room.
fn set(store: &mut Store, table: TableId, key: Value, value: Value) -> Result<(), NoMemory>
    requires table { IsTableOf store.old table }
    requires key { IsOf store.old key }
    requires value { IsOf store.old value }
    ensures { OnOk result (IsLater store.old store.new) }
{
    match store.set(table, key, value) {
        Ok(_) => Ok(()),
        Err(_) => Err(NoMemory),
    }
}

/// Sets an entry of a table.
fn set_entry(store: &mut Store, table: TableId, entry: &Entry) -> Result<(), NoMemory>
    requires { IsTableOf store.old table }
    ensures { OnOk result (IsLater store.old store.new) }
{
    let key = entry_value(store, table, entry.key.as_slice())?;
    let value = entry_value(store, table, entry.value.as_slice())?;
    set(store, table, key, value)?;
    Ok(())
}

/// Sets the entries of a table.
fn set_entries(store: &mut Store, table: TableId, entries: &[Entry]) -> Result<(), NoMemory>
    requires { IsTableOf store.old table }
    ensures { OnOk result (IsLater store.old store.new) }
{
    'entries: for entry in entries {
        set_entry(store, table, entry)?;
    }
    Ok(())
}

/// A new read-only table with these entries.
fn made(store: &mut Store, entries: &[Entry]) -> Result<Value, NoMemory>
    ensures of { IfOk result (IsOf store.new) }
    ensures later { OnOk result (IsLater store.old store.new) }
{
    let table = store.new_table()?;
    set_entries(store, table, entries)?;
    store.freeze(table);
    Ok(Value::Table(table))
}

/// The answer that a reply gives.
pub fn answer_of(alloc: Global, store: &mut Store, told: &Told) -> Result<Answer, NoMemory>
    ensures of { IfOk result (AnswerOf store.new) }
    ensures later { OnOk result (IsLater store.old store.new) }
{
    match told {
        Told::Text(text) => {
            let bytes = Bytes::of(alloc, text.as_slice())?;
            Ok(Answer::Expanded(bytes))
        }
        Told::NoPage => Ok(Answer::NoPage),
        Told::Failed(message) => {
            let bytes = Bytes::of(alloc, message.as_slice())?;
            Ok(Answer::LoadFailed(bytes))
        }
        Told::Table(entries) => {
            let value = made(store, entries.as_slice())?;
            Ok(Answer::Loaded(value))
        }
    }
}
