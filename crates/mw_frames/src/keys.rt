//! The names of arguments as keys of `args` (Scribunto, Frame object).
ghost use Rattle.std.specs.Prelude.{◌≡◌, ◌<◌, ◌^◌, true, pos, map, IfOk, OnOk};
ghost use Rattle.std.specs.Char.{is_ascii_digit};
ghost use Rattle.std.specs.List.{list_all};
ghost use Rattle.std.specs.Str.Parse.{digits_value};
ghost use Rattle.lua_basic.specs.LuaHeapHeap.{set_in};
ghost use Rattle.lua_basic.specs.LuaHeapValue as kind;
ghost use Rattle.lua_home.specs.LuaGraphPut.{filled};
ghost use Rattle.lua_home.specs.LuaMeaningFrames as meaning;
ghost use Rattle.lua_basic.specs.LuaStoreSeen.{seen};
ghost use Rattle.lua_basic.specs.LuaStoreParts.{IsOf, IsTableOf, IsLater};
ghost use Rattle.lua_basic.specs.LuaStoreDeclaredValueValue as own;
ghost use Rattle.mw_frames.specs.Making.{arg_entry};

use crate::paying::split_args;
use lua_basic::{Store, TableId, Value};
use mw_frame::{Arg, NoMemory};

/// Whether each byte is a decimal digit.
fn are_digits(text: &[u8]) -> bool
    ensures { result ≡ list_all is_ascii_digit text.now }
{
    text.iter().all(|byte| byte.is_ascii_digit())
}

/// Whether a name of an argument names a place: a decimal from 1 on without a leading zero, of at most 18 digits.
pub fn is_place(name: &[u8]) -> bool
    ensures { result ≡ meaning.is_place name.now }
{
    match name {
        [] => false,
        [first, ..] => name.len() <= 18 && are_digits(name) && *first != b'0',
    }
}

/// The number that decimal digits stand for.
#[tactic(auto, using(crate::proofs::Digits::digit, crate::proofs::Digits::grows))]
fn number_of(digits: &[u8]) -> u64
    requires digits { list_all is_ascii_digit digits.now ≡ true }
    requires within { digits_value 10 digits.now < 2 ^ 63 }
    ensures { result ≡ digits_value 10 digits.now }
{
    let mut number = 0u64;
    let mut left = digits;
    'digits: while let [first, rest @ ..] = left {
        number = number * 10 + u64::from(first.saturating_sub(b'0'));
        left = rest;
    }
    number
}

/// The number of a place that a name names.
pub fn place_of(name: &[u8]) -> i64
    requires { meaning.is_place name.now ≡ true }
    ensures { result ≡ pos (digits_value 10 name.now) }
{
    number_of(name) as i64
}

/// The key of an argument's name.
pub fn arg_key(store: &mut Store, name: &[u8]) -> Result<Value, NoMemory>
    ensures of { IfOk result (IsOf store.new) }
    ensures value { IfOk result (λ v. seen store.new.texts v ≡ meaning.arg_key name.now) }
    ensures heap { store.new.heap ≡ store.old.heap }
    ensures stays { (v : own.Value) → IsOf store.old v
        → IsOf store.new v × (seen store.new.texts v ≡ seen store.old.texts v) }
    ensures later { IsLater store.old store.new }
{
    if is_place(name) {
        return Ok(Value::Number(place_of(name)));
    }
    let text = store.text(name)?;
    Ok(Value::Text(text))
}

/// Sets a key of a table that can be written.
fn set(store: &mut Store, table: TableId, key: Value, value: Value) -> Result<(), NoMemory>
    requires table { IsTableOf store.old table }
    requires key { IsOf store.old key }
    requires value { IsOf store.old value }
    ensures put { OnOk result (store.new.heap
        ≡ set_in store.old.heap table.at (seen store.old.texts key) (seen store.old.texts value)) }
    ensures later { IsLater store.old store.new }
{
    match store.set(table, key, value) {
        Ok(_) => Ok(()),
        Err(_) => Err(NoMemory),
    }
}

/// Sets a field of a table.
pub fn set_field(
    store: &mut Store,
    table: TableId,
    name: &[u8],
    value: Value,
) -> Result<(), NoMemory>
    requires table { IsTableOf store.old table }
    requires value { IsOf store.old value }
    ensures put { OnOk result (store.new.heap
        ≡ set_in store.old.heap table.at (kind.Text name.now) (seen store.old.texts value)) }
    ensures later { IsLater store.old store.new }
{
    let name = store.text(name)?;
    set(store, table, Value::Text(name), value)
}

/// Sets an entry of a table that is a number.
pub fn set_item(store: &mut Store, table: TableId, place: i64, number: i64) -> Result<(), NoMemory>
    requires { IsTableOf store.old table }
    ensures put { OnOk result (store.new.heap
        ≡ set_in store.old.heap table.at (kind.Number place) (kind.Number number)) }
    ensures later { IsLater store.old store.new }
{
    set(store, table, Value::Number(place), Value::Number(number))
}

/// Sets an argument in a table.
fn set_arg(store: &mut Store, table: TableId, arg: &Arg) -> Result<(), NoMemory>
    requires { IsTableOf store.old table }
    ensures put { OnOk result (store.new.heap
        ≡ set_in store.old.heap table.at (meaning.arg_key arg.now.name) (kind.Text arg.now.value)) }
    ensures later { IsLater store.old store.new }
{
    let text = store.text(arg.value.as_slice())?;
    let key = arg_key(store, arg.name.as_slice())?;
    set(store, table, key, Value::Text(text))
}

/// Sets arguments in a table, one after another.
pub fn fill_args(store: &mut Store, table: TableId, args: &[Arg]) -> Result<(), NoMemory>
    requires { IsTableOf store.old table }
    ensures put { OnOk result (store.new.heap
        ≡ filled table.at (map arg_entry args.now) store.old.heap) }
    ensures later { IsLater store.old store.new }
{
    let mut left = args;
    'each: while let Some((arg, more)) = split_args(left) {
        set_arg(store, table, arg)?;
        left = more;
    }
    Ok(())
}
