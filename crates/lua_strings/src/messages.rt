//! Messages that name an argument by any number (those of `lua_basic` name the first few), and that of a pattern.
ghost use Rattle.std.specs.Prelude.{◌≡◌, ◌++◌, IfOk, OnOk};
ghost use Rattle.lua_basic.specs.LuaMeaningMessages as meaning;
ghost use Rattle.lua_basic.specs.LuaMeaningArguments.{fails};
ghost use Rattle.lua_basic.specs.LuaStoreParts.{IsLater};
ghost use Rattle.lua_basic.specs.Seen.{values_seen, Stops, StopOf};
ghost use Rattle.lua_basic.specs.LuaMeaningChecks.{malformed};

use itoa::Buffer;
use lua_basic::messages::{expected, fail};
use lua_basic::{Stop, Store, Value};
use lua_string::NoMemory;
use std::alloc::Global;

/// More bytes behind a text.
fn add(text: &mut Vec<u8>, bytes: &[u8]) -> Result<(), NoMemory>
    ensures { OnOk result (text.new.items ≡ text.old.items ++ bytes.now) }
{
    match text.extend_from_slice(bytes) {
        Ok(_) => Ok(()),
        Err(_) => Err(NoMemory),
    }
}

/// That an argument of a function is bad, and why. Arguments are counted from 1.
fn bad_argument(alloc: Global, n: u64, function: &[u8], why: &[u8]) -> Result<Vec<u8>, NoMemory>
    ensures { IfOk result (λ text. text.items ≡ meaning.bad_argument n function.now why.now) }
{
    let mut number = Buffer::new();
    let mut text = Vec::new(alloc);
    add(&mut text, b"bad argument #")?;
    add(&mut text, number.format(n).as_bytes())?;
    add(&mut text, b" to '")?;
    add(&mut text, function)?;
    add(&mut text, b"' (")?;
    add(&mut text, why)?;
    add(&mut text, b")")?;
    Ok(text)
}

/// That a pattern is none, with the number of its fault.
fn malformed_pattern(alloc: Global, n: u8) -> Result<Vec<u8>, NoMemory>
    ensures { IfOk result (λ text. text.items ≡ malformed n) }
{
    let mut number = Buffer::new();
    let mut text = Vec::new(alloc);
    add(&mut text, b"malformed pattern (")?;
    add(&mut text, number.format(u64::from(n)).as_bytes())?;
    add(&mut text, b")")?;
    Ok(text)
}

/// An argument is bad.
pub fn refuse(alloc: Global, store: &mut Store, n: u64, function: &[u8], why: &[u8]) -> Stop
    ensures raises { Stops (fails store.old.heap (meaning.bad_argument n function.now why.now))
        store.new result }
    ensures of { StopOf store.new result }
    ensures later { IsLater store.old store.new }
{
    match bad_argument(alloc, n, function, why) {
        Ok(message) => fail(store, message.as_slice()),
        Err(_) => Stop::NoMemory,
    }
}

/// An argument is of another kind than was wanted; `given` are the arguments from it on.
pub fn refuse_kind(
    alloc: Global,
    store: &mut Store,
    n: u64,
    function: &[u8],
    wanted: &[u8],
    given: &[Value],
) -> Stop
    ensures raises { Stops
        (fails store.old.heap
        (meaning.bad_argument n function.now
        (meaning.expected wanted.now (values_seen store.old.texts given.now))))
        store.new result }
    ensures of { StopOf store.new result }
    ensures later { IsLater store.old store.new }
{
    match expected(alloc, wanted, given) {
        Ok(why) => refuse(alloc, store, n, function, why.as_slice()),
        Err(_) => Stop::NoMemory,
    }
}

/// A pattern is none.
pub fn refuse_pattern(alloc: Global, store: &mut Store, n: u8) -> Stop
    ensures raises { Stops (fails store.old.heap (malformed n)) store.new result }
    ensures of { StopOf store.new result }
    ensures later { IsLater store.old store.new }
{
    match malformed_pattern(alloc, n) {
        Ok(message) => fail(store, message.as_slice()),
        Err(_) => Stop::NoMemory,
    }
}
