//! The texts of errors, and errors that raise them at level 1.
ghost use Rattle.std.specs.Prelude.{◌≡◌, ◌++◌, ℕ, List, IfOk, OnOk, Err};
ghost use Rattle.lua_meaning.specs.Messages as meaning;
ghost use Rattle.lua_meaning.specs.Arguments.{fails};
ghost use Rattle.lua_store.specs.Parts.{IsLater};
ghost use Rattle.lua_basic.specs.Seen.{values_seen, Stops, StopOf};

use crate::stop::Stop;
use crate::values::{first, kind_of};
use lua_number::{NoMemory, NumberFault};
use lua_store::{Store, Value};
use std::alloc::Global;

/// A text that begins with these bytes.
fn begin(alloc: Global, bytes: &[u8]) -> Result<Vec<u8>, NoMemory>
    ensures { IfOk result (λ text. text.items ≡ bytes.now) }
{
    match bytes.to_vec(alloc) {
        Ok(text) => Ok(text),
        Err(_) => Err(NoMemory),
    }
}

/// More bytes behind a text.
fn add(text: &mut Vec<u8>, bytes: &[u8]) -> Result<(), NoMemory>
    ensures { OnOk result (text.new.items ≡ text.old.items ++ bytes.now) }
{
    match text.extend_from_slice(bytes) {
        Ok(_) => Ok(()),
        Err(_) => Err(NoMemory),
    }
}

/// What was got in place of what was wanted.
fn got(given: &[Value]) -> &'static [u8]
    ensures { (texts : List (List ℕ)) → result.now ≡ meaning.got (values_seen texts given.now) }
{
    if given.is_empty() {
        return b"no value";
    }
    kind_of(first(given))
}

/// That another kind was wanted than was given.
pub fn expected(alloc: Global, wanted: &[u8], given: &[Value]) -> Result<Vec<u8>, NoMemory>
    ensures { IfOk result (λ text.
        (texts : List (List ℕ))
        → text.items ≡ meaning.expected wanted.now (values_seen texts given.now)) }
{
    let mut text = begin(alloc, wanted)?;
    add(&mut text, b" expected, got ")?;
    add(&mut text, got(given))?;
    Ok(text)
}

/// That an argument of a function is bad, and why. Arguments are counted from 1.
pub fn bad_argument(alloc: Global, n: u8, function: &[u8], why: &[u8]) -> Result<Vec<u8>, NoMemory>
    ensures { IfOk result (λ text. text.items ≡ meaning.bad_argument n function.now why.now) }
{
    let mut text = begin(alloc, b"bad argument #")?;
    let number = lua_number::text(alloc, i64::from(n))?;
    add(&mut text, number.as_slice())?;
    add(&mut text, b" to '")?;
    add(&mut text, function)?;
    add(&mut text, b"' (")?;
    add(&mut text, why)?;
    add(&mut text, b")")?;
    Ok(text)
}

/// Why a calculation gave no number.
pub fn number_fault(fault: NumberFault) -> &'static [u8]
    ensures { result.now ≡ meaning.number_fault fault }
{
    match fault {
        NumberFault::OutOfRange => b"number out of range",
        NumberFault::NotWhole => b"quotient is not whole",
        NumberFault::ByZero => b"division by zero",
    }
}

/// This message is raised.
pub fn fail(store: &mut Store, message: &[u8]) -> Stop
    ensures raises { Stops (fails store.old.heap message.now) store.new result }
    ensures of { StopOf store.new result }
    ensures later { IsLater store.old store.new }
{
    match store.text(message) {
        Ok(text) => Stop::Raised(Value::Text(text), 1),
        Err(_) => Stop::NoMemory,
    }
}

/// An argument is bad. Arguments are counted from 1.
pub fn refuse(alloc: Global, store: &mut Store, n: u8, function: &[u8], why: &[u8]) -> Stop
    ensures raises { Stops (fails store.old.heap (meaning.bad_argument n function.now why.now))
        store.new result }
    ensures of { StopOf store.new result }
    ensures later { IsLater store.old store.new }
{
    match bad_argument(alloc, n, function, why) {
        Ok(message) => fail(store, message.as_slice()),
        Err(_) => Stop::NoMemory,
    }
}

/// An argument is of another kind than was wanted; `given` are the arguments from it on.
pub fn refuse_kind(
    alloc: Global,
    store: &mut Store,
    n: u8,
    function: &[u8],
    wanted: &[u8],
    given: &[Value],
) -> Stop
    ensures raises { Stops
        (fails store.old.heap
        (meaning.bad_argument n function.now
        (meaning.expected wanted.now (values_seen store.old.texts given.now))))
        store.new result }
    ensures of { StopOf store.new result }
    ensures later { IsLater store.old store.new }
{
    match expected(alloc, wanted, given) {
        Ok(why) => refuse(alloc, store, n, function, why.as_slice()),
        Err(_) => Stop::NoMemory,
    }
}
