//! The texts of what failed.
ghost use Rattle.std.specs.Prelude.{◌≡◌, ◌++◌, ℕ, List, codes, IfOk, OnOk};
ghost use Rattle.mw_frames.specs.LuaMeaningMessages as meaning;
ghost use Rattle.mw_frames.specs.LuaStoreSeen.{seen};
ghost use Rattle.lua_arms.specs.Steps as steps;

use lua_arms::Failure;
use lua_code::NoMemory;
use mw_frames::{Value, kind_of, number_fault};
use std::alloc::Global;

/// More bytes behind a text.
fn append(text: &mut Vec<u8>, bytes: &[u8]) -> Result<(), NoMemory>
    ensures { OnOk result (text.new.items ≡ text.old.items ++ bytes.now) }
{
    match text.extend_from_slice(bytes) {
        Ok(_) => Ok(()),
        Err(_) => Err(NoMemory),
    }
}

/// A text with these bytes.
fn plain(alloc: Global, bytes: &[u8]) -> Result<Vec<u8>, NoMemory>
    ensures { IfOk result (λ text. text.items ≡ bytes.now) }
{
    match bytes.to_vec(alloc) {
        Ok(text) => Ok(text),
        Err(_) => Err(NoMemory),
    }
}

/// An attempt to do something with a value of the wrong kind.
fn attempt_to(alloc: Global, what: &[u8], value: Value) -> Result<Vec<u8>, NoMemory>
    ensures { IfOk result (λ text. (texts : List (List ℕ)) → text.items ≡ meaning.attempt_to what.now (seen texts value)) }
{
    let kind = kind_of(value);
    let mut text = plain(alloc, b"attempt to ")?;
    append(&mut text, what)?;
    append(&mut text, b" a ")?;
    append(&mut text, kind)?;
    append(&mut text, b" value")?;
    Ok(text)
}

/// An attempt to compare two values of one kind.
fn two_alike(alloc: Global, kind: &[u8]) -> Result<Vec<u8>, NoMemory>
    ensures { IfOk result (λ text. text.items ≡ codes "attempt to compare two " ++ kind.now ++ codes " values") }
{
    let mut text = plain(alloc, b"attempt to compare two ")?;
    append(&mut text, kind)?;
    append(&mut text, b" values")?;
    Ok(text)
}

/// An attempt to compare values of two kinds.
fn two_kinds(alloc: Global, first: &[u8], second: &[u8]) -> Result<Vec<u8>, NoMemory>
    ensures { IfOk result (λ text. text.items ≡ codes "attempt to compare " ++ first.now ++ codes " with " ++ second.now) }
{
    let mut text = plain(alloc, b"attempt to compare ")?;
    append(&mut text, first)?;
    append(&mut text, b" with ")?;
    append(&mut text, second)?;
    Ok(text)
}

/// An attempt to compare two values.
fn cannot_compare(alloc: Global, first: Value, second: Value) -> Result<Vec<u8>, NoMemory>
    ensures { IfOk result (λ text. (texts : List (List ℕ)) → text.items ≡ meaning.cannot_compare (seen texts first) (seen texts second)) }
{
    let a = kind_of(first);
    let b = kind_of(second);
    if a == b {
        return two_alike(alloc, a);
    }
    two_kinds(alloc, a, b)
}

/// The text of what failed, without its place.
pub(crate) fn failure_text(alloc: Global, failure: Failure) -> Result<Vec<u8>, NoMemory>
    ensures { IfOk result (λ text. (texts : List (List ℕ)) → text.items ≡ steps.failure_text texts failure) }
{
    match failure {
        Failure::CannotIndex(value) => attempt_to(alloc, b"index", value),
        Failure::CannotCall(value) => attempt_to(alloc, b"call", value),
        Failure::CannotCalculate(value) => attempt_to(alloc, b"perform arithmetic on", value),
        Failure::CannotConcatenate(value) => attempt_to(alloc, b"concatenate", value),
        Failure::CannotCompare(first, second) => cannot_compare(alloc, first, second),
        Failure::NoLength(value) => attempt_to(alloc, b"get length of", value),
        Failure::Number(fault) => plain(alloc, number_fault(fault)),
        Failure::NilKey => plain(alloc, b"table index is nil"),
        Failure::ReadOnly => plain(alloc, b"table from mw.loadData is read-only"),
        Failure::NoInitialValue => plain(alloc, b"'for' initial value must be a number"),
        Failure::NoLimit => plain(alloc, b"'for' limit must be a number"),
        Failure::NoStep => plain(alloc, b"'for' step must be a number"),
    }
}
