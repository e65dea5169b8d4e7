//! What was given for a match, and the end of a job.
ghost use Rattle.std.specs.Prelude.{◌≡◌, ◌++◌, ℕ, List as Items, codes, drop, Ok, Err, IfOk, OnOk};
ghost use Rattle.lua_number.specs.WkBaseDeclaredLeftLeft.{Left as Allowance};
ghost use Rattle.std.specs.Fmt.{signed_decimal};
ghost use Rattle.lua_iterators.specs.LuaHeapValue as kind;
ghost use Rattle.lua_replacing.specs.LuaMeaningGsub as meaning;
ghost use Rattle.lua_iterators.specs.LuaMeaningValues as plain;
ghost use Rattle.lua_replacing.specs.LuaStoreParts.{IsOf};
ghost use Rattle.lua_replacing.specs.LuaStoreSeen.{seen};
ghost use Rattle.lua_replacing.specs.Seen.{far_seen};
ghost use Rattle.lua_gsubs.specs.Parts.{IsTail};
ghost use Rattle.lua_replacing.specs.declared.far.Far.{Far as FarState};
ghost use Rattle.lua_gsubs.specs.Resumed.{IsGiven};

use crate::filling::Halt;
use crate::replacing::{behind, one_more, put_rest};
use lua_iterators::{Left, Store, kind_of, pay};
use lua_number::NoMemory;
use lua_replacing::{Far, Value};
use mw_text::push_all;
use std::alloc::Global;

/// A piece in the place of a match, which is paid for already, is put behind the text.
fn put_piece(far: &mut Far, piece: &[u8]) -> Result<(), NoMemory>
    ensures piece { OnOk result (far_seen far.new
        ≡ meaning.with_piece (far_seen far.old) piece.now) }
    ensures next { OnOk result (far.new.next ≡ far.old.next) }
{
    let count = one_more(far.count)?;
    push_all(&mut far.text, piece)?;
    far.count = count;
    Ok(())
}

/// What is given for a match: a piece was put behind the text, or why there is none.
#[derive(Drop)]
pub enum Given {
    Put,
    /// Fewer steps were left than the piece has bytes.
    Spent,
    /// The message.
    Refused(Vec<u8>),
}

/// A piece was given, which is put behind the text for a step a byte.
fn give_piece(left: &mut Left, far: &mut Far, piece: &[u8]) -> Result<Given, NoMemory>
    ensures given { IfOk result (IsGiven (Ok piece.now) far.old left.old far.new left.new) }
    ensures next { OnOk result (far.new.next ≡ far.old.next) }
{
    match pay(left, piece.len() as u64) {
        Err(_) => Ok(Given::Spent),
        Ok(_) => {
            put_piece(far, piece)?;
            Ok(Given::Put)
        }
    }
}

/// The message that this kind of value is no replacement.
fn refusal(alloc: Global, kind: &[u8]) -> Result<Vec<u8>, NoMemory>
    ensures { IfOk result (λ text.
        text.items ≡ codes "invalid replacement value (a " ++ kind.now ++ codes ")") }
{
    let mut text = Vec::new(alloc);
    push_all(&mut text, b"invalid replacement value (a ")?;
    push_all(&mut text, kind)?;
    push_all(&mut text, b")")?;
    Ok(text)
}

/// A value is no replacement.
fn refuse(alloc: Global, value: Value) -> Result<Given, NoMemory>
    ensures { (texts : Items (Items ℕ)) (f g : FarState) (l : Allowance)
        → IfOk result (IsGiven
        (Err
        (codes "invalid replacement value (a " ++ plain.kind_of (seen texts value) ++ codes ")"))
        f l g l) }
{
    let message = refusal(alloc, kind_of(value))?;
    Ok(Given::Refused(message))
}

/// The digits of a number were given.
fn give_number(
    alloc: Global,
    left: &mut Left,
    far: &mut Far,
    number: i64,
) -> Result<Given, NoMemory>
    ensures given { IfOk result (IsGiven (Ok (signed_decimal number)) far.old left.old far.new
        left.new) }
    ensures next { OnOk result (far.new.next ≡ far.old.next) }
{
    let digits = lua_number::text(alloc, number)?;
    let given = give_piece(left, far, digits.as_slice())?;
    Ok(given)
}

/// False, which keeps a match, or true, which is no replacement.
fn give_flag(
    alloc: Global,
    left: &mut Left,
    far: &mut Far,
    whole: &[u8],
    flag: bool,
) -> Result<Given, NoMemory>
    ensures given { IfOk result (IsGiven (meaning.replacement_given whole.now (kind.Truth flag))
        far.old left.old far.new left.new) }
    ensures next { OnOk result (far.new.next ≡ far.old.next) }
{
    if flag {
        return refuse(alloc, Value::Bool(true));
    }
    give_piece(left, far, whole)
}

/// What is given for a match, which is `whole`: nil and false keep it; a text, or a number's digits, stands in its place. It is put behind
/// the text for a step a byte.
pub fn put_given(
    alloc: Global,
    store: &Store,
    left: &mut Left,
    far: &mut Far,
    whole: &[u8],
    value: Value,
) -> Result<Given, NoMemory>
    requires { IsOf store.now value }
    ensures given { IfOk result (IsGiven
        (meaning.replacement_given whole.now (seen store.now.texts value)) far.old left.old far.new
        left.new) }
    ensures next { OnOk result (far.new.next ≡ far.old.next) }
{
    match value {
        Value::Nil => give_piece(left, far, whole),
        Value::Bool(flag) => give_flag(alloc, left, far, whole, flag),
        Value::Number(number) => give_number(alloc, left, far, number),
        Value::Text(text) => give_piece(left, far, store.bytes(text)),
        Value::Table(_) => refuse(alloc, value),
        Value::Closure(_) => refuse(alloc, value),
        Value::Builtin(_) => refuse(alloc, value),
        Value::Markup(_) => refuse(alloc, value),
    }
}

/// The rest of the subject is put behind the text, for a step a byte.
pub fn complete(left: &mut Left, s: &[u8], far: &mut Far) -> Result<(), Halt>
    ensures complete { IsTail (drop far.old.copied s.now) far.old.text.items left.old
        far.new.text.items left.new result }
    ensures count { far.new.count ≡ far.old.count }
{
    put_rest(left, &mut far.text, behind(s, far.copied))
}
