//! The normal forms of a text (Scribunto, mw.ustring.toNFC and its kin). The code points of a form are counted and paid for before its
//! text is made.
ghost use Rattle.std.specs.Prelude.{◌≡◌, ℕ, List as Items, [], ◌∷◌, length, chars, encode_utf8_all, IfOk};
ghost use Rattle.std.specs.Iterator.{IsFinite};
ghost use Rattle.std.specs.Option.{option_map};
ghost use Rattle.unicode_normalization.specs.Forms.{normalize};
ghost use Rattle.mw_text.specs.MwUstringForms.{IsForm};
ghost use Rattle.mw_frame_texts.specs.LuaStoreParts.{IsLater};
ghost use Rattle.mw_frame_texts.specs.LuaBasicSeen.{values_seen, AllOf, Paid, AnswerOf};
ghost use Rattle.mw_ustrings.specs.Charges.{PaysInMemory};
ghost use Rattle.mw_ustrings.specs.CodePoints.{GivesPoints};
ghost use Rattle.mw_ustrings.specs.Forms.{form_charge, form_value};
ghost use Rattle.mw_frame_texts.specs.LuaMeaningUstring as meaning;

use crate::giving::text_value;
use lua_number::NoMemory;
use lua_pattern::List;
use mw_frame_texts::{Left, Stop, Store, Value, a_text, pay, single};
use std::alloc::{AllocError, Global};
use unicode_normalization::{Form, UnicodeNormalization};

/// Takes a step for each byte of the UTF-8 of code points.
fn pay_all<I: Iterator<Item = Result<char, AllocError>> + Drop>(
    left: &mut Left,
    mut points: I,
) -> Result<(), Stop>
    requires can { I.can_next points }
    requires ends { IsFinite (I.remaining points) }
    ensures { (cs : Items ℕ) → GivesPoints I.next_gives points cs
        → PaysInMemory (length (encode_utf8_all cs)) left.old left.new result }
{
    'each: while let Some(item) = points.next() {
        match item {
            Ok(point) => pay(left, point.len_utf8() as u64)?,
            Err(_) => return Err(Stop::NoMemory),
        }
    }
    Ok(())
}

/// Takes a step for each byte of a text in a normal form.
fn pay_text(alloc: Global, left: &mut Left, form: Form, text: &str) -> Result<(), Stop>
    ensures { PaysInMemory (length (encode_utf8_all (normalize form (chars text.now)))) left.old
        left.new result }
{
    match form {
        Form::Nfd => pay_all(left, text.nfd(alloc)),
        Form::Nfkd => pay_all(left, text.nfkd(alloc)),
        Form::Nfc => pay_all(left, text.nfc(alloc)),
        Form::Nfkc => pay_all(left, text.nfkc(alloc)),
    }
}

/// Takes what a normal form of these bytes costs: nothing where they aren't UTF-8.
fn pay_form(alloc: Global, left: &mut Left, form: Form, s: &[u8]) -> Result<(), Stop>
    ensures { PaysInMemory (form_charge form s.now) left.old left.new result }
{
    match std::str::from_utf8(s) {
        Ok(text) => pay_text(alloc, left, form, text),
        Err(_) => Ok(()),
    }
}

/// A normal form of these bytes, or nothing where they aren't UTF-8.
fn form_of(alloc: Global, form: Form, s: &[u8]) -> Result<Option<Vec<u8>>, NoMemory>
    ensures { IfOk result (λ made. IsForm form s.now (option_map (λ v. v.items) made)) }
{
    match form {
        Form::Nfd => mw_text::to_nfd(alloc, s),
        Form::Nfkd => mw_text::to_nfkd(alloc, s),
        Form::Nfc => mw_text::to_nfc(alloc, s),
        Form::Nfkc => mw_text::to_nfkc(alloc, s),
    }
}

/// A form as the only value of a list, or nil where there is none. It is paid for already.
fn form_values(
    alloc: Global,
    store: &mut Store,
    made: Option<Vec<u8>>,
) -> Result<List<Value>, NoMemory>
    ensures value { IfOk result (λ values.
        values_seen store.new.texts values ≡ form_value (option_map (λ v. v.items) made) ∷ []) }
    ensures of { IfOk result (AllOf store.new) }
    ensures heap { store.new.heap ≡ store.old.heap }
    ensures later { IsLater store.old store.new }
{
    match made {
        Some(made) => text_value(alloc, store, made.as_slice()),
        None => single(alloc, Value::Nil),
    }
}

/// A normal form of these bytes is given, after a step for each byte of it; or nil, where they aren't UTF-8.
fn give_form(
    alloc: Global,
    store: &mut Store,
    left: &mut Left,
    form: Form,
    s: &[u8],
) -> Result<List<Value>, Stop>
    ensures answer { Paid (meaning.in_form form store.old.heap s.now) store.old left.old
        store.new left.new result }
    ensures of { AnswerOf store.new result }
    ensures later { IsLater store.old store.new }
{
    pay_form(alloc, left, form, s)?;
    let made = form_of(alloc, form, s)?;
    let values = form_values(alloc, store, made)?;
    Ok(values)
}

/// The first argument of a function in a normal form.
fn to_form(
    alloc: Global,
    store: &mut Store,
    left: &mut Left,
    form: Form,
    function: &[u8],
    args: &[Value],
) -> Result<List<Value>, Stop>
    requires { AllOf store.old args.now }
    ensures answer { Paid
        (meaning.to_form form function.now (values_seen store.old.texts args.now) store.old.heap)
        store.old left.old store.new left.new result }
    ensures of { AnswerOf store.new result }
    ensures later { IsLater store.old store.new }
{
    let text = a_text(alloc, store, 1, function, args)?;
    give_form(alloc, store, left, form, text.as_slice())
}

/// `mw.ustring.toNFC(s)`: the text in normal form C, or nil where its bytes aren't UTF-8.
pub fn to_nfc(
    alloc: Global,
    store: &mut Store,
    left: &mut Left,
    args: &[Value],
) -> Result<List<Value>, Stop>
    requires { AllOf store.old args.now }
    ensures answer { Paid (meaning.to_nfc (values_seen store.old.texts args.now) store.old.heap)
        store.old left.old store.new left.new result }
    ensures of { AnswerOf store.new result }
    ensures later { IsLater store.old store.new }
{
    to_form(alloc, store, left, Form::Nfc, b"toNFC", args)
}

/// `mw.ustring.toNFD(s)`: normal form D.
pub fn to_nfd(
    alloc: Global,
    store: &mut Store,
    left: &mut Left,
    args: &[Value],
) -> Result<List<Value>, Stop>
    requires { AllOf store.old args.now }
    ensures answer { Paid (meaning.to_nfd (values_seen store.old.texts args.now) store.old.heap)
        store.old left.old store.new left.new result }
    ensures of { AnswerOf store.new result }
    ensures later { IsLater store.old store.new }
{
    to_form(alloc, store, left, Form::Nfd, b"toNFD", args)
}

/// `mw.ustring.toNFKC(s)`: normal form KC.
pub fn to_nfkc(
    alloc: Global,
    store: &mut Store,
    left: &mut Left,
    args: &[Value],
) -> Result<List<Value>, Stop>
    requires { AllOf store.old args.now }
    ensures answer { Paid (meaning.to_nfkc (values_seen store.old.texts args.now) store.old.heap)
        store.old left.old store.new left.new result }
    ensures of { AnswerOf store.new result }
    ensures later { IsLater store.old store.new }
{
    to_form(alloc, store, left, Form::Nfkc, b"toNFKC", args)
}

/// `mw.ustring.toNFKD(s)`: normal form KD.
pub fn to_nfkd(
    alloc: Global,
    store: &mut Store,
    left: &mut Left,
    args: &[Value],
) -> Result<List<Value>, Stop>
    requires { AllOf store.old args.now }
    ensures answer { Paid (meaning.to_nfkd (values_seen store.old.texts args.now) store.old.heap)
        store.old left.old store.new left.new result }
    ensures of { AnswerOf store.new result }
    ensures later { IsLater store.old store.new }
{
    to_form(alloc, store, left, Form::Nfkd, b"toNFKD", args)
}
