//! `char`: the text of code points (Scribunto, mw.ustring.char).
ghost use Rattle.std.specs.Prelude.{◌≡◌, ◌<◌, ◌≤◌, ◌^◌, ◌++◌, [], ◌∷◌, length, drop, codes, Some, None, Ok, IfOk, IfErr, OnOk, MatchOption};
ghost use Rattle.std.specs.Char.{encode_utf8};
ghost use Rattle.mw_text.specs.MwUstringTexts.{text_of_codes};
ghost use Rattle.mw_frame_texts.specs.LuaMeaningArguments.{a_number, gives_text};
ghost use Rattle.mw_frame_texts.specs.LuaStoreSeen.{seen};
ghost use Rattle.mw_frame_texts.specs.LuaStoreParts.{IsOf, IsLater};
ghost use Rattle.mw_frame_texts.specs.LuaBasicSeen.{values_seen, AllOf, Paid, StopOf, AnswerOf, Refuses};
ghost use Rattle.mw_frame_texts.specs.MwFramesCosts.{Pays};
ghost use Rattle.mw_ustrings.specs.CodePoints.{point_bytes, points_bytes};
ghost use Rattle.mw_frame_texts.specs.LuaMeaningUstring as meaning;

use crate::arguments::{refuse_at, refuse_kind_at};
use crate::giving::text_value;
use lua_number::NoMemory;
use lua_pattern::List;
use mw_frame_texts::{Left, Stop, Store, Value, first, number_in, pay};
use mw_text::references::put_point;
use std::alloc::Global;

/// The code point with a number, if there is one that UTF-8 can write.
fn point(code: i64) -> Option<char>
    ensures { MatchOption result (text_of_codes (code ∷ []) ≡ None) (λ c.
        text_of_codes (code ∷ []) ≡ Some (encode_utf8 c)) }
{
    match u32::try_from(code) {
        Ok(code) => char::from_u32(code),
        Err(_) => None,
    }
}

/// The values from a place on.
fn values_from(values: &[Value], at: usize) -> &[Value]
    requires { at ≤ length values.now }
    ensures { result.now ≡ drop at values.now }
{
    &values[at..]
}

/// An argument that must be the number of a code point.
fn a_point(alloc: Global, store: &mut Store, n: usize, given: &[Value]) -> Result<char, Stop>
    requires of { AllOf store.old given.now }
    requires number { n < 2 ^ 63 }
    ensures found { IfOk result (λ c.
        meaning.point_text n (a_number n (codes "char") (values_seen store.old.texts given.now))
        ≡ Ok (encode_utf8 c)) }
    ensures same { OnOk result (store.new ≡ store.old) }
    ensures refused { IfErr result (Refuses
        (meaning.point_text n (a_number n (codes "char") (values_seen store.old.texts given.now)))
        store.old store.new) }
    ensures of { IfErr result (StopOf store.new) }
    ensures later { IsLater store.old store.new }
{
    match number_in(store, first(given)) {
        None => Err(refuse_kind_at(alloc, store, n, b"char", b"number", given)),
        Some(code) => match point(code) {
            Some(point) => Ok(point),
            None => Err(refuse_at(alloc, store, n, b"char", b"out of range")),
        },
    }
}

/// Refuses arguments of which one is no number of a code point.
fn check_points(alloc: Global, store: &mut Store, args: &[Value]) -> Result<(), Stop>
    requires { AllOf store.old args.now }
    ensures found { OnOk result (meaning.points_text 1 (values_seen store.old.texts args.now)
        ≡ Ok (points_bytes (values_seen store.old.texts args.now))) }
    ensures same { OnOk result (store.new ≡ store.old) }
    ensures refused { IfErr result (Refuses
        (meaning.points_text 1 (values_seen store.old.texts args.now)) store.old store.new) }
    ensures of { IfErr result (StopOf store.new) }
    ensures later { IsLater store.old store.new }
{
    'each: for at in 0..args.len() {
        match a_point(alloc, store, at + 1, values_from(args, at)) {
            Ok(_) => {}
            Err(stop) => return Err(stop),
        }
    }
    Ok(())
}

/// The first of a list, and those behind it.
fn split_values(values: &[Value]) -> Option<(Value, &[Value])>
    ensures { MatchOption result (values.now ≡ []) (λ p. values.now ≡ p.0 ∷ p.1.now) }
{
    match values {
        [value, more @ ..] => Some((*value, more)),
        [] => None,
    }
}

/// The code point whose number a value is, if it is one.
fn point_in(store: &Store, value: Value) -> Option<char>
    requires { IsOf store.now value }
    ensures { MatchOption result (point_bytes (seen store.now.texts value) ≡ []) (λ c.
        point_bytes (seen store.now.texts value) ≡ encode_utf8 c) }
{
    match number_in(store, value) {
        Some(code) => point(code),
        None => None,
    }
}

/// What the code point of a value costs.
fn point_cost(store: &Store, value: Value) -> u64
    requires { IsOf store.now value }
    ensures { result ≡ length (point_bytes (seen store.now.texts value)) }
{
    match point_in(store, value) {
        Some(point) => point.len_utf8() as u64,
        None => 0,
    }
}

/// Takes a step for each byte of the code points whose numbers the values are.
fn pay_points(store: &Store, left: &mut Left, values: &[Value]) -> Result<(), Stop>
    requires { AllOf store.now values.now }
    ensures { Pays (length (points_bytes (values_seen store.now.texts values.now))) left.old
        left.new result }
{
    let mut rest = values;
    'each: while let Some((value, more)) = split_values(rest) {
        pay(left, point_cost(store, value))?;
        rest = more;
    }
    Ok(())
}

/// Adds the code point of a value.
fn put_value(made: &mut Vec<u8>, store: &Store, value: Value) -> Result<(), NoMemory>
    requires { IsOf store.now value }
    ensures { OnOk result (made.new.items
        ≡ made.old.items ++ point_bytes (seen store.now.texts value)) }
{
    match point_in(store, value) {
        Some(point) => put_point(made, point),
        None => Ok(()),
    }
}

/// The text of the code points whose numbers the values are.
fn the_text(alloc: Global, store: &Store, values: &[Value]) -> Result<Vec<u8>, NoMemory>
    requires { AllOf store.now values.now }
    ensures { IfOk result (λ made.
        made.items ≡ points_bytes (values_seen store.now.texts values.now)) }
{
    let mut made = Vec::new(alloc);
    let mut rest = values;
    'each: while let Some((value, more)) = split_values(rest) {
        put_value(&mut made, store, value)?;
        rest = more;
    }
    Ok(made)
}

/// The text of these code points is given, after a step for each of its bytes.
fn give_chars(
    alloc: Global,
    store: &mut Store,
    left: &mut Left,
    args: &[Value],
) -> Result<List<Value>, Stop>
    requires { AllOf store.old args.now }
    ensures answer { Paid
        (gives_text store.old.heap (points_bytes (values_seen store.old.texts args.now))) store.old
        left.old store.new left.new result }
    ensures of { AnswerOf store.new result }
    ensures later { IsLater store.old store.new }
{
    pay_points(store, left, args)?;
    let made = the_text(alloc, store, args)?;
    let values = text_value(alloc, store, made.as_slice())?;
    Ok(values)
}

/// `mw.ustring.char(...)`: the text with these code points. A number below 0, above U+10FFFF, or of a surrogate is out of range.
pub fn char(
    alloc: Global,
    store: &mut Store,
    left: &mut Left,
    args: &[Value],
) -> Result<List<Value>, Stop>
    requires { AllOf store.old args.now }
    ensures answer { Paid (meaning.char (values_seen store.old.texts args.now) store.old.heap)
        store.old left.old store.new left.new result }
    ensures of { AnswerOf store.new result }
    ensures later { IsLater store.old store.new }
{
    check_points(alloc, store, args)?;
    give_chars(alloc, store, left, args)
}
