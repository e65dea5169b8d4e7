//! `codepoint`, `byteoffset` and `sub`: parts and places of a text (Scribunto, Ustring library).
ghost use Rattle.std.specs.Prelude.{◌≡◌, ℕ, List as Items, [], ◌∷◌, IsUtf8, IfOk, IfSome, MatchOption, encode_utf8_all};
ghost use Rattle.mw_frame_texts.specs.LuaMeaningArguments.{gives_text};
ghost use Rattle.mw_text.specs.MwUstringTexts.{points_of, byteoffset_of};
ghost use Rattle.mw_frame_texts.specs.LuaHeapValue as kind;
ghost use Rattle.std.specs.Prelude.{pos};
ghost use Rattle.mw_frame_texts.specs.LuaStoreSeen.{StoreView, seen};
ghost use Rattle.mw_frame_texts.specs.LuaStoreParts.{IsOf, IsLater};
ghost use Rattle.mw_frame_texts.specs.LuaBasicSeen.{values_seen, AllOf, Free, Paid, AnswerOf};
ghost use Rattle.mw_frame_texts.specs.LuaMeaningUstring as meaning;

use crate::arguments::utf8_text;
use crate::giving::{give_text, number};
use lua_number::NoMemory;
use lua_pattern::List;
use mw_frame_texts::{Left, Stop, Store, Value, a_number, number_or, pay, rest, single};
use std::alloc::Global;

fn split_codes(codes: &[u32]) -> Option<(u32, &[u32])>
    ensures { MatchOption result (codes.now ≡ []) (λ p. codes.now ≡ p.0 ∷ p.1.now) }
{
    match codes {
        [code, more @ ..] => Some((*code, more)),
        [] => None,
    }
}

/// A code point as a value.
fn point_value(code: u32) -> Value
    ensures of { (s : StoreView) → IsOf s result }
    ensures value { (texts : Items (Items ℕ)) → seen texts result ≡ kind.Number (pos code) }
{
    Value::Number(i64::from(code))
}

/// Code points as values.
fn point_values(alloc: Global, codes: &[u32]) -> Result<List<Value>, NoMemory>
    ensures of { IfOk result (λ values. (s : StoreView) → AllOf s values) }
    ensures values { IfOk result (λ values.
        (texts : Items (Items ℕ)) → values_seen texts values ≡ meaning.point_values codes.now) }
{
    let mut values = List::new(alloc);
    let mut left = codes;
    'each: while let Some((code, more)) = split_codes(left) {
        values.push(point_value(code))?;
        left = more;
    }
    Ok(values)
}

/// The code points from one place to another are given, each for a step.
fn give_points(
    alloc: Global,
    store: &mut Store,
    left: &mut Left,
    s: &[u8],
    from: i64,
    to: i64,
) -> Result<List<Value>, Stop>
    requires { IsUtf8 s.now }
    ensures answer { Paid (meaning.gives_points store.old.heap (points_of s.now from to)) store.old
        left.old store.new left.new result }
    ensures of { AnswerOf store.new result }
    ensures same { store.new ≡ store.old }
{
    let part = mw_text::mw_ustring_part(s, from, to);
    pay(left, mw_text::count_points(part) as u64)?;
    let codes = mw_text::codepoint(alloc, s, from, to)?;
    let values = point_values(alloc, codes.as_slice())?;
    Ok(values)
}

/// `mw.ustring.codepoint(s, i, j)`: the numbers of the code points from place i, by default 1, to place j, by default i.
pub fn codepoint(
    alloc: Global,
    store: &mut Store,
    left: &mut Left,
    args: &[Value],
) -> Result<List<Value>, Stop>
    requires { AllOf store.old args.now }
    ensures answer { Paid (meaning.codepoint (values_seen store.old.texts args.now) store.old.heap)
        store.old left.old store.new left.new result }
    ensures of { AnswerOf store.new result }
    ensures later { IsLater store.old store.new }
{
    let text = utf8_text(alloc, store, 1, b"codepoint", args)?;
    let others = rest(args);
    let from = number_or(alloc, store, 1, 2, b"codepoint", others)?;
    let to = number_or(alloc, store, from, 3, b"codepoint", rest(others))?;
    give_points(alloc, store, left, text.as_slice(), from, to)
}

/// A place, or nil.
fn place_or_nil(place: Option<usize>) -> Result<Value, NoMemory>
    ensures of { IfOk result (λ v. (s : StoreView) → IsOf s v) }
    ensures value { IfOk result (λ v.
        (texts : Items (Items ℕ)) → seen texts v ≡ meaning.place_or_nil place) }
{
    match place {
        Some(at) => number(at),
        None => Ok(Value::Nil),
    }
}

/// `mw.ustring.byteoffset(s, l, i)`: the place of the byte at which code point l begins, counted from byte i; or nil. Both are by
/// default 1.
pub fn byteoffset(alloc: Global, store: &mut Store, args: &[Value]) -> Result<List<Value>, Stop>
    requires { AllOf store.old args.now }
    ensures answer { Free (meaning.byteoffset (values_seen store.old.texts args.now) store.old.heap)
        store.new result }
    ensures of { AnswerOf store.new result }
    ensures later { IsLater store.old store.new }
{
    let text = utf8_text(alloc, store, 1, b"byteoffset", args)?;
    let others = rest(args);
    let from = number_or(alloc, store, 1, 2, b"byteoffset", others)?;
    let byte = number_or(alloc, store, 1, 3, b"byteoffset", rest(others))?;
    let place = place_or_nil(mw_text::byteoffset(text.as_slice(), from, byte))?;
    let values = single(alloc, place)?;
    Ok(values)
}

/// The part from one place to another is given, for a step a byte.
fn give_part(
    alloc: Global,
    store: &mut Store,
    left: &mut Left,
    s: &[u8],
    from: i64,
    to: i64,
) -> Result<List<Value>, Stop>
    requires { IsUtf8 s.now }
    ensures answer { Paid (gives_text store.old.heap (encode_utf8_all (points_of s.now from to)))
        store.old left.old store.new left.new result }
    ensures of { AnswerOf store.new result }
    ensures later { IsLater store.old store.new }
{
    give_text(alloc, store, left, mw_text::mw_ustring_part(s, from, to))
}

/// `mw.ustring.sub(s, i, j)`: the part from place i to place j, by default -1.
pub fn sub(
    alloc: Global,
    store: &mut Store,
    left: &mut Left,
    args: &[Value],
) -> Result<List<Value>, Stop>
    requires { AllOf store.old args.now }
    ensures answer { Paid (meaning.sub (values_seen store.old.texts args.now) store.old.heap)
        store.old left.old store.new left.new result }
    ensures of { AnswerOf store.new result }
    ensures later { IsLater store.old store.new }
{
    let text = utf8_text(alloc, store, 1, b"sub", args)?;
    let others = rest(args);
    let from = a_number(alloc, store, 2, b"sub", others)?;
    let to = number_or(alloc, store, -1, 3, b"sub", rest(others))?;
    give_part(alloc, store, left, text.as_slice(), from, to)
}
