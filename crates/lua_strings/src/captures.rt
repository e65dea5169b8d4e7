//! What is given of a match (manual 5.4): places as numbers, and the texts of captures.
ghost use Rattle.std.specs.Prelude.{◌≡◌, ◌+◌, ◌<◌, ◌^◌, ◌∷◌, [], ◌++◌, ◌-◌, pos, map, IfOk, OnOk, MatchOption};
ghost use Rattle.lua_pattern.specs.Sizes.{capture_bytes, captures_bytes, match_bytes};
ghost use Rattle.lua_string.specs.Walk.{span as span_of};
ghost use Rattle.lua_basic.specs.LuaHeapValue as kind;
ghost use Rattle.lua_basic.specs.LuaStoreSeen.{StoreView, seen};
ghost use Rattle.lua_basic.specs.LuaStoreParts.{IsOf, IsLater};
ghost use Rattle.lua_basic.specs.LuaStoreDeclaredValueValueTheVariants as own;
ghost use Rattle.lua_basic.specs.Seen.{values_seen, AllOf};
ghost use Rattle.lua_basic.specs.LuaMeaningSearches as meaning;

use lua_basic::values::{pair, single};
use lua_basic::{Store, Value};
use lua_pattern::{Capture, List, Match};
use lua_string::NoMemory;
use std::alloc::Global;

/// A number as a value; one that does not fit is that of no place in memory.
pub fn number_value(n: usize) -> Result<Value, NoMemory>
    ensures { IfOk result (λ value. value ≡ own.Number (pos n)) }
{
    match i64::try_from(n) {
        Ok(number) => Ok(Value::Number(number)),
        Err(_) => Err(NoMemory),
    }
}

/// A place, which counts from 1.
pub fn place_value(at: usize) -> Result<Value, NoMemory>
    ensures { IfOk result (λ value. value ≡ own.Number (pos (at + 1))) }
{
    match at.checked_add(1) {
        Some(place) => number_value(place),
        None => Err(NoMemory),
    }
}

/// The bytes from a place to another.
pub fn span(s: &[u8], from: usize, to: usize) -> &[u8]
    ensures { result.now ≡ span_of s.now from to }
{
    if s.len() <= from {
        return &[];
    }
    let end = to.min(s.len());
    if end <= from {
        return &[];
    }
    &s[from..end]
}

/// The value of a capture.
fn capture_value(store: &mut Store, s: &[u8], capture: Capture) -> Result<Value, NoMemory>
    ensures value { IfOk result (λ value.
        seen store.new.texts value ≡ meaning.capture_value s.now capture) }
    ensures of { IfOk result (IsOf store.new) }
    ensures heap { store.new.heap ≡ store.old.heap }
    ensures later { IsLater store.old store.new }
{
    match capture {
        Capture::Span(from, to) => {
            let text = store.text(span(s, from, to))?;
            Ok(Value::Text(text))
        }
        Capture::Place(at) => place_value(at),
    }
}

/// The first of captures, and those behind it.
fn split_captures(captures: &[Capture]) -> Option<(Capture, &[Capture])>
    ensures { MatchOption result (captures.now ≡ []) (λ p. captures.now ≡ p.0 ∷ p.1.now) }
{
    match captures {
        [capture, more @ ..] => Some((*capture, more)),
        [] => None,
    }
}

/// The values of captures, behind others.
fn push_captures(
    store: &mut Store,
    values: &mut List<Value>,
    s: &[u8],
    captures: &[Capture],
) -> Result<(), NoMemory>
    requires { AllOf store.old values.old }
    ensures values { OnOk result (values_seen store.new.texts values.new
        ≡ values_seen store.old.texts values.old ++ meaning.captures_given s.now captures.now) }
    ensures of { OnOk result (AllOf store.new values.new) }
    ensures heap { store.new.heap ≡ store.old.heap }
    ensures later { IsLater store.old store.new }
{
    let mut rest = captures;
    'captures: while let Some((capture, more)) = split_captures(rest) {
        let value = capture_value(store, s, capture)?;
        values.push(value)?;
        rest = more;
    }
    Ok(())
}

/// What `find` gives of a match: its first place and its last one, and its captures.
pub fn find_values(
    alloc: Global,
    store: &mut Store,
    s: &[u8],
    found: &Match,
) -> Result<List<Value>, NoMemory>
    ensures values { IfOk result (λ values.
        values_seen store.new.texts values ≡ meaning.find_values s.now found.now) }
    ensures of { IfOk result (AllOf store.new) }
    ensures heap { store.new.heap ≡ store.old.heap }
    ensures later { IsLater store.old store.new }
{
    let first = place_value(found.start)?;
    let last = number_value(found.end)?;
    let mut values = pair(alloc, first, last)?;
    push_captures(store, &mut values, s, found.captures.as_slice())?;
    Ok(values)
}

/// The bytes from a place to another, as the only value of a list.
fn span_value(
    alloc: Global,
    store: &mut Store,
    s: &[u8],
    from: usize,
    to: usize,
) -> Result<List<Value>, NoMemory>
    ensures values { IfOk result (λ values.
        values_seen store.new.texts values ≡ kind.Text (span_of s.now from to) ∷ []) }
    ensures of { IfOk result (AllOf store.new) }
    ensures heap { store.new.heap ≡ store.old.heap }
    ensures later { IsLater store.old store.new }
{
    let text = store.text(span(s, from, to))?;
    let values = single(alloc, Value::Text(text))?;
    Ok(values)
}

/// The values of captures.
fn captures_given(
    alloc: Global,
    store: &mut Store,
    s: &[u8],
    captures: &[Capture],
) -> Result<List<Value>, NoMemory>
    ensures values { IfOk result (λ values.
        values_seen store.new.texts values ≡ meaning.captures_given s.now captures.now) }
    ensures of { IfOk result (AllOf store.new) }
    ensures heap { store.new.heap ≡ store.old.heap }
    ensures later { IsLater store.old store.new }
{
    let mut values = List::new(alloc);
    push_captures(store, &mut values, s, captures)?;
    Ok(values)
}

/// What `match` gives of a match: its captures, or the whole of it where there are none.
pub fn match_values(
    alloc: Global,
    store: &mut Store,
    s: &[u8],
    found: &Match,
) -> Result<List<Value>, NoMemory>
    ensures values { IfOk result (λ values.
        values_seen store.new.texts values ≡ meaning.match_values s.now found.now) }
    ensures of { IfOk result (AllOf store.new) }
    ensures heap { store.new.heap ≡ store.old.heap }
    ensures later { IsLater store.old store.new }
{
    let captures = found.captures.as_slice();
    match split_captures(captures) {
        None => span_value(alloc, store, s, found.start, found.end),
        Some(_) => captures_given(alloc, store, s, captures),
    }
}

/// The bytes of a capture.
fn capture_size(capture: Capture) -> u64
    ensures { result ≡ capture_bytes capture }
{
    match capture {
        Capture::Span(from, to) => to.saturating_sub(from) as u64,
        Capture::Place(_) => 0,
    }
}

/// The bytes of captures.
pub fn captures_size(captures: &[Capture]) -> u64
    requires { captures_bytes captures.now < 2 ^ 64 }
    ensures { result ≡ captures_bytes captures.now }
{
    let mut size: u64 = 0;
    let mut rest = captures;
    'captures: while let Some((capture, more)) = split_captures(rest) {
        size += capture_size(capture);
        rest = more;
    }
    size
}

/// The bytes of what `match` gives.
pub fn match_size(found: &Match) -> u64
    requires { match_bytes found.now < 2 ^ 64 }
    ensures { result ≡ match_bytes found.now }
{
    let captures = found.captures.as_slice();
    match split_captures(captures) {
        None => found.end.saturating_sub(found.start) as u64,
        Some(_) => captures_size(captures),
    }
}
