//! What a match gives, and what that costs: places count code points, captures are texts or places (Scribunto, Ustring library).
ghost use Rattle.std.specs.Prelude.{◌≡◌, ◌++◌, ℕ, List as Items, [], ◌∷◌, map, IsUtf8, IsCharBoundary, IfOk, OnOk, MatchOption};
ghost use Rattle.std.specs.List.{AllByRecursion};
ghost use Rattle.lua_pattern.specs.Places.{IsCaptureAt};
ghost use Rattle.lua_pattern.specs.Sizes.{capture_bytes, captures_bytes, match_bytes};
ghost use Rattle.mw_frame_texts.specs.LuaStoreSeen.{StoreView, seen};
ghost use Rattle.mw_frame_texts.specs.LuaStoreParts.{IsOf, IsLater};
ghost use Rattle.mw_frame_texts.specs.LuaBasicSeen.{values_seen, AllOf};
ghost use Rattle.mw_frame_texts.specs.MwFramesCosts.{Pays};
ghost use Rattle.mw_frame_texts.specs.LuaMeaningUstring as meaning;

use crate::giving::number;
use lua_number::NoMemory;
use lua_pattern::{Capture, List, Match};
use mw_frame_texts::{Left, Stop, Store, Value, pair, pay};
use mw_text::point_place;
use std::alloc::Global;

/// The part of a text from one byte to another.
fn text_between(s: &[u8], from: usize, to: usize) -> &[u8]
    ensures { result.now ≡ meaning.text_between s.now from to }
{
    if s.len() <= from {
        return &[];
    }
    let rest = &s[from..];
    let size = to.saturating_sub(from);
    if rest.len() <= size {
        return rest;
    }
    &rest[..size]
}

/// The number of the code point that begins at a byte, or behind the last one.
fn place_value(s: &[u8], at: usize) -> Result<Value, NoMemory>
    requires text { IsUtf8 s.now }
    requires place { IsCharBoundary s.now at }
    ensures of { IfOk result (λ v. (t : StoreView) → IsOf t v) }
    ensures value { IfOk result (λ v.
        (texts : Items (Items ℕ)) → seen texts v ≡ meaning.place_value s.now at) }
{
    match point_place(s, at).checked_add(1) {
        Some(place) => number(place),
        None => Err(NoMemory),
    }
}

/// The number of the code point that ends at a byte.
fn last_value(s: &[u8], at: usize) -> Result<Value, NoMemory>
    requires text { IsUtf8 s.now }
    requires place { IsCharBoundary s.now at }
    ensures of { IfOk result (λ v. (t : StoreView) → IsOf t v) }
    ensures value { IfOk result (λ v.
        (texts : Items (Items ℕ)) → seen texts v ≡ meaning.last_value s.now at) }
{
    number(point_place(s, at))
}

/// A capture as a value.
fn capture_value(store: &mut Store, s: &[u8], capture: Capture) -> Result<Value, NoMemory>
    requires text { IsUtf8 s.now }
    requires place { IsCaptureAt (IsCharBoundary s.now) capture }
    ensures of { IfOk result (IsOf store.new) }
    ensures value { IfOk result (λ v.
        seen store.new.texts v ≡ meaning.capture_value s.now capture) }
    ensures heap { store.new.heap ≡ store.old.heap }
    ensures later { IsLater store.old store.new }
{
    match capture {
        Capture::Span(from, to) => {
            let text = store.text(text_between(s, from, to))?;
            Ok(Value::Text(text))
        }
        Capture::Place(at) => place_value(s, at),
    }
}

fn split_captures(captures: &[Capture]) -> Option<(Capture, &[Capture])>
    ensures { MatchOption result (captures.now ≡ []) (λ p. captures.now ≡ p.0 ∷ p.1.now) }
{
    match captures {
        [capture, more @ ..] => Some((*capture, more)),
        [] => None,
    }
}

/// Adds captures to values.
fn add_captures(
    store: &mut Store,
    values: &mut List<Value>,
    s: &[u8],
    captures: &[Capture],
) -> Result<(), NoMemory>
    requires of { AllOf store.old values.old }
    requires text { IsUtf8 s.now }
    requires places { AllByRecursion (IsCaptureAt (IsCharBoundary s.now)) captures.now }
    ensures of { OnOk result (AllOf store.new values.new) }
    ensures values { OnOk result (values_seen store.new.texts values.new
        ≡ values_seen store.old.texts values.old
        ++ map (meaning.capture_value s.now) captures.now) }
    ensures heap { store.new.heap ≡ store.old.heap }
    ensures later { IsLater store.old store.new }
{
    let mut rest = captures;
    'each: while let Some((capture, more)) = split_captures(rest) {
        let value = capture_value(store, s, capture)?;
        values.push(value)?;
        rest = more;
    }
    Ok(())
}

/// The places of a match.
pub fn match_places(
    alloc: Global,
    s: &[u8],
    start: usize,
    end: usize,
) -> Result<List<Value>, NoMemory>
    requires text { IsUtf8 s.now }
    requires start { IsCharBoundary s.now start }
    requires end { IsCharBoundary s.now end }
    ensures of { IfOk result (λ values. (t : StoreView) → AllOf t values) }
    ensures values { IfOk result (λ values.
        (texts : Items (Items ℕ))
        → values_seen texts values
        ≡ meaning.place_value s.now start ∷ meaning.last_value s.now end ∷ []) }
{
    let first = place_value(s, start)?;
    let last = last_value(s, end)?;
    let values = pair(alloc, first, last)?;
    Ok(values)
}

/// What `find` gives of a match.
pub fn find_values(
    alloc: Global,
    store: &mut Store,
    s: &[u8],
    found: &Match,
) -> Result<List<Value>, NoMemory>
    requires text { IsUtf8 s.now }
    requires start { IsCharBoundary s.now found.now.start }
    requires end { IsCharBoundary s.now found.now.end }
    requires captures { AllByRecursion (IsCaptureAt (IsCharBoundary s.now)) found.now.captures }
    ensures of { IfOk result (AllOf store.new) }
    ensures values { IfOk result (λ values.
        values_seen store.new.texts values ≡ meaning.find_values s.now found.now) }
    ensures heap { store.new.heap ≡ store.old.heap }
    ensures later { IsLater store.old store.new }
{
    let mut values = match_places(alloc, s, found.start, found.end)?;
    add_captures(store, &mut values, s, found.captures.as_slice())?;
    Ok(values)
}

/// What `match` gives of a match.
pub fn match_values(
    alloc: Global,
    store: &mut Store,
    s: &[u8],
    found: &Match,
) -> Result<List<Value>, NoMemory>
    requires text { IsUtf8 s.now }
    requires captures { AllByRecursion (IsCaptureAt (IsCharBoundary s.now)) found.now.captures }
    ensures of { IfOk result (AllOf store.new) }
    ensures values { IfOk result (λ values.
        values_seen store.new.texts values ≡ meaning.match_values s.now found.now) }
    ensures heap { store.new.heap ≡ store.old.heap }
    ensures later { IsLater store.old store.new }
{
    let mut values = List::new(alloc);
    let captures = found.captures.as_slice();
    if captures.is_empty() {
        let whole = store.text(text_between(s, found.start, found.end))?;
        values.push(Value::Text(whole))?;
        return Ok(values);
    }
    add_captures(store, &mut values, s, captures)?;
    Ok(values)
}

/// How many bytes a capture has.
fn capture_cost(capture: Capture) -> u64
    ensures { result ≡ capture_bytes capture }
{
    match capture {
        Capture::Span(from, to) => to.saturating_sub(from) as u64,
        Capture::Place(_) => 0,
    }
}

/// Takes a step for each byte of the captures that are texts.
pub fn pay_captures(left: &mut Left, captures: &[Capture]) -> Result<(), Stop>
    ensures { Pays (captures_bytes captures.now) left.old left.new result }
{
    let mut rest = captures;
    'each: while let Some((capture, more)) = split_captures(rest) {
        pay(left, capture_cost(capture))?;
        rest = more;
    }
    Ok(())
}

/// Takes a step for each byte of what `match` gives.
pub fn pay_match(left: &mut Left, found: &Match) -> Result<(), Stop>
    ensures { Pays (match_bytes found.now) left.old left.new result }
{
    let captures = found.captures.as_slice();
    if captures.is_empty() {
        return pay(left, found.end.saturating_sub(found.start) as u64);
    }
    pay_captures(left, captures)
}
