//! What a match of a walk gives (manual 5.4): its captures, or the whole of it where there are none.
ghost use Rattle.std.specs.Prelude.{◌≡◌, ◌++◌, [], ◌∷◌, IfOk, OnOk, MatchOption};
ghost use Rattle.lua_string.specs.Walk.{span as span_of};
ghost use Rattle.lua_strings.specs.LuaHeapValue as kind;
ghost use Rattle.lua_strings.specs.LuaMeaningIterators as meaning;
ghost use Rattle.lua_strings.specs.LuaStoreSeen.{seen};
ghost use Rattle.lua_strings.specs.LuaStoreParts.{IsOf, IsLater};
ghost use Rattle.lua_strings.specs.LuaBasicSeen.{values_seen, AllOf};

use crate::symbols::place_value;
use lua_string::{List, NoMemory};
use lua_strings::captures::span;
use lua_strings::{Store, Value, single};
use mw_text::{Alphabet, Capture, Match};
use std::alloc::Global;

/// The first of captures, and those behind it.
fn split_captures(captures: &[Capture]) -> Option<(Capture, &[Capture])>
    ensures { MatchOption result (captures.now ≡ []) (λ p. captures.now ≡ p.0 ∷ p.1.now) }
{
    match captures {
        [capture, more @ ..] => Some((*capture, more)),
        [] => None,
    }
}

/// A capture as a value. Places are counted on from the one where the step began.
fn capture_value<A: Alphabet>(
    store: &mut Store,
    s: &[u8],
    at: usize,
    before: usize,
    capture: Capture,
) -> Result<Value, NoMemory>
    ensures of { IfOk result (IsOf store.new) }
    ensures value { IfOk result (λ v.
        seen store.new.texts v
        ≡ meaning.capture_given A.letters s.now (record { at = at; before = before }) capture) }
    ensures heap { store.new.heap ≡ store.old.heap }
    ensures later { IsLater store.old store.new }
{
    match capture {
        Capture::Span(from, to) => {
            let text = store.text(span(s, from, to))?;
            Ok(Value::Text(text))
        }
        Capture::Place(place) => place_value::<A>(s, at, before, place),
    }
}

/// Adds captures to values.
fn add_captures<A: Alphabet>(
    store: &mut Store,
    values: &mut List<Value>,
    s: &[u8],
    at: usize,
    before: usize,
    captures: &[Capture],
) -> Result<(), NoMemory>
    requires { AllOf store.old values.old }
    ensures of { OnOk result (AllOf store.new values.new) }
    ensures values { OnOk result (values_seen store.new.texts values.new
        ≡ values_seen store.old.texts values.old
        ++ meaning.captures_given A.letters s.now (record { at = at; before = before })
        captures.now) }
    ensures heap { store.new.heap ≡ store.old.heap }
    ensures later { IsLater store.old store.new }
{
    let mut rest = captures;
    'each: while let Some((capture, more)) = split_captures(rest) {
        let value = capture_value::<A>(store, s, at, before, capture)?;
        values.push(value)?;
        rest = more;
    }
    Ok(())
}

/// The whole of a match.
fn whole_match(
    alloc: Global,
    store: &mut Store,
    s: &[u8],
    start: usize,
    end: usize,
) -> Result<List<Value>, NoMemory>
    ensures of { IfOk result (AllOf store.new) }
    ensures values { IfOk result (λ values.
        values_seen store.new.texts values ≡ kind.Text (span_of s.now start end) ∷ []) }
    ensures heap { store.new.heap ≡ store.old.heap }
    ensures later { IsLater store.old store.new }
{
    let text = store.text(span(s, start, end))?;
    let values = single(alloc, Value::Text(text))?;
    Ok(values)
}

/// The captures of a match.
fn all_captures<A: Alphabet>(
    alloc: Global,
    store: &mut Store,
    s: &[u8],
    at: usize,
    before: usize,
    captures: &[Capture],
) -> Result<List<Value>, NoMemory>
    ensures of { IfOk result (AllOf store.new) }
    ensures values { IfOk result (λ values.
        values_seen store.new.texts values
        ≡ meaning.captures_given A.letters s.now (record { at = at; before = before })
        captures.now) }
    ensures heap { store.new.heap ≡ store.old.heap }
    ensures later { IsLater store.old store.new }
{
    let mut values = List::new(alloc);
    add_captures::<A>(store, &mut values, s, at, before, captures)?;
    Ok(values)
}

/// What is given of a match.
pub fn match_values<A: Alphabet>(
    alloc: Global,
    store: &mut Store,
    s: &[u8],
    at: usize,
    before: usize,
    found: &Match,
) -> Result<List<Value>, NoMemory>
    ensures of { IfOk result (AllOf store.new) }
    ensures values { IfOk result (λ values.
        values_seen store.new.texts values
        ≡ meaning.match_given A.letters s.now (record { at = at; before = before }) found.now) }
    ensures heap { store.new.heap ≡ store.old.heap }
    ensures later { IsLater store.old store.new }
{
    let captures = found.captures.as_slice();
    match split_captures(captures) {
        None => whole_match(alloc, store, s, found.start, found.end),
        Some(_) => all_captures::<A>(alloc, store, s, at, before, captures),
    }
}
