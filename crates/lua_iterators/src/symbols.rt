//! Symbols between two places of a text: bytes, or code points.
ghost use Rattle.std.specs.Prelude.{◌≡◌, ◌+◌, suc, pos, ℕ, List as Items, length, IfOk};
ghost use Rattle.lua_string.specs.Walk.{next_place as next_place_of};
ghost use Rattle.lua_strings.specs.LuaHeapValue as kind;
ghost use Rattle.lua_strings.specs.LuaMeaningIterators as meaning;
ghost use Rattle.lua_strings.specs.LuaStoreSeen.{StoreView, seen};
ghost use Rattle.lua_strings.specs.LuaStoreParts.{IsOf};

use lua_string::NoMemory;
use lua_strings::Value;
use lua_strings::captures::span;
use mw_text::{Alphabet, symbol_at};
use mw_ustrings::giving::number;

/// How many symbols a text has.
fn count_symbols<A: Alphabet>(text: &[u8]) -> usize
    ensures { result ≡ length (A.letters.symbols text.now) }
{
    let mut count: usize = 0;
    let mut place: usize = 0;
    'symbols: while let Some((_, size)) = symbol_at::<A>(text, place) {
        place += size;
        count += 1;
    }
    count
}

/// How many symbols stand before a place, where so many stand before another one in front of it. One that does not fit a number
/// is that of no place in memory.
pub fn symbols_before<A: Alphabet>(
    s: &[u8],
    at: usize,
    before: usize,
    place: usize,
) -> Result<usize, NoMemory>
    ensures { IfOk result (λ n.
        n ≡ meaning.symbols_before A.letters s.now (record { at = at; before = before }) place) }
{
    match before.checked_add(count_symbols::<A>(span(s, at, place))) {
        Some(count) => Ok(count),
        None => Err(NoMemory),
    }
}

/// The number of symbols before a place, as a value.
pub fn count_value<A: Alphabet>(
    s: &[u8],
    at: usize,
    before: usize,
    place: usize,
) -> Result<Value, NoMemory>
    ensures of { IfOk result (λ v. (t : StoreView) → IsOf t v) }
    ensures value { IfOk result (λ v.
        (texts : Items (Items ℕ))
        → seen texts v
        ≡ kind.Number
        (pos
        (meaning.symbols_before A.letters s.now
        (record { at = at; before = before }) place))) }
{
    let count = symbols_before::<A>(s, at, before, place)?;
    number(count)
}

/// The number of the symbol that begins at a place, as a value.
pub fn place_value<A: Alphabet>(
    s: &[u8],
    at: usize,
    before: usize,
    place: usize,
) -> Result<Value, NoMemory>
    ensures of { IfOk result (λ v. (t : StoreView) → IsOf t v) }
    ensures value { IfOk result (λ v.
        (texts : Items (Items ℕ))
        → seen texts v
        ≡ kind.Number
        (pos
        (suc
        (meaning.symbols_before A.letters s.now
        (record { at = at; before = before }) place)))) }
{
    let count = symbols_before::<A>(s, at, before, place)?;
    match count.checked_add(1) {
        Some(place) => number(place),
        None => Err(NoMemory),
    }
}

/// Where a walk goes on behind a match, if it does.
pub fn next_place<A: Alphabet>(anchored: bool, s: &[u8], start: usize, end: usize) -> Option<usize>
    ensures { result ≡ next_place_of A.letters anchored s.now start end }
{
    if anchored {
        return None;
    }
    if start < end {
        return Some(end);
    }
    match symbol_at::<A>(s, start) {
        Some((_, size)) => Some(start + size),
        None => None,
    }
}
