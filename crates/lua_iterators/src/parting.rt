//! A step of an iterator that `gsplit` gives: the next part (Scribunto, mw.text.gsplit).
//!
//! The subject and the pattern are in UTF-8, as the maker of the iterator tests. No step tests it again, which would cost the bytes of
//! the whole subject each time; what a part is means the same of any bytes.
ghost use Rattle.std.specs.Prelude.{◌≡◌, ◌+◌, ◌≤◌, ℕ, List as Items, Ok, length, drop, IfOk, IfSome, MatchResult};
ghost use Rattle.lua_string.specs.LuaPatternTexts.{points};
ghost use Rattle.lua_string.specs.Finds.{place_of, IsPlain};
ghost use Rattle.mw_text.specs.Split.{sought_by, sought_of, IsSoughtFault, found_from, IsMet, after_empty, cut_at, part_from};
ghost use Rattle.lua_strings.specs.LuaHeapHeap.{cell_at};
ghost use Rattle.lua_strings.specs.LuaMeaningIterators as meaning;
ghost use Rattle.lua_strings.specs.LuaMeaningTexts.{pattern_charge};
ghost use Rattle.lua_strings.specs.LuaStoreSeen.{StoreView, seen};
ghost use Rattle.lua_strings.specs.LuaStoreParts.{IsOf, IsLater};
ghost use Rattle.lua_strings.specs.LuaBasicSeen.{Paid, AnswerOf};
ghost use Rattle.lua_iterators.specs.Held.{cells_seen, AreOf};

use crate::cells::{IteratorCells, held_place, held_text};
use lua_string::{List, NoMemory};
use lua_strings::captures::span;
use lua_strings::{Left, Stop, Store, Value, is_true, single};
use memchr::memmem;
use mw_text::splitting::Separator;
use mw_text::{Match, OnePoint, Part, Pattern, PatternFault, Search, symbol_at};
use mw_ustrings::arguments::refuse_pattern;
use mw_ustrings::giving::{give_nothing, number, spend};
use mw_ustrings::pay;
use std::alloc::Global;

/// The first place at which a text has a needle.
#[tactic(auto, using(lua_string::proofs::Plain::place_found, lua_string::proofs::Plain::found_within))]
fn plain_place(needle: &[u8], text: &[u8]) -> Option<usize>
    ensures place { result ≡ place_of needle.now text.now }
    ensures within { IfSome result (λ k. k + length needle.now ≤ length text.now) }
{
    memmem::find(text, needle)
}

/// The first place from a byte on where a text stands: no tries.
fn plain_find(alloc: Global, s: &[u8], needle: &[u8], from: usize) -> Search
    requires { from ≤ length s.now }
    ensures { IsPlain from (length needle.now) (place_of needle.now (drop from s.now)) result }
{
    match plain_place(needle, &s[from..]) {
        None => Search::NotFound(0),
        Some(place) => {
            let start = from + place;
            Search::Found(
                Match {
                    start,
                    end: start + needle.len(),
                    captures: List::new(alloc),
                },
                0,
            )
        }
    }
}

/// What stands between the parts: a pattern over code points, or with `plain` the text itself.
fn read_separator<'p>(
    alloc: Global,
    pattern: &'p [u8],
    plain: bool,
) -> Result<Separator<'p>, PatternFault>
    ensures { MatchResult result (λ made. sought_by plain pattern.now ≡ Ok (sought_of made)) (λ e.
        IsSoughtFault (sought_by plain pattern.now) e) }
{
    if plain {
        return Ok(Separator::Plain(pattern));
    }
    match Pattern::<OnePoint>::read(alloc, pattern) {
        Ok(pattern) => Ok(Separator::Pattern(pattern)),
        Err(fault) => Err(fault),
    }
}

/// The first place from a byte on where it stands, within a budget of tries.
fn search(
    alloc: Global,
    separator: &Separator,
    s: &[u8],
    from: usize,
    budget: u64,
) -> Result<Search, NoMemory>
    requires { from ≤ length s.now }
    ensures { IfOk result (λ met.
        IsMet budget (found_from (sought_of separator.now) s.now from) met) }
{
    match separator {
        Separator::Plain(needle) => Ok(plain_find(alloc, s, needle, from)),
        Separator::Pattern(pattern) => pattern.search(alloc, s, from, budget),
    }
}

/// The part behind an empty match: it ends behind the code point that follows.
fn after_an_empty_match(s: &[u8], place: usize, tries: u64) -> Part
    ensures { result ≡ after_empty place tries (points.symbols (drop place s.now)) }
{
    let Some((_, size)) = symbol_at::<OnePoint>(s, place) else {
        return Part {
            stop: place,
            next: None,
            tries,
        };
    };
    let stop = place + size;
    match symbol_at::<OnePoint>(s, stop) {
        Some(_) => Part {
            stop,
            next: Some(stop),
            tries,
        },
        None => Part {
            stop,
            next: None,
            tries,
        },
    }
}

/// The part that ends at a match.
fn before_a_match(s: &[u8], start: usize, end: usize, tries: u64) -> Part
    ensures { result ≡ cut_at s.now start end tries }
{
    if start < end {
        return Part {
            stop: start,
            next: Some(end),
            tries,
        };
    }
    after_an_empty_match(s, start, tries)
}

/// A place, or nil.
fn place_or_nil(place: Option<usize>) -> Result<Value, NoMemory>
    ensures of { IfOk result (λ v. (s : StoreView) → IsOf s v) }
    ensures value { IfOk result (λ v.
        (texts : Items (Items ℕ)) → seen texts v ≡ meaning.place_or_nil place) }
{
    match place {
        Some(at) => number(at),
        None => Ok(Value::Nil),
    }
}

/// A part is given, for its tries and its bytes, and the walk goes on behind it.
fn give_part(
    alloc: Global,
    store: &mut Store,
    left: &mut Left,
    cells: IteratorCells,
    s: &[u8],
    at: usize,
    part: Part,
) -> Result<List<Value>, Stop>
    requires { AreOf store.old cells }
    ensures answer { Paid (meaning.part_given s.now (cells_seen cells) at part store.old.heap)
        store.old left.old store.new left.new result }
    ensures of { AnswerOf store.new result }
    ensures later { IsLater store.old store.new }
{
    let bytes = span(s, at, part.stop);
    pay(left, part.tries)?;
    pay(left, bytes.len() as u64)?;
    let place = place_or_nil(part.next)?;
    let text = store.text(bytes)?;
    let values = single(alloc, Value::Text(text))?;
    store.set_cell(cells.place, place);
    Ok(values)
}

/// The step of a walk that stands at a place.
fn part_at(
    alloc: Global,
    store: &mut Store,
    left: &mut Left,
    cells: IteratorCells,
    s: &[u8],
    separator: &Separator,
    at: usize,
) -> Result<List<Value>, Stop>
    requires cells { AreOf store.old cells }
    requires place { at ≤ length s.now }
    ensures answer { Paid
        (meaning.part_given s.now (cells_seen cells) at
        (part_from (sought_of separator.now) s.now at) store.old.heap)
        store.old left.old store.new left.new result }
    ensures of { AnswerOf store.new result }
    ensures later { IsLater store.old store.new }
{
    match search(alloc, separator, s, at, left.steps) {
        Err(_) => Err(Stop::NoMemory),
        Ok(Search::Spent) => Err(spend(left)),
        Ok(Search::NotFound(tries)) => {
            let part = Part {
                stop: s.len(),
                next: None,
                tries,
            };
            give_part(alloc, store, left, cells, s, at, part)
        }
        Ok(Search::Found(found, tries)) => {
            let part = before_a_match(s, found.start, found.end, tries);
            give_part(alloc, store, left, cells, s, at, part)
        }
    }
}

/// The step by a separator that was read.
fn part_from_place(
    alloc: Global,
    store: &mut Store,
    left: &mut Left,
    cells: IteratorCells,
    s: &[u8],
    separator: &Separator,
) -> Result<List<Value>, Stop>
    requires { AreOf store.old cells }
    ensures answer { Paid
        (meaning.parted s.now (cells_seen cells)
        (meaning.held_place (length s.now) (cell_at store.old.heap cells.place.at))
        (sought_of separator.now) store.old.heap)
        store.old left.old store.new left.new result }
    ensures of { AnswerOf store.new result }
    ensures later { IsLater store.old store.new }
{
    match held_place(store, cells.place, s.len()) {
        None => give_nothing(alloc, store, left, 0),
        Some(at) => part_at(alloc, store, left, cells, s, separator, at),
    }
}

/// The step by a separator, which has been paid for.
fn part_by(
    alloc: Global,
    store: &mut Store,
    left: &mut Left,
    cells: IteratorCells,
    s: &[u8],
    pattern: &[u8],
    plain: bool,
) -> Result<List<Value>, Stop>
    requires { AreOf store.old cells }
    ensures answer { Paid
        (meaning.parted_by s.now (cells_seen cells)
        (meaning.held_place (length s.now) (cell_at store.old.heap cells.place.at))
        (sought_by plain pattern.now) store.old.heap)
        store.old left.old store.new left.new result }
    ensures of { AnswerOf store.new result }
    ensures later { IsLater store.old store.new }
{
    match read_separator(alloc, pattern, plain) {
        Err(fault) => Err(refuse_pattern(alloc, store, fault)),
        Ok(separator) => part_from_place(alloc, store, left, cells, s, &separator),
    }
}

/// What it costs to read what stands between the parts.
fn pattern_cost(plain: bool, pattern: &[u8]) -> u64
    ensures { result ≡ pattern_charge plain pattern.now }
{
    if plain {
        return 0;
    }
    pattern.len() as u64
}

/// A step of a walk over parts: its pattern is read anew, for a step a byte.
pub fn part_step(
    alloc: Global,
    store: &mut Store,
    left: &mut Left,
    cells: IteratorCells,
) -> Result<List<Value>, Stop>
    requires { AreOf store.old cells }
    ensures answer { Paid (meaning.part_step (cells_seen cells) store.old.heap) store.old left.old
        store.new left.new result }
    ensures of { AnswerOf store.new result }
    ensures later { IsLater store.old store.new }
{
    let s = held_text(store, cells.subject);
    let pattern = held_text(store, cells.pattern);
    let plain = is_true(store.cell(cells.other));
    pay(left, pattern_cost(plain, pattern))?;
    part_by(alloc, store, left, cells, s, pattern, plain)
}
