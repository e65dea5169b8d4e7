//! A step of an iterator that `gmatch` gives: the next match, over bytes or over code points (manual 5.4; Scribunto, Ustring library).
ghost use Rattle.std.specs.Prelude.{◌≡◌, ◌+◌, ◌≤◌, ◌∷◌, [], length, OnOk};
ghost use Rattle.lua_string.specs.LuaPatternRead.{read_unanchored, codes};
ghost use Rattle.lua_string.specs.LuaPatternSizes.{match_bytes};
ghost use Rattle.lua_string.specs.Walk.{walk};
ghost use Rattle.lua_strings.specs.LuaHeapHeap.{cell_at, set_cell_in};
ghost use Rattle.lua_strings.specs.LuaHeapValue as kind;
ghost use Rattle.lua_strings.specs.LuaMeaningArguments.{costs};
ghost use Rattle.lua_strings.specs.LuaMeaningIterators as meaning;
ghost use Rattle.lua_strings.specs.LuaStoreParts.{IsLater};
ghost use Rattle.lua_strings.specs.LuaBasicSeen.{Paid, AnswerOf};
ghost use Rattle.lua_iterators.specs.Held.{cells_seen, AreOf};

use crate::captures::match_values;
use crate::cells::{IteratorCells, held_count, held_place, held_text};
use crate::symbols::{count_value, next_place};
use lua_string::{List, NoMemory};
use lua_strings::{Left, Stop, Store, Value, single};
use mw_text::{Alphabet, Match, Pattern, Search};
use mw_ustrings::arguments::refuse_pattern;
use mw_ustrings::captures::pay_match;
use mw_ustrings::giving::{give_nothing, number, spend};
use mw_ustrings::pay;
use std::alloc::Global;

/// The walk goes on at a place, or it has ended.
fn go_on<A: Alphabet>(
    store: &mut Store,
    cells: IteratorCells,
    s: &[u8],
    at: usize,
    before: usize,
    next: Option<usize>,
) -> Result<(), NoMemory>
    requires { AreOf store.old cells }
    ensures heap { OnOk result (store.new.heap
        ≡ meaning.goes_on A.letters s.now (record { at = at; before = before }) (cells_seen cells)
        next store.old.heap) }
    ensures texts { store.new.texts ≡ store.old.texts }
    ensures later { IsLater store.old store.new }
{
    match next {
        None => {
            store.set_cell(cells.place, Value::Nil);
            Ok(())
        }
        Some(next) => {
            let place = number(next)?;
            let count = count_value::<A>(s, at, before, next)?;
            store.set_cell(cells.place, place);
            store.set_cell(cells.other, count);
            Ok(())
        }
    }
}

/// There is no match any more.
fn end_walk(
    alloc: Global,
    store: &mut Store,
    left: &mut Left,
    cells: IteratorCells,
    tries: u64,
) -> Result<List<Value>, Stop>
    requires { AreOf store.old cells }
    ensures answer { Paid
        (costs tries (set_cell_in store.old.heap cells.place.at kind.Nil) (kind.Nil ∷ [])) store.old
        left.old store.new left.new result }
    ensures of { AnswerOf store.new result }
    ensures later { IsLater store.old store.new }
{
    pay(left, tries)?;
    let values = single(alloc, Value::Nil)?;
    store.set_cell(cells.place, Value::Nil);
    Ok(values)
}

/// A match is given, for its tries and the bytes of its texts, and the walk goes on behind it.
fn give_match<A: Alphabet>(
    alloc: Global,
    store: &mut Store,
    left: &mut Left,
    cells: IteratorCells,
    s: &[u8],
    at: usize,
    before: usize,
    next: Option<usize>,
    found: &Match,
    tries: u64,
) -> Result<List<Value>, Stop>
    requires { AreOf store.old cells }
    ensures answer { Paid
        (costs (tries + match_bytes found.now)
        (meaning.goes_on A.letters s.now (record { at = at; before = before })
        (cells_seen cells) next store.old.heap)
        (meaning.match_given A.letters s.now (record { at = at; before = before }) found.now))
        store.old left.old store.new left.new result }
    ensures of { AnswerOf store.new result }
    ensures later { IsLater store.old store.new }
{
    pay(left, tries)?;
    pay_match(left, found)?;
    let values = match_values::<A>(alloc, store, s, at, before, found)?;
    go_on::<A>(store, cells, s, at, before, next)?;
    Ok(values)
}

/// The step of a walk that stands at a place.
fn walk_at<A: Alphabet>(
    alloc: Global,
    store: &mut Store,
    left: &mut Left,
    cells: IteratorCells,
    s: &[u8],
    pattern: &Pattern<A>,
    at: usize,
    before: usize,
) -> Result<List<Value>, Stop>
    requires cells { AreOf store.old cells }
    requires place { at ≤ length s.now }
    ensures answer { Paid
        (meaning.walked A.letters s.now (record { at = at; before = before }) (cells_seen cells)
        pattern.now.slots (walk A.letters pattern.now.anchored pattern.now.items s.now at)
        store.old.heap)
        store.old left.old store.new left.new result }
    ensures of { AnswerOf store.new result }
    ensures later { IsLater store.old store.new }
{
    match pattern.search(alloc, s, at, left.steps) {
        Err(_) => Err(Stop::NoMemory),
        Ok(Search::Spent) => Err(spend(left)),
        Ok(Search::NotFound(tries)) => end_walk(alloc, store, left, cells, tries),
        Ok(Search::Found(found, tries)) => {
            let next = next_place::<A>(pattern.anchored, s, found.start, found.end);
            give_match::<A>(
                alloc, store, left, cells, s, at, before, next, &found, tries,
            )
        }
    }
}

/// The step by a pattern that was read.
fn walk_from<A: Alphabet>(
    alloc: Global,
    store: &mut Store,
    left: &mut Left,
    cells: IteratorCells,
    s: &[u8],
    pattern: &Pattern<A>,
) -> Result<List<Value>, Stop>
    requires { AreOf store.old cells }
    ensures answer { Paid
        (meaning.walks A.letters s.now (cells_seen cells)
        (meaning.held_place (length s.now) (cell_at store.old.heap cells.place.at))
        pattern.now.anchored pattern.now.items pattern.now.slots store.old.heap)
        store.old left.old store.new left.new result }
    ensures of { AnswerOf store.new result }
    ensures later { IsLater store.old store.new }
{
    match held_place(store, cells.place, s.len()) {
        None => give_nothing(alloc, store, left, 0),
        Some(at) => {
            let before = held_count(store, cells.other);
            walk_at::<A>(alloc, store, left, cells, s, pattern, at, before)
        }
    }
}

/// The step by a pattern, which has been paid for.
fn walk_by<A: Alphabet>(
    alloc: Global,
    store: &mut Store,
    left: &mut Left,
    cells: IteratorCells,
    s: &[u8],
    pattern: &[u8],
) -> Result<List<Value>, Stop>
    requires { AreOf store.old cells }
    ensures answer { Paid
        (meaning.walks_by A.letters s.now (cells_seen cells)
        (meaning.held_place (length s.now) (cell_at store.old.heap cells.place.at))
        (read_unanchored (codes A.letters pattern.now)) store.old.heap)
        store.old left.old store.new left.new result }
    ensures of { AnswerOf store.new result }
    ensures later { IsLater store.old store.new }
{
    match Pattern::<A>::read_unanchored(alloc, pattern) {
        Err(fault) => Err(refuse_pattern(alloc, store, fault)),
        Ok(pattern) => walk_from::<A>(alloc, store, left, cells, s, &pattern),
    }
}

/// A step of a walk over matches: its pattern is read anew, for a step a byte.
pub fn match_step<A: Alphabet>(
    alloc: Global,
    store: &mut Store,
    left: &mut Left,
    cells: IteratorCells,
) -> Result<List<Value>, Stop>
    requires { AreOf store.old cells }
    ensures answer { Paid (meaning.match_step A.letters (cells_seen cells) store.old.heap) store.old
        left.old store.new left.new result }
    ensures of { AnswerOf store.new result }
    ensures later { IsLater store.old store.new }
{
    let s = held_text(store, cells.subject);
    let pattern = held_text(store, cells.pattern);
    pay(left, pattern.len() as u64)?;
    walk_by::<A>(alloc, store, left, cells, s, pattern)
}
