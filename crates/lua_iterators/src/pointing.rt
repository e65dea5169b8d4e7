//! A step of an iterator that `gcodepoint` gives: the next code point (Scribunto, mw.ustring.gcodepoint).
ghost use Rattle.std.specs.Prelude.{◌≡◌, ◌∷◌, [], ℕ, List as Items, pos, drop};
ghost use Rattle.lua_string.specs.LuaPatternTexts.{points};
ghost use Rattle.lua_strings.specs.LuaHeapHeap.{set_cell_in};
ghost use Rattle.lua_strings.specs.LuaHeapValue as kind;
ghost use Rattle.lua_strings.specs.LuaMeaningArguments.{costs};
ghost use Rattle.lua_strings.specs.LuaMeaningIterators as meaning;
ghost use Rattle.lua_strings.specs.LuaStoreSeen.{StoreView, seen};
ghost use Rattle.lua_strings.specs.LuaStoreParts.{IsOf, IsLater};
ghost use Rattle.lua_strings.specs.LuaBasicSeen.{Free, Paid, AnswerOf};
ghost use Rattle.lua_iterators.specs.Held.{cells_seen, AreOf};

use crate::cells::{IteratorCells, held_place, held_text};
use lua_string::List;
use lua_strings::{Left, Stop, Store, Value, single};
use mw_text::{OnePoint, symbol_at};
use mw_ustrings::giving::{give_nothing, number};
use std::alloc::Global;

/// A code point as a value.
fn point_value(point: char) -> Value
    ensures of { (s : StoreView) → IsOf s result }
    ensures value { (texts : Items (Items ℕ)) → seen texts result ≡ kind.Number (pos point) }
{
    Value::Number(i64::from(u32::from(point)))
}

/// A code point is given, and the walk goes on at a place.
fn give_point(
    alloc: Global,
    store: &mut Store,
    cells: IteratorCells,
    point: char,
    next: usize,
) -> Result<List<Value>, Stop>
    requires { AreOf store.old cells }
    ensures answer { Free
        (costs 0 (set_cell_in store.old.heap cells.place.at (kind.Number (pos next)))
        (kind.Number (pos point) ∷ []))
        store.new result }
    ensures of { AnswerOf store.new result }
    ensures later { IsLater store.old store.new }
{
    let place = number(next)?;
    let values = single(alloc, point_value(point))?;
    store.set_cell(cells.place, place);
    Ok(values)
}

/// The step of a walk that stands at a place.
fn point_at(
    alloc: Global,
    store: &mut Store,
    left: &mut Left,
    cells: IteratorCells,
    s: &[u8],
    at: usize,
) -> Result<List<Value>, Stop>
    requires { AreOf store.old cells }
    ensures answer { Paid
        (meaning.point_given (cells_seen cells) at (points.symbols (drop at s.now)) store.old.heap)
        store.old left.old store.new left.new result }
    ensures of { AnswerOf store.new result }
    ensures later { IsLater store.old store.new }
{
    match symbol_at::<OnePoint>(s, at) {
        None => give_nothing(alloc, store, left, 0),
        Some((point, size)) => give_point(alloc, store, cells, point, at + size),
    }
}

/// A step of a walk over code points.
pub fn point_step(
    alloc: Global,
    store: &mut Store,
    left: &mut Left,
    cells: IteratorCells,
) -> Result<List<Value>, Stop>
    requires { AreOf store.old cells }
    ensures answer { Paid (meaning.point_step (cells_seen cells) store.old.heap) store.old left.old
        store.new left.new result }
    ensures of { AnswerOf store.new result }
    ensures later { IsLater store.old store.new }
{
    let s = held_text(store, cells.subject);
    match held_place(store, cells.place, s.len()) {
        None => give_nothing(alloc, store, left, 0),
        Some(at) => point_at(alloc, store, left, cells, s, at),
    }
}
