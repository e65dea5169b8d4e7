//! The cells of an iterator, and what they hold.
ghost use Rattle.std.specs.Prelude.{◌≡◌, ◌≤◌, ℕ, List as Items, [], ◌∷◌, Some, None, IfSome, MatchOption};
ghost use Rattle.lua_strings.specs.LuaHeapHeap.{cell_at};
ghost use Rattle.lua_strings.specs.LuaHeapValue as kind;
ghost use Rattle.lua_strings.specs.LuaMeaningIterators as meaning;
ghost use Rattle.lua_strings.specs.LuaStoreSeen.{StoreView, seen, seen_closure, places_of};
ghost use Rattle.lua_strings.specs.LuaStoreParts.{IsOf, IsCellOf, IsContentOf, AreCellsOf};
ghost use Rattle.lua_iterators.specs.Held.{cells_seen, AreOf, IsBelowTwo, IsNotTwo};

use lua_strings::{CellId, Closure, ClosureKind, Store, Value};

/// The cells of an iterator: `specs/Iterators.antt` of `lua_meaning` says what they hold.
#[derive(Clone, Copy, Debug)]
pub struct IteratorCells {
    pub subject: CellId,
    pub pattern: CellId,
    pub place: CellId,
    pub other: CellId,
}

/// The cells of a closure that is an iterator; none of a function.
fn closure_cells(closure: &Closure) -> &[CellId]
    ensures cells { (texts : Items (Items ℕ))
        → places_of result.now ≡ meaning.cells_of (Some (seen_closure texts closure.now)) }
    ensures of { (s : StoreView) → IsContentOf s closure.now → AreCellsOf s result.now }
{
    match closure.kind {
        ClosureKind::Iterator(_) => closure.cells.as_slice(),
        ClosureKind::Function(_) => &[],
    }
}

/// The cells of a value that is an iterator; none of any other.
fn iterator_cells<'s>(store: &'s Store, value: Value) -> &'s [CellId]
    requires { IsOf store.now value }
    ensures cells { places_of result.now
        ≡ meaning.iterator_cells store.now.heap (seen store.now.texts value) }
    ensures of { AreCellsOf store.now result.now }
{
    match value {
        Value::Closure(id) => closure_cells(store.closure(id)),
        Value::Nil => &[],
        Value::Bool(_) => &[],
        Value::Number(_) => &[],
        Value::Text(_) => &[],
        Value::Table(_) => &[],
        Value::Builtin(_) => &[],
        Value::Markup(_) => &[],
    }
}

/// The first of cells, and those behind it.
fn split_cells(cells: &[CellId]) -> Option<(CellId, &[CellId])>
    ensures { MatchOption result (cells.now ≡ []) (λ p. cells.now ≡ p.0 ∷ p.1.now) }
{
    match cells {
        [cell, more @ ..] => Some((*cell, more)),
        [] => None,
    }
}

/// The first two of cells, and those behind them.
fn split_two(cells: &[CellId]) -> Option<(CellId, CellId, &[CellId])>
    ensures { MatchOption result (IsBelowTwo cells.now) (λ p. cells.now ≡ p.0 ∷ (p.1 ∷ p.2.now)) }
{
    match split_cells(cells) {
        None => None,
        Some((first, rest)) => match split_cells(rest) {
            None => None,
            Some((second, more)) => Some((first, second, more)),
        },
    }
}

/// These cells, where they are two.
fn two(cells: &[CellId]) -> Option<(CellId, CellId)>
    ensures { MatchOption result (IsNotTwo cells.now) (λ p. cells.now ≡ p.0 ∷ (p.1 ∷ [])) }
{
    match split_two(cells) {
        None => None,
        Some((first, second, more)) => match split_cells(more) {
            None => Some((first, second)),
            Some(_) => None,
        },
    }
}

/// These cells, where they are four.
fn four(cells: &[CellId]) -> Option<IteratorCells>
    ensures cells { MatchOption result (meaning.cells_in (places_of cells.now) ≡ None) (λ c.
        meaning.cells_in (places_of cells.now) ≡ Some (cells_seen c)) }
    ensures of { IfSome result (λ c. (s : StoreView) → AreCellsOf s cells.now → AreOf s c) }
{
    match split_two(cells) {
        None => None,
        Some((subject, pattern, more)) => match two(more) {
            None => None,
            Some((place, other)) => Some(IteratorCells {
                subject,
                pattern,
                place,
                other,
            }),
        },
    }
}

/// The four cells of an iterator.
pub fn cells_of(store: &Store, value: Value) -> Option<IteratorCells>
    requires { IsOf store.now value }
    ensures cells { MatchOption result
        (meaning.cells_in (meaning.iterator_cells store.now.heap (seen store.now.texts value))
        ≡ None)
        (λ c.
        meaning.cells_in (meaning.iterator_cells store.now.heap (seen store.now.texts value))
        ≡ Some (cells_seen c)) }
    ensures of { IfSome result (AreOf store.now) }
{
    four(iterator_cells(store, value))
}

/// The bytes of a value that is a text.
fn text_held<'b>(store: &Store<'b>, value: Value) -> &'b [u8]
    requires { IsOf store.now value }
    ensures { result.now ≡ meaning.held_text (seen store.now.texts value) }
{
    match value {
        Value::Text(text) => store.bytes(text),
        Value::Nil => b"",
        Value::Bool(_) => b"",
        Value::Number(_) => b"",
        Value::Table(_) => b"",
        Value::Closure(_) => b"",
        Value::Builtin(_) => b"",
        Value::Markup(_) => b"",
    }
}

/// The text that a cell holds.
pub fn held_text<'b>(store: &Store<'b>, cell: CellId) -> &'b [u8]
    requires { IsCellOf store.now cell }
    ensures { result.now ≡ meaning.held_text (cell_at store.now.heap cell.at) }
{
    text_held(store, store.cell(cell))
}

/// A number as a count.
fn count_of(n: i64) -> usize
    ensures { result ≡ meaning.held_count (kind.Number n) }
{
    match usize::try_from(n) {
        Ok(count) => count,
        Err(_) => 0,
    }
}

/// The count that a value is.
fn count_held(value: Value) -> usize
    ensures { (texts : Items (Items ℕ)) → result ≡ meaning.held_count (seen texts value) }
{
    match value {
        Value::Number(n) => count_of(n),
        Value::Nil => 0,
        Value::Bool(_) => 0,
        Value::Text(_) => 0,
        Value::Table(_) => 0,
        Value::Closure(_) => 0,
        Value::Builtin(_) => 0,
        Value::Markup(_) => 0,
    }
}

/// The count that a cell holds.
pub fn held_count(store: &Store, cell: CellId) -> usize
    requires { IsCellOf store.now cell }
    ensures { result ≡ meaning.held_count (cell_at store.now.heap cell.at) }
{
    count_held(store.cell(cell))
}

/// A number as a place of a text with so many bytes.
fn place_of(n: i64, size: usize) -> Option<usize>
    ensures place { result ≡ meaning.held_place size (kind.Number n) }
    ensures within { IfSome result (λ at. at ≤ size) }
{
    match usize::try_from(n) {
        Ok(at) => {
            if at <= size {
                return Some(at);
            }
            None
        }
        Err(_) => None,
    }
}

/// The place that a value is.
fn place_held(value: Value, size: usize) -> Option<usize>
    ensures within { IfSome result (λ at. at ≤ size) }
    ensures place { (texts : Items (Items ℕ))
        → result ≡ meaning.held_place size (seen texts value) }
{
    match value {
        Value::Number(n) => place_of(n, size),
        Value::Nil => None,
        Value::Bool(_) => None,
        Value::Text(_) => None,
        Value::Table(_) => None,
        Value::Closure(_) => None,
        Value::Builtin(_) => None,
        Value::Markup(_) => None,
    }
}

/// The place that a cell holds, in a text with so many bytes.
pub fn held_place(store: &Store, cell: CellId, size: usize) -> Option<usize>
    requires { IsCellOf store.now cell }
    ensures place { result ≡ meaning.held_place size (cell_at store.now.heap cell.at) }
    ensures within { IfSome result (λ at. at ≤ size) }
{
    place_held(store.cell(cell), size)
}
