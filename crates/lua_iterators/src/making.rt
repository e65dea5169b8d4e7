//! New iterators: a closure of the library, with its state in four cells.
ghost use Rattle.std.specs.Prelude.{◌≡◌, ◌∷◌, [], pos, Some, ℕ, List as Items, IfOk, OnOk};
ghost use Rattle.lua_strings.specs.LuaHeapHeap.{Heap, Iterator, new_closure};
ghost use Rattle.lua_strings.specs.LuaHeapProc.{Proc};
ghost use Rattle.lua_strings.specs.LuaHeapValue as kind;
ghost use Rattle.lua_strings.specs.LuaMeaningArguments.{Gives};
ghost use Rattle.lua_strings.specs.LuaMeaningValues.{text_in};
ghost use Rattle.lua_strings.specs.LuaMeaningIterators as meaning;
ghost use Rattle.lua_strings.specs.LuaStoreSeen.{seen};
ghost use Rattle.lua_strings.specs.LuaStoreParts.{IsOf, IsCellOf, IsClosureOf, IsLater};
ghost use Rattle.lua_strings.specs.LuaBasicSeen.{values_seen, AllOf, Paid, AnswerOf};
ghost use Rattle.lua_iterators.specs.Held.{AreOf};

use crate::cells::IteratorCells;
use lua_string::{List, NoMemory};
use lua_strings::{
    CLOSURE_CHARGE, CellId, ClosureId, ClosureKind, Left, Library, Stop, Store, Value, single,
};
use mw_ustrings::pay;
use std::alloc::Global;

/// A new cell with a value, in front of others that are made after it.
fn add_cell(store: &mut Store, value: Value) -> Result<CellId, NoMemory>
    requires { IsOf store.old value }
    ensures of { IfOk result (IsCellOf store.new) }
    ensures made { IfOk result (λ id.
        (more : Items kind.Value) (h : Heap Proc) (ids : Items ℕ)
        → meaning.new_cells more store.new.heap ≡ (h, ids)
        → meaning.new_cells (seen store.old.texts value ∷ more) store.old.heap
        ≡ (h, id.at ∷ ids)) }
    ensures texts { store.new.texts ≡ store.old.texts }
    ensures later { IsLater store.old store.new }
{
    store.new_cell(value)
}

/// Four new cells with these values.
fn four_cells(
    store: &mut Store,
    subject: Value,
    pattern: Value,
    place: Value,
    other: Value,
) -> Result<IteratorCells, NoMemory>
    requires subject { IsOf store.old subject }
    requires pattern { IsOf store.old pattern }
    requires place { IsOf store.old place }
    requires other { IsOf store.old other }
    ensures of { IfOk result (AreOf store.new) }
    ensures made { IfOk result (λ c.
        meaning.new_cells
        (seen store.old.texts subject ∷ seen store.old.texts pattern
        ∷ seen store.old.texts place ∷ seen store.old.texts other ∷ [])
        store.old.heap
        ≡ (store.new.heap, c.subject.at ∷ c.pattern.at ∷ c.place.at ∷ c.other.at ∷ [])) }
    ensures texts { store.new.texts ≡ store.old.texts }
    ensures later { IsLater store.old store.new }
{
    let subject = add_cell(store, subject)?;
    let pattern = add_cell(store, pattern)?;
    let place = add_cell(store, place)?;
    let other = add_cell(store, other)?;
    Ok(IteratorCells {
        subject,
        pattern,
        place,
        other,
    })
}

/// The cells as a list.
fn cell_list(alloc: Global, cells: IteratorCells) -> Result<List<CellId>, NoMemory>
    ensures { IfOk result (λ ids.
        ids ≡ cells.subject ∷ cells.pattern ∷ cells.place ∷ cells.other ∷ []) }
{
    let mut ids = List::new(alloc);
    ids.push(cells.subject)?;
    ids.push(cells.pattern)?;
    ids.push(cells.place)?;
    ids.push(cells.other)?;
    Ok(ids)
}

/// A new closure over these cells.
fn new_iterator(
    alloc: Global,
    store: &mut Store,
    step: Library,
    cells: IteratorCells,
) -> Result<ClosureId, NoMemory>
    requires { AreOf store.old cells }
    ensures of { IfOk result (IsClosureOf store.new) }
    ensures id { IfOk result (λ id.
        id.at
        ≡ (new_closure store.old.heap (Iterator step (cells.subject.at ∷ cells.pattern.at ∷ cells.place.at ∷ cells.other.at ∷ []))).1) }
    ensures made { OnOk result (store.new.heap
        ≡ (new_closure store.old.heap (Iterator step (cells.subject.at ∷ cells.pattern.at ∷ cells.place.at ∷ cells.other.at ∷ []))).0) }
    ensures texts { store.new.texts ≡ store.old.texts }
    ensures later { IsLater store.old store.new }
{
    let ids = cell_list(alloc, cells)?;
    store.new_closure(ClosureKind::Iterator(step), ids)
}

/// A new iterator with these values in its cells is given. It is paid for already.
fn give_iterator(
    alloc: Global,
    store: &mut Store,
    step: Library,
    subject: Value,
    pattern: Value,
    other: Value,
) -> Result<List<Value>, NoMemory>
    requires subject { IsOf store.old subject }
    requires pattern { IsOf store.old pattern }
    requires other { IsOf store.old other }
    ensures end { IfOk result (λ values.
        (meaning.make_iterator step (seen store.old.texts subject ∷ seen store.old.texts pattern ∷ kind.Number (pos 0) ∷ seen store.old.texts other ∷ []) store.old.heap).end
        ≡ Gives (values_seen store.new.texts values)) }
    ensures heap { OnOk result ((meaning.make_iterator step (seen store.old.texts subject ∷ seen store.old.texts pattern ∷ kind.Number (pos 0) ∷ seen store.old.texts other ∷ []) store.old.heap).heap
        ≡ store.new.heap) }
    ensures of { IfOk result (AllOf store.new) }
    ensures later { IsLater store.old store.new }
{
    let cells = four_cells(store, subject, pattern, Value::Number(0), other)?;
    let id = new_iterator(alloc, store, step, cells)?;
    let values = single(alloc, Value::Closure(id))?;
    Ok(values)
}

/// The text of an argument as a value: the argument itself, or where that is a number, its digits.
fn as_value(store: &mut Store, given: Value, text: &[u8]) -> Result<Value, NoMemory>
    requires of { IsOf store.old given }
    requires text { text_in (seen store.old.texts given) ≡ Some text.now }
    ensures of { IfOk result (IsOf store.new) }
    ensures value { IfOk result (λ v. seen store.new.texts v ≡ kind.Text text.now) }
    ensures heap { store.new.heap ≡ store.old.heap }
    ensures later { IsLater store.old store.new }
{
    match given {
        Value::Text(id) => Ok(Value::Text(id)),
        _ => {
            let id = store.text(text)?;
            Ok(Value::Text(id))
        }
    }
}

/// An iterator over a text by a pattern is given, for what a closure costs. `subject` and `pattern` are the arguments whose texts are
/// `s` and `p`.
pub fn make_by_pattern(
    alloc: Global,
    store: &mut Store,
    left: &mut Left,
    step: Library,
    subject: Value,
    s: &[u8],
    pattern: Value,
    p: &[u8],
    other: Value,
) -> Result<List<Value>, Stop>
    requires subject { IsOf store.old subject }
    requires s { text_in (seen store.old.texts subject) ≡ Some s.now }
    requires pattern { IsOf store.old pattern }
    requires p { text_in (seen store.old.texts pattern) ≡ Some p.now }
    requires other { IsOf store.old other }
    ensures answer { Paid
        (meaning.make_iterator step
        (kind.Text s.now ∷ kind.Text p.now ∷ kind.Number (pos 0) ∷ seen store.old.texts other
        ∷ [])
        store.old.heap)
        store.old left.old store.new left.new result }
    ensures of { AnswerOf store.new result }
    ensures later { IsLater store.old store.new }
{
    pay(left, CLOSURE_CHARGE)?;
    let subject = as_value(store, subject, s)?;
    let pattern = as_value(store, pattern, p)?;
    let values = give_iterator(alloc, store, step, subject, pattern, other)?;
    Ok(values)
}

/// An iterator over the code points of a text is given, for what a closure costs.
pub fn make_gcodepoint(
    alloc: Global,
    store: &mut Store,
    left: &mut Left,
    part: &[u8],
) -> Result<List<Value>, Stop>
    ensures answer { Paid (meaning.make_gcodepoint part.now store.old.heap) store.old left.old
        store.new left.new result }
    ensures of { AnswerOf store.new result }
    ensures later { IsLater store.old store.new }
{
    pay(left, CLOSURE_CHARGE)?;
    let text = store.text(part)?;
    let values = give_iterator(
        alloc,
        store,
        Library::GcodepointStep,
        Value::Text(text),
        Value::Nil,
        Value::Nil,
    )?;
    Ok(values)
}
