//! Local variables, in registers and in cells (manual 2.6).
ghost use Rattle.std.specs.Prelude.{◌≡◌, ◌++◌, ◌∷◌, [], ℕ, List, map, slice_get, IfOk, OnOk, MatchOption};
ghost use Rattle.std.specs.Option.{option_map};
ghost use Rattle.lua_store.specs.Seen.{StoreView, seen, places_of};
ghost use Rattle.lua_store.specs.Parts.{IsOf, AreCellsOf, IsLater};
ghost use Rattle.lua_code.specs.LuaSlotsSlots.{slot_value, slot_cell, place_cell, cell_value, and_cell, cells_at};
ghost use Rattle.lua_code.specs.Seen.{place_seen};
ghost use Rattle.lua_stack.specs.Seen.{slot_seen, registers_seen, captured_by};
ghost use Rattle.lua_stack.specs.Of.{RegistersOf, MayBeSlotOf, MayBeCellOf, MayBeClosureOf};
ghost use Rattle.lua_stack.specs.Places.{value_at, heap_with, written_at};

use crate::stack::Stack;
use lua_code::Place;
use lua_store::{CellId, ClosureId, Store, Value};
use mw_frame::{List, NoMemory};
use std::alloc::Global;

/// A register holds the value of its variable, or the cell that has it.
#[derive(Clone, Copy)]
pub enum Slot {
    Plain(Value),
    Boxed(CellId),
}

/// The register that is so far from the newest, if there is one.
fn newest(regs: &Stack<Slot>, at: usize) -> Option<Slot>
    ensures { result ≡ slice_get regs.now at }
{
    regs.get(at).copied()
}

/// The value of a register, or nil.
fn value_of(slot: Option<Slot>) -> Value
    ensures of { (s : StoreView) → MayBeSlotOf s slot → IsOf s result }
    ensures value { (texts : List (List ℕ)) → seen texts result ≡ slot_value (option_map (slot_seen texts) slot) }
{
    match slot {
        Some(Slot::Plain(value)) => value,
        Some(Slot::Boxed(_)) => Value::Nil,
        None => Value::Nil,
    }
}

/// The cell that a register names, if it does.
fn cell_of(slot: Option<Slot>) -> Option<CellId>
    ensures of { (s : StoreView) → MayBeSlotOf s slot → MayBeCellOf s result }
    ensures cell { (texts : List (List ℕ)) → option_map (λ c. c.at) result ≡ slot_cell (option_map (slot_seen texts) slot) }
{
    match slot {
        Some(Slot::Boxed(cell)) => Some(cell),
        Some(Slot::Plain(_)) => None,
        None => None,
    }
}

/// The cell at a place among those that the running function captured, if there is one.
fn captured(store: &Store, closure: Option<ClosureId>, at: usize) -> Option<CellId>
    requires { MayBeClosureOf store.now closure }
    ensures of { MayBeCellOf store.now result }
    ensures cell { option_map (λ c. c.at) result ≡ slice_get (captured_by store.now.heap closure) at }
{
    match closure {
        Some(id) => store.closure(id).cells.as_slice().get(at).copied(),
        None => None,
    }
}

/// The cell at a place, if there is one.
fn cell_at(
    store: &Store,
    regs: &Stack<Slot>,
    closure: Option<ClosureId>,
    place: Place,
) -> Option<CellId>
    requires registers { RegistersOf store.now regs.now }
    requires closure { MayBeClosureOf store.now closure }
    ensures of { MayBeCellOf store.now result }
    ensures cell { option_map (λ c. c.at) result ≡ place_cell (registers_seen store.now.texts regs.now) (captured_by store.now.heap closure) (place_seen place) }
{
    match place {
        Place::Register(_) => None,
        Place::Cell(at) => cell_of(newest(regs, at)),
        Place::Captured(at) => captured(store, closure, at),
    }
}

/// The value of a cell, or nil where there is none.
fn value_in(store: &Store, cell: Option<CellId>) -> Value
    requires { MayBeCellOf store.now cell }
    ensures of { IsOf store.now result }
    ensures value { seen store.now.texts result ≡ cell_value store.now.heap (option_map (λ c. c.at) cell) }
{
    match cell {
        Some(cell) => store.cell(cell),
        None => Value::Nil,
    }
}

/// The value at a place, which for want of a variable is nil. `closure` is that of the running function.
pub fn read(store: &Store, regs: &Stack<Slot>, closure: Option<ClosureId>, place: Place) -> Value
    requires registers { RegistersOf store.now regs.now }
    requires closure { MayBeClosureOf store.now closure }
    ensures of { IsOf store.now result }
    ensures value { seen store.now.texts result ≡ value_at store.now.heap (registers_seen store.now.texts regs.now) (captured_by store.now.heap closure) (place_seen place) }
{
    match place {
        Place::Register(at) => value_of(newest(regs, at)),
        Place::Cell(_) => {
            let cell = cell_at(store, regs, closure, place);
            value_in(store, cell)
        }
        Place::Captured(_) => {
            let cell = cell_at(store, regs, closure, place);
            value_in(store, cell)
        }
    }
}

/// A value into a cell, if there is one.
fn set_in(store: &mut Store, cell: Option<CellId>, value: Value)
    requires cell { MayBeCellOf store.old cell }
    requires value { IsOf store.old value }
    ensures set { store.new ≡ record store.old { heap = heap_with store.old.heap (option_map (λ c. c.at) cell) (seen store.old.texts value) } }
    ensures later { IsLater store.old store.new }
{
    if let Some(cell) = cell {
        store.set_cell(cell, value);
    }
}

/// A value to a place. Where no variable is there, nothing changes.
pub fn write(
    store: &mut Store,
    regs: &mut Stack<Slot>,
    closure: Option<ClosureId>,
    place: Place,
    value: Value,
)
    requires registers { RegistersOf store.old regs.old }
    requires closure { MayBeClosureOf store.old closure }
    requires value { IsOf store.old value }
    ensures of { RegistersOf store.new regs.new }
    ensures later { IsLater store.old store.new }
    ensures texts { store.new.texts ≡ store.old.texts }
    ensures written { (store.new.heap, registers_seen store.new.texts regs.new) ≡ written_at store.old.heap (registers_seen store.old.texts regs.old) (captured_by store.old.heap closure) (place_seen place) (seen store.old.texts value) }
{
    match place {
        Place::Register(at) => regs.set(at, Slot::Plain(value)),
        Place::Cell(_) => {
            let cell = cell_at(store, regs, closure, place);
            set_in(store, cell, value);
        }
        Place::Captured(_) => {
            let cell = cell_at(store, regs, closure, place);
            set_in(store, cell, value);
        }
    }
}

/// The first place, and those behind it.
#[derive(Clone, Copy)]
struct Front<'p> {
    place: Place,
    rest: &'p [Place],
}

fn next_place<'p>(places: &'p [Place]) -> Option<Front<'p>>
    ensures { MatchOption result (places.now ≡ []) (λ f. places.now ≡ f.place ∷ f.rest.now) }
{
    match places {
        [place, rest @ ..] => Some(Front {
            place: *place,
            rest,
        }),
        [] => None,
    }
}

/// One more cell behind others, if there is one.
fn add_cell(cells: &mut List<CellId>, cell: Option<CellId>) -> Result<(), NoMemory>
    ensures of { OnOk result ((s : StoreView) → AreCellsOf s cells.old → MayBeCellOf s cell → AreCellsOf s cells.new) }
    ensures all { OnOk result ((rest : List ℕ) → places_of cells.new ++ rest ≡ places_of cells.old ++ and_cell (option_map (λ c. c.at) cell) rest) }
{
    match cell {
        Some(cell) => {
            cells.push(cell)?;
            Ok(())
        }
        None => Ok(()),
    }
}

/// The cells that a new closure captures from these places. A place that has no cell gives none.
pub fn captures(
    alloc: Global,
    store: &Store,
    regs: &Stack<Slot>,
    closure: Option<ClosureId>,
    places: &[Place],
) -> Result<List<CellId>, NoMemory>
    requires registers { RegistersOf store.now regs.now }
    requires closure { MayBeClosureOf store.now closure }
    ensures of { IfOk result (λ cells. AreCellsOf store.now cells) }
    ensures cells { IfOk result (λ cells. places_of cells ≡ cells_at (registers_seen store.now.texts regs.now) (captured_by store.now.heap closure) (map place_seen places.now)) }
{
    let mut cells = List::new(alloc);
    let mut left = places;
    'places: while let Some(next) = next_place(left) {
        let cell = cell_at(store, regs, closure, next.place);
        add_cell(&mut cells, cell)?;
        left = next.rest;
    }
    Ok(cells)
}
