//! All functions in progress, from the innermost to the text itself.
ghost use Rattle.std.specs.Prelude.{◌≡◌, ◌∷◌, [], true, map, length, IfOk, OnOk};
ghost use Rattle.std.specs.Option.{option_map};
ghost use Rattle.lua_code.specs.Seen.{place_seen};
ghost use Rattle.lua_scopes.specs.Scopes.{nothing_known, closed_to, declared, entered, stack, IsLeft, IsPlaced};
ghost use Rattle.lua_scopes.specs.Spots.{Reaches};

use crate::cells::Cells;
use crate::level::{Capture, Level, Variable};
use crate::names::Numbers;
use crate::sketch::Sketch;
use crate::spots::{Entry, Found, Named, SpotMap, find, place_of};
use crate::stack::Stack;
use lua_code::{Bytes, List, NoMemory, Place};
use std::alloc::Global;
use std::hash::RandomState;
use std::marker::Model;
use std::mem::replace;

/// The functions in progress, and which variables have cells.
#[derive(Drop)]
pub struct Scopes<'t> {
    alloc: Global,
    level: Level<'t>,
    outer: Stack<Level<'t>>,
    spots: SpotMap<'t>,
    numbers: Numbers,
    cells: Cells,
    /// Lists of variables of functions that ended.
    rooms: Stack<Stack<Variable<'t>>>,
}

impl<'t> Model for Scopes<'t> {
    ghost use Rattle.std.specs.Prelude.{◌≡◌, ◌∷◌, true, map};
    ghost use Rattle.lua_scopes.specs.Scopes.{Scopes as ScopesSeen};
    ghost use Rattle.lua_scopes.specs.Spots.{level_seen, AreSound};

    ghost Value = { ScopesSeen };

    ghost view = { λ s. record { clean = s.cells.clean; level = level_seen s.level; outer = map level_seen s.outer } };

    ghost invariant = { λ s. s.cells.clean ≡ true → AreSound (s.level ∷ s.outer) s.spots.entries };
}

impl<'t> Scopes<'t> {
    /// The text itself, of which nothing is known but what a sketch tells.
    pub fn new(alloc: Global, sketch: Sketch<'t>) -> Scopes<'t>
        ensures { result ≡ record { clean = true; level = nothing_known; outer = [] } }
    {
        let Sketch {
            names,
            numbers,
            captured,
        } = sketch;
        Scopes {
            alloc,
            level: Level::new(alloc, Stack::new(alloc)),
            outer: Stack::new(alloc),
            spots: names.into_spots(),
            numbers: Numbers::new(numbers),
            cells: Cells::new(captured),
            rooms: Stack::new(alloc),
        }
    }

    /// Whether all that functions captured had cells.
    pub fn is_clean(&self) -> bool
        ensures { result ≡ self.now.clean }
    {
        self.cells.clean
    }

    /// What this going over a text tells for the next one: which variables turned out to need cells.
    pub fn into_sketch(self, seed: RandomState) -> Sketch<'t> {
        Sketch::of_captured(self.alloc, seed, self.cells.into_flags())
    }

    /// How many local variables the innermost function has.
    pub fn len(&self) -> usize
        ensures { result ≡ length self.now.level.locals }
    {
        self.level.variables.len()
    }

    /// One more local variable; whether it has a cell.
    pub fn declare(&mut self, name: &'t Bytes) -> Result<bool, NoMemory>
        ensures { IfOk result (λ boxed. self.new ≡ declared name.now boxed self.old) }
    {
        let cell = self.cells.declare()?;
        let named = self.numbers.next(name);
        let variable = Variable {
            name,
            at: named.number,
            boxed: cell.boxed,
            number: cell.number,
            shadowed: find(&self.spots, named),
        };
        let depth = self.outer.len();
        match self.level.declare(&mut self.spots, variable, depth) {
            Ok(_) => Ok(cell.boxed),
            Err(_) => {
                self.cells.clean = false;
                Err(NoMemory)
            }
        }
    }

    /// Only the oldest so many local variables are left.
    pub fn close(&mut self, count: usize) -> Result<(), NoMemory>
        ensures { OnOk result (self.new ≡ record self.old { level = closed_to count self.old.level }) }
    {
        match self.level.close(&mut self.spots, count) {
            Ok(_) => Ok(()),
            Err(_) => {
                self.cells.clean = false;
                Err(NoMemory)
            }
        }
    }

    /// A function begins.
    pub fn enter(&mut self) -> Result<(), NoMemory>
        ensures { OnOk result (self.new ≡ entered self.old) }
    {
        let inner = Level::new(self.alloc, room(self.alloc, &mut self.rooms));
        let around = replace(&mut self.level, inner);
        match self.outer.push(around) {
            Ok(_) => Ok(()),
            Err(_) => {
                self.cells.clean = false;
                Err(NoMemory)
            }
        }
    }

    /// The innermost function ends, unless it is the text itself. The places from which it captured.
    pub fn leave(&mut self) -> Result<List<Place>, NoMemory>
        ensures { IfOk result (λ places. IsLeft self.old self.new (map place_seen places)) }
    {
        let Some(around) = self.outer.pop() else {
            return Ok(List::new(self.alloc));
        };
        let inner = replace(&mut self.level, around);
        match inner.end(&mut self.spots) {
            Ok(ended) => {
                keep(&mut self.rooms, ended.room);
                Ok(ended.places)
            }
            Err(_) => {
                self.cells.clean = false;
                Err(NoMemory)
            }
        }
    }

    /// Where a name stands; `None` where it is global.
    pub fn place(&mut self, name: &'t Bytes) -> Result<Option<Place>, NoMemory>
        ensures { IfOk result (λ p. self.new.clean ≡ true → (self.old.clean ≡ true) × IsPlaced (stack self.old) (stack self.new) name.now (option_map place_seen p)) }
    {
        let named = self.numbers.next(name);
        let Some(entry) = find(&self.spots, named) else {
            return Ok(None);
        };
        if entry.depth == self.outer.len() {
            return Ok(Some(place_of(entry.spot, self.level.variables.len()).place));
        }
        match reach(
            &mut self.level,
            &mut self.outer,
            &mut self.spots,
            &mut self.cells,
            named,
            entry,
        ) {
            Ok(found) => Ok(Some(found.place)),
            Err(_) => {
                self.cells.clean = false;
                Err(NoMemory)
            }
        }
    }
}

/// A list for variables, of a function that ended if there is one.
fn room<'t>(alloc: Global, rooms: &mut Stack<Stack<Variable<'t>>>) -> Stack<Variable<'t>> {
    match rooms.pop() {
        Some(room) => room,
        None => Stack::new(alloc),
    }
}

/// Keeps a list for another function, if there is memory to keep it.
fn keep<'t>(rooms: &mut Stack<Stack<Variable<'t>>>, room: Stack<Variable<'t>>) {
    match rooms.push(room) {
        Ok(_) | Err(_) => {}
    }
}

/// Where a name stands in a function. If another one around knows it, it is captured from there, through those between.
fn reach<'t>(
    level: &mut Level<'t>,
    outer: &mut Stack<Level<'t>>,
    spots: &mut SpotMap<'t>,
    cells: &mut Cells,
    named: Named<'t>,
    entry: Entry,
) -> Result<Found, NoMemory>
    ensures { IfOk result (λ f. cells.new.clean ≡ true → (cells.old.clean ≡ true) × Reaches (level.old ∷ outer.old) (level.new ∷ outer.new) spots.old.entries spots.new.entries named.entry.name.now entry f) }
{
    if entry.depth == outer.len() {
        return Ok(place_of(entry.spot, level.variables.len()));
    }
    let Some(mut around) = outer.pop() else {
        // the map knows of no function beyond the text itself
        return Err(NoMemory);
    };
    let beyond = reach(&mut around, outer, spots, cells, named, entry)?;
    outer.push(around)?;
    cells.captured(beyond.plain);
    let capture = Capture {
        name: named.name,
        at: named.number,
        shadowed: find(spots, named),
    };
    let place = level.capture(spots, capture, beyond.place, outer.len())?;
    Ok(Found { place, plain: None })
}
