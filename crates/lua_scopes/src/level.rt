//! One function in progress: its local variables and what it captures.
ghost use Rattle.std.specs.Prelude.{◌≡◌, ◌∷◌, List as Items, IfOk, OnOk};
ghost use Rattle.lua_scopes.specs.Spots.{new_level, IsDeclared, IsEnded, IsClosed, IsRight, IsCapturing, IsGivenBack};
ghost use Rattle.lua_scopes.specs.declared.level.Level.{Level as Held};

use crate::spots::{Entry, Named, Spot, SpotMap, note};
use crate::stack::Stack;
use lua_code::{Bytes, List, NoMemory, Place};
use std::alloc::Global;

/// A local variable: its name and where that may stand in the map, whether it has a cell, its number among the declarations, and what
/// was known of its name before.
#[derive(Clone, Copy)]
pub(crate) struct Variable<'t> {
    pub(crate) name: &'t Bytes,
    pub(crate) at: usize,
    pub(crate) boxed: bool,
    pub(crate) number: usize,
    pub(crate) shadowed: Option<Entry>,
}

/// A name that a function captures, where it may stand in the map, and what was known of it before.
#[derive(Clone, Copy)]
pub(crate) struct Capture<'t> {
    pub(crate) name: &'t Bytes,
    pub(crate) at: usize,
    pub(crate) shadowed: Option<Entry>,
}

/// What is left of a function that ended: the places from which it captured, and the list of its variables, whose room another function
/// can use.
#[derive(Drop)]
pub(crate) struct Ended<'t> {
    pub(crate) places: List<Place>,
    pub(crate) room: Stack<Variable<'t>>,
}

/// A function in progress: its local variables, the newest first, and what it captures, from places of the function around.
#[derive(Drop)]
pub(crate) struct Level<'t> {
    pub(crate) variables: Stack<Variable<'t>>,
    pub(crate) captures: List<Capture<'t>>,
    pub(crate) places: List<Place>,
}

impl<'t> Level<'t> {
    /// A function of which nothing is known yet. Its variables will stand in this list, which is emptied.
    pub(crate) fn new(alloc: Global, room: Stack<Variable<'t>>) -> Level<'t>
        ensures { result ≡ new_level }
    {
        let mut variables = room;
        variables.clear();
        Level {
            variables,
            captures: List::new(alloc),
            places: List::new(alloc),
        }
    }

    /// One more local variable of a function that has so many around it.
    pub(crate) fn declare(
        &mut self,
        spots: &mut SpotMap<'t>,
        variable: Variable<'t>,
        depth: usize,
    ) -> Result<(), NoMemory>
        ensures { OnOk result (IsDeclared self.old self.new variable.entry depth spots.old.entries spots.new.entries) }
    {
        let spot = Spot::Local(self.variables.len(), variable.boxed, variable.number);
        self.variables.push(variable)?;
        note(
            spots,
            Named {
                name: variable.name,
                number: variable.at,
            },
            Some(Entry { depth, spot }),
        )
    }

    /// Only the oldest so many local variables are left.
    pub(crate) fn close(&mut self, spots: &mut SpotMap<'t>, count: usize) -> Result<(), NoMemory>
        ensures { OnOk result (IsClosed count self.old self.new spots.old.entries spots.new.entries) }
    {
        while self.variables.len() > count {
            self.end_newest(spots)?;
        }
        Ok(())
    }

    /// The newest local variable ends. Its name stands for what it stood for before.
    fn end_newest(&mut self, spots: &mut SpotMap<'t>) -> Result<(), NoMemory>
        ensures { OnOk result (IsEnded self.old self.new spots.old.entries spots.new.entries) }
    {
        match self.variables.pop() {
            None => Ok(()),
            Some(variable) => note(
                spots,
                Named {
                    name: variable.name,
                    number: variable.at,
                },
                variable.shadowed,
            ),
        }
    }

    /// A function that has so many around it captures a name from a place of the innermost of these. Its place here.
    pub(crate) fn capture(
        &mut self,
        spots: &mut SpotMap<'t>,
        capture: Capture<'t>,
        from: Place,
        depth: usize,
    ) -> Result<Place, NoMemory>
        ensures { IfOk result (λ p. IsCapturing self.old self.new capture.entry from depth spots.old.entries spots.new.entries p) }
    {
        let index = self.captures.as_slice().len();
        self.captures.push(capture)?;
        self.places.push(from)?;
        let spot = Spot::Captured(index);
        note(
            spots,
            Named {
                name: capture.name,
                number: capture.at,
            },
            Some(Entry { depth, spot }),
        )?;
        Ok(Place::Captured(index))
    }

    /// The function ends: names stand for what they stand for around it. The places from which it captured.
    pub(crate) fn end(mut self, spots: &mut SpotMap<'t>) -> Result<Ended<'t>, NoMemory>
        ensures places { IfOk result (λ ended. ended.places ≡ self.entry.places) }
        ensures right { OnOk result ((ls : Items Held) → IsRight (self.entry ∷ ls) spots.old.entries → IsRight ls spots.new.entries) }
    {
        self.close(spots, 0)?;
        give_back(self.captures.as_slice(), spots)?;
        Ok(Ended {
            places: self.places,
            room: self.variables,
        })
    }
}

/// Captured names stand for what they stood for before.
fn give_back<'t>(captures: &[Capture<'t>], spots: &mut SpotMap<'t>) -> Result<(), NoMemory>
    ensures { OnOk result (IsGivenBack captures.now spots.old.entries spots.new.entries) }
{
    for capture in captures {
        note(
            spots,
            Named {
                name: capture.name,
                number: capture.at,
            },
            capture.shadowed,
        )?;
    }
    Ok(())
}
