//! A pattern, and its first match.
ghost use Rattle.std.specs.Prelude.{◌≡◌, ◌≤◌, length, map, slice_index, IfOk};
ghost use Rattle.lua_pattern.specs.Way.{first};
ghost use Rattle.lua_pattern.specs.Found.{IsSearch, capture_of};
ghost use Rattle.lua_pattern.specs.Places.{HasPlaces};

use crate::alphabet::Alphabet;
use crate::items::Items;
use crate::passes::mark_at;
use crate::search::{Met, first_met};
use crate::slots::Slot;
use crate::trail::Trail;
use std::alloc::Global;
use std::marker::PhantomData;
use wk_base::{List, NoMemory};

/// What a capture keeps: where its text begins and where it ends, or a place, in bytes of the subject from 0.
#[derive(Clone, Copy, Debug, PartialEq, Eq)]
pub enum Capture {
    Span(usize, usize),
    Place(usize),
}

/// A pattern over an alphabet, as `Pattern::read` gives it.
#[derive(Drop)]
pub struct Pattern<A: Alphabet> {
    /// It begins with `^`: only the first place of a search is looked at.
    pub anchored: bool,
    pub items: Items,
    /// The marks of each capture.
    pub slots: List<Slot>,
    pub alphabet: PhantomData<A>,
}

/// Where a match starts and ends, in bytes of the subject from 0, and its captures in the order of their `(`.
#[derive(Drop, Debug)]
pub struct Match {
    pub start: usize,
    pub end: usize,
    pub captures: List<Capture>,
}

/// What a search gives. The number is that of the tries.
#[derive(Drop, Debug)]
pub enum Search {
    Found(Match, u64),
    NotFound(u64),
    /// The tries exceed the budget.
    Spent,
}

/// The captures, by the places of the marks.
fn captured(alloc: Global, slots: &[Slot], marks: &[usize]) -> Result<List<Capture>, NoMemory>
    ensures { IfOk result (λ v. v ≡ map (capture_of marks.now) slots.now) }
{
    let mut captures = List::new(alloc);
    for slot in slots {
        let capture = match *slot {
            Slot::Text(first, last) => Capture::Span(mark_at(marks, first), mark_at(marks, last)),
            Slot::Open(mark) => Capture::Place(mark_at(marks, mark)),
            Slot::Point(mark) => Capture::Place(mark_at(marks, mark)),
        };
        captures.push(capture)?;
    }
    Ok(captures)
}

impl<A: Alphabet> Pattern<A> {
    /// The first match from a place on, in bytes from 0, within a budget of tries (Lua 5.1 manual, 5.4.1).
    ///
    /// A try is one comparison of a single character with a symbol, one test of an anchor, a frontier or a mark of a
    /// capture, one symbol compared by `%b`, or one byte compared by a back reference. Nothing is looked at beyond the
    /// budget but by one `%b` or one back reference.
    pub fn search(
        &self,
        alloc: Global,
        subject: &[u8],
        from: usize,
        budget: u64,
    ) -> Result<Search, NoMemory>
        requires inside { from ≤ length subject.now }
        ensures first { IfOk result (λ found. IsSearch budget self.now.slots (first A.letters self.now.anchored self.now.items subject.now from) found) }
        ensures places { A.is_text subject.now → A.is_place subject.now from → IfOk result (λ found. HasPlaces (A.is_place subject.now) from found) }
    {
        let mut left = budget;
        let mut trail = Trail::new(alloc);
        let (items, idle, few) = self.items.parts();
        let met = first_met::<A>(
            self.anchored,
            items,
            idle,
            few,
            subject,
            from,
            &mut left,
            &mut trail,
        )?;
        match met {
            Met::Hit(start, end) => {
                let captures = captured(alloc, self.slots.as_slice(), trail.marks())?;
                Ok(Search::Found(
                    Match {
                        start,
                        end,
                        captures,
                    },
                    budget - left,
                ))
            }
            Met::Nowhere => Ok(Search::NotFound(budget - left)),
            Met::Spent => Ok(Search::Spent),
        }
    }
}
