//! What stands for an object under a map; and what the calls on tables give on both sides.
ghost use Rattle.lua_heap.specs.StandingLaws.{TableStands, CellStands, ClosureStands, MarkupStands, StandsOneToOne, ObjectsGrow, SameIsSame, GetStands, HasStands, SetStands, NextStands, BorderStands};

use crate::content::Content;

/// What stands for a table is a table with the same entries, metatable and mark.
#[tactic(auto, using(crate::proofs::StandingLaws::table_stands))]
pub fn table_stands<X: Content<Y>, Y>()
    ensures { TableStands X.stands_for }
{}

/// What stands for a cell is a cell with the same value.
#[tactic(auto, using(crate::proofs::StandingLaws::cell_stands))]
pub fn cell_stands<X: Content<Y>, Y>()
    ensures { CellStands X.stands_for }
{}

/// What stands for a closure is one of its kind: a function with a content that stands for its own, or an iterator with the
/// same step and with cells that stand for its own.
#[tactic(auto, using(crate::proofs::StandingLaws::closure_stands))]
pub fn closure_stands<X: Content<Y>, Y>()
    ensures { ClosureStands X.stands_for }
{}

/// What stands for a markup object is one with the same texts, whose parent and children stand for its own.
#[tactic(auto, using(crate::proofs::StandingLaws::markup_stands))]
pub fn markup_stands<X: Content<Y>, Y>()
    ensures { MarkupStands X.stands_for }
{}

/// No two objects stand in one place.
#[tactic(auto, using(crate::proofs::StandingLaws::stands_one_to_one))]
pub fn stands_one_to_one<X: Content<Y>, Y>()
    ensures { StandsOneToOne X.stands_for }
{}

/// What stands for an object does so when the map grows.
#[tactic(auto, using(crate::proofs::StandingLaws::objects_grow))]
pub fn objects_grow<X: Content<Y>, Y>()
    ensures { ObjectsGrow X.stands_for }
{}

/// Values are the same on one side where they are on the other.
#[tactic(auto, using(crate::proofs::StandingLaws::same_is_same))]
pub fn same_is_same()
    ensures { SameIsSame }
{}

/// `rawget` finds a value that stands for the other one.
#[tactic(auto, using(crate::proofs::StandingLaws::get_stands))]
pub fn get_stands()
    ensures { GetStands }
{}

/// A key has an entry on one side where it has one on the other.
#[tactic(auto, using(crate::proofs::StandingLaws::has_stands))]
pub fn has_stands()
    ensures { HasStands }
{}

/// `rawset` leaves entries that stand for one another.
#[tactic(auto, using(crate::proofs::StandingLaws::set_stands))]
pub fn set_stands()
    ensures { SetStands }
{}

/// `next` stops at the same place, after as many cleared entries, or is refused on both sides.
#[tactic(auto, using(crate::proofs::StandingLaws::next_stands))]
pub fn next_stands()
    ensures { NextStands }
{}

/// The border is the same.
#[tactic(auto, using(crate::proofs::StandingLaws::border_stands))]
pub fn border_stands()
    ensures { BorderStands }
{}
