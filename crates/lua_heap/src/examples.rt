//! Small heaps are what they should be: `Examples` has them, worked out by hand.
ghost use Rattle.lua_heap.specs.Examples.{ValuesDiffer, KeysKeepTheirPlace, NextPassesCleared, BordersAreLeast, ItselfInItself, CellIsShared, ReachedButNotOwned, MarkupIsNamed, RingIsShifted, StandsCrossed, CellsAreContents};

/// Which values are the same: a text is its bytes.
#[tactic(auto, using(crate::proofs::ExampleLaws::values_differ))]
pub fn values_differ()
    ensures { ValuesDiffer }
{}

/// A key that is cleared keeps its place, and has it when it is set again.
#[tactic(auto, using(crate::proofs::ExampleLaws::keys_keep_their_place))]
pub fn keys_keep_their_place()
    ensures { KeysKeepTheirPlace }
{}

/// `next` passes over cleared entries and counts them, also at the end.
#[tactic(auto, using(crate::proofs::ExampleLaws::next_passes_cleared))]
pub fn next_passes_cleared()
    ensures { NextPassesCleared }
{}

/// The border is the least one.
#[tactic(auto, using(crate::proofs::ExampleLaws::borders_are_least))]
pub fn borders_are_least()
    ensures { BordersAreLeast }
{}

/// A table that holds itself as key, value and metatable.
#[tactic(auto, using(crate::proofs::ExampleLaws::itself_in_itself))]
pub fn itself_in_itself()
    ensures { ItselfInItself }
{}

/// A cell that two functions and an iterator share.
#[tactic(auto, using(crate::proofs::ExampleLaws::cell_is_shared))]
pub fn cell_is_shared()
    ensures { CellIsShared }
{}

/// What is behind a read-only table is reached, but not owned.
#[tactic(auto, using(crate::proofs::ExampleLaws::reached_but_not_owned))]
pub fn reached_but_not_owned()
    ensures { ReachedButNotOwned }
{}

/// A markup object with a child, and what the child names.
#[tactic(auto, using(crate::proofs::ExampleLaws::markup_is_named))]
pub fn markup_is_named()
    ensures { MarkupIsNamed }
{}

/// A graph that holds itself is put behind other tables.
#[tactic(auto, using(crate::proofs::ExampleLaws::ring_is_shifted))]
pub fn ring_is_shifted()
    ensures { RingIsShifted }
{}

/// Two heaps that number the same tables the other way round stand in one another.
#[tactic(auto, using(crate::proofs::ExampleLaws::stands_crossed))]
pub fn stands_crossed()
    ensures { StandsCrossed }
{}

/// Lists of cells are contents: what some laws ask of contents is true of them.
#[tactic(auto, using(crate::proofs::ExampleLaws::cells_are_contents))]
pub fn cells_are_contents()
    ensures { CellsAreContents }
{}
