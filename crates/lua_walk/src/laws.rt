//! The walk reaches what it should; data are graphs; and copies are new (`Laws`).
ghost use Rattle.lua_walk.specs.Laws.{ReachedIsAll, MoreFindNothing, TakenIsGraph, TakenIsReached, CopyChangesNothing, TakenIsSame, CopyCostsTheSame, CopyMoves};

use lua_heap::Content;

/// As many visits as the heap has tables reach all to which steps lead, each once.
pub fn reached_is_all<X>()
    ensures { ReachedIsAll X }
{}

/// More visits find nothing more.
pub fn more_find_nothing<X>()
    ensures { MoreFindNothing X }
{}

/// What is taken is a graph, where the keys of each table differ.
pub fn taken_is_graph<X>()
    ensures { TakenIsGraph X }
{}

/// Each table of what is taken is reached from its root, also where it joined another heap.
pub fn taken_is_reached<X>()
    ensures { TakenIsReached X }
{}

/// A copy changes nothing that is there, and can be written.
pub fn copy_changes_nothing<X>()
    ensures { CopyChangesNothing X }
{}

/// A value, and what stands for it in another heap, are the same data, or have the same first fault.
pub fn taken_is_same<X: Content<Y>, Y>()
    ensures { TakenIsSame X.stands_for }
{}

/// Copies of a value, and of what stands for it, cost the same.
pub fn copy_costs_the_same<X: Content<Y>, Y>()
    ensures { CopyCostsTheSame X.stands_for }
{}

/// A copy of a value, and of what stands for it, keep to what stands, and stand for each other.
pub fn copy_moves<X: Content<Y>, Y>()
    ensures { CopyMoves X.stands_for }
{}
