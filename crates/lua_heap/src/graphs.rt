//! Graphs of data: put into a heap, kept there, and joined with the heap of a meaning.
ghost use Rattle.lua_heap.specs.GraphLaws.{GraphIsPut, PutIsKept, KeptStays, KeptStaysApart, PutKeepsDeep, KeptJoins};

use crate::content::Content;

/// A graph stands in the heap that took it in.
#[tactic(auto, using(crate::proofs::GraphLaws::graph_is_put))]
pub fn graph_is_put<X>()
    ensures { GraphIsPut X }
{}

/// Read-only tables that were put in are kept, apart from what was there.
pub fn put_is_kept<X>()
    ensures { PutIsKept X }
{}

/// Kept tables stay, whoever runs.
#[tactic(auto, using(crate::proofs::GraphLaws::kept_stays))]
pub fn kept_stays<X>()
    ensures { KeptStays X }
{}

/// And what is made is apart from them.
#[tactic(auto, using(crate::proofs::GraphLaws::kept_stays_apart))]
pub fn kept_stays_apart<X>()
    ensures { KeptStaysApart X }
{}

/// Read-only tables name only such, also after a graph was taken in.
pub fn put_keeps_deep<X>()
    ensures { PutKeepsDeep X }
{}

/// A kept graph joins the heap of a meaning, and stands where it stood.
#[tactic(auto, using(crate::proofs::GraphLaws::kept_joins))]
pub fn kept_joins<X: Content<Y>, Y>()
    ensures { KeptJoins X.stands_for }
{}
