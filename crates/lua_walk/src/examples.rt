//! Small heaps are walked as `Examples` says, which was worked out by hand.
ghost use Rattle.lua_walk.specs.Examples.{DataIsTaken, FirstFaultIsMet, CopyIsMade, CopyIsPaid};

/// Data with a table that holds itself, one that is reached twice, and a cleared entry.
#[tactic(auto, using(crate::proofs::ExampleLaws::data_is_taken))]
pub fn data_is_taken()
    ensures { DataIsTaken }
{}

/// Of several faults the first one that is met.
#[tactic(auto, using(crate::proofs::ExampleLaws::first_fault_is_met))]
pub fn first_fault_is_met()
    ensures { FirstFaultIsMet }
{}

/// A copy of tables with a metatable, cycles, a table as a key, and read-only data.
#[tactic(auto, using(crate::proofs::ExampleLaws::copy_is_made))]
pub fn copy_is_made()
    ensures { CopyIsMade }
{}

/// What copies cost.
#[tactic(auto, using(crate::proofs::ExampleLaws::copy_is_paid))]
pub fn copy_is_paid()
    ensures { CopyIsPaid }
{}
