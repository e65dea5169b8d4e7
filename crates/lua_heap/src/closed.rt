//! Closed heaps: whatever is named in them is there, so that their own objects are a closed set (`IsClosedHeap`).
ghost use Rattle.lua_heap.specs.ClosedLaws.{EmptyIsClosed, AddKeepsClosed, PutKeepsClosed, SetKeepsClosed, SetMetaKeepsClosed, FreezeKeepsClosed, SetCellKeepsClosed};

/// The empty heap is closed.
#[tactic(auto, using(crate::proofs::ClosedHeaps::empty_is_closed))]
pub fn empty_is_closed<X>()
    ensures { EmptyIsClosed X }
{}

/// It stays closed when an object is added that names only what is there afterwards.
pub fn add_keeps_closed<X>()
    ensures { AddKeepsClosed X }
{}

/// And when an object is put in place of one that names only what is there.
#[tactic(auto, using(crate::proofs::ClosedHeaps::put_keeps_closed))]
pub fn put_keeps_closed<X>()
    ensures { PutKeepsClosed X }
{}

/// `rawset` of a key and a value that name what is there.
#[tactic(auto, using(crate::proofs::ClosedHeaps::set_keeps_closed))]
pub fn set_keeps_closed<X>()
    ensures { SetKeepsClosed X }
{}

/// `setmetatable` with a metatable that is there.
#[tactic(auto, using(crate::proofs::ClosedHeaps::set_meta_keeps_closed))]
pub fn set_meta_keeps_closed<X>()
    ensures { SetMetaKeepsClosed X }
{}

/// A table that becomes read-only.
#[tactic(auto, using(crate::proofs::ClosedHeaps::freeze_keeps_closed))]
pub fn freeze_keeps_closed<X>()
    ensures { FreezeKeepsClosed X }
{}

/// A cell that gets a value that names what is there.
#[tactic(auto, using(crate::proofs::ClosedHeaps::set_cell_keeps_closed))]
pub fn set_cell_keeps_closed<X>()
    ensures { SetCellKeepsClosed X }
{}
