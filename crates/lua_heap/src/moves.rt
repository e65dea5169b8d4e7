//! What may be done to two heaps at once, one of which stands in the other.
ghost use Rattle.lua_heap.specs.MoveLaws.{NothingMoves, ThenMoves, PutMoves, AddMoves, AddFirstMoves, PutFirstStands, SetMoves, SetMetaMoves, SetCellMoves, SetMarkupMoves, NewTableMoves, NewCellMoves, NewClosureMoves, NewMarkupMoves};

use crate::content::Content;

/// Nothing is done.
#[tactic(auto, using(crate::proofs::MoveLaws::nothing_moves))]
pub fn nothing_moves<X: Content<Y>, Y>()
    ensures { NothingMoves X.stands_for }
{}

/// One step after another.
pub fn then_moves<X: Content<Y>, Y>()
    ensures { ThenMoves X.stands_for }
{}

/// Objects that stand for one another are put where such objects were. None of them is a read-only table.
pub fn put_moves<X: Content<Y>, Y>()
    ensures { PutMoves X.stands_for }
{}

/// Objects that stand for one another are added, and the map grows by their names.
#[tactic(auto, using(crate::proofs::MoveLaws::add_moves))]
pub fn add_moves<X: Content<Y>, Y>()
    ensures { AddMoves X.stands_for }
{}

/// An object is added to the first heap alone.
pub fn add_first_moves<X: Content<Y>, Y>()
    ensures { AddFirstMoves X.stands_for }
{}

/// An object is put that the first heap alone has.
pub fn put_first_stands<X: Content<Y>, Y>()
    ensures { PutFirstStands X.stands_for }
{}

/// `rawset`, at a table that can be written.
pub fn set_moves<X: Content<Y>, Y>()
    ensures { SetMoves X.stands_for }
{}

/// `setmetatable`, at a table that can be written.
pub fn set_meta_moves<X: Content<Y>, Y>()
    ensures { SetMetaMoves X.stands_for }
{}

/// A cell gets a value.
pub fn set_cell_moves<X: Content<Y>, Y>()
    ensures { SetCellMoves X.stands_for }
{}

/// A markup object is changed.
pub fn set_markup_moves<X: Content<Y>, Y>()
    ensures { SetMarkupMoves X.stands_for }
{}

/// A new table.
#[tactic(auto, using(crate::proofs::MoveLaws::new_table_moves))]
pub fn new_table_moves<X: Content<Y>, Y>()
    ensures { NewTableMoves X.stands_for }
{}

/// A new cell.
#[tactic(auto, using(crate::proofs::MoveLaws::new_cell_moves))]
pub fn new_cell_moves<X: Content<Y>, Y>()
    ensures { NewCellMoves X.stands_for }
{}

/// A new closure.
#[tactic(auto, using(crate::proofs::MoveLaws::new_closure_moves))]
pub fn new_closure_moves<X: Content<Y>, Y>()
    ensures { NewClosureMoves X.stands_for }
{}

/// A new markup object.
#[tactic(auto, using(crate::proofs::MoveLaws::new_markup_moves))]
pub fn new_markup_moves<X: Content<Y>, Y>()
    ensures { NewMarkupMoves X.stands_for }
{}
