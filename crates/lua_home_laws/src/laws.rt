//! The laws of a fresh environment: `specs/Laws.antt` says them. Each is the contract of a function that does nothing.
ghost use Rattle.lua_home_laws.specs.Laws.{FreshIsHome, MadeIsHome, MadeIsOpen, MadeStarts};

/// The tables of a fresh environment are new ones that stand for those with which each run begins, and nothing that was there changed.
pub fn fresh_is_home()
    ensures { FreshIsHome }
{}

/// The same, where only the two tables are known that a run keeps at hand.
pub fn made_is_home()
    ensures { MadeIsHome }
{}

/// The table of the global variables can be written.
pub fn made_is_open()
    ensures { MadeIsOpen }
{}

/// A machine in a fresh environment is at the start of each run of its work.
pub fn made_starts()
    ensures { MadeStarts }
{}
