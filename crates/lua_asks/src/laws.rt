//! The laws of data that is asked for: `specs/Laws.antt` says them. Each is the contract of a function that does nothing.
ghost use Rattle.lua_asks.specs.Laws.{LoadedIsNotAsked, ToldIsLoaded};

/// A machine asks only for data that it does not have, and keeps what it has.
pub fn loaded_is_not_asked()
    ensures { LoadedIsNotAsked }
{}

/// It has what it was told.
pub fn told_is_loaded()
    ensures { ToldIsLoaded }
{}
