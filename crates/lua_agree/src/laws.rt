//! The laws of the simulation: `specs/Laws.antt` says them.
ghost use Rattle.lua_agree.specs.Laws.{GoesOn, NextIsMet};

/// What a machine does next follows the run over names, event by event, up to the next point: at every point, in any world whose modules
/// have the machine's code.
pub fn goes_on()
    ensures { GoesOn }
{}

/// So the run comes to what it comes to from where the machine then stands, whatever is replied; or it is spent as the machine is.
pub fn next_is_met()
    ensures { NextIsMet }
{}
