//! The laws of a machine that goes on: `specs/Laws.antt` says them. Each is the contract of a function that does nothing.
ghost use Rattle.lua_goes.specs.Laws.{FreeMovesFall, StepsOrWeightFall, ComesToAnEvent, NodesArePaid, CallsAreBack};

/// A move that costs no step lowers the weight.
pub fn free_moves_fall()
    ensures { FreeMovesFall }
{}

/// Steps never rise, and where they stay the weight falls: the measure of a machine's loop.
pub fn steps_or_weight_fall()
    ensures { StepsOrWeightFall }
{}

/// So a machine comes to an event.
pub fn comes_to_an_event()
    ensures { ComesToAnEvent }
{}

/// No more nodes, turns and entries are counted than steps are taken, also where a move is spent half-way.
pub fn nodes_are_paid()
    ensures { NodesArePaid }
{}

/// Where it is over or spent all calls are given back; where it waits, none are lost.
pub fn calls_are_back()
    ensures { CallsAreBack }
{}
