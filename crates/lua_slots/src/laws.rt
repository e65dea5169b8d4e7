//! The laws of code and of moves: `specs/Laws.antt` says them.
ghost use Rattle.lua_slots.specs.Laws.{CodeStays, MarksArePaid, ChargesComeFirst, ChargesAreExact};

/// What is code of a block stays so when a module has more functions.
pub fn code_stays()
    ensures { CodeStays }
{}

/// No move marks more than it costs: so turns that are counted at each mark are paid for.
pub fn marks_are_paid()
    ensures { MarksArePaid }
{}

/// Along a move each mark comes behind a charge of its own.
pub fn charges_come_first()
    ensures { ChargesComeFirst }
{}

/// What a move that is covered costs is gone from the steps, and what it marks is counted.
pub fn charges_are_exact()
    ensures { ChargesAreExact }
{}
