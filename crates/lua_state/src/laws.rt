//! What a machine holds stays, while its store grows and changes.
ghost use Rattle.lua_state.specs.Laws.{StateStays};

/// What a machine holds is of each later store, and is seen there as it was.
pub fn state_stays()
    ensures { StateStays }
{}
