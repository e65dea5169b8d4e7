//! What a machine holds stays, while its store grows and changes.
ghost use Rattle.lua_stack.specs.Laws.{RegistersStay, ActivationsStay, FramesStay, FocusStays, EnvironmentStays};

/// Registers of a store are of each later one, and are seen as they were.
pub fn registers_stay()
    ensures { RegistersStay }
{}

/// Functions in progress likewise, with the cells that they captured.
pub fn activations_stay()
    ensures { ActivationsStay }
{}

/// Frames that wait likewise.
pub fn frames_stay()
    ensures { FramesStay }
{}

/// What is next likewise, above any frames.
pub fn focus_stays()
    ensures { FocusStays }
{}

/// The tables of a run and the names of handlers likewise.
#[tactic(auto, using(crate::proofs::StayLaws::environment_stays))]
pub fn environment_stays()
    ensures { EnvironmentStays }
{}
