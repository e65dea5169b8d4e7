//! Worked texts name the cases that `Examples` says: each function has an empty body, and its contract is a text.
ghost use Rattle.case_names.specs.Examples.{Assigned, Returned, Others};

/// Functions that are assigned.
#[tactic(auto, using(crate::proofs::Rows::assigned))]
pub fn assigned_keys()
    ensures { Assigned }
{}

/// Functions in a table that is returned.
#[tactic(auto, using(crate::proofs::Rows::returned))]
pub fn returned_keys()
    ensures { Returned }
{}

/// What names no case, and what names one twice.
#[tactic(auto, using(crate::proofs::Rows::others))]
pub fn other_keys()
    ensures { Others }
{}
