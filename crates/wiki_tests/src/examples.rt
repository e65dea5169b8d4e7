//! Worked test modules have the reports that `Examples` says: each function has an empty body, and its contract is a report.
ghost use Rattle.wiki_tests.specs.Examples.{CasesAreAlone, StepsAreSpent, FaultsAreTold, TitlesAreInOrder};

/// Each case begins afresh, and fails alone.
#[tactic(auto, using(crate::proofs::Rows::cases_are_alone))]
pub fn cases_are_alone()
    ensures { CasesAreAlone }
{}

/// Each case has all of the steps for itself.
#[tactic(auto, using(crate::proofs::Rows::steps_are_spent))]
pub fn steps_are_spent()
    ensures { StepsAreSpent }
{}

/// A text that is no Lua has one line.
#[tactic(auto, using(crate::proofs::Rows::faults_are_told))]
pub fn faults_are_told()
    ensures { FaultsAreTold }
{}

/// Which pages are tested, in which order.
#[tactic(auto, using(crate::proofs::Rows::titles_are_in_order))]
pub fn titles_are_in_order()
    ensures { TitlesAreInOrder }
{}
