//! What is left of the allowances, and what a run that ends by itself needs of them. Kept data rests on the last three laws.
ghost use Rattle.page_run.specs.Run.{Meaning};
ghost use Rattle.page_run.specs.Charges.{NothingRises, CallsComeBack, EndFits, MoreIsAsGood, OneCharge};

/// No event leaves more steps and nodes than there were, those that given replies leave included.
#[tactic(auto, using(crate::proofs::ChargeLaws::nothing_rises))]
pub fn nothing_rises<M, H, T, Q, A, O>()
    ensures { (meaning : Meaning M H T Q A O) → NothingRises meaning }
{}

/// Calls left and in progress are together what they were at first; at an end all are given back, also where the run is
/// spent.
#[tactic(auto, using(crate::proofs::ChargeLaws::calls_come_back))]
pub fn calls_come_back<M, H, T, Q, A, O>()
    ensures { (meaning : Meaning M H T Q A O) → CallsComeBack meaning }
{}

/// A run that uses no allowance of expansions and ends by itself ends alike, at the same charge, from whatever covers its
/// charge in steps and its height in calls, where its replies do so too, as inner data loads do.
pub fn end_fits<M, H, T, Q, A, O>()
    ensures { (meaning : Meaning M H T Q A O) → EndFits meaning }
{}

/// More steps and calls change neither the end of such a run nor its charge.
#[tactic(auto, using(crate::proofs::FitLaws::more_is_as_good))]
pub fn more_is_as_good<M, H, T, Q, A, O>()
    ensures { (meaning : Meaning M H T Q A O) → MoreIsAsGood meaning }
{}

/// Such a run has one outcome, one charge and one height; with fewer steps or calls than these it does not end by itself.
#[tactic(auto, using(crate::proofs::FitLaws::one_charge))]
pub fn one_charge<M, H, T, Q, A, O>()
    ensures { (meaning : Meaning M H T Q A O) → OneCharge meaning }
{}
