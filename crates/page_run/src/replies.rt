//! What more replies make of a run that waits at a question, and of one that is over.
ghost use Rattle.page_run.specs.Run.{Meaning};
ghost use Rattle.page_run.specs.Replies.{WaitingIsAsking, EndStands, SpentStands, ComputedIsGiven, UnansweredWaits, AgreeingIsEnough};

/// A run that waits at a question is, whatever replies come, one that asks this question at this moment: a suspended run
/// and its definition agree.
#[tactic(auto, using(crate::proofs::ReplyLaws::waiting_is_asking))]
pub fn waiting_is_asking<M, H, T, Q, A, O>()
    ensures { (meaning : Meaning M H T Q A O) → WaitingIsAsking meaning }
{}

/// A run that has ended before any question ends so, whatever replies come.
#[tactic(auto, using(crate::proofs::ReplyLaws::end_stands))]
pub fn end_stands<M, H, T, Q, A, O>()
    ensures { (meaning : Meaning M H T Q A O) → EndStands meaning }
{}

/// A run that is spent before any question is spent so, whatever replies come.
#[tactic(auto, using(crate::proofs::ReplyLaws::spent_stands))]
pub fn spent_stands<M, H, T, Q, A, O>()
    ensures { (meaning : Meaning M H T Q A O) → SpentStands meaning }
{}

/// A computed reply is that reply given in advance: a run with computed replies is the run begun anew for each, with those
/// so far in its list.
#[tactic(auto, using(crate::proofs::ReplyLaws::computed_is_given))]
pub fn computed_is_given<M, H, T, Q, A, O>()
    ensures { (meaning : Meaning M H T Q A O) → ComputedIsGiven meaning }
{}

/// Where no reply can be computed to the question at which a run waits, it waits.
#[tactic(auto, using(crate::proofs::ReplyLaws::unanswered_waits))]
pub fn unanswered_waits<M, H, T, Q, A, O>()
    ensures { (meaning : Meaning M H T Q A O) → UnansweredWaits meaning }
{}

/// Ways to compute replies that agree wherever no more steps and nodes are left than at the start are one: an inner run
/// begins with less.
#[tactic(auto, using(crate::proofs::ReplyLaws::agreeing_is_enough))]
pub fn agreeing_is_enough<M, H, T, Q, A, O>()
    ensures { (meaning : Meaning M H T Q A O) → AgreeingIsEnough meaning }
{}
