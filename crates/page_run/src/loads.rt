//! Which data loads a run tells, and what the walk over them finds.
ghost use Rattle.page_run.specs.Run.{Meaning};
ghost use Rattle.page_run.specs.Walk.{RepeatIsKept, OtherIsFresh, WalkOfJoined, TellsNone, TellsReply};

/// A completed load of a module whose load completed before is a repeat: its charge is kept, and what is inside it passed
/// over.
#[tactic(auto, using(crate::proofs::LoadLaws::repeat_is_kept))]
pub fn repeat_is_kept()
    ensures { RepeatIsKept }
{}

/// Every other load is fresh: the loads inside it are walked, then its nodes count, and then, where it completed, its
/// module's name.
#[tactic(auto, using(crate::proofs::LoadLaws::other_is_fresh))]
pub fn other_is_fresh()
    ensures { OtherIsFresh }
{}

/// The walk of joined loads is the second walk after the first.
#[tactic(auto, using(crate::proofs::LoadLaws::walk_of_joined))]
pub fn walk_of_joined()
    ensures { WalkOfJoined }
{}

/// Without a reply a run tells of no load and of no invocation.
#[tactic(auto, using(crate::proofs::LoadLaws::tells_none))]
pub fn tells_none<M, H, T, Q, A, O>()
    ensures { (meaning : Meaning M H T Q A O) → TellsNone meaning }
{}

/// With one reply more, a run that waited tells of that reply's loads and invocations after those so far, and of no others.
#[tactic(auto, using(crate::proofs::LoadLaws::tells_reply))]
pub fn tells_reply<M, H, T, Q, A, O>()
    ensures { (meaning : Meaning M H T Q A O) → TellsReply meaning }
{}
