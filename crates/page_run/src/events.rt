//! What each event makes of the state of a run. No law speaks of a bound on the things that begin.
ghost use Rattle.page_run.specs.Trace.{NotesAreTold};
ghost use Rattle.page_run.specs.Events.{Always, EndsIs, TakesIs, CountsIs, NotesAre, SeesIs, ChangesIs, CallsIs, LeavesIs, BytesAre, DepthIs, TemplatesAre, BeginsIs, OpensIs, AsksIs};

/// The end: its outcome stands, and every call is given back.
#[tactic(auto, using(crate::proofs::EventLaws::ends_is))]
pub fn ends<M, H, T, Q, A, O>()
    ensures { Always M H T Q A O (λ meaning beyond. EndsIs meaning beyond) }
{}

/// A charge of steps is taken where it is covered; else the run is spent, no step stays, and every call is given back.
#[tactic(auto, using(crate::proofs::EventLaws::takes_is))]
pub fn takes<M, H, T, Q, A, O>()
    ensures { Always M H T Q A O (λ meaning beyond. TakesIs meaning beyond) }
{}

/// A node of a syntax tree raises the tally's nodes by one, and nothing else.
#[tactic(auto, using(crate::proofs::EventLaws::counts_is))]
pub fn counts<M, H, T, Q, A, O>()
    ensures { Always M H T Q A O (λ meaning beyond. CountsIs meaning beyond) }
{}

/// A note changes nothing: the meaning without its notes is the meaning.
#[tactic(auto, using(crate::proofs::EventLaws::notes_are))]
pub fn notes<M, H, T, Q, A, O>()
    ensures { Always M H T Q A O (λ meaning beyond. NotesAre meaning beyond) }
{}

/// A trace tells a note, and then those of what follows.
#[tactic(auto, using(crate::proofs::EventLaws::notes_are_told))]
pub fn traces<M, H, T, Q, A, O>()
    ensures { Always M H T Q A O (λ meaning beyond. NotesAreTold meaning beyond) }
{}

/// A look at the heap changes nothing.
#[tactic(auto, using(crate::proofs::EventLaws::sees_is))]
pub fn sees<M, H, T, Q, A, O>()
    ensures { Always M H T Q A O (λ meaning beyond. SeesIs meaning beyond) }
{}

/// From a change on, the heap is the new one.
#[tactic(auto, using(crate::proofs::EventLaws::changes_is))]
pub fn changes<M, H, T, Q, A, O>()
    ensures { Always M H T Q A O (λ meaning beyond. ChangesIs meaning beyond) }
{}

/// A function that is entered takes a call, and raises the height to the number in progress. Where no call is left, the run
/// is spent, and every call is given back.
#[tactic(auto, using(crate::proofs::EventLaws::calls_is))]
pub fn calls<M, H, T, Q, A, O>()
    ensures { Always M H T Q A O (λ meaning beyond. CallsIs meaning beyond) }
{}

/// A function that is left gives its call back.
#[tactic(auto, using(crate::proofs::EventLaws::leaves_is))]
pub fn leaves<M, H, T, Q, A, O>()
    ensures { Always M H T Q A O (λ meaning beyond. LeavesIs meaning beyond) }
{}

/// Bytes are taken where they are covered; else none stay. The run is told which, and goes on
/// (MediaWiki, Manual: Template limits, "post-expand include size").
#[tactic(auto, using(crate::proofs::EventLaws::bytes_are))]
pub fn uses_bytes<M, H, T, Q, A, O>()
    ensures { Always M H T Q A O (λ meaning beyond. BytesAre meaning beyond) }
{}

/// A construct or parameter enters a level and leaves it. Where none is left, nothing changes, the run is told so, and goes
/// on (MediaWiki, Manual: $wgMaxPPExpandDepth).
pub fn uses_depth<M, H, T, Q, A, O>()
    ensures { Always M H T Q A O (λ meaning beyond. DepthIs meaning beyond) }
{}

/// The same for the levels of template bodies, which can be tested without being entered (MediaWiki, Manual:
/// $wgMaxTemplateDepth).
pub fn uses_templates<M, H, T, Q, A, O>()
    ensures { Always M H T Q A O (λ meaning beyond. TemplatesAre meaning beyond) }
{}

/// A thing that begins takes one step, and its meaning follows; where none is left, the run is spent.
#[tactic(auto, using(crate::proofs::EventLaws::begins_is))]
pub fn begins<M, H, T, Q, A, O>()
    ensures { Always M H T Q A O (λ meaning beyond. BeginsIs meaning beyond) }
{}

/// A thing that is opened takes one node, and its meaning follows; where none is left, the run goes on without it
/// (MediaWiki, Manual: $wgMaxPPNodeCount).
#[tactic(auto, using(crate::proofs::EventLaws::opens_is))]
pub fn opens<M, H, T, Q, A, O>()
    ensures { Always M H T Q A O (λ meaning beyond. OpensIs meaning beyond) }
{}

/// A question is answered by the next given reply, else by the computed one; else the run waits. A reply that exhausts an
/// allowance spends the run.
#[tactic(auto, using(crate::proofs::EventLaws::asks_is))]
pub fn asks<M, H, T, Q, A, O>()
    ensures { Always M H T Q A O (λ meaning beyond. AsksIs meaning beyond) }
{}
