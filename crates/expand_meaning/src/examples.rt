//! Worked pages come to what `Examples` says: each function has an empty body, and its contract is a row of texts.
ghost use Rattle.expand_meaning.specs.Examples.{Parameters, Arguments, Loops, Functions, Words, Invocations, Limits};

/// Parameters, with and without an argument.
#[tactic(auto, using(crate::proofs::Rows::parameters))]
pub fn parameters()
    ensures { Parameters }
{}

/// Arguments with and without a name, empty ones, and two of one name.
#[tactic(auto, using(crate::proofs::Rows::arguments))]
pub fn arguments()
    ensures { Arguments }
{}

/// A template that includes itself, and one that is not there.
#[tactic(auto, using(crate::proofs::Rows::loops))]
pub fn loops()
    ensures { Loops }
{}

/// `#if`, `#ifeq` and `#switch`.
#[tactic(auto, using(crate::proofs::Rows::functions))]
pub fn functions()
    ensures { Functions }
{}

/// The words of a construct of one part, and what stands as it is written.
#[tactic(auto, using(crate::proofs::Rows::words))]
pub fn words()
    ensures { Words }
{}

/// `#invoke` without a function, and of a module that is not there.
#[tactic(auto, using(crate::proofs::Rows::invocations))]
pub fn invocations()
    ensures { Invocations }
{}

/// Nodes, bytes and levels that are not there.
#[tactic(auto, using(crate::proofs::Rows::limits))]
pub fn limits()
    ensures { Limits }
{}
