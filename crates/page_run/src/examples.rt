//! Small runs come to what they should: `Examples` and `Jumps` have them, with their numbers worked out by hand.
ghost use Rattle.page_run.specs.Examples.{ChargesAreTaken, EndlessLoopIsSpent, UsesAreAnswered, NestingEndsWithNodes, QuestionsAreAnswered, NotesAreCollected};
ghost use Rattle.page_run.specs.Jumps.{JumpsAreCaught};

/// Two charges, a node, a function, and a heap that is changed.
#[tactic(auto, using(crate::proofs::ExampleLaws::charges_are_taken))]
pub fn charges_are_taken()
    ensures { ChargesAreTaken }
{}

/// A loop without end, inside two functions, is spent, and its calls are given back.
#[tactic(auto, using(crate::proofs::ExampleLaws::endless_loop_is_spent))]
pub fn endless_loop_is_spent()
    ensures { EndlessLoopIsSpent }
{}

/// Allowances of expansions that are there, and some that are not: the run is told so, and goes on.
#[tactic(auto, using(crate::proofs::ExampleLaws::uses_are_answered))]
pub fn uses_are_answered()
    ensures { UsesAreAnswered }
{}

/// A construct that stands inside itself, until no node is left.
#[tactic(auto, using(crate::proofs::ExampleLaws::nesting_ends_with_nodes))]
pub fn nesting_ends_with_nodes()
    ensures { NestingEndsWithNodes }
{}

/// Two questions inside a function: one reply is given, the other one computed.
#[tactic(auto, using(crate::proofs::ExampleLaws::questions_are_answered))]
pub fn questions_are_answered()
    ensures { QuestionsAreAnswered }
{}

/// Notes are told in order, up to a charge that is not covered; the meaning is deaf to them.
#[tactic(auto, using(crate::proofs::ExampleLaws::notes_are_collected))]
pub fn notes_are_collected()
    ensures { NotesAreCollected }
{}

/// A jump out of a function that is caught, and one that ends the run.
#[tactic(auto, using(crate::proofs::ExampleLaws::jumps_are_caught))]
pub fn jumps_are_caught()
    ensures { JumpsAreCaught }
{}
