//! The laws of the meaning: `specs/Laws.antt` says them.
ghost use Rattle.lua_meaning.specs.Laws.{ThingsUnfold, ExpressionsAreNodes, StatementsAreNodes, TargetNamesAreNone, TurnsAreCounted, EntriesAreCounted, CallsAreGivenBack, MoreChangesNothing, EndsAreTold, CallsAreNamed, ModulesAreNamed, QuestionsAreNamed, TablesAreJoined, FramesAreNeeded};
ghost use Rattle.lua_meaning.specs.Gsub.{FilledIsReplaced, GsubIsNamed, MatchesGoOn};
ghost use Rattle.lua_meaning.specs.HtmlNodes.{RootsAreFound};

/// A thing that begins takes one step and does what it means; where no step is left, the run is spent. This is the meaning of
/// loops, of functions and of chains of handlers, said without a bound on their number.
pub fn things_unfold()
    ensures { ThingsUnfold }
{}

/// Each expression and each statement takes one step when it begins, and is counted.
#[tactic(auto, using(crate::proofs::MeaningLaws::expressions_are_nodes, crate::proofs::MeaningLaws::statements_are_nodes))]
pub fn nodes_are_counted()
    ensures expressions { ExpressionsAreNodes }
    ensures statements { StatementsAreNodes }
{}

/// A name on the left of an assignment takes no step, and is not counted.
#[tactic(auto, using(crate::proofs::MeaningLaws::target_names_are_none))]
pub fn target_names_are_none()
    ensures { TargetNamesAreNone }
{}

/// Each turn of a loop is counted when it begins, and each function once it is entered.
#[tactic(auto, using(crate::proofs::MeaningLaws::turns_are_counted, crate::proofs::MeaningLaws::entries_are_counted))]
pub fn turns_and_entries_are_counted()
    ensures turns { TurnsAreCounted }
    ensures entries { EntriesAreCounted }
{}

/// At each end of a run its calls in progress are given back. At a question the calls that are left and those in progress
/// are together what there was.
pub fn calls_are_given_back()
    ensures { CallsAreGivenBack }
{}

/// A run that ends by itself ends alike, and for the same charge, with more steps and calls.
pub fn more_changes_nothing()
    ensures { MoreChangesNothing }
{}

/// What waits for the outcome of a call, or for the answer to a question, is what the tables of names say that a machine
/// keeps, for each name.
pub fn waits_are_named()
    ensures calls { CallsAreNamed }
    ensures modules { ModulesAreNamed }
    ensures replacements { GsubIsNamed }
    ensures questions { QuestionsAreNamed }
{}

/// The tables of a data module stand behind those of the heap, read-only, and the root is what the asking function gets.
pub fn tables_are_joined()
    ensures { TablesAreJoined }
{}

/// The end of a run is told by its outcome: the text of an invocation, the table of a data module, or the text of a failure.
#[tactic(auto, using(crate::proofs::MeaningLaws::ends_are_told))]
pub fn ends_are_told()
    ensures { EndsAreTold }
{}

/// Where a run has no frame, as that of a data module, no function of the library asks for a template or a text, nor makes a
/// frame.
pub fn frames_are_needed()
    ensures { FramesAreNeeded }
{}

/// The root above an object of `mw.html` is what any walk from parent to parent comes to.
pub fn roots_are_found()
    ensures { RootsAreFound }
{}

/// What a replacement text stands for in `gsub` is what `lua_string` makes of it.
pub fn filled_is_replaced()
    ensures { FilledIsReplaced }
{}

/// What waits for a match of `gsub` goes on with its job, and with one match fewer.
#[tactic(auto, using(crate::proofs::GsubLaws::matches_go_on))]
pub fn matches_go_on()
    ensures { MatchesGoOn }
{}
