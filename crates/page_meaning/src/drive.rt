//! What runs inside one another come to, and what they leave.
ghost use Rattle.page_meaning.specs.Laws.{DriveIsOneRun, RepliesOnlyTake, RepliesGiveCallsBack, RunsComeToAnEnd, ExpansionsComeToTexts, RunsGoOn, ExpansionsGoOn};
ghost use Rattle.page_meaning.specs.Outcomes.{OutcomesAreTold};

/// A run with its questions answered is one run whose replies are computed by such runs: each run takes steps when it
/// starts, so no bound on runs inside one another is seen.
pub fn drive_is_one_run()
    ensures { DriveIsOneRun }
{}

/// No reply leaves more steps and nodes than there were.
pub fn replies_only_take()
    ensures { RepliesOnlyTake }
{}

/// Each reply leaves as many calls as there were.
pub fn replies_give_calls_back()
    ensures { RepliesGiveCallsBack }
{}

/// Each question has its reply: no run waits in the end.
pub fn runs_come_to_an_end()
    ensures { RunsComeToAnEnd }
{}

/// Each expansion, and so each page, comes to a text: nothing that is spent inside it spends it.
pub fn expansions_come_to_texts()
    ensures { ExpansionsComeToTexts }
{}

/// Each way in which an invocation ends by itself is told as its text.
pub fn outcomes_are_told()
    ensures { OutcomesAreTold }
{}

/// Where a run of Lua waits, it comes to what it comes to with the reply to its question; where it is over, to that end.
pub fn runs_go_on()
    ensures { RunsGoOn }
{}

/// The same of an expansion, which waits for an invocation.
pub fn expansions_go_on()
    ensures { ExpansionsGoOn }
{}
