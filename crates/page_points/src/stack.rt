//! The laws of the stack: `specs/Laws.antt` says them. Each is the contract of a function that does nothing.
ghost use Rattle.page_points.specs.Laws.{PageBegins, OneBegins, OneIsTold, OneEnds, PageEnds, RootIsSeen, AnswerIsLoad, KeptIsServed, LoadIsKept};

/// The root begins: the page's own task, or one by itself.
pub fn page_begins()
    ensures { PageBegins }
{}

/// Where a task asks, the task that answers it begins above it.
pub fn one_begins()
    ensures { OneBegins }
{}

/// Where a task asks, it goes on with the answer.
pub fn one_is_told()
    ensures { OneIsTold }
{}

/// Where a task has come to its reply, the one below it goes on with that. Nothing that was begun is forgotten.
pub fn one_ends()
    ensures { OneEnds }
{}

/// Where nobody waits, the task has come to what the root comes to, with what was kept and begun.
pub fn page_ends()
    ensures { PageEnds }
{}

/// Where a run of Lua is over and nobody waits, what is seen of it is the root's run with its questions answered.
pub fn root_is_seen()
    ensures { RootIsSeen }
{}

/// The answer for a module that is held is its load.
pub fn answer_is_load()
    ensures { AnswerIsLoad }
{}

/// What was kept of a load serves wherever it is covered, and is a repeat there.
pub fn kept_is_served()
    ensures { KeptIsServed }
{}

/// What is kept of a load that completed: its answer, its charge and its height, which were covered.
pub fn load_is_kept()
    ensures { LoadIsKept }
{}
