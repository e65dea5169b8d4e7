//! The laws of a flat machine: `specs/Laws.antt` says them. Each is the contract of a function that does nothing.
ghost use Rattle.lua_flat_laws.specs.Laws.{BlocksAreMoves, EndsAreEnds, EnteringIsMoves, ExpressionsAreMoves, LibraryIsMoves, OperationsAreMoves, OperationsCome, OutcomesComeBack, QuestionsAreAsked, ReturnsAreMoves, RunsAreMoves, TestsAreMoves, TurnsAreMoves, WhatFollowsComes};

/// Where a flat move follows a move of the machine over trees, both come to the same with what is left.
pub fn what_follows_comes()
    ensures { WhatFollowsComes }
{}

/// An operation within an expression is moves of the machine over trees, at the same steps.
pub fn expressions_are_moves()
    ensures { ExpressionsAreMoves }
{}

/// A move of the library, of a handler, or of an error that passes them, is that move of the machine over trees.
pub fn library_is_moves()
    ensures { LibraryIsMoves }
{}

/// A function is entered by its flat code as by its resolved code, wherever its registers begin behind all that is relied on.
pub fn entering_is_moves()
    ensures { EnteringIsMoves }
{}

/// A test of `if`, `while` or `repeat` leads where its truth leads.
pub fn tests_are_moves()
    ensures { TestsAreMoves }
{}

/// A function returns its values, or nothing at its end, to whoever waits for them.
pub fn returns_are_moves()
    ensures { ReturnsAreMoves }
{}

/// An outcome comes back to the operation that waits for it.
pub fn outcomes_come_back()
    ensures { OutcomesComeBack }
{}

/// A turn of a loop ends, and the loop goes on or is over.
pub fn turns_are_moves()
    ensures { TurnsAreMoves }
{}

/// A run begins, and ends, where no function of Lua is in progress.
pub fn runs_are_moves()
    ensures { RunsAreMoves }
{}

/// Statements follow one another, down to the next operation.
pub fn blocks_are_moves()
    ensures { BlocksAreMoves }
{}

/// Wherever both machines stand together, the next operation is moves of the machine over trees, at the same steps.
pub fn operations_are_moves()
    ensures { OperationsAreMoves }
{}

/// And it leads where these moves lead, with what is left of the allowances, or spends the same one.
pub fn operations_come()
    ensures { OperationsCome }
{}

/// A flat machine that stands for one that asks does so too, and with the reply both stand together again.
pub fn questions_are_asked()
    ensures { QuestionsAreAsked }
{}

/// Where no function of Lua is in progress both stand at the same point, so also at their ends.
pub fn ends_are_ends()
    ensures { EndsAreEnds }
{}
