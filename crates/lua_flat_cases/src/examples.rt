//! Small modules: their flat code is flat code of their resolved code, and both end alike, to the step. The files of `specs/` have them.
ghost use Rattle.lua_flat_cases.specs.Loops.{AllLoops, AllFlatLoops};
ghost use Rattle.lua_flat_cases.specs.Lists.{AllLists, AllFlatLists};
ghost use Rattle.lua_flat_cases.specs.Tests.{AllTests, AllFlatTests};
ghost use Rattle.lua_flat_cases.specs.Cells.{AllCells, AllFlatCells};
ghost use Rattle.lua_flat_cases.specs.Texts.{AllTexts, AllFlatTexts};

/// Loops, and what leaves them.
pub fn loops()
    ensures { AllLoops }
{}

/// Their flat code is code of them: `loops`.
pub fn flat_loops()
    ensures { AllFlatLoops }
{}

/// Lists of values, methods, and handlers that are functions.
pub fn lists()
    ensures { AllLists }
{}

/// Their flat code is code of them: `lists`.
pub fn flat_lists()
    ensures { AllFlatLists }
{}

/// Tests, choices, errors that are caught, and a function that calls itself.
pub fn tests()
    ensures { AllTests }
{}

/// Their flat code is code of them: `tests`.
pub fn flat_tests()
    ensures { AllFlatTests }
{}

/// Variables with cells, constructors and global variables.
pub fn cells()
    ensures { AllCells }
{}

/// Their flat code is code of them: `cells`.
pub fn flat_cells()
    ensures { AllFlatCells }
{}

/// Functions of the library, joins, and a `return` out of loops.
pub fn texts()
    ensures { AllTexts }
{}

/// Their flat code is code of them: `texts`.
pub fn flat_texts()
    ensures { AllFlatTexts }
{}
