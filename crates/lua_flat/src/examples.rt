//! Worked examples: flat code of small modules is flat code of their resolved code, and what comes of both is the same, to the step.
ghost use Rattle.lua_flat.specs.ExampleCalls.{AllExampleCalls, AllFlatExampleCalls};
ghost use Rattle.lua_flat.specs.ExampleCode.{AllExampleCode, AllFlatExampleCode};
ghost use Rattle.lua_flat.specs.ExampleLevels.{AllExampleLevels, AllFlatExampleLevels};

/// Closures, loops, branches, constructors and operators.
pub fn code()
    ensures { AllExampleCode }
{}

/// Calls, handlers, and errors that are caught.
pub fn calls()
    ensures { AllExampleCalls }
{}

/// Errors with levels, and blocks.
pub fn levels()
    ensures { AllExampleLevels }
{}

/// That is flat code of closures, loops, branches, constructors and operators.
pub fn flat_code()
    ensures { AllFlatExampleCode }
{}

/// That is flat code of calls, handlers, and errors that are caught.
pub fn flat_calls()
    ensures { AllFlatExampleCalls }
{}

/// That is flat code of errors with levels, and of blocks.
pub fn flat_levels()
    ensures { AllFlatExampleLevels }
{}
