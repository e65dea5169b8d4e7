//! Worked examples: the code of small modules is code of their trees, and what comes of it is what comes of the trees, to the
//! step. The files `specs/ExampleCode.antt` and `specs/ExampleCalls.antt` have them.
ghost use Rattle.lua_slots.specs.ExampleCalls.{AllCalls};
ghost use Rattle.lua_slots.specs.ExampleCode.{AllCode};

/// Closures, loops, branches, constructors and operators.
pub fn code()
    ensures { AllCode }
{}

/// Calls, handlers, errors that are caught, and questions.
pub fn calls()
    ensures { AllCalls }
{}
