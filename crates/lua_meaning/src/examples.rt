//! Worked examples: small modules, and what comes of their function `f`. The files `specs/Example*.antt` have them, with
//! their texts and trees. Where Lua 5.1 does the same, the results are those of Lua 5.1.
ghost use Rattle.lua_meaning.specs.ExampleCharges.{AllCharges};
ghost use Rattle.lua_meaning.specs.ExampleCosts.{AllCosts};
ghost use Rattle.lua_meaning.specs.ExampleValues.{AllValues};
ghost use Rattle.lua_meaning.specs.ExampleStatements.{AllStatements};
ghost use Rattle.lua_meaning.specs.ExampleFunctions.{AllFunctions};
ghost use Rattle.lua_meaning.specs.ExampleHandlers.{AllHandlers};
ghost use Rattle.lua_meaning.specs.ExampleFrames.{AllFrames};
ghost use Rattle.lua_meaning.specs.ExampleModules.{AllModules};
ghost use Rattle.lua_meaning.specs.ExampleLibraries.{AllLibraries};
ghost use Rattle.lua_meaning.specs.ExampleGsub.{AllReplacements};
ghost use Rattle.lua_meaning.specs.ExampleReplacing.{AllReplacing};
ghost use Rattle.lua_meaning.specs.ExampleHtml.{AllObjects};
ghost use Rattle.lua_meaning.specs.ExampleMarkup.{AllMarkup};

/// Charges of whole runs, worked out by hand, and how runs end.
pub fn charges()
    ensures { AllCharges }
{}

/// Single charges, worked out by hand.
pub fn costs()
    ensures { AllCosts }
{}

/// Values, lists and operators.
pub fn values()
    ensures { AllValues }
{}

/// Statements, loops and constructors.
pub fn statements()
    ensures { AllStatements }
{}

/// Functions, errors and handlers.
pub fn functions()
    ensures { AllFunctions }
{}

/// Handlers, the levels that are seen through them, and what is absent.
pub fn handlers()
    ensures { AllHandlers }
{}

/// Frames, their methods, and their questions.
pub fn frames()
    ensures { AllFrames }
{}

/// Modules that ask for modules, and data modules.
pub fn modules()
    ensures { AllModules }
{}

/// The libraries, through the environment.
pub fn libraries()
    ensures { AllLibraries }
{}

/// Calls of `gsub` with a text, with their charges.
pub fn replacements()
    ensures { AllReplacements }
{}

/// Modules that use `gsub`, and what that costs.
pub fn replacing()
    ensures { AllReplacing }
{}

/// Objects of `mw.html`, by calls of their functions.
pub fn objects()
    ensures { AllObjects }
{}

/// Objects of `mw.html`, through the environment.
pub fn markup()
    ensures { AllMarkup }
{}
