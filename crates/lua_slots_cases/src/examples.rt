//! The code of small modules is code of their trees, and what comes of it is what comes of the trees, to the step.
ghost use Rattle.lua_slots_cases.specs.Closures.{AllClosures};
ghost use Rattle.lua_slots_cases.specs.Loads.{AllLoads};

/// Closures that share a cell, and closures with cells of their own.
pub fn closures()
    ensures { AllClosures }
{}

/// A load of a data module, and one whose steps are spent.
pub fn loads()
    ensures { AllLoads }
{}
