//! The laws of what is read in place: `specs/Laws.antt` says them. Each is the contract of a function that does nothing.
ghost use Rattle.lua_in_place.specs.Examples.{AllExamples};
ghost use Rattle.lua_in_place.specs.Laws.{ListReadInPlace, NodesAreSome, ReadInPlace};

/// The moves of a machine come to the value that is read in place, at a step for each node, and change nothing.
pub fn read_in_place()
    ensures { ReadInPlace }
{}

/// So they do for a list: arguments, what is returned, or what is assigned.
pub fn list_read_in_place()
    ensures { ListReadInPlace }
{}

/// What is read in place takes a step at least.
pub fn nodes_are_some()
    ensures { NodesAreSome }
{}

/// Values that a reader knows, each with its nodes.
pub fn examples()
    ensures { AllExamples }
{}
