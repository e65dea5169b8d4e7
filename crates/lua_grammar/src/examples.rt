//! Small texts are chunks, with the trees that they should have: `Examples` has them, each with its tokens. `Misfits` has trees
//! that are none.
ghost use Rattle.lua_grammar.specs.Examples.{CallChunks, FunctionChunks, OperatorChunks, StatementChunks};
ghost use Rattle.lua_grammar.specs.Misfits.{MisfitsAreRefused};

/// How tightly operators bind, and to which side they group.
#[tactic(auto, using(crate::proofs::ExampleOperators::operator_chunks))]
pub fn operator_chunks()
    ensures { OperatorChunks }
{}

/// Indexes, calls, methods and tables.
#[tactic(auto, using(crate::proofs::ExampleCalls::call_chunks))]
pub fn call_chunks()
    ensures { CallChunks }
{}

/// Control structures, loops and blocks.
#[tactic(auto, using(crate::proofs::ExampleStatements::statement_chunks))]
pub fn statement_chunks()
    ensures { StatementChunks }
{}

/// Functions, parameters and local names.
#[tactic(auto, using(crate::proofs::ExampleFunctions::function_chunks))]
pub fn function_chunks()
    ensures { FunctionChunks }
{}

/// Trees that no text spells do not fit as chunks.
#[tactic(auto, using(crate::proofs::MisfitLaws::misfits_are_refused))]
pub fn misfits_are_refused()
    ensures { MisfitsAreRefused }
{}
