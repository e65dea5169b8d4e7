//! What holds of the plain tree of every chunk, whatever its tokens (`FactLaws`), and of the first fault of a list of tokens
//! (`FaultLaws`): laws about the definitions.
ghost use Rattle.lua_grammar.specs.FactLaws.{ChunkFits, ChunkIsLow, NodesAreShallow, TreesAreLow};
ghost use Rattle.lua_grammar.specs.FaultLaws.{FaultOrChunk, FewerBegin, OneFault};

/// A tree that tokens spell as a chunk fits as one.
#[tactic(auto, using(crate::proofs::FactLaws::chunk_fits))]
pub fn chunk_fits()
    ensures { ChunkFits }
{}

/// It has at most 201 levels of nodes.
#[tactic(auto, using(crate::proofs::FactLaws::chunk_is_low))]
pub fn chunk_is_low()
    ensures { ChunkIsLow }
{}

/// A tree that fits somewhere has at most 201 levels with the nodes above it.
#[tactic(auto, using(crate::proofs::FactLaws::trees_are_low))]
pub fn trees_are_low()
    ensures { TreesAreLow }
{}

/// A node that fits somewhere has at most 200 nodes above it.
#[tactic(auto, using(crate::proofs::FactLaws::nodes_are_shallow))]
pub fn nodes_are_shallow()
    ensures { NodesAreShallow }
{}

/// What begins a chunk with so many tokens does so with fewer.
#[tactic(auto, using(crate::proofs::FaultLaws::fewer_begin))]
pub fn fewer_begin()
    ensures { FewerBegin }
{}

/// A list of tokens has one first fault at most.
#[tactic(auto, using(crate::proofs::FaultLaws::one_fault))]
pub fn one_fault()
    ensures { OneFault }
{}

/// A list of tokens that has a first fault spells no chunk.
#[tactic(auto, using(crate::proofs::FaultLaws::fault_or_chunk))]
pub fn fault_or_chunk()
    ensures { FaultOrChunk }
{}
