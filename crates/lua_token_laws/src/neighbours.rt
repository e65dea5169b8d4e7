//! What stands beside what among the tokens of a chunk.
ghost use Rattle.lua_token_laws.specs.Neighbours.{NeighboursFit};

/// In front of a point stands what can be indexed, behind it a name, and behind `[` no `=`.
pub fn neighbours_fit()
    ensures { NeighboursFit }
{}
