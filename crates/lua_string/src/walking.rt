//! The way of `gsub` and `gmatch` from place to place (Lua 5.1 manual, 5.4).
ghost use Rattle.lua_string.specs.Walk.{GoingOn};

use lua_pattern::Alphabet;

/// The law that going from place to place, as Lua's own loop does, and searching on behind each match give the same text
/// and cost the same tries.
pub fn going_on<A: Alphabet>()
    ensures { GoingOn A.letters }
{}
