//! The next match, for a step a try.
ghost use Rattle.std.specs.Prelude.{◌≡◌, ◌≤◌, length, IfOk, IfSome};
ghost use Rattle.std.specs.Option.{option_map};
ghost use Rattle.lua_replacing.specs.LuaStringWalk.{walk};
ghost use Rattle.lua_replacing.specs.LuaMeaningGsub.{next_stand as next_stand_of};
ghost use Rattle.lua_replacing.specs.Seen.{stand_seen, StandWithin};
ghost use Rattle.lua_gsubs.specs.Met.{IsMet, MetWithin, PlaceWithin};

use lua_iterators::symbols::{next_place, symbols_before};
use lua_iterators::{Left, Stop, pay, spend};
use lua_number::NoMemory;
use lua_pattern::{Alphabet, Match, Pattern, Search};
use lua_replacing::Stand;
use std::alloc::Global;

/// What a search from a place on came to.
#[derive(Drop, Debug)]
pub enum Met {
    Nothing,
    /// A match, and the place where the next search begins, if it goes on.
    Found(Match, Option<usize>),
}

/// The first match from a place on, within the steps that are left. Its tries are paid for.
pub fn meet<A: Alphabet>(
    alloc: Global,
    left: &mut Left,
    pattern: &Pattern<A>,
    s: &[u8],
    at: usize,
) -> Result<Met, Stop>
    requires { at ≤ length s.now }
    ensures met { IsMet pattern.now.slots
        (walk A.letters pattern.now.anchored pattern.now.items s.now at) left.old left.new result }
    ensures within { IfOk result (MetWithin (length s.now)) }
{
    match pattern.search(alloc, s, at, left.steps) {
        Err(_) => Err(Stop::NoMemory),
        Ok(Search::Spent) => Err(spend(left)),
        Ok(Search::NotFound(tries)) => {
            pay(left, tries)?;
            Ok(Met::Nothing)
        }
        Ok(Search::Found(found, tries)) => {
            pay(left, tries)?;
            let next = next_place::<A>(pattern.anchored, s, found.start, found.end);
            Ok(Met::Found(found, next))
        }
    }
}

/// The place where the next search begins, with the symbols before it.
pub fn next_stand<A: Alphabet>(
    s: &[u8],
    stand: Stand,
    next: Option<usize>,
) -> Result<Option<Stand>, NoMemory>
    requires { PlaceWithin (length s.now) next }
    ensures stand { IfOk result (λ k.
        option_map stand_seen k ≡ next_stand_of A.letters s.now (stand_seen stand) next) }
    ensures within { IfOk result (StandWithin (length s.now)) }
{
    match next {
        None => Ok(None),
        Some(at) => {
            let before = symbols_before::<A>(s, stand.at, stand.before, at)?;
            Ok(Some(Stand { at, before }))
        }
    }
}
