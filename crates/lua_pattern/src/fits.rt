//! Which symbols a single character fits.
ghost use Rattle.std.specs.Prelude.{◌≡◌};
ghost use Rattle.lua_pattern.specs.Texts.{between};
ghost use Rattle.lua_pattern.specs.Sets.{in_part, in_any, turned};
ghost use Rattle.lua_pattern.specs.Single.{fits};

use crate::alphabet::Alphabet;
use crate::item::{Part, Single};

fn is_between(low: char, high: char, symbol: char) -> bool
    ensures { result ≡ between low high symbol }
{
    low <= symbol && symbol <= high
}

pub fn turn(negated: bool, holds: bool) -> bool
    ensures { result ≡ turned negated holds }
{
    negated != holds
}

fn is_in_part<A: Alphabet>(symbol: char, part: Part) -> bool
    ensures { result ≡ in_part A.letters symbol part }
{
    match part {
        Part::Range(low, high) => is_between(low, high, symbol),
        Part::Kind(class, negated) => turn(negated, A::is_in(class, symbol)),
    }
}

pub fn is_in_any<A: Alphabet>(parts: &[Part], symbol: char) -> bool
    ensures { result ≡ in_any A.letters parts.now symbol }
{
    let mut left = parts;
    while let [part, rest @ ..] = left {
        if is_in_part::<A>(symbol, *part) {
            return true;
        }
        left = rest;
    }
    false
}

/// Whether a single character fits a symbol.
pub fn fit<A: Alphabet>(single: &Single, symbol: char) -> bool
    ensures { result ≡ fits A.letters single.now symbol }
{
    match single {
        Single::Any => true,
        Single::Plain(plain) => *plain == symbol,
        Single::Kind(class, negated) => turn(*negated, A::is_in(*class, symbol)),
        Single::Of(set) => set.has::<A>(symbol),
    }
}
