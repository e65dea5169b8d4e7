//! The names of a text.
ghost use Rattle.std.specs.Prelude.{◌≡◌, None};
ghost use Rattle.lua_code.specs.LuaMeaningScope.{Bytes as PlainBytes};
ghost use Rattle.lua_scopes.specs.Spots.{spot_at};

use crate::spots::{Named, SpotMap, number_of};
use indexmap::IndexMap;
use lua_code::{Bytes, NoMemory};
use std::alloc::Global;
use std::hash::RandomState;
use std::marker::Model;

/// Names, each with a number. Nothing is known of them yet.
#[derive(Drop)]
pub(crate) struct Names<'t> {
    spots: SpotMap<'t>,
}

impl<'t> Model for Names<'t> {
    ghost use Rattle.std.specs.Prelude.{◌≡◌, None};
    ghost use Rattle.lua_code.specs.LuaMeaningScope.{Bytes as PlainBytes};
    ghost use Rattle.lua_scopes.specs.Spots.{spot_at};

    ghost Value = { Unit {0} };

    ghost view = { λ n. tt };

    ghost invariant = { λ n. (x : PlainBytes) → spot_at n.spots.entries x ≡ None };
}

impl<'t> Names<'t> {
    /// No name. Names are hashed by the seed, so that no text can choose names that collide.
    pub(crate) fn new(alloc: Global, seed: RandomState) -> Names<'t> {
        Names {
            spots: IndexMap::with_hasher(alloc, seed),
        }
    }

    /// The number of a name.
    pub(crate) fn number(&mut self, name: &'t Bytes) -> Result<usize, NoMemory> {
        number_of(&mut self.spots, name)
    }

    /// What is known of them.
    pub(crate) fn into_spots(self) -> SpotMap<'t>
        ensures { (x : PlainBytes) → spot_at result.entries x ≡ None }
    {
        self.spots
    }
}

/// The numbers of the names of a text, in the order in which they stand there. A number may be wrong, or none be left.
#[derive(Drop)]
pub(crate) struct Numbers {
    numbers: Vec<u32>,
    next: usize,
}

impl Numbers {
    /// In front of a text whose names have these numbers.
    pub(crate) fn new(numbers: Vec<u32>) -> Numbers {
        Numbers { numbers, next: 0 }
    }

    /// The next name of the text, with its number.
    pub(crate) fn next<'t>(&mut self, name: &'t Bytes) -> Named<'t>
        ensures { result.name.now ≡ name.now }
    {
        let number = match self.numbers.get(self.next) {
            Some(number) => *number as usize,
            None => usize::MAX,
        };
        self.next = self.next.saturating_add(1);
        Named { name, number }
    }
}
