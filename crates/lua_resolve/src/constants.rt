//! The constants of a module: the texts and names in its code.
ghost use Rattle.std.specs.Prelude.{◌≡◌, [], Some, slice_get, IfOk, OnOk};
ghost use Rattle.lua_resolve.specs.Constants.{bytes_of, StayNumbered};

use crate::lists::with_room;
use indexmap::IndexSet;
use lua_code::{Bytes, NoMemory};
use lua_store::List;
use std::alloc::Global;
use std::hash::RandomState;
use std::marker::Model;

/// Texts and names that were met, each once, in the order in which they were met first.
#[derive(Drop)]
pub(crate) struct Constants<'t> {
    alloc: Global,
    met: IndexSet<&'t Bytes, RandomState>,
}

impl<'t> Model for Constants<'t> {
    ghost use Rattle.std.specs.Prelude.{ℕ, List};
    ghost use Rattle.std.specs.Coded.{coded_list, coded_ℕ};
    ghost use Rattle.lua_resolve.specs.Constants.{bytes_of};

    ghost Value = { List (List ℕ) };

    ghost coded = { coded_list (coded_list coded_ℕ) };

    ghost view = { λ c. bytes_of c.met.keys };
}

impl<'t> Constants<'t> {
    /// No constant. They are hashed by the seed, so that no text can choose ones that collide.
    pub(crate) fn new(alloc: Global, seed: RandomState) -> Constants<'t>
        ensures { result ≡ [] }
    {
        Constants {
            alloc,
            met: IndexSet::with_hasher(alloc, seed),
        }
    }

    /// The number of a text or a name, which gets the next one where it was not met before. It is hashed once.
    pub(crate) fn number(&mut self, bytes: &'t Bytes) -> Result<u32, NoMemory>
        ensures there { IfOk result (λ n. slice_get self.new n ≡ Some bytes.now) }
        ensures stay { OnOk result (StayNumbered self.old self.new) }
    {
        let at = place_of(&mut self.met, bytes)?;
        let number = short(at)?;
        Ok(number)
    }

    /// A copy of each, by their numbers.
    pub(crate) fn copied(&self) -> Result<List<Bytes>, NoMemory>
        ensures { IfOk result (λ list. list ≡ self.now) }
    {
        copies(self.alloc, &self.met)
    }
}

/// The place of a text or a name among those that were met, to which it is added if it isn't there.
fn place_of<'t>(
    met: &mut IndexSet<&'t Bytes, RandomState>,
    bytes: &'t Bytes,
) -> Result<usize, NoMemory>
    ensures there { IfOk result (λ at. slice_get (bytes_of met.new.keys) at ≡ Some bytes.now) }
    ensures stay { OnOk result (StayNumbered (bytes_of met.old.keys) (bytes_of met.new.keys)) }
{
    match met.insert_full(bytes) {
        Ok((at, _)) => Ok(at),
        Err(_) => Err(NoMemory),
    }
}

/// A place in 32 bits. No text that the parser takes has room for more constants than that.
fn short(place: usize) -> Result<u32, NoMemory>
    ensures { IfOk result (λ same. same ≡ place) }
{
    match u32::try_from(place) {
        Ok(same) => Ok(same),
        Err(_) => Err(NoMemory),
    }
}

/// What stands at a place.
fn bytes_at<'t>(met: &IndexSet<&'t Bytes, RandomState>, at: usize) -> Option<&'t Bytes>
    ensures { result ≡ slice_get met.now.keys at }
{
    met.get_index(at).copied()
}

/// A copy of each of these.
fn copies(alloc: Global, met: &IndexSet<&Bytes, RandomState>) -> Result<List<Bytes>, NoMemory>
    ensures { IfOk result (λ list. list ≡ bytes_of met.now.keys) }
{
    let mut list = with_room(alloc, met.len())?;
    for at in 0..usize::MAX {
        match bytes_at(met, at) {
            Some(bytes) => list.push(bytes.copy()?)?,
            None => return Ok(list),
        }
    }
    Err(NoMemory)
}
