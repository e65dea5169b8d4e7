//! What is known of names, by the names.
ghost use Rattle.std.specs.Prelude.{◌≡◌, None, true, OnOk};
ghost use Rattle.lua_code.specs.LuaMeaningScope.{Bytes as PlainBytes};
ghost use Rattle.lua_scopes.specs.Spots.{spot_at, StandsAt, IsNoted, found_of};

use indexmap::IndexMap;
use lua_code::{Bytes, NoMemory, Place};
use std::hash::RandomState;

/// Where a function knows a name from.
#[derive(Clone, Copy)]
pub(crate) enum Spot {
    /// A local variable: how many older ones the function has, whether it has a cell, and its number among the declarations of
    /// the text.
    Local(usize, bool, usize),
    /// That one of the names that the function captures.
    Captured(usize),
}

/// The innermost function that knows a name, told by how many there are around it, and from where it knows it.
#[derive(Clone, Copy)]
pub(crate) struct Entry {
    pub(crate) depth: usize,
    pub(crate) spot: Spot,
}

/// Where a name stands in a function; of a variable in a plain register its number among the declarations.
#[derive(Clone, Copy)]
pub(crate) struct Found {
    pub(crate) place: Place,
    pub(crate) plain: Option<usize>,
}

/// What is known of names, by the names. A name that is there may have nothing.
pub(crate) type SpotMap<'t> = IndexMap<&'t Bytes, Option<Entry>, RandomState>;

/// A name, and where it may stand among those of the map. It is looked for there before it is hashed.
#[derive(Clone, Copy)]
pub(crate) struct Named<'t> {
    pub(crate) name: &'t Bytes,
    pub(crate) number: usize,
}

/// What is known of a name.
pub(crate) fn find<'t>(spots: &SpotMap<'t>, named: Named<'t>) -> Option<Entry>
    ensures { result ≡ spot_at spots.now.entries named.entry.name.now }
{
    if let Some((key, entry)) = spots.get_index(named.number) {
        if *key == named.name {
            return *entry;
        }
    }
    match spots.get(&named.name) {
        Some(entry) => *entry,
        None => None,
    }
}

/// Whether a name stands at its number.
fn stands_there<'t>(spots: &SpotMap<'t>, named: Named<'t>) -> bool
    ensures { result ≡ true → StandsAt spots.now.entries named.entry.number named.entry.name.now }
{
    match spots.get_index(named.number) {
        Some((key, _)) => *key == named.name,
        None => false,
    }
}

/// From now on this is known of a name. If it stands at its number it is not hashed.
pub(crate) fn note<'t>(
    spots: &mut SpotMap<'t>,
    named: Named<'t>,
    entry: Option<Entry>,
) -> Result<(), NoMemory>
    ensures { OnOk result (IsNoted spots.old.entries named.entry.name.now entry spots.new.entries) }
{
    if stands_there(spots, named) {
        put(spots, named.number, entry);
        return Ok(());
    }
    match spots.insert(named.name, entry) {
        Ok(_) => Ok(()),
        Err(_) => Err(NoMemory),
    }
}

/// From now on this is known of the name that stands there.
fn put<'t>(spots: &mut SpotMap<'t>, number: usize, entry: Option<Entry>)
    ensures { (x : PlainBytes) → StandsAt spots.old.entries number x → IsNoted spots.old.entries x entry spots.new.entries }
{
    if number < spots.len() {
        let (_, known) = spots.pair_mut(number);
        *known = entry;
    }
}

/// The place of a spot, among so many local variables.
pub(crate) fn place_of(spot: Spot, count: usize) -> Found
    ensures { result ≡ found_of spot count }
{
    match spot {
        Spot::Captured(index) => Found {
            place: Place::Captured(index),
            plain: None,
        },
        Spot::Local(older, boxed, number) => {
            let index = count.saturating_sub(older).saturating_sub(1);
            if boxed {
                Found {
                    place: Place::Cell(index),
                    plain: None,
                }
            } else {
                Found {
                    place: Place::Register(index),
                    plain: Some(number),
                }
            }
        }
    }
}

/// The number of a name among those of the map, to which it is added if it isn't there. Nothing is known of it from now on.
pub(crate) fn number_of<'t>(spots: &mut SpotMap<'t>, name: &'t Bytes) -> Result<usize, NoMemory>
    ensures { ((x : PlainBytes) → spot_at spots.old.entries x ≡ None) → (x : PlainBytes) → spot_at spots.new.entries x ≡ None }
{
    match spots.insert_full(name, None) {
        Ok((number, _)) => Ok(number),
        Err(_) => Err(NoMemory),
    }
}
