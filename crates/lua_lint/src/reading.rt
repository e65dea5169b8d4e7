//! The modules that are reached, and where their texts name globals.
ghost use Rattle.std.specs.Prelude.{◌≡◌, [], ◌∷◌, ◌++◌, IfOk, OnOk, Some, option_map, length, map, List as Items};
ghost use Rattle.lua_uses.specs.Modules.{place_named, place_required, with_place, with_required, uses_at, read_at, reach, reads, Named as PlainNamed};
ghost use Rattle.lua_lint.specs.Seen.{uses_seen};
ghost use Rattle.lua_lint.specs.Reading.{modules_seen, ArePlaced, IsPutAt, place_at, read_seen, reads_seen};

use crate::places::{Use, text_uses};
use indexmap::{IndexMap, IndexSet};
use lua_syntax::Chunk;
use std::alloc::Global;
use std::hash::RandomState;
use wk_base::{Bytes, List, Namespace, NoMemory, Title, TitleFault};

/// A module: its title and its tree.
#[derive(Drop)]
pub struct Named {
    pub title: Title,
    pub chunk: Chunk,
}

/// A module that was read: its place in the list, and where its text names globals.
#[derive(Drop)]
pub(crate) struct Read<'m> {
    pub(crate) place: usize,
    pub(crate) uses: List<Use<'m>>,
}

/// The places of modules, by their titles.
type PlaceMap<'m> = IndexMap<&'m Title, usize, RandomState>;

/// The places that were reached, in order.
type Reached = IndexSet<usize, RandomState>;

/// From now on a title has this place.
fn put_place<'m>(places: &mut PlaceMap<'m>, title: &'m Title, place: usize) -> Result<(), NoMemory>
    ensures { OnOk result (IsPutAt places.old.entries title.now place places.new.entries) }
{
    match places.insert(title, place) {
        Ok(_) => Ok(()),
        Err(_) => Err(NoMemory),
    }
}

/// The place of each title is put into a map without one. Of two modules of one title the first counts.
fn put_places<'m>(places: &mut PlaceMap<'m>, modules: &'m [Named]) -> Result<(), NoMemory>
    requires { places.old.entries ≡ [] }
    ensures { OnOk result (ArePlaced (modules_seen modules.now) places.new.entries) }
{
    let mut place = modules.len();
    while place > 0 {
        place -= 1;
        put_place(places, &modules[place].title, place)?;
    }
    Ok(())
}

/// The place of each title. Of two modules of one title the first counts.
fn places_of<'m>(
    alloc: Global,
    seed: RandomState,
    modules: &'m [Named],
) -> Result<PlaceMap<'m>, NoMemory>
    ensures { IfOk result (λ places. ArePlaced (modules_seen modules.now) places.entries) }
{
    let mut places = IndexMap::with_hasher(alloc, seed);
    put_places(&mut places, modules)?;
    Ok(places)
}

/// The place of a title.
fn look_up(places: &PlaceMap<'_>, title: &Title) -> Option<usize>
    ensures { result ≡ place_at places.now.entries title.now }
{
    places.get(&title).copied()
}

/// The place of the module that `require` runs for a text, if there is one.
fn place_named(
    alloc: Global,
    places: &PlaceMap<'_>,
    text: &Bytes,
) -> Result<Option<usize>, NoMemory>
    ensures { IfOk result (λ place. (modules : Items PlainNamed) → ArePlaced modules places.now.entries → place ≡ place_named modules text.now) }
{
    if text.as_slice() == b"strict".as_slice() {
        return Ok(None);
    }
    match Title::read(alloc, text.as_slice(), Namespace::Main) {
        Ok(title) => Ok(look_up(places, &title)),
        Err(TitleFault::NoMemory) => Err(NoMemory),
        Err(_) => Ok(None),
    }
}

/// One more place is reached, if it wasn't before.
fn reach(seen: &mut Reached, place: usize) -> Result<(), NoMemory>
    ensures { OnOk result (seen.new.keys ≡ with_place seen.old.keys (Some place)) }
{
    match seen.insert(place) {
        Ok(_) => Ok(()),
        Err(_) => Err(NoMemory),
    }
}

/// The module that a use requires is reached.
fn require_one(
    alloc: Global,
    places: &PlaceMap<'_>,
    required: Option<&Bytes>,
    seen: &mut Reached,
) -> Result<(), NoMemory>
    ensures { OnOk result ((modules : Items PlainNamed) → ArePlaced modules places.now.entries → seen.new.keys ≡ with_place seen.old.keys (place_required modules (option_map (λ t. t.now) required.entry))) }
{
    let Some(text) = required else {
        return Ok(());
    };
    match place_named(alloc, places, text)? {
        None => Ok(()),
        Some(place) => reach(seen, place),
    }
}

/// The modules that these uses require are reached.
fn require_all(
    alloc: Global,
    places: &PlaceMap<'_>,
    uses: &[Use<'_>],
    seen: &mut Reached,
) -> Result<(), NoMemory>
    ensures { OnOk result ((modules : Items PlainNamed) → ArePlaced modules places.now.entries → seen.new.keys ≡ with_required modules seen.old.keys (uses_seen uses.now)) }
{
    for u in uses {
        require_one(alloc, places, u.required, seen)?;
    }
    Ok(())
}

/// The module of a place is read.
fn read_at<'m>(
    alloc: Global,
    seed: RandomState,
    modules: &'m [Named],
    place: usize,
) -> Result<Read<'m>, NoMemory>
    ensures { IfOk result (λ read. read_seen read ≡ read_at (modules_seen modules.now) place) }
{
    let uses = match modules.get(place) {
        None => List::new(alloc),
        Some(module) => text_uses(alloc, seed, &module.chunk)?,
    };
    Ok(Read { place, uses })
}

/// Reads the module of a place, from which others are reached.
fn read_on<'m>(
    alloc: Global,
    seed: RandomState,
    modules: &'m [Named],
    places: &PlaceMap<'m>,
    place: usize,
    seen: &mut Reached,
) -> Result<Read<'m>, NoMemory>
    ensures read { IfOk result (λ read. read_seen read ≡ read_at (modules_seen modules.now) place) }
    ensures seen { OnOk result (ArePlaced (modules_seen modules.now) places.now.entries → seen.new.keys ≡ with_required (modules_seen modules.now) seen.old.keys (uses_at (modules_seen modules.now) place)) }
{
    let read = read_at(alloc, seed, modules, place)?;
    require_all(alloc, places, read.uses.as_slice(), seen)?;
    Ok(read)
}

/// The module of a place is read behind these.
fn read_behind<'m>(
    alloc: Global,
    seed: RandomState,
    modules: &'m [Named],
    places: &PlaceMap<'m>,
    place: usize,
    seen: &mut Reached,
    all: &mut List<Read<'m>>,
) -> Result<(), NoMemory>
    ensures all { OnOk result (reads_seen all.new ≡ reads_seen all.old ++ read_at (modules_seen modules.now) place ∷ []) }
    ensures seen { OnOk result (ArePlaced (modules_seen modules.now) places.now.entries → seen.new.keys ≡ with_required (modules_seen modules.now) seen.old.keys (uses_at (modules_seen modules.now) place)) }
{
    all.push(read_on(alloc, seed, modules, places, place, seen)?)?;
    Ok(())
}

/// The modules that are reached are read behind these, and so are those that they reach.
fn read_reached<'m>(
    alloc: Global,
    seed: RandomState,
    modules: &'m [Named],
    places: &PlaceMap<'m>,
    seen: &mut Reached,
    all: &mut List<Read<'m>>,
) -> Result<(), NoMemory>
    requires { ArePlaced (modules_seen modules.now) places.now.entries }
    ensures { OnOk result (reads_seen all.new ≡ reads_seen all.old ++ map (read_at (modules_seen modules.now)) (reach (modules_seen modules.now) (length modules.now) 0 seen.old.keys)) }
{
    for next in 0..modules.len() {
        let Some(place) = seen.get_index(next).copied() else {
            return Ok(());
        };
        read_behind(alloc, seed, modules, places, place, seen, all)?;
    }
    Ok(())
}

/// The modules that are reached are read.
fn gathered<'m>(
    alloc: Global,
    seed: RandomState,
    modules: &'m [Named],
    places: &PlaceMap<'m>,
    seen: &mut Reached,
) -> Result<List<Read<'m>>, NoMemory>
    requires { ArePlaced (modules_seen modules.now) places.now.entries }
    ensures { IfOk result (λ rs. reads_seen rs ≡ map (read_at (modules_seen modules.now)) (reach (modules_seen modules.now) (length modules.now) 0 seen.old.keys)) }
{
    let mut all = List::new(alloc);
    read_reached(alloc, seed, modules, places, seen, &mut all)?;
    Ok(all)
}

/// The modules that are reached from one of these are read.
fn read_from<'m>(
    alloc: Global,
    seed: RandomState,
    modules: &'m [Named],
    places: &PlaceMap<'m>,
    root: usize,
) -> Result<List<Read<'m>>, NoMemory>
    requires { ArePlaced (modules_seen modules.now) places.now.entries }
    ensures { IfOk result (λ rs. reads_seen rs ≡ reads (modules_seen modules.now) root) }
{
    let mut seen = IndexSet::with_hasher(alloc, seed);
    reach(&mut seen, root)?;
    gathered(alloc, seed, modules, places, &mut seen)
}

/// The modules that are reached from one of these, in the order in which they are reached first. Titles and names are hashed by the seed.
pub(crate) fn read_all<'m>(
    alloc: Global,
    seed: RandomState,
    modules: &'m [Named],
    root: usize,
) -> Result<List<Read<'m>>, NoMemory>
    ensures { IfOk result (λ rs. reads_seen rs ≡ reads (modules_seen modules.now) root) }
{
    let places = places_of(alloc, seed, modules)?;
    read_from(alloc, seed, modules, &places, root)
}
