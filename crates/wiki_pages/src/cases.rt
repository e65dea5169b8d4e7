//! A run of parts of a `#switch` as it is read: the first part of each name, and where the run stops.
ghost use Rattle.std.specs.Prelude.{◌≡◌, ◌∷◌, [], ◌++◌, ◌||◌, false, cond, List, Some, IfOk, OnOk};
ghost use Rattle.indexmap.specs.IndexMap.{hasher_of};
ghost use Rattle.wiki_markup.specs.Nodes.{Node};
ghost use Rattle.expand_texts.specs.ExpandMeaningExpand.{is_default as is_default_of};
ghost use Rattle.wiki_pages.specs.CaseTables.{size_hash, text_hash, lower_half, hash_of as hash_of_name, find_in, Notes, Passes, IsRightRun};

use expand_texts::equality::number_of;
use indexmap::IndexMap;
use std::alloc::Global;
use std::hash::{BuildHasher, Hasher, RandomState};
use wiki_markup::NoMemory;

/// A part that is the first of its name, and how many valued parts of the run stand in front of it.
#[derive(Clone, Copy)]
pub struct Case {
    pub(crate) at: u32,
    pub(crate) group: u32,
}

/// The nodes from `start` up to, but not including, `end`.
#[derive(Clone, Copy)]
pub struct Stretch {
    pub(crate) start: usize,
    pub(crate) end: usize,
}

/// Where a run stops, and what is known there where no part was equal: whether a valueless `#default` waits for a value, and
/// the default, where the run set one.
#[derive(Clone, Copy)]
pub struct Stop {
    pub(crate) at: usize,
    pub(crate) waits: bool,
    pub(crate) default: Option<Stretch>,
}

/// A run of parts with constant names: the first part of each name, by the hash of the name, and the valued parts.
#[derive(Drop)]
pub struct CaseRun {
    pub(crate) cases: IndexMap<u32, Case, RandomState>,
    pub(crate) values: Vec<u32>,
    pub(crate) stop: Stop,
    /// Where the parts of the `#switch` end.
    pub(crate) end: usize,
}

/// Whether a name is that of the default.
pub fn is_default(name: &[u8]) -> bool
    ensures { result ≡ is_default_of name.now }
{
    name == b"#default".as_slice()
}

/// The hash of the size of a number.
fn size_hash(seed: RandomState, size: u64) -> u64
    ensures { result ≡ size_hash seed size }
{
    let mut hasher = seed.build_hasher();
    hasher.write_u64(size);
    hasher.finish()
}

/// The hash of a text.
fn text_hash(seed: RandomState, text: &[u8]) -> u64
    ensures { result ≡ text_hash seed text.now }
{
    let mut hasher = seed.build_hasher();
    hasher.write(text);
    hasher.finish()
}

/// The lower half of a hash: half the memory, and among a million names some hundred collide.
fn lower_half(hash: u64) -> u32
    ensures { result ≡ lower_half hash }
{
    (hash % 4_294_967_296) as u32
}

/// The hash of a name. Equal names have one hash: that of a number is of its size. No page can choose names that collide.
#[tactic(auto, unfolding(crate::specs::CaseTables::hash_of))]
pub fn hash_of(seed: RandomState, name: &[u8]) -> u32
    ensures { result ≡ hash_of_name seed name.now }
{
    match number_of(name) {
        Some((_, size)) => lower_half(size_hash(seed, size)),
        None => lower_half(text_hash(seed, name)),
    }
}

/// A place, or a count of nodes. No text has more of them.
fn small(place: usize) -> Result<u32, NoMemory>
    ensures { IfOk result (λ small. small ≡ place) }
{
    match u32::try_from(place) {
        Ok(small) => Ok(small),
        Err(_) => Err(NoMemory),
    }
}

/// A case is noted, unless one of that hash is there.
fn note(cases: &mut IndexMap<u32, Case, RandomState>, hash: u32, case: Case) -> Result<(), NoMemory>
    ensures notes { OnOk result (Notes (find_in cases.old) (find_in cases.new) hash case) }
    ensures hasher { hasher_of cases.new ≡ hasher_of cases.old }
{
    let there = cases.contains_key(&hash);
    if there {
        return Ok(());
    }
    match cases.insert(hash, case) {
        Ok(_) => Ok(()),
        Err(_) => Err(NoMemory),
    }
}

/// A valued part behind the others.
fn put_value(values: &mut Vec<u32>, at: usize) -> Result<(), NoMemory>
    ensures { OnOk result (values.new.items ≡ values.old.items ++ at ∷ []) }
{
    let at = small(at)?;
    match values.push(at) {
        Ok(_) => Ok(()),
        Err(_) => Err(NoMemory),
    }
}

/// The default behind a valued part, which sets it or doesn't.
fn default_after(default: Option<Stretch>, sets: bool, value: Stretch) -> Option<Stretch>
    ensures { result ≡ cond sets (Some value) default }
{
    if sets {
        return Some(value);
    }
    default
}

/// Whether a valueless `#default` waits for a value, behind a part of this name.
fn waits_behind(stop: Stop, name: &[u8]) -> bool
    ensures { result ≡ (stop.waits || is_default_of name.now) }
{
    stop.waits || is_default(name)
}

impl CaseRun {
    /// The run of no parts.
    pub fn new(alloc: Global, seed: RandomState, at: usize, end: usize) -> CaseRun
        ensures right { (nodes : List Node) → IsRightRun nodes at result }
        ensures end { result.end ≡ end }
        ensures at { result.stop.at ≡ at }
    {
        CaseRun {
            cases: IndexMap::with_hasher(alloc, seed),
            values: Vec::new(alloc),
            stop: Stop {
                at,
                waits: false,
                default: None,
            },
            end,
        }
    }

    /// The part at the stop as a case of its name.
    fn note_name(&mut self, name: &[u8]) -> Result<(), NoMemory>
        ensures { OnOk result (Passes self.old self.new name.now self.old.values.items self.old.stop) }
    {
        let at = small(self.stop.at)?;
        let group = small(self.values.as_slice().len())?;
        let case = Case { at, group };
        let hash = hash_of(*self.cases.hasher(), name);
        note(&mut self.cases, hash, case)
    }

    /// A valueless part of this name is passed, which isn't the last one.
    pub fn pass_valueless(&mut self, name: &[u8], next: usize) -> Result<(), NoMemory>
        ensures { OnOk result (Passes self.old self.new name.now self.old.values.items (record { at = next; waits = self.old.stop.waits || is_default_of name.now; default = self.old.stop.default })) }
    {
        self.note_name(name)?;
        let waits = waits_behind(self.stop, name);
        self.stop = Stop {
            at: next,
            waits,
            default: self.stop.default,
        };
        Ok(())
    }

    /// A valued part of this name is passed.
    pub fn pass_valued(&mut self, name: &[u8], value: Stretch, next: usize) -> Result<(), NoMemory>
        ensures { OnOk result (Passes self.old self.new name.now (self.old.values.items ++ self.old.stop.at ∷ []) (record { at = next; waits = false; default = cond (self.old.stop.waits || is_default_of name.now) (Some value) self.old.stop.default })) }
    {
        self.note_name(name)?;
        put_value(&mut self.values, self.stop.at)?;
        let sets = waits_behind(self.stop, name);
        let default = default_after(self.stop.default, sets, value);
        self.stop = Stop {
            at: next,
            waits: false,
            default,
        };
        Ok(())
    }
}
