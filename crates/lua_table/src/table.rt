//! A table, its calls and their refusals.
ghost use Rattle.std.specs.Prelude.{slice_get, ◌≡◌, ◌≢◌, ◌↔◌, ◌+◌, ◌&&◌, ◌<◌, ◌≤◌, ℕ, pos, [], length, not, true, false, IfSome, IfNone, IfOk, OnOk, OnErr, MatchOption, MatchResult, None};
ghost use Rattle.lua_table.specs.Entries.{Contents, value_at, is_there, set_at, after_key, first_live, IsBorder, Shows, HasKeys};
ghost use Rattle.lua_table.specs.Holes.{marked, MarksCleared, MarksClearedBut, IsRun};

use crate::{Entries, Holes, Slot};
use std::alloc::{AllocError, Global};
use std::hash::RandomState;
use std::marker::Model;

/// The greatest whole number, so the greatest border.
const MOST: u64 = 9223372036854775807;

/// Why a key was not set.
#[derive(Clone, Copy, Debug, PartialEq, Eq)]
pub enum SetFault {
    /// The key is nil.
    NotAKey,
    /// The table is read-only.
    Frozen,
    /// Memory ran out. A key that is there is set without memory.
    NoMemory,
}

/// The key after which `next` was asked to go on was never set.
#[derive(Clone, Copy, Debug, PartialEq, Eq)]
pub struct NoSuchKey;

/// Where a walk by `next` comes to.
#[derive(Clone, Copy)]
pub struct Step<V> {
    /// The key of the entry, or nil at the end.
    pub key: V,
    /// Its value, or nil at the end.
    pub value: V,
    /// How many cleared entries were passed over on the way, also where the end is reached.
    pub passed: u64,
}

/// A table of Lua.
#[derive(Drop)]
pub struct Table<V: Slot> {
    entries: Entries<V>,
    /// The numbers from 1 up to this one are keys, cleared or not, and the next one is none.
    run: u64,
    /// Which of them are cleared: the place of the number n is n - 1.
    holes: Holes,
    meta: V,
    frozen: bool,
}

impl<V: Slot> Model for Table<V> {
    ghost use Rattle.lua_table.specs.Entries.{Contents, HasKeys};
    ghost use Rattle.lua_table.specs.Holes.{MarksCleared};

    ghost Value = { Contents V };

    ghost view = { λ t. record { entries = t.entries; meta = t.meta; frozen = t.frozen } };

    ghost invariant = { λ t. MarksCleared V.eq V.nil_value V.number_of t.entries t.holes t.run × HasKeys V.eq V.nil_value t.entries };
}

impl<V: Slot> Table<V> {
    /// An empty table, which can be written and has no metatable.
    ///
    /// The seed is drawn anew for each run of the program: who does not know it can't choose keys that collide. Nothing that
    /// a table answers depends on it.
    pub fn new(alloc: Global, seed: RandomState) -> Table<V>
        ensures { result ≡ record { entries = []; meta = V.nil_value; frozen = false } }
    {
        Table {
            entries: Entries::new(alloc, seed),
            run: 0,
            holes: Holes::new(alloc),
            meta: V::nil(),
            frozen: false,
        }
    }

    /// The value of a key as `rawget` gives it: nil where the key is not there.
    pub fn get(&self, key: &V) -> V
        ensures { result ≡ value_at V.eq V.nil_value self.now.entries key.now }
    {
        match self.entries.get(key) {
            Some(value) => value,
            None => V::nil(),
        }
    }

    /// Whether a key has an entry, cleared or not. Only a key without one can need memory.
    pub fn has(&self, key: &V) -> bool
        ensures { result ≡ is_there V.eq V.nil_value self.now.entries key.now }
    {
        self.entries.get(key).is_some()
    }

    /// Whether the table is read-only.
    pub fn is_frozen(&self) -> bool
        ensures { result ≡ self.now.frozen }
    {
        self.frozen
    }

    /// Makes the table read-only for good.
    pub fn freeze(&mut self)
        ensures { self.new ≡ record self.old { frozen = true } }
    {
        self.frozen = true;
    }

    /// The metatable, or nil.
    pub fn meta(&self) -> V
        ensures { result ≡ self.now.meta }
    {
        self.meta
    }

    /// Gives the table a metatable, or none by nil. The table must not be read-only.
    pub fn set_meta(&mut self, meta: V)
        requires { self.old.frozen ≡ false }
        ensures { self.new ≡ record self.old { meta = meta } }
    {
        self.meta = meta;
    }

    /// Sets a key as `rawset` does, and tells whether that made a new entry.
    ///
    /// A key that is there keeps its place, whether its value is nil before or afterwards. Nil for a key that was never set
    /// makes no entry. A refusal leaves the table as it was.
    pub fn set(&mut self, key: V, value: V) -> Result<bool, SetFault>
        ensures ok { OnOk result (self.new ≡ record self.old { entries = set_at V.eq V.nil_value self.old.entries key value }) }
        ensures made { IfOk result (λ made. made ≡ (not (is_there V.eq V.nil_value self.old.entries key) && not (V.eq value V.nil_value))) }
        ensures err { OnErr result (self.new ≡ self.old) }
        ensures frozen { (result ≡ Err SetFault.Frozen) ↔ (self.old.frozen ≡ true) }
        ensures not_a_key { (result ≡ Err SetFault.NotAKey) ↔ ((self.old.frozen ≡ false) × (key ≡ V.nil_value)) }
        ensures memory { result ≡ Err SetFault.NoMemory → is_there V.eq V.nil_value self.old.entries key ≡ false }
        ensures clearing { result ≡ Err SetFault.NoMemory → V.eq value V.nil_value ≡ false }
    {
        if self.frozen {
            return Err(SetFault::Frozen);
        }
        if key.is_nil() {
            return Err(SetFault::NotAKey);
        }
        let there = self.entries.get(&key).is_some();
        let cleared = value.is_nil();
        if !there & cleared {
            return Ok(false);
        }
        let run = match run_with(&self.entries, &mut self.holes, self.run, &key) {
            Ok(run) => run,
            Err(_) => return Err(SetFault::NoMemory),
        };
        match self.entries.put(key, value) {
            Ok(_) => {
                mark_key(&mut self.holes, run, &key, cleared);
                self.run = run;
                Ok(!there)
            }
            Err(_) => Err(SetFault::NoMemory),
        }
    }

    /// The entry at a place in order of first insertion, cleared or not; none past the last one.
    pub fn at(&self, place: usize) -> Option<(V, V)>
        ensures { result ≡ slice_get self.now.entries place }
    {
        let entries = &self.entries;
        entries.at(place)
    }

    /// The entry after a key in order of first insertion, or the first one after nil, leaving out those that are cleared.
    ///
    /// Where none is left, the key and the value of the answer are nil. Sets of keys that are there may come between two
    /// steps of a walk.
    pub fn next(&self, key: &V) -> Result<Step<V>, NoSuchKey>
        ensures first { key.now ≡ V.nil_value → MatchResult result (λ s. Shows V.eq V.nil_value (first_live V.eq V.nil_value self.now.entries) s) (λ _. ⊥) }
        ensures later { key.now ≢ V.nil_value → MatchResult result
            (λ s. MatchOption (after_key V.eq V.nil_value self.now.entries key.now) ⊥ (λ rest. Shows V.eq V.nil_value (first_live V.eq V.nil_value rest) s))
            (λ _. after_key V.eq V.nil_value self.now.entries key.now ≡ None) }
        ensures keys { HasKeys V.eq V.nil_value self.now.entries }
    {
        let entries = &self.entries;
        if key.is_nil() {
            return Ok(entries.first());
        }
        match entries.after(key) {
            Some(step) => Ok(step),
            None => Err(NoSuchKey),
        }
    }

    /// The least border, which is what `#` gives: the least number from 0 on after which the next one has no value.
    ///
    /// Where all numbers from 1 on have one, it is the greatest whole number.
    pub fn border(&self) -> i64
        ensures { (n : ℕ) × (result ≡ pos n) × IsBorder V.eq V.nil_value V.number_of self.now.entries n }
    {
        match self.holes.first() {
            Some(place) => {
                if (place as u64) < self.run {
                    place as i64
                } else {
                    self.run as i64
                }
            }
            None => self.run as i64,
        }
    }
}

/// How far the numbers are keys without a gap once `key` is one, where `run` is how far they are before.
///
/// The marks of those that are passed are set, but not the mark of `key`.
fn run_with<V: Slot>(
    entries: &Entries<V>,
    holes: &mut Holes,
    run: u64,
    key: &V,
) -> Result<u64, AllocError>
    requires { MarksCleared V.eq V.nil_value V.number_of entries.now holes.old run }
    ensures ok { IfOk result (λ to. MarksClearedBut V.eq V.nil_value V.number_of key.now entries.now holes.new to) }
    ensures still { MarksCleared V.eq V.nil_value V.number_of entries.now holes.new run }
    ensures absent { OnErr result (is_there V.eq V.nil_value entries.now key.now ≡ false) }
{
    match place_of(key) {
        Some(n) if n == run + 1 => run_from(entries, holes, n),
        _ => Ok(run),
    }
}

/// The number that a key is, if it is one from 1 on.
fn place_of<V: Slot>(key: &V) -> Option<u64>
    ensures found { IfSome result (λ n. (0 < n) × (n ≤ 9223372036854775807) × (key.now ≡ V.number_of (pos n))) }
    ensures absent { IfNone result ((n : ℕ) → 0 < n → key.now ≢ V.number_of (pos n)) }
{
    match key.whole() {
        Some(n) if n >= 1 => Some(n as u64),
        _ => None,
    }
}

/// How far the numbers after `from` are keys without a gap. The marks of those that are passed are set.
fn run_from<V: Slot>(entries: &Entries<V>, holes: &mut Holes, from: u64) -> Result<u64, AllocError>
    requires some { 0 < from }
    requires most { from ≤ 9223372036854775807 }
    requires fits { from ≤ length holes.old + 1 }
    ensures same { (k : ℕ) → k + 1 < from → marked holes.new k ≡ marked holes.old k }
    ensures longer { length holes.old ≤ length holes.new }
    ensures run { IfOk result (λ to. IsRun V.eq V.nil_value V.number_of entries.now holes.new from to) }
{
    holes.make_room(from as usize - 1)?;
    for n in from..MOST {
        match entries.get(&V::number(n as i64 + 1)) {
            None => return Ok(n),
            Some(value) => {
                holes.make_room(n as usize)?;
                holes.put(n as usize, value.is_nil());
            }
        }
    }
    Ok(MOST)
}

/// Gives a key that is a number up to `run` its mark.
fn mark_key<V: Slot>(holes: &mut Holes, run: u64, key: &V, cleared: bool)
    requires { run ≤ length holes.old }
    ensures longer { length holes.new ≡ length holes.old }
    ensures here { (k : ℕ) → k < run → key.now ≡ V.number_of (pos (k + 1)) → marked holes.new k ≡ cleared }
    ensures others { (k : ℕ) → key.now ≢ V.number_of (pos (k + 1)) → marked holes.new k ≡ marked holes.old k }
{
    match place_of(key) {
        Some(n) if n <= run => holes.put(n as usize - 1, cleared),
        _ => {}
    }
}
