//! Sets whose tests cost a bounded time, however many parts they have.
ghost use Rattle.std.specs.Prelude.{◌≡◌, ℕ, ◌<◌, ◌≤◌, ◌==◌, ◌||◌, true, false, List, length, IfOk, OnOk};
ghost use Rattle.regex_class.specs.Ranges.{in_ranges};
ghost use Rattle.lua_pattern.specs.Letters.{Letters};
ghost use Rattle.lua_pattern.specs.Texts.{bytes, between};
ghost use Rattle.lua_pattern.specs.Sets.{turned, in_any, in_set};
ghost use Rattle.lua_pattern.specs.ByteTables.{table_has};
ghost use Rattle.lua_pattern.specs.Prepared.{IsIndexOf};

use crate::alphabet::{Alphabet, OneByte};
use crate::byte_table::ByteTable;
use crate::fits::{is_in_any, turn};
use crate::item::{Class, Part, Set};
use regex_class::Class as Ranges;
use std::alloc::Global;
use std::marker::Model;
use wk_base::{List, NoMemory};

/// Up to so many parts are asked one by one.
const FEW: usize = 16;

/// What is prepared of a set of more than `FEW` parts.
#[derive(Drop, Debug)]
struct Index {
    /// The bytes that are in a part, over the alphabet of bytes.
    table: ByteTable,
    /// The ranges, sorted and disjoint.
    ranges: Ranges,
    /// The classes, each once: 20 at most.
    classes: List<Part>,
}

/// A set, and where it has many parts their index.
#[derive(Drop, Debug)]
struct Indexed {
    set: Set,
    index: Option<Index>,
}

/// A set that is prepared for its tests, seen as the set.
#[derive(Drop, Debug)]
pub struct PreparedSet {
    indexed: Box<Indexed>,
}

impl Model for PreparedSet {
    ghost use Rattle.lua_pattern.specs.declared.item.Set.{Set as SetValue};
    ghost use Rattle.lua_pattern.specs.contracts.item.Set as set;
    ghost use Rattle.lua_pattern.specs.Prepared.{IsIndex};

    ghost Value = { SetValue };

    ghost coded = { set.the_row.coded };

    ghost view = { λ p. p.indexed.value.set };

    ghost invariant = { λ p. IsIndex p.indexed.value.set.parts p.indexed.value.index };
}

/// Whether a part is this class, complemented or not.
fn is_kind(part: Part, class: Class, negated: bool) -> bool
    ensures { result ≡ true → part ≡ Part.Kind class negated }
{
    match part {
        Part::Range(_, _) => false,
        Part::Kind(other, turned) => other == class && turned == negated,
    }
}

/// Whether a class is among the parts.
fn has_kind(parts: &[Part], class: Class, negated: bool) -> bool
    ensures { result ≡ true → (a : Letters) (c : ℕ) → turned negated (a.has class c) ≡ true → in_any a parts.now c ≡ true }
{
    let mut left = parts;
    'parts: while let [part, rest @ ..] = left {
        if is_kind(*part, class, negated) {
            return true;
        }
        left = rest;
    }
    false
}

/// The ranges of a set, in the order of its text, and its classes, each once.
#[tactic(auto, using(crate::proofs::Tables::range_moves, crate::proofs::Tables::kind_moves, crate::proofs::Tables::none_put))]
fn split(alloc: Global, parts: &[Part]) -> Result<(Vec<(u32, u32)>, List<Part>), NoMemory>
    ensures { IfOk result (λ p. (a : Letters) (c : ℕ) → in_any a parts.now c ≡ (in_ranges p.0.items c || in_any a p.1 c)) }
{
    let mut ranges = Vec::new(alloc);
    let mut classes = List::new(alloc);
    let mut left = parts;
    'parts: while let [part, rest @ ..] = left {
        match *part {
            Part::Range(low, high) => put_range(&mut ranges, low, high)?,
            Part::Kind(class, negated) => put_class(&mut classes, class, negated)?,
        }
        left = rest;
    }
    Ok((ranges, classes))
}

fn put_range(ranges: &mut Vec<(u32, u32)>, low: char, high: char) -> Result<(), NoMemory>
    ensures { OnOk result ((c : ℕ) → in_ranges ranges.new.items c ≡ (in_ranges ranges.old.items c || between low high c)) }
{
    match ranges.push((low as u32, high as u32)) {
        Ok(_) => Ok(()),
        Err(_) => Err(NoMemory),
    }
}

fn put_class(classes: &mut List<Part>, class: Class, negated: bool) -> Result<(), NoMemory>
    ensures { OnOk result ((a : Letters) (c : ℕ) → in_any a classes.new c ≡ (in_any a classes.old c || turned negated (a.has class c))) }
{
    if has_kind(classes.as_slice(), class, negated) {
        return Ok(());
    }
    classes.push(Part::Kind(class, negated))
}

/// The table of the bytes in ranges and classes.
fn table_of(ranges: &Ranges, classes: &[Part]) -> ByteTable
    ensures { (c : ℕ) → c < 256 → table_has result.words c ≡ (in_ranges ranges.now.ranges.items c || in_any bytes classes.now c) }
{
    let mut table = ByteTable::empty();
    'bytes: for code in 0..256u32 {
        let byte = code as u8;
        if ranges.contains(code) || is_in_any::<OneByte>(classes, byte as char) {
            table.insert(byte);
        }
    }
    table
}

fn index_of(alloc: Global, parts: &[Part]) -> Result<Index, NoMemory>
    ensures { IfOk result (IsIndexOf parts.now) }
{
    let (ranges, classes) = split(alloc, parts)?;
    let Ok(ranges) = Ranges::new(ranges) else {
        return Err(NoMemory);
    };
    let table = table_of(&ranges, classes.as_slice());
    Ok(Index {
        table,
        ranges,
        classes,
    })
}

impl Index {
    /// Whether a symbol is in a part of the set.
    fn has<A: Alphabet>(&self, symbol: char) -> bool
        ensures { (parts : List Part) → IsIndexOf parts self.now → result ≡ in_any A.letters parts symbol }
    {
        let code = symbol as u32;
        if A::are_bytes() && code < 256 {
            return self.table.has(code as u8);
        }
        self.ranges.contains(code) || is_in_any::<A>(self.classes.as_slice(), symbol)
    }
}

impl PreparedSet {
    /// Prepares a set in time of its parts, and of the sorting of its ranges.
    pub fn new(alloc: Global, set: Set) -> Result<PreparedSet, NoMemory>
        ensures { IfOk result (λ p. p ≡ set) }
    {
        let index = if set.parts.as_slice().len() <= FEW {
            None
        } else {
            Some(index_of(alloc, set.parts.as_slice())?)
        };
        match Box::new(alloc, Indexed { set, index }) {
            Ok(indexed) => Ok(PreparedSet { indexed }),
            Err(_) => Err(NoMemory),
        }
    }

    /// The set as it is written.
    pub fn set(&self) -> &Set
        ensures { result.now ≡ self.now }
    {
        &self.indexed.set
    }

    /// Whether a symbol is in the set.
    pub fn has<A: Alphabet>(&self, symbol: char) -> bool
        ensures { result ≡ in_set A.letters self.now symbol }
    {
        let indexed: &Indexed = &self.indexed;
        let listed = match &indexed.index {
            Some(index) => index.has::<A>(symbol),
            None => is_in_any::<A>(indexed.set.parts.as_slice(), symbol),
        };
        turn(indexed.set.negated, listed)
    }
}
