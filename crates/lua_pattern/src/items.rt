//! The items of a pattern, and where each leads at a subject's end.
ghost use Rattle.std.specs.Prelude.{◌≡◌, ◌⊎◌, ℕ, List, ◌+◌, ◌<◌, ◌≤◌, cond, drop, IfOk};
ghost use Rattle.lua_pattern.specs.declared.item.Item.{Item as AnItem};
ghost use Rattle.lua_pattern.specs.declared.items.Run.{Run as ARun};
ghost use Rattle.lua_pattern.specs.Way.{way};
ghost use Rattle.lua_pattern.specs.Runs.{is_in, leading, IsNoted};

use crate::alphabet::Alphabet;
use crate::item::Item;
use crate::steps::symbol_at;
use std::alloc::Global;
use std::marker::Model;
use wk_base::{List, NoMemory};

/// Up to so many items are passed one by one.
const FEW: usize = 16;

/// Items that make no try, however many stand one behind the other.
#[derive(Clone, Copy)]
pub enum Run {
    /// `*`, `-` and `?`, which match nothing at a subject's end.
    Idle,
    /// `-`, which takes nothing at first.
    Few,
}

/// The items of a pattern, seen as their list. Of many items it is noted where the runs end, so that a search passes a
/// run as one.
#[derive(Drop)]
pub struct Items {
    list: List<Item>,
    /// For each item the index of the first one, from it on, that is not in the run; of few items nothing.
    idle: List<usize>,
    few: List<usize>,
}

impl Model for Items {
    ghost use Rattle.std.specs.Prelude.{List};
    ghost use Rattle.std.specs.Coded.{coded_list};
    ghost use Rattle.lua_pattern.specs.declared.item.Item.{Item as ItemValue};
    ghost use Rattle.lua_pattern.specs.contracts.item.Item as item;
    ghost use Rattle.lua_pattern.specs.declared.items.Run.TheVariants.{Idle, Few};
    ghost use Rattle.lua_pattern.specs.Runs.{IsNoted};

    ghost Value = { List ItemValue };

    ghost coded = { coded_list item.the_row.coded };

    ghost view = { λ s. s.list };

    ghost invariant = { λ s. IsNoted Idle s.list s.idle × IsNoted Few s.list s.few };
}

impl Items {
    /// Notes what is needed of many items, in time of their number.
    pub fn new(alloc: Global, list: List<Item>) -> Result<Items, NoMemory>
        ensures { IfOk result (λ items. items ≡ list) }
    {
        let idle = noted(alloc, list.as_slice(), Run::Idle)?;
        let few = noted(alloc, list.as_slice(), Run::Few)?;
        Ok(Items { list, idle, few })
    }

    pub fn as_slice(&self) -> &[Item]
        ensures { result.now ≡ self.now }
    {
        self.list.as_slice()
    }

    pub fn into_list(self) -> List<Item>
        ensures { result ≡ self }
    {
        self.list
    }

    /// The items, and what is noted of both runs.
    pub fn parts(&self) -> (&[Item], &[usize], &[usize])
        ensures same { result.0.now ≡ self.now }
        ensures idle { IsNoted Run.Idle result.0.now result.1.now }
        ensures few { IsNoted Run.Few result.0.now result.2.now }
    {
        (
            self.list.as_slice(),
            self.idle.as_slice(),
            self.few.as_slice(),
        )
    }
}

/// Whether an item is in the run.
fn is_among(run: Run, item: &Item) -> bool
    ensures { result ≡ is_in run item.now }
{
    match run {
        Run::Idle => matches!(item, Item::Star(_) | Item::Minus(_) | Item::Maybe(_)),
        Run::Few => matches!(item, Item::Minus(_)),
    }
}

/// The index of the first item, from one on, that is not in the run: its own, or the one behind it.
fn first_from(run: Run, item: &Item, index: usize, behind: usize) -> usize
    ensures { result ≡ cond (is_in run item.now) behind index }
{
    if is_among(run, item) { behind } else { index }
}

/// What is noted: of few items nothing.
fn noted(alloc: Global, items: &[Item], run: Run) -> Result<List<usize>, NoMemory>
    ensures { IfOk result (IsNoted run items.now) }
{
    if items.len() <= FEW {
        Ok(List::new(alloc))
    } else {
        note(alloc, items, run)
    }
}

/// For each item the index of the first one, from it on, that is not in the run: found from the last item to the first.
#[tactic(auto, using(crate::proofs::RunLemmas::noted_none, crate::proofs::RunLemmas::noted_more, crate::proofs::RunLemmas::noted_all))]
fn note(alloc: Global, items: &[Item], run: Run) -> Result<List<usize>, NoMemory>
    ensures { IfOk result (IsNoted run items.now) }
{
    let mut noted = List::new(alloc);
    let mut left = items;
    let mut next = items.len();
    'items: while let [before @ .., item] = left {
        next = first_from(run, item, before.len(), next);
        noted.push(next)?;
        left = before;
    }
    let mut noted = noted.into_vec();
    noted.reverse();
    Ok(List::of_vec(noted))
}

/// The index behind the items of a run that stand from one on, as far as that is noted; else the other one.
fn behind(noted: &[usize], index: usize, other: usize) -> usize
    ensures { (r : ARun) (items : List AnItem) → IsNoted r items noted.now → (result ≡ other) ⊎ (result ≡ index + leading r (drop index items)) }
{
    match noted.get(index) {
        Some(next) => *next,
        None => other,
    }
}

/// The index from which a search goes on at a place: at a subject's end behind the items that match nothing there, as
/// far as that is noted.
pub fn go_on_from<A: Alphabet>(idle: &[usize], subject: &[u8], index: usize, at: usize) -> usize
    ensures further { (items : List AnItem) → IsNoted Run.Idle items idle.now → index ≤ result }
    ensures same { (items : List AnItem) → IsNoted Run.Idle items idle.now → (marks : List ℕ) → way A.letters (drop index items) subject.now at marks ≡ way A.letters (drop result items) subject.now at marks }
{
    // most places are inside, and no symbol has to be read to tell
    if at < subject.len() {
        return index;
    }
    match symbol_at::<A>(subject, at) {
        Some(_) => index,
        None => behind(idle, index, index),
    }
}

/// The index behind an item that takes as few as it can, or behind all of them that stand from it on.
#[tactic(auto, using(crate::proofs::RunLemmas::few_behind))]
pub fn behind_few(few: &[usize], index: usize, next: usize) -> usize
    requires next { next ≡ index + 1 }
    ensures { (items : List AnItem) → IsNoted Run.Few items few.now → 0 < leading Run.Few (drop index items) → (index < result) × (result ≤ index + leading Run.Few (drop index items)) }
{
    behind(few, index, next)
}
