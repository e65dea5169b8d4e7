//! The entries of a table, as one list in order of first insertion.
ghost use Rattle.std.specs.Prelude.{◌≡◌, ◌≢◌, ◌+◌, ◌<◌, ◌≤◌, ◌^◌, ◌++◌, ℕ, pos, [], length, drop, slice_get, IsTrue, Some, None, IfSome, IfNone, MatchOption, OnOk, OnErr};
ghost use Rattle.std.specs.Map.{lookup};
ghost use Rattle.indexmap.specs.IndexMap.{insert_entry};
ghost use Rattle.lua_table.specs.Entries.{after_key, first_live, Shows};
ghost use Rattle.lua_table.specs.Front.{numbered};

use crate::{Slot, Step};
use indexmap::IndexMap;
use std::alloc::{AllocError, Global};
use std::hash::RandomState;
use std::marker::Model;

/// With so few entries it takes less time to compare each key than to hash the one that is looked for.
const FEW: usize = 16;

/// Entries in order of first insertion.
///
/// While the keys are 1, 2, 3 and so on in this order, only their values are kept, in `front`. From the first other key on,
/// new entries go to `rest`. No entry is ever taken out, so `front` stays before `rest`.
#[derive(Drop)]
pub struct Entries<V: Slot> {
    front: Vec<V>,
    rest: IndexMap<V, V, RandomState>,
}

impl<V: Slot> Model for Entries<V> {
    ghost use Rattle.std.specs.Prelude.{◌<◌, ◌^◌, ◌++◌, List, length};
    ghost use Rattle.std.specs.Coded.{coded_list, coded×};
    ghost use Rattle.lua_table.specs.Front.{numbered};

    ghost Value = { List (V × V) };

    ghost coded = { coded_list (coded× V.code V.code) };

    ghost view = { λ t. numbered V.number_of 0 t.front.items ++ t.rest.entries };

    ghost invariant = { λ t. length t.front.items < 2 ^ 63 };
}

impl<V: Slot> Entries<V> {
    /// No entries. Keys are hashed from the seed, so that a module can't choose keys that collide.
    pub fn new(alloc: Global, seed: RandomState) -> Entries<V>
        ensures { result ≡ [] }
    {
        Entries {
            front: Vec::new(alloc),
            rest: IndexMap::with_hasher(alloc, seed),
        }
    }

    /// The value at `key`, which is nil where the entry is cleared.
    pub fn get(&self, key: &V) -> Option<V>
        ensures { result ≡ lookup (V.eq key.now) self.now }
    {
        match place_below(key, self.front.len()) {
            Some(at) => Some(item_at(&self.front, at)),
            None => value_in(&self.rest, key),
        }
    }

    /// Gives `key` the value: in its place where it is there, which takes no memory, and else at the end.
    pub fn put(&mut self, key: V, value: V) -> Result<(), AllocError>
        ensures ok { OnOk result (self.new ≡ insert_entry V.eq self.old key value) }
        ensures err { OnErr result (self.new ≡ self.old) }
        ensures absent { OnErr result (lookup (V.eq key) self.old ≡ None) }
    {
        let count = self.front.len();
        match place_below(&key, count) {
            Some(at) => {
                self.front[at] = value;
                Ok(())
            }
            None => {
                if goes_to_front(&self.rest, &key, count) {
                    match self.front.push(value) {
                        Ok(_) => Ok(()),
                        Err(_) => Err(AllocError),
                    }
                } else {
                    match self.rest.insert(key, value) {
                        Ok(_) => Ok(()),
                        Err(_) => Err(AllocError),
                    }
                }
            }
        }
    }

    /// The entry at a place in order of first insertion, cleared or not.
    pub fn at(&self, place: usize) -> Option<(V, V)>
        ensures { result ≡ slice_get self.now place }
    {
        let count = self.front.len();
        if place < count {
            return Some((V::number(place as i64 + 1), item_at(&self.front, place)));
        }
        let later = place - count;
        if later < self.rest.len() {
            return Some(entry_at(&self.rest, later));
        }
        None
    }

    /// The first entry that is not cleared.
    pub fn first(&self) -> Step<V>
        ensures { Shows V.eq V.nil_value (first_live V.eq V.nil_value self.now) result }
    {
        live_from(&self.front, &self.rest, 0)
    }

    /// The first entry after `key` that is not cleared, or `None` where `key` is not there.
    pub fn after(&self, key: &V) -> Option<Step<V>>
        ensures absent { IfNone result (after_key V.eq V.nil_value self.now key.now ≡ None) }
        ensures live { IfSome result (λ s. MatchOption (after_key V.eq V.nil_value self.now key.now) ⊥ (λ later. Shows V.eq V.nil_value (first_live V.eq V.nil_value later) s)) }
    {
        match place_below(key, self.front.len()) {
            Some(at) => Some(live_from(&self.front, &self.rest, at + 1)),
            None => live_after(&self.rest, key),
        }
    }
}

/// The place of `key` among the keys from 1 to `count`, which is one less than the key.
fn place_below<V: Slot>(key: &V, count: usize) -> Option<usize>
    ensures found { IfSome result (λ at. (at < count) × (key.now ≡ V.number_of (pos (at + 1)))) }
    ensures absent { IfNone result ((n : ℕ) → 0 < n → n ≤ count → key.now ≢ V.number_of (pos n)) }
{
    match key.whole() {
        Some(n) if n >= 1 => {
            let at = (n - 1) as usize;
            if at < count { Some(at) } else { None }
        }
        _ => None,
    }
}

/// Whether a new key goes to the front: it is the number after `count`, and no other key has come yet.
fn goes_to_front<V: Slot>(rest: &IndexMap<V, V, RandomState>, key: &V, count: usize) -> bool
    ensures { IsTrue result → (length rest.now.entries ≡ 0) × (key.now ≡ V.number_of (pos (count + 1))) × (count + 1 < 2 ^ 63) }
{
    if !rest.is_empty() {
        return false;
    }
    match key.whole() {
        Some(n) if n >= 1 => (n - 1) as usize == count,
        _ => false,
    }
}

fn item_at<V: Slot>(items: &[V], at: usize) -> V
    requires { at < length items.now }
    ensures { slice_get items.now at ≡ Some result }
{
    items[at]
}

fn value_in<V: Slot>(rest: &IndexMap<V, V, RandomState>, key: &V) -> Option<V>
    ensures { result ≡ lookup (V.eq key.now) rest.now.entries }
{
    if rest.len() <= FEW {
        return value_among(rest, key);
    }
    rest.get(key).copied()
}

/// The value at `key`, which is compared with each key in turn.
fn value_among<V: Slot>(rest: &IndexMap<V, V, RandomState>, key: &V) -> Option<V>
    ensures { result ≡ lookup (V.eq key.now) rest.now.entries }
{
    for at in 0..rest.len() {
        let (other, value) = entry_at(rest, at);
        if *key == other {
            return Some(value);
        }
    }
    None
}

fn entry_at<V: Slot>(rest: &IndexMap<V, V, RandomState>, at: usize) -> (V, V)
    requires { at < length rest.now.entries }
    ensures { slice_get rest.now.entries at ≡ Some result }
{
    match rest.get_index(at) {
        Some((key, value)) => (*key, *value),
        None => unreachable!(),
    }
}

/// The first entry that is not cleared, from the place `from` in `front` on.
fn live_from<V: Slot>(front: &[V], rest: &IndexMap<V, V, RandomState>, from: usize) -> Step<V>
    requires within { from ≤ length front.now }
    requires small { length front.now < 2 ^ 63 }
    ensures { Shows V.eq V.nil_value (first_live V.eq V.nil_value (numbered V.number_of from (drop from front.now) ++ rest.now.entries)) result }
{
    let mut passed = 0u64;
    for at in from..front.len() {
        let value = item_at(front, at);
        if !value.is_nil() {
            return Step {
                key: V::number(at as i64 + 1),
                value,
                passed,
            };
        }
        passed += 1;
    }
    let step = live_in(rest, 0);
    Step {
        key: step.key,
        value: step.value,
        passed: passed + step.passed,
    }
}

/// The first entry of `rest` that is not cleared, from the place `from` on.
fn live_in<V: Slot>(rest: &IndexMap<V, V, RandomState>, from: usize) -> Step<V>
    requires { from ≤ length rest.now.entries }
    ensures shows { Shows V.eq V.nil_value (first_live V.eq V.nil_value (drop from rest.now.entries)) result }
    ensures small { result.passed < 2 ^ 63 }
{
    let mut passed = 0u64;
    for at in from..rest.len() {
        let (key, value) = entry_at(rest, at);
        if !value.is_nil() {
            return Step { key, value, passed };
        }
        passed += 1;
    }
    Step {
        key: V::nil(),
        value: V::nil(),
        passed,
    }
}

/// The first entry of `rest` after `key` that is not cleared, or `None` where `key` is not there.
fn live_after<V: Slot>(rest: &IndexMap<V, V, RandomState>, key: &V) -> Option<Step<V>>
    ensures absent { IfNone result (after_key V.eq V.nil_value rest.now.entries key.now ≡ None) }
    ensures live { IfSome result (λ s. MatchOption (after_key V.eq V.nil_value rest.now.entries key.now) ⊥ (λ later. Shows V.eq V.nil_value (first_live V.eq V.nil_value later) s)) }
{
    let _count = rest.len();
    match rest.get_index_of(key) {
        Some(at) => Some(live_in(rest, at + 1)),
        None => None,
    }
}
