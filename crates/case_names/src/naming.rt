//! The keys that name cases, each once.
ghost use Rattle.std.specs.Prelude.{◌≡◌, [], map, slice_get, IfOk, OnOk, if◌then◌else◌};
ghost use Rattle.lua_syntax.specs.View.{chunk_view};
ghost use Rattle.case_names.specs.Cases.{names_case, with_case, with_cases, cases_of};

use crate::functions::function_keys;
use indexmap::IndexSet;
use lua_syntax::{Chunk, NoMemory, WkBaseBytes as Bytes, WkBaseList as List};
use std::alloc::Global;
use std::hash::RandomState;

/// Whether a key names a case.
fn names_case(key: &[u8]) -> bool
    ensures { result ≡ names_case key.now }
{
    key.starts_with(b"test")
}

/// Adds a case that isn't there.
fn put_case<'t>(met: &mut IndexSet<&'t Bytes, RandomState>, name: &'t Bytes) -> Result<(), NoMemory>
    ensures { OnOk result (map (λ k. k.now) met.new.keys ≡ with_case (map (λ k. k.now) met.old.keys) name.now) }
{
    match met.insert(name) {
        Ok(_) => Ok(()),
        Err(_) => Err(NoMemory),
    }
}

/// Adds a key where it names a case that isn't there.
fn put_key<'t>(met: &mut IndexSet<&'t Bytes, RandomState>, key: &'t Bytes) -> Result<(), NoMemory>
    ensures { OnOk result (map (λ k. k.now) met.new.keys ≡ (if names_case key.now then with_case (map (λ k. k.now) met.old.keys) key.now else map (λ k. k.now) met.old.keys)) }
{
    if names_case(key.as_slice()) {
        return put_case(met, key);
    }
    Ok(())
}

/// What stands at a place.
fn key_at<'t>(met: &IndexSet<&'t Bytes, RandomState>, at: usize) -> Option<&'t Bytes>
    ensures { result ≡ slice_get met.now.keys at }
{
    met.get_index(at).copied()
}

/// A copy of each of these.
fn copies(alloc: Global, met: &IndexSet<&Bytes, RandomState>) -> Result<List<Bytes>, NoMemory>
    ensures { IfOk result (λ list. list ≡ map (λ k. k.now) met.now.keys) }
{
    let mut list = List::new(alloc);
    for at in 0..usize::MAX {
        match key_at(met, at) {
            Some(key) => list.push(key.copy()?)?,
            None => return Ok(list),
        }
    }
    Err(NoMemory)
}

/// The keys that name cases, each once, at its first place.
fn distinct_cases(
    alloc: Global,
    seed: RandomState,
    keys: &[&Bytes],
) -> Result<List<Bytes>, NoMemory>
    ensures { IfOk result (λ cases. cases ≡ with_cases [] (map (λ k. k.now) keys.now)) }
{
    let mut met = IndexSet::with_hasher(alloc, seed);
    for key in keys {
        put_key(&mut met, key)?;
    }
    copies(alloc, &met)
}

/// The cases that the text of a test module names: the keys, beginning with `test`, under which its own statements put functions into a
/// table, each once. A case is run by its name, as `#invoke` runs a function of a module.
///
/// Names are hashed from the seed, which changes nothing else.
pub fn cases(alloc: Global, seed: RandomState, chunk: &Chunk) -> Result<List<Bytes>, NoMemory>
    ensures { IfOk result (λ cases. cases ≡ cases_of (chunk_view chunk.now)) }
{
    let all = function_keys(alloc, chunk)?;
    distinct_cases(alloc, seed, all.as_slice())
}
