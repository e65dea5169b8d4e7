//! The arguments of a frame, found by name.
ghost use Rattle.std.specs.Prelude.{◌≡◌, ◌<◌, [], Some, length, slice_get, option_map, IfOk, OnOk};
ghost use Rattle.mw_frame.specs.Scenes.{NamesDiffer};
ghost use Rattle.expand_meaning.specs.Expand.{put, found};
ghost use Rattle.expand_texts.specs.Entries.{args_in};

use indexmap::IndexMap;
use mw_frame::Arg;
use std::alloc::Global;
use std::hash::RandomState;
use std::marker::Model;
use wk_base::{Bytes, List, NoMemory};

/// Arguments in order, no two of one name.
#[derive(Drop)]
pub struct Arguments {
    by_name: IndexMap<Bytes, Bytes, RandomState>,
}

impl Model for Arguments {
    ghost use Rattle.std.specs.Prelude.{List};
    ghost use Rattle.std.specs.Coded.{coded_list};
    ghost use Rattle.mw_frame.specs.declared.scene.Arg.{Arg as ArgValue};
    ghost use Rattle.mw_frame.specs.contracts.scene.Arg as arg;
    ghost use Rattle.mw_frame.specs.Scenes.{NamesDiffer};
    ghost use Rattle.expand_texts.specs.Entries.{args_in};

    ghost Value = { List ArgValue };

    ghost coded = { coded_list arg.the_row.coded };

    ghost view = { λ a. args_in a.by_name.entries };

    ghost invariant = { λ a. NamesDiffer (args_in a.by_name.entries) };
}

impl Arguments {
    /// No argument. Names are hashed by the seed.
    pub fn new(alloc: Global, seed: RandomState) -> Arguments
        ensures { result ≡ [] }
    {
        Arguments {
            by_name: IndexMap::with_hasher(alloc, seed),
        }
    }

    /// Of two with one name the last counts, at the place of the first.
    pub fn put(&mut self, name: Bytes, value: Bytes) -> Result<(), NoMemory>
        ensures { OnOk result (self.new ≡ put name value self.old) }
    {
        insert(&mut self.by_name, name, value)
    }

    /// The value of the argument of this name.
    pub fn find(&self, name: &Bytes) -> Option<&Bytes>
        ensures { option_map (λ value. value.now) result ≡ found name.now self.now }
    {
        self.by_name.get(name)
    }

    /// A copy, in order.
    pub fn list(&self, alloc: Global) -> Result<List<Arg>, NoMemory>
        ensures args { IfOk result (λ args. args ≡ self.now) }
        ensures names { IfOk result (λ args. NamesDiffer args) }
    {
        let args = copied(alloc, &self.by_name)?;
        Ok(args)
    }

    /// The arguments of a list, no two of one name.
    pub fn of_list(alloc: Global, seed: RandomState, list: &[Arg]) -> Result<Arguments, NoMemory>
        requires { NamesDiffer list.now }
        ensures { IfOk result (λ args. args ≡ list.now) }
    {
        let mut args = Arguments::new(alloc, seed);
        for arg in list {
            let Arg { name, value } = arg.copy()?;
            args.put(name, value)?;
        }
        Ok(args)
    }
}

/// A copy of the entry at a place.
fn arg_at(map: &IndexMap<Bytes, Bytes, RandomState>, at: usize) -> Result<Arg, NoMemory>
    requires { at < length map.now.entries }
    ensures { IfOk result (λ arg. slice_get (args_in map.now.entries) at ≡ Some arg) }
{
    match map.get_index(at) {
        Some((name, value)) => {
            let name = name.copy()?;
            let value = value.copy()?;
            Ok(Arg { name, value })
        }
        None => unreachable!(),
    }
}

/// The entries of a map, as arguments.
fn copied(alloc: Global, map: &IndexMap<Bytes, Bytes, RandomState>) -> Result<List<Arg>, NoMemory>
    ensures { IfOk result (λ args. args ≡ args_in map.now.entries) }
{
    let mut args = List::new(alloc);
    for at in 0..map.len() {
        let arg = arg_at(map, at)?;
        args.push(arg)?;
    }
    Ok(args)
}

/// An entry of that name has the value: in its place where one is there, and else at the end.
fn insert(
    map: &mut IndexMap<Bytes, Bytes, RandomState>,
    name: Bytes,
    value: Bytes,
) -> Result<(), NoMemory>
    ensures put { OnOk result (args_in map.new.entries ≡ put name value (args_in map.old.entries)) }
    ensures differ { NamesDiffer (args_in map.old.entries) → NamesDiffer (args_in map.new.entries) }
{
    match map.insert(name, value) {
        Ok(_) => Ok(()),
        Err(_) => Err(NoMemory),
    }
}
