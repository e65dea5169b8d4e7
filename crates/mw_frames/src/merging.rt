//! Arguments of which no two have one name. Of two with one name the last counts, at the place of the first.
ghost use Rattle.std.specs.Prelude.{◌≡◌, ◌++◌, [], ◌∷◌, IfOk, OnOk};
ghost use Rattle.mw_frame.specs.Scenes.{NamesDiffer};
ghost use Rattle.lua_basic.specs.Arguments.{text_bytes};
ghost use Rattle.lua_home.specs.LuaMeaningFrames as meaning;
ghost use Rattle.mw_frames.specs.Reading.{args_seen};
ghost use Rattle.mw_frames.specs.Merging.{args_in};

use crate::reading::ArgText;
use indexmap::IndexMap;
use lua_basic::texts::TextIn;
use mw_frame::{Arg, Bytes, List, NoMemory};
use std::alloc::Global;
use std::hash::RandomState;

/// A copy of a text.
fn bytes_of(alloc: Global, text: &TextIn) -> Result<Bytes, NoMemory>
    ensures { IfOk result (λ bytes. bytes ≡ text_bytes text.now) }
{
    Bytes::of(alloc, text.as_slice())
}

/// An entry of that name has the value: in its place where one is there, and else at the end.
fn insert(
    map: &mut IndexMap<Bytes, Bytes, RandomState>,
    name: Bytes,
    value: Bytes,
) -> Result<(), NoMemory>
    ensures put { OnOk result (args_in map.new.entries
        ≡ meaning.put_arg (record { name = name; value = value }) (args_in map.old.entries)) }
    ensures differ { NamesDiffer (args_in map.old.entries) → NamesDiffer (args_in map.new.entries) }
{
    match map.insert(name, value) {
        Ok(_) => Ok(()),
        Err(_) => Err(NoMemory),
    }
}

/// Puts arguments into a map, one after another.
fn insert_all(
    alloc: Global,
    map: &mut IndexMap<Bytes, Bytes, RandomState>,
    args: &[ArgText],
) -> Result<(), NoMemory>
    ensures put { OnOk result (args_in map.new.entries
        ≡ meaning.merge_args (args_in map.old.entries) (args_seen args.now)) }
    ensures differ { NamesDiffer (args_in map.old.entries) → NamesDiffer (args_in map.new.entries) }
{
    'texts: for arg in args {
        let name = bytes_of(alloc, &arg.name)?;
        let value = bytes_of(alloc, &arg.value)?;
        insert(map, name, value)?;
    }
    Ok(())
}

/// Adds an argument behind others.
fn push(args: &mut Vec<Arg>, arg: Arg) -> Result<(), NoMemory>
    ensures { OnOk result (args.new.items ≡ args.old.items ++ arg ∷ []) }
{
    match args.push(arg) {
        Ok(_) => Ok(()),
        Err(_) => Err(NoMemory),
    }
}

/// Takes the arguments out of a map, in order.
fn take_out(
    alloc: Global,
    map: &mut IndexMap<Bytes, Bytes, RandomState>,
) -> Result<List<Arg>, NoMemory>
    ensures { IfOk result (λ args. args ≡ args_in map.old.entries) }
{
    let mut args = Vec::new(alloc);
    'entries: while let Some((name, value)) = map.pop() {
        push(&mut args, Arg { name, value })?;
    }
    args.reverse();
    Ok(List::of_vec(args))
}

/// Arguments that were read, no two of one name.
pub fn merge_args(alloc: Global, seed: RandomState, args: &[ArgText]) -> Result<List<Arg>, NoMemory>
    ensures merged { IfOk result (λ made. made ≡ meaning.merge_args [] (args_seen args.now)) }
    ensures names { IfOk result NamesDiffer }
{
    let mut map = IndexMap::with_hasher(alloc, seed);
    insert_all(alloc, &mut map, args)?;
    let merged = take_out(alloc, &mut map)?;
    Ok(merged)
}
