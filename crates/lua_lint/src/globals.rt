//! The globals that a module uses.
ghost use Rattle.std.specs.Prelude.{◌≡◌, [], ◌++◌, IfOk, OnOk, option_map};
ghost use Rattle.std.specs.BTreeSet.{insert_key};
ghost use Rattle.lua_uses.specs.Modules.{hides, hidden_in, first_hidden, by_bytes, with_uses, names_from, answer_of, uses};
ghost use Rattle.lua_lint.specs.Seen.{use_seen, uses_seen};
ghost use Rattle.lua_lint.specs.Reading.{modules_seen, reads_seen, names_in, unknown_seen, answer_seen};

use crate::places::Use;
use crate::reading::{Named, Read, read_all};
use std::alloc::Global;
use std::collections::BTreeSet;
use std::hash::RandomState;
use wk_base::{Bytes, List, NoMemory};

/// A place at which it can't be told which globals are used, or which modules are reached: `_G`, or a `require` that isn't called with one
/// text. It is a line of a module, which is told by its place in the list.
#[derive(Clone, Copy, PartialEq, Eq)]
pub struct UnknownAt {
    pub module: usize,
    pub line: u32,
}

/// The globals that a module uses, with those that it requires.
#[derive(Drop)]
pub enum GlobalUses {
    /// Their names, each once, in the order of their bytes.
    Names(List<Bytes>),
    /// They can't be told; the first place that shows it.
    Unknown(UnknownAt),
}

/// Whether more globals can be used through this one, or modules be reached that no text names.
fn hides(u: &Use<'_>) -> bool
    ensures { result ≡ hides (use_seen u.now) }
{
    let name = u.name.as_slice();
    name == b"_G".as_slice() || name == b"require".as_slice() && u.required.is_none()
}

/// The first of these that hides others.
fn hidden_in(place: usize, uses: &[Use<'_>]) -> Option<UnknownAt>
    ensures { option_map unknown_seen result ≡ hidden_in place (uses_seen uses.now) }
{
    for u in uses {
        if hides(u) {
            return Some(UnknownAt {
                module: place,
                line: u.line,
            });
        }
    }
    None
}

/// The first use in these modules that hides others.
fn first_hidden(reads: &[Read<'_>]) -> Option<UnknownAt>
    ensures { option_map unknown_seen result ≡ first_hidden (reads_seen reads.now) }
{
    for read in reads {
        if let Some(at) = hidden_in(read.place, read.uses.as_slice()) {
            return Some(at);
        }
    }
    None
}

/// One more name, if it isn't there.
fn add_name<'t>(names: &mut BTreeSet<&'t [u8]>, name: &'t Bytes) -> Result<(), NoMemory>
    ensures { OnOk result (names_in names.new.keys ≡ insert_key by_bytes (names_in names.old.keys) name.now) }
{
    match names.insert(name.as_slice()) {
        Ok(_) => Ok(()),
        Err(_) => Err(NoMemory),
    }
}

/// The names of these uses.
fn add_uses<'t>(names: &mut BTreeSet<&'t [u8]>, uses: &[Use<'t>]) -> Result<(), NoMemory>
    ensures { OnOk result (names_in names.new.keys ≡ with_uses (names_in names.old.keys) (uses_seen uses.now)) }
{
    for u in uses {
        add_name(names, u.name)?;
    }
    Ok(())
}

/// The names that these modules use.
fn add_all<'t>(names: &mut BTreeSet<&'t [u8]>, reads: &[Read<'t>]) -> Result<(), NoMemory>
    ensures { OnOk result (names_in names.new.keys ≡ names_from (names_in names.old.keys) (reads_seen reads.now)) }
{
    for read in reads {
        add_uses(names, read.uses.as_slice())?;
    }
    Ok(())
}

/// Copies of these names, behind others.
fn copy_all(
    alloc: Global,
    names: &BTreeSet<&[u8]>,
    copies: &mut List<Bytes>,
) -> Result<(), NoMemory>
    ensures { OnOk result (copies.new ≡ copies.old ++ names_in names.now.keys) }
{
    for name in names {
        copies.push(Bytes::of(alloc, name)?)?;
    }
    Ok(())
}

/// Copies of these names.
fn copies(alloc: Global, names: &BTreeSet<&[u8]>) -> Result<List<Bytes>, NoMemory>
    ensures { IfOk result (λ copies. copies ≡ names_in names.now.keys) }
{
    let mut copies = List::new(alloc);
    copy_all(alloc, names, &mut copies)?;
    Ok(copies)
}

/// The names that these modules use, each once, in the order of their bytes.
fn names_of(alloc: Global, reads: &[Read<'_>]) -> Result<List<Bytes>, NoMemory>
    ensures { IfOk result (λ names. names ≡ names_from [] (reads_seen reads.now)) }
{
    let mut names = BTreeSet::new(alloc);
    add_all(&mut names, reads)?;
    copies(alloc, &names)
}

/// The globals that these modules use, or the first place that hides others.
fn answer(alloc: Global, reads: &[Read<'_>]) -> Result<GlobalUses, NoMemory>
    ensures { IfOk result (λ answer. answer_seen answer ≡ answer_of (reads_seen reads.now)) }
{
    match first_hidden(reads) {
        Some(at) => Ok(GlobalUses::Unknown(at)),
        None => Ok(GlobalUses::Names(names_of(alloc, reads)?)),
    }
}

/// The globals that a module uses, with those that it requires and that are in the list; or where it can't be told which they are. Titles
/// and names are hashed by the seed: who doesn't know it can't choose ones that collide.
pub fn uses(
    alloc: Global,
    seed: RandomState,
    modules: &[Named],
    root: usize,
) -> Result<GlobalUses, NoMemory>
    ensures { IfOk result (λ answer. answer_seen answer ≡ uses (modules_seen modules.now) root) }
{
    let reads = read_all(alloc, seed, modules, root)?;
    answer(alloc, reads.as_slice())
}
