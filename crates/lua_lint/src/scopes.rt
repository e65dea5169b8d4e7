//! The local variables that are seen at a place of a text.
ghost use Rattle.std.specs.Prelude.{◌≡◌, [], ◌∷◌, ◌-◌, drop, length, OnOk, ℕ};
ghost use Rattle.lua_uses.specs.Uses.{is_bound};
ghost use Rattle.lua_lint.specs.Scopes.{without_newest, IsBoundIn, bound_at, KeepsRight, AreDeclared, AreEnded};

use crate::stack::Stack;
use indexmap::IndexMap;
use std::alloc::Global;
use std::hash::RandomState;
use std::marker::Model;
use wk_base::{Bytes, NoMemory};

/// Of each name that a scope has had, whether a variable binds it now.
type BoundMap<'t> = IndexMap<&'t Bytes, bool, RandomState>;

/// A variable that is seen, and whether an older one binds its name.
#[derive(Clone, Copy)]
pub(crate) struct Open<'t> {
    name: &'t Bytes,
    older: bool,
}

/// The local variables that are seen at a place, by their names, the newest first.
#[derive(Drop)]
pub(crate) struct Scope<'t> {
    bound: BoundMap<'t>,
    variables: Stack<Open<'t>>,
}

impl<'t> Model for Scope<'t> {
    ghost use Rattle.std.specs.Prelude.{List, ℕ};
    ghost use Rattle.lua_lint.specs.Scopes.{names_of, IsRight};

    ghost Value = { List (List ℕ) };

    ghost view = { λ s. names_of s.variables };

    ghost invariant = { λ s. IsRight s.variables s.bound.entries };
}

/// Whether a variable binds a name, by the map.
fn look_up<'t>(bound: &BoundMap<'t>, name: &'t Bytes) -> bool
    ensures { result ≡ bound_at bound.now.entries name.now }
{
    match bound.get(&name) {
        Some(binds) => *binds,
        None => false,
    }
}

/// From now on a name is bound, or it isn't. Where memory runs out nothing is changed, and the name was not in the map.
fn note<'t>(bound: &mut BoundMap<'t>, name: &'t Bytes, binds: bool) -> Result<(), NoMemory>
    ensures { IsBoundIn bound.old.entries name.now binds bound.new.entries result }
{
    match bound.insert(name, binds) {
        Ok(_) => Ok(()),
        Err(_) => Err(NoMemory),
    }
}

/// One more variable: whether an older one binds its name is kept with it.
fn declare_in<'t>(
    bound: &mut BoundMap<'t>,
    variables: &mut Stack<Open<'t>>,
    name: &'t Bytes,
) -> Result<(), NoMemory>
    ensures right { KeepsRight variables.old bound.old.entries variables.new bound.new.entries }
    ensures names { AreDeclared name.now variables.old variables.new result }
{
    let older = look_up(bound, name);
    variables.push(Open { name, older })?;
    match note(bound, name, true) {
        Ok(()) => Ok(()),
        Err(NoMemory) => {
            let _ = variables.pop();
            Err(NoMemory)
        }
    }
}

/// The newest variable ends: its name is bound as it was before.
fn end_in<'t>(bound: &mut BoundMap<'t>, variables: &mut Stack<Open<'t>>) -> Result<(), NoMemory>
    ensures right { KeepsRight variables.old bound.old.entries variables.new bound.new.entries }
    ensures names { AreEnded variables.old variables.new result }
{
    match variables.pop() {
        None => Ok(()),
        Some(newest) => note(bound, newest.name, newest.older),
    }
}

impl<'t> Scope<'t> {
    /// No variable. Names are hashed by the seed, so that no text can choose names that collide.
    pub(crate) fn new(alloc: Global, seed: RandomState) -> Scope<'t>
        ensures { result ≡ [] }
    {
        Scope {
            bound: IndexMap::with_hasher(alloc, seed),
            variables: Stack::new(alloc),
        }
    }

    /// How many variables are seen.
    pub(crate) fn len(&self) -> usize
        ensures { result ≡ length self.now }
    {
        self.variables.len()
    }

    /// Whether a variable has this name.
    pub(crate) fn binds(&self, name: &'t Bytes) -> bool
        ensures { result ≡ is_bound self.now name.now }
    {
        look_up(&self.bound, name)
    }

    /// One more variable.
    pub(crate) fn declare(&mut self, name: &'t Bytes) -> Result<(), NoMemory>
        ensures { OnOk result (self.new ≡ name.now ∷ self.old) }
    {
        declare_in(&mut self.bound, &mut self.variables, name)
    }

    /// The newest variable is seen no more.
    fn end_newest(&mut self) -> Result<(), NoMemory>
        ensures { OnOk result (self.new ≡ without_newest self.old) }
    {
        end_in(&mut self.bound, &mut self.variables)
    }

    /// Only the oldest so many variables are seen.
    pub(crate) fn close(&mut self, count: usize) -> Result<(), NoMemory>
        ensures { OnOk result (self.new ≡ drop (length self.old - count) self.old) }
    {
        while self.len() > count {
            self.end_newest()?;
        }
        Ok(())
    }
}
