//! The closures of a store, with the numbers of their invocations.
ghost use Rattle.std.specs.Prelude.{◌≡◌, ◌<◌, ◌++◌, ◌∷◌, [], Some, length, slice_get, IfOk, OnErr};
ghost use Rattle.lua_store.specs.Envs.{is_among, envs_of};

use crate::closure::Closure;
use indexmap::IndexSet;
use std::alloc::Global;
use std::marker::Model;
use wk_base::NoMemory;

/// Closures in the order in which they were made. The set has the numbers of their invocations, each once: these count up and
/// no module chooses them, so the set needs no seed.
#[derive(Drop)]
pub struct Closures {
    items: Vec<Closure>,
    envs: IndexSet<u32>,
}

impl Model for Closures {
    ghost use Rattle.std.specs.Prelude.{◌≡◌, ℕ, List};
    ghost use Rattle.lua_store.specs.declared.closure.Closure.{Closure};
    ghost use Rattle.lua_store.specs.Envs.{is_among, envs_of};

    ghost Value = { List Closure };

    ghost view = { λ c. c.items.items };

    ghost invariant = { λ c. (n : ℕ) → is_among n c.envs.keys ≡ is_among n (envs_of c.items.items) };
}

impl Closures {
    pub fn new(alloc: Global) -> Closures
        ensures { result ≡ [] }
    {
        Closures {
            items: Vec::new(alloc),
            envs: IndexSet::new(alloc),
        }
    }

    /// Adds a closure, and gives its place.
    pub fn push(&mut self, closure: Closure) -> Result<usize, NoMemory>
        ensures ok { IfOk result (λ at. (at ≡ length self.old) × (self.new ≡ self.old ++ closure ∷ [])) }
        ensures err { OnErr result (self.new ≡ self.old) }
    {
        let at = self.items.len();
        let env = closure.env;
        if let Err(_) = self.items.push(closure) {
            return Err(NoMemory);
        }
        if let Err(_) = self.envs.insert(env) {
            self.items.pop();
            return Err(NoMemory);
        }
        Ok(at)
    }

    /// The closure at a place.
    pub fn at(&self, at: usize) -> &Closure
        requires { at < length self.now }
        ensures { slice_get self.now at ≡ Some result.now }
    {
        &self.items[at]
    }

    /// Whether a closure has this number.
    pub fn has_env(&self, env: u32) -> bool
        ensures { result ≡ is_among env (envs_of self.now) }
    {
        self.envs.contains(&env)
    }
}
