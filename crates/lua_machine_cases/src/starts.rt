//! Machines that are only started, each in a fresh environment.
use crate::case::Case;
use crate::runs::world_of;
use bumpalo::Bump;
use lua_code::NoMemory;
use lua_machine::{Machine, Store};
use std::alloc::Global;
use std::hash::RandomState;

/// Starts a machine and lets it go.
fn start(alloc: Global, store: &mut Store, seed: RandomState, case: &Case) -> Result<(), NoMemory> {
    let work = case.work(alloc, seed)?;
    let _machine = Machine::start(alloc, store, seed, world_of(case), work)?;
    Ok(())
}

fn start_each(
    alloc: Global,
    store: &mut Store,
    seed: RandomState,
    case: &Case,
    count: u64,
) -> Result<(), NoMemory> {
    for _ in 0..count {
        start(alloc, store, seed, case)?;
    }
    Ok(())
}

/// Starts so many machines in one store.
pub fn start_together(
    alloc: Global,
    seed: RandomState,
    case: &Case,
    count: u64,
) -> Result<(), NoMemory> {
    let arena = Bump::new(alloc);
    let mut store = Store::new(alloc, &arena, seed);
    start_each(alloc, &mut store, seed, case, count)
}

/// Starts so many machines, each in a store of its own.
pub fn start_apart(
    alloc: Global,
    seed: RandomState,
    case: &Case,
    count: u64,
) -> Result<(), NoMemory> {
    for _ in 0..count {
        start_together(alloc, seed, case, 1)?;
    }
    Ok(())
}
