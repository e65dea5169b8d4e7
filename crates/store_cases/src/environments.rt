//! An environment is made.
use crate::start::{fixed_seed, holds};
use bumpalo::Bump;
use lua_environment::environment;
use lua_store::Store;
use std::alloc::Global;
use std::hash::RandomState;
use std::process::Abort;
use std::test::Fail;
use wk_base::NoMemory;

/// Whether the name of the handler for indexes is the text `__index`.
fn names_index(store: &mut Store) -> Result<bool, NoMemory> {
    let made = environment(store)?;
    let index = store.text(b"__index")?;
    Ok(made.index == index)
}

/// Makes an environment in a new store.
fn name_in_new_store(rt: &impl Abort, alloc: Global, seed: RandomState) {
    let arena = Bump::new(alloc);
    let mut store = Store::new(alloc, &arena, seed);
    holds(rt, names_index(&mut store) == Ok(true), "__index");
}

#[test]
fn an_environment_names_handlers(rt: HostRuntime) -> Result<(), Fail> {
    let seed = fixed_seed()?;
    name_in_new_store(&rt, rt.alloc(), seed);
    Ok(())
}
