//! Very many tables, one inside the other, and a table with very many cleared keys.
ghost use Rattle.lua_store.specs.Parts.{IsTableOf};
ghost use Rattle.lua_graph.specs.Put.{IsMade};

use crate::making::{chain, cleared};
use crate::start::{fixed_seed, holds, left_with};
use bumpalo::Bump;
use lua_graph::{Graph, copy, put_in, take_out};
use lua_store::{Store, TableId, Value};
use std::alloc::Global;
use std::hash::RandomState;
use std::process::Abort;
use std::test::Fail;
use wk_base::NoMemory;

/// How many tables the graph has, and how many entries the last of them.
fn size(graph: &Graph) -> (usize, usize) {
    let nodes = graph.nodes.as_slice();
    match nodes {
        [.., last] => (nodes.len(), last.entries.as_slice().len()),
        [] => (0, 0),
    }
}

/// Puts a graph in; its size, and how many tables were made.
fn put_back(alloc: Global, store: &mut Store, graph: &Graph) -> Option<(usize, usize, usize)>
    requires { IsMade graph.now }
{
    let before = store.table_count();
    if put_in(alloc, store, graph, true).is_err() {
        return None;
    }
    let (nodes, entries) = size(graph);
    Some((nodes, entries, store.table_count().saturating_sub(before)))
}

/// Takes a table out and puts it in.
fn round(alloc: Global, store: &mut Store, table: TableId) -> Option<(usize, usize, usize)>
    requires { IsTableOf store.old table }
{
    match take_out(alloc, store, Value::Table(table)) {
        Ok(graph) => put_back(alloc, store, &graph),
        Err(_) => None,
    }
}

/// Copies a table; how many tables were made, and how many steps were taken.
fn duplicate(alloc: Global, store: &mut Store, table: TableId) -> Option<(usize, u64)>
    requires { IsTableOf store.old table }
{
    let before = store.table_count();
    let mut left = left_with(100_000_000);
    match copy(alloc, store, Value::Table(table), &mut left) {
        Ok(_) => Some((
            store.table_count().saturating_sub(before),
            100_000_000u64.saturating_sub(left.steps),
        )),
        Err(_) => None,
    }
}

/// 100,001 tables, one inside the other.
fn linked(rt: &impl Abort, alloc: Global, store: &mut Store) -> Result<(), NoMemory> {
    let table = chain(store, 100_000)?;
    holds(
        rt,
        duplicate(alloc, store, table) == Some((100_001, 1_200_008)),
        "a chain",
    );
    Ok(())
}

fn linked_shared(rt: &impl Abort, alloc: Global, store: &mut Store) -> Result<(), NoMemory> {
    let table = chain(store, 100_000)?;
    holds(
        rt,
        round(alloc, store, table) == Some((100_001, 0, 100_001)),
        "a chain, shared",
    );
    Ok(())
}

/// A table with 1,000,000 keys, of which all but one are cleared.
fn emptied(rt: &impl Abort, alloc: Global, store: &mut Store) -> Result<(), NoMemory> {
    let table = cleared(store, 1_000_000)?;
    holds(
        rt,
        duplicate(alloc, store, table) == Some((1, 12)),
        "cleared keys",
    );
    Ok(())
}

fn emptied_shared(rt: &impl Abort, alloc: Global, store: &mut Store) -> Result<(), NoMemory> {
    let table = cleared(store, 1_000_000)?;
    holds(
        rt,
        round(alloc, store, table) == Some((1, 1, 1)),
        "cleared keys, shared",
    );
    Ok(())
}

/// Takes them through a new store.
fn go_through(rt: &impl Abort, alloc: Global, seed: RandomState) {
    let arena = Bump::new(alloc);
    let mut store = Store::new(alloc, &arena, seed);
    holds(rt, linked(rt, alloc, &mut store).is_ok(), "linked");
    holds(
        rt,
        linked_shared(rt, alloc, &mut store).is_ok(),
        "linked, shared",
    );
    holds(rt, emptied(rt, alloc, &mut store).is_ok(), "emptied");
    holds(
        rt,
        emptied_shared(rt, alloc, &mut store).is_ok(),
        "emptied, shared",
    );
}

#[test]
fn very_many_tables_and_keys_go_through(rt: HostRuntime) -> Result<(), Fail> {
    let seed = fixed_seed()?;
    go_through(&rt, rt.alloc(), seed);
    Ok(())
}
