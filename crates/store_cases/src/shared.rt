//! Tables that are taken out and put in again.
ghost use Rattle.std.specs.Prelude.{IfOk};
ghost use Rattle.lua_store.specs.Parts.{IsTableOf, IsLater};
ghost use Rattle.lua_graph.specs.Put.{IsMade};

use crate::making::put_text;
use crate::start::{fixed_seed, holds};
use bumpalo::Bump;
use lua_graph::{Graph, GraphEntry, GraphItem, put_in, take_out};
use lua_store::{Store, TableId, Value};
use lua_table::SetFault;
use std::alloc::Global;
use std::hash::RandomState;
use std::process::Abort;
use std::test::Fail;
use wk_base::NoMemory;

/// `t.v = 5; t.me = t`
fn put_both(store: &mut Store, table: TableId) -> Result<(), NoMemory>
    requires { IsTableOf store.old table }
    ensures { IsLater store.old store.new }
{
    put_text(store, table, b"v", Value::Number(5))?;
    put_text(store, table, b"me", Value::Table(table))
}

/// `t.z = 1; t.z = nil`
fn put_cleared(store: &mut Store, table: TableId) -> Result<(), NoMemory>
    requires { IsTableOf store.old table }
    ensures { IsLater store.old store.new }
{
    put_text(store, table, b"z", Value::Number(1))?;
    put_text(store, table, b"z", Value::Nil)
}

/// `t = {v = 5}; t.me = t; t.z = 1; t.z = nil`
fn itself(store: &mut Store) -> Result<TableId, NoMemory>
    ensures { IfOk result (IsTableOf store.new) }
{
    let table = store.new_table()?;
    put_both(store, table)?;
    put_cleared(store, table)?;
    Ok(table)
}

/// Whether the graph of such a table has these entries.
fn has_entries(graph: &Graph) -> bool {
    let number = GraphEntry {
        key: GraphItem::Text(0),
        value: GraphItem::Number(5),
    };
    let itself = GraphEntry {
        key: GraphItem::Text(1),
        value: GraphItem::Node(0),
    };
    match graph.nodes.as_slice() {
        [node] => node.entries.as_slice() == [number, itself].as_slice(),
        _ => false,
    }
}

/// Whether it has these texts.
fn has_texts(graph: &Graph) -> bool {
    match graph.texts.as_slice() {
        [v, me] => v.as_slice() == b"v".as_slice() && me.as_slice() == b"me".as_slice(),
        _ => false,
    }
}

/// Puts a graph in, read-only.
fn put_graph(rt: &impl Abort, alloc: Global, store: &mut Store, graph: &Graph)
    requires { IsMade graph.now }
{
    holds(rt, has_entries(graph), "entries");
    holds(rt, has_texts(graph), "texts");
    match put_in(alloc, store, graph, true) {
        Ok(Value::Table(root)) => is_shared(rt, store, root),
        _ => holds(rt, false, "a table"),
    }
}

/// Takes a table out and puts it in again, read-only.
fn share(rt: &impl Abort, alloc: Global, store: &mut Store, table: TableId)
    requires { IsTableOf store.old table }
{
    match take_out(alloc, store, Value::Table(table)) {
        Ok(graph) => put_graph(rt, alloc, store, &graph),
        Err(_) => holds(rt, false, "data"),
    }
}

/// The table holds itself, and can't be written.
fn is_shared(rt: &impl Abort, store: &mut Store, root: TableId)
    requires { IsTableOf store.old root }
{
    holds(rt, store.is_frozen(root), "frozen");
    holds(
        rt,
        store.set(root, Value::Nil, Value::Nil) == Err(SetFault::Frozen),
        "set",
    );
    holds(rt, store.entry(root, 2) == None, "two entries");
    match store.entry(root, 1) {
        Some((_, value)) => holds(rt, value == Value::Table(root), "itself"),
        None => holds(rt, false, "an entry"),
    }
}

/// Shares a table of a new store.
fn share_in_new_store(rt: &impl Abort, alloc: Global, seed: RandomState) {
    let arena = Bump::new(alloc);
    let mut store = Store::new(alloc, &arena, seed);
    match itself(&mut store) {
        Ok(table) => share(rt, alloc, &mut store, table),
        Err(_) => holds(rt, false, "a table"),
    }
}

#[test]
fn a_table_that_holds_itself_is_shared(rt: HostRuntime) -> Result<(), Fail> {
    let seed = fixed_seed()?;
    share_in_new_store(&rt, rt.alloc(), seed);
    Ok(())
}
