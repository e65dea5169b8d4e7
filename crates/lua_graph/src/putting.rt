//! A graph is put into a store.
ghost use Rattle.std.specs.Prelude.{◌≡◌, ◌<◌, ◌+◌, ◌-◌, ℕ, [], ◌∷◌, length, map, IfOk, OnOk, MatchOption};
ghost use Rattle.std.specs.List.{AllByRecursion};
ghost use Rattle.lua_walk.specs.LuaHeapGraph.{joined_root, shift, shift_entries};
ghost use Rattle.lua_store.specs.Seen.{seen};
ghost use Rattle.lua_store.specs.Parts.{IsOf, IsTextOf, IsTableOf, IsLater};
ghost use Rattle.lua_graph.specs.Put.{IsMade, put, with_texts, grown, filled, locked, all_filled, AreNames, AreTables, AreFrom, AreEntriesOf, named};
ghost use Rattle.lua_graph.specs.Plain.{IsItemOf, IsEntryOf, plain_item, plain_entries, plain_nodes};

use crate::graph::{Graph, GraphEntry, GraphItem, GraphNode};
use lua_store::{Bytes, List, NoMemory, Store, TableId, TextId, Value};
use std::alloc::Global;

/// The first item, and those behind it.
fn split_texts(texts: &[Bytes]) -> Option<(&Bytes, &[Bytes])>
    ensures { MatchOption result (texts.now ≡ []) (λ p. texts.now ≡ p.0.now ∷ p.1.now) }
{
    match texts {
        [] => None,
        [text, more @ ..] => Some((text, more)),
    }
}

fn split_entries(entries: &[GraphEntry]) -> Option<(GraphEntry, &[GraphEntry])>
    ensures { MatchOption result (entries.now ≡ []) (λ p. entries.now ≡ p.0 ∷ p.1.now) }
{
    match entries {
        [] => None,
        [entry, more @ ..] => Some((*entry, more)),
    }
}

/// The names of texts, which are made where they are not there.
fn names_of(alloc: Global, store: &mut Store, texts: &[Bytes]) -> Result<List<TextId>, NoMemory>
    ensures put { OnOk result (store.new
        ≡ record store.old { texts = with_texts store.old.texts texts.now }) }
    ensures names { IfOk result (AreNames store.new texts.now) }
    ensures later { IsLater store.old store.new }
{
    let mut names = List::new(alloc);
    let mut rest = texts;
    while let Some((text, more)) = split_texts(rest) {
        let name = store.text(text.as_slice())?;
        names.push(name)?;
        rest = more;
    }
    Ok(names)
}

/// So many new tables.
pub(crate) fn new_tables(
    alloc: Global,
    store: &mut Store,
    count: usize,
) -> Result<List<TableId>, NoMemory>
    ensures put { OnOk result (store.new ≡ record store.old { heap = grown count store.old.heap }) }
    ensures tables { IfOk result (AreTables store.new (length store.old.heap.tables) count) }
    ensures later { IsLater store.old store.new }
{
    let mut tables = List::new(alloc);
    let mut left = count;
    while left > 0 {
        let table = store.new_table()?;
        tables.push(table)?;
        left -= 1;
    }
    Ok(tables)
}

/// The value that an item of the graph is in the store.
fn value_of(store: &Store, tables: &[TableId], names: &[TextId], item: GraphItem) -> Value
    requires item { IsItemOf (length tables.now) (length names.now) item }
    requires tables { AllByRecursion (IsTableOf store.now) tables.now }
    requires names { AllByRecursion (IsTextOf store.now) names.now }
    ensures of { IsOf store.now result }
    ensures value { (k : ℕ) → AreFrom k tables.now
        → seen store.now.texts result
        ≡ shift k (plain_item (named store.now.texts names.now) item) }
{
    let _store = store;
    match item {
        GraphItem::Bool(b) => Value::Bool(b),
        GraphItem::Number(n) => Value::Number(n),
        GraphItem::Text(at) => Value::Text(names[at]),
        GraphItem::Node(at) => Value::Table(tables[at]),
    }
}

/// The entries of one table.
fn fill(
    store: &mut Store,
    tables: &[TableId],
    names: &[TextId],
    table: TableId,
    entries: &[GraphEntry],
) -> Result<(), NoMemory>
    requires entries { AllByRecursion (IsEntryOf (length tables.now) (length names.now))
        entries.now }
    requires tables { AllByRecursion (IsTableOf store.old) tables.now }
    requires names { AllByRecursion (IsTextOf store.old) names.now }
    requires table { IsTableOf store.old table }
    ensures put { OnOk result ((k : ℕ) → AreFrom k tables.now
        → store.new
        ≡ record store.old
        { heap = filled table.at (shift_entries k (plain_entries (named store.old.texts names.now) entries.now)) store.old.heap }) }
    ensures only { OnOk result (store.new ≡ record store.old { heap = store.new.heap }) }
    ensures later { IsLater store.old store.new }
{
    let mut rest = entries;
    while let Some((entry, more)) = split_entries(rest) {
        let key = value_of(store, tables, names, entry.key);
        let value = value_of(store, tables, names, entry.value);
        match store.set(table, key, value) {
            Ok(_) => {}
            Err(_) => return Err(NoMemory),
        }
        rest = more;
    }
    Ok(())
}

/// Makes a table read-only, where that is asked.
fn lock(store: &mut Store, table: TableId, frozen: bool)
    requires { IsTableOf store.old table }
    ensures put { store.new ≡ record store.old { heap = locked frozen table.at store.old.heap } }
    ensures later { IsLater store.old store.new }
{
    if frozen {
        store.freeze(table);
    }
}

fn split_nodes(nodes: &[GraphNode]) -> Option<(&GraphNode, &[GraphNode])>
    ensures { MatchOption result (nodes.now ≡ []) (λ p. nodes.now ≡ p.0.now ∷ p.1.now) }
{
    match nodes {
        [] => None,
        [node, more @ ..] => Some((node, more)),
    }
}

/// The entries of all tables, each table locked behind its last entry.
fn fill_all(
    store: &mut Store,
    tables: &[TableId],
    names: &[TextId],
    nodes: &[GraphNode],
    frozen: bool,
) -> Result<(), NoMemory>
    requires nodes { AllByRecursion (AreEntriesOf (length tables.now) (length names.now))
        nodes.now }
    requires count { length tables.now ≡ length nodes.now }
    requires tables { AllByRecursion (IsTableOf store.old) tables.now }
    requires names { AllByRecursion (IsTextOf store.old) names.now }
    ensures put { OnOk result ((k : ℕ) → AreFrom k tables.now
        → store.new
        ≡ record store.old
        { heap = all_filled frozen k (map (shift_entries k) (plain_nodes (named store.old.texts names.now) nodes.now)) store.old.heap }) }
    ensures later { IsLater store.old store.new }
{
    let mut rest = nodes;
    let mut at = 0;
    while let Some((node, more)) = split_nodes(rest) {
        let table = tables[at];
        fill(store, tables, names, table, node.entries.as_slice())?;
        lock(store, table, frozen);
        rest = more;
        at += 1;
    }
    Ok(())
}

/// The graph's tables as new tables of the store, read-only where that is asked, and the value of its root.
pub fn put_in(
    alloc: Global,
    store: &mut Store,
    graph: &Graph,
    frozen: bool,
) -> Result<Value, NoMemory>
    requires { IsMade graph.now }
    ensures put { OnOk result (store.new ≡ put frozen graph.now store.old) }
    ensures root { IfOk result (λ v. seen store.new.texts v ≡ joined_root store.old.heap) }
    ensures of { IfOk result (IsOf store.new) }
    ensures later { IsLater store.old store.new }
{
    let nodes = graph.nodes.as_slice();
    let names = names_of(alloc, store, graph.texts.as_slice())?;
    let tables = new_tables(alloc, store, nodes.len())?;
    fill_all(store, tables.as_slice(), names.as_slice(), nodes, frozen)?;
    Ok(Value::Table(tables.as_slice()[0]))
}
