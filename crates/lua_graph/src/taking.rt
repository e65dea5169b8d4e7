//! A graph is taken out of a store.
ghost use Rattle.std.specs.Prelude.{◌≡◌, ◌≢◌, ◌+◌, ◌<◌, [], ◌∷◌, ◌++◌, false, Ok, Some, slice_get, IfOk, IfErr, OnOk, MatchOption};
ghost use Rattle.std.specs.List.{AllByRecursion};
ghost use Rattle.lua_walk.specs.LuaHeapHeap.{table_at};
ghost use Rattle.lua_walk.specs.LuaHeapValue.{is_nil};
ghost use Rattle.lua_walk.specs.Data as walk;
ghost use Rattle.lua_walk.specs.Data.{texts_of};
ghost use Rattle.lua_store.specs.declared.value.Value.TheVariants as own;
ghost use Rattle.lua_store.specs.Seen.{StoreView, seen};
ghost use Rattle.lua_store.specs.Parts.{IsOf, IsTextOf, IsTableOf};
ghost use Rattle.lua_graph.specs.Plain.{plain_graph};
ghost use Rattle.lua_graph.specs.Put.{named, IsMade};
ghost use Rattle.lua_graph.specs.Taken.{places, with_id, IsFault, IsRead, IsEntryRead, AreRead, NodesAreRead};

use crate::fault::DataFault;
use crate::graph::{Graph, GraphEntry, GraphItem, GraphNode};
use crate::order::{entry_at, nth, place_of_table, reached};
use indexmap::IndexSet;
use lua_store::{Bytes, List, NoMemory, Slot, Store, TableId, TextId, Value, laws};
use std::alloc::Global;

/// The place of a text among those that were met, to which it is added where it is not there.
fn place_of_text(texts: &mut IndexSet<TextId>, text: TextId) -> Result<usize, DataFault>
    ensures texts { OnOk result (texts.new.keys ≡ with_id texts.old.keys text) }
    ensures at { IfOk result (λ at. slice_get texts.new.keys at ≡ Some text) }
    ensures err { IfErr result (λ e. e ≡ DataFault.NoMemory) }
{
    match texts.insert_full(text) {
        Ok((at, _)) => Ok(at),
        Err(_) => Err(DataFault::NoMemory),
    }
}

/// The item of a key.
fn key_item(texts: &mut IndexSet<TextId>, key: Value) -> Result<GraphItem, DataFault>
    ensures ok { IfOk result (λ i.
        (s : StoreView) → IsOf s key
        → IsRead s texts.old.keys texts.new.keys (walk.key_of (seen s.texts key)) i) }
    ensures err { IfErr result (λ e. (s : StoreView) → IsFault (walk.key_of (seen s.texts key)) e) }
{
    match key {
        Value::Bool(b) => Ok(GraphItem::Bool(b)),
        Value::Number(n) => Ok(GraphItem::Number(n)),
        Value::Text(text) => match place_of_text(texts, text) {
            Ok(at) => Ok(GraphItem::Text(at)),
            Err(fault) => Err(fault),
        },
        _ => Err(DataFault::BadKey),
    }
}

/// The item of a value.
fn value_item(
    order: &IndexSet<TableId>,
    texts: &mut IndexSet<TextId>,
    value: Value,
) -> Result<GraphItem, DataFault>
    requires { value ≢ own.Nil }
    ensures ok { IfOk result (λ i.
        (s : StoreView) → IsOf s value
        → IsRead s texts.old.keys texts.new.keys
        (walk.item_of (places order.now.keys) (seen s.texts value)) i) }
    ensures err { IfErr result (λ e.
        (s : StoreView) → IsFault (walk.item_of (places order.now.keys) (seen s.texts value)) e) }
{
    match value {
        Value::Nil => unreachable!(),
        Value::Bool(b) => Ok(GraphItem::Bool(b)),
        Value::Number(n) => Ok(GraphItem::Number(n)),
        Value::Text(text) => match place_of_text(texts, text) {
            Ok(at) => Ok(GraphItem::Text(at)),
            Err(fault) => Err(fault),
        },
        Value::Table(table) => Ok(GraphItem::Node(place_of_table(order, table))),
        Value::Closure(_) => Err(DataFault::HasFunction),
        Value::Builtin(_) => Err(DataFault::HasFunction),
        Value::Markup(_) => Err(DataFault::HasMetatable),
    }
}

/// An entry of the graph, or none where it is cleared.
fn entry_of(
    order: &IndexSet<TableId>,
    texts: &mut IndexSet<TextId>,
    key: Value,
    value: Value,
) -> Result<Option<GraphEntry>, DataFault>
    ensures ok { IfOk result (λ o.
        (s : StoreView) → IsOf s key → IsOf s value
        → IsEntryRead s (places order.now.keys) texts.old.keys texts.new.keys
        (seen s.texts key, seen s.texts value) o) }
    ensures err { IfErr result (λ e.
        (s : StoreView) → IsOf s key
        → (is_nil (seen s.texts value) ≡ false)
        × IsFault
        (walk.entry_of (places order.now.keys) (seen s.texts key, seen s.texts value))
        e) }
{
    if value.is_nil() {
        return Ok(None);
    }
    let key = match key_item(texts, key) {
        Ok(key) => key,
        Err(fault) => return Err(fault),
    };
    match value_item(order, texts, value) {
        Ok(value) => Ok(Some(GraphEntry { key, value })),
        Err(fault) => Err(fault),
    }
}

/// The entries with one more, where there is one.
fn add(entries: &mut List<GraphEntry>, entry: Option<GraphEntry>) -> Result<(), DataFault>
    ensures ok { OnOk result (MatchOption entry (entries.new ≡ entries.old) (λ e.
        entries.new ≡ entries.old ++ e ∷ [])) }
    ensures err { IfErr result (λ e. e ≡ DataFault.NoMemory) }
{
    let Some(entry) = entry else {
        return Ok(());
    };
    match entries.push(entry) {
        Ok(()) => Ok(()),
        Err(_) => Err(DataFault::NoMemory),
    }
}

/// The entries of a table that are not cleared.
fn entries_of(
    alloc: Global,
    store: &Store,
    order: &IndexSet<TableId>,
    texts: &mut IndexSet<TextId>,
    table: TableId,
) -> Result<List<GraphEntry>, DataFault>
    requires { IsTableOf store.now table }
    ensures ok { IfOk result (λ es.
        AreRead store.now texts.old.keys texts.new.keys
        (walk.node_of (places order.now.keys) (table_at store.now.heap table.at)) es) }
    ensures err { IfErr result (IsFault
        (walk.node_of (places order.now.keys) (table_at store.now.heap table.at))) }
{
    if !store.meta(table).is_nil() {
        return Err(DataFault::HasMetatable);
    }
    let mut entries = List::new(alloc);
    for at in 0..usize::MAX {
        let (key, value) = match entry_at(store, table, at) {
            Some((key, value)) => (key, value),
            None => return Ok(entries),
        };
        let entry = match entry_of(order, texts, key, value) {
            Ok(entry) => entry,
            Err(fault) => return Err(fault),
        };
        match add(&mut entries, entry) {
            Ok(()) => {}
            Err(fault) => return Err(fault),
        }
    }
    Err(DataFault::NoMemory)
}

/// The tables of the order, each with its entries.
fn nodes_of(
    alloc: Global,
    store: &Store,
    order: &IndexSet<TableId>,
    texts: &mut IndexSet<TextId>,
) -> Result<List<GraphNode>, DataFault>
    requires { AllByRecursion (IsTableOf store.now) order.now.keys }
    ensures ok { IfOk result (λ ns.
        NodesAreRead store.now texts.old.keys texts.new.keys
        (walk.all_ok (λ n. walk.node_of (places order.now.keys) (table_at store.now.heap n))
        (places order.now.keys))
        ns) }
    ensures err { IfErr result (IsFault
        (walk.all_ok (λ n. walk.node_of (places order.now.keys) (table_at store.now.heap n))
        (places order.now.keys))) }
{
    let mut nodes = List::new(alloc);
    for at in 0..usize::MAX {
        let table = match nth(order, at) {
            Some(table) => table,
            None => return Ok(nodes),
        };
        let entries = match entries_of(alloc, store, order, texts, table) {
            Ok(entries) => entries,
            Err(fault) => return Err(fault),
        };
        match nodes.push(GraphNode { entries }) {
            Ok(()) => {}
            Err(_) => return Err(DataFault::NoMemory),
        }
    }
    Err(DataFault::NoMemory)
}

/// The text at a place.
fn text_at_place(texts: &IndexSet<TextId>, at: usize) -> Option<TextId>
    ensures { result ≡ slice_get texts.now.keys at }
{
    texts.get_index(at).copied()
}

/// The bytes of texts.
fn bytes_of(alloc: Global, store: &Store, texts: &IndexSet<TextId>) -> Result<List<Bytes>, NoMemory>
    requires { AllByRecursion (IsTextOf store.now) texts.now.keys }
    ensures { IfOk result (λ bytes. bytes ≡ named store.now.texts texts.now.keys) }
{
    let mut bytes = List::new(alloc);
    for at in 0..usize::MAX {
        match text_at_place(texts, at) {
            Some(text) => bytes.push(Bytes::of(alloc, store.bytes(text))?)?,
            None => return Ok(bytes),
        }
    }
    Err(NoMemory)
}

/// The graph of a table and of all tables that it reaches, in order of first reach, or the fault that is met first: in each
/// table the metatable is looked at first, and then the entries, the key before the value (Scribunto, `mw.loadData`).
///
/// Cleared entries are left out. Each text stands in the graph once, in order of first reach. The store stays as it is.
pub fn take_out(alloc: Global, store: &Store, value: Value) -> Result<Graph, DataFault>
    requires { IsOf store.now value }
    ensures graph { IfOk result (λ g.
        walk.taken store.now.heap (seen store.now.texts value) ≡ Ok (plain_graph g)) }
    ensures texts { IfOk result (λ g. g.texts ≡ texts_of (plain_graph g)) }
    ensures made { IfOk result IsMade }
    ensures fault { IfErr result (IsFault
        (walk.taken store.now.heap (seen store.now.texts value))) }
{
    laws::texts_are_once(store);
    laws::keys_are_once(store);
    laws::names_what_is_there(store);
    let root = match value {
        Value::Table(root) => root,
        _ => return Err(DataFault::NotATable),
    };
    let order = match reached(alloc, store, root) {
        Ok(order) => order,
        Err(_) => return Err(DataFault::NoMemory),
    };
    let mut texts = IndexSet::new(alloc);
    let nodes = match nodes_of(alloc, store, &order, &mut texts) {
        Ok(nodes) => nodes,
        Err(fault) => return Err(fault),
    };
    match bytes_of(alloc, store, &texts) {
        Ok(texts) => Ok(Graph { nodes, texts }),
        Err(_) => Err(DataFault::NoMemory),
    }
}
