//! Stores: what is made is there, whatever else is made, and equal texts have one name.
ghost use Rattle.std.specs.Prelude.{◌≡◌, IfOk, None, []};
ghost use Rattle.lua_store.specs.Parts.{IsTableOf, IsTextOf, IsCellOf, IsClosureOf, IsMarkupOf, IsOf};

use crate::start::{fixed_seed, holds};
use bumpalo::Bump;
use lua_heap::Library;
use lua_store::{
    CellId, ClosureId, ClosureKind, MarkupId, MarkupNode, ProtoId, Store, TableId, TextId, Value,
    laws,
};
use lua_table::SetFault;
use std::alloc::Global;
use std::hash::RandomState;
use std::mem::size_of;
use std::process::Abort;
use std::test::Fail;
use wk_base::{List, NoMemory};

/// Makes a table its own metatable.
fn set_itself(store: &mut Store, id: TableId)
    requires { IsTableOf store.old id }
    ensures { IsTableOf store.new id }
{
    if !store.is_frozen(id) {
        store.set_meta(id, Value::Table(id));
    }
}

/// Whether a new entry is made of a table that is its own key and value.
fn puts_itself(store: &mut Store, id: TableId) -> bool
    requires { IsTableOf store.old id }
    ensures { IsTableOf store.new id }
{
    store.set(id, Value::Table(id), Value::Table(id)) == Ok(true)
}

/// Reads a table that is its own key, value and metatable.
fn read_itself(rt: &impl Abort, store: &Store, id: TableId)
    requires { IsTableOf store.now id }
{
    let itself = Value::Table(id);
    holds(rt, store.get(id, itself) == itself, "get");
    holds(rt, store.table(id).get(&itself) == itself, "table");
    holds(rt, store.has(id, itself), "has itself");
    holds(rt, !store.has(id, Value::Nil), "has nil");
    holds(rt, store.meta(id) == itself, "meta");
    holds(rt, store.border(id) == 0, "border");
    holds(rt, store.table_count() == 1, "count");
}

/// Whether an entry at a place is the table with itself, or there is none.
fn has_entry(store: &Store, id: TableId, place: usize, wanted: Option<(Value, Value)>) -> bool
    requires { IsTableOf store.now id }
{
    store.entry(id, place) == wanted
}

/// Whether a walk comes from one key to another, which is its own value.
fn steps(store: &Store, id: TableId, from: Value, to: Value) -> bool
    requires table { IsTableOf store.now id }
    requires from { IsOf store.now from }
{
    match store.next(id, from) {
        Ok(step) => step.key == to && step.value == to && step.passed == 0,
        Err(_) => false,
    }
}

/// Walks over such a table.
fn walk_itself(rt: &impl Abort, store: &Store, id: TableId)
    requires { IsTableOf store.now id }
{
    let itself = Value::Table(id);
    holds(rt, has_entry(store, id, 0, Some((itself, itself))), "entry");
    holds(rt, has_entry(store, id, 1, None), "no entry");
    holds(rt, steps(store, id, Value::Nil, itself), "first");
    holds(rt, steps(store, id, itself, Value::Nil), "last");
    holds(rt, store.next(id, Value::Bool(true)).is_err(), "no key");
}

/// Makes a table read-only.
fn freeze(rt: &impl Abort, store: &mut Store, id: TableId)
    requires { IsTableOf store.old id }
{
    store.freeze(id);
    holds(rt, store.is_frozen(id), "frozen");
    holds(
        rt,
        store.set(id, Value::Nil, Value::Nil) == Err(SetFault::Frozen),
        "set",
    );
}

/// Makes a table that is its own key, value and metatable, and reads it.
fn hold_itself(rt: &impl Abort, store: &mut Store) -> Result<(), NoMemory> {
    let id = store.new_table()?;
    holds(rt, puts_itself(store, id), "a new entry");
    set_itself(store, id);
    read_itself(rt, store, id);
    walk_itself(rt, store, id);
    freeze(rt, store, id);
    Ok(())
}

/// Whether a text has its name again once another one is made.
fn keeps_name(store: &mut Store, text: &[u8], other: &[u8]) -> Result<bool, NoMemory> {
    let first = store.text(text)?;
    let second = store.text(other)?;
    Ok(store.text(text)? == first && first != second)
}

/// Whether a text has its bytes once another one is made.
fn keeps_bytes(store: &mut Store, text: &[u8], other: &[u8]) -> Result<bool, NoMemory> {
    let name = store.text(text)?;
    let _other = store.text(other)?;
    Ok(store.bytes(name) == text)
}

/// Whether the names of two texts are the same value.
fn are_same(store: &mut Store, text: &[u8], other: &[u8]) -> Result<bool, NoMemory> {
    let first = store.text(text)?;
    let second = store.text(other)?;
    Ok(store.is_same(Value::Text(first), Value::Text(second)))
}

/// Makes texts, and tries that equal bytes have one name.
fn name_texts(rt: &impl Abort, store: &mut Store) {
    holds(rt, keeps_name(store, b"", b"ab") == Ok(true), "no bytes");
    holds(rt, keeps_name(store, b"ab", b"a") == Ok(true), "name");
    holds(rt, keeps_bytes(store, b"ab", b"a") == Ok(true), "bytes");
    holds(rt, are_same(store, b"ab", b"ab") == Ok(true), "same");
    holds(rt, are_same(store, b"ab", b"a") == Ok(false), "not same");
    holds(
        rt,
        !store.is_same(Value::Number(0), Value::Bool(false)),
        "kinds",
    );
}

const FUNCTION: Value = Value::Builtin(Library::BasicNext);

/// Gives a cell another value, beside one that keeps its own.
fn change_cell(rt: &impl Abort, store: &mut Store, cell: CellId, other: CellId)
    requires cell { IsCellOf store.old cell }
    requires other { IsCellOf store.old other }
{
    holds(rt, store.cell(cell) == Value::Number(1), "cell");
    store.set_cell(cell, FUNCTION);
    holds(rt, store.cell(cell) == FUNCTION, "changed");
    holds(rt, store.cell(other) == Value::Nil, "other");
}

/// Keeps a value in a cell.
fn keep_in_cell(rt: &impl Abort, store: &mut Store) -> Result<(), NoMemory> {
    let cell = store.new_cell(Value::Number(1))?;
    let other = store.new_cell(Value::Nil)?;
    change_cell(rt, store, cell, other);
    Ok(())
}

/// Whether a closure is of an invocation and of a kind.
fn is_closure(store: &Store, id: ClosureId, env: u32, kind: ClosureKind) -> bool
    requires { IsClosureOf store.now id }
{
    store.closure(id).env == env && store.closure(id).kind == kind
}

/// Whether closures of the invocations 7 and 9 alone are there.
fn has_envs(store: &Store) -> bool {
    store.has_env(7) && store.has_env(9) && !store.has_env(8)
}

/// Makes closures of two invocations.
fn make_closures(rt: &impl Abort, store: &mut Store, alloc: Global) -> Result<(), NoMemory> {
    let title = store.text(b"Module:A")?;
    holds(rt, !store.has_env(7), "no invocation");
    let function = ClosureKind::Function(ProtoId { title, index: 3 });
    let iterator = ClosureKind::Iterator(Library::GmatchStep);
    store.begin_env(7);
    let first = store.new_closure(function, List::new(alloc))?;
    store.begin_env(9);
    let second = store.new_closure(iterator, List::new(alloc))?;
    holds(rt, first != second, "two closures");
    holds(rt, is_closure(store, first, 7, function), "first");
    holds(rt, is_closure(store, second, 9, iterator), "second");
    holds(rt, has_envs(store), "invocations");
    Ok(())
}

fn node(alloc: Global, name: TextId) -> MarkupNode
    ensures name { result.name ≡ name }
    ensures parent { result.parent ≡ None }
    ensures attrs { result.attrs ≡ [] }
    ensures styles { result.styles ≡ [] }
    ensures children { result.children ≡ [] }
{
    MarkupNode {
        name,
        closed: false,
        parent: None,
        attrs: List::new(alloc),
        styles: List::new(alloc),
        children: List::new(alloc),
    }
}

/// The name of the markup object that another one is put in the place of.
fn swapped(alloc: Global, store: &mut Store, id: MarkupId, name: TextId) -> TextId
    requires id { IsMarkupOf store.old id }
    requires name { IsTextOf store.old name }
    ensures { IsMarkupOf store.new id }
{
    store.swap_markup(id, node(alloc, name)).name
}

/// Puts one markup object in the place of another.
fn swap_nodes(rt: &impl Abort, store: &mut Store, alloc: Global) -> Result<(), NoMemory> {
    let div = store.text(b"div")?;
    let span = store.text(b"span")?;
    let id = store.new_markup(node(alloc, div))?;
    holds(rt, store.markup(id).name == div, "made");
    holds(rt, swapped(alloc, store, id, span) == div, "swapped");
    holds(rt, store.markup(id).name == span, "in its place");
    Ok(())
}

/// The names of so many texts.
fn names(alloc: Global, store: &mut Store, count: u64) -> Result<List<TextId>, NoMemory> {
    let mut names = List::new(alloc);
    for n in 0..count {
        names.push(store.text(&n.to_le_bytes())?)?;
    }
    Ok(names)
}

/// Whether a text that is made again has the name that it has, and its bytes.
fn is_named(store: &mut Store, names: &[TextId], n: u64) -> bool {
    match store.text(&n.to_le_bytes()) {
        Ok(again) => {
            names.get(n as usize) == Some(&again)
                && store.bytes(again) == n.to_le_bytes().as_slice()
        }
        Err(_) => false,
    }
}

fn are_named(store: &mut Store, names: &[TextId], count: u64) -> bool {
    for n in 0..count {
        if !is_named(store, names, n) {
            return false;
        }
    }
    true
}

/// Makes so many texts twice. Tells whether the second time each has the name that it has.
fn keeps_names(alloc: Global, store: &mut Store, count: u64) -> bool {
    match names(alloc, store, count) {
        Ok(names) => are_named(store, names.as_slice(), count),
        Err(_) => false,
    }
}

/// States each law.
fn state_laws(store: &Store) {
    laws::values_stay();
    laws::tables_stay();
    laws::closures_stay();
    laws::nodes_stay();
    laws::later_goes_on();
    laws::later_is_grown();
    laws::seen_once();
    laws::texts_are_once(store);
    laws::keys_are_once(store);
    laws::names_what_is_there(store);
}

/// Makes each call. The first one finds an empty store.
fn call_each(rt: &impl Abort, alloc: Global, store: &mut Store) {
    holds(rt, hold_itself(rt, store).is_ok(), "tables");
    name_texts(rt, store);
    holds(rt, keep_in_cell(rt, store).is_ok(), "cells");
    holds(rt, make_closures(rt, store, alloc).is_ok(), "closures");
    holds(rt, swap_nodes(rt, store, alloc).is_ok(), "markup");
    state_laws(store);
}

/// Makes each call in a new store.
fn call_in_new_store(rt: &impl Abort, alloc: Global, seed: RandomState) {
    let arena = Bump::new(alloc);
    let mut store = Store::new(alloc, &arena, seed);
    call_each(rt, alloc, &mut store);
}

#[test]
fn each_call_is_made(rt: HostRuntime) -> Result<(), Fail> {
    let seed = fixed_seed()?;
    call_in_new_store(&rt, rt.alloc(), seed);
    Ok(())
}

#[test]
fn a_value_takes_16_bytes(rt: HostRuntime) {
    assert_eq!(rt; size_of::<Value>(), 16);
}

/// Makes a million texts in a new store.
fn name_a_million(rt: &impl Abort, alloc: Global, seed: RandomState) {
    let arena = Bump::new(alloc);
    let mut store = Store::new(alloc, &arena, seed);
    let kept = keeps_names(alloc, &mut store, 1_000_000);
    holds(rt, kept, "names");
}

#[test]
fn a_million_texts_have_one_name_each(rt: HostRuntime) -> Result<(), Fail> {
    let seed = fixed_seed()?;
    name_a_million(&rt, rt.alloc(), seed);
    Ok(())
}
