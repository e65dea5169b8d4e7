//! The attributes of a tag, read of a table (Scribunto, mw.text.tag). Their texts are not copied.
ghost use Rattle.std.specs.Prelude.{◌≡◌, List as Items, ℕ, Ok, IfOk, IfErr, IfSome, OnOk};
ghost use Rattle.mw_frames.specs.LuaHeapHeap.{Heap, table_at};
ghost use Rattle.mw_frames.specs.LuaHeapProc.{Proc};
ghost use Rattle.mw_frames.specs.LuaMeaningScope.{Bytes};
ghost use Rattle.mw_frames.specs.LuaMeaningTag as meaning;
ghost use Rattle.mw_frames.specs.LuaMeaningValues as values;
ghost use Rattle.mw_frames.specs.LuaStoreSeen.{StoreView, seen, seen_entry};
ghost use Rattle.mw_frames.specs.LuaStoreParts.{IsOf, IsTableOf, IsEntryOf, IsLater};
ghost use Rattle.mw_frames.specs.LuaBasicSeen.{StopOf, Refuses};
ghost use Rattle.mw_frame_texts.specs.Written.{attrs_written};
ghost use Rattle.mw_frame_texts.specs.Read.{found_value, found_attrs, found_table, entries_in, IsRead, RefusedOf};

use lua_number::NoMemory;
use mw_frames::reading::entry_at;
use mw_frames::{Stop, Store, TableId, TextIn, Value, is_nil, refuse_kind, text_in};
use mw_text::List;
use std::alloc::Global;

/// An attribute that is written: with its value, or alone.
#[derive(Drop)]
pub struct AttrText<'b> {
    pub name: TextIn<'b>,
    pub value: Option<TextIn<'b>>,
}

/// What is written of the value of an attribute.
#[derive(Drop)]
pub enum AttrValue<'b> {
    With(TextIn<'b>),
    /// The name stands alone.
    Alone,
    /// The attribute is not written.
    Absent,
    Refused,
}

/// The attributes of a table.
#[derive(Drop)]
pub enum AttrsRead<'b> {
    All(List<AttrText<'b>>),
    /// This key or value is none.
    Refused(Value),
}

/// What is written of a value: of a text or a number itself, of true the name alone, and of false nothing.
fn attr_value<'b>(alloc: Global, store: &Store<'b>, value: Value) -> Result<AttrValue<'b>, NoMemory>
    requires { IsOf store.now value }
    ensures { IfOk result (λ found.
        (name : Bytes)
        → meaning.attribute name (values.text_in (seen store.now.texts value))
        (seen store.now.texts value)
        ≡ found_value name (seen store.now.texts value) found) }
{
    match value {
        Value::Number(n) => {
            let digits = lua_number::text(alloc, n)?;
            Ok(AttrValue::With(TextIn::Written(digits)))
        }
        Value::Text(text) => Ok(AttrValue::With(TextIn::Kept(store.bytes(text)))),
        Value::Bool(true) => Ok(AttrValue::Alone),
        Value::Bool(false) => Ok(AttrValue::Absent),
        Value::Nil => Ok(AttrValue::Refused),
        Value::Table(_) => Ok(AttrValue::Refused),
        Value::Closure(_) => Ok(AttrValue::Refused),
        Value::Builtin(_) => Ok(AttrValue::Refused),
        Value::Markup(_) => Ok(AttrValue::Refused),
    }
}

/// Reads an entry behind those that were read, if it is not cleared; or the key or value that is none.
fn read_attribute<'b>(
    alloc: Global,
    store: &Store<'b>,
    attrs: &mut List<AttrText<'b>>,
    entry: (Value, Value),
) -> Result<Option<Value>, NoMemory>
    requires { IsEntryOf store.now entry }
    ensures read { IfOk result (IsRead store.now.texts attrs.old attrs.new
        (seen_entry store.now.texts entry)) }
    ensures of { IfOk result (λ refused. IfSome refused (IsOf store.now)) }
{
    let (key, value) = entry;
    if is_nil(value) {
        return Ok(None);
    }
    let Some(name) = text_in(alloc, store, key)? else {
        return Ok(Some(key));
    };
    match attr_value(alloc, store, value)? {
        AttrValue::With(text) => {
            attrs.push(AttrText {
                name,
                value: Some(text),
            })?;
            Ok(None)
        }
        AttrValue::Alone => {
            attrs.push(AttrText { name, value: None })?;
            Ok(None)
        }
        AttrValue::Absent => Ok(None),
        AttrValue::Refused => Ok(Some(value)),
    }
}

/// All entries of a table that are not cleared, in order; or the first key or value that is none.
fn read_attributes<'b>(
    alloc: Global,
    store: &Store<'b>,
    table: TableId,
) -> Result<AttrsRead<'b>, NoMemory>
    requires { IsTableOf store.now table }
    ensures read { IfOk result (λ found.
        meaning.attributes (table_at store.now.heap table.at).entries
        ≡ found_attrs store.now.texts found) }
    ensures of { IfOk result (RefusedOf store.now) }
{
    let mut attrs = List::new(alloc);
    'places: for place in 0..usize::MAX {
        match entry_at(store, table, place) {
            None => return Ok(AttrsRead::All(attrs)),
            Some(entry) => {
                if let Some(value) = read_attribute(alloc, store, &mut attrs, entry)? {
                    return Ok(AttrsRead::Refused(value));
                }
            }
        }
    }
    Err(NoMemory)
}

/// The table of attributes, and nothing for nil; None where it is neither.
fn attrs_table(value: Value) -> Option<Option<TableId>>
    ensures found { (texts : Items (Items ℕ)) (h : Heap Proc)
        → meaning.attributes_in h (seen texts value) ≡ found_table h (seen texts value) result }
    ensures of { (s : StoreView) → IsOf s value
        → IfSome result (λ table. IfSome table (IsTableOf s)) }
{
    match value {
        Value::Nil => Some(None),
        Value::Table(table) => Some(Some(table)),
        Value::Bool(_) => None,
        Value::Number(_) => None,
        Value::Text(_) => None,
        Value::Closure(_) => None,
        Value::Builtin(_) => None,
        Value::Markup(_) => None,
    }
}

/// The attributes of a table, if there is one.
fn attributes_at<'b>(
    alloc: Global,
    store: &Store<'b>,
    table: Option<TableId>,
) -> Result<AttrsRead<'b>, NoMemory>
    requires { IfSome table (IsTableOf store.now) }
    ensures read { IfOk result (λ found.
        meaning.attributes (entries_in store.now.heap table) ≡ found_attrs store.now.texts found) }
    ensures of { IfOk result (RefusedOf store.now) }
{
    match table {
        Some(table) => read_attributes(alloc, store, table),
        None => Ok(AttrsRead::All(List::new(alloc))),
    }
}

/// The attributes that are given.
pub fn the_attributes<'b>(
    alloc: Global,
    store: &mut Store<'b>,
    attrs: Value,
) -> Result<List<AttrText<'b>>, Stop>
    requires { IsOf store.old attrs }
    ensures found { IfOk result (λ read.
        meaning.attributes_in store.old.heap (seen store.old.texts attrs)
        ≡ Ok (attrs_written read)) }
    ensures same { OnOk result (store.new ≡ store.old) }
    ensures refused { IfErr result (Refuses
        (meaning.attributes_in store.old.heap (seen store.old.texts attrs)) store.old store.new) }
    ensures of { IfErr result (StopOf store.new) }
    ensures later { IsLater store.old store.new }
{
    let Some(table) = attrs_table(attrs) else {
        return Err(refuse_kind(alloc, store, 2, b"tag", b"table", &[attrs]));
    };
    match attributes_at(alloc, store, table)? {
        AttrsRead::All(read) => Ok(read),
        AttrsRead::Refused(value) => Err(refuse_kind(alloc, store, 2, b"tag", b"string", &[value])),
    }
}
