//! A tag of HTML as a text (Scribunto, `frame:extensionTag`, `mw.text.tag`).
ghost use Rattle.std.specs.Prelude.{◌≡◌, List as Items, ℕ, IfSome};
ghost use Rattle.mw_frames.specs.LuaHeapHeap.{Heap};
ghost use Rattle.mw_frames.specs.LuaHeapProc.{Proc};
ghost use Rattle.mw_frames.specs.LuaMeaningArguments.{gives_text};
ghost use Rattle.mw_frames.specs.LuaMeaningTag as meaning;
ghost use Rattle.mw_frames.specs.LuaStoreSeen.{StoreView, seen};
ghost use Rattle.mw_frames.specs.LuaStoreParts.{IsOf, IsTableOf, IsLater};
ghost use Rattle.mw_frames.specs.LuaBasicSeen.{values_seen, AllOf, Paid, AnswerOf};
ghost use Rattle.mw_frames.specs.Costs.{MayPay};
ghost use Rattle.mw_frames.specs.Scenes.{NamesOf};
ghost use Rattle.mw_frame_texts.specs.Read.{parts, found_parts, tag_behind};
ghost use Rattle.mw_frame_texts.specs.Written.{tag_written};

use crate::attributes::{AttrText, the_attributes};
use crate::contents::{Content, content_in};
use crate::copies::written;
use crate::costs::{pay_given, pay_tag};
use mw_frames::reading::pay_passed;
use mw_frames::{
    FieldNames, Left, Stop, Store, TableId, Value, a_text, refuse_kind, second, single, third,
};
use mw_text::List;
use std::alloc::Global;

/// The text is made, after what it costs.
fn give_tag(
    alloc: Global,
    store: &mut Store,
    left: &mut Left,
    name: &[u8],
    attrs: &[AttrText],
    content: &Content,
) -> Result<List<Value>, Stop>
    ensures answer { Paid (gives_text store.old.heap (tag_written name.now attrs.now content.now))
        store.old left.old store.new left.new result }
    ensures of { AnswerOf store.new result }
    ensures later { IsLater store.old store.new }
{
    pay_tag(left, name, attrs, content)?;
    let made = written(alloc, name, attrs, content)?;
    let text = store.text(made.as_slice())?;
    let values = single(alloc, Value::Text(text))?;
    Ok(values)
}

/// Takes a step for each cleared entry that is passed, where the attributes are a table.
fn pay_attributes(store: &Store, left: &mut Left, attrs: Value) -> Result<(), Stop>
    requires { IsOf store.now attrs }
    ensures { MayPay (meaning.passed_in store.now.heap (seen store.now.texts attrs)) left.old
        left.new result }
{
    match attrs {
        Value::Table(table) => pay_passed(store, left, table),
        Value::Nil => Ok(()),
        Value::Bool(_) => Ok(()),
        Value::Number(_) => Ok(()),
        Value::Text(_) => Ok(()),
        Value::Closure(_) => Ok(()),
        Value::Builtin(_) => Ok(()),
        Value::Markup(_) => Ok(()),
    }
}

/// A tag of this name, behind the charge of its cleared attributes.
fn tag_named(
    alloc: Global,
    store: &mut Store,
    left: &mut Left,
    name: &[u8],
    attrs: Value,
    value: Value,
) -> Result<List<Value>, Stop>
    requires attrs { IsOf store.old attrs }
    requires content { IsOf store.old value }
    ensures answer { Paid
        (tag_behind name.now (seen store.old.texts attrs) (seen store.old.texts value)
        store.old.heap)
        store.old left.old store.new left.new result }
    ensures of { AnswerOf store.new result }
    ensures later { IsLater store.old store.new }
{
    let attrs = the_attributes(alloc, store, attrs)?;
    let Some(content) = content_in(alloc, store, value)? else {
        return Err(refuse_kind(alloc, store, 3, b"tag", b"string", &[value]));
    };
    give_tag(alloc, store, left, name, attrs.as_slice(), &content)
}

/// A tag of a name, attributes and content. The name is the first of a list, if it is there.
pub fn tag_of(
    alloc: Global,
    store: &mut Store,
    left: &mut Left,
    names: &[Value],
    attrs: Value,
    value: Value,
) -> Result<List<Value>, Stop>
    requires names { AllOf store.old names.now }
    requires attrs { IsOf store.old attrs }
    requires content { IsOf store.old value }
    ensures answer { Paid
        (meaning.tag_of
        (parts (values_seen store.old.texts names.now) (seen store.old.texts attrs)
        (seen store.old.texts value))
        store.old.heap)
        store.old left.old store.new left.new result }
    ensures of { AnswerOf store.new result }
    ensures later { IsLater store.old store.new }
{
    let name = a_text(alloc, store, 1, b"tag", names)?;
    pay_attributes(store, left, attrs)?;
    tag_named(alloc, store, left, name.as_slice(), attrs, value)
}

/// The first of the arguments, where it is a table, which then has the parts as fields.
fn table_in(given: &[Value]) -> Option<TableId>
    ensures of { (s : StoreView) → AllOf s given.now → IfSome result (IsTableOf s) }
    ensures split { (texts : Items (Items ℕ)) (h : Heap Proc)
        → meaning.extension_parts h (values_seen texts given.now)
        ≡ found_parts h (values_seen texts given.now) result }
{
    match given {
        [Value::Table(id), ..] => Some(*id),
        _ => None,
    }
}

/// The parts are given one by one or as fields of a table.
fn tag_given(
    alloc: Global,
    store: &mut Store,
    left: &mut Left,
    names: FieldNames,
    given: &[Value],
) -> Result<List<Value>, Stop>
    requires given { AllOf store.old given.now }
    requires names { NamesOf store.old names }
    ensures answer { Paid
        (meaning.tag_of
        (meaning.extension_parts store.old.heap (values_seen store.old.texts given.now))
        store.old.heap)
        store.old left.old store.new left.new result }
    ensures of { AnswerOf store.new result }
    ensures later { IsLater store.old store.new }
{
    match table_in(given) {
        Some(table) => {
            let name = store.get(table, Value::Text(names.name));
            let attrs = store.get(table, Value::Text(names.args));
            let content = store.get(table, Value::Text(names.content));
            tag_of(alloc, store, left, &[name], attrs, content)
        }
        None => tag_of(alloc, store, left, given, third(given), second(given)),
    }
}

/// A tag of the arguments, behind the frame. It costs the bytes of those that are strings, and its own. `names` are those of the fields that
/// methods of frames read.
pub fn extension_tag(
    alloc: Global,
    store: &mut Store,
    left: &mut Left,
    names: FieldNames,
    given: &[Value],
) -> Result<List<Value>, Stop>
    requires given { AllOf store.old given.now }
    requires names { NamesOf store.old names }
    ensures answer { Paid
        (meaning.extension_tag (values_seen store.old.texts given.now) store.old.heap) store.old
        left.old store.new left.new result }
    ensures of { AnswerOf store.new result }
    ensures later { IsLater store.old store.new }
{
    pay_given(store, left, given)?;
    tag_given(alloc, store, left, names, given)
}
