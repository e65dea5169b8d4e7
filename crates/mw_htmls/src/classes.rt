//! `addClass`, `getAttr` and `cssText` (Scribunto, HTML library).
ghost use Rattle.std.specs.Prelude.{◌≡◌, ◌+◌, ◌∷◌, [], length, map, bytes_eq, Some};
ghost use Rattle.std.specs.List.{AllByRecursion};
ghost use Rattle.mw_html.specs.LuaHeapHeap.{markup_at};
ghost use Rattle.lua_strings.specs.LuaHeapValue as kind;
ghost use Rattle.lua_strings.specs.LuaMeaningArguments as plain;
ghost use Rattle.lua_strings.specs.LuaMeaningHtml as meaning;
ghost use Rattle.lua_strings.specs.LuaMeaningHtmlNodes as nodes;
ghost use Rattle.mw_html.specs.Names.{with_class};
ghost use Rattle.lua_strings.specs.LuaStoreSeen.{text_at, seen_pair};
ghost use Rattle.lua_strings.specs.LuaStoreParts.{IsTextOf, IsPairOf, IsMarkupOf, IsLater};
ghost use Rattle.lua_strings.specs.LuaBasicSeen.{values_seen, AllOf, Free, Paid, AnswerOf};
ghost use Rattle.lua_strings.specs.Costs.{Pays};
ghost use Rattle.mw_htmls.specs.Nodes.{bytes_in};
ghost use Rattle.mw_htmls.specs.Table.{add_class_on, get_attr_on, css_text_on};

use crate::arguments::{text_if_any, text_in_front};
use crate::lists::{is_same_text, split_pairs};
use crate::settings::{add_style_text, set_attr};
use lua_strings::paying::{give_text, take, take_sum};
use lua_strings::{Left, MarkupId, Stop, Store, TextId, TextPair, Value, a_text, single};
use mw_html::List;
use std::alloc::Global;

/// Whether a text has these bytes.
fn is_called(store: &Store, text: TextId, name: &[u8]) -> bool
    requires { IsTextOf store.now text }
    ensures { result ≡ bytes_eq (text_at store.now.texts text.at) name.now }
{
    store.bytes(text) == name
}

/// The value of an attribute among these.
fn value_of<'b>(store: &Store<'b>, pairs: &[TextPair], name: &[u8]) -> Option<&'b [u8]>
    requires { AllByRecursion (IsPairOf store.now) pairs.now }
    ensures { bytes_in result ≡ nodes.value_of name.now (map (seen_pair store.now.texts) pairs.now) }
{
    let mut rest = pairs;
    'each: while let Some((pair, more)) = split_pairs(rest) {
        if is_called(store, pair.name, name) {
            return Some(store.bytes(pair.value));
        }
        rest = more;
    }
    None
}

/// The value of an attribute of an object.
fn attribute<'b>(store: &Store<'b>, id: MarkupId, name: &[u8]) -> Option<&'b [u8]>
    requires { IsMarkupOf store.now id }
    ensures { bytes_in result ≡ nodes.value_of name.now (markup_at store.now.heap id.at).attrs }
{
    value_of(store, store.markup(id).attrs.as_slice(), name)
}

/// The value of an attribute among these, whose name is one of the texts of the store: no bytes are compared.
fn value_named<'b>(store: &Store<'b>, pairs: &[TextPair], name: TextId) -> Option<&'b [u8]>
    requires pairs { AllByRecursion (IsPairOf store.now) pairs.now }
    requires name { IsTextOf store.now name }
    ensures { bytes_in result ≡ nodes.value_of (text_at store.now.texts name.at) (map (seen_pair store.now.texts) pairs.now) }
{
    let mut rest = pairs;
    'each: while let Some((pair, more)) = split_pairs(rest) {
        if is_same_text(store, pair.name, name) {
            return Some(store.bytes(pair.value));
        }
        rest = more;
    }
    None
}

/// The value of an attribute of an object, whose name is one of the texts of the store.
fn attribute_named<'b>(store: &Store<'b>, id: MarkupId, name: TextId) -> Option<&'b [u8]>
    requires id { IsMarkupOf store.now id }
    requires name { IsTextOf store.now name }
    ensures { bytes_in result ≡ nodes.value_of (text_at store.now.texts name.at) (markup_at store.now.heap id.at).attrs }
{
    value_named(store, store.markup(id).attrs.as_slice(), name)
}

/// Takes a step for each byte of two texts, and for one byte between them.
fn take_both(left: &mut Left, first: &[u8], second: &[u8]) -> Result<(), Stop>
    ensures { Pays (length first.now + (1 + length second.now)) left.old left.new result }
{
    take(left, first.len() as u64)?;
    take_sum(left, 1, second.len() as u64)
}

/// Takes a step for each byte of the classes with one more.
fn pay_classes(left: &mut Left, old: Option<&[u8]>, class: &[u8]) -> Result<(), Stop>
    ensures { Pays (length (with_class (bytes_in old.entry) class.now)) left.old left.new result }
{
    match old {
        Some(classes) => take_both(left, classes, class),
        None => take(left, class.len() as u64),
    }
}

/// A class is added, after a step for each byte of the classes then, and the object is given.
fn give_classes(
    alloc: Global,
    store: &mut Store,
    left: &mut Left,
    id: MarkupId,
    class: &[u8],
) -> Result<List<Value>, Stop>
    requires { IsMarkupOf store.old id }
    ensures answer { Paid (meaning.adds_class store.old.heap id.at (Some class.now)) store.old left.old store.new left.new result }
    ensures of { AnswerOf store.new result }
    ensures later { IsLater store.old store.new }
{
    let old = attribute(store, id, b"class");
    pay_classes(left, old, class)?;
    let classes = mw_html::add_class(alloc, old, class)?;
    set_attr(alloc, store, id, b"class", Some(classes.as_slice()))?;
    let values = single(alloc, Value::Markup(id))?;
    Ok(values)
}

/// An object is given, to which nil adds no class and no style.
fn give_object(alloc: Global, store: &mut Store, id: MarkupId) -> Result<List<Value>, Stop>
    requires { IsMarkupOf store.old id }
    ensures answer { Free (plain.gives store.old.heap (kind.Markup id.at ∷ [])) store.new result }
    ensures of { AnswerOf store.new result }
    ensures same { store.new ≡ store.old }
{
    let _opened = &store;
    let values = single(alloc, Value::Markup(id))?;
    Ok(values)
}

/// `addClass(class)`: a class is added; nothing for nil.
pub fn add_class(
    alloc: Global,
    store: &mut Store,
    left: &mut Left,
    id: MarkupId,
    given: &[Value],
) -> Result<List<Value>, Stop>
    requires id { IsMarkupOf store.old id }
    requires given { AllOf store.old given.now }
    ensures answer { Paid (add_class_on id.at (values_seen store.old.texts given.now) store.old.heap) store.old left.old store.new left.new result }
    ensures of { AnswerOf store.new result }
    ensures later { IsLater store.old store.new }
{
    let class = text_if_any(alloc, store, 2, b"addClass", given)?;
    match class {
        Some(text) => give_classes(alloc, store, left, id, text.as_slice()),
        None => give_object(alloc, store, id),
    }
}

/// The value of the attribute with these bytes as its name is given, after a step for each of its bytes; or nil.
fn give_value(
    alloc: Global,
    store: &mut Store,
    left: &mut Left,
    id: MarkupId,
    name: &[u8],
) -> Result<List<Value>, Stop>
    requires { IsMarkupOf store.old id }
    ensures answer { Paid (meaning.gives_value store.old.heap (nodes.value_of name.now (markup_at store.old.heap id.at).attrs)) store.old left.old store.new left.new result }
    ensures of { AnswerOf store.new result }
    ensures later { IsLater store.old store.new }
{
    match attribute(store, id, name) {
        Some(value) => give_text(alloc, store, left, value),
        None => {
            let values = single(alloc, Value::Nil)?;
            Ok(values)
        }
    }
}

/// The value of the attribute with this text of the store as its name is given, after a step for each of its bytes; or nil.
fn give_named(
    alloc: Global,
    store: &mut Store,
    left: &mut Left,
    id: MarkupId,
    name: TextId,
) -> Result<List<Value>, Stop>
    requires id { IsMarkupOf store.old id }
    requires name { IsTextOf store.old name }
    ensures answer { Paid (meaning.gives_value store.old.heap (nodes.value_of (text_at store.old.texts name.at) (markup_at store.old.heap id.at).attrs)) store.old left.old store.new left.new result }
    ensures of { AnswerOf store.new result }
    ensures later { IsLater store.old store.new }
{
    match attribute_named(store, id, name) {
        Some(value) => give_text(alloc, store, left, value),
        None => {
            let values = single(alloc, Value::Nil)?;
            Ok(values)
        }
    }
}

/// `getAttr(name)`, where the name may be a number, or wrong.
fn give_called(
    alloc: Global,
    store: &mut Store,
    left: &mut Left,
    id: MarkupId,
    given: &[Value],
) -> Result<List<Value>, Stop>
    requires id { IsMarkupOf store.old id }
    requires given { AllOf store.old given.now }
    ensures answer { Paid (get_attr_on id.at (values_seen store.old.texts given.now) store.old.heap) store.old left.old store.new left.new result }
    ensures of { AnswerOf store.new result }
    ensures later { IsLater store.old store.new }
{
    let name = a_text(alloc, store, 2, b"getAttr", given)?;
    give_value(alloc, store, left, id, name.as_slice())
}

/// `getAttr(name)`: the value of an attribute, or nil.
pub fn get_attr(
    alloc: Global,
    store: &mut Store,
    left: &mut Left,
    id: MarkupId,
    given: &[Value],
) -> Result<List<Value>, Stop>
    requires id { IsMarkupOf store.old id }
    requires given { AllOf store.old given.now }
    ensures answer { Paid (get_attr_on id.at (values_seen store.old.texts given.now) store.old.heap) store.old left.old store.new left.new result }
    ensures of { AnswerOf store.new result }
    ensures later { IsLater store.old store.new }
{
    match text_in_front(given) {
        Some(name) => give_named(alloc, store, left, id, name),
        None => give_called(alloc, store, left, id, given),
    }
}

/// A text of styles is added, and the object is given.
fn give_styled(
    alloc: Global,
    store: &mut Store,
    id: MarkupId,
    text: &[u8],
) -> Result<List<Value>, Stop>
    requires { IsMarkupOf store.old id }
    ensures answer { Free (meaning.adds_styles store.old.heap id.at (Some text.now)) store.new result }
    ensures of { AnswerOf store.new result }
    ensures later { IsLater store.old store.new }
{
    add_style_text(alloc, store, id, text)?;
    let values = single(alloc, Value::Markup(id))?;
    Ok(values)
}

/// `cssText(text)`: a text of styles is added; nothing for nil.
pub fn css_text(
    alloc: Global,
    store: &mut Store,
    id: MarkupId,
    given: &[Value],
) -> Result<List<Value>, Stop>
    requires id { IsMarkupOf store.old id }
    requires given { AllOf store.old given.now }
    ensures answer { Free (css_text_on id.at (values_seen store.old.texts given.now) store.old.heap) store.new result }
    ensures of { AnswerOf store.new result }
    ensures later { IsLater store.old store.new }
{
    let styles = text_if_any(alloc, store, 2, b"cssText", given)?;
    match styles {
        Some(text) => give_styled(alloc, store, id, text.as_slice()),
        None => give_object(alloc, store, id),
    }
}
