//! `node`, `wikitext` and `newline`: children are added (Scribunto, HTML library).
ghost use Rattle.std.specs.Prelude.{◌≡◌, ◌+◌, ◌∷◌, [], codes, Ok, map, IfOk, IfErr, OnOk};
ghost use Rattle.std.specs.List.{AllByRecursion};
ghost use Rattle.mw_html.specs.LuaHeapHeap.{ChildText};
ghost use Rattle.lua_strings.specs.LuaMeaningArguments.{a_text as text_given};
ghost use Rattle.lua_strings.specs.LuaMeaningHtml as meaning;
ghost use Rattle.lua_strings.specs.LuaMeaningHtmlNodes.{add_children, add_texts};
ghost use Rattle.lua_strings.specs.LuaStoreSeen.{seen_child};
ghost use Rattle.lua_strings.specs.LuaStoreParts.{IsMarkupOf, IsChildOf, IsLater};
ghost use Rattle.lua_strings.specs.LuaBasicArguments.{text_bytes};
ghost use Rattle.lua_strings.specs.LuaBasicSeen.{values_seen, AllOf, Free, StopOf, AnswerOf, Refuses};
ghost use Rattle.mw_htmls.specs.Found.{child_found, texts_found, IsGivenOf};
ghost use Rattle.mw_htmls.specs.Table.{node_on, wikitext_on, newline_on};

use crate::arguments::object_in;
use crate::nodes::add_children;
use lua_strings::messages::refuse_kind;
use lua_strings::paying::split_values;
use lua_strings::{
    MarkupChild, MarkupId, Stop, Store, TextIn, Value, a_text, first, is_nil, single, text_in,
};
use mw_html::{List, NoMemory};
use std::alloc::Global;

/// Children are added, and the object is given.
fn give_with(
    alloc: Global,
    store: &mut Store,
    id: MarkupId,
    children: &[MarkupChild],
) -> Result<List<Value>, Stop>
    requires id { IsMarkupOf store.old id }
    requires children { AllByRecursion (IsChildOf store.old) children.now }
    ensures answer { Free (meaning.changes store.old.heap id.at (add_children (map (seen_child store.old.texts) children.now))) store.new result }
    ensures of { AnswerOf store.new result }
    ensures later { IsLater store.old store.new }
{
    add_children(alloc, store, id, children)?;
    let values = single(alloc, Value::Markup(id))?;
    Ok(values)
}

/// A child that is a text is added, and the object is given.
fn give_with_text(
    alloc: Global,
    store: &mut Store,
    id: MarkupId,
    text: &[u8],
) -> Result<List<Value>, Stop>
    requires { IsMarkupOf store.old id }
    ensures answer { Free (meaning.changes store.old.heap id.at (add_children (ChildText text.now ∷ []))) store.new result }
    ensures of { AnswerOf store.new result }
    ensures later { IsLater store.old store.new }
{
    let kept = store.text(text)?;
    give_with(alloc, store, id, &[MarkupChild::Text(kept)])
}

/// `newline()`: a line feed is added.
pub fn newline(alloc: Global, store: &mut Store, id: MarkupId) -> Result<List<Value>, Stop>
    requires { IsMarkupOf store.old id }
    ensures answer { Free (newline_on id.at store.old.heap) store.new result }
    ensures of { AnswerOf store.new result }
    ensures later { IsLater store.old store.new }
{
    give_with_text(alloc, store, id, b"\n")
}

/// What `node` is given.
#[derive(Drop)]
pub enum ChildGiven<'b> {
    Nothing,
    Object(MarkupId),
    Text(TextIn<'b>),
}

/// A text.
fn a_text_child<'b>(
    alloc: Global,
    store: &mut Store<'b>,
    given: &[Value],
) -> Result<ChildGiven<'b>, Stop>
    requires { AllOf store.old given.now }
    ensures found { IfOk result (λ child. meaning.as_child (text_given 2 (codes "node") (values_seen store.old.texts given.now)) ≡ Ok (child_found child)) }
    ensures child { IfOk result (IsGivenOf store.new) }
    ensures same { OnOk result (store.new ≡ store.old) }
    ensures refused { IfErr result (Refuses (meaning.as_child (text_given 2 (codes "node") (values_seen store.old.texts given.now))) store.old store.new) }
    ensures of { IfErr result (StopOf store.new) }
    ensures later { IsLater store.old store.new }
{
    match a_text(alloc, store, 2, b"node", given) {
        Ok(text) => Ok(ChildGiven::Text(text)),
        Err(stop) => Err(stop),
    }
}

/// An object or a text, or nothing for nil.
fn a_child<'b>(
    alloc: Global,
    store: &mut Store<'b>,
    given: &[Value],
) -> Result<ChildGiven<'b>, Stop>
    requires { AllOf store.old given.now }
    ensures found { IfOk result (λ child. meaning.a_child (values_seen store.old.texts given.now) ≡ Ok (child_found child)) }
    ensures child { IfOk result (IsGivenOf store.new) }
    ensures same { OnOk result (store.new ≡ store.old) }
    ensures refused { IfErr result (Refuses (meaning.a_child (values_seen store.old.texts given.now)) store.old store.new) }
    ensures of { IfErr result (StopOf store.new) }
    ensures later { IsLater store.old store.new }
{
    if is_nil(first(given)) {
        return Ok(ChildGiven::Nothing);
    }
    match object_in(given) {
        Some(object) => Ok(ChildGiven::Object(object)),
        None => a_text_child(alloc, store, given),
    }
}

/// What was given is added, and the object is given.
fn give_child(
    alloc: Global,
    store: &mut Store,
    id: MarkupId,
    child: &ChildGiven,
) -> Result<List<Value>, Stop>
    requires id { IsMarkupOf store.old id }
    requires child { IsGivenOf store.old child.now }
    ensures answer { Free (meaning.changes store.old.heap id.at (add_children (child_found child.now))) store.new result }
    ensures of { AnswerOf store.new result }
    ensures later { IsLater store.old store.new }
{
    match child {
        ChildGiven::Nothing => give_with(alloc, store, id, &[]),
        ChildGiven::Object(object) => give_with(alloc, store, id, &[MarkupChild::Node(*object)]),
        ChildGiven::Text(text) => give_with_text(alloc, store, id, text.as_slice()),
    }
}

/// `node(x)`: an object or a text is added; nothing for nil.
pub fn node(
    alloc: Global,
    store: &mut Store,
    id: MarkupId,
    given: &[Value],
) -> Result<List<Value>, Stop>
    requires id { IsMarkupOf store.old id }
    requires given { AllOf store.old given.now }
    ensures answer { Free (node_on id.at (values_seen store.old.texts given.now) store.old.heap) store.new result }
    ensures of { AnswerOf store.new result }
    ensures later { IsLater store.old store.new }
{
    let child = a_child(alloc, store, given)?;
    give_child(alloc, store, id, &child)
}

/// The texts that `wikitext` is given, up to the first nil; or the number of the first that is none, and the arguments from it on.
#[derive(Drop)]
pub enum TextsRead<'a, 'b> {
    All(List<TextIn<'b>>),
    Refused(u64, &'a [Value]),
}

/// The number behind one.
fn next_number(n: u64) -> Result<u64, NoMemory>
    ensures { IfOk result (λ next. next ≡ n + 1) }
{
    match n.checked_add(1) {
        Some(next) => Ok(next),
        None => Err(NoMemory),
    }
}

/// Reads the texts up to the first nil.
fn read_texts<'a, 'b>(
    alloc: Global,
    store: &Store<'b>,
    given: &'a [Value],
) -> Result<TextsRead<'a, 'b>, NoMemory>
    requires { AllOf store.now given.now }
    ensures { IfOk result (λ read. meaning.texts_from 2 (values_seen store.now.texts given.now) ≡ texts_found store.now.texts read) }
{
    let mut texts = List::new(alloc);
    let mut n: u64 = 2;
    let mut rest = given;
    'values: while let Some((value, more)) = split_values(rest) {
        if is_nil(value) {
            return Ok(TextsRead::All(texts));
        }
        let Some(text) = text_in(alloc, store, value)? else {
            return Ok(TextsRead::Refused(n, rest));
        };
        texts.push(text)?;
        n = next_number(n)?;
        rest = more;
    }
    Ok(TextsRead::All(texts))
}

/// Texts as children.
fn text_children(
    alloc: Global,
    store: &mut Store,
    texts: &[TextIn],
) -> Result<List<MarkupChild>, NoMemory>
    ensures children { IfOk result (λ children. map (seen_child store.new.texts) children ≡ map ChildText (map text_bytes texts.now)) }
    ensures of { IfOk result (AllByRecursion (IsChildOf store.new)) }
    ensures heap { store.new.heap ≡ store.old.heap }
    ensures later { IsLater store.old store.new }
{
    let mut children = List::new(alloc);
    'each: for text in texts {
        let id = store.text(text.as_slice())?;
        children.push(MarkupChild::Text(id))?;
    }
    Ok(children)
}

/// Texts are added, and the object is given.
fn give_with_texts(
    alloc: Global,
    store: &mut Store,
    id: MarkupId,
    texts: &[TextIn],
) -> Result<List<Value>, Stop>
    requires { IsMarkupOf store.old id }
    ensures answer { Free (meaning.changes store.old.heap id.at (add_texts (map text_bytes texts.now))) store.new result }
    ensures of { AnswerOf store.new result }
    ensures later { IsLater store.old store.new }
{
    let children = text_children(alloc, store, texts)?;
    give_with(alloc, store, id, children.as_slice())
}

/// `wikitext(...)`: the texts up to the first nil are added.
pub fn wikitext(
    alloc: Global,
    store: &mut Store,
    id: MarkupId,
    given: &[Value],
) -> Result<List<Value>, Stop>
    requires id { IsMarkupOf store.old id }
    requires given { AllOf store.old given.now }
    ensures answer { Free (wikitext_on id.at (values_seen store.old.texts given.now) store.old.heap) store.new result }
    ensures of { AnswerOf store.new result }
    ensures later { IsLater store.old store.new }
{
    let read = read_texts(alloc, store, given)?;
    match read {
        TextsRead::All(texts) => give_with_texts(alloc, store, id, texts.as_slice()),
        TextsRead::Refused(n, from) => {
            Err(refuse_kind(alloc, store, n, b"wikitext", b"string", from))
        }
    }
}
