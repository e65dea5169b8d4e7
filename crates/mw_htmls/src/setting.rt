//! `attr` and `css`: attributes and styles are set, one or those of a table (Scribunto, HTML library).
ghost use Rattle.std.specs.Prelude.{◌≡◌, Ok, IfOk, IfErr, OnOk};
ghost use Rattle.mw_html.specs.LuaHeapHeap.{MarkupNode, markup_at, set_markup_in};
ghost use Rattle.lua_strings.specs.LuaMeaningArguments as arguments;
ghost use Rattle.lua_strings.specs.LuaMeaningHtml as meaning;
ghost use Rattle.lua_strings.specs.LuaStoreParts.{IsMarkupOf, IsLater};
ghost use Rattle.lua_strings.specs.LuaBasicArguments.{text_bytes};
ghost use Rattle.lua_strings.specs.LuaBasicSeen.{values_seen, AllOf, Free, StopOf, AnswerOf, Refuses};
ghost use Rattle.mw_htmls.specs.Nodes.{bytes_in};
ghost use Rattle.mw_htmls.specs.Setters.{setter_of, set_by, set_named};

use crate::arguments::text_if_any;
use crate::settings::{set_attribute, set_style};
use lua_strings::{MarkupId, Stop, Store, TextIn, Value, a_text, fail, rest, single};
use mw_html::{List, NoMemory, is_attribute_name};
use std::alloc::Global;

/// What is set: an attribute, or a style.
#[derive(Clone, Copy, Debug, PartialEq, Eq)]
pub enum Setter {
    Attributes,
    Styles,
}

/// The name of the method that sets it.
fn method_of(setter: Setter) -> &'static [u8]
    ensures { result.now ≡ (setter_of setter).function }
{
    match setter {
        Setter::Attributes => b"attr",
        Setter::Styles => b"css",
    }
}

/// Whether it takes this name.
fn takes(setter: Setter, name: &[u8]) -> bool
    ensures { result ≡ (setter_of setter).takes name.now }
{
    match setter {
        Setter::Attributes => is_attribute_name(name),
        Setter::Styles => true,
    }
}

/// Sets it, or removes it where there is no value.
fn set(
    alloc: Global,
    store: &mut Store,
    id: MarkupId,
    setter: Setter,
    name: &[u8],
    value: Option<&[u8]>,
) -> Result<(), NoMemory>
    requires { IsMarkupOf store.old id }
    ensures set { OnOk result (store.new.heap ≡ set_markup_in store.old.heap id.at ((setter_of setter).sets name.now (bytes_in value.entry) (markup_at store.old.heap id.at))) }
    ensures later { IsLater store.old store.new }
{
    match setter {
        Setter::Attributes => set_attribute(alloc, store, id, name, value),
        Setter::Styles => set_style(alloc, store, id, name, value),
    }
}

/// A name with its value, or without one.
#[derive(Drop)]
pub struct Setting<'b> {
    pub name: TextIn<'b>,
    pub value: Option<TextIn<'b>>,
}

/// This text, where it is a name that is taken.
fn a_taken<'b>(store: &mut Store<'b>, setter: Setter, name: TextIn<'b>) -> Result<TextIn<'b>, Stop>
    ensures found { IfOk result (λ made. meaning.tested_name (setter_of setter).takes (Ok (text_bytes name.entry)) ≡ Ok (text_bytes made)) }
    ensures same { OnOk result (store.new ≡ store.old) }
    ensures refused { IfErr result (Refuses (meaning.tested_name (setter_of setter).takes (Ok (text_bytes name.entry))) store.old store.new) }
    ensures of { IfErr result (StopOf store.new) }
    ensures later { IsLater store.old store.new }
{
    if takes(setter, name.as_slice()) {
        return Ok(name);
    }
    Err(fail(store, b"bad html name"))
}

/// The name of what is set.
fn a_name<'b>(
    alloc: Global,
    store: &mut Store<'b>,
    setter: Setter,
    given: &[Value],
) -> Result<TextIn<'b>, Stop>
    requires { AllOf store.old given.now }
    ensures found { IfOk result (λ name. meaning.tested_name (setter_of setter).takes (arguments.a_text 2 (setter_of setter).function (values_seen store.old.texts given.now)) ≡ Ok (text_bytes name)) }
    ensures same { OnOk result (store.new ≡ store.old) }
    ensures refused { IfErr result (Refuses (meaning.tested_name (setter_of setter).takes (arguments.a_text 2 (setter_of setter).function (values_seen store.old.texts given.now))) store.old store.new) }
    ensures of { IfErr result (StopOf store.new) }
    ensures later { IsLater store.old store.new }
{
    match a_text(alloc, store, 2, method_of(setter), given) {
        Ok(name) => a_taken(store, setter, name),
        Err(stop) => Err(stop),
    }
}

/// A name and a value that are given, from argument 2 on.
pub fn a_setting<'b>(
    alloc: Global,
    store: &mut Store<'b>,
    setter: Setter,
    given: &[Value],
) -> Result<Setting<'b>, Stop>
    requires { AllOf store.old given.now }
    ensures found { IfOk result (λ setting. (n : MarkupNode) → meaning.set_one (setter_of setter) (values_seen store.old.texts given.now) n ≡ Ok (set_by setter setting n)) }
    ensures same { OnOk result (store.new ≡ store.old) }
    ensures refused { IfErr result (λ e. (n : MarkupNode) → Refuses (meaning.set_one (setter_of setter) (values_seen store.old.texts given.now) n) store.old store.new e) }
    ensures of { IfErr result (StopOf store.new) }
    ensures later { IsLater store.old store.new }
{
    match a_name(alloc, store, setter, given) {
        Ok(name) => with_name(alloc, store, setter, given, name),
        Err(stop) => Err(stop),
    }
}

/// The value of what is set, behind its name.
fn with_name<'b>(
    alloc: Global,
    store: &mut Store<'b>,
    setter: Setter,
    given: &[Value],
    name: TextIn<'b>,
) -> Result<Setting<'b>, Stop>
    requires { AllOf store.old given.now }
    ensures found { IfOk result (λ setting. (n : MarkupNode) → set_named (setter_of setter) n (text_bytes name.entry) (values_seen store.old.texts given.now) ≡ Ok (set_by setter setting n)) }
    ensures same { OnOk result (store.new ≡ store.old) }
    ensures refused { IfErr result (λ e. (n : MarkupNode) → Refuses (set_named (setter_of setter) n (text_bytes name.entry) (values_seen store.old.texts given.now)) store.old store.new e) }
    ensures of { IfErr result (StopOf store.new) }
    ensures later { IsLater store.old store.new }
{
    match text_if_any(alloc, store, 3, method_of(setter), rest(given)) {
        Ok(value) => Ok(Setting { name, value }),
        Err(stop) => Err(stop),
    }
}

/// Sets what was given.
pub fn apply(
    alloc: Global,
    store: &mut Store,
    id: MarkupId,
    setter: Setter,
    setting: &Setting,
) -> Result<(), NoMemory>
    requires { IsMarkupOf store.old id }
    ensures set { OnOk result (store.new.heap ≡ set_markup_in store.old.heap id.at (set_by setter setting.now (markup_at store.old.heap id.at))) }
    ensures later { IsLater store.old store.new }
{
    match &setting.value {
        Some(value) => set(
            alloc,
            store,
            id,
            setter,
            setting.name.as_slice(),
            Some(value.as_slice()),
        ),
        None => set(alloc, store, id, setter, setting.name.as_slice(), None),
    }
}

/// Sets what was given, and gives the object.
fn give_set(
    alloc: Global,
    store: &mut Store,
    id: MarkupId,
    setter: Setter,
    setting: &Setting,
) -> Result<List<Value>, Stop>
    requires { IsMarkupOf store.old id }
    ensures answer { Free (meaning.puts store.old.heap id.at (set_by setter setting.now (markup_at store.old.heap id.at))) store.new result }
    ensures of { AnswerOf store.new result }
    ensures later { IsLater store.old store.new }
{
    apply(alloc, store, id, setter, setting)?;
    let values = single(alloc, Value::Markup(id))?;
    Ok(values)
}

/// `attr(name, value)`, `css(name, value)`: one is set, or removed where the value is nil.
pub fn set_one(
    alloc: Global,
    store: &mut Store,
    id: MarkupId,
    setter: Setter,
    given: &[Value],
) -> Result<List<Value>, Stop>
    requires id { IsMarkupOf store.old id }
    requires given { AllOf store.old given.now }
    ensures answer { Free (meaning.sets_one (setter_of setter) store.old.heap id.at (values_seen store.old.texts given.now)) store.new result }
    ensures of { AnswerOf store.new result }
    ensures later { IsLater store.old store.new }
{
    let setting = a_setting(alloc, store, setter, given)?;
    give_set(alloc, store, id, setter, &setting)
}
