//! The arguments of functions of `mw.html` (Scribunto, HTML library). `given` are the arguments from number n on.
ghost use Rattle.std.specs.Prelude.{◌≡◌, [], ℕ, List as Items, Ok, IfOk, IfErr, IfSome, OnOk};
ghost use Rattle.std.specs.Option.{option_map};
ghost use Rattle.lua_strings.specs.LuaMeaningScope.{Bytes};
ghost use Rattle.lua_strings.specs.LuaMeaningArguments.{a_table, a_text as text_given};
ghost use Rattle.lua_strings.specs.LuaMeaningChecks as checks;
ghost use Rattle.lua_strings.specs.LuaMeaningHtml as meaning;
ghost use Rattle.lua_strings.specs.LuaStoreSeen.{StoreView, text_at};
ghost use Rattle.lua_strings.specs.LuaStoreParts.{IsTextOf, IsTableOf, IsMarkupOf, IsLater};
ghost use Rattle.lua_strings.specs.LuaBasicArguments.{found_table, text_bytes};
ghost use Rattle.lua_strings.specs.LuaBasicSeen.{values_seen, AllOf, StopOf, Refuses};
ghost use Rattle.mw_htmls.specs.Found.{found_object};

use lua_strings::{
    MarkupId, Stop, Store, TableId, TextId, TextIn, Value, a_text, fail, field, first, is_nil,
    is_true, refuse_kind,
};
use mw_html::is_name;
use std::alloc::Global;

/// The first of these arguments, where it is an object.
pub fn object_in(given: &[Value]) -> Option<MarkupId>
    ensures of { (s : StoreView) → AllOf s given.now → IfSome result (IsMarkupOf s) }
    ensures object { (texts : Items (Items ℕ)) (n : ℕ) (function : Bytes) → meaning.an_object n function (values_seen texts given.now) ≡ found_object n function (values_seen texts given.now) result }
{
    match given {
        [Value::Markup(id), ..] => Some(*id),
        _ => None,
    }
}

/// The first of these arguments, where it is a table.
pub fn table_in(given: &[Value]) -> Option<TableId>
    ensures of { (s : StoreView) → AllOf s given.now → IfSome result (IsTableOf s) }
    ensures table { (texts : Items (Items ℕ)) (n : ℕ) (function : Bytes) → a_table n function (values_seen texts given.now) ≡ found_table n function (values_seen texts given.now) result }
{
    match given {
        [Value::Table(id), ..] => Some(*id),
        _ => None,
    }
}

/// The first of these arguments, where it is a text.
pub fn text_in_front(given: &[Value]) -> Option<TextId>
    ensures of { (s : StoreView) → AllOf s given.now → IfSome result (IsTextOf s) }
    ensures text { (texts : Items (Items ℕ)) (n : ℕ) (function : Bytes) → IfSome result (λ id. text_given n function (values_seen texts given.now) ≡ Ok (text_at texts id.at)) }
{
    match given {
        [Value::Text(id), ..] => Some(*id),
        _ => None,
    }
}

/// The object of a method, its first argument.
pub fn an_object(
    alloc: Global,
    store: &mut Store,
    function: &[u8],
    given: &[Value],
) -> Result<MarkupId, Stop>
    requires { AllOf store.old given.now }
    ensures found { IfOk result (λ id. meaning.an_object 1 function.now (values_seen store.old.texts given.now) ≡ Ok id.at) }
    ensures object { IfOk result (IsMarkupOf store.new) }
    ensures same { OnOk result (store.new ≡ store.old) }
    ensures refused { IfErr result (Refuses (meaning.an_object 1 function.now (values_seen store.old.texts given.now)) store.old store.new) }
    ensures of { IfErr result (StopOf store.new) }
    ensures later { IsLater store.old store.new }
{
    match object_in(given) {
        Some(object) => Ok(object),
        None => Err(refuse_kind(alloc, store, 1, function, b"table", given)),
    }
}

/// A text that may be nil, or left out.
pub fn text_if_any<'b>(
    alloc: Global,
    store: &mut Store<'b>,
    n: u8,
    function: &[u8],
    given: &[Value],
) -> Result<Option<TextIn<'b>>, Stop>
    requires { AllOf store.old given.now }
    ensures found { IfOk result (λ text. meaning.text_if_any n function.now (values_seen store.old.texts given.now) ≡ Ok (option_map text_bytes text)) }
    ensures same { OnOk result (store.new ≡ store.old) }
    ensures refused { IfErr result (Refuses (meaning.text_if_any n function.now (values_seen store.old.texts given.now)) store.old store.new) }
    ensures of { IfErr result (StopOf store.new) }
    ensures later { IsLater store.old store.new }
{
    if is_nil(first(given)) {
        return Ok(None);
    }
    match a_text(alloc, store, n, function, given) {
        Ok(text) => Ok(Some(text)),
        Err(stop) => Err(stop),
    }
}

/// A text that may be nil, or left out, for the empty one.
fn text_or_empty<'b>(
    alloc: Global,
    store: &mut Store<'b>,
    n: u8,
    function: &[u8],
    given: &[Value],
) -> Result<TextIn<'b>, Stop>
    requires { AllOf store.old given.now }
    ensures found { IfOk result (λ text. checks.text_or [] n function.now (values_seen store.old.texts given.now) ≡ Ok (text_bytes text)) }
    ensures same { OnOk result (store.new ≡ store.old) }
    ensures refused { IfErr result (Refuses (checks.text_or [] n function.now (values_seen store.old.texts given.now)) store.old store.new) }
    ensures of { IfErr result (StopOf store.new) }
    ensures later { IsLater store.old store.new }
{
    if is_nil(first(given)) {
        return Ok(TextIn::Kept(b""));
    }
    a_text(alloc, store, n, function, given)
}

/// Whether these bytes are the name of a tag, or none.
fn is_tag(name: &[u8]) -> bool
    ensures { result ≡ meaning.is_tag name.now }
{
    name.is_empty() || is_name(name)
}

/// This text, where it is the name of a tag, or empty.
fn a_tag<'b>(store: &mut Store<'b>, name: TextIn<'b>) -> Result<TextIn<'b>, Stop>
    ensures found { IfOk result (λ made. meaning.tested_name meaning.is_tag (Ok (text_bytes name.entry)) ≡ Ok (text_bytes made)) }
    ensures same { OnOk result (store.new ≡ store.old) }
    ensures refused { IfErr result (Refuses (meaning.tested_name meaning.is_tag (Ok (text_bytes name.entry))) store.old store.new) }
    ensures of { IfErr result (StopOf store.new) }
    ensures later { IsLater store.old store.new }
{
    if is_tag(name.as_slice()) {
        return Ok(name);
    }
    Err(fail(store, b"bad html name"))
}

/// The name of a tag; the empty text where there is none.
pub fn a_tag_name<'b>(
    alloc: Global,
    store: &mut Store<'b>,
    n: u8,
    function: &[u8],
    given: &[Value],
) -> Result<TextIn<'b>, Stop>
    requires { AllOf store.old given.now }
    ensures found { IfOk result (λ name. meaning.a_tag_name n function.now (values_seen store.old.texts given.now) ≡ Ok (text_bytes name)) }
    ensures same { OnOk result (store.new ≡ store.old) }
    ensures refused { IfErr result (Refuses (meaning.a_tag_name n function.now (values_seen store.old.texts given.now)) store.old store.new) }
    ensures of { IfErr result (StopOf store.new) }
    ensures later { IsLater store.old store.new }
{
    match text_or_empty(alloc, store, n, function, given) {
        Ok(name) => a_tag(store, name),
        Err(stop) => Err(stop),
    }
}

/// Whether options close a tag.
pub fn closing_option(
    alloc: Global,
    store: &mut Store,
    n: u8,
    function: &[u8],
    given: &[Value],
) -> Result<bool, Stop>
    requires { AllOf store.old given.now }
    ensures found { IfOk result (λ closed. meaning.closing_option store.old.heap n function.now (values_seen store.old.texts given.now) ≡ Ok closed) }
    ensures heap { OnOk result (store.new.heap ≡ store.old.heap) }
    ensures refused { IfErr result (Refuses (meaning.closing_option store.old.heap n function.now (values_seen store.old.texts given.now)) store.old store.new) }
    ensures of { IfErr result (StopOf store.new) }
    ensures later { IsLater store.old store.new }
{
    if is_nil(first(given)) {
        return Ok(false);
    }
    match table_in(given) {
        Some(table) => {
            let closing = field(store, Value::Table(table), b"selfClosing")?;
            Ok(is_true(closing))
        }
        None => Err(refuse_kind(alloc, store, n, function, b"table", given)),
    }
}
