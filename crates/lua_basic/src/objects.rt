//! Objects of `mw.html` (Scribunto, HTML library): which values they are, and their fields, which are their methods.
ghost use Rattle.std.specs.Prelude.{◌≡◌, ℕ, List};
ghost use Rattle.lua_meaning.specs.Html as meaning;
ghost use Rattle.lua_store.specs.Seen.{StoreView, seen};
ghost use Rattle.lua_store.specs.Parts.{IsOf};
ghost use Rattle.lua_basic.specs.Objects.{object_in};

use lua_store::{Library, MarkupId, Store, Value};

/// The object that a value is, if it is one.
pub fn object(value: Value) -> Option<MarkupId>
    ensures { result ≡ object_in value }
{
    match value {
        Value::Markup(id) => Some(id),
        Value::Nil => None,
        Value::Bool(_) => None,
        Value::Number(_) => None,
        Value::Text(_) => None,
        Value::Table(_) => None,
        Value::Closure(_) => None,
        Value::Builtin(_) => None,
    }
}

/// The method of this name: a field of each object.
pub fn method_named(name: &[u8]) -> Option<Library>
    ensures { result ≡ meaning.method_named name.now }
{
    if name == b"node".as_slice() {
        Some(Library::HtmlNode)
    } else if name == b"wikitext".as_slice() {
        Some(Library::HtmlWikitext)
    } else if name == b"newline".as_slice() {
        Some(Library::HtmlNewline)
    } else if name == b"tag".as_slice() {
        Some(Library::HtmlTag)
    } else if name == b"attr".as_slice() {
        Some(Library::HtmlAttr)
    } else if name == b"getAttr".as_slice() {
        Some(Library::HtmlGetAttr)
    } else if name == b"addClass".as_slice() {
        Some(Library::HtmlAddClass)
    } else if name == b"css".as_slice() {
        Some(Library::HtmlCss)
    } else if name == b"cssText".as_slice() {
        Some(Library::HtmlCssText)
    } else if name == b"done".as_slice() {
        Some(Library::HtmlDone)
    } else if name == b"allDone".as_slice() {
        Some(Library::HtmlAllDone)
    } else {
        None
    }
}

/// A method as a value, or nil.
fn method_or_nil(method: Option<Library>) -> Value
    ensures of { (s : StoreView) → IsOf s result }
    ensures value { (texts : List (List ℕ)) → seen texts result ≡ meaning.builtin_or_nil method }
{
    match method {
        Some(which) => Value::Builtin(which),
        None => Value::Nil,
    }
}

/// The field of an object at a key, or nil.
pub fn object_field(store: &Store, key: Value) -> Value
    requires { IsOf store.now key }
    ensures of { IsOf store.now result }
    ensures value { seen store.now.texts result
        ≡ meaning.field_of_object (seen store.now.texts key) }
{
    match key {
        Value::Text(name) => method_or_nil(method_named(store.bytes(name))),
        Value::Nil => Value::Nil,
        Value::Bool(_) => Value::Nil,
        Value::Number(_) => Value::Nil,
        Value::Table(_) => Value::Nil,
        Value::Closure(_) => Value::Nil,
        Value::Builtin(_) => Value::Nil,
        Value::Markup(_) => Value::Nil,
    }
}
