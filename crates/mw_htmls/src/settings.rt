//! An attribute, a style or a text of styles of an object is set (Scribunto, HTML library).
ghost use Rattle.std.specs.Prelude.{◌≡◌, map, IfOk, IfSome, OnOk};
ghost use Rattle.std.specs.List.{AllByRecursion};
ghost use Rattle.mw_html.specs.LuaHeapHeap.{markup_at, set_markup_in};
ghost use Rattle.lua_strings.specs.LuaMeaningHtmlNodes as meaning;
ghost use Rattle.lua_strings.specs.LuaStoreSeen.{seen_style};
ghost use Rattle.lua_strings.specs.LuaStoreParts.{IsTextOf, IsStyleOf, IsMarkupOf, IsLater};
ghost use Rattle.mw_htmls.specs.Nodes.{bytes_in, text_seen, style_texts, with_node, attrs_set, styles_set};

use crate::lists::{set_item, set_pair};
use crate::nodes::{put, take};
use lua_strings::{MarkupId, MarkupStyle, Store, TextId};
use mw_html::{List, NoMemory};
use std::alloc::Global;

/// An object has these styles.
fn put_styles(alloc: Global, store: &mut Store, id: MarkupId, styles: List<MarkupStyle>)
    requires id { IsMarkupOf store.old id }
    requires styles { AllByRecursion (IsStyleOf store.old) styles }
    ensures put { store.new ≡ with_node store.old id.at (styles_set (map (seen_style store.old.texts) styles) (markup_at store.old.heap id.at)) }
    ensures later { IsLater store.old store.new }
{
    let mut node = take(alloc, store, id);
    node.styles = styles;
    put(store, id, node);
}

/// A text, where there is one.
fn text_if_any(store: &mut Store, bytes: Option<&[u8]>) -> Result<Option<TextId>, NoMemory>
    ensures of { IfOk result (λ text. IfSome text (IsTextOf store.new)) }
    ensures there { IfOk result (λ text. text_seen store.new.texts text ≡ bytes_in bytes.entry) }
    ensures heap { store.new.heap ≡ store.old.heap }
    ensures later { IsLater store.old store.new }
{
    match bytes {
        Some(some) => {
            let text = store.text(some)?;
            Ok(Some(text))
        }
        None => Ok(None),
    }
}

/// An attribute is set, or removed where there is no value.
pub fn set_attr(
    alloc: Global,
    store: &mut Store,
    id: MarkupId,
    name: &[u8],
    value: Option<&[u8]>,
) -> Result<(), NoMemory>
    requires { IsMarkupOf store.old id }
    ensures set { OnOk result (store.new.heap ≡ set_markup_in store.old.heap id.at (attrs_set (meaning.attrs_with name.now (bytes_in value.entry) (markup_at store.old.heap id.at).attrs) (markup_at store.old.heap id.at))) }
    ensures later { IsLater store.old store.new }
{
    let key = store.text(name)?;
    let text = text_if_any(store, value)?;
    let mut node = take(alloc, store, id);
    set_pair(alloc, store, &mut node.attrs, key, text)?;
    put(store, id, node);
    Ok(())
}

/// A style is set, or removed where there is no value.
pub fn set_style(
    alloc: Global,
    store: &mut Store,
    id: MarkupId,
    name: &[u8],
    value: Option<&[u8]>,
) -> Result<(), NoMemory>
    requires { IsMarkupOf store.old id }
    ensures set { OnOk result (store.new.heap ≡ set_markup_in store.old.heap id.at (meaning.set_style name.now (bytes_in value.entry) (markup_at store.old.heap id.at))) }
    ensures later { IsLater store.old store.new }
{
    let key = store.text(name)?;
    let text = text_if_any(store, value)?;
    let mut node = take(alloc, store, id);
    set_item(alloc, store, &mut node.styles, key, text)?;
    put(store, id, node);
    Ok(())
}

/// A text of styles alone, or none.
fn one_text(alloc: Global, text: Option<TextId>) -> Result<List<MarkupStyle>, NoMemory>
    ensures { IfOk result (λ styles. styles ≡ style_texts text) }
{
    let mut styles = List::new(alloc);
    if let Some(text) = text {
        styles.push(MarkupStyle::Text(text))?;
    }
    Ok(styles)
}

/// All styles are this text, or none.
fn set_all_styles(
    alloc: Global,
    store: &mut Store,
    id: MarkupId,
    text: Option<&[u8]>,
) -> Result<(), NoMemory>
    requires { IsMarkupOf store.old id }
    ensures set { OnOk result (store.new.heap ≡ set_markup_in store.old.heap id.at (styles_set (meaning.styles_of (bytes_in text.entry)) (markup_at store.old.heap id.at))) }
    ensures later { IsLater store.old store.new }
{
    let kept = text_if_any(store, text)?;
    let styles = one_text(alloc, kept)?;
    put_styles(alloc, store, id, styles);
    Ok(())
}

/// An attribute is set, or removed where there is no value; `style` is all styles.
pub fn set_attribute(
    alloc: Global,
    store: &mut Store,
    id: MarkupId,
    name: &[u8],
    value: Option<&[u8]>,
) -> Result<(), NoMemory>
    requires { IsMarkupOf store.old id }
    ensures set { OnOk result (store.new.heap ≡ set_markup_in store.old.heap id.at (meaning.set_attribute name.now (bytes_in value.entry) (markup_at store.old.heap id.at))) }
    ensures later { IsLater store.old store.new }
{
    if name == b"style".as_slice() {
        set_all_styles(alloc, store, id, value)
    } else {
        set_attr(alloc, store, id, name, value)
    }
}

/// A text of styles is added.
pub fn add_style_text(
    alloc: Global,
    store: &mut Store,
    id: MarkupId,
    text: &[u8],
) -> Result<(), NoMemory>
    requires { IsMarkupOf store.old id }
    ensures added { OnOk result (store.new.heap ≡ set_markup_in store.old.heap id.at (meaning.add_style_text text.now (markup_at store.old.heap id.at))) }
    ensures later { IsLater store.old store.new }
{
    let kept = store.text(text)?;
    let mut node = take(alloc, store, id);
    node.styles.push(MarkupStyle::Text(kept))?;
    put(store, id, node);
    Ok(())
}
