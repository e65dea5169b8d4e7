//! Attributes and styles in which one is set, or from which one is removed: in its place, without a copy of the others (Scribunto, HTML
//! library).
ghost use Rattle.std.specs.Prelude.{◌≡◌, ◌<◌, ◌+◌, ◌++◌, ◌∷◌, [], ℕ, List as Items, bytes_eq, length, take, drop, map, slice_set, IfSome, OnOk, MatchOption};
ghost use Rattle.std.specs.List.{AllByRecursion};
ghost use Rattle.mw_html.specs.LuaHeapHeap.{MarkupStyle as SeenStyle};
ghost use Rattle.lua_strings.specs.LuaMeaningHtmlNodes as meaning;
ghost use Rattle.lua_strings.specs.LuaStoreSeen.{text_at, seen_pair, seen_style};
ghost use Rattle.lua_strings.specs.LuaStoreParts.{IsTextOf, IsPairOf, IsStyleOf};
ghost use Rattle.mw_htmls.specs.Nodes.{text_seen, pair_of, style_of};
ghost use Rattle.mw_htmls.specs.Settled.{new_items, settled_at, settled_seen};

use lua_strings::{MarkupStyle, Store, TextId, TextPair, Value};
use mw_html::{List, NoMemory};
use std::alloc::Global;
use std::mem::replace;

/// Whether two texts are one.
pub fn is_same_text(store: &Store, a: TextId, b: TextId) -> bool
    requires a { IsTextOf store.now a }
    requires b { IsTextOf store.now b }
    ensures { result ≡ bytes_eq (text_at store.now.texts a.at) (text_at store.now.texts b.at) }
{
    store.is_same(Value::Text(a), Value::Text(b))
}

/// The first of pairs, and those behind it.
pub fn split_pairs(pairs: &[TextPair]) -> Option<(TextPair, &[TextPair])>
    ensures { MatchOption result (pairs.now ≡ []) (λ p. pairs.now ≡ p.0 ∷ p.1.now) }
{
    match pairs {
        [pair, more @ ..] => Some((*pair, more)),
        [] => None,
    }
}

/// An item stands at a place.
fn put_at<T: Drop>(items: &mut Vec<T>, at: usize, item: T)
    requires { at < length items.old.items }
    ensures { items.new.items ≡ slice_set items.old.items at item }
{
    items[at] = item;
}

/// An item stands in the place of another one; or none does, where there is none.
fn settle_there<T: Drop>(items: &mut Vec<T>, at: usize, new: Option<T>)
    requires { at < length items.old.items }
    ensures { items.new.items ≡ take at items.old.items ++ (new_items new ++ drop (at + 1) items.old.items) }
{
    match new {
        Some(item) => put_at(items, at, item),
        None => {
            let _was = items.remove(at);
        }
    }
}

/// An item behind the others, if there is one.
fn push_new<T: Drop>(items: &mut Vec<T>, new: Option<T>) -> Result<(), NoMemory>
    ensures { OnOk result (items.new.items ≡ items.old.items ++ new_items new) }
{
    match new {
        Some(item) => match items.push(item) {
            Ok(_) => Ok(()),
            Err(_) => Err(NoMemory),
        },
        None => Ok(()),
    }
}

/// An item at a place, or behind the others where it has none.
fn settle<T: Drop>(items: &mut Vec<T>, place: Option<usize>, new: Option<T>) -> Result<(), NoMemory>
    requires { IfSome place (λ at. at < length items.old.items) }
    ensures { OnOk result (items.new.items ≡ settled_at place (new_items new) items.old.items) }
{
    match place {
        Some(at) => {
            settle_there(items, at, new);
            Ok(())
        }
        None => push_new(items, new),
    }
}

/// The attribute at a place.
fn pair_at(pairs: &[TextPair], place: usize) -> TextPair
    requires { place < length pairs.now }
    ensures { drop place pairs.now ≡ result ∷ drop (place + 1) pairs.now }
{
    pairs[place]
}

/// The place of the attribute of this name, if there is one.
fn pair_place(store: &Store, pairs: &[TextPair], name: TextId) -> Option<usize>
    requires pairs { AllByRecursion (IsPairOf store.now) pairs.now }
    requires name { IsTextOf store.now name }
    ensures within { IfSome result (λ at. at < length pairs.now) }
    ensures place { (new : Items (Items ℕ × Items ℕ)) → meaning.settled (meaning.is_attr (text_at store.now.texts name.at)) new (map (seen_pair store.now.texts) pairs.now) ≡ settled_seen (seen_pair store.now.texts) result new pairs.now }
{
    'places: for place in 0..pairs.len() {
        if is_same_text(store, pair_at(pairs, place).name, name) {
            return Some(place);
        }
    }
    None
}

/// An attribute, where there is a value.
fn pair_with(name: TextId, value: Option<TextId>) -> Option<TextPair>
    ensures { new_items result ≡ pair_of name value }
{
    match value {
        Some(value) => Some(TextPair { name, value }),
        None => None,
    }
}

/// Sets an attribute, or removes it.
pub fn set_pair(
    alloc: Global,
    store: &Store,
    pairs: &mut List<TextPair>,
    name: TextId,
    value: Option<TextId>,
) -> Result<(), NoMemory>
    requires pairs { AllByRecursion (IsPairOf store.now) pairs.old }
    requires name { IsTextOf store.now name }
    requires value { IfSome value (IsTextOf store.now) }
    ensures made { OnOk result (map (seen_pair store.now.texts) pairs.new ≡ meaning.attrs_with (text_at store.now.texts name.at) (text_seen store.now.texts value) (map (seen_pair store.now.texts) pairs.old)) }
    ensures of { OnOk result (AllByRecursion (IsPairOf store.now) pairs.new) }
{
    let mut items = replace(pairs, List::new(alloc)).into_vec();
    let place = pair_place(store, items.as_slice(), name);
    settle(&mut items, place, pair_with(name, value))?;
    *pairs = List::of_vec(items);
    Ok(())
}

/// Whether a style is one of this name.
fn is_item(store: &Store, style: MarkupStyle, name: TextId) -> bool
    requires style { IsStyleOf store.now style }
    requires name { IsTextOf store.now name }
    ensures { result ≡ meaning.is_item (text_at store.now.texts name.at) (seen_style store.now.texts style) }
{
    match style {
        MarkupStyle::Item(pair) => is_same_text(store, pair.name, name),
        MarkupStyle::Text(_) => false,
    }
}

/// The style at a place.
fn style_at(styles: &[MarkupStyle], place: usize) -> MarkupStyle
    requires { place < length styles.now }
    ensures { drop place styles.now ≡ result ∷ drop (place + 1) styles.now }
{
    styles[place]
}

/// The place of the style of this name, if there is one.
fn style_place(store: &Store, styles: &[MarkupStyle], name: TextId) -> Option<usize>
    requires styles { AllByRecursion (IsStyleOf store.now) styles.now }
    requires name { IsTextOf store.now name }
    ensures within { IfSome result (λ at. at < length styles.now) }
    ensures place { (new : Items SeenStyle) → meaning.settled (meaning.is_item (text_at store.now.texts name.at)) new (map (seen_style store.now.texts) styles.now) ≡ settled_seen (seen_style store.now.texts) result new styles.now }
{
    'places: for place in 0..styles.len() {
        if is_item(store, style_at(styles, place), name) {
            return Some(place);
        }
    }
    None
}

/// A style, where there is a value.
fn style_with(name: TextId, value: Option<TextId>) -> Option<MarkupStyle>
    ensures { new_items result ≡ style_of name value }
{
    match value {
        Some(value) => Some(MarkupStyle::Item(TextPair { name, value })),
        None => None,
    }
}

/// Sets a style, or removes it.
pub fn set_item(
    alloc: Global,
    store: &Store,
    styles: &mut List<MarkupStyle>,
    name: TextId,
    value: Option<TextId>,
) -> Result<(), NoMemory>
    requires styles { AllByRecursion (IsStyleOf store.now) styles.old }
    requires name { IsTextOf store.now name }
    requires value { IfSome value (IsTextOf store.now) }
    ensures made { OnOk result (map (seen_style store.now.texts) styles.new ≡ meaning.styles_with (text_at store.now.texts name.at) (text_seen store.now.texts value) (map (seen_style store.now.texts) styles.old)) }
    ensures of { OnOk result (AllByRecursion (IsStyleOf store.now) styles.new) }
{
    let mut items = replace(styles, List::new(alloc)).into_vec();
    let place = style_place(store, items.as_slice(), name);
    settle(&mut items, place, style_with(name, value))?;
    *styles = List::of_vec(items);
    Ok(())
}
