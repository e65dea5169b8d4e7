//! The tag of an object, with its attributes and styles.
ghost use Rattle.std.specs.Prelude.{◌≡◌, ◌∷◌, [], map, OnOk, MatchOption};
ghost use Rattle.std.specs.List.{AllByRecursion, flat_map};
ghost use Rattle.mw_html.specs.Render as spec;
ghost use Rattle.mw_html.specs.Render.{given};
ghost use Rattle.mw_html.specs.Sheet.{Leads};
ghost use Rattle.lua_strings.specs.LuaStoreSeen.{seen_pair, seen_style, seen_node};
ghost use Rattle.lua_strings.specs.LuaStoreParts.{IsTextOf, IsPairOf, IsStyleOf, IsNodeOf};

use lua_strings::{MarkupNode, MarkupStyle, Store, TextPair};
use mw_html::sheet::Sheet;
use mw_html::{NoMemory, closes_itself};

fn attr(store: &Store, pair: TextPair, sheet: &mut Sheet) -> Result<(), NoMemory>
    requires { IsPairOf store.now pair }
    ensures { OnOk result (Leads sheet.old sheet.new
        (given (spec.attr (seen_pair store.now.texts pair)))) }
{
    sheet.put(b" ")?;
    sheet.put(store.bytes(pair.name))?;
    sheet.put(b"=\"")?;
    sheet.put_escaped(store.bytes(pair.value))?;
    sheet.put(b"\"")
}

fn attrs(store: &Store, pairs: &[TextPair], sheet: &mut Sheet) -> Result<(), NoMemory>
    requires { AllByRecursion (IsPairOf store.now) pairs.now }
    ensures { OnOk result (Leads sheet.old sheet.new
        (given (flat_map spec.attr (map (seen_pair store.now.texts) pairs.now)))) }
{
    let mut rest = pairs;
    while let [pair, more @ ..] = rest {
        attr(store, *pair, sheet)?;
        rest = more;
    }
    Ok(())
}

fn style(store: &Store, style: MarkupStyle, sheet: &mut Sheet) -> Result<(), NoMemory>
    requires { IsStyleOf store.now style }
    ensures { OnOk result (Leads sheet.old sheet.new
        (given (spec.style (seen_style store.now.texts style)))) }
{
    match style {
        MarkupStyle::Item(pair) => {
            sheet.put_escaped(store.bytes(pair.name))?;
            sheet.put(b":")?;
            sheet.put_escaped(store.bytes(pair.value))
        }
        MarkupStyle::Text(text) => sheet.put_escaped(store.bytes(text)),
    }
}

fn next_style(store: &Store, next: MarkupStyle, sheet: &mut Sheet) -> Result<(), NoMemory>
    requires { IsStyleOf store.now next }
    ensures { OnOk result (Leads sheet.old sheet.new
        (given (spec.next_style (seen_style store.now.texts next)))) }
{
    sheet.put(b";")?;
    style(store, next, sheet)
}

fn more_styles(store: &Store, list: &[MarkupStyle], sheet: &mut Sheet) -> Result<(), NoMemory>
    requires { AllByRecursion (IsStyleOf store.now) list.now }
    ensures { OnOk result (Leads sheet.old sheet.new
        (given (flat_map spec.next_style (map (seen_style store.now.texts) list.now)))) }
{
    let mut rest = list;
    while let [next, more @ ..] = rest {
        next_style(store, *next, sheet)?;
        rest = more;
    }
    Ok(())
}

fn styles(store: &Store, list: &[MarkupStyle], sheet: &mut Sheet) -> Result<(), NoMemory>
    requires { AllByRecursion (IsStyleOf store.now) list.now }
    ensures { OnOk result (Leads sheet.old sheet.new
        (given (spec.styles (map (seen_style store.now.texts) list.now)))) }
{
    let [first, rest @ ..] = list else {
        return Ok(());
    };
    sheet.put(b" style=\"")?;
    style(store, *first, sheet)?;
    more_styles(store, rest, sheet)?;
    sheet.put(b"\"")
}

fn is_void(store: &Store, node: &MarkupNode) -> bool
    requires { IsTextOf store.now node.now.name }
    ensures { result ≡ spec.is_void (seen_node store.now.texts node.now) }
{
    node.closed || closes_itself(store.bytes(node.name))
}

/// Whether a node's tag ends at once.
pub fn is_shut(store: &Store, node: &MarkupNode) -> bool
    requires { IsTextOf store.now node.now.name }
    ensures { result ≡ spec.is_shut (seen_node store.now.texts node.now) }
{
    !store.bytes(node.name).is_empty() && is_void(store, node)
}

/// Gives the tag with which a node begins, if it has one.
pub fn opening(store: &Store, node: &MarkupNode, sheet: &mut Sheet) -> Result<(), NoMemory>
    requires { IsNodeOf store.now node.now }
    ensures { OnOk result (Leads sheet.old sheet.new
        (given (spec.opening (seen_node store.now.texts node.now)))) }
{
    let name = store.bytes(node.name);
    if name.is_empty() {
        return Ok(());
    }
    sheet.put(b"<")?;
    sheet.put(name)?;
    attrs(store, node.attrs.as_slice(), sheet)?;
    styles(store, node.styles.as_slice(), sheet)?;
    if is_void(store, node) {
        sheet.put(b" />")
    } else {
        sheet.put(b">")
    }
}

/// Gives the tag with which a node of this name ends, if it has one.
pub fn closing(name: &[u8], sheet: &mut Sheet) -> Result<(), NoMemory>
    ensures { OnOk result (Leads sheet.old sheet.new (given (spec.closing name.now))) }
{
    if name.is_empty() {
        return Ok(());
    }
    sheet.put(b"</")?;
    sheet.put(name)?;
    sheet.put(b">")
}
