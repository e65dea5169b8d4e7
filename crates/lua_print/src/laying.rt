//! The bytes of items that are laid out.
ghost use Rattle.std.specs.Prelude.{◌≡◌, ◌+◌, ◌^◌, ◌<◌, ◌++◌, IfOk, OnOk};
ghost use Rattle.lua_print.specs.Layout.{one_more, level, indent, space_unless, before_item, is_tight, laid};

use crate::items::{Gap, Item};
use crate::spacing::{is_closing, is_opening, is_outdented, is_tight};
use lua_reading::TokenClass;
use lua_syntax::{NoMemory, WkBaseBytes as Bytes};
use std::alloc::Global;

/// Adds bytes.
fn put(made: &mut Vec<u8>, bytes: &[u8]) -> Result<(), NoMemory>
    ensures { OnOk result (made.new.items ≡ made.old.items ++ bytes.now) }
{
    match made.extend_from_slice(bytes) {
        Ok(_) => Ok(()),
        Err(_) => Err(NoMemory),
    }
}

/// One more, where this holds.
fn one_more(more: bool, n: usize) -> usize
    requires { n + 1 < 2 ^ 64 }
    ensures { result ≡ one_more more n }
{
    if more { n + 1 } else { n }
}

/// The level of an item, where so many items before it open a level and so many close one.
fn level(opened: usize, closed: usize, class: Option<TokenClass>) -> usize
    ensures { result ≡ level opened closed class }
{
    let inside = opened.saturating_sub(closed);
    if is_outdented(class) {
        inside.saturating_sub(1)
    } else {
        inside
    }
}

/// Adds two spaces for each level.
fn put_indent(made: &mut Vec<u8>, level: usize) -> Result<(), NoMemory>
    ensures { OnOk result (made.new.items ≡ made.old.items ++ indent level) }
{
    for _done in 0..level {
        put(made, b"  ")?;
    }
    Ok(())
}

/// Adds a space, but where two items stand beside one another.
fn put_space(made: &mut Vec<u8>, tight: bool) -> Result<(), NoMemory>
    ensures { OnOk result (made.new.items ≡ made.old.items ++ space_unless tight) }
{
    if tight {
        return Ok(());
    }
    put(made, b" ")
}

/// Adds line breaks, and the spaces of the level.
fn put_lines(made: &mut Vec<u8>, line_feeds: &[u8], level: usize) -> Result<(), NoMemory>
    ensures { OnOk result (made.new.items ≡ made.old.items ++ (line_feeds.now ++ indent level)) }
{
    put(made, line_feeds)?;
    put_indent(made, level)
}

/// Adds what stands before an item.
fn put_gap(made: &mut Vec<u8>, gap: Gap, level: usize, tight: bool) -> Result<(), NoMemory>
    ensures { OnOk result (made.new.items ≡ made.old.items ++ before_item gap level tight) }
{
    match gap {
        Gap::First => Ok(()),
        Gap::Beside => put_space(made, tight),
        Gap::Below => put_lines(made, b"\n", level),
        Gap::Apart => put_lines(made, b"\n\n", level),
    }
}

/// Adds an item, with what stands before it.
fn put_item(
    made: &mut Vec<u8>,
    level: usize,
    before: Option<TokenClass>,
    item: &Item<'_>,
) -> Result<(), NoMemory>
    ensures { OnOk result (made.new.items ≡ made.old.items ++ (before_item item.now.gap level (is_tight before item.now.class item.now.bytes) ++ item.now.bytes)) }
{
    let bytes = item.bytes();
    put_gap(
        made,
        item.gap(),
        level,
        is_tight(before, item.class(), bytes),
    )?;
    put(made, bytes)
}

/// The items laid out.
pub fn laid(alloc: Global, items: &[Item<'_>]) -> Result<Bytes, NoMemory>
    ensures { IfOk result (λ made. made ≡ laid items.now) }
{
    let mut made = Vec::new(alloc);
    if items.is_empty() {
        return Ok(Bytes::of_vec(made));
    }
    let mut opened = 0;
    let mut closed = 0;
    let mut before = None;
    for item in items {
        let class = item.class();
        put_item(&mut made, level(opened, closed, class), before, item)?;
        opened = one_more(is_opening(class), opened);
        closed = one_more(is_closing(class), closed);
        before = class;
    }
    put(&mut made, b"\n")?;
    Ok(Bytes::of_vec(made))
}
