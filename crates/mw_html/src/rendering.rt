//! The rendering of plain nodes.
ghost use Rattle.std.specs.Prelude.{◌≡◌, ◌<◌, ◌∷◌, [], ℕ, length, map, IfOk, OnOk, slice_index_or, MatchOption};
ghost use Rattle.std.specs.List.{AllByRecursion, flat_map};
ghost use Rattle.lua_heap.specs.Heap.{no_markup};
ghost use Rattle.mw_html.specs.Render as spec;
ghost use Rattle.mw_html.specs.Render.{given};
ghost use Rattle.mw_html.specs.Plain.{seen_pair, seen_style, seen_child, seen_node, seen_nodes, IsRendered, IsNodeOf, IsPairOf, IsStyleOf, IsChildOf};
ghost use Rattle.mw_html.specs.Sheet.{Leads};

use crate::names::closes_itself;
use crate::plain::{PlainChild, PlainNode, PlainPair, PlainStyle};
use crate::sheet::{End, Sheet};
use std::alloc::Global;
use wk_base::{Bytes, NoMemory};

/// What a rendering gives. The number is that of the nodes begun and the bytes given up to its end.
#[derive(Drop, Debug)]
pub enum Rendered {
    Text(Vec<u8>, u64),
    /// A node has more than 200 nodes above it.
    TooDeep(u64),
    /// The number exceeds the budget.
    Spent,
}

fn attr(texts: &[Bytes], pair: PlainPair, sheet: &mut Sheet) -> Result<(), NoMemory>
    requires { IsPairOf (length texts.now) pair }
    ensures { OnOk result (Leads sheet.old sheet.new (given (spec.attr (seen_pair texts.now pair)))) }
{
    sheet.put(b" ")?;
    sheet.put(texts[pair.name].as_slice())?;
    sheet.put(b"=\"")?;
    sheet.put_escaped(texts[pair.value].as_slice())?;
    sheet.put(b"\"")
}

fn attrs(texts: &[Bytes], pairs: &[PlainPair], sheet: &mut Sheet) -> Result<(), NoMemory>
    requires { AllByRecursion (IsPairOf (length texts.now)) pairs.now }
    ensures { OnOk result (Leads sheet.old sheet.new (given (flat_map spec.attr (map (seen_pair texts.now) pairs.now)))) }
{
    let mut rest = pairs;
    while let [pair, more @ ..] = rest {
        attr(texts, *pair, sheet)?;
        rest = more;
    }
    Ok(())
}

fn style(texts: &[Bytes], style: PlainStyle, sheet: &mut Sheet) -> Result<(), NoMemory>
    requires { IsStyleOf (length texts.now) style }
    ensures { OnOk result (Leads sheet.old sheet.new (given (spec.style (seen_style texts.now style)))) }
{
    match style {
        PlainStyle::Item(pair) => {
            sheet.put_escaped(texts[pair.name].as_slice())?;
            sheet.put(b":")?;
            sheet.put_escaped(texts[pair.value].as_slice())
        }
        PlainStyle::Text(at) => sheet.put_escaped(texts[at].as_slice()),
    }
}

fn next_style(texts: &[Bytes], next: PlainStyle, sheet: &mut Sheet) -> Result<(), NoMemory>
    requires { IsStyleOf (length texts.now) next }
    ensures { OnOk result (Leads sheet.old sheet.new (given (spec.next_style (seen_style texts.now next)))) }
{
    sheet.put(b";")?;
    style(texts, next, sheet)
}

fn more_styles(texts: &[Bytes], list: &[PlainStyle], sheet: &mut Sheet) -> Result<(), NoMemory>
    requires { AllByRecursion (IsStyleOf (length texts.now)) list.now }
    ensures { OnOk result (Leads sheet.old sheet.new (given (flat_map spec.next_style (map (seen_style texts.now) list.now)))) }
{
    let mut rest = list;
    while let [next, more @ ..] = rest {
        next_style(texts, *next, sheet)?;
        rest = more;
    }
    Ok(())
}

fn styles(texts: &[Bytes], list: &[PlainStyle], sheet: &mut Sheet) -> Result<(), NoMemory>
    requires { AllByRecursion (IsStyleOf (length texts.now)) list.now }
    ensures { OnOk result (Leads sheet.old sheet.new (given (spec.styles (map (seen_style texts.now) list.now)))) }
{
    let [first, rest @ ..] = list else {
        return Ok(());
    };
    sheet.put(b" style=\"")?;
    style(texts, *first, sheet)?;
    more_styles(texts, rest, sheet)?;
    sheet.put(b"\"")
}

fn is_void(texts: &[Bytes], node: &PlainNode) -> bool
    requires { node.now.name < length texts.now }
    ensures { result ≡ spec.is_void (seen_node texts.now node.now) }
{
    node.closed || closes_itself(texts[node.name].as_slice())
}

/// Whether a node's tag ends at once.
fn is_shut(texts: &[Bytes], node: &PlainNode) -> bool
    requires { node.now.name < length texts.now }
    ensures { result ≡ spec.is_shut (seen_node texts.now node.now) }
{
    !texts[node.name].as_slice().is_empty() && is_void(texts, node)
}

fn opening(texts: &[Bytes], node: &PlainNode, sheet: &mut Sheet) -> Result<(), NoMemory>
    requires { (nodes : ℕ) × IsNodeOf nodes (length texts.now) node.now }
    ensures { OnOk result (Leads sheet.old sheet.new (given (spec.opening (seen_node texts.now node.now)))) }
{
    let name = texts[node.name].as_slice();
    if name.is_empty() {
        return Ok(());
    }
    sheet.put(b"<")?;
    sheet.put(name)?;
    attrs(texts, node.attrs.as_slice(), sheet)?;
    styles(texts, node.styles.as_slice(), sheet)?;
    if is_void(texts, node) {
        sheet.put(b" />")
    } else {
        sheet.put(b">")
    }
}

fn closing(name: &[u8], sheet: &mut Sheet) -> Result<(), NoMemory>
    ensures { OnOk result (Leads sheet.old sheet.new (given (spec.closing name.now))) }
{
    if name.is_empty() {
        return Ok(());
    }
    sheet.put(b"</")?;
    sheet.put(name)?;
    sheet.put(b">")
}

/// The node at a place.
#[tactic(auto, using(crate::proofs::Nodes::read, crate::proofs::Nodes::found))]
fn node_at<'a>(nodes: &'a [PlainNode], texts: &[Bytes], at: usize) -> &'a PlainNode
    requires placed { AllByRecursion (IsNodeOf (length nodes.now) (length texts.now)) nodes.now }
    requires there { at < length nodes.now }
    ensures node { slice_index_or (seen_nodes texts.now nodes.now) at no_markup ≡ seen_node texts.now result.now }
    ensures of { IsNodeOf (length nodes.now) (length texts.now) result.now }
{
    let _texts = texts;
    &nodes[at]
}

/// The first child, and those behind it.
fn split(list: &[PlainChild]) -> Option<(PlainChild, &[PlainChild])>
    ensures { MatchOption result (list.now ≡ []) (λ p. list.now ≡ p.0 ∷ p.1.now) }
{
    match list {
        [] => None,
        [next, more @ ..] => Some((*next, more)),
    }
}

/// Gives a node that has room for so many levels of nodes, itself among them. It goes down by recursion, at most 201 levels.
#[cycle(levels)]
#[tactic(auto, unfolding(crate::specs::Render::node), using(crate::proofs::Nodes::node_on))]
fn node(
    nodes: &[PlainNode],
    texts: &[Bytes],
    room: usize,
    at: usize,
    sheet: &mut Sheet,
) -> Result<(), NoMemory>
    requires placed { AllByRecursion (IsNodeOf (length nodes.now) (length texts.now)) nodes.now }
    requires there { at < length nodes.now }
    ensures { OnOk result (Leads sheet.old sheet.new (spec.node (seen_nodes texts.now nodes.now) room at)) }
{
    if room == 0 {
        sheet.sink();
        return Ok(());
    }
    let here = node_at(nodes, texts, at);
    sheet.begin();
    opening(texts, here, sheet)?;
    inside(nodes, texts, room - 1, here, sheet)?;
    Ok(())
}

/// Gives what stands inside a node, with room for so many levels of nodes, and the end of its tag.
#[cycle(levels)]
#[tactic(auto, using(crate::proofs::Pieces::leads_on, crate::proofs::Pieces::leads_here))]
fn inside(
    nodes: &[PlainNode],
    texts: &[Bytes],
    room: usize,
    here: &PlainNode,
    sheet: &mut Sheet,
) -> Result<(), NoMemory>
    requires placed { AllByRecursion (IsNodeOf (length nodes.now) (length texts.now)) nodes.now }
    requires here { IsNodeOf (length nodes.now) (length texts.now) here.now }
    ensures { OnOk result (Leads sheet.old sheet.new (spec.inside (spec.node (seen_nodes texts.now nodes.now) room) (seen_node texts.now here.now))) }
{
    if is_shut(texts, here) {
        return Ok(());
    }
    children(nodes, texts, room, here.children.as_slice(), sheet)?;
    closing(texts[here.name].as_slice(), sheet)
}

/// Gives a child, which has room for so many levels of nodes.
#[cycle(levels)]
fn child(
    nodes: &[PlainNode],
    texts: &[Bytes],
    room: usize,
    child: PlainChild,
    sheet: &mut Sheet,
) -> Result<(), NoMemory>
    requires placed { AllByRecursion (IsNodeOf (length nodes.now) (length texts.now)) nodes.now }
    requires there { IsChildOf (length nodes.now) (length texts.now) child }
    ensures { OnOk result (Leads sheet.old sheet.new (spec.child (spec.node (seen_nodes texts.now nodes.now) room) (seen_child texts.now child))) }
{
    match child {
        PlainChild::Text(i) => sheet.put(texts[i].as_slice()),
        PlainChild::Node(i) => node(nodes, texts, room, i, sheet),
    }
}

/// Gives children, as long as more can be given.
#[cycle(levels)]
#[tactic(auto, using(crate::proofs::Nodes::children_on))]
fn children(
    nodes: &[PlainNode],
    texts: &[Bytes],
    room: usize,
    list: &[PlainChild],
    sheet: &mut Sheet,
) -> Result<(), NoMemory>
    requires placed { AllByRecursion (IsNodeOf (length nodes.now) (length texts.now)) nodes.now }
    requires there { AllByRecursion (IsChildOf (length nodes.now) (length texts.now)) list.now }
    ensures { OnOk result (Leads sheet.old sheet.new (spec.children (spec.node (seen_nodes texts.now nodes.now) room) (map (seen_child texts.now) list.now))) }
{
    let mut rest = list;
    while let Some((next, more)) = split(rest) {
        if !sheet.is_open() {
            return Ok(());
        }
        child(nodes, texts, room, next, sheet)?;
        rest = more;
    }
    Ok(())
}

/// The bytes of a node with all that is in it (Scribunto, HTML library, `tostring`), within a budget for their number and
/// that of the nodes begun.
pub fn render(
    alloc: Global,
    nodes: &[PlainNode],
    texts: &[Bytes],
    root: usize,
    budget: u64,
) -> Result<Rendered, NoMemory>
    requires placed { AllByRecursion (IsNodeOf (length nodes.now) (length texts.now)) nodes.now }
    requires there { root < length nodes.now }
    ensures { IfOk result (IsRendered budget (spec.render (seen_nodes texts.now nodes.now) root)) }
{
    let mut sheet = Sheet::new(alloc, budget);
    node(nodes, texts, 201, root, &mut sheet)?;
    let count = budget.saturating_sub(sheet.left);
    match sheet.end {
        End::Open => Ok(Rendered::Text(sheet.bytes, count)),
        End::Sunk => Ok(Rendered::TooDeep(count)),
        End::Spent => Ok(Rendered::Spent),
    }
}
