//! An object with all that is in it. It goes down by recursion, at most 201 levels.
ghost use Rattle.std.specs.Prelude.{◌≡◌, ◌∷◌, [], map, OnOk, MatchOption};
ghost use Rattle.std.specs.List.{AllByRecursion};
ghost use Rattle.mw_html.specs.Render as spec;
ghost use Rattle.mw_html.specs.Sheet.{Leads};
ghost use Rattle.lua_strings.specs.LuaStoreSeen.{seen_child, seen_node};
ghost use Rattle.lua_strings.specs.LuaStoreParts.{IsMarkupOf, IsChildOf, IsNodeOf};

use crate::tags::{closing, is_shut, opening};
use lua_strings::{MarkupChild, MarkupId, MarkupNode, Store};
use mw_html::NoMemory;
use mw_html::sheet::Sheet;

/// The first child, and those behind it.
fn split(list: &[MarkupChild]) -> Option<(MarkupChild, &[MarkupChild])>
    ensures { MatchOption result (list.now ≡ []) (λ p. list.now ≡ p.0 ∷ p.1.now) }
{
    match list {
        [] => None,
        [next, more @ ..] => Some((*next, more)),
    }
}

/// Gives an object that has room for so many levels of objects, itself among them.
#[cycle(levels)]
#[tactic(auto, unfolding(mw_html::specs::Render::node), using(crate::proofs::Pieces::node_on))]
pub fn node(store: &Store, room: usize, at: MarkupId, sheet: &mut Sheet) -> Result<(), NoMemory>
    requires { IsMarkupOf store.now at }
    ensures { OnOk result (Leads sheet.old sheet.new (spec.node store.now.heap.markup room at.at)) }
{
    if room == 0 {
        sheet.sink();
        return Ok(());
    }
    let here = store.markup(at);
    sheet.begin();
    opening(store, here, sheet)?;
    inside(store, room - 1, here, sheet)?;
    Ok(())
}

/// Gives what stands inside a node, with room for so many levels of objects, and the end of its tag.
#[cycle(levels)]
#[tactic(auto, using(crate::proofs::Pieces::leads_on, crate::proofs::Pieces::leads_here))]
fn inside(store: &Store, room: usize, here: &MarkupNode, sheet: &mut Sheet) -> Result<(), NoMemory>
    requires { IsNodeOf store.now here.now }
    ensures { OnOk result (Leads sheet.old sheet.new
        (spec.inside (spec.node store.now.heap.markup room) (seen_node store.now.texts here.now))) }
{
    if is_shut(store, here) {
        return Ok(());
    }
    children(store, room, here.children.as_slice(), sheet)?;
    closing(store.bytes(here.name), sheet)
}

/// Gives a child, which has room for so many levels of objects.
#[cycle(levels)]
fn child(store: &Store, room: usize, child: MarkupChild, sheet: &mut Sheet) -> Result<(), NoMemory>
    requires { IsChildOf store.now child }
    ensures { OnOk result (Leads sheet.old sheet.new
        (spec.child (spec.node store.now.heap.markup room) (seen_child store.now.texts child))) }
{
    match child {
        MarkupChild::Text(text) => sheet.put(store.bytes(text)),
        MarkupChild::Node(at) => node(store, room, at, sheet),
    }
}

/// Gives children, as long as more can be given.
#[cycle(levels)]
#[tactic(auto, using(crate::proofs::Pieces::children_on))]
fn children(
    store: &Store,
    room: usize,
    list: &[MarkupChild],
    sheet: &mut Sheet,
) -> Result<(), NoMemory>
    requires { AllByRecursion (IsChildOf store.now) list.now }
    ensures { OnOk result (Leads sheet.old sheet.new
        (spec.children (spec.node store.now.heap.markup room)
        (map (seen_child store.now.texts) list.now))) }
{
    let mut rest = list;
    while let Some((next, more)) = split(rest) {
        if !sheet.is_open() {
            return Ok(());
        }
        child(store, room, next, sheet)?;
        rest = more;
    }
    Ok(())
}
