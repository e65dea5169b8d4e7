//! An object of the store is made, and is changed: its node is taken out, and put in again.
ghost use Rattle.std.specs.Prelude.{◌≡◌, ◌++◌, ◌∷◌, [], List as Items, ℕ, map, IfOk, OnOk, MatchOption};
ghost use Rattle.std.specs.List.{AllByRecursion};
ghost use Rattle.mw_html.specs.LuaHeapHeap.{MarkupNode as SeenNode, markup_at};
ghost use Rattle.mw_html.specs.LuaHeapHeap as heap;
ghost use Rattle.lua_strings.specs.LuaMeaningHtmlNodes as meaning;
ghost use Rattle.lua_strings.specs.LuaStoreSeen.{StoreView, text_at, seen_node, seen_child};
ghost use Rattle.lua_strings.specs.LuaStoreParts.{IsTextOf, IsMarkupOf, IsParentOf, IsChildOf, IsNodeOf, IsLater};
ghost use Rattle.mw_htmls.specs.Nodes.{parent_seen, with_node};

use lua_strings::{MarkupChild, MarkupId, MarkupNode, Store, TextId};
use mw_html::{List, NoMemory};
use std::alloc::Global;

/// A node without attributes, styles and children.
fn new_node(alloc: Global, name: TextId, closed: bool, parent: Option<MarkupId>) -> MarkupNode
    ensures node { (texts : Items (Items ℕ)) → seen_node texts result ≡ meaning.new_node (text_at texts name.at) closed (parent_seen parent) }
    ensures of { (s : StoreView) → IsTextOf s name → IsParentOf s parent → IsNodeOf s result }
{
    MarkupNode {
        name,
        closed,
        parent,
        attrs: List::new(alloc),
        styles: List::new(alloc),
        children: List::new(alloc),
    }
}

/// A new object with this name; the empty one for no tag.
pub fn make(
    alloc: Global,
    store: &mut Store,
    name: &[u8],
    closed: bool,
    parent: Option<MarkupId>,
) -> Result<MarkupId, NoMemory>
    requires { IsParentOf store.old parent }
    ensures of { IfOk result (IsMarkupOf store.new) }
    ensures id { IfOk result (λ id. id.at ≡ (heap.new_markup store.old.heap (meaning.new_node name.now closed (parent_seen parent))).1) }
    ensures made { OnOk result (store.new.heap ≡ (heap.new_markup store.old.heap (meaning.new_node name.now closed (parent_seen parent))).0) }
    ensures later { IsLater store.old store.new }
{
    let text = store.text(name)?;
    let id = store.new_markup(new_node(alloc, text, closed, parent))?;
    Ok(id)
}

/// The node of an object, which has another one until it is put in again.
pub fn take(alloc: Global, store: &mut Store, id: MarkupId) -> MarkupNode
    requires { IsMarkupOf store.old id }
    ensures node { seen_node store.new.texts result ≡ markup_at store.old.heap id.at }
    ensures of { IsNodeOf store.new result }
    ensures taken { (other : SeenNode) × (store.new ≡ with_node store.old id.at other) }
    ensures id { IsMarkupOf store.new id }
    ensures later { IsLater store.old store.new }
{
    let name = store.markup(id).name;
    store.swap_markup(id, new_node(alloc, name, false, None))
}

/// The node of an object is this one.
pub fn put(store: &mut Store, id: MarkupId, node: MarkupNode)
    requires id { IsMarkupOf store.old id }
    requires node { IsNodeOf store.old node }
    ensures put { store.new ≡ with_node store.old id.at (seen_node store.old.texts node) }
    ensures later { IsLater store.old store.new }
{
    let _was = store.swap_markup(id, node);
}

/// The first of children, and those behind it.
fn split_children(children: &[MarkupChild]) -> Option<(MarkupChild, &[MarkupChild])>
    ensures { MatchOption result (children.now ≡ []) (λ p. children.now ≡ p.0 ∷ p.1.now) }
{
    match children {
        [child, more @ ..] => Some((*child, more)),
        [] => None,
    }
}

/// More children behind those that are there.
fn extend(children: &mut List<MarkupChild>, more: &[MarkupChild]) -> Result<(), NoMemory>
    ensures { OnOk result (children.new ≡ children.old ++ more.now) }
{
    let mut rest = more;
    'each: while let Some((child, behind)) = split_children(rest) {
        children.push(child)?;
        rest = behind;
    }
    Ok(())
}

/// An object has these children behind its own.
pub fn add_children(
    alloc: Global,
    store: &mut Store,
    id: MarkupId,
    children: &[MarkupChild],
) -> Result<(), NoMemory>
    requires id { IsMarkupOf store.old id }
    requires children { AllByRecursion (IsChildOf store.old) children.now }
    ensures added { OnOk result (store.new ≡ with_node store.old id.at (meaning.add_children (map (seen_child store.old.texts) children.now) (markup_at store.old.heap id.at))) }
    ensures later { IsLater store.old store.new }
{
    let mut node = take(alloc, store, id);
    extend(&mut node.children, children)?;
    put(store, id, node);
    Ok(())
}
