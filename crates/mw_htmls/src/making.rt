//! `create` and `tag`: objects are made (Scribunto, HTML library).
ghost use Rattle.std.specs.Prelude.{◌≡◌, None, Some};
ghost use Rattle.lua_strings.specs.LuaMeaningHtml as meaning;
ghost use Rattle.lua_strings.specs.LuaMeaningHtmlNodes.{new_node};
ghost use Rattle.lua_strings.specs.LuaStoreParts.{IsMarkupOf, IsLater};
ghost use Rattle.lua_strings.specs.LuaBasicSeen.{values_seen, AllOf, Free, AnswerOf};
ghost use Rattle.mw_htmls.specs.Table.{tag_on};

use crate::arguments::{a_tag_name, closing_option};
use crate::nodes::{add_children, make};
use lua_strings::{MarkupChild, MarkupId, Stop, Store, Value, rest, single};
use mw_html::List;
use std::alloc::Global;

/// A new object is given.
fn give_new(
    alloc: Global,
    store: &mut Store,
    name: &[u8],
    closed: bool,
) -> Result<List<Value>, Stop>
    ensures answer { Free (meaning.makes store.old.heap (new_node name.now closed None)) store.new result }
    ensures of { AnswerOf store.new result }
    ensures later { IsLater store.old store.new }
{
    let id = make(alloc, store, name, closed, None)?;
    let values = single(alloc, Value::Markup(id))?;
    Ok(values)
}

/// `mw.html.create(name, options)`: an object without a parent.
pub fn create(alloc: Global, store: &mut Store, args: &[Value]) -> Result<List<Value>, Stop>
    requires { AllOf store.old args.now }
    ensures answer { Free (meaning.create (values_seen store.old.texts args.now) store.old.heap) store.new result }
    ensures of { AnswerOf store.new result }
    ensures later { IsLater store.old store.new }
{
    let name = a_tag_name(alloc, store, 1, b"create", args)?;
    let closed = closing_option(alloc, store, 2, b"create", rest(args))?;
    give_new(alloc, store, name.as_slice(), closed)
}

/// A new object is a child of another one, and is given.
fn give_child(
    alloc: Global,
    store: &mut Store,
    parent: MarkupId,
    name: &[u8],
    closed: bool,
) -> Result<List<Value>, Stop>
    requires { IsMarkupOf store.old parent }
    ensures answer { Free (meaning.makes_in store.old.heap parent.at (new_node name.now closed (Some parent.at))) store.new result }
    ensures of { AnswerOf store.new result }
    ensures later { IsLater store.old store.new }
{
    let id = make(alloc, store, name, closed, Some(parent))?;
    add_children(alloc, store, parent, &[MarkupChild::Node(id)])?;
    let values = single(alloc, Value::Markup(id))?;
    Ok(values)
}

/// `tag(name, options)`: a new object is added to this one, and is given.
pub fn tag(
    alloc: Global,
    store: &mut Store,
    id: MarkupId,
    given: &[Value],
) -> Result<List<Value>, Stop>
    requires id { IsMarkupOf store.old id }
    requires given { AllOf store.old given.now }
    ensures answer { Free (tag_on id.at (values_seen store.old.texts given.now) store.old.heap) store.new result }
    ensures of { AnswerOf store.new result }
    ensures later { IsLater store.old store.new }
{
    let name = a_tag_name(alloc, store, 2, b"tag", given)?;
    let closed = closing_option(alloc, store, 3, b"tag", rest(given))?;
    give_child(alloc, store, id, name.as_slice(), closed)
}
