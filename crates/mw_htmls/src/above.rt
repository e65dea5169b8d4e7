//! `done` and `allDone`: the objects above one (Scribunto, HTML library).
ghost use Rattle.std.specs.Prelude.{◌≡◌, Some, IfOk};
ghost use Rattle.mw_html.specs.LuaHeapHeap.{markup_at};
ghost use Rattle.lua_strings.specs.LuaHeapValue as kind;
ghost use Rattle.lua_strings.specs.LuaMeaningHtml.{found_or};
ghost use Rattle.lua_strings.specs.LuaMeaningHtmlNodes.{root_of};
ghost use Rattle.lua_strings.specs.LuaStoreParts.{IsMarkupOf, IsParentOf};
ghost use Rattle.lua_strings.specs.LuaBasicSeen.{Free, AnswerOf};
ghost use Rattle.mw_htmls.specs.Nodes.{parent_seen};
ghost use Rattle.mw_htmls.specs.Table.{done_on, all_done_on};

use lua_strings::{MarkupId, Stop, Store, Value, single};
use mw_html::{List, NoMemory};
use std::alloc::Global;

/// The object whose `tag` made this one.
fn parent(store: &Store, id: MarkupId) -> Option<MarkupId>
    requires { IsMarkupOf store.now id }
    ensures parent { parent_seen result ≡ (markup_at store.now.heap id.at).parent }
    ensures of { IsParentOf store.now result }
{
    store.markup(id).parent
}

/// The parent of an object, or the object itself.
fn above(store: &Store, id: MarkupId) -> MarkupId
    requires { IsMarkupOf store.now id }
    ensures above { kind.Markup result.at ≡ found_or id.at (markup_at store.now.heap id.at).parent }
    ensures of { IsMarkupOf store.now result }
{
    match parent(store, id) {
        Some(above) => above,
        None => id,
    }
}

/// `done()`: the parent, or the object itself.
pub fn done(alloc: Global, store: &mut Store, id: MarkupId) -> Result<List<Value>, Stop>
    requires { IsMarkupOf store.old id }
    ensures answer { Free (done_on id.at store.old.heap) store.new result }
    ensures of { AnswerOf store.new result }
    ensures same { store.new ≡ store.old }
{
    let object = above(store, id);
    let values = single(alloc, Value::Markup(object))?;
    Ok(values)
}

/// The object at the root above one. Each step goes to an object that was made earlier; more of them than a number counts don't fit
/// in memory.
fn root(store: &Store, id: MarkupId) -> Result<MarkupId, NoMemory>
    requires { IsMarkupOf store.now id }
    ensures root { IfOk result (λ root. root_of store.now.heap.markup id.at ≡ Some root.at) }
    ensures of { IfOk result (IsMarkupOf store.now) }
{
    let mut object = id;
    'up: for _ in 0..usize::MAX {
        match parent(store, object) {
            None => return Ok(object),
            Some(above) => object = above,
        }
    }
    Err(NoMemory)
}

/// `allDone()`: the root, or the object itself.
pub fn all_done(alloc: Global, store: &mut Store, id: MarkupId) -> Result<List<Value>, Stop>
    requires { IsMarkupOf store.old id }
    ensures answer { Free (all_done_on id.at store.old.heap) store.new result }
    ensures of { AnswerOf store.new result }
    ensures same { store.new ≡ store.old }
{
    let object = root(store, id)?;
    let values = single(alloc, Value::Markup(object))?;
    Ok(values)
}
