//! `tag`: an element of HTML as a text (Scribunto, mw.text.tag).
ghost use Rattle.std.specs.Prelude.{◌≡◌, List as Items, ℕ, IfSome};
ghost use Rattle.mw_ustrings.specs.LuaHeapHeap.{Heap};
ghost use Rattle.mw_ustrings.specs.LuaHeapProc.{Proc};
ghost use Rattle.mw_ustrings.specs.LuaStoreSeen.{StoreView};
ghost use Rattle.mw_ustrings.specs.LuaStoreParts.{IsTableOf, IsLater};
ghost use Rattle.mw_ustrings.specs.LuaBasicSeen.{values_seen, AllOf, Paid, AnswerOf};
ghost use Rattle.mw_ustrings.specs.MwFramesScenes.{NamesOf};
ghost use Rattle.mw_texts.specs.Found.{found_parts};
ghost use Rattle.mw_ustrings.specs.LuaMeaningTexts as meaning;

use lua_string::List;
use mw_ustrings::{FieldNames, Left, Stop, Store, TableId, Value, second, tag_of, third};
use std::alloc::Global;

/// The first of the arguments, where it is a table, which then has the parts as fields.
fn table_in(given: &[Value]) -> Option<TableId>
    ensures of { (s : StoreView) → AllOf s given.now → IfSome result (IsTableOf s) }
    ensures split { (texts : Items (Items ℕ)) (h : Heap Proc)
        → meaning.tag_parts h (values_seen texts given.now)
        ≡ found_parts h (values_seen texts given.now) result }
{
    match given {
        [Value::Table(id), ..] => Some(*id),
        _ => None,
    }
}

/// `mw.text.tag(name, attrs, content)`, or with these as fields of a table: the tag with its attributes in order. `names` are those of
/// the fields.
pub fn tag(
    alloc: Global,
    store: &mut Store,
    left: &mut Left,
    names: FieldNames,
    args: &[Value],
) -> Result<List<Value>, Stop>
    requires given { AllOf store.old args.now }
    requires names { NamesOf store.old names }
    ensures answer { Paid (meaning.tag (values_seen store.old.texts args.now) store.old.heap)
        store.old left.old store.new left.new result }
    ensures of { AnswerOf store.new result }
    ensures later { IsLater store.old store.new }
{
    match table_in(args) {
        Some(table) => {
            let name = store.get(table, Value::Text(names.name));
            let attrs = store.get(table, Value::Text(names.attrs));
            let content = store.get(table, Value::Text(names.content));
            tag_of(alloc, store, left, &[name], attrs, content)
        }
        None => tag_of(alloc, store, left, args, second(args), third(args)),
    }
}
