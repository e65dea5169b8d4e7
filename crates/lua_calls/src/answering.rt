//! What a function of the library gives that answers at once (manual 5; Scribunto).
ghost use Rattle.lua_tables.specs.LuaStoreParts.{IsLater};
ghost use Rattle.lua_tables.specs.LuaBasicSeen.{values_seen, AllOf, AnswerOf, Paid};
ghost use Rattle.lua_modules.specs.MwFramesScenes.{NamesOf};
ghost use Rattle.lua_calls.specs.Table.{once_seen};

use crate::table::AtOnce;
use lua_acts::plain_call;
use lua_gsubs::iterator_call;
use lua_tables::{Left, Stop, Store, Value, table_call};
use mw_frame::List;
use mw_htmls::{html_call, string_call};
use mw_texts::{FieldNames, text_call, ustring_call};
use std::alloc::Global;

/// What a function gives for these arguments, after its charge. `names` are those of the fields that `mw.text.tag` reads.
///
/// It is `Stop::Raised` exactly where it raises and its charge is covered, with the level whose place the caller puts in front, and
/// `Stop::Spent` exactly where its charge is not covered; then the store is as it was.
pub fn once_call(
    alloc: Global,
    store: &mut Store,
    left: &mut Left,
    names: FieldNames,
    which: AtOnce,
    args: &[Value],
) -> Result<List<Value>, Stop>
    requires args { AllOf store.old args.now }
    requires names { NamesOf store.old names }
    ensures answer { Paid (once_seen which (values_seen store.old.texts args.now) store.old.heap) store.old left.old store.new left.new result }
    ensures of { AnswerOf store.new result }
    ensures later { IsLater store.old store.new }
{
    match which {
        AtOnce::Basic(function) => plain_call(alloc, store, left, function, args),
        AtOnce::Strings(function) => string_call(alloc, store, left, function, args),
        AtOnce::Tables(function) => table_call(alloc, store, left, function, args),
        AtOnce::Ustrings(function) => ustring_call(alloc, store, left, function, args),
        AtOnce::Texts(function) => text_call(alloc, store, left, names, function, args),
        AtOnce::Iterators(function) => iterator_call(alloc, store, left, function, args),
        AtOnce::Html(function) => html_call(alloc, store, left, function, args),
    }
}
