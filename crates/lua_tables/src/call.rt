//! A function of `table` is called.
ghost use Rattle.lua_basic.specs.LuaStoreParts.{IsLater};
ghost use Rattle.lua_basic.specs.Seen.{values_seen, AllOf, Paid, AnswerOf};
ghost use Rattle.lua_tables.specs.Table.{answer_of};

use crate::counting::maxn;
use crate::inserting::insert;
use crate::joining::concat;
use crate::removing::remove;
use crate::sorting::sort;
use crate::table::TableFunction;
use lua_basic::{Left, List, Stop, Store, Value};
use std::alloc::Global;

/// What a function of `table` gives for these arguments, after its charge.
///
/// It is `Stop::Raised` exactly where it raises and its charge is covered, with the level whose place the caller puts in front, and
/// `Stop::Spent` exactly where its charge is not covered; then the store is as it was.
pub fn table_call(
    alloc: Global,
    store: &mut Store,
    left: &mut Left,
    which: TableFunction,
    args: &[Value],
) -> Result<List<Value>, Stop>
    requires { AllOf store.old args.now }
    ensures answer { Paid (answer_of which (values_seen store.old.texts args.now) store.old.heap) store.old left.old store.new left.new result }
    ensures of { AnswerOf store.new result }
    ensures later { IsLater store.old store.new }
{
    match which {
        TableFunction::Concat => concat(alloc, store, left, args),
        TableFunction::Insert => insert(alloc, store, left, args),
        TableFunction::Maxn => maxn(alloc, store, left, args),
        TableFunction::Remove => remove(alloc, store, left, args),
        TableFunction::Sort => sort(alloc, store, left, args),
    }
}
