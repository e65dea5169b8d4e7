//! A plain function is called.
ghost use Rattle.lua_graph.specs.LuaStoreParts.{IsLater};
ghost use Rattle.lua_basic.specs.Seen.{values_seen, AllOf, Paid, AnswerOf};
ghost use Rattle.lua_libs.specs.Table.{answer_of};

use crate::mw::{argument_expand, log};
use crate::table::PlainFunction;
use lua_basic::Stop;
use lua_basic::choosing::{kind, select};
use lua_basic::handlers::{get_metatable, set_metatable};
use lua_basic::numbers::to_number;
use lua_basic::raising::{assert, error};
use lua_basic::raw::{raw_equal, raw_get, raw_set};
use lua_basic::unpacking::unpack;
use lua_basic::walking::next;
use lua_graph::{Store, Value};
use std::alloc::Global;
use wk_base::{Left, List};

/// What a plain function gives for these arguments, after its charge.
///
/// It is `Stop::Raised` exactly where it raises and its charge is covered, with the level whose place the caller puts in front, and
/// `Stop::Spent` exactly where its charge is not covered; then the store is as it was.
pub fn plain_call(
    alloc: Global,
    store: &mut Store,
    left: &mut Left,
    which: PlainFunction,
    args: &[Value],
) -> Result<List<Value>, Stop>
    requires { AllOf store.old args.now }
    ensures answer { Paid (answer_of which (values_seen store.old.texts args.now) store.old.heap)
        store.old left.old store.new left.new result }
    ensures of { AnswerOf store.new result }
    ensures later { IsLater store.old store.new }
{
    match which {
        PlainFunction::Assert => assert(alloc, store, args),
        PlainFunction::Error => error(alloc, store, args),
        PlainFunction::GetMetatable => get_metatable(alloc, store, args),
        PlainFunction::SetMetatable => set_metatable(alloc, store, args),
        PlainFunction::Next => next(alloc, store, left, args),
        PlainFunction::RawEqual => raw_equal(alloc, store, args),
        PlainFunction::RawGet => raw_get(alloc, store, args),
        PlainFunction::RawSet => raw_set(alloc, store, left, args),
        PlainFunction::Select => select(alloc, store, args),
        PlainFunction::ToNumber => to_number(alloc, store, args),
        PlainFunction::Kind => kind(alloc, store, args),
        PlainFunction::Unpack => unpack(alloc, store, left, args),
        PlainFunction::Log => log(alloc, store, args),
        PlainFunction::Expand => argument_expand(alloc, store, args),
    }
}
