//! A function of `string` or `math` is called.
ghost use Rattle.lua_basic.specs.LuaStoreParts.{IsLater};
ghost use Rattle.lua_basic.specs.Seen.{values_seen, AllOf, Paid, AnswerOf};
ghost use Rattle.lua_strings.specs.Table.{answer_of};

use crate::formatting::format;
use crate::making::{char_of, len, lower, rep, reverse, upper};
use crate::numbers::{abs, ceil, floor, fmod, max, min, pow};
use crate::paying::listed;
use crate::places::{byte, sub};
use crate::searching::{find, match_from};
use crate::table::StringFunction;
use lua_basic::{Left, Stop, Store, Value};
use lua_pattern::List;
use std::alloc::Global;

/// What a function of `string` or `math` gives for these arguments, after its charge.
///
/// It is `Stop::Raised` exactly where it raises and its charge is covered, with the level whose place the caller puts in front, and
/// `Stop::Spent` exactly where its charge is not covered; then the store is as it was.
pub fn string_call(
    alloc: Global,
    store: &mut Store,
    left: &mut Left,
    which: StringFunction,
    args: &[Value],
) -> Result<List<Value>, Stop>
    requires { AllOf store.old args.now }
    ensures answer { Paid (answer_of which (values_seen store.old.texts args.now) store.old.heap)
        store.old left.old store.new left.new result }
    ensures of { AnswerOf store.new result }
    ensures later { IsLater store.old store.new }
{
    match which {
        StringFunction::Byte => byte(alloc, store, left, args),
        StringFunction::Char => char_of(alloc, store, left, args),
        StringFunction::Find => find(alloc, store, left, args),
        StringFunction::Match => match_from(alloc, store, left, args),
        StringFunction::Format => format(alloc, store, left, args),
        StringFunction::Len => len(alloc, store, args),
        StringFunction::Lower => lower(alloc, store, left, args),
        StringFunction::Upper => upper(alloc, store, left, args),
        StringFunction::Rep => rep(alloc, store, left, args),
        StringFunction::Reverse => reverse(alloc, store, left, args),
        StringFunction::Sub => listed(alloc, sub(alloc, store, left, args)),
        StringFunction::Abs => abs(alloc, store, args),
        StringFunction::Ceil => ceil(alloc, store, args),
        StringFunction::Floor => floor(alloc, store, args),
        StringFunction::Fmod => fmod(alloc, store, args),
        StringFunction::Max => max(alloc, store, args),
        StringFunction::Min => min(alloc, store, args),
        StringFunction::Pow => pow(alloc, store, args),
    }
}
