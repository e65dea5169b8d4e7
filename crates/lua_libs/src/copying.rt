//! `mw.clone` (Scribunto, mw library).
ghost use Rattle.lua_basic.specs.LuaMeaningMw as meaning;
ghost use Rattle.lua_graph.specs.LuaStoreParts.{IsLater};
ghost use Rattle.lua_basic.specs.Seen.{values_seen, AllOf, Paid, AnswerOf};

use lua_basic::Stop;
use lua_basic::values::{first, single};
use lua_graph::{Store, Value, copy};
use std::alloc::Global;
use wk_base::{Left, List};

/// `mw.clone(v)`: a copy, with all tables that are reached. It costs 8 steps for each of them, and 4 for each of their entries.
///
/// It is `Stop::Spent` exactly where its charge is not covered, and then the store is as it was. It never raises.
pub fn mw_clone(
    alloc: Global,
    store: &mut Store,
    left: &mut Left,
    args: &[Value],
) -> Result<List<Value>, Stop>
    requires { AllOf store.old args.now }
    ensures answer { Paid (meaning.clone (values_seen store.old.texts args.now) store.old.heap)
        store.old left.old store.new left.new result }
    ensures of { AnswerOf store.new result }
    ensures later { IsLater store.old store.new }
{
    let value = first(args);
    match copy(alloc, store, value, left)? {
        Some(made) => {
            let values = single(alloc, made)?;
            Ok(values)
        }
        None => Err(Stop::Spent),
    }
}
