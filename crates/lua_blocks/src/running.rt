//! What the running function has (manual 2.6): the cells that it captured.
ghost use Rattle.std.specs.Prelude.{◌≡◌};
ghost use Rattle.lua_state.specs.LuaSlotsSlots.{newest_function};
ghost use Rattle.lua_state.specs.LuaStoreSeen.{StoreView};
ghost use Rattle.lua_state.specs.LuaStackOf.{ActivationsOf, MayBeClosureOf};
ghost use Rattle.lua_state.specs.LuaStackSeen.{activations_seen, captured_by};

use lua_state::{Activations, ClosureId};

/// The closure whose cells the running function has, if it stands in one.
pub fn running_closure(functions: &Activations) -> Option<ClosureId>
    ensures of { (s : StoreView) → ActivationsOf s functions.now → MayBeClosureOf s result }
    ensures cells { (s : StoreView) → captured_by s.heap result ≡ (newest_function (activations_seen s functions.now)).cells }
{
    match functions.newest() {
        Some(newest) => newest.closure,
        None => None,
    }
}
