//! What the running function has (manual 2.6): the values of its variables.
ghost use Rattle.std.specs.Prelude.{◌≡◌, ℕ, List as Items, length};
ghost use Rattle.lua_code.specs.Seen.{place_seen};
ghost use Rattle.lua_state.specs.LuaSlotsSlots.{newest_function, read_place};
ghost use Rattle.lua_state.specs.LuaStoreParts.{IsOf};
ghost use Rattle.lua_state.specs.LuaStoreSeen.{StoreView, seen};
ghost use Rattle.lua_state.specs.LuaStackOf.{ActivationsOf, MayBeClosureOf};
ghost use Rattle.lua_state.specs.LuaStackSeen.{activations_seen, captured_by, registers_seen};
ghost use Rattle.lua_state.specs.Of.{StateOf};
ghost use Rattle.lua_state.specs.Seen.{slots_of};

use lua_code::Place;
use lua_state::{Activations, ClosureId, Slot, Stack, State, Store, Value, read};

/// The closure whose cells the running function has, if it stands in one.
pub fn running_closure(functions: &Activations) -> Option<ClosureId>
    ensures of { (s : StoreView) → ActivationsOf s functions.now → MayBeClosureOf s result }
    ensures cells { (s : StoreView) → captured_by s.heap result ≡ (newest_function (activations_seen s functions.now)).cells }
{
    match functions.newest() {
        Some(newest) => newest.closure,
        None => None,
    }
}

/// The value of a local variable.
pub fn variable<'m>(store: &Store, state: &State<'m>, place: Place) -> Value
    requires { StateOf store.now state.now }
    ensures of { IsOf store.now result }
    ensures value { seen store.now.texts result ≡ read_place (slots_of store.now state.now) (place_seen place) }
{
    let closure = running_closure(&state.functions);
    read(store, &state.regs, closure, place)
}

/// How many registers there are.
pub fn depth_of(regs: &Stack<Slot>) -> usize
    ensures { (texts : Items (Items ℕ)) → result ≡ length (registers_seen texts regs.now) }
{
    regs.len()
}
