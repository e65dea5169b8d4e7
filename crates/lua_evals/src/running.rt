//! What the running function has (manual 2.6): the values of its variables, its values of `...`, and its module.
ghost use Rattle.std.specs.Prelude.{◌≡◌, length, IfOk};
ghost use Rattle.lua_code.specs.Seen.{place_seen};
ghost use Rattle.lua_operators.specs.LuaSlotsSlots.{newest_function, read_place};
ghost use Rattle.lua_operators.specs.LuaStoreParts.{IsOf};
ghost use Rattle.lua_operators.specs.LuaStoreSeen.{StoreView, seen};
ghost use Rattle.lua_operators.specs.LuaStackOf.{ActivationsOf, MayBeClosureOf, ValuesOf};
ghost use Rattle.lua_operators.specs.LuaStackSeen.{activations_seen, captured_by, values_seen};
ghost use Rattle.lua_state.specs.Of.{StateOf};
ghost use Rattle.lua_state.specs.Seen.{slots_of};

use lua_code::{NoMemory, Place};
use lua_operators::{Store, Value, read};
use lua_state::{Activations, ClosureId, State, Values};
use std::alloc::Global;

/// The closure whose cells the running function has, if it stands in one.
pub fn running_closure(functions: &Activations) -> Option<ClosureId>
    ensures of { (s : StoreView) → ActivationsOf s functions.now → MayBeClosureOf s result }
    ensures cells { (s : StoreView) → captured_by s.heap result ≡ (newest_function (activations_seen s functions.now)).cells }
{
    match functions.newest() {
        Some(newest) => newest.closure,
        None => None,
    }
}

/// The value of a local variable.
pub fn variable<'m>(store: &Store, state: &State<'m>, place: Place) -> Value
    requires { StateOf store.now state.now }
    ensures of { IsOf store.now result }
    ensures value { seen store.now.texts result ≡ read_place (slots_of store.now state.now) (place_seen place) }
{
    let closure = running_closure(&state.functions);
    read(store, &state.regs, closure, place)
}

/// How many values `...` has.
pub fn count_dots(functions: &Activations) -> usize
    ensures { (s : StoreView) → result ≡ length (newest_function (activations_seen s functions.now)).dots }
{
    match functions.newest() {
        Some(newest) => newest.dots.len(),
        None => 0,
    }
}

/// The values of `...`.
pub fn copy_dots(alloc: Global, functions: &Activations) -> Result<Values, NoMemory>
    ensures of { IfOk result (λ values. (s : StoreView) → ActivationsOf s functions.now → ValuesOf s values) }
    ensures values { IfOk result (λ values. (s : StoreView) → values_seen s.texts values ≡ (newest_function (activations_seen s functions.now)).dots) }
{
    match functions.newest() {
        Some(newest) => {
            let values = newest.dots.copy(alloc)?;
            Ok(values)
        }
        None => Ok(Values::new(alloc)),
    }
}
