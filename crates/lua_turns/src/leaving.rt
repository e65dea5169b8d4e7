//! Blocks and functions that are left.
ghost use Rattle.std.specs.Prelude.{◌≡◌, ℕ, List as Items, IfOk};
ghost use Rattle.lua_loops.specs.LuaSlotsCalls as calls;
ghost use Rattle.lua_operators.specs.LuaSlotsSlots.{newest_function, cut_to};
ghost use Rattle.lua_operators.specs.LuaStackOf.{ActivationsOf, RegistersOf};
ghost use Rattle.lua_operators.specs.LuaStackSeen.{activations_seen, registers_seen};
ghost use Rattle.lua_operators.specs.LuaStoreSeen.{StoreView};

use lua_loops::leaving::keep_oldest;
use lua_loops::{Activations, Slot, Stack};

/// The newest function is left. It had so many registers below its own.
fn leave_newest(functions: &mut Activations) -> usize
    ensures of { (s : StoreView) → ActivationsOf s functions.old → ActivationsOf s functions.new }
    ensures base { (s : StoreView) → result ≡ (newest_function (activations_seen s functions.old)).base }
    ensures rest { (s : StoreView) → activations_seen s functions.new ≡ calls.rest_of (activations_seen s functions.old) }
{
    match functions.leave() {
        Some(newest) => newest.base,
        None => 0,
    }
}

/// The newest function is left, and its registers are gone.
pub fn leave_function(regs: &mut Stack<Slot>, functions: &mut Activations)
    ensures registers { (s : StoreView) → RegistersOf s regs.old → RegistersOf s regs.new }
    ensures functions { (s : StoreView) → ActivationsOf s functions.old → ActivationsOf s functions.new }
    ensures cuts { (s : StoreView) → registers_seen s.texts regs.new ≡ cut_to (newest_function (activations_seen s functions.old)).base (registers_seen s.texts regs.old) }
    ensures rest { (s : StoreView) → activations_seen s functions.new ≡ calls.rest_of (activations_seen s functions.old) }
{
    let base = leave_newest(functions);
    keep_oldest(regs, base);
}
