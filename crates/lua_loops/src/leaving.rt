//! Registers, functions and calls that are given back.
ghost use Rattle.std.specs.Prelude.{◌≡◌, ℕ, List as Items, IfOk};
ghost use Rattle.page_run.specs.WkBaseDeclaredLeftLeft.{Left as Allowance};
ghost use Rattle.lua_state.specs.LuaSlotsCalls as calls;
ghost use Rattle.lua_code.specs.LuaSlotsLoops as loops;
ghost use Rattle.lua_state.specs.LuaSlotsPoints.{SFrame, Exits, Now};
ghost use Rattle.lua_state.specs.LuaSlotsSlots.{Slots, newest_function, cut_to, cut};
ghost use Rattle.lua_state.specs.LuaStoreSeen.{StoreView};
ghost use Rattle.lua_state.specs.LuaStackOf.{ActivationsOf, FocusOf, JumpOf, RegistersOf};
ghost use Rattle.lua_state.specs.LuaStackSeen.{activations_seen, focus_seen, jump_seen, registers_seen};
ghost use Rattle.lua_state.specs.Makes.{Makes};
ghost use Rattle.lua_state.specs.Of.{StateOf};
ghost use Rattle.lua_state.specs.Seen.{frames_of, slots_of};

use crate::exits::nothing;
use lua_code::NoMemory;
use lua_state::{Activations, Focus, Jump, Left, Slot, Stack, State, Store, Turn, leave_call};
use std::alloc::Global;

/// The oldest so many registers stay.
pub fn keep_oldest(regs: &mut Stack<Slot>, depth: usize)
    ensures of { (s : StoreView) → RegistersOf s regs.old → RegistersOf s regs.new }
    ensures cuts { (texts : Items (Items ℕ)) → registers_seen texts regs.new ≡ cut_to depth (registers_seen texts regs.old) }
{
    regs.cut(depth);
}

/// The newest function is left. It had so many registers below its own.
fn leave_newest(functions: &mut Activations) -> usize
    ensures of { (s : StoreView) → ActivationsOf s functions.old → ActivationsOf s functions.new }
    ensures base { (s : StoreView) → result ≡ (newest_function (activations_seen s functions.old)).base }
    ensures rest { (s : StoreView) → activations_seen s functions.new ≡ calls.rest_of (activations_seen s functions.old) }
{
    match functions.leave() {
        Some(newest) => newest.base,
        None => 0,
    }
}

/// The newest function is left, and its registers are gone.
fn leave_function(regs: &mut Stack<Slot>, functions: &mut Activations)
    ensures registers { (s : StoreView) → RegistersOf s regs.old → RegistersOf s regs.new }
    ensures functions { (s : StoreView) → ActivationsOf s functions.old → ActivationsOf s functions.new }
    ensures cuts { (s : StoreView) → registers_seen s.texts regs.new ≡ cut_to (newest_function (activations_seen s functions.old)).base (registers_seen s.texts regs.old) }
    ensures rest { (s : StoreView) → activations_seen s functions.new ≡ calls.rest_of (activations_seen s functions.old) }
{
    let base = leave_newest(functions);
    keep_oldest(regs, base);
}

/// The registers above a depth are gone, and this is next.
pub fn go_below<'m>(
    store: &Store,
    state: &mut State<'m>,
    depth: usize,
    focus: Focus<'m>,
) -> Turn<'m>
    requires state { StateOf store.now state.old }
    requires focus { FocusOf store.now focus }
    ensures { (l : Allowance) → Makes store.now state.old l store.now state.new l
        (Now (focus_seen store.now focus.entry (frames_of store.now state.old)) (cut depth (slots_of store.now state.old))) result }
{
    keep_oldest(&mut state.regs, depth);
    Turn::On(focus)
}

/// A call is left, and this is next.
pub fn leave_for<'m>(
    store: &Store,
    left: &mut Left,
    state: &mut State<'m>,
    focus: Focus<'m>,
) -> Result<Turn<'m>, NoMemory>
    requires state { StateOf store.now state.old }
    requires focus { FocusOf store.now focus }
    ensures { IfOk result (λ r. Makes store.now state.old left.old store.now state.new left.new
        (Exits (Now (focus_seen store.now focus.entry (frames_of store.now state.old)) (slots_of store.now state.old))) r) }
{
    leave_call(state, left)?;
    Ok(Turn::On(focus))
}

/// A function of Lua is left, and this is next.
pub fn leave_body_for<'m>(
    store: &Store,
    left: &mut Left,
    state: &mut State<'m>,
    focus: Focus<'m>,
) -> Result<Turn<'m>, NoMemory>
    requires state { StateOf store.now state.old }
    requires focus { FocusOf store.now focus }
    ensures { IfOk result (λ r. Makes store.now state.old left.old store.now state.new left.new
        (Exits (Now (focus_seen store.now focus.entry (frames_of store.now state.old)) (calls.left_function (slots_of store.now state.old)))) r) }
{
    leave_function(&mut state.regs, &mut state.functions);
    leave_for(store, left, state, focus)
}

/// What follows a jump out of a turn of a loop: nothing after a `break`, and any other jump goes on.
pub fn after_turn<'m>(alloc: Global, jump: Jump) -> Focus<'m>
    ensures of { (s : StoreView) → JumpOf s jump → FocusOf s result }
    ensures move_ { (s : StoreView) (fs : Items SFrame) (x : Slots) → loops.after_turn (jump_seen s.texts jump) fs x ≡ Now (focus_seen s result fs) x }
{
    match jump {
        Jump::Returned(values) => Focus::Jumps(Jump::Returned(values)),
        Jump::Broke => nothing(alloc),
        Jump::Raised(value) => Focus::Jumps(Jump::Raised(value)),
    }
}

/// What follows a jump out of the body of a function: the values of a `return`, and any other jump goes on.
pub fn after_body<'m>(jump: Jump) -> Focus<'m>
    ensures of { (s : StoreView) → JumpOf s jump → FocusOf s result }
    ensures move_ { (s : StoreView) (fs : Items SFrame) (x : Slots) → calls.after_body (jump_seen s.texts jump) fs x ≡ Now (focus_seen s result fs) x }
{
    match jump {
        Jump::Returned(values) => Focus::Gives(values),
        Jump::Broke => Focus::Jumps(Jump::Broke),
        Jump::Raised(value) => Focus::Jumps(Jump::Raised(value)),
    }
}
