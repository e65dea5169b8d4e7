//! Ends of a move at which nothing can fail: what is next is known, and no allowance is needed.
ghost use Rattle.std.specs.Prelude.{◌∷◌, [], IfOk};
ghost use Rattle.page_run.specs.WkBaseDeclaredLeftLeft.{Left as Allowance};
ghost use Rattle.lua_operators.specs.LuaSlotsErrors.{gives};
ghost use Rattle.lua_operators.specs.LuaSlotsPoints.{Now};
ghost use Rattle.lua_operators.specs.LuaStoreParts.{IsOf};
ghost use Rattle.lua_operators.specs.LuaStoreSeen.{seen};
ghost use Rattle.lua_operators.specs.LuaStackOf.{FocusOf, FrameOf};
ghost use Rattle.lua_operators.specs.LuaStackSeen.{focus_seen, frame_seen};
ghost use Rattle.lua_state.specs.Makes.{Makes};
ghost use Rattle.lua_state.specs.Of.{StateOf};
ghost use Rattle.lua_state.specs.Seen.{frames_of, slots_of};

use lua_code::NoMemory;
use lua_operators::{Focus, Frame, Store, Value};
use lua_state::{Given, State, Turn};

/// One value for the frames.
pub fn give<'m>(store: &Store, state: &State<'m>, value: Value) -> Turn<'m>
    requires state { StateOf store.now state.now }
    requires value { IsOf store.now value }
    ensures { (l : Allowance) → Makes store.now state.now l store.now state.now l (gives (seen store.now.texts value ∷ []) (frames_of store.now state.now) (slots_of store.now state.now)) result }
{
    Turn::On(Focus::Gives(Given::One(value)))
}

/// This is next, and one more frame waits for it.
pub fn wait<'m>(
    store: &Store,
    state: &mut State<'m>,
    frame: Frame<'m>,
    focus: Focus<'m>,
) -> Result<Turn<'m>, NoMemory>
    requires state { StateOf store.now state.old }
    requires frame { FrameOf store.now frame }
    requires focus { FocusOf store.now focus }
    ensures { (l : Allowance) → IfOk result (λ r. Makes store.now state.old l store.now state.new l
        (Now (focus_seen store.now focus.entry (frame_seen store.now.texts frame.entry ∷ frames_of store.now state.old)) (slots_of store.now state.old)) r) }
{
    match state.frames.push(frame) {
        Ok(_) => Ok(Turn::On(focus)),
        Err(_) => Err(focus.give_up()),
    }
}
