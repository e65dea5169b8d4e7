//! Ends of a move at which nothing can fail: what is next is known, and no allowance is needed.
ghost use Rattle.std.specs.Prelude.{◌∷◌, [], IfOk};
ghost use Rattle.page_run.specs.WkBaseDeclaredLeftLeft.{Left as Allowance};
ghost use Rattle.lua_state.specs.LuaSlotsErrors.{gives};
ghost use Rattle.lua_state.specs.LuaSlotsPoints.{Now};
ghost use Rattle.lua_state.specs.LuaStackOf.{FocusOf, FrameOf};
ghost use Rattle.lua_state.specs.LuaStackSeen.{focus_seen, frame_seen};
ghost use Rattle.lua_state.specs.Makes.{Makes};
ghost use Rattle.lua_state.specs.Of.{StateOf};
ghost use Rattle.lua_state.specs.Seen.{frames_of, slots_of};

use lua_code::NoMemory;
use lua_state::{Focus, Frame, Given, State, Store, Turn, Values};
use std::alloc::Global;

/// No values for the frames: a statement is over.
pub fn nothing<'m>(alloc: Global, store: &Store, state: &State<'m>) -> Turn<'m>
    requires { StateOf store.now state.now }
    ensures { (l : Allowance) → Makes store.now state.now l store.now state.now l (gives [] (frames_of store.now state.now) (slots_of store.now state.now)) result }
{
    Turn::On(Focus::Gives(Given::Many(Values::new(alloc))))
}

/// This is next, and one more frame waits for it.
pub fn wait<'m>(
    store: &Store,
    state: &mut State<'m>,
    frame: Frame<'m>,
    focus: Focus<'m>,
) -> Result<Turn<'m>, NoMemory>
    requires state { StateOf store.now state.old }
    requires frame { FrameOf store.now frame }
    requires focus { FocusOf store.now focus }
    ensures { (l : Allowance) → IfOk result (λ r. Makes store.now state.old l store.now state.new l
        (Now (focus_seen store.now focus.entry (frame_seen store.now.texts frame.entry ∷ frames_of store.now state.old)) (slots_of store.now state.old)) r) }
{
    match state.frames.push(frame) {
        Ok(_) => Ok(Turn::On(focus)),
        Err(_) => Err(focus.give_up()),
    }
}

/// This is next, and two more frames wait: the inner one for it, and the outer one for what follows.
pub fn wait_within<'m>(
    store: &Store,
    state: &mut State<'m>,
    outer: Frame<'m>,
    inner: Frame<'m>,
    focus: Focus<'m>,
) -> Result<Turn<'m>, NoMemory>
    requires state { StateOf store.now state.old }
    requires outer { FrameOf store.now outer }
    requires inner { FrameOf store.now inner }
    requires focus { FocusOf store.now focus }
    ensures { (l : Allowance) → IfOk result (λ r. Makes store.now state.old l store.now state.new l
        (Now (focus_seen store.now focus.entry (frame_seen store.now.texts inner.entry ∷ frame_seen store.now.texts outer.entry ∷ frames_of store.now state.old)) (slots_of store.now state.old)) r) }
{
    match state.frames.push_two(outer, inner) {
        Ok(_) => Ok(Turn::On(focus)),
        Err(_) => Err(focus.give_up()),
    }
}
