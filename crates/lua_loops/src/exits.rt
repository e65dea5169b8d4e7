//! Ends of a move at which nothing can fail: what is next is known, and no allowance is needed.
ghost use Rattle.std.specs.Prelude.{◌≡◌, ◌∷◌, [], List, IfOk};
ghost use Rattle.page_run.specs.Outcome.{Goes};
ghost use Rattle.page_run.specs.WkBaseDeclaredLeftLeft.{Left as Allowance};
ghost use Rattle.lua_code.specs.Seen.{block_seen};
ghost use Rattle.lua_state.specs.LuaSlotsPoints.{SFrame, Gives, Runs, Now};
ghost use Rattle.lua_state.specs.LuaStoreSeen.{StoreView};
ghost use Rattle.lua_state.specs.LuaStackOf.{FocusOf, FrameOf, FramesOf, EndingOf};
ghost use Rattle.lua_state.specs.LuaStackSeen.{focus_seen, frame_seen, frames_seen, ending_seen};
ghost use Rattle.lua_state.specs.Makes.{Makes};
ghost use Rattle.lua_state.specs.Of.{StateOf};
ghost use Rattle.lua_state.specs.Seen.{frames_of, slots_of};

use lua_code::{List, NoMemory, Statement};
use lua_state::{Ending, Focus, Frame, Frames, Given, State, Store, Turn, Values};
use std::alloc::Global;

/// No values for the frames.
pub fn nothing<'m>(alloc: Global) -> Focus<'m>
    ensures of { (s : StoreView) → FocusOf s result }
    ensures point { (s : StoreView) (fs : List SFrame) → focus_seen s result fs ≡ Gives (Goes []) fs }
{
    Focus::Gives(Given::Many(Values::new(alloc)))
}

/// This is next.
pub fn go<'m>(store: &Store, state: &State<'m>, focus: Focus<'m>) -> Turn<'m>
    requires state { StateOf store.now state.now }
    requires focus { FocusOf store.now focus }
    ensures { (l : Allowance) → Makes store.now state.now l store.now state.now l (Now (focus_seen store.now focus.entry (frames_of store.now state.now)) (slots_of store.now state.now)) result }
{
    Turn::On(focus)
}

/// This is next, and one more frame waits for it.
pub fn wait<'m>(
    store: &Store,
    state: &mut State<'m>,
    frame: Frame<'m>,
    focus: Focus<'m>,
) -> Result<Turn<'m>, NoMemory>
    requires state { StateOf store.now state.old }
    requires frame { FrameOf store.now frame }
    requires focus { FocusOf store.now focus }
    ensures { (l : Allowance) → IfOk result (λ r. Makes store.now state.old l store.now state.new l
        (Now (focus_seen store.now focus.entry (frame_seen store.now.texts frame.entry ∷ frames_of store.now state.old)) (slots_of store.now state.old)) r) }
{
    match state.frames.push(frame) {
        Ok(_) => Ok(Turn::On(focus)),
        Err(_) => Err(focus.give_up()),
    }
}

/// A body runs, and this is done at its end.
pub fn run_body<'m>(
    frames: &mut Frames<'m>,
    ending: Ending<'m>,
    body: &'m List<Statement>,
) -> Result<Focus<'m>, NoMemory>
    ensures of { IfOk result (λ f. (s : StoreView) → FramesOf s frames.old → EndingOf s ending.entry → FocusOf s f × FramesOf s frames.new) }
    ensures point { IfOk result (λ f. (s : StoreView) → focus_seen s f (frames_seen s.texts frames.new) ≡ Runs (block_seen body.now) (ending_seen s.texts ending.entry ∷ frames_seen s.texts frames.old)) }
{
    frames.push(Frame::End(ending))?;
    Ok(Focus::Runs(body.as_slice()))
}
