//! The end of a block, a function, or a turn of a loop is jumped out of (manual 2.4.4 and 2.7).
ghost use Rattle.std.specs.Prelude.{◌+◌, ◌<◌, ◌^◌, IfOk};
ghost use Rattle.page_run.specs.WkBaseDeclaredLeftLeft.{Left as Allowance};
ghost use Rattle.lua_state.specs.LuaSlotsCalls as calls;
ghost use Rattle.lua_state.specs.LuaSlotsErrors.{jumps};
ghost use Rattle.lua_code.specs.LuaSlotsLoops as loops;
ghost use Rattle.lua_code.specs.LuaSlotsMoves.{passes};
ghost use Rattle.lua_state.specs.LuaSlotsPoints.{Exits};
ghost use Rattle.lua_state.specs.LuaSlotsSlots.{cut};
ghost use Rattle.lua_state.specs.LuaStackOf.{EndingOf, JumpOf};
ghost use Rattle.lua_state.specs.LuaStackSeen.{ending_seen, jump_seen};
ghost use Rattle.lua_state.specs.Makes.{Makes};
ghost use Rattle.lua_state.specs.Of.{StateOf};
ghost use Rattle.lua_state.specs.Seen.{frames_of, slots_of};

use crate::leaving::{after_body, after_turn, go_below, leave_body_for, leave_for};
use lua_code::NoMemory;
use lua_state::{Ending, Focus, Jump, Left, State, Store, Turn};
use std::alloc::Global;

/// A block of its own is jumped out of.
fn pass_block<'m>(store: &Store, state: &mut State<'m>, depth: usize, jump: Jump) -> Turn<'m>
    requires state { StateOf store.now state.old }
    requires jump { JumpOf store.now jump }
    ensures { (l : Allowance) → Makes store.now state.old l store.now state.new l (jumps (jump_seen store.now.texts jump) (frames_of store.now state.old) (cut depth (slots_of store.now state.old))) result }
{
    go_below(store, state, depth, Focus::Jumps(jump))
}

/// A turn of a loop is jumped out of.
fn pass_turn<'m>(
    alloc: Global,
    store: &Store,
    state: &mut State<'m>,
    depth: usize,
    jump: Jump,
) -> Turn<'m>
    requires state { StateOf store.now state.old }
    requires jump { JumpOf store.now jump }
    ensures { (l : Allowance) → Makes store.now state.old l store.now state.new l (loops.after_turn (jump_seen store.now.texts jump) (frames_of store.now state.old) (cut depth (slots_of store.now state.old))) result }
{
    let focus = after_turn(alloc, jump);
    go_below(store, state, depth, focus)
}

/// The body of a function is jumped out of.
fn pass_body<'m>(
    store: &Store,
    left: &mut Left,
    state: &mut State<'m>,
    jump: Jump,
) -> Result<Turn<'m>, NoMemory>
    requires state { StateOf store.now state.old }
    requires jump { JumpOf store.now jump }
    ensures { IfOk result (λ r. Makes store.now state.old left.old store.now state.new left.new
        (Exits (calls.after_body (jump_seen store.now.texts jump) (frames_of store.now state.old) (calls.left_function (slots_of store.now state.old)))) r) }
{
    let focus = after_body(jump);
    leave_body_for(store, left, state, focus)
}

/// A function of the library is jumped out of.
fn pass_library<'m>(
    store: &Store,
    left: &mut Left,
    state: &mut State<'m>,
    jump: Jump,
) -> Result<Turn<'m>, NoMemory>
    requires state { StateOf store.now state.old }
    requires jump { JumpOf store.now jump }
    ensures { IfOk result (λ r. Makes store.now state.old left.old store.now state.new left.new
        (Exits (jumps (jump_seen store.now.texts jump) (frames_of store.now state.old) (slots_of store.now state.old))) r) }
{
    leave_for(store, left, state, Focus::Jumps(jump))
}

/// What is done at an end that is jumped out of.
pub fn pass_end<'m>(
    alloc: Global,
    store: &mut Store,
    left: &mut Left,
    state: &mut State<'m>,
    frame: Ending<'m>,
    jump: Jump,
) -> Result<Turn<'m>, NoMemory>
    requires state { StateOf store.old state.old }
    requires calls { left.old.calls + state.old.calls < 2 ^ 64 }
    requires frame { EndingOf store.old frame }
    requires jump { JumpOf store.old jump }
    ensures { IfOk result (λ r. Makes store.old state.old left.old store.new state.new left.new (passes (ending_seen store.old.texts frame.entry) (jump_seen store.old.texts jump) (frames_of store.old state.old) (slots_of store.old state.old)) r) }
{
    match frame {
        Ending::BlockEnd(depth) => Ok(pass_block(store, state, depth, jump)),
        Ending::BodyEnd => pass_body(store, left, state, jump),
        Ending::LibraryEnd => pass_library(store, left, state, jump),
        Ending::WhileEnd(depth, _, _) => Ok(pass_turn(alloc, store, state, depth, jump)),
        Ending::TestNext(_, depth, _) => Ok(pass_turn(alloc, store, state, depth, jump)),
        Ending::TestNow(_, depth, _) => Ok(pass_turn(alloc, store, state, depth, jump)),
        Ending::CountEnd(depth, _, _, _, _, _) => {
            Ok(pass_turn(alloc, store, state, depth, jump))
        }
        Ending::EachEnd(depth, each, _) => {
            drop(each);
            Ok(pass_turn(alloc, store, state, depth, jump))
        }
    }
}
