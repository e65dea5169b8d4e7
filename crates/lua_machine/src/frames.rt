//! What reaches a frame: each kind of frame goes on with it.
ghost use Rattle.std.specs.Prelude.{◌+◌, ◌<◌, ◌^◌, IfOk};
ghost use Rattle.lua_code.specs.LuaSlotsCode.{CWorld};
ghost use Rattle.lua_blocks.specs.LuaSlotsMoves.{goes, passes};
ghost use Rattle.lua_blocks.specs.LuaStackSeen.{frame_seen, given_seen, jump_seen};
ghost use Rattle.lua_environment.specs.LuaStackOf.{FrameOf, GivenOf, JumpOf};
ghost use Rattle.lua_blocks.specs.LuaStateSeen.{slots_of, frames_of};
ghost use Rattle.lua_blocks.specs.LuaStateOf.{StateOf};
ghost use Rattle.lua_blocks.specs.LuaStateMakes.{Makes};

use lua_blocks::{
    Focus, Frame, Given, Jump, Left, Outcome, State, Turn, give_assignment, give_statement,
};
use lua_code::NoMemory;
use lua_evals::{give_constructor, give_expression};
use lua_rows::{give_end, give_loop, hear, pass_end, resume};
use lua_runs::{give_run, pass_run};
use lua_store::Store;
use std::alloc::Global;

/// A frame that waited gets values. It is taken from the frames already.
#[inline(always)]
pub fn give_frame<'m>(
    alloc: Global,
    store: &mut Store,
    left: &mut Left,
    state: &mut State<'m>,
    frame: Frame<'m>,
    values: Given,
) -> Result<Turn<'m>, NoMemory>
    requires state { StateOf store.old state.old }
    requires calls { left.old.calls + state.old.calls < 2 ^ 64 }
    requires frame { FrameOf store.old frame }
    requires values { GivenOf store.old values }
    ensures { IfOk result (λ r. (world : CWorld) → Makes store.old state.old left.old store.new state.new left.new (goes world (frame_seen store.old.texts frame.entry) (given_seen store.old.texts values) (frames_of store.old state.old) (slots_of store.old state.old)) r) }
{
    match frame {
        Frame::Expression(frame) => give_expression(alloc, store, left, state, frame, values),
        Frame::Constructor(frame) => give_constructor(alloc, store, left, state, frame, values),
        Frame::Assignment(frame) => give_assignment(alloc, store, left, state, frame, values),
        Frame::Statement(frame) => give_statement(alloc, store, left, state, frame, values),
        Frame::Loop(frame) => give_loop(alloc, store, left, state, frame, values),
        Frame::End(frame) => give_end(alloc, store, left, state, frame, values),
        Frame::Waits(pending, line) => resume(
            alloc,
            store,
            left,
            state,
            pending,
            Outcome::Goes(values),
            line,
        ),
        Frame::Hears(asked, line) => hear(
            alloc,
            store,
            left,
            state,
            asked,
            Outcome::Goes(values),
            line,
        ),
        Frame::Run(frame) => give_run(alloc, store, left, state, frame, values),
    }
}

/// A frame that waited gets a jump, which most pass on.
pub fn pass_frame<'m>(
    alloc: Global,
    store: &mut Store,
    left: &mut Left,
    state: &mut State<'m>,
    frame: Frame<'m>,
    jump: Jump,
) -> Result<Turn<'m>, NoMemory>
    requires state { StateOf store.old state.old }
    requires calls { left.old.calls + state.old.calls < 2 ^ 64 }
    requires frame { FrameOf store.old frame }
    requires jump { JumpOf store.old jump }
    ensures { IfOk result (λ r. Makes store.old state.old left.old store.new state.new left.new (passes (frame_seen store.old.texts frame.entry) (jump_seen store.old.texts jump) (frames_of store.old state.old) (slots_of store.old state.old)) r) }
{
    match frame {
        Frame::Expression(_) => Ok(Turn::On(Focus::Jumps(jump))),
        Frame::Constructor(_) => Ok(Turn::On(Focus::Jumps(jump))),
        Frame::Assignment(_) => Ok(Turn::On(Focus::Jumps(jump))),
        Frame::Statement(_) => Ok(Turn::On(Focus::Jumps(jump))),
        Frame::Loop(_) => Ok(Turn::On(Focus::Jumps(jump))),
        Frame::End(frame) => pass_end(alloc, store, left, state, frame, jump),
        Frame::Waits(pending, line) => resume(
            alloc,
            store,
            left,
            state,
            pending,
            Outcome::Jumps(jump),
            line,
        ),
        Frame::Hears(asked, line) => hear(
            alloc,
            store,
            left,
            state,
            asked,
            Outcome::Jumps(jump),
            line,
        ),
        Frame::Run(frame) => pass_run(alloc, store, left, state, frame, jump),
    }
}
