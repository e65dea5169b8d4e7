//! A function of the library is entered.
ghost use Rattle.std.specs.Prelude.{◌∷◌, ◌+◌, ◌<◌, ◌^◌, IfOk};
ghost use Rattle.lua_tables.specs.LuaMeaningLibraries.{form};
ghost use Rattle.lua_code.specs.LuaSlotsLibraries as libraries;
ghost use Rattle.lua_modules.specs.LuaSlotsPoints.{LibraryEnd};
ghost use Rattle.lua_modules.specs.LuaStackOf.{ValuesOf};
ghost use Rattle.lua_modules.specs.LuaStackSeen.{values_seen};
ghost use Rattle.lua_modules.specs.LuaStateMakes.{LateCounts, LateMakes};
ghost use Rattle.lua_modules.specs.LuaStateOf.{StateOf};
ghost use Rattle.lua_modules.specs.LuaStateSeen.{frames_of, slots_of};
ghost use Rattle.lua_modules.specs.LuaStateWorlds.{world_seen};

use crate::calling::call_act;
use crate::table::act_of;
use lua_code::NoMemory;
use lua_modules::{Ending, Frame, State, Turn, Values, enter_call};
use lua_tables::{Left, Library, Store};
use mw_frame::Steps;
use page_run::Which;
use std::alloc::Global;
use std::sync::ledger::Ledger;

/// What a function of the library does, above the frame that ends its call.
fn do_library<'m>(
    alloc: Global,
    store: &mut Store,
    left: &mut Left,
    state: &mut State<'m>,
    which: Library,
    arguments: Values,
    line: Option<u32>,
) -> Result<Turn<'m>, NoMemory>
    requires state { StateOf store.old state.old }
    requires arguments { ValuesOf store.old arguments }
    ensures { IfOk result (λ r. LateMakes store.old state.old left.old store.new state.new left.new
        (libraries.does (world_seen state.old.codes.world)
        (form (libraries.page_alone (world_seen state.old.codes.world)) which (values_seen store.old.texts arguments) (slots_of store.old state.old).heap (slots_of store.old state.old).frames)
        (values_seen store.old.texts arguments) line (LibraryEnd ∷ frames_of store.old state.old) (slots_of store.old state.old)) r) }
{
    state.frames.push(Frame::End(Ending::LibraryEnd))?;
    let act = act_of(which);
    call_act(alloc, store, left, state, act, arguments, line)
}

/// A function of the library is entered, called from this line. It takes a call and is counted; a frame below it ends its call.
pub fn enter_library<'m, L: Ledger>(
    alloc: Global,
    store: &mut Store,
    left: &mut Left,
    state: &mut State<'m>,
    which: Library,
    arguments: Values,
    line: Option<u32>,
    turns: &mut Steps<L>,
) -> Result<Turn<'m>, NoMemory>
    requires state { StateOf store.old state.old }
    requires calls { left.old.calls + state.old.calls < 2 ^ 64 }
    requires arguments { ValuesOf store.old arguments }
    ensures { IfOk result (λ r. LateCounts store.old state.old left.old turns.old store.new state.new left.new turns.new (libraries.enters_library (world_seen state.old.codes.world) which (values_seen store.old.texts arguments) line (frames_of store.old state.old) (slots_of store.old state.old)) r) }
{
    let entered = enter_call(state, left)?;
    if !entered {
        return Ok(Turn::Spent(Which::Calls));
    }
    turns.tick();
    do_library(alloc, store, left, state, which, arguments, line)
}
