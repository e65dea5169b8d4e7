//! What a function of the library does that is entered.
ghost use Rattle.std.specs.Prelude.{IfOk};
ghost use Rattle.lua_code.specs.LuaSlotsLibraries as machine;
ghost use Rattle.lua_modules.specs.LuaStackOf.{ValuesOf};
ghost use Rattle.lua_modules.specs.LuaStackSeen.{values_seen};
ghost use Rattle.lua_modules.specs.LuaStateMakes.{LateMakes, Makes};
ghost use Rattle.lua_modules.specs.LuaStateOf.{StateOf};
ghost use Rattle.lua_modules.specs.LuaStateSeen.{frames_of, slots_of};
ghost use Rattle.lua_modules.specs.LuaStateWorlds.{world_seen};
ghost use Rattle.lua_calls.specs.Table.{act_seen, caller_seen};

use crate::framed::framed;
use crate::gsubs::gsub;
use crate::plain::{clone, current_title, index_args, plain};
use crate::table::{Act, CallBack};
use lua_acts::{
    ipairs, ipairs_step, pairs, pcall, strict_index, strict_new_index, to_string, xpcall,
};
use lua_code::NoMemory;
use lua_modules::{State, Turn, Values, load_data, require};
use lua_tables::{Left, Store};
use std::alloc::Global;

/// A function that calls back, or sees more of a run.
fn call_back<'m>(
    alloc: Global,
    store: &mut Store,
    left: &mut Left,
    state: &mut State<'m>,
    caller: CallBack,
    arguments: Values,
    line: Option<u32>,
) -> Result<Turn<'m>, NoMemory>
    requires state { StateOf store.old state.old }
    requires arguments { ValuesOf store.old arguments }
    ensures { IfOk result (λ r. Makes store.old state.old left.old store.new state.new left.new
        (machine.call_back (world_seen state.old.codes.world) (caller_seen caller) (values_seen store.old.texts arguments) line (frames_of store.old state.old) (slots_of store.old state.old)) r) }
{
    match caller {
        CallBack::Pcall => pcall(alloc, store, left, state, arguments, line),
        CallBack::Xpcall => xpcall(alloc, store, left, state, arguments, line),
        CallBack::ToString => to_string(alloc, store, left, state, arguments, line),
        CallBack::Pairs => pairs(alloc, store, left, state, arguments, line),
        CallBack::Ipairs => ipairs(alloc, store, left, state, arguments, line),
        CallBack::NextPlace => ipairs_step(alloc, store, left, state, arguments, line),
        CallBack::Require => require(alloc, store, left, state, arguments, line),
        CallBack::LoadData => load_data(alloc, store, left, state, arguments, line),
        CallBack::StrictRead => strict_index(alloc, store, left, state, arguments, line),
        CallBack::StrictWrite => strict_new_index(alloc, store, left, state, arguments, line),
    }
}

/// What a function of the library does.
pub fn call_act<'m>(
    alloc: Global,
    store: &mut Store,
    left: &mut Left,
    state: &mut State<'m>,
    act: Act,
    arguments: Values,
    line: Option<u32>,
) -> Result<Turn<'m>, NoMemory>
    requires state { StateOf store.old state.old }
    requires arguments { ValuesOf store.old arguments }
    ensures { IfOk result (λ r. LateMakes store.old state.old left.old store.new state.new left.new
        (machine.does (world_seen state.old.codes.world)
        (act_seen (machine.page_alone (world_seen state.old.codes.world)) act (values_seen store.old.texts arguments) (slots_of store.old state.old).heap (slots_of store.old state.old).frames)
        (values_seen store.old.texts arguments) line (frames_of store.old state.old) (slots_of store.old state.old)) r) }
{
    match act {
        Act::Answers(function) => plain(alloc, store, left, state, function, arguments, line),
        Act::Framed(function) => framed(alloc, store, left, state, function, arguments, line),
        Act::Clone => clone(alloc, store, left, state, arguments, line),
        Act::CurrentTitle => current_title(alloc, store, left, state, line),
        Act::ArgsIndex => index_args(alloc, store, left, state, arguments, line),
        Act::Calls(caller) => call_back(alloc, store, left, state, caller, arguments, line),
        Act::Gsub(function) => gsub(alloc, store, left, state, function, arguments, line),
    }
}
