//! Functions of the library that call back nobody (manual 5; Scribunto).
ghost use Rattle.std.specs.Prelude.{◌≡◌, ◌∷◌, [], IfOk, IfSome};
ghost use Rattle.page_run.specs.WkBaseDeclaredLeftLeft.{Left as Allowance};
ghost use Rattle.lua_modules.specs.LuaMeaningFrames.{args_index as plain_args_index};
ghost use Rattle.lua_code.specs.LuaMeaningMw as mw;
ghost use Rattle.lua_modules.specs.LuaSlotsErrors.{gives};
ghost use Rattle.lua_code.specs.LuaSlotsLibraries as machine;
ghost use Rattle.lua_tables.specs.LuaBasicSeen.{AnswerOf};
ghost use Rattle.lua_modules.specs.LuaStackOf.{ValuesOf};
ghost use Rattle.lua_modules.specs.LuaStackSeen.{values_seen};
ghost use Rattle.lua_modules.specs.LuaStateMakes.{LateMakes, Makes};
ghost use Rattle.lua_modules.specs.LuaStateOf.{StateOf};
ghost use Rattle.lua_modules.specs.LuaStateSeen.{frames_of, slots_of};
ghost use Rattle.lua_modules.specs.LuaStateWorlds.{world_seen};
ghost use Rattle.lua_calls.specs.Ends.{EndsAs};
ghost use Rattle.lua_calls.specs.Table.{once_seen};

use crate::answering::once_call;
use crate::table::AtOnce;
use lua_acts::exits::{give, give_all};
use lua_acts::{mw_clone, mw_get_current_title, refuse};
use lua_code::NoMemory;
use lua_modules::{State, Turn, Values};
use lua_tables::{Left, Stop, Store, Value};
use mw_frame::List;
use mw_frame_calls::args_index;
use std::alloc::Global;

/// The one value of a list that has just one.
fn single_of(values: &[Value]) -> Option<Value>
    ensures { IfSome result (λ value. values.now ≡ value ∷ []) }
{
    match values {
        [value] => Some(*value),
        _ => None,
    }
}

/// The values that a function gives, for the frames. A single one needs no list from here on.
fn give_list<'m>(store: &Store, state: &State<'m>, list: List<Value>) -> Turn<'m>
    requires state { StateOf store.now state.now }
    requires values { ValuesOf store.now list }
    ensures { (l : Allowance) → Makes store.now state.now l store.now state.now l (gives (values_seen store.now.texts list) (frames_of store.now state.now) (slots_of store.now state.now)) result }
{
    match single_of(list.as_slice()) {
        Some(value) => give(store, state, value),
        None => give_all(store, state, Values::of_list(list)),
    }
}

/// The end of a function whose charge is taken, and which was called from this line.
fn end_plain<'m>(
    alloc: Global,
    store: &mut Store,
    left: &mut Left,
    state: &State<'m>,
    answer: Result<List<Value>, Stop>,
    line: Option<u32>,
) -> Result<Turn<'m>, NoMemory>
    requires state { StateOf store.old state.now }
    requires answer { AnswerOf store.old answer }
    ensures { IfOk result (λ r. EndsAs store.old state.now left.old line answer store.new left.new r) }
{
    match answer {
        Ok(values) => Ok(give_list(store, state, values)),
        Err(stop) => refuse(alloc, store, left, state, line, stop),
    }
}

/// A function that answers at once.
pub fn plain<'m>(
    alloc: Global,
    store: &mut Store,
    left: &mut Left,
    state: &State<'m>,
    function: AtOnce,
    arguments: Values,
    line: Option<u32>,
) -> Result<Turn<'m>, NoMemory>
    requires state { StateOf store.old state.now }
    requires arguments { ValuesOf store.old arguments }
    ensures { IfOk result (λ r. LateMakes store.old state.now left.old store.new state.now left.new
        (machine.plain (once_seen function (values_seen store.old.texts arguments) store.old.heap) line (frames_of store.old state.now) (slots_of store.old state.now)) r) }
{
    let list = arguments.into_list();
    let names = state.scenes.names();
    let answer = once_call(alloc, store, left, names, function, list.as_slice());
    let turn = end_plain(alloc, store, left, state, answer, line)?;
    Ok(turn)
}

/// `mw.clone(v)`
pub fn clone<'m>(
    alloc: Global,
    store: &mut Store,
    left: &mut Left,
    state: &State<'m>,
    arguments: Values,
    line: Option<u32>,
) -> Result<Turn<'m>, NoMemory>
    requires state { StateOf store.old state.now }
    requires arguments { ValuesOf store.old arguments }
    ensures { IfOk result (λ r. LateMakes store.old state.now left.old store.new state.now left.new
        (machine.plain (mw.clone (values_seen store.old.texts arguments) store.old.heap) line (frames_of store.old state.now) (slots_of store.old state.now)) r) }
{
    let list = arguments.into_list();
    let answer = mw_clone(alloc, store, left, list.as_slice());
    let turn = end_plain(alloc, store, left, state, answer, line)?;
    Ok(turn)
}

/// `mw.title.getCurrentTitle()`
pub fn current_title<'m>(
    alloc: Global,
    store: &mut Store,
    left: &mut Left,
    state: &State<'m>,
    line: Option<u32>,
) -> Result<Turn<'m>, NoMemory>
    requires { StateOf store.old state.now }
    ensures { IfOk result (λ r. LateMakes store.old state.now left.old store.new state.now left.new
        (machine.plain (mw.get_current_title (world_seen state.now.codes.world).page store.old.heap) line (frames_of store.old state.now) (slots_of store.old state.now)) r) }
{
    let page = state.codes.world.page;
    let answer = mw_get_current_title(alloc, store, left, page);
    let turn = end_plain(alloc, store, left, state, answer, line)?;
    Ok(turn)
}

/// The `__index` of a frame's `args`.
pub fn index_args<'m>(
    alloc: Global,
    store: &mut Store,
    left: &mut Left,
    state: &State<'m>,
    arguments: Values,
    line: Option<u32>,
) -> Result<Turn<'m>, NoMemory>
    requires state { StateOf store.old state.now }
    requires arguments { ValuesOf store.old arguments }
    ensures { IfOk result (λ r. LateMakes store.old state.now left.old store.new state.now left.new
        (machine.plain (plain_args_index (values_seen store.old.texts arguments) store.old.heap) line (frames_of store.old state.now) (slots_of store.old state.now)) r) }
{
    let list = arguments.into_list();
    let answer = args_index(alloc, store, list.as_slice());
    let turn = end_plain(alloc, store, left, state, answer, line)?;
    Ok(turn)
}
