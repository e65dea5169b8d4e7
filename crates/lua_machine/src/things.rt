//! Things that begin, whose step is paid.
ghost use Rattle.std.specs.Prelude.{◌+◌, ◌<◌, ◌^◌, IfOk};
ghost use Rattle.lua_evals.specs.LuaSlotsCalls as calls;
ghost use Rattle.lua_blocks.specs.LuaSlotsIndex as indexing;
ghost use Rattle.lua_blocks.specs.LuaSlotsMoves.{begins};
ghost use Rattle.lua_blocks.specs.LuaStackSeen.{thing_seen, values_seen};
ghost use Rattle.lua_environment.specs.LuaStackOf.{ThingOf, ValuesOf};
ghost use Rattle.lua_blocks.specs.LuaStateSeen.{slots_of, frames_of};
ghost use Rattle.lua_blocks.specs.LuaStateOf.{StateOf};
ghost use Rattle.lua_runs.specs.LuaStateWorlds.{world_seen};
ghost use Rattle.lua_blocks.specs.LuaStateMakes.{Makes, LateCounts};
ghost use Rattle.lua_store.specs.Seen.{seen};
ghost use Rattle.lua_store.specs.Parts.{IsOf};

use lua_blocks::{
    Left, State, Steps, Thing, Turn, Values, finish, finish_paid, index_link, set_link,
};
use lua_code::NoMemory;
use lua_evals::call;
use lua_rows::{count_turn, each_turn, enter_body, enter_library, repeat_turn, while_turn};
use lua_store::{Store, Value};
use std::alloc::Global;
use std::sync::ledger::Ledger;

/// A link of a chain of handlers for an index.
fn link_index<'m>(
    alloc: Global,
    store: &mut Store,
    left: &mut Left,
    state: &mut State<'m>,
    link: (Value, Value, Value),
    line: Option<u32>,
) -> Result<Turn<'m>, NoMemory>
    requires state { StateOf store.old state.old }
    requires object { IsOf store.old link.0 }
    requires handler { IsOf store.old link.1 }
    requires key { IsOf store.old link.2 }
    ensures { IfOk result (λ r. Makes store.old state.old left.old store.new state.new left.new (indexing.index_link (seen store.old.texts link.0) (seen store.old.texts link.1) (seen store.old.texts link.2) line (frames_of store.old state.old) (slots_of store.old state.old)) r) }
{
    let (object, handler, key) = link;
    let step = index_link(alloc, store, &state.env, object, handler, key, line)?;
    let turn = finish(alloc, store, left, state, step)?;
    Ok(turn)
}

/// A link of a chain of handlers for an assignment.
fn link_set<'m>(
    alloc: Global,
    store: &mut Store,
    left: &mut Left,
    state: &mut State<'m>,
    link: (Value, Value, Value, Value),
    line: Option<u32>,
) -> Result<Turn<'m>, NoMemory>
    requires state { StateOf store.old state.old }
    requires object { IsOf store.old link.0 }
    requires handler { IsOf store.old link.1 }
    requires key { IsOf store.old link.2 }
    requires value { IsOf store.old link.3 }
    ensures { IfOk result (λ r. Makes store.old state.old left.old store.new state.new left.new (indexing.set_link (seen store.old.texts link.0) (seen store.old.texts link.1) (seen store.old.texts link.2) (seen store.old.texts link.3) line (frames_of store.old state.old) (slots_of store.old state.old)) r) }
{
    let (object, handler, key, value) = link;
    let paid = set_link(
        alloc,
        store,
        &state.env,
        left,
        object,
        handler,
        (key, value),
        line,
    )?;
    let turn = finish_paid(alloc, store, left, state, paid)?;
    Ok(turn)
}

/// A link of a chain of handlers for a call.
fn link_call<'m>(
    alloc: Global,
    store: &mut Store,
    left: &mut Left,
    state: &mut State<'m>,
    handler: Value,
    arguments: Values,
    line: Option<u32>,
) -> Result<Turn<'m>, NoMemory>
    requires state { StateOf store.old state.old }
    requires handler { IsOf store.old handler }
    requires arguments { ValuesOf store.old arguments }
    ensures { IfOk result (λ r. Makes store.old state.old left.old store.new state.new left.new (calls.call (seen store.old.texts handler) (values_seen store.old.texts arguments) line (frames_of store.old state.old) (slots_of store.old state.old)) r) }
{
    let step = call(store, &state.env, handler, arguments, line)?;
    let turn = finish(alloc, store, left, state, step)?;
    Ok(turn)
}

/// What begins at a step of its own.
pub fn begin<'m, L: Ledger>(
    alloc: Global,
    store: &mut Store,
    left: &mut Left,
    state: &mut State<'m>,
    thing: Thing<'m>,
    turns: &mut Steps<L>,
) -> Result<Turn<'m>, NoMemory>
    requires state { StateOf store.old state.old }
    requires calls { left.old.calls + state.old.calls < 2 ^ 64 }
    requires thing { ThingOf store.old thing }
    ensures { IfOk result (λ r. LateCounts store.old state.old left.old turns.old store.new state.new left.new turns.new (begins (world_seen state.old.codes.world) (thing_seen store.old thing.entry) (frames_of store.old state.old) (slots_of store.old state.old)) r) }
{
    match thing {
        Thing::WhileTurn(test, body) => while_turn(alloc, store, left, state, test, body, turns),
        Thing::RepeatTurn(body, test) => repeat_turn(alloc, store, left, state, body, test, turns),
        Thing::CountTurn(boxed, index, limit, step, body) => {
            let range = (index, limit, step);
            count_turn(alloc, store, left, state, boxed, range, body, turns)
        }
        Thing::EachTurn(each, results) => each_turn(
            alloc, store, left, state, each, results, turns,
        ),
        Thing::Body(callee, arguments, line) => enter_body(
            alloc, store, left, state, callee, arguments, line, turns,
        ),
        Thing::Library(which, arguments, line) => enter_library(
            alloc, store, left, state, which, arguments, line, turns,
        ),
        Thing::IndexLink(object, handler, key, line) => {
            let link = (object, handler, key);
            link_index(alloc, store, left, state, link, line)
        }
        Thing::SetLink(object, handler, key, value, line) => {
            let link = (object, handler, key, value);
            link_set(alloc, store, left, state, link, line)
        }
        Thing::CallLink(handler, arguments, line) => link_call(
            alloc, store, left, state, handler, arguments, line,
        ),
    }
}
