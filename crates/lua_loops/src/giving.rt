//! A frame that waits in a loop is given values (manual 2.4.4 and 2.4.5).
ghost use Rattle.std.specs.Prelude.{◌≡◌, IfOk};
ghost use Rattle.lua_code.specs.Seen.{block_seen};
ghost use Rattle.lua_code.specs.LuaMeaningValues as plain;
ghost use Rattle.lua_code.specs.LuaSlotsCode.{CWorld};
ghost use Rattle.lua_code.specs.LuaSlotsLoops as loops;
ghost use Rattle.lua_code.specs.LuaSlotsMoves.{goes};
ghost use Rattle.lua_state.specs.LuaStoreParts.{IsOf};
ghost use Rattle.lua_state.specs.LuaStackLists.{first_stored, given_values};
ghost use Rattle.lua_state.specs.LuaStackOf.{InLoopOf, GivenOf};
ghost use Rattle.lua_state.specs.LuaStackSeen.{in_loop_seen, given_seen};
ghost use Rattle.lua_state.specs.Makes.{Makes};
ghost use Rattle.lua_state.specs.Of.{StateOf};
ghost use Rattle.lua_state.specs.Seen.{frames_of, slots_of};

use crate::bounds::{
    call_iterator, first_three, next_results, test_while, three_bounds, two_bounds,
};
use crate::exits::wait;
use lua_code::{List, NoMemory, Statement};
use lua_state::{EachLoop, Focus, Frame, Given, InLoop, Left, State, Store, Turn, Value, boxed};
use std::alloc::Global;

/// A generic loop has its iterator, its state, and the value before the first: the iterator is called.
fn begin_each<'m>(
    alloc: Global,
    store: &mut Store,
    left: &mut Left,
    state: &mut State<'m>,
    flags: &'m [bool],
    values: Given,
    body: &'m List<Statement>,
    line: u32,
) -> Result<Turn<'m>, NoMemory>
    requires state { StateOf store.old state.old }
    requires values { GivenOf store.old values }
    ensures { IfOk result (λ r. Makes store.old state.old left.old store.new state.new left.new
        (loops.each_from flags.now (plain.first (given_seen store.old.texts values)) (plain.second (given_seen store.old.texts values)) (plain.third (given_seen store.old.texts values)) (block_seen body.now) line (frames_of store.old state.old) (slots_of store.old state.old)) r) }
{
    let three = first_three(values);
    let begun = EachLoop {
        flags,
        iterator: three.0,
        state: three.1,
        body,
        line,
    };
    let each = boxed(alloc, begun)?;
    call_iterator(alloc, store, left, state, each, three.2)
}

/// What a frame in a loop does with values, of which this is the first.
fn give_first<'m>(
    alloc: Global,
    store: &mut Store,
    left: &mut Left,
    state: &mut State<'m>,
    frame: InLoop<'m>,
    first: Value,
    values: Given,
) -> Result<Turn<'m>, NoMemory>
    requires state { StateOf store.old state.old }
    requires frame { InLoopOf store.old frame }
    requires first { IsOf store.old first }
    requires values { GivenOf store.old values }
    requires same { first ≡ first_stored (given_values values) }
    ensures { (world : CWorld) → IfOk result (λ r. Makes store.old state.old left.old store.new state.new left.new
        (goes world (in_loop_seen store.old.texts frame.entry) (given_seen store.old.texts values) (frames_of store.old state.old) (slots_of store.old state.old)) r) }
{
    match frame {
        InLoop::WhileTest(test, body) => {
            test_while(alloc, store, left, state, test, body, first)
        }
        InLoop::CountFrom(boxed, to, by, body, line) => {
            let frame = Frame::Loop(InLoop::CountTo(boxed, first, by, body, line));
            wait(store, state, frame, Focus::Evaluates(to))
        }
        InLoop::CountTo(boxed, from, by, body, line) => {
            let bounds = (from, first);
            two_bounds(alloc, store, left, state, boxed, bounds, by, body, line)
        }
        InLoop::CountBy(boxed, from, to, body, line) => {
            let bounds = (from, to, first);
            three_bounds(alloc, store, left, state, boxed, bounds, body, line)
        }
        InLoop::EachValues(flags, body, line) => {
            begin_each(alloc, store, left, state, flags, values, body, line)
        }
        InLoop::EachNext(each) => next_results(alloc, store, left, state, each, values),
    }
}

/// What a frame in a loop does with values.
pub fn give_loop<'m>(
    alloc: Global,
    store: &mut Store,
    left: &mut Left,
    state: &mut State<'m>,
    frame: InLoop<'m>,
    values: Given,
) -> Result<Turn<'m>, NoMemory>
    requires state { StateOf store.old state.old }
    requires frame { InLoopOf store.old frame }
    requires values { GivenOf store.old values }
    ensures { IfOk result (λ r. (world : CWorld) → Makes store.old state.old left.old store.new state.new left.new (goes world (in_loop_seen store.old.texts frame.entry) (given_seen store.old.texts values) (frames_of store.old state.old) (slots_of store.old state.old)) r) }
{
    let first = values.first();
    give_first(alloc, store, left, state, frame, first, values)
}
