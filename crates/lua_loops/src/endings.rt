//! The end of a block, a function, or a turn of a loop is come to (manual 2.4.4, 2.4.5 and 2.5.8).
ghost use Rattle.std.specs.Prelude.{◌≡◌, ◌+◌, ◌<◌, ◌^◌, ◌∷◌, [], IfOk};
ghost use Rattle.page_run.specs.WkBaseDeclaredLeftLeft.{Left as Allowance};
ghost use Rattle.lua_code.specs.Seen.{expression_seen, block_seen};
ghost use Rattle.lua_state.specs.LuaSlotsCalls as calls;
ghost use Rattle.lua_code.specs.LuaSlotsCode.{CWorld};
ghost use Rattle.lua_state.specs.LuaSlotsErrors.{gives};
ghost use Rattle.lua_code.specs.LuaSlotsLoops as loops;
ghost use Rattle.lua_code.specs.LuaSlotsMoves.{goes};
ghost use Rattle.lua_state.specs.LuaSlotsPoints.{WhileTest, TestNow, Evals, Exits, Now};
ghost use Rattle.lua_state.specs.LuaSlotsSlots.{cut};
ghost use Rattle.lua_state.specs.LuaStoreParts.{IsOf};
ghost use Rattle.lua_state.specs.LuaStoreSeen.{seen};
ghost use Rattle.lua_state.specs.LuaStackLists.{first_stored, given_values};
ghost use Rattle.lua_state.specs.LuaStackOf.{EachOf, EndingOf, GivenOf};
ghost use Rattle.lua_state.specs.LuaStackSeen.{ending_seen, given_seen};
ghost use Rattle.lua_state.specs.Makes.{Makes};
ghost use Rattle.lua_state.specs.Of.{StateOf};
ghost use Rattle.lua_state.specs.Seen.{frames_of, slots_of};

use crate::bounds::{call_iterator, next_index, test_repeat};
use crate::exits::{nothing, wait};
use crate::leaving::{go_below, keep_oldest, leave_body_for, leave_for};
use lua_code::{Expression, List, NoMemory, Statement};
use lua_state::{EachLoop, Ending, Focus, Frame, Given, InLoop, Left, State, Store, Turn, Value};
use std::alloc::Global;

/// A block of its own is over.
fn end_block<'m>(alloc: Global, store: &Store, state: &mut State<'m>, depth: usize) -> Turn<'m>
    requires state { StateOf store.now state.old }
    ensures { (l : Allowance) → Makes store.now state.old l store.now state.new l (gives [] (frames_of store.now state.old) (cut depth (slots_of store.now state.old))) result }
{
    let focus = nothing(alloc);
    go_below(store, state, depth, focus)
}

/// The body of a function is over: it gives no values.
fn end_function<'m>(
    alloc: Global,
    store: &Store,
    left: &mut Left,
    state: &mut State<'m>,
) -> Result<Turn<'m>, NoMemory>
    requires state { StateOf store.now state.old }
    ensures { IfOk result (λ r. Makes store.now state.old left.old store.now state.new left.new
        (Exits (gives [] (frames_of store.now state.old) (calls.left_function (slots_of store.now state.old)))) r) }
{
    let focus = nothing(alloc);
    leave_body_for(store, left, state, focus)
}

/// A turn of a `while` is over: its test is next.
fn end_while<'m>(
    store: &Store,
    state: &mut State<'m>,
    depth: usize,
    test: &'m Expression,
    body: &'m List<Statement>,
) -> Result<Turn<'m>, NoMemory>
    requires state { StateOf store.now state.old }
    ensures { (l : Allowance) → IfOk result (λ r. Makes store.now state.old l store.now state.new l
        (Now (Evals (expression_seen test.now) (WhileTest (expression_seen test.now) (block_seen body.now) ∷ frames_of store.now state.old)) (cut depth (slots_of store.now state.old))) r) }
{
    keep_oldest(&mut state.regs, depth);
    let frame = Frame::Loop(InLoop::WhileTest(test, body));
    wait(store, state, frame, Focus::Evaluates(test))
}

/// The body of a `repeat` is over: its test is next, which sees the variables of the body.
fn end_body<'m>(
    store: &Store,
    state: &mut State<'m>,
    test: &'m Expression,
    depth: usize,
    body: &'m List<Statement>,
) -> Result<Turn<'m>, NoMemory>
    requires state { StateOf store.now state.old }
    ensures { (l : Allowance) → IfOk result (λ r. Makes store.now state.old l store.now state.new l
        (Now (Evals (expression_seen test.now) (TestNow (expression_seen test.now) depth (block_seen body.now) ∷ frames_of store.now state.old)) (slots_of store.now state.old)) r) }
{
    let frame = Frame::End(Ending::TestNow(test, depth, body));
    wait(store, state, frame, Focus::Evaluates(test))
}

/// A turn of a `repeat` is over: its test has this value.
fn end_repeat<'m>(
    alloc: Global,
    store: &mut Store,
    left: &mut Left,
    state: &mut State<'m>,
    test: &'m Expression,
    depth: usize,
    body: &'m List<Statement>,
    value: Value,
) -> Result<Turn<'m>, NoMemory>
    requires state { StateOf store.old state.old }
    ensures { IfOk result (λ r. Makes store.old state.old left.old store.new state.new left.new
        (loops.repeat_next (block_seen body.now) (expression_seen test.now) (seen store.old.texts value) (frames_of store.old state.old) (cut depth (slots_of store.old state.old))) r) }
{
    keep_oldest(&mut state.regs, depth);
    test_repeat(alloc, store, left, state, body, test, value)
}

/// A turn of a counting loop is over. The range is the index, the limit and the step.
fn end_count<'m>(
    alloc: Global,
    store: &mut Store,
    left: &mut Left,
    state: &mut State<'m>,
    depth: usize,
    boxed: bool,
    range: (i64, i64, i64),
    body: &'m List<Statement>,
) -> Result<Turn<'m>, NoMemory>
    requires state { StateOf store.old state.old }
    ensures { IfOk result (λ r. Makes store.old state.old left.old store.new state.new left.new
        (loops.count_next boxed range.0 range.1 range.2 (block_seen body.now) (frames_of store.old state.old) (cut depth (slots_of store.old state.old))) r) }
{
    keep_oldest(&mut state.regs, depth);
    next_index(alloc, store, left, state, boxed, range, body)
}

/// A turn of a generic loop is over. The values are the iterator, the state, and the value before.
fn end_each<'m>(
    alloc: Global,
    store: &mut Store,
    left: &mut Left,
    state: &mut State<'m>,
    depth: usize,
    each: Box<EachLoop<'m>>,
    before: Value,
) -> Result<Turn<'m>, NoMemory>
    requires state { StateOf store.old state.old }
    requires each { EachOf store.old each.value }
    requires before { IsOf store.old before }
    ensures { IfOk result (λ r. Makes store.old state.old left.old store.new state.new left.new
        (loops.each_from each.entry.value.flags.now (seen store.old.texts each.entry.value.iterator) (seen store.old.texts each.entry.value.state) (seen store.old.texts before) (block_seen each.entry.value.body.now) each.entry.value.line (frames_of store.old state.old) (cut depth (slots_of store.old state.old))) r) }
{
    keep_oldest(&mut state.regs, depth);
    call_iterator(alloc, store, left, state, each, before)
}

/// What is done at an end that is come to with values, of which this is the first.
fn give_first<'m>(
    alloc: Global,
    store: &mut Store,
    left: &mut Left,
    state: &mut State<'m>,
    frame: Ending<'m>,
    first: Value,
    values: Given,
) -> Result<Turn<'m>, NoMemory>
    requires state { StateOf store.old state.old }
    requires frame { EndingOf store.old frame }
    requires values { GivenOf store.old values }
    requires same { first ≡ first_stored (given_values values) }
    ensures { (world : CWorld) → IfOk result (λ r. Makes store.old state.old left.old store.new state.new left.new
        (goes world (ending_seen store.old.texts frame.entry) (given_seen store.old.texts values) (frames_of store.old state.old) (slots_of store.old state.old)) r) }
{
    match frame {
        Ending::BlockEnd(depth) => Ok(end_block(alloc, store, state, depth)),
        Ending::BodyEnd => end_function(alloc, store, left, state),
        Ending::LibraryEnd => leave_for(store, left, state, Focus::Gives(values)),
        Ending::WhileEnd(depth, test, body) => end_while(store, state, depth, test, body),
        Ending::TestNext(test, depth, body) => end_body(store, state, test, depth, body),
        Ending::TestNow(test, depth, body) => {
            end_repeat(alloc, store, left, state, test, depth, body, first)
        }
        Ending::CountEnd(depth, boxed, index, limit, step, body) => {
            let range = (index, limit, step);
            end_count(alloc, store, left, state, depth, boxed, range, body)
        }
        Ending::EachEnd(depth, each, before) => {
            end_each(alloc, store, left, state, depth, each, before)
        }
    }
}

/// What is done at an end that is come to with values.
pub fn give_end<'m>(
    alloc: Global,
    store: &mut Store,
    left: &mut Left,
    state: &mut State<'m>,
    frame: Ending<'m>,
    values: Given,
) -> Result<Turn<'m>, NoMemory>
    requires state { StateOf store.old state.old }
    requires calls { left.old.calls + state.old.calls < 2 ^ 64 }
    requires frame { EndingOf store.old frame }
    requires values { GivenOf store.old values }
    ensures { IfOk result (λ r. (world : CWorld) → Makes store.old state.old left.old store.new state.new left.new (goes world (ending_seen store.old.texts frame.entry) (given_seen store.old.texts values) (frames_of store.old state.old) (slots_of store.old state.old)) r) }
{
    let first = values.first();
    give_first(alloc, store, left, state, frame, first, values)
}
