//! The next turn of a counting loop (manual 2.4.5).
ghost use Rattle.std.specs.Prelude.{◌≡◌, Bool, List as Items, IfOk};
ghost use Rattle.lua_loops.specs.PageRunOutcome.{Goes};
ghost use Rattle.lua_code.specs.LuaHeapValue.{Value as Plain};
ghost use Rattle.lua_code.specs.LuaSlotsCode.{CBlock};
ghost use Rattle.lua_code.specs.LuaMeaningLoops as plain;
ghost use Rattle.lua_loops.specs.LuaSlotsLoops.{count_from, count_next};
ghost use Rattle.lua_operators.specs.LuaSlotsPoints.{Gives, SFrame};
ghost use Rattle.lua_operators.specs.LuaSlotsSlots.{Slots};
ghost use Rattle.lua_operators.specs.LuaStackDeclaredFrameEndingTheVariants as ending_kind;
ghost use Rattle.lua_operators.specs.LuaStackDeclaredFrameFrameTheVariants as frame_kind;
ghost use Rattle.lua_loops.specs.LuaStateOf.{StateOf};
ghost use Rattle.lua_loops.specs.LuaStateSeen.{frames_of};
ghost use Rattle.lua_turns.specs.Rows.{IsNewest, MayFollow};
ghost use Rattle.lua_turns.specs.Counting.{next_move};

use crate::waiting::{Count, drop_newest, swap_newest};
use lua_code::NoMemory;
use lua_loops::leaving::keep_oldest;
use lua_loops::turns::depth_of;
use lua_loops::{Ending, State, Steps, open};
use lua_number::add;
use lua_operators::{Frame, Left, Store, Value};
use lua_strides::Next;
use lua_strides::ending::pay_nodes;
use std::sync::ledger::Ledger;

/// Whether a counting loop has a turn at this index.
fn is_within(index: i64, limit: i64, step: i64) -> bool
    ensures { result ≡ plain.is_within index limit step }
{
    if step > 0 {
        return index <= limit;
    }
    limit <= index
}

/// This index, if the loop has a turn there.
fn turn_at(index: i64, limit: i64, step: i64) -> Option<i64>
    ensures { (boxed : Bool) (body : CBlock) (fs : Items SFrame) (s : Slots) → count_from boxed index limit step body fs s ≡ next_move boxed result limit step body fs s }
{
    if is_within(index, limit, step) {
        return Some(index);
    }
    None
}

/// The next index, if the loop has a turn there.
fn next_index(index: i64, limit: i64, step: i64) -> Option<i64>
    ensures { (boxed : Bool) (body : CBlock) (fs : Items SFrame) (s : Slots) → count_next boxed index limit step body fs s ≡ next_move boxed result limit step body fs s }
{
    match add(index, step) {
        Ok(next) => turn_at(next, limit, step),
        Err(_) => None,
    }
}

/// A turn of a counting loop is over: the next one begins, whose step is taken, or the loop is over.
pub fn end_count<'m, L: Ledger>(
    store: &mut Store,
    left: &mut Left,
    state: &mut State<'m>,
    count: Count<'m>,
    turns: &mut Steps<L>,
) -> Result<Option<Next<'m>>, NoMemory>
    requires state { StateOf store.old state.old }
    requires newest { IsNewest state.old.frames (frame_kind.End (ending_kind.CountEnd count.depth count.boxed count.index count.limit count.step count.body)) }
    ensures { (values : Items Plain) → IfOk result (MayFollow store.old state.old (Gives (Goes values) (frames_of store.old state.old)) left.old turns.old store.new state.new left.new turns.new) }
{
    match next_index(count.index, count.limit, count.step) {
        Some(index) => {
            if !pay_nodes(left, turns, 1) {
                return Ok(None);
            }
            keep_oldest(&mut state.regs, count.depth);
            let depth = depth_of(&state.regs);
            open(store, &mut state.regs, count.boxed, Value::Number(index))?;
            let Count {
                boxed,
                limit,
                step,
                body,
                ..
            } = count;
            let ending = Ending::CountEnd(depth, boxed, index, limit, step, body);
            swap_newest(&mut state.frames, Frame::End(ending));
            Ok(Some(Next::Runs(body.as_slice())))
        }
        None => {
            keep_oldest(&mut state.regs, count.depth);
            drop_newest(&mut state.frames);
            Ok(Some(Next::GivesNone))
        }
    }
}
