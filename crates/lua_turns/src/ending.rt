//! What waits is gone on with where nothing is given: a block, a turn or a function's body is at its end.
ghost use Rattle.std.specs.Prelude.{◌≡◌, [], ℕ, List as Items, IfOk};
ghost use Rattle.lua_loops.specs.PageRunOutcome.{Goes};
ghost use Rattle.lua_loops.specs.WkBaseDeclaredLeftLeft.{Left as Allowance};
ghost use Rattle.lua_code.specs.LuaHeapValue.{Value as Plain};
ghost use Rattle.lua_operators.specs.LuaSlotsPoints.{Gives};
ghost use Rattle.lua_operators.specs.LuaStackDeclaredFrameEndingTheVariants as ending_kind;
ghost use Rattle.lua_operators.specs.LuaStackDeclaredFrameFrameTheVariants as frame_kind;
ghost use Rattle.lua_loops.specs.LuaStateOf.{StateOf};
ghost use Rattle.lua_loops.specs.LuaStateSeen.{frames_of};
ghost use Rattle.lua_operators.specs.LuaStoreSeen.{StoreView};
ghost use Rattle.lua_turns.specs.Rows.{IsNewest, MayFollow};

use crate::branching::end_while;
use crate::counting::end_count;
use crate::giving::go_on;
use crate::leaving::leave_function;
use crate::waiting::{Waiting, drop_newest, of_newest};
use lua_code::NoMemory;
use lua_loops::leaving::keep_oldest;
use lua_loops::{State, Steps, leave_call};
use lua_operators::{Left, Store};
use lua_strides::Next;
use std::sync::ledger::Ledger;

/// A block is at its end.
fn end_block<'m>(state: &mut State<'m>, depth: usize) -> Result<Option<Next<'m>>, NoMemory>
    requires { IsNewest state.old.frames (frame_kind.End (ending_kind.BlockEnd depth)) }
    ensures { (s : StoreView) (l : Allowance) (k : ℕ) (values : Items Plain) → StateOf s state.old → IfOk result (MayFollow s state.old (Gives (Goes values) (frames_of s state.old)) l k s state.new l k) }
{
    keep_oldest(&mut state.regs, depth);
    drop_newest(&mut state.frames);
    Ok(Some(Next::GivesNone))
}

/// The body of a function is at its end.
fn end_body<'m>(left: &mut Left, state: &mut State<'m>) -> Result<Option<Next<'m>>, NoMemory>
    requires { IsNewest state.old.frames (frame_kind.End ending_kind.BodyEnd) }
    ensures { (s : StoreView) (k : ℕ) (values : Items Plain) → StateOf s state.old → IfOk result (MayFollow s state.old (Gives (Goes values) (frames_of s state.old)) left.old k s state.new left.new k) }
{
    drop_newest(&mut state.frames);
    leave_function(&mut state.regs, &mut state.functions);
    leave_call(state, left)?;
    Ok(Some(Next::GivesNone))
}

/// A function of the library has given nothing: its call ends.
fn end_library<'m>(left: &mut Left, state: &mut State<'m>) -> Result<Option<Next<'m>>, NoMemory>
    requires { IsNewest state.old.frames (frame_kind.End ending_kind.LibraryEnd) }
    ensures { (s : StoreView) (k : ℕ) → StateOf s state.old → IfOk result (MayFollow s state.old (Gives (Goes []) (frames_of s state.old)) left.old k s state.new left.new k) }
{
    drop_newest(&mut state.frames);
    leave_call(state, left)?;
    Ok(Some(Next::GivesNone))
}

/// Nothing reaches the newest frame.
pub fn end<'m, L: Ledger>(
    store: &mut Store,
    left: &mut Left,
    state: &mut State<'m>,
    turns: &mut Steps<L>,
) -> Result<Option<Next<'m>>, NoMemory>
    requires { StateOf store.old state.old }
    ensures { IfOk result (MayFollow store.old state.old (Gives (Goes []) (frames_of store.old state.old)) left.old turns.old store.new state.new left.new turns.new) }
{
    match of_newest(&state.frames) {
        Waiting::Statements(rest) => Ok(Some(go_on(state, rest))),
        Waiting::Block(depth) => end_block(state, depth),
        Waiting::Body => end_body(left, state),
        Waiting::Library => end_library(left, state),
        Waiting::Repeats(depth, test, body) => Ok(Some(end_while(state, depth, test, body))),
        Waiting::Counts(count) => end_count(store, left, state, count, turns),
        _ => Ok(None),
    }
}
