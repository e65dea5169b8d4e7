//! A function of the library is called where its arguments reach the frame that calls it, and its call ends where it gives its values (manual
//! 2.5.8 and 5). These are moves of `moving`; made here, what begins and what waits is not handed from one move to the next.
ghost use Rattle.std.specs.Prelude.{◌≡◌, ◌+◌, ◌<◌, ◌^◌, ℕ, true, false, IfOk, IfSome};
ghost use Rattle.page_run.specs.WkBaseDeclaredLeftLeft.{Left as Allowance};
ghost use Rattle.lua_environment.specs.LuaStackDeclaredFocusFocus.{Focus as FocusValue};
ghost use Rattle.lua_environment.specs.LuaStackDeclaredFocusFocusTheVariants as focus_kind;
ghost use Rattle.lua_rows.specs.LuaStackDeclaredFrameEndingTheVariants as ending_kind;
ghost use Rattle.lua_rows.specs.LuaStackDeclaredFrameFrameTheVariants as frame_kind;
ghost use Rattle.lua_rows.specs.LuaStackDeclaredFrameInExpressionTheVariants as in_expression;
ghost use Rattle.lua_environment.specs.LuaStackOf.{FocusOf, GivenOf};
ghost use Rattle.lua_rows.specs.LuaStateDeclaredStateState.{State as StateValue};
ghost use Rattle.lua_blocks.specs.LuaStateOf.{StateOf};
ghost use Rattle.lua_store.specs.declared.value.Value.TheVariants as value_kind;
ghost use Rattle.lua_store.specs.Seen.{StoreView};
ghost use Rattle.lua_rows.specs.LuaTurnsRows.{IsNewest};
ghost use Rattle.lua_machine.specs.Going.{GoesTo, GivesOn};
ghost use Rattle.lua_machine.specs.Moved.{is_event};

use crate::moving::turn;
use lua_blocks::{Focus, Frames, Given, Left, State, Steps, Turn};
use lua_code::NoMemory;
use lua_rows::{Waiting, drop_newest, enter_library, leave_call, of_newest};
use lua_store::{Library, Store, Value};
use page_run::Which;
use std::alloc::Global;
use std::sync::ledger::Ledger;

/// The function of the library that the newest frame calls, and the line of the call.
fn called(frames: &Frames<'_>) -> Option<(Library, u32)>
    ensures { IfSome result (λ p. IsNewest frames.now (frame_kind.Expression (in_expression.CallNow (value_kind.Builtin p.0) p.1))) }
{
    match of_newest(frames) {
        Waiting::Calls(called, line) => match called {
            Value::Builtin(which) => Some((which, line)),
            _ => None,
        },
        _ => None,
    }
}

/// A function of the library is called with these values, for which the newest frame waited. The call takes a step.
fn call<'m, L: Ledger>(
    alloc: Global,
    store: &mut Store,
    left: &mut Left,
    state: &mut State<'m>,
    which: Library,
    line: u32,
    values: Given,
    turns: &mut Steps<L>,
) -> Result<Turn<'m>, NoMemory>
    requires state { StateOf store.old state.old }
    requires calls { left.old.calls + state.old.calls < 2 ^ 64 }
    requires newest { IsNewest state.old.frames (frame_kind.Expression (in_expression.CallNow (value_kind.Builtin which) line)) }
    requires values { GivenOf store.old values }
    ensures { IfOk result (λ r. GoesTo store.old state.old (focus_kind.Gives values) left.old turns.old store.new state.new left.new turns.new r) }
{
    drop_newest(&mut state.frames);
    if !left.take_steps(1) {
        return Ok(Turn::Spent(Which::Steps));
    }
    let arguments = values.into_values(alloc)?;
    enter_library(
        alloc,
        store,
        left,
        state,
        which,
        arguments,
        Some(line),
        turns,
    )
}

/// Values reach the newest frame: where that calls a function of the library, it is called; else this is one move.
fn give<'m, L: Ledger>(
    alloc: Global,
    store: &mut Store,
    left: &mut Left,
    state: &mut State<'m>,
    values: Given,
    turns: &mut Steps<L>,
) -> Result<Turn<'m>, NoMemory>
    requires state { StateOf store.old state.old }
    requires calls { left.old.calls + state.old.calls < 2 ^ 64 }
    requires values { GivenOf store.old values }
    requires moving { is_event state.old.frames (focus_kind.Gives values) ≡ false }
    ensures { IfOk result (λ r. GoesTo store.old state.old (focus_kind.Gives values) left.old turns.old store.new state.new left.new turns.new r) }
{
    match called(&state.frames) {
        Some((which, line)) => call(alloc, store, left, state, which, line, values, turns),
        None => turn(alloc, store, left, state, Focus::Gives(values), turns),
    }
}

/// The call of a function of the library, where its arguments have reached the frame that calls it; else one move.
#[inline(always)]
pub fn call_or_move<'m, L: Ledger>(
    alloc: Global,
    store: &mut Store,
    left: &mut Left,
    state: &mut State<'m>,
    next: Focus<'m>,
    turns: &mut Steps<L>,
) -> Result<Turn<'m>, NoMemory>
    requires state { StateOf store.old state.old }
    requires calls { left.old.calls + state.old.calls < 2 ^ 64 }
    requires focus { FocusOf store.old next }
    requires moving { is_event state.old.frames next ≡ false }
    ensures { IfOk result (λ r. GoesTo store.old state.old next.entry left.old turns.old store.new state.new left.new turns.new r) }
{
    match next {
        Focus::Gives(values) => give(alloc, store, left, state, values, turns),
        other => turn(alloc, store, left, state, other, turns),
    }
}

/// Whether values have reached the end of a call of a function of the library.
fn is_at_end(frames: &Frames<'_>, turned: &Turn<'_>) -> bool
    ensures newest { result ≡ true → IsNewest frames.now (frame_kind.End ending_kind.LibraryEnd) }
    ensures gives { result ≡ true → GivesOn turned.now }
{
    match turned {
        Turn::On(Focus::Gives(_)) => match of_newest(frames) {
            Waiting::Library => true,
            _ => false,
        },
        _ => false,
    }
}

/// Behind a move that gave the values of a function of the library, its call ends: they reach what waits below.
pub fn end_call<'m>(
    left: &mut Left,
    state: &mut State<'m>,
    turned: Turn<'m>,
) -> Result<Turn<'m>, NoMemory>
    ensures { (s : StoreView) (m : StateValue) (f : FocusValue) (l : Allowance) (k : ℕ) (t : StoreView) (j : ℕ) → GoesTo s m f l k t state.old left.old j turned.entry → IfOk result (GoesTo s m f l k t state.new left.new j) }
{
    if !is_at_end(&state.frames, &turned) {
        return Ok(turned);
    }
    drop_newest(&mut state.frames);
    leave_call(state, left)?;
    Ok(turned)
}
