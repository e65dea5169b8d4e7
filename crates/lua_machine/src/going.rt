//! Moves one after another, until an event.
ghost use Rattle.std.specs.Prelude.{◌≡◌, ◌+◌, ◌<◌, ◌^◌, ℕ, true, false, [], IfOk, IfSome};
ghost use Rattle.page_run.specs.WkBaseDeclaredLeftLeft.{Left as Allowance};
ghost use Rattle.lua_environment.specs.LuaStackDeclaredFocusFocus.{Focus as FocusValue};
ghost use Rattle.lua_environment.specs.LuaStackDeclaredFocusFocusTheVariants as focus_kind;
ghost use Rattle.lua_environment.specs.LuaStackDeclaredValuesGivenTheVariants as given_kind;
ghost use Rattle.lua_environment.specs.LuaStackOf.{FocusOf};
ghost use Rattle.lua_rows.specs.LuaStateDeclaredStateState.{State as StateValue};
ghost use Rattle.lua_rows.specs.LuaStateDeclaredTurnTurnTheVariants as turn_kind;
ghost use Rattle.lua_blocks.specs.LuaStateOf.{StateOf};
ghost use Rattle.lua_store.specs.Seen.{StoreView};
ghost use Rattle.lua_rows.specs.LuaStridesNext.{focus_of};
ghost use Rattle.lua_machine.specs.Moved.{is_event, IsEventAt};
ghost use Rattle.lua_machine.specs.Going.{EndsIn, GoesTo, IsOn};

use crate::event::Event;
use crate::library::{call_or_move, end_call};
use lua_blocks::{Focus, Given, Left, Outcome, State, Steps, Turn, Values};
use lua_code::NoMemory;
use lua_rows::{Next, row, strides, turn_for};
use lua_store::Store;
use std::alloc::Global;
use std::sync::ledger::Ledger;

/// Whether the machine moves no more: it stands at a question, or at its end, where no frame waits.
#[inline(always)]
fn stands(state: &State<'_>, next: &Focus<'_>) -> bool
    ensures { result ≡ is_event state.now.frames next.now }
{
    match next {
        Focus::Gives(_) => state.frames.len() == 0,
        Focus::Jumps(_) => state.frames.len() == 0,
        Focus::Asks(_) => true,
        Focus::Evaluates(_) => false,
        Focus::Lists(_, _) => false,
        Focus::Finds(_, _, _) => false,
        Focus::Sets(_) => false,
        Focus::Runs(_) => false,
        Focus::Starts(_) => false,
        Focus::Texts(_, _) => false,
        Focus::Works(_) => false,
    }
}

/// The event where the machine moves no more.
fn event_at(next: Focus<'_>) -> Event
    requires { is_event [] next ≡ true }
    ensures { IsEventAt next.entry result }
{
    match next {
        Focus::Gives(values) => Event::Over(Outcome::Goes(values)),
        Focus::Jumps(jump) => Event::Over(Outcome::Jumps(jump)),
        Focus::Asks(question) => Event::Asks(Box::into_inner(question)),
        Focus::Evaluates(_) => unreachable!(),
        Focus::Lists(_, _) => unreachable!(),
        Focus::Finds(_, _, _) => unreachable!(),
        Focus::Sets(_) => unreachable!(),
        Focus::Runs(_) => unreachable!(),
        Focus::Starts(_) => unreachable!(),
        Focus::Texts(_, _) => unreachable!(),
        Focus::Works(_) => unreachable!(),
    }
}

/// What is next where these values are given, if there are none.
fn none_of<'m>(values: &Values) -> Option<Next<'m>>
    ensures { IfSome result (λ n. focus_kind.Gives (given_kind.Many values.now) ≡ focus_of n) }
{
    if values.len() == 0 {
        return Some(Next::GivesNone);
    }
    None
}

/// What is next behind a move, if it is one value or none for the newest frame.
fn given<'m>(turned: &Turn<'m>) -> Option<Next<'m>>
    ensures { IfSome result (λ n. turned.now ≡ turn_kind.On (focus_of n)) }
{
    match turned {
        Turn::On(Focus::Gives(Given::One(value))) => Some(Next::Gives(*value)),
        Turn::On(Focus::Gives(Given::Many(values))) => none_of(values),
        _ => None,
    }
}

/// Behind a move that gave a value, strides in a row.
fn go_behind<'m, L: Ledger>(
    alloc: Global,
    store: &mut Store,
    left: &mut Left,
    state: &mut State<'m>,
    turned: Turn<'m>,
    turns: &mut Steps<L>,
) -> Result<Turn<'m>, NoMemory>
    requires { IsOn store.old state.old turned }
    ensures { (s : StoreView) (m : StateValue) (f : FocusValue) (l : Allowance) (k : ℕ) → GoesTo s m f l k store.old state.old left.old turns.old turned.entry → IfOk result (GoesTo s m f l k store.new state.new left.new turns.new) }
{
    match given(&turned) {
        Some(next) => {
            let went = row(alloc, store, left, state, next, turns)?;
            turn_for(alloc, went)
        }
        None => Ok(turned),
    }
}

/// One move, or the call of a function of the library; and strides in a row behind it.
#[inline(always)]
fn go_once<'m, L: Ledger>(
    alloc: Global,
    store: &mut Store,
    left: &mut Left,
    state: &mut State<'m>,
    next: Focus<'m>,
    turns: &mut Steps<L>,
) -> Result<Turn<'m>, NoMemory>
    requires state { StateOf store.old state.old }
    requires calls { left.old.calls + state.old.calls < 2 ^ 64 }
    requires focus { FocusOf store.old next }
    requires moving { is_event state.old.frames next ≡ false }
    ensures { IfOk result (λ r. GoesTo store.old state.old next.entry left.old turns.old store.new state.new left.new turns.new r) }
{
    let turned = call_or_move(alloc, store, left, state, next, turns)?;
    let ended = end_call(left, state, turned)?;
    go_behind(alloc, store, left, state, ended, turns)
}

/// Strides in a row, where expressions are read in place and the steps of their nodes are left; else what `go_once` does.
#[inline(always)]
fn go_on<'m, L: Ledger>(
    alloc: Global,
    store: &mut Store,
    left: &mut Left,
    state: &mut State<'m>,
    next: Focus<'m>,
    turns: &mut Steps<L>,
) -> Result<Turn<'m>, NoMemory>
    requires state { StateOf store.old state.old }
    requires calls { left.old.calls + state.old.calls < 2 ^ 64 }
    requires focus { FocusOf store.old next }
    requires moving { is_event state.old.frames next ≡ false }
    ensures { IfOk result (λ r. GoesTo store.old state.old next.entry left.old turns.old store.new state.new left.new turns.new r) }
{
    let strode = strides(alloc, store, left, state, &next, turns)?;
    match strode {
        Some(went) => turn_for(alloc, went),
        None => go_once(alloc, store, left, state, next, turns),
    }
}

/// Moves until an event. What is next is handed from arm to arm: each move, or each row of moves that are made at once, is one turn of the
/// loop inside, which ends where a step is paid.
pub fn advance<'m, L: Ledger>(
    alloc: Global,
    store: &mut Store,
    left: &mut Left,
    state: &mut State<'m>,
    focus: Focus<'m>,
    turns: &mut Steps<L>,
) -> Result<Event, NoMemory>
    requires state { StateOf store.old state.old }
    requires calls { left.old.calls + state.old.calls < 2 ^ 64 }
    requires focus { FocusOf store.old focus }
    ensures { IfOk result (λ e. EndsIn store.old state.old focus.entry left.old turns.old store.new state.new left.new turns.new e) }
{
    let mut next = focus;
    'steps: loop {
        let before = left.steps;
        'moves: loop {
            if stands(state, &next) {
                return Ok(event_at(next));
            }
            let turned = go_on(alloc, store, left, state, next, turns)?;
            match turned {
                Turn::On(after) => {
                    next = after;
                    if left.steps < before {
                        continue 'steps;
                    }
                }
                Turn::Spent(which) => return Ok(Event::Spent(which)),
            }
        }
    }
}
