//! Arguments reach the frame that calls (manual 2.5.8).
ghost use Rattle.std.specs.Prelude.{◌≡◌, ◌≤◌, ◌∷◌, [], true, IfOk};
ghost use Rattle.lua_loops.specs.PageRunOutcome.{Goes};
ghost use Rattle.lua_operators.specs.LuaSlotsPoints.{Gives};
ghost use Rattle.lua_operators.specs.LuaStackDeclaredFrameFrameTheVariants as frame_kind;
ghost use Rattle.lua_operators.specs.LuaStackDeclaredFrameInExpressionTheVariants as in_expression;
ghost use Rattle.lua_operators.specs.LuaStackOf.{ValuesOf};
ghost use Rattle.lua_operators.specs.LuaStackSeen.{values_seen};
ghost use Rattle.lua_loops.specs.LuaStateOf.{StateOf};
ghost use Rattle.lua_loops.specs.LuaStateSeen.{frames_of};
ghost use Rattle.lua_operators.specs.LuaStoreParts.{IsOf};
ghost use Rattle.lua_operators.specs.LuaStoreSeen.{seen};
ghost use Rattle.lua_turns.specs.Rows.{IsNewest, MayFollow, MustFollow};

use crate::entering::{callee_of, enter};
use crate::waiting::{Waiting, of_newest};
use lua_code::NoMemory;
use lua_loops::{State, Steps, Values};
use lua_operators::{Left, Store, Value};
use lua_strides::Next;
use std::alloc::Global;
use std::sync::ledger::Ledger;

/// Whether a step and a call are left.
fn may_enter(left: &Left) -> bool
    ensures { result ≡ true → (1 ≤ left.now.steps) × (1 ≤ left.now.calls) }
{
    if left.steps == 0 {
        return false;
    }
    if left.calls == 0 {
        return false;
    }
    true
}

/// Arguments are there: if the newest frame calls a function of Lua, and a step and a call are left, that is entered. Else they are given.
pub fn give_all<'m, L: Ledger>(
    alloc: Global,
    store: &mut Store,
    left: &mut Left,
    state: &mut State<'m>,
    arguments: Values,
    turns: &mut Steps<L>,
) -> Result<Option<Next<'m>>, NoMemory>
    requires state { StateOf store.old state.old }
    requires arguments { ValuesOf store.old arguments }
    ensures { IfOk result (MustFollow store.old state.old (Gives (Goes (values_seen store.old.texts arguments)) (frames_of store.old state.old)) left.old turns.old store.new state.new left.new turns.new) }
{
    if !may_enter(left) {
        return Ok(Some(Next::GivesAll(arguments)));
    }
    match of_newest(&state.frames) {
        Waiting::Calls(called, line) => match callee_of(store, called) {
            Some(callee) => {
                let next = enter(
                    alloc, store, left, state, called, callee, arguments, line, turns,
                )?;
                Ok(Some(next))
            }
            None => Ok(Some(Next::GivesAll(arguments))),
        },
        _ => Ok(Some(Next::GivesAll(arguments))),
    }
}

/// Arguments reach the newest frame: if it calls a function of Lua, and a step and a call are left, that is entered.
pub fn call<'m, L: Ledger>(
    alloc: Global,
    store: &mut Store,
    left: &mut Left,
    state: &mut State<'m>,
    arguments: &Values,
    turns: &mut Steps<L>,
) -> Result<Option<Next<'m>>, NoMemory>
    requires state { StateOf store.old state.old }
    requires arguments { ValuesOf store.old arguments.now }
    ensures { IfOk result (MayFollow store.old state.old (Gives (Goes (values_seen store.old.texts arguments.now)) (frames_of store.old state.old)) left.old turns.old store.new state.new left.new turns.new) }
{
    if !may_enter(left) {
        return Ok(None);
    }
    match of_newest(&state.frames) {
        Waiting::Calls(called, line) => match callee_of(store, called) {
            Some(callee) => {
                let arguments = arguments.copy(alloc)?;
                let next = enter(
                    alloc, store, left, state, called, callee, arguments, line, turns,
                )?;
                Ok(Some(next))
            }
            None => Ok(None),
        },
        _ => Ok(None),
    }
}

/// One argument reaches the newest frame, a call: if a function of Lua is called, and a step and a call are left, that is entered.
pub fn call_one<'m, L: Ledger>(
    alloc: Global,
    store: &mut Store,
    left: &mut Left,
    state: &mut State<'m>,
    called: Value,
    line: u32,
    argument: Value,
    turns: &mut Steps<L>,
) -> Result<Option<Next<'m>>, NoMemory>
    requires state { StateOf store.old state.old }
    requires newest { IsNewest state.old.frames (frame_kind.Expression (in_expression.CallNow called line)) }
    requires argument { IsOf store.old argument }
    ensures { IfOk result (MayFollow store.old state.old (Gives (Goes (seen store.old.texts argument ∷ [])) (frames_of store.old state.old)) left.old turns.old store.new state.new left.new turns.new) }
{
    if !may_enter(left) {
        return Ok(None);
    }
    match callee_of(store, called) {
        Some(callee) => {
            let mut arguments = Values::new(alloc);
            arguments.add(argument)?;
            let next = enter(
                alloc, store, left, state, called, callee, arguments, line, turns,
            )?;
            Ok(Some(next))
        }
        None => Ok(None),
    }
}
