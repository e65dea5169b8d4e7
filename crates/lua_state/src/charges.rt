//! Charges: steps that are taken, and calls that are entered and left.
ghost use Rattle.std.specs.Prelude.{◌≡◌, ◌+◌, true, false, if◌then◌else◌, IfOk, OnOk};
ghost use Rattle.lua_state.specs.Charges.{Pays, EntersCall, LeavesCall};
ghost use Rattle.mw_frames.specs.LuaMeaningCharges.{node_charge};

use crate::state::State;
use lua_code::NoMemory;
use lua_titled::Steps;
use mw_frames::Left;
use std::sync::ledger::Ledger;

/// Takes so many steps. Where fewer are left, the answer is false and none stay.
pub fn pay(left: &mut Left, steps: u64) -> bool
    ensures { Pays steps left.old left.new result }
{
    left.take_steps(steps)
}

/// The step of a node of a syntax tree, which is counted. Where no step is left, the answer is false.
pub fn pay_node<L: Ledger>(left: &mut Left, turns: &mut Steps<L>) -> bool
    ensures pays { Pays node_charge left.old left.new result }
    ensures counts { turns.new ≡ (if result then turns.old + 1 else turns.old) }
{
    if pay(left, 1) {
        turns.tick();
        return true;
    }
    false
}

/// Enters a function of Lua or of the library. Where no call is left, the answer is false and nothing changes.
pub fn enter_call(state: &mut State<'_>, left: &mut Left) -> Result<bool, NoMemory>
    ensures enters { IfOk result (λ entered. EntersCall state.old left.old state.new left.new entered) }
    ensures same { OnOk result (state.new ≡ record state.old { calls = state.new.calls; height = state.new.height }) }
{
    if !left.enter_call() {
        return Ok(false);
    }
    let Some(calls) = state.calls.checked_add(1) else {
        return Err(NoMemory);
    };
    state.calls = calls;
    if state.height < calls {
        state.height = calls;
    }
    Ok(true)
}

/// Leaves a function that was entered, if one was.
pub fn leave_call(state: &mut State<'_>, left: &mut Left) -> Result<(), NoMemory>
    ensures leaves { OnOk result (LeavesCall state.old left.old state.new left.new) }
    ensures same { OnOk result (state.new ≡ record state.old { calls = state.new.calls }) }
{
    let Some(calls) = state.calls.checked_sub(1) else {
        return Ok(());
    };
    let Some(back) = left.calls.checked_add(1) else {
        return Err(NoMemory);
    };
    state.calls = calls;
    left.calls = back;
    Ok(())
}
