//! The end of a move: an error gets its message (manual 2.7).
ghost use Rattle.std.specs.Prelude.{◌≡◌, ℕ, IfOk, OnOk};
ghost use Rattle.lua_arms.specs.PageRunState.{Tally};
ghost use Rattle.mw_frames.specs.LuaStoreParts.{IsLater};
ghost use Rattle.lua_arms.specs.LuaSlotsErrors as machine;
ghost use Rattle.lua_arms.specs.Steps.{step_seen, StepOf, failure_text as text_of_failure};
ghost use Rattle.lua_arms.specs.Paid.{paid_seen, PaidOf};
ghost use Rattle.lua_state.specs.Seen.{slots_of, frames_of, funds_of, turn_seen};
ghost use Rattle.lua_state.specs.Of.{StateOf, TurnOf};
ghost use Rattle.lua_state.specs.Makes.{Makes};

use crate::messages::failure_text;
use crate::state::State;
use crate::turn::Turn;
use lua_arms::{Failure, Focus, Jump, Paid, Raising, Step, raise_quote, raise_text};
use lua_code::NoMemory;
use mw_frames::{Left, Store};
use std::alloc::Global;

/// An error with this message at a line of the newest function: at level 1 its place stands in front, and the whole costs its bytes.
pub fn fail<'m>(
    alloc: Global,
    store: &mut Store,
    left: &mut Left,
    state: &State<'m>,
    line: Option<u32>,
    message: &[u8],
) -> Result<Turn<'m>, NoMemory>
    requires state { StateOf store.old state.now }
    ensures makes { IfOk result (λ r. Makes store.old state.now left.old store.new state.now left.new (machine.fails line message.now (frames_of store.old state.now) (slots_of store.old state.now)) r) }
    ensures heap { OnOk result (store.new.heap ≡ store.old.heap) }
{
    let place = state.functions.place_of_level(line, 1);
    let raising = raise_text(alloc, store, left, place, message)?;
    match raising {
        Raising::Raises(value) => Ok(Turn::On(Focus::Jumps(Jump::Raised(value)))),
        Raising::Spent(which) => Ok(Turn::Spent(which)),
    }
}

/// An error with a message that quotes a text of the call, at a line of the newest function: it costs its bytes at no place too.
pub fn fail_quoting<'m>(
    alloc: Global,
    store: &mut Store,
    left: &mut Left,
    state: &State<'m>,
    line: Option<u32>,
    message: &[u8],
) -> Result<Turn<'m>, NoMemory>
    requires state { StateOf store.old state.now }
    ensures makes { IfOk result (λ r. Makes store.old state.now left.old store.new state.now left.new (machine.fails_quoting line message.now (frames_of store.old state.now) (slots_of store.old state.now)) r) }
    ensures heap { OnOk result (store.new.heap ≡ store.old.heap) }
{
    let place = state.functions.place_of_level(line, 1);
    let raising = raise_quote(alloc, store, left, place, message)?;
    match raising {
        Raising::Raises(value) => Ok(Turn::On(Focus::Jumps(Jump::Raised(value)))),
        Raising::Spent(which) => Ok(Turn::Spent(which)),
    }
}

/// An error that says what failed.
fn fail_with<'m>(
    alloc: Global,
    store: &mut Store,
    left: &mut Left,
    state: &State<'m>,
    line: Option<u32>,
    failure: Failure,
) -> Result<Turn<'m>, NoMemory>
    requires state { StateOf store.old state.now }
    ensures makes { IfOk result (λ r. Makes store.old state.now left.old store.new state.now left.new (machine.fails line (text_of_failure store.old.texts failure) (frames_of store.old state.now) (slots_of store.old state.now)) r) }
    ensures heap { OnOk result (store.new.heap ≡ store.old.heap) }
{
    let message = failure_text(alloc, failure)?;
    let turn = fail(alloc, store, left, state, line, message.as_slice())?;
    Ok(turn)
}

/// A move without charges, to its end: what is next, or an error at a line of the newest function, whose message costs its bytes.
pub fn finish<'m>(
    alloc: Global,
    store: &mut Store,
    left: &mut Left,
    state: &State<'m>,
    step: Step<'m>,
) -> Result<Turn<'m>, NoMemory>
    requires state { StateOf store.old state.now }
    requires step { StepOf store.old step }
    ensures makes { IfOk result (λ r. Makes store.old state.now left.old store.new state.now left.new (step_seen store.old step.entry (frames_of store.old state.now) (slots_of store.old state.now)) r) }
    ensures heap { OnOk result (store.new.heap ≡ store.old.heap) }
{
    match step {
        Step::On(focus) => Ok(Turn::On(focus)),
        Step::Fails(line, failure) => fail_with(alloc, store, left, state, line, failure),
    }
}

/// The same of a step whose charges are taken.
pub fn finish_paid<'m>(
    alloc: Global,
    store: &mut Store,
    left: &mut Left,
    state: &State<'m>,
    paid: Paid<'m>,
) -> Result<Turn<'m>, NoMemory>
    requires state { StateOf store.old state.now }
    requires paid { PaidOf store.old paid }
    ensures state { IfOk result (λ r. StateOf store.new state.now × TurnOf store.new r) }
    ensures later { OnOk result (IsLater store.old store.new) }
    ensures heap { OnOk result (store.new.heap ≡ store.old.heap) }
    ensures makes { IfOk result (λ r. (told : Tally) (n : ℕ)
        → paid_seen store.old paid.entry (frames_of store.old state.now) (slots_of store.old state.now) (funds_of left.old state.now told n)
        ≡ turn_seen store.new state.now r (funds_of left.new state.now told n)) }
{
    match paid {
        Paid::Goes(step) => {
            let turn = finish(alloc, store, left, state, step)?;
            Ok(turn)
        }
        Paid::Spent(which) => Ok(Turn::Spent(which)),
    }
}
