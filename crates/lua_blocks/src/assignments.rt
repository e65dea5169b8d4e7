//! A frame that waits in an assignment is given values (manual 2.4.3).
ghost use Rattle.std.specs.Prelude.{◌≡◌, map, reverse, slice_get, IfOk};
ghost use Rattle.std.specs.List.{AllByRecursion};
ghost use Rattle.page_run.specs.WkBaseDeclaredLeftLeft.{Left as Allowance};
ghost use Rattle.lua_code.specs.LuaSlotsCode.{CWorld};
ghost use Rattle.lua_code.specs.LuaSlotsMoves.{goes};
ghost use Rattle.lua_state.specs.LuaSlotsPoints as point;
ghost use Rattle.lua_state.specs.LuaSlotsPoints.{Now};
ghost use Rattle.lua_code.specs.LuaSlotsStatements.{with_values};
ghost use Rattle.lua_state.specs.LuaStoreParts.{IsOf};
ghost use Rattle.lua_state.specs.LuaStackLists.{first_stored, given_values};
ghost use Rattle.lua_state.specs.LuaStackOf.{FoundOf, GivenOf, InAssignmentOf, SettingOf, ValuesOf};
ghost use Rattle.lua_state.specs.LuaStackSeen.{found_seen, given_seen, in_assignment_seen, settings_seen, values_seen};
ghost use Rattle.lua_state.specs.Makes.{Makes};
ghost use Rattle.lua_state.specs.Of.{StateOf};
ghost use Rattle.lua_state.specs.Seen.{frames_of, slots_of};

use crate::exits::wait;
use crate::targets::found;
use lua_code::{List, NoMemory};
use lua_state::{
    Finding, Focus, Found, Frame, Given, InAssignment, Left, Setting, Stack, State, Store, Turn,
    Value, Values,
};
use std::alloc::Global;

/// The target at this place of a list.
fn target_at<'m>(targets: &[Found], at: usize) -> Option<Found>
    ensures { result ≡ slice_get targets.now at }
{
    targets.get(at).copied()
}

/// Each target with its value, the last one first. What is absent is nil. So many targets do not fit in memory that a place is too great.
fn settings<'m>(
    alloc: Global,
    store: &Store,
    targets: &[Found],
    values: Values,
) -> Result<Stack<Setting>, NoMemory>
    requires targets { AllByRecursion (FoundOf store.now) targets.now }
    requires values { ValuesOf store.now values }
    ensures of { IfOk result (λ pairs. AllByRecursion (SettingOf store.now) pairs) }
    ensures pairs { IfOk result (λ pairs. settings_seen store.now.texts pairs ≡ reverse (with_values (map (found_seen store.now.texts) targets.now) (values_seen store.now.texts values))) }
{
    let mut values = values;
    let mut pairs = Stack::new(alloc);
    for at in 0..usize::MAX {
        match target_at(targets, at) {
            Some(target) => {
                let value = values.take_first();
                pairs.push(Setting { target, value })?;
            }
            None => return Ok(pairs),
        }
    }
    Err(NoMemory)
}

/// The targets get their values.
fn assigned<'m>(
    alloc: Global,
    store: &Store,
    state: &State<'m>,
    targets: List<Found>,
    values: Given,
) -> Result<Turn<'m>, NoMemory>
    requires state { StateOf store.now state.now }
    requires targets { AllByRecursion (FoundOf store.now) targets }
    requires values { GivenOf store.now values }
    ensures { (l : Allowance) → IfOk result (λ r. Makes store.now state.now l store.now state.now l
        (Now (point.Sets (reverse (with_values (map (found_seen store.now.texts) targets) (given_seen store.now.texts values))) (frames_of store.now state.now)) (slots_of store.now state.now)) r) }
{
    let values = values.into_values(alloc)?;
    let found = targets.as_slice();
    let pairs = settings(alloc, store, found, values)?;
    Ok(Turn::On(Focus::Sets(pairs)))
}

/// What a frame in an assignment does with values, of which this is the first.
fn give_first<'m>(
    alloc: Global,
    store: &Store,
    state: &mut State<'m>,
    frame: InAssignment<'m>,
    first: Value,
    values: Given,
) -> Result<Turn<'m>, NoMemory>
    requires state { StateOf store.now state.old }
    requires frame { InAssignmentOf store.now frame }
    requires first { IsOf store.now first }
    requires values { GivenOf store.now values }
    requires same { first ≡ first_stored (given_values values) }
    ensures { (world : CWorld) (l : Allowance) → IfOk result (λ r. Makes store.now state.old l store.now state.new l
        (goes world (in_assignment_seen store.now.texts frame.entry) (given_seen store.now.texts values) (frames_of store.now state.old) (slots_of store.now state.old)) r) }
{
    match frame {
        InAssignment::TargetKey(key, line, finding) => {
            let frame = InAssignment::TargetNow(first, line, finding);
            wait(
                store,
                state,
                Frame::Assignment(frame),
                Focus::Evaluates(key),
            )
        }
        InAssignment::TargetNow(of, line, finding) => {
            let target = Found::At(of, first, line);
            let Finding {
                rest,
                before,
                values: list,
            } = Box::into_inner(finding);
            found(store, state, target, rest, before, list)
        }
        InAssignment::AssignNow(targets) => assigned(alloc, store, state, targets, values),
        InAssignment::SetsNext(pairs) => Ok(Turn::On(Focus::Sets(pairs))),
    }
}

/// What a frame in an assignment does with values.
pub fn give_assignment<'m>(
    alloc: Global,
    store: &mut Store,
    left: &mut Left,
    state: &mut State<'m>,
    frame: InAssignment<'m>,
    values: Given,
) -> Result<Turn<'m>, NoMemory>
    requires state { StateOf store.old state.old }
    requires frame { InAssignmentOf store.old frame }
    requires values { GivenOf store.old values }
    ensures { IfOk result (λ r. (world : CWorld) → Makes store.old state.old left.old store.new state.new left.new (goes world (in_assignment_seen store.old.texts frame.entry) (given_seen store.old.texts values) (frames_of store.old state.old) (slots_of store.old state.old)) r) }
{
    let first = values.first();
    give_first(alloc, store, state, frame, first, values)
}
