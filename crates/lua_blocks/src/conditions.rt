//! `if` (manual 2.4.4): the first branch whose test is true, or else the last block, if there is one.
ghost use Rattle.std.specs.Prelude.{◌≡◌, ◌∷◌, option_map, IfOk};
ghost use Rattle.lua_code.specs.Seen.{block_seen, branches_seen};
ghost use Rattle.lua_code.specs.LuaHeapValue.{is_true as is_true_value};
ghost use Rattle.lua_state.specs.LuaSlotsErrors.{choose};
ghost use Rattle.lua_state.specs.LuaSlotsPoints.{StatsNext};
ghost use Rattle.lua_state.specs.LuaSlotsSlots.{Slots};
ghost use Rattle.lua_code.specs.LuaSlotsStatements as machine;
ghost use Rattle.lua_state.specs.LuaStoreSeen.{seen};
ghost use Rattle.lua_state.specs.LuaStackOf.{FramesOf};
ghost use Rattle.lua_state.specs.LuaStackSeen.{frames_seen, registers_seen};
ghost use Rattle.lua_state.specs.LuaArmsSteps.{step_seen, StepOf};
ghost use Rattle.lua_state.specs.Makes.{Makes};
ghost use Rattle.lua_state.specs.Of.{StateOf};
ghost use Rattle.lua_state.specs.Seen.{frames_of, slots_of};

use lua_code::{Branch, List, NoMemory, Statement};
use lua_state::{
    Frame, Frames, InStatement, Left, Slot, Stack, State, Step, Store, Turn, Value, branches,
    finish, is_true, within,
};
use std::alloc::Global;

/// After a test of an `if`: what follows its `then`, or the branches behind it.
fn choose_branch<'m>(
    alloc: Global,
    store: &Store,
    frames: &mut Frames<'m>,
    regs: &Stack<Slot>,
    body: &'m List<Statement>,
    more: &'m [Branch],
    other: Option<&'m List<Statement>>,
    value: Value,
) -> Result<Step<'m>, NoMemory>
    requires frames { FramesOf store.now frames.old }
    ensures of { IfOk result (λ r. StepOf store.now r × FramesOf store.now frames.new) }
    ensures move_ { IfOk result (λ r. (s : Slots) → s.regs ≡ registers_seen store.now.texts regs.now
        → choose (is_true_value (seen store.now.texts value)) (machine.within (block_seen body.now) (frames_seen store.now.texts frames.old) s)
        (machine.branches (branches_seen more.now) (option_map (λ b. block_seen b.now) other.entry) (frames_seen store.now.texts frames.old) s)
        ≡ step_seen store.now r (frames_seen store.now.texts frames.new) s) }
{
    if is_true(value) {
        return within(store, frames, regs, body);
    }
    branches(alloc, store, frames, regs, more, other)
}

/// A test of an `if` gave this value.
pub fn tested<'m>(
    alloc: Global,
    store: &mut Store,
    left: &mut Left,
    state: &mut State<'m>,
    body: &'m List<Statement>,
    more: &'m [Branch],
    other: Option<&'m List<Statement>>,
    value: Value,
) -> Result<Turn<'m>, NoMemory>
    requires state { StateOf store.old state.old }
    ensures { IfOk result (λ r. Makes store.old state.old left.old store.new state.new left.new
        (choose (is_true_value (seen store.old.texts value)) (machine.within (block_seen body.now) (frames_of store.old state.old) (slots_of store.old state.old))
        (machine.branches (branches_seen more.now) (option_map (λ b. block_seen b.now) other.entry) (frames_of store.old state.old) (slots_of store.old state.old))) r) }
{
    let step = choose_branch(
        alloc,
        store,
        &mut state.frames,
        &state.regs,
        body,
        more,
        other,
        value,
    )?;
    finish(alloc, store, left, state, step)
}

/// The first test of an `if` is next, or its `else`.
fn first_test<'m>(
    alloc: Global,
    store: &mut Store,
    left: &mut Left,
    state: &mut State<'m>,
    arms: &'m List<Branch>,
    other: Option<&'m List<Statement>>,
) -> Result<Turn<'m>, NoMemory>
    requires state { StateOf store.old state.old }
    ensures { IfOk result (λ r. Makes store.old state.old left.old store.new state.new left.new
        (machine.branches (branches_seen arms.now) (option_map (λ b. block_seen b.now) other.entry) (frames_of store.old state.old) (slots_of store.old state.old)) r) }
{
    let arms = arms.as_slice();
    let step = branches(alloc, store, &mut state.frames, &state.regs, arms, other)?;
    finish(alloc, store, left, state, step)
}

/// The `else` of an `if`, if it has one.
fn other_of<'m>(other: &'m Option<List<Statement>>) -> Option<&'m List<Statement>>
    ensures { option_map (λ b. block_seen b.now) result ≡ option_map block_seen other.now }
{
    match other {
        Some(body) => Some(body),
        None => None,
    }
}

/// An `if` begins, before these statements.
pub fn condition<'m>(
    alloc: Global,
    store: &mut Store,
    left: &mut Left,
    state: &mut State<'m>,
    arms: &'m List<Branch>,
    other: &'m Option<List<Statement>>,
    rest: &'m [Statement],
) -> Result<Turn<'m>, NoMemory>
    requires state { StateOf store.old state.old }
    ensures { IfOk result (λ r. Makes store.old state.old left.old store.new state.new left.new
        (machine.branches (branches_seen arms.now) (option_map block_seen other.now) (StatsNext (block_seen rest.now) ∷ frames_of store.old state.old) (slots_of store.old state.old)) r) }
{
    state
        .frames
        .push(Frame::Statement(InStatement::StatsNext(rest)))?;
    let last = other_of(other);
    first_test(alloc, store, left, state, arms, last)
}
