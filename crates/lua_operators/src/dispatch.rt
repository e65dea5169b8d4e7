//! What an operator gives (manual 2.5).
ghost use Rattle.std.specs.Prelude.{◌≡◌, ◌≢◌, ◌↔◌, IsTrue, ℕ, IfOk, OnOk};
ghost use Rattle.page_run.specs.State.{Tally};
ghost use Rattle.lua_code.specs.Seen.{operator_seen};
ghost use Rattle.lua_code.specs.declared.operator.Operator.TheVariants as operator;
ghost use Rattle.lua_arms.specs.LuaStoreSeen.{seen};
ghost use Rattle.lua_arms.specs.LuaStoreParts.{IsOf, IsLater};
ghost use Rattle.lua_arms.specs.LuaSlotsSlots.{Slots, with_heap};
ghost use Rattle.lua_code.specs.LuaSlotsEnact.{enact};
ghost use Rattle.lua_code.specs.LuaSlotsOperators as machine;
ghost use Rattle.lua_arms.specs.LuaStackSeen.{frames_seen};
ghost use Rattle.lua_arms.specs.LuaStackOf.{FramesOf, EnvironmentOf};
ghost use Rattle.lua_arms.specs.Paid.{paid_seen, PaidOf, IfSpent};

use crate::arithmetic::{calculate, negate};
use crate::comparison::{answer, equals};
use crate::concatenation::concatenate;
use crate::lengths::length_of;
use crate::ordering::{at_most, less};
use lua_arms::{Environment, Frames, Left, Paid, Store, Value, is_true};
use lua_code::{NoMemory, Operator};
use lua_syntax::UnaryOp;
use std::alloc::Global;

/// What an operator gives that makes no text: each but concatenation.
fn compare_or_calculate<'m>(
    alloc: Global,
    store: &Store,
    env: &Environment,
    left: &mut Left,
    frames: &mut Frames<'m>,
    op: Operator,
    operands: (Value, Value),
    line: Option<u32>,
) -> Result<Paid<'m>, NoMemory>
    requires op { op ≢ operator.Concatenate }
    requires first { IsOf store.now operands.0 }
    requires second { IsOf store.now operands.1 }
    requires env { EnvironmentOf store.now env.now }
    requires frames { FramesOf store.now frames.old }
    ensures of { IfOk result (λ r. PaidOf store.now r × FramesOf store.now frames.new) }
    ensures move_ { IfOk result (λ r. (s : Slots) (in_progress : ℕ) (tally : Tally) → s.heap ≡ store.now.heap
        → enact (machine.operate (operator_seen op) (seen store.now.texts operands.0) (seen store.now.texts operands.1) line (frames_seen store.now.texts frames.old) s) (record { left = left.old; in_progress = in_progress; tally = tally })
        ≡ paid_seen store.now r (frames_seen store.now.texts frames.new) s (record { left = left.new; in_progress = in_progress; tally = tally })) }
{
    let (first, second) = operands;
    let turned = (second, first);
    match op {
        Operator::Less => {
            let paid = less(alloc, store, env, left, frames, operands, line)?;
            Ok(paid)
        }
        Operator::Greater => {
            let paid = less(alloc, store, env, left, frames, turned, line)?;
            Ok(paid)
        }
        Operator::AtMost => {
            let paid = at_most(alloc, store, env, left, frames, operands, line)?;
            Ok(paid)
        }
        Operator::AtLeast => {
            let paid = at_most(alloc, store, env, left, frames, turned, line)?;
            Ok(paid)
        }
        Operator::Equal => {
            let step = equals(alloc, store, env, frames, false, operands, line)?;
            Ok(Paid::Goes(step))
        }
        Operator::Unequal => {
            let step = equals(alloc, store, env, frames, true, operands, line)?;
            Ok(Paid::Goes(step))
        }
        Operator::Concatenate => unreachable!(),
        Operator::Calculate(which) => {
            let step = calculate(alloc, store, env, frames, which, operands, line)?;
            Ok(Paid::Goes(step))
        }
    }
}

fn is_concatenation(op: Operator) -> bool
    ensures { IsTrue result ↔ (op ≡ operator.Concatenate) }
{
    match op {
        Operator::Concatenate => true,
        Operator::Less => false,
        Operator::Greater => false,
        Operator::AtMost => false,
        Operator::AtLeast => false,
        Operator::Equal => false,
        Operator::Unequal => false,
        Operator::Calculate(_) => false,
    }
}

/// What an operator gives for two operands. Where steps are spent, the store is as it was.
pub fn operate<'m>(
    alloc: Global,
    store: &mut Store,
    env: &Environment,
    left: &mut Left,
    frames: &mut Frames<'m>,
    op: Operator,
    operands: (Value, Value),
    line: Option<u32>,
) -> Result<Paid<'m>, NoMemory>
    requires first { IsOf store.old operands.0 }
    requires second { IsOf store.old operands.1 }
    requires env { EnvironmentOf store.old env.now }
    requires frames { FramesOf store.old frames.old }
    ensures of { IfOk result (λ r. PaidOf store.new r × FramesOf store.new frames.new) }
    ensures later { OnOk result (IsLater store.old store.new) }
    ensures still { IfOk result (λ r. IfSpent r (store.new ≡ store.old)) }
    ensures move_ { IfOk result (λ r. (s : Slots) (in_progress : ℕ) (tally : Tally) → s.heap ≡ store.old.heap
        → enact (machine.operate (operator_seen op) (seen store.old.texts operands.0) (seen store.old.texts operands.1) line (frames_seen store.old.texts frames.old) s) (record { left = left.old; in_progress = in_progress; tally = tally })
        ≡ paid_seen store.new r (frames_seen store.new.texts frames.new) (with_heap store.new.heap s) (record { left = left.new; in_progress = in_progress; tally = tally })) }
{
    if is_concatenation(op) {
        let paid = concatenate(alloc, store, env, left, frames, operands, line)?;
        return Ok(paid);
    }
    let paid = compare_or_calculate(alloc, store, env, left, frames, op, operands, line)?;
    Ok(paid)
}

/// What an operator gives for its one operand. None of them takes a step.
pub fn apply<'m>(
    alloc: Global,
    store: &mut Store,
    env: &Environment,
    left: &mut Left,
    frames: &mut Frames<'m>,
    op: UnaryOp,
    value: Value,
    line: Option<u32>,
) -> Result<Paid<'m>, NoMemory>
    requires value { IsOf store.old value }
    requires env { EnvironmentOf store.old env.now }
    requires frames { FramesOf store.old frames.old }
    ensures of { IfOk result (λ r. PaidOf store.new r × FramesOf store.new frames.new) }
    ensures later { OnOk result (IsLater store.old store.new) }
    ensures still { IfOk result (λ r. IfSpent r (store.new ≡ store.old)) }
    ensures move_ { IfOk result (λ r. (s : Slots) (in_progress : ℕ) (tally : Tally) → s.heap ≡ store.old.heap
        → enact (machine.apply op (seen store.old.texts value) line (frames_seen store.old.texts frames.old) s) (record { left = left.old; in_progress = in_progress; tally = tally })
        ≡ paid_seen store.new r (frames_seen store.new.texts frames.new) (with_heap store.new.heap s) (record { left = left.new; in_progress = in_progress; tally = tally })) }
{
    match op {
        UnaryOp::Not => Ok(Paid::Goes(answer(true, is_true(value)))),
        UnaryOp::Len => Ok(Paid::Goes(length_of(store, value, line))),
        UnaryOp::Minus => {
            let step = negate(alloc, store, env, frames, value, line)?;
            Ok(Paid::Goes(step))
        }
    }
}
