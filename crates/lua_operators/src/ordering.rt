//! The order of two values (manual 2.5.2): of numbers, of texts, which are compared byte by byte, or by their handlers.
ghost use Rattle.std.specs.Prelude.{◌≡◌, ◌≤◌, ◌-◌, ◌↔◌, IsTrue, ℕ, List, length, min, not, IfOk};
ghost use Rattle.page_run.specs.State.{Tally};
ghost use Rattle.lua_code.specs.LuaMeaningOperators as plain;
ghost use Rattle.lua_arms.specs.LuaStoreSeen.{seen, text_at};
ghost use Rattle.lua_arms.specs.LuaStoreParts.{IsOf, IsTextOf};
ghost use Rattle.lua_arms.specs.LuaSlotsSlots.{Slots};
ghost use Rattle.lua_arms.specs.LuaSlotsPoints.{SFrame};
ghost use Rattle.lua_code.specs.LuaSlotsEnact.{enact};
ghost use Rattle.lua_code.specs.LuaSlotsOperators as machine;
ghost use Rattle.lua_arms.specs.LuaStackSeen.{frames_seen};
ghost use Rattle.lua_arms.specs.LuaStackOf.{FramesOf, EnvironmentOf};
ghost use Rattle.lua_arms.specs.Paid.{paid_seen, PaidOf};
ghost use Rattle.lua_operators.specs.Orders.{order_as};

use crate::comparison::{answer, at_most_by_handler, less_by_handler};
use lua_arms::{Environment, Frames, Left, Paid, Store, TextId, Value};
use lua_code::NoMemory;
use page_run::Which;
use std::alloc::Global;

/// How two values are ordered: as numbers, as texts, or as their handlers say.
#[derive(Clone, Copy)]
enum Order {
    Numbers(i64, i64),
    Texts(TextId, TextId),
    Others,
}

/// How two values are ordered.
fn order_of(first: Value, second: Value) -> Order
    ensures { result ≡ order_as first second }
{
    match first {
        Value::Number(a) => match second {
            Value::Nil => Order::Others,
            Value::Bool(_) => Order::Others,
            Value::Number(b) => Order::Numbers(a, b),
            Value::Text(_) => Order::Others,
            Value::Table(_) => Order::Others,
            Value::Closure(_) => Order::Others,
            Value::Builtin(_) => Order::Others,
            Value::Markup(_) => Order::Others,
        },
        Value::Text(a) => match second {
            Value::Nil => Order::Others,
            Value::Bool(_) => Order::Others,
            Value::Number(_) => Order::Others,
            Value::Text(b) => Order::Texts(a, b),
            Value::Table(_) => Order::Others,
            Value::Closure(_) => Order::Others,
            Value::Builtin(_) => Order::Others,
            Value::Markup(_) => Order::Others,
        },
        Value::Nil => Order::Others,
        Value::Bool(_) => Order::Others,
        Value::Table(_) => Order::Others,
        Value::Closure(_) => Order::Others,
        Value::Builtin(_) => Order::Others,
        Value::Markup(_) => Order::Others,
    }
}

/// Whether the first text is less than the second, byte by byte.
fn text_less(first: &[u8], second: &[u8]) -> bool
    ensures { result ≡ plain.text_less first.now second.now }
{
    let mut left = first;
    let mut right = second;
    'bytes: while let [x, behind_x @ ..] = left {
        match right {
            [] => return false,
            [y, behind_y @ ..] => {
                if *x != *y {
                    return *x < *y;
                }
                left = behind_x;
                right = behind_y;
            }
        }
    }
    !right.is_empty()
}

/// Takes as many steps as the shorter text has bytes. Where fewer are left, the answer is false and none stay.
fn take_shorter(left: &mut Left, first: &[u8], second: &[u8]) -> bool
    ensures covered { IsTrue result ↔ (min (length first.now) (length second.now) ≤ left.old.steps) }
    ensures rest { left.new ≡ record left.old { steps = left.old.steps - min (length first.now) (length second.now) } }
{
    left.take_steps(first.len().min(second.len()) as u64)
}

/// Whether the first text is less than the second. It costs as many steps as the shorter one has bytes.
fn less_texts<'m>(store: &Store, left: &mut Left, first: TextId, second: TextId) -> Paid<'m>
    requires first { IsTextOf store.now first }
    requires second { IsTextOf store.now second }
    ensures of { PaidOf store.now result }
    ensures move_ { (fs : List SFrame) (s : Slots) (in_progress : ℕ) (tally : Tally)
        → enact (machine.order_texts (text_at store.now.texts first.at) (text_at store.now.texts second.at) (plain.text_less (text_at store.now.texts first.at) (text_at store.now.texts second.at)) fs s) (record { left = left.old; in_progress = in_progress; tally = tally })
        ≡ paid_seen store.now result fs s (record { left = left.new; in_progress = in_progress; tally = tally }) }
{
    let a = store.bytes(first);
    let b = store.bytes(second);
    if !take_shorter(left, a, b) {
        return Paid::Spent(Which::Steps);
    }
    Paid::Goes(answer(false, text_less(a, b)))
}

/// Whether the first text is at most the second. It costs as many steps as the shorter one has bytes.
fn at_most_texts<'m>(store: &Store, left: &mut Left, first: TextId, second: TextId) -> Paid<'m>
    requires first { IsTextOf store.now first }
    requires second { IsTextOf store.now second }
    ensures of { PaidOf store.now result }
    ensures move_ { (fs : List SFrame) (s : Slots) (in_progress : ℕ) (tally : Tally)
        → enact (machine.order_texts (text_at store.now.texts first.at) (text_at store.now.texts second.at) (not (plain.text_less (text_at store.now.texts second.at) (text_at store.now.texts first.at))) fs s) (record { left = left.old; in_progress = in_progress; tally = tally })
        ≡ paid_seen store.now result fs s (record { left = left.new; in_progress = in_progress; tally = tally }) }
{
    let a = store.bytes(first);
    let b = store.bytes(second);
    if !take_shorter(left, a, b) {
        return Paid::Spent(Which::Steps);
    }
    Paid::Goes(answer(false, !text_less(b, a)))
}

/// Whether the first value is less than the second.
pub fn less<'m>(
    alloc: Global,
    store: &Store,
    env: &Environment,
    left: &mut Left,
    frames: &mut Frames<'m>,
    operands: (Value, Value),
    line: Option<u32>,
) -> Result<Paid<'m>, NoMemory>
    requires first { IsOf store.now operands.0 }
    requires second { IsOf store.now operands.1 }
    requires env { EnvironmentOf store.now env.now }
    requires frames { FramesOf store.now frames.old }
    ensures of { IfOk result (λ r. PaidOf store.now r × FramesOf store.now frames.new) }
    ensures move_ { IfOk result (λ r. (s : Slots) (in_progress : ℕ) (tally : Tally) → s.heap ≡ store.now.heap
        → enact (machine.less (seen store.now.texts operands.0) (seen store.now.texts operands.1) line (frames_seen store.now.texts frames.old) s) (record { left = left.old; in_progress = in_progress; tally = tally })
        ≡ paid_seen store.now r (frames_seen store.now.texts frames.new) s (record { left = left.new; in_progress = in_progress; tally = tally })) }
{
    let (first, second) = operands;
    match order_of(first, second) {
        Order::Numbers(a, b) => Ok(Paid::Goes(answer(false, a < b))),
        Order::Texts(a, b) => Ok(less_texts(store, left, a, b)),
        Order::Others => {
            let step = less_by_handler(alloc, store, env, frames, operands, line)?;
            Ok(Paid::Goes(step))
        }
    }
}

/// Whether the first value is at most the second. Without a handler of its own this is that the second is not less.
pub fn at_most<'m>(
    alloc: Global,
    store: &Store,
    env: &Environment,
    left: &mut Left,
    frames: &mut Frames<'m>,
    operands: (Value, Value),
    line: Option<u32>,
) -> Result<Paid<'m>, NoMemory>
    requires first { IsOf store.now operands.0 }
    requires second { IsOf store.now operands.1 }
    requires env { EnvironmentOf store.now env.now }
    requires frames { FramesOf store.now frames.old }
    ensures of { IfOk result (λ r. PaidOf store.now r × FramesOf store.now frames.new) }
    ensures move_ { IfOk result (λ r. (s : Slots) (in_progress : ℕ) (tally : Tally) → s.heap ≡ store.now.heap
        → enact (machine.at_most (seen store.now.texts operands.0) (seen store.now.texts operands.1) line (frames_seen store.now.texts frames.old) s) (record { left = left.old; in_progress = in_progress; tally = tally })
        ≡ paid_seen store.now r (frames_seen store.now.texts frames.new) s (record { left = left.new; in_progress = in_progress; tally = tally })) }
{
    let (first, second) = operands;
    match order_of(first, second) {
        Order::Numbers(a, b) => Ok(Paid::Goes(answer(false, a <= b))),
        Order::Texts(a, b) => Ok(at_most_texts(store, left, a, b)),
        Order::Others => {
            let step = at_most_by_handler(alloc, store, env, frames, operands, line)?;
            Ok(Paid::Goes(step))
        }
    }
}
