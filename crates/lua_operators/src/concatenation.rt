//! Concatenation (manual 2.5.4): a text that is made costs its bytes, which are paid before it is made.
ghost use Rattle.std.specs.Prelude.{◌≡◌, ◌++◌, ◌∷◌, [], ℕ, List, length, IfOk, OnOk};
ghost use Rattle.page_run.specs.State.{Tally};
ghost use Rattle.lua_code.specs.LuaHeapValue as kind;
ghost use Rattle.lua_code.specs.LuaMeaningValues as values_of;
ghost use Rattle.lua_arms.specs.LuaStoreSeen.{seen};
ghost use Rattle.lua_arms.specs.LuaStoreParts.{IsOf, IsLater};
ghost use Rattle.lua_arms.specs.LuaSlotsSlots.{Slots, with_heap};
ghost use Rattle.lua_arms.specs.LuaSlotsPoints.{SFrame, Costs};
ghost use Rattle.lua_arms.specs.LuaSlotsErrors.{gives};
ghost use Rattle.lua_code.specs.LuaSlotsEnact.{enact};
ghost use Rattle.lua_code.specs.LuaSlotsOperators as machine;
ghost use Rattle.lua_arms.specs.LuaStackSeen.{frames_seen};
ghost use Rattle.lua_arms.specs.LuaStackOf.{FramesOf, EnvironmentOf};
ghost use Rattle.lua_arms.specs.Paid.{paid_seen, PaidOf, IfSpent};

use crate::handlers::by_either;
use lua_arms::{
    Environment, Failure, Focus, Frames, Given, Left, Paid, Step, Store, Value, text_in,
};
use lua_code::NoMemory;
use page_run::Which;
use std::alloc::Global;

/// The first text with the second behind it.
fn joined(alloc: Global, first: &[u8], second: &[u8]) -> Result<Vec<u8>, NoMemory>
    ensures { IfOk result (λ text. text.items ≡ first.now ++ second.now) }
{
    let Ok(mut text) = Vec::with_capacity(alloc, first.len() + second.len()) else {
        return Err(NoMemory);
    };
    match text.extend_from_slice(first) {
        Ok(_) => {}
        Err(_) => return Err(NoMemory),
    }
    match text.extend_from_slice(second) {
        Ok(_) => Ok(text),
        Err(_) => Err(NoMemory),
    }
}

/// Two texts become one, which costs its bytes. Where these are spent, no text is made.
fn join<'m>(
    alloc: Global,
    store: &mut Store,
    left: &mut Left,
    first: &[u8],
    second: &[u8],
) -> Result<Paid<'m>, NoMemory>
    ensures of { IfOk result (λ r. PaidOf store.new r) }
    ensures later { OnOk result (IsLater store.old store.new) }
    ensures heap { OnOk result (store.new.heap ≡ store.old.heap) }
    ensures still { IfOk result (λ r. IfSpent r (store.new ≡ store.old)) }
    ensures move_ { IfOk result (λ r. (fs : List SFrame) (s : Slots) (in_progress : ℕ) (tally : Tally)
        → enact (Costs (length (first.now ++ second.now)) (gives (kind.Text (first.now ++ second.now) ∷ []) fs s)) (record { left = left.old; in_progress = in_progress; tally = tally })
        ≡ paid_seen store.new r fs s (record { left = left.new; in_progress = in_progress; tally = tally })) }
{
    if !left.take_steps(first.len() as u64 + second.len() as u64) {
        return Ok(Paid::Spent(Which::Steps));
    }
    let bytes = joined(alloc, first, second)?;
    let text = store.text(bytes.as_slice())?;
    Ok(Paid::Goes(Step::On(Focus::Gives(Given::One(Value::Text(text))))))
}

/// Two values become one text, where both are texts or numbers, which give their digits.
pub fn concatenate<'m>(
    alloc: Global,
    store: &mut Store,
    env: &Environment,
    left: &mut Left,
    frames: &mut Frames<'m>,
    operands: (Value, Value),
    line: Option<u32>,
) -> Result<Paid<'m>, NoMemory>
    requires first { IsOf store.old operands.0 }
    requires second { IsOf store.old operands.1 }
    requires env { EnvironmentOf store.old env.now }
    requires frames { FramesOf store.old frames.old }
    ensures of { IfOk result (λ r. PaidOf store.new r × FramesOf store.new frames.new) }
    ensures later { OnOk result (IsLater store.old store.new) }
    ensures still { IfOk result (λ r. IfSpent r (store.new ≡ store.old)) }
    ensures move_ { IfOk result (λ r. (s : Slots) (in_progress : ℕ) (tally : Tally) → s.heap ≡ store.old.heap
        → enact (machine.join_texts (seen store.old.texts operands.0) (seen store.old.texts operands.1) (values_of.text_in (seen store.old.texts operands.0)) (values_of.text_in (seen store.old.texts operands.1)) line (frames_seen store.old.texts frames.old) s) (record { left = left.old; in_progress = in_progress; tally = tally })
        ≡ paid_seen store.new r (frames_seen store.new.texts frames.new) (with_heap store.new.heap s) (record { left = left.new; in_progress = in_progress; tally = tally })) }
{
    let (first, second) = operands;
    let name = env.concatenate;
    match text_in(alloc, store, first)? {
        None => {
            let failure = Failure::CannotConcatenate(first);
            let step = by_either(alloc, store, env, frames, name, operands, line, failure)?;
            Ok(Paid::Goes(step))
        }
        Some(a) => match text_in(alloc, store, second)? {
            None => {
                let failure = Failure::CannotConcatenate(second);
                let step = by_either(alloc, store, env, frames, name, operands, line, failure)?;
                Ok(Paid::Goes(step))
            }
            Some(b) => {
                let paid = join(alloc, store, left, a.as_slice(), b.as_slice())?;
                Ok(paid)
            }
        },
    }
}
