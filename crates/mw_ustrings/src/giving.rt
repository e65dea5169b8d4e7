//! What is given, after what it costs.
ghost use Rattle.std.specs.Prelude.{◌≡◌, ℕ, List as Items, pos, [], ◌∷◌, IfOk};
ghost use Rattle.mw_frame_texts.specs.LuaHeapValue as kind;
ghost use Rattle.mw_frame_texts.specs.LuaMeaningArguments.{gives, costs, gives_text};
ghost use Rattle.mw_frame_texts.specs.LuaStoreSeen.{StoreView, seen};
ghost use Rattle.mw_frame_texts.specs.LuaStoreParts.{IsOf, IsLater};
ghost use Rattle.mw_frame_texts.specs.LuaBasicSeen.{values_seen, AllOf, Free, Paid, AnswerOf};
ghost use Rattle.mw_frame_texts.specs.LuaBasicDeclaredStopStopTheVariants as stop;

use lua_number::NoMemory;
use lua_pattern::List;
use mw_frame_texts::{Left, Stop, Store, Value, pay, single};
use std::alloc::Global;

/// No step stays.
pub fn spend(left: &mut Left) -> Stop
    ensures stop_ { result ≡ stop.Spent }
    ensures rest { left.new ≡ record left.old { steps = 0 } }
{
    left.steps = 0;
    Stop::Spent
}

/// A count as a value. One that no number of Lua reaches does not fit in memory.
pub fn number(n: usize) -> Result<Value, NoMemory>
    ensures of { IfOk result (λ v. (s : StoreView) → IsOf s v) }
    ensures value { IfOk result (λ v.
        (texts : Items (Items ℕ)) → seen texts v ≡ kind.Number (pos n)) }
{
    match i64::try_from(n) {
        Ok(n) => Ok(Value::Number(n)),
        Err(_) => Err(NoMemory),
    }
}

/// A text as the only value of a list. It is paid for already.
pub fn text_value(alloc: Global, store: &mut Store, text: &[u8]) -> Result<List<Value>, NoMemory>
    ensures value { IfOk result (λ values.
        values_seen store.new.texts values ≡ kind.Text text.now ∷ []) }
    ensures of { IfOk result (AllOf store.new) }
    ensures heap { store.new.heap ≡ store.old.heap }
    ensures later { IsLater store.old store.new }
{
    let text = store.text(text)?;
    let values = single(alloc, Value::Text(text))?;
    Ok(values)
}

/// A text is given, after a step for each of its bytes.
pub fn give_text(
    alloc: Global,
    store: &mut Store,
    left: &mut Left,
    text: &[u8],
) -> Result<List<Value>, Stop>
    ensures answer { Paid (gives_text store.old.heap text.now) store.old left.old
        store.new left.new result }
    ensures of { AnswerOf store.new result }
    ensures later { IsLater store.old store.new }
{
    pay(left, text.len() as u64)?;
    let values = text_value(alloc, store, text)?;
    Ok(values)
}

/// Nil is given, after so many steps.
pub fn give_nothing(
    alloc: Global,
    store: &mut Store,
    left: &mut Left,
    steps: u64,
) -> Result<List<Value>, Stop>
    ensures answer { Paid (costs steps store.old.heap (kind.Nil ∷ [])) store.old left.old
        store.new left.new result }
    ensures of { AnswerOf store.new result }
    ensures same { store.new ≡ store.old }
{
    pay(left, steps)?;
    let values = single(alloc, Value::Nil)?;
    Ok(values)
}
