//! An error with its message (manual 2.7), which costs as many steps as the whole message has bytes where it gets a place, or where it
//! quotes a text of the call.
ghost use Rattle.std.specs.Prelude.{◌≡◌, ◌++◌, ℕ, List, length, IfOk, OnOk};
ghost use Rattle.page_run.specs.State.{Tally};
ghost use Rattle.lua_replacing.specs.LuaMeaningMessages.{place_text};
ghost use Rattle.lua_store.specs.Parts.{IsLater, IsTextOf};
ghost use Rattle.lua_code.specs.LuaSlotsSlots.{Slots};
ghost use Rattle.lua_code.specs.LuaSlotsEnact.{Funds, enact};
ghost use Rattle.lua_code.specs.LuaSlotsErrors.{raises, raises_quote, jumps};
ghost use Rattle.lua_code.specs.LuaSlotsPoints.{Costs};
ghost use Rattle.lua_code.specs.LuaHeapValue as kind;
ghost use Rattle.lua_code.specs.LuaMeaningActs.{Raised};
ghost use Rattle.lua_stack.specs.declared.frame.Frame.{Frame as Waiting};
ghost use Rattle.lua_stack.specs.Seen.{frames_seen, level_seen};
ghost use Rattle.lua_stack.specs.Of.{FramesOf};
ghost use Rattle.lua_stack.specs.Raised.{raised_seen, RaisingOf, IfSpent, place_seen, MayBeLevelOf};

use crate::activation::Level;
use itoa::Buffer;
use lua_store::{Store, Value};
use mw_frame::{Left, NoMemory};
use page_run::Which;
use std::alloc::Global;

/// An error is raised, or an allowance is spent.
#[derive(Clone, Copy)]
pub enum Raising {
    Raises(Value),
    Spent(Which),
}

/// More bytes behind these.
fn append(message: &mut Vec<u8>, more: &[u8]) -> Result<(), NoMemory>
    ensures { OnOk result (message.new.items ≡ message.old.items ++ more.now) }
{
    match message.extend_from_slice(more) {
        Ok(_) => Ok(()),
        Err(_) => Err(NoMemory),
    }
}

/// What stands in front of a message: the module and the line.
fn place_of(alloc: Global, store: &Store, level: &Level) -> Result<Vec<u8>, NoMemory>
    requires { IsTextOf store.now level.now.source }
    ensures { IfOk result (λ text. text.items ≡ place_text (level_seen store.now.texts level.now)) }
{
    let mut buffer = Buffer::new();
    let mut text = Vec::new(alloc);
    append(&mut text, store.bytes(level.source))?;
    append(&mut text, b":")?;
    append(&mut text, buffer.format(level.line).as_bytes())?;
    append(&mut text, b": ")?;
    Ok(text)
}

/// A message with its place in front.
fn with_place(
    alloc: Global,
    store: &Store,
    level: &Level,
    message: &[u8],
) -> Result<Vec<u8>, NoMemory>
    requires { IsTextOf store.now level.now.source }
    ensures { IfOk result (λ text. text.items ≡ place_text (level_seen store.now.texts level.now) ++ message.now) }
{
    let mut text = place_of(alloc, store, level)?;
    append(&mut text, message)?;
    Ok(text)
}

/// An error with a message that costs nothing.
fn raise(store: &mut Store, message: &[u8]) -> Result<Raising, NoMemory>
    ensures later { OnOk result (IsLater store.old store.new) }
    ensures heap { OnOk result (store.new.heap ≡ store.old.heap) }
    ensures of { IfOk result (λ r. RaisingOf store.new r) }
    ensures still { IfOk result (λ r. IfSpent r (store.new ≡ store.old)) }
    ensures move_ { IfOk result (λ r. (frames : List Waiting) → FramesOf store.old frames → (s : Slots) (f : Funds)
        → enact (jumps (Raised (kind.Text message.now)) (frames_seen store.old.texts frames) s) f ≡ raised_seen store.new.texts r (frames_seen store.new.texts frames) s f) }
{
    let text = store.text(message)?;
    Ok(Raising::Raises(Value::Text(text)))
}

/// An error with a message that costs its bytes. Where the steps are spent, the store is as it was.
pub fn raise_paid(store: &mut Store, left: &mut Left, message: &[u8]) -> Result<Raising, NoMemory>
    ensures later { OnOk result (IsLater store.old store.new) }
    ensures heap { OnOk result (store.new.heap ≡ store.old.heap) }
    ensures of { IfOk result (λ r. RaisingOf store.new r) }
    ensures still { IfOk result (λ r. IfSpent r (store.new ≡ store.old)) }
    ensures move_ { IfOk result (λ r. (frames : List Waiting) → FramesOf store.old frames → (s : Slots) (in_progress : ℕ) (tally : Tally)
        → enact (Costs (length message.now) (jumps (Raised (kind.Text message.now)) (frames_seen store.old.texts frames) s)) (record { left = left.old; in_progress = in_progress; tally = tally })
        ≡ raised_seen store.new.texts r (frames_seen store.new.texts frames) s (record { left = left.new; in_progress = in_progress; tally = tally })) }
{
    if !left.take_steps(message.len() as u64) {
        return Ok(Raising::Spent(Which::Steps));
    }
    let text = store.text(message)?;
    Ok(Raising::Raises(Value::Text(text)))
}

/// An error with a message, at a place or at none. Where the steps are spent, the store is as it was.
pub fn raise_text(
    alloc: Global,
    store: &mut Store,
    left: &mut Left,
    place: Option<Level>,
    message: &[u8],
) -> Result<Raising, NoMemory>
    requires { MayBeLevelOf store.old place }
    ensures later { OnOk result (IsLater store.old store.new) }
    ensures heap { OnOk result (store.new.heap ≡ store.old.heap) }
    ensures of { IfOk result (λ r. RaisingOf store.new r) }
    ensures still { IfOk result (λ r. IfSpent r (store.new ≡ store.old)) }
    ensures move_ { IfOk result (λ r. (frames : List Waiting) → FramesOf store.old frames → (s : Slots) (in_progress : ℕ) (tally : Tally)
        → enact (raises (place_seen store.old.texts place) message.now (frames_seen store.old.texts frames) s) (record { left = left.old; in_progress = in_progress; tally = tally })
        ≡ raised_seen store.new.texts r (frames_seen store.new.texts frames) s (record { left = left.new; in_progress = in_progress; tally = tally })) }
{
    match place {
        None => {
            let raising = raise(store, message)?;
            Ok(raising)
        }
        Some(level) => {
            let text = with_place(alloc, store, &level, message)?;
            let raising = raise_paid(store, left, text.as_slice())?;
            Ok(raising)
        }
    }
}

/// An error with a message that quotes a text of the call: it costs its bytes at no place too. Where the steps are spent, the store is as
/// it was.
pub fn raise_quote(
    alloc: Global,
    store: &mut Store,
    left: &mut Left,
    place: Option<Level>,
    message: &[u8],
) -> Result<Raising, NoMemory>
    requires { MayBeLevelOf store.old place }
    ensures later { OnOk result (IsLater store.old store.new) }
    ensures heap { OnOk result (store.new.heap ≡ store.old.heap) }
    ensures of { IfOk result (λ r. RaisingOf store.new r) }
    ensures still { IfOk result (λ r. IfSpent r (store.new ≡ store.old)) }
    ensures move_ { IfOk result (λ r. (frames : List Waiting) → FramesOf store.old frames → (s : Slots) (in_progress : ℕ) (tally : Tally)
        → enact (raises_quote (place_seen store.old.texts place) message.now (frames_seen store.old.texts frames) s) (record { left = left.old; in_progress = in_progress; tally = tally })
        ≡ raised_seen store.new.texts r (frames_seen store.new.texts frames) s (record { left = left.new; in_progress = in_progress; tally = tally })) }
{
    match place {
        None => {
            let raising = raise_paid(store, left, message)?;
            Ok(raising)
        }
        Some(level) => {
            let raising = raise_text(alloc, store, left, Some(level), message)?;
            Ok(raising)
        }
    }
}
