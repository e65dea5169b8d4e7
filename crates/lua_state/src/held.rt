//! Constants that were found as texts of the store.
ghost use Rattle.std.specs.Prelude.{◌≡◌, slice_get, IfSome, OnOk};
ghost use Rattle.lua_code.specs.LuaSlotsCode.{CWorld};
ghost use Rattle.mw_frames.specs.LuaStoreSeen.{StoreView};
ghost use Rattle.lua_state.specs.Worlds.{IsHeld, AreHeld};

use lua_code::NoMemory;
use mw_frames::TextId;

/// A constant, by the text of its module's title and its number there, and the text that it was found as.
#[derive(Clone, Copy)]
pub struct Held {
    pub source: TextId,
    pub number: u32,
    pub text: TextId,
}

/// What stands at this place.
fn slot(held: &[Option<Held>], at: usize) -> Option<Option<Held>>
    ensures { result ≡ slice_get held.now at }
{
    held.get(at).copied()
}

/// The constant that is held at this place, if one is.
fn held_at(held: &[Option<Held>], at: usize) -> Option<Held>
    ensures { (w : CWorld) (s : StoreView) → AreHeld w s held.now → IfSome result (IsHeld w s) }
{
    match slot(held, at) {
        Some(one) => one,
        None => None,
    }
}

/// The text of what is held, if it is this constant.
fn text_of(one: Held, source: TextId, number: u32) -> Option<TextId>
    ensures { IfSome result (λ text. one ≡ record { source = source; number = number; text = text }) }
{
    if one.source == source {
        if one.number == number {
            return Some(one.text);
        }
    }
    None
}

/// The text of this constant, if it is held at this place.
pub fn held_text(held: &[Option<Held>], at: usize, source: TextId, number: u32) -> Option<TextId>
    ensures { (w : CWorld) (s : StoreView) → AreHeld w s held.now → IfSome result (λ text. IsHeld w s (record { source = source; number = number; text = text })) }
{
    match held_at(held, at) {
        Some(one) => text_of(one, source, number),
        None => None,
    }
}

/// One more place.
fn push(held: &mut Vec<Option<Held>>) -> Result<(), NoMemory>
    ensures { OnOk result ((w : CWorld) (s : StoreView) → AreHeld w s held.old.items → AreHeld w s held.new.items) }
{
    match held.push(None) {
        Ok(_) => Ok(()),
        Err(_) => Err(NoMemory),
    }
}

/// There are as many places as are needed for this one.
fn make_room(held: &mut Vec<Option<Held>>, at: usize) -> Result<(), NoMemory>
    ensures { OnOk result ((w : CWorld) (s : StoreView) → AreHeld w s held.old.items → AreHeld w s held.new.items) }
{
    let count = held.len();
    if at < count {
        return Ok(());
    }
    'places: for _ in count..at {
        push(held)?;
    }
    push(held)?;
    Ok(())
}

/// Another constant is held at this place, if there is such a place.
fn set(held: &mut Vec<Option<Held>>, at: usize, one: Held)
    ensures { (w : CWorld) (s : StoreView) → AreHeld w s held.old.items → IsHeld w s one → AreHeld w s held.new.items }
{
    if at < held.len() {
        held[at] = Some(one);
    }
}

/// This constant is held at this place from now on.
pub fn put(held: &mut Vec<Option<Held>>, at: usize, one: Held) -> Result<(), NoMemory>
    ensures { OnOk result ((w : CWorld) (s : StoreView) → AreHeld w s held.old.items → IsHeld w s one → AreHeld w s held.new.items) }
{
    make_room(held, at)?;
    set(held, at, one);
    Ok(())
}
