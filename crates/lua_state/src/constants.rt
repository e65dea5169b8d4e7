//! The constants of the running function's module, as texts of the store. One that was found is held, and not looked for again in a run.
ghost use Rattle.std.specs.Prelude.{◌≡◌, IfOk, IfSome, OnOk};
ghost use Rattle.lua_arms.specs.LuaSlotsCalls.{code_of};
ghost use Rattle.lua_goes.specs.LuaSlotsSlots.{newest_function};
ghost use Rattle.mw_frames.specs.LuaStoreParts.{IsLater, IsTextOf};
ghost use Rattle.mw_frames.specs.LuaStoreSeen.{StoreView, text_at};
ghost use Rattle.lua_arms.specs.LuaStackOf.{ActivationsOf};
ghost use Rattle.lua_arms.specs.LuaStackSeen.{activations_seen};
ghost use Rattle.lua_state.specs.Of.{StateOf, IsConstant};
ghost use Rattle.lua_state.specs.Seen.{constants_in};
ghost use Rattle.lua_state.specs.Worlds.{world_seen, CodesOf};

use crate::codes::Codes;
use crate::held::Held;
use crate::state::State;
use lua_arms::Activations;
use lua_code::NoMemory;
use mw_frames::{Store, TextId};
use std::alloc::Global;

/// The text of the title of the running function's module, which is empty where no function is in progress.
pub fn running_source(store: &mut Store, functions: &Activations) -> Result<TextId, NoMemory>
    requires { ActivationsOf store.old functions.now }
    ensures of { IfOk result (λ id. IsTextOf store.new id) }
    ensures later { OnOk result (IsLater store.old store.new) }
    ensures heap { OnOk result (store.new.heap ≡ store.old.heap) }
    ensures title { IfOk result (λ id. text_at store.new.texts id.at ≡ (newest_function (activations_seen store.old functions.now)).source) }
{
    match functions.newest() {
        Some(newest) => Ok(newest.source),
        None => {
            let id = store.text(&[])?;
            Ok(id)
        }
    }
}

/// A constant of the module of this title, which is looked for in the store.
fn looked_up<'m>(
    alloc: Global,
    store: &mut Store,
    codes: &Codes<'m>,
    source: TextId,
    number: u32,
) -> Result<TextId, NoMemory>
    requires source { IsTextOf store.old source }
    requires codes { CodesOf store.old codes.now }
    ensures of { IfOk result (λ id. IsTextOf store.new id) }
    ensures text { IfOk result (λ id. text_at store.new.texts id.at ≡ (code_of ((world_seen codes.now.world).modules (text_at store.old.texts source.at))).constant number) }
    ensures later { OnOk result (IsLater store.old store.new) }
    ensures heap { OnOk result (store.new.heap ≡ store.old.heap) }
{
    let bytes = codes.constant_bytes(alloc, store, source, number)?;
    let id = store.text(bytes)?;
    Ok(id)
}

/// A constant of the module of this title, which is held from now on.
fn held_from_now<'m>(
    alloc: Global,
    store: &mut Store,
    codes: &mut Codes<'m>,
    source: TextId,
    number: u32,
) -> Result<TextId, NoMemory>
    requires source { IsTextOf store.old source }
    requires codes { CodesOf store.old codes.old }
    ensures of { IfOk result (λ id. IsTextOf store.new id) }
    ensures text { IfOk result (λ id. text_at store.new.texts id.at ≡ (code_of ((world_seen codes.old.world).modules (text_at store.old.texts source.at))).constant number) }
    ensures later { OnOk result (IsLater store.old store.new) }
    ensures heap { OnOk result (store.new.heap ≡ store.old.heap) }
    ensures world { OnOk result (codes.new.world ≡ codes.old.world) }
    ensures codes { OnOk result (CodesOf store.new codes.new) }
{
    codes.turn_to(source);
    match codes.held(source, number) {
        Some(text) => Ok(text),
        None => {
            let text = looked_up(alloc, store, codes, source, number)?;
            codes.hold(Held {
                source,
                number,
                text,
            })?;
            Ok(text)
        }
    }
}

/// The constant of this number in the running function's module, which is held from now on.
pub fn constant<'m>(
    alloc: Global,
    store: &mut Store,
    state: &mut State<'m>,
    number: u32,
) -> Result<TextId, NoMemory>
    requires { StateOf store.old state.old }
    ensures of { IfOk result (λ id. IsTextOf store.new id) }
    ensures text { IfOk result (λ id. text_at store.new.texts id.at ≡ constants_in store.old state.old number) }
    ensures later { OnOk result (IsLater store.old store.new) }
    ensures heap { OnOk result (store.new.heap ≡ store.old.heap) }
    ensures state { OnOk result (StateOf store.new state.new) }
    ensures world { OnOk result (state.new.codes.world ≡ state.old.codes.world) }
    ensures kept { state.new ≡ record state.old { codes = state.new.codes } }
{
    let source = running_source(store, &state.functions)?;
    let text = held_from_now(alloc, store, &mut state.codes, source, number)?;
    Ok(text)
}

/// The constant of this number in the running function's module, if it is held. The state is only looked at: a constant that is not held yet
/// is left to whoever can hold it.
pub fn constant_at_hand<'m>(state: &State<'m>, number: u32) -> Option<TextId>
    ensures { (s : StoreView) → StateOf s state.now → IfSome result (IsConstant s state.now number) }
{
    match state.functions.newest() {
        Some(newest) => state.codes.held(newest.source, number),
        None => None,
    }
}
