//! Texts that a function of the library makes, which cost their bytes.
ghost use Rattle.std.specs.Prelude.{◌∷◌, [], IfOk};
ghost use Rattle.page_run.specs.WkBaseDeclaredLeftLeft.{Left as Allowance};
ghost use Rattle.lua_code.specs.LuaHeapValue as kind;
ghost use Rattle.lua_code.specs.LuaMeaningCallBacks.{text_of as plain_text};
ghost use Rattle.lua_code.specs.LuaSlotsCallBacks as machine;
ghost use Rattle.lua_state.specs.LuaSlotsErrors.{gives};
ghost use Rattle.lua_state.specs.LuaStoreParts.{IsOf};
ghost use Rattle.lua_state.specs.LuaStoreSeen.{seen};
ghost use Rattle.lua_state.specs.Makes.{Makes};
ghost use Rattle.lua_state.specs.Of.{StateOf};
ghost use Rattle.lua_state.specs.Seen.{frames_of, slots_of};

use crate::exits::give;
use lua_code::NoMemory;
use lua_libs::mw::text_of;
use lua_state::{State, Store, Turn, Value, pay};
use mw_html_texts::Left;
use page_run::Which;
use std::alloc::Global;

/// A text that is paid for.
fn give_paid<'m>(store: &mut Store, state: &State<'m>, bytes: &[u8]) -> Result<Turn<'m>, NoMemory>
    requires { StateOf store.old state.now }
    ensures { (l : Allowance) → IfOk result (λ r. Makes store.old state.now l store.new state.now l (gives (kind.Text bytes.now ∷ []) (frames_of store.old state.now) (slots_of store.old state.now)) r) }
{
    let text = store.text(bytes)?;
    Ok(give(store, state, Value::Text(text)))
}

/// A text, which costs a step for each of its bytes.
pub fn give_text<'m>(
    store: &mut Store,
    left: &mut Left,
    state: &State<'m>,
    bytes: &[u8],
) -> Result<Turn<'m>, NoMemory>
    requires { StateOf store.old state.now }
    ensures { IfOk result (λ r. Makes store.old state.now left.old store.new state.now left.new (machine.gives_text bytes.now (frames_of store.old state.now) (slots_of store.old state.now)) r) }
{
    if !pay(left, bytes.len() as u64) {
        return Ok(Turn::Spent(Which::Steps));
    }
    let turn = give_paid(store, state, bytes)?;
    Ok(turn)
}

/// The text of a value that has no handler for `tostring`.
pub fn give_text_of<'m>(
    alloc: Global,
    store: &mut Store,
    left: &mut Left,
    state: &State<'m>,
    value: Value,
) -> Result<Turn<'m>, NoMemory>
    requires state { StateOf store.old state.now }
    requires value { IsOf store.old value }
    ensures { IfOk result (λ r. Makes store.old state.now left.old store.new state.now left.new (machine.gives_text (plain_text (seen store.old.texts value)) (frames_of store.old state.now) (slots_of store.old state.now)) r) }
{
    let text = text_of(alloc, store, value)?;
    let turn = give_text(store, left, state, text.as_slice())?;
    Ok(turn)
}
