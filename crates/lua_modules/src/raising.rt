//! Errors of `require` and `mw.loadData`.
ghost use Rattle.std.specs.Prelude.{IfOk};
ghost use Rattle.page_run.specs.WkBaseDeclaredLeftLeft.{Left as Allowance};
ghost use Rattle.lua_code.specs.LuaHeapValue as kind;
ghost use Rattle.lua_code.specs.LuaMeaningActs as act;
ghost use Rattle.lua_state.specs.LuaMeaningMessages as meaning;
ghost use Rattle.lua_state.specs.LuaSlotsErrors.{fails_quoting, jumps};
ghost use Rattle.lua_state.specs.Makes.{Makes};
ghost use Rattle.lua_state.specs.Of.{StateOf};
ghost use Rattle.lua_state.specs.Seen.{frames_of, slots_of};

use crate::messages::{loop_in_require, no_data_module, no_module};
use lua_code::NoMemory;
use lua_state::{Focus, Jump, Left, State, Store, Turn, Value, fail_quoting};
use std::alloc::Global;

/// An error whose value is this text.
pub fn raise<'m>(store: &mut Store, state: &State<'m>, text: &[u8]) -> Result<Turn<'m>, NoMemory>
    requires { StateOf store.old state.now }
    ensures { (l : Allowance) → IfOk result (λ r. Makes store.old state.now l store.new state.now l (jumps (act.Raised (kind.Text text.now)) (frames_of store.old state.now) (slots_of store.old state.now)) r) }
{
    let id = store.text(text)?;
    Ok(Turn::On(Focus::Jumps(Jump::Raised(Value::Text(id)))))
}

/// An answer that does not belong to its question.
pub fn wrong_answer<'m>(store: &mut Store, state: &State<'m>) -> Result<Turn<'m>, NoMemory>
    requires { StateOf store.old state.now }
    ensures { (l : Allowance) → IfOk result (λ r. Makes store.old state.now l store.new state.now l (jumps (act.Raised (kind.Text meaning.wrong_answer)) (frames_of store.old state.now) (slots_of store.old state.now)) r) }
{
    let turn = raise(store, state, b"the answer does not belong to the question")?;
    Ok(turn)
}

/// There is no module of the title that this text names.
pub fn lacks_module<'m>(
    alloc: Global,
    store: &mut Store,
    left: &mut Left,
    state: &State<'m>,
    text: &[u8],
    line: Option<u32>,
) -> Result<Turn<'m>, NoMemory>
    requires { StateOf store.old state.now }
    ensures { IfOk result (λ r. Makes store.old state.now left.old store.new state.now left.new (fails_quoting line (meaning.no_module text.now) (frames_of store.old state.now) (slots_of store.old state.now)) r) }
{
    let message = no_module(alloc, text)?;
    let said = message.as_slice();
    let turn = fail_quoting(alloc, store, left, state, line, said)?;
    Ok(turn)
}

/// A module of this name requires itself.
pub fn requires_itself<'m>(
    alloc: Global,
    store: &mut Store,
    left: &mut Left,
    state: &State<'m>,
    text: &[u8],
    line: Option<u32>,
) -> Result<Turn<'m>, NoMemory>
    requires { StateOf store.old state.now }
    ensures { IfOk result (λ r. Makes store.old state.now left.old store.new state.now left.new (fails_quoting line (meaning.loop_in_require text.now) (frames_of store.old state.now) (slots_of store.old state.now)) r) }
{
    let message = loop_in_require(alloc, text)?;
    let said = message.as_slice();
    let turn = fail_quoting(alloc, store, left, state, line, said)?;
    Ok(turn)
}

/// There is no data module of the title that this text names.
pub fn lacks_data<'m>(
    alloc: Global,
    store: &mut Store,
    left: &mut Left,
    state: &State<'m>,
    text: &[u8],
    line: Option<u32>,
) -> Result<Turn<'m>, NoMemory>
    requires { StateOf store.old state.now }
    ensures { IfOk result (λ r. Makes store.old state.now left.old store.new state.now left.new (fails_quoting line (meaning.no_data_module text.now) (frames_of store.old state.now) (slots_of store.old state.now)) r) }
{
    let message = no_data_module(alloc, text)?;
    let said = message.as_slice();
    let turn = fail_quoting(alloc, store, left, state, line, said)?;
    Ok(turn)
}
