//! How a run ends: its text or its value is given, or the text of a failure is raised (Scribunto, "Lua error").
ghost use Rattle.std.specs.Prelude.{codes, IfOk};
ghost use Rattle.page_run.specs.Outcome.{Goes, Jumps};
ghost use Rattle.page_run.specs.WkBaseDeclaredLeftLeft.{Left as Allowance};
ghost use Rattle.lua_code.specs.LuaHeapValue as kind;
ghost use Rattle.lua_code.specs.LuaMeaningActs as act;
ghost use Rattle.mw_html_texts.specs.LuaMeaningHtml.{nested_too_deeply};
ghost use Rattle.lua_code.specs.LuaMeaningStart.{Done, Failed, data_value};
ghost use Rattle.lua_modules.specs.LuaSlotsErrors.{jumps};
ghost use Rattle.lua_code.specs.LuaSlotsStarts.{invoke_ends, data_ends};
ghost use Rattle.lua_store.specs.Parts.{IsOf};
ghost use Rattle.lua_store.specs.Seen.{seen};
ghost use Rattle.lua_modules.specs.LuaStackOf.{JumpOf};
ghost use Rattle.lua_modules.specs.LuaStackSeen.{jump_seen};
ghost use Rattle.lua_modules.specs.LuaStateMakes.{Makes};
ghost use Rattle.lua_modules.specs.LuaStateOf.{StateOf};
ghost use Rattle.lua_modules.specs.LuaStateSeen.{frames_of, slots_of};

use crate::html::escaped;
use crate::messages::{lua_error, shown_error};
use lua_code::NoMemory;
use lua_modules::{Focus, Given, Jump, State, Turn};
use lua_store::{Store, Value};
use std::alloc::Global;

/// An invocation gives this text.
pub fn done<'m>(store: &mut Store, state: &State<'m>, text: &[u8]) -> Result<Turn<'m>, NoMemory>
    requires { StateOf store.old state.now }
    ensures { (l : Allowance) → IfOk result (λ r. Makes store.old state.now l store.new state.now l (invoke_ends (Goes (Done text.now)) (frames_of store.old state.now) (slots_of store.old state.now)) r) }
{
    let id = store.text(text)?;
    Ok(Turn::On(Focus::Gives(Given::One(Value::Text(id)))))
}

/// An error whose value is this text.
fn raise<'m>(store: &mut Store, state: &State<'m>, text: &[u8]) -> Result<Turn<'m>, NoMemory>
    requires { StateOf store.old state.now }
    ensures { (l : Allowance) → IfOk result (λ r. Makes store.old state.now l store.new state.now l (jumps (act.Raised (kind.Text text.now)) (frames_of store.old state.now) (slots_of store.old state.now)) r) }
{
    let id = store.text(text)?;
    Ok(Turn::On(Focus::Jumps(Jump::Raised(Value::Text(id)))))
}

/// An invocation fails: the message is to stand in a page, so it is written without marks of HTML.
pub fn failed<'m>(
    alloc: Global,
    store: &mut Store,
    state: &State<'m>,
    message: &[u8],
) -> Result<Turn<'m>, NoMemory>
    requires { StateOf store.old state.now }
    ensures { (l : Allowance) → IfOk result (λ r. Makes store.old state.now l store.new state.now l (invoke_ends (Goes (Failed message.now)) (frames_of store.old state.now) (slots_of store.old state.now)) r) }
{
    let text = escaped(alloc, message)?;
    let written = text.as_slice();
    let turn = raise(store, state, written)?;
    Ok(turn)
}

/// An error that nothing in an invocation caught.
fn error<'m>(
    alloc: Global,
    store: &mut Store,
    state: &State<'m>,
    value: Value,
) -> Result<Turn<'m>, NoMemory>
    requires state { StateOf store.old state.now }
    requires value { IsOf store.old value }
    ensures { (l : Allowance) → IfOk result (λ r. Makes store.old state.now l store.new state.now l
        (invoke_ends (Jumps (act.Raised (seen store.old.texts value))) (frames_of store.old state.now) (slots_of store.old state.now)) r) }
{
    let text = lua_error(alloc, store, value)?;
    let message = text.as_slice();
    let turn = failed(alloc, store, state, message)?;
    Ok(turn)
}

/// What nothing in an invocation caught: of an error its text or kind is shown.
pub fn uncaught<'m>(
    alloc: Global,
    store: &mut Store,
    state: &State<'m>,
    jump: Jump,
) -> Result<Turn<'m>, NoMemory>
    requires state { StateOf store.old state.now }
    requires jump { JumpOf store.old jump }
    ensures { (l : Allowance) → IfOk result (λ r. Makes store.old state.now l store.new state.now l (invoke_ends (Jumps (jump_seen store.old.texts jump)) (frames_of store.old state.now) (slots_of store.old state.now)) r) }
{
    match jump {
        Jump::Raised(value) => error(alloc, store, state, value),
        Jump::Returned(values) => Ok(Turn::On(Focus::Jumps(Jump::Returned(values)))),
        Jump::Broke => Ok(Turn::On(Focus::Jumps(Jump::Broke))),
    }
}

/// A handler for `tostring` gave no text for a value of the answer.
pub fn no_string<'m>(store: &mut Store, state: &State<'m>) -> Result<Turn<'m>, NoMemory>
    requires { StateOf store.old state.now }
    ensures { (l : Allowance) → IfOk result (λ r. Makes store.old state.now l store.new state.now l
        (invoke_ends (Jumps (act.Raised (kind.Text (codes "'tostring' must return a string")))) (frames_of store.old state.now) (slots_of store.old state.now)) r) }
{
    let turn = raise(store, state, b"Lua error: 'tostring' must return a string")?;
    Ok(turn)
}

/// An object of `mw.html` among the values of the answer stands too deep.
pub fn too_deep<'m>(store: &mut Store, state: &State<'m>) -> Result<Turn<'m>, NoMemory>
    requires { StateOf store.old state.now }
    ensures { (l : Allowance) → IfOk result (λ r. Makes store.old state.now l store.new state.now l
        (invoke_ends (Jumps (act.Raised (kind.Text nested_too_deeply))) (frames_of store.old state.now) (slots_of store.old state.now)) r) }
{
    let turn = raise(store, state, b"Lua error: html tree nested too deeply")?;
    Ok(turn)
}

/// A data module whose value is no table.
fn no_table<'m>(store: &mut Store, state: &State<'m>) -> Result<Turn<'m>, NoMemory>
    requires { StateOf store.old state.now }
    ensures { (l : Allowance) → IfOk result (λ r. Makes store.old state.now l store.new state.now l
        (data_ends (Goes (Failed (codes "data module returned no table"))) (frames_of store.old state.now) (slots_of store.old state.now)) r) }
{
    let turn = raise(store, state, b"data module returned no table")?;
    Ok(turn)
}

/// The value of a data module, which must be a table.
pub fn data_given<'m>(
    store: &mut Store,
    state: &State<'m>,
    value: Value,
) -> Result<Turn<'m>, NoMemory>
    requires state { StateOf store.old state.now }
    requires value { IsOf store.old value }
    ensures { (l : Allowance) → IfOk result (λ r. Makes store.old state.now l store.new state.now l
        (data_ends (Goes (data_value (seen store.old.texts value))) (frames_of store.old state.now) (slots_of store.old state.now)) r) }
{
    match value {
        Value::Table(_) => Ok(Turn::On(Focus::Gives(Given::One(value)))),
        Value::Nil => no_table(store, state),
        Value::Bool(_) => no_table(store, state),
        Value::Number(_) => no_table(store, state),
        Value::Text(_) => no_table(store, state),
        Value::Closure(_) => no_table(store, state),
        Value::Builtin(_) => no_table(store, state),
        Value::Markup(_) => no_table(store, state),
    }
}

/// An error that nothing in the run of a data module caught.
fn data_error<'m>(
    alloc: Global,
    store: &mut Store,
    state: &State<'m>,
    value: Value,
) -> Result<Turn<'m>, NoMemory>
    requires state { StateOf store.old state.now }
    requires value { IsOf store.old value }
    ensures { (l : Allowance) → IfOk result (λ r. Makes store.old state.now l store.new state.now l
        (data_ends (Jumps (act.Raised (seen store.old.texts value))) (frames_of store.old state.now) (slots_of store.old state.now)) r) }
{
    let text = shown_error(alloc, store, value)?;
    let message = text.as_slice();
    let turn = raise(store, state, message)?;
    Ok(turn)
}

/// What nothing in the run of a data module caught: an error's text or kind becomes the value of an error.
pub fn data_uncaught<'m>(
    alloc: Global,
    store: &mut Store,
    state: &State<'m>,
    jump: Jump,
) -> Result<Turn<'m>, NoMemory>
    requires state { StateOf store.old state.now }
    requires jump { JumpOf store.old jump }
    ensures { (l : Allowance) → IfOk result (λ r. Makes store.old state.now l store.new state.now l (data_ends (Jumps (jump_seen store.old.texts jump)) (frames_of store.old state.now) (slots_of store.old state.now)) r) }
{
    match jump {
        Jump::Raised(value) => data_error(alloc, store, state, value),
        Jump::Returned(values) => Ok(Turn::On(Focus::Jumps(Jump::Returned(values)))),
        Jump::Broke => Ok(Turn::On(Focus::Jumps(Jump::Broke))),
    }
}
