//! The text of a module begins (manual 2.4.1: it is a function without parameters).
ghost use Rattle.std.specs.Prelude.{◌++◌, [], None, IfOk};
ghost use Rattle.lua_code.specs.WkBaseTitles.{title_text};
ghost use Rattle.page_run.specs.WkBaseDeclaredLeftLeft.{Left as Allowance};
ghost use Rattle.lua_code.specs.Held.{code_seen, module_seen};
ghost use Rattle.lua_code.specs.LuaHeapValue as kind;
ghost use Rattle.lua_code.specs.LuaMeaningActs as act;
ghost use Rattle.lua_syntax.specs.FaultTexts.{fault_message};
ghost use Rattle.lua_state.specs.LuaSlotsCalls.{text_of_module};
ghost use Rattle.lua_state.specs.LuaSlotsErrors.{jumps};
ghost use Rattle.lua_code.specs.LuaSlotsModules.{begins_text, runs_text};
ghost use Rattle.lua_state.specs.LuaSlotsPoints as point;
ghost use Rattle.lua_state.specs.Makes.{Makes};
ghost use Rattle.lua_state.specs.Of.{StateOf};
ghost use Rattle.lua_state.specs.Seen.{frames_of, slots_of};

use crate::raising::raise;
use lua_code::{Module, NoMemory, Protos};
use lua_state::{Callee, Focus, Left, State, Store, Thing, Turn, Values, pay};
use lua_syntax::{FaultAt, fault_message};
use mw_frame::Title;
use page_run::Which;
use std::alloc::Global;

/// The text of the module of this title is entered next.
fn begin_text<'m>(
    alloc: Global,
    store: &mut Store,
    state: &State<'m>,
    title: &Title,
) -> Result<Turn<'m>, NoMemory>
    requires { StateOf store.old state.now }
    ensures { (l : Allowance) → IfOk result (λ r. Makes store.old state.now l store.new state.now l
        (point.Now (point.Starts (point.BodyS (text_of_module (title_text title.now)) [] None) (frames_of store.old state.now)) (slots_of store.old state.now)) r) }
{
    let name = title.text()?;
    let text = name.as_slice();
    let source = store.text(text)?;
    let callee = Callee {
        source,
        index: 0,
        closure: None,
    };
    let arguments = Values::new(alloc);
    Ok(Turn::On(Focus::Starts(Thing::Body(callee, arguments, None))))
}

/// The text of the module of this title has a fault, which is raised.
fn raise_fault<'m>(
    alloc: Global,
    store: &mut Store,
    state: &State<'m>,
    title: &Title,
    fault: &FaultAt,
) -> Result<Turn<'m>, NoMemory>
    requires { StateOf store.old state.now }
    ensures { (l : Allowance) → IfOk result (λ r. Makes store.old state.now l store.new state.now l
        (jumps (act.Raised (kind.Text (fault_message title.now fault.now))) (frames_of store.old state.now) (slots_of store.old state.now)) r) }
{
    let message = fault_message(alloc, title, fault)?;
    let said = message.as_slice();
    let turn = raise(store, state, said)?;
    Ok(turn)
}

/// The text of a module of this title begins, or its fault is raised, as its code says.
fn begin_code<'m>(
    alloc: Global,
    store: &mut Store,
    state: &State<'m>,
    title: &Title,
    code: &Result<Protos, FaultAt>,
) -> Result<Turn<'m>, NoMemory>
    requires { StateOf store.old state.now }
    ensures { (l : Allowance) → IfOk result (λ r. Makes store.old state.now l store.new state.now l
        (begins_text title.now (code_seen code.now) (frames_of store.old state.now) (slots_of store.old state.now)) r) }
{
    match code {
        Ok(_) => begin_text(alloc, store, state, title),
        Err(fault) => raise_fault(alloc, store, state, title, fault),
    }
}

/// The text of a module of this title runs, which costs its length.
pub fn run_text<'m>(
    alloc: Global,
    store: &mut Store,
    left: &mut Left,
    state: &State<'m>,
    title: &Title,
    held: &Module,
) -> Result<Turn<'m>, NoMemory>
    requires { StateOf store.old state.now }
    ensures { IfOk result (λ r. Makes store.old state.now left.old store.new state.now left.new
        (runs_text title.now (module_seen held.now) (frames_of store.old state.now) (slots_of store.old state.now)) r) }
{
    if !pay(left, held.size) {
        return Ok(Turn::Spent(Which::Steps));
    }
    let turn = begin_code(alloc, store, state, title, &held.code)?;
    Ok(turn)
}
