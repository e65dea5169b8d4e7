//! The handlers that `require('strict')` sets (Scribunto, strict): each refuses the name that it is given, which its message quotes.
ghost use Rattle.std.specs.Prelude.{IfOk};
ghost use Rattle.lua_code.specs.LuaSlotsModules as machine;
ghost use Rattle.lua_state.specs.LuaStackOf.{ValuesOf};
ghost use Rattle.lua_state.specs.LuaStackSeen.{values_seen};
ghost use Rattle.lua_state.specs.Makes.{Makes};
ghost use Rattle.lua_state.specs.Of.{StateOf};
ghost use Rattle.lua_state.specs.Seen.{frames_of, slots_of};

use lua_code::NoMemory;
use lua_libs::mw::{undeclared_target, undeclared_variable};
use lua_libs::second;
use lua_state::{State, Store, Turn, Values, fail_quoting};
use mw_html_texts::Left;
use std::alloc::Global;

/// `__index` of the global variables: what is absent is refused.
pub fn strict_index<'m>(
    alloc: Global,
    store: &mut Store,
    left: &mut Left,
    state: &State<'m>,
    arguments: Values,
    line: Option<u32>,
) -> Result<Turn<'m>, NoMemory>
    requires state { StateOf store.old state.now }
    requires arguments { ValuesOf store.old arguments }
    ensures { IfOk result (λ r. Makes store.old state.now left.old store.new state.now left.new
        (machine.strict_index (values_seen store.old.texts arguments) line (frames_of store.old state.now) (slots_of store.old state.now)) r) }
{
    let list = arguments.into_list();
    let name = second(list.as_slice());
    let message = undeclared_variable(alloc, store, name)?;
    let said = message.as_slice();
    let turn = fail_quoting(alloc, store, left, state, line, said)?;
    Ok(turn)
}

/// `__newindex` of the global variables: an assignment to what is absent is refused.
pub fn strict_new_index<'m>(
    alloc: Global,
    store: &mut Store,
    left: &mut Left,
    state: &State<'m>,
    arguments: Values,
    line: Option<u32>,
) -> Result<Turn<'m>, NoMemory>
    requires state { StateOf store.old state.now }
    requires arguments { ValuesOf store.old arguments }
    ensures { IfOk result (λ r. Makes store.old state.now left.old store.new state.now left.new
        (machine.strict_new_index (values_seen store.old.texts arguments) line (frames_of store.old state.now) (slots_of store.old state.now)) r) }
{
    let list = arguments.into_list();
    let name = second(list.as_slice());
    let message = undeclared_target(alloc, store, name)?;
    let said = message.as_slice();
    let turn = fail_quoting(alloc, store, left, state, line, said)?;
    Ok(turn)
}
