//! A frame that waits in a statement is given values (manual 2.4).
ghost use Rattle.std.specs.Prelude.{IfOk};
ghost use Rattle.page_run.specs.WkBaseDeclaredLeftLeft.{Left as Allowance};
ghost use Rattle.lua_code.specs.Seen.{block_seen};
ghost use Rattle.lua_code.specs.LuaSlotsCode.{CWorld};
ghost use Rattle.lua_code.specs.LuaSlotsMoves.{goes};
ghost use Rattle.lua_state.specs.LuaSlotsPoints.{Now, Runs};
ghost use Rattle.lua_state.specs.LuaSlotsSlots.{all_opened};
ghost use Rattle.lua_state.specs.LuaStackOf.{GivenOf, InStatementOf};
ghost use Rattle.lua_state.specs.LuaStackSeen.{given_seen, in_statement_seen};
ghost use Rattle.lua_state.specs.Makes.{Makes};
ghost use Rattle.lua_state.specs.Of.{StateOf};
ghost use Rattle.lua_state.specs.Seen.{frames_of, slots_of};

use crate::conditions::tested;
use lua_code::{NoMemory, Statement};
use lua_state::{Focus, Given, InStatement, Jump, Left, State, Store, Turn, open_all};
use std::alloc::Global;

/// New local variables get their values (manual 2.4.7), and the statements behind see them.
fn declared<'m>(
    alloc: Global,
    store: &mut Store,
    state: &mut State<'m>,
    flags: &'m [bool],
    values: Given,
    rest: &'m [Statement],
) -> Result<Turn<'m>, NoMemory>
    requires state { StateOf store.old state.old }
    requires values { GivenOf store.old values }
    ensures { (l : Allowance) → IfOk result (λ r. Makes store.old state.old l store.new state.new l
        (Now (Runs (block_seen rest.now) (frames_of store.old state.old)) (all_opened flags.now (given_seen store.old.texts values) (slots_of store.old state.old))) r) }
{
    let mut values = values.into_values(alloc)?;
    open_all(store, &mut state.regs, flags, &mut values)?;
    Ok(Turn::On(Focus::Runs(rest)))
}

/// What a frame in a statement does with values, whatever the world is.
fn go_on<'m>(
    alloc: Global,
    store: &mut Store,
    left: &mut Left,
    state: &mut State<'m>,
    frame: InStatement<'m>,
    values: Given,
) -> Result<Turn<'m>, NoMemory>
    requires state { StateOf store.old state.old }
    requires values { GivenOf store.old values }
    ensures { (world : CWorld) → IfOk result (λ r. Makes store.old state.old left.old store.new state.new left.new
        (goes world (in_statement_seen store.old.texts frame.entry) (given_seen store.old.texts values) (frames_of store.old state.old) (slots_of store.old state.old)) r) }
{
    match frame {
        InStatement::DeclareNow(flags, rest) => {
            declared(alloc, store, state, flags, values, rest)
        }
        InStatement::StatsNext(rest) => Ok(Turn::On(Focus::Runs(rest))),
        InStatement::BranchNext(body, more, other) => {
            let first = values.first();
            tested(alloc, store, left, state, body, more, other, first)
        }
        InStatement::ReturnNow => Ok(Turn::On(Focus::Jumps(Jump::Returned(values)))),
    }
}

/// What a frame in a statement does with values.
pub fn give_statement<'m>(
    alloc: Global,
    store: &mut Store,
    left: &mut Left,
    state: &mut State<'m>,
    frame: InStatement<'m>,
    values: Given,
) -> Result<Turn<'m>, NoMemory>
    requires state { StateOf store.old state.old }
    requires frame { InStatementOf store.old frame }
    requires values { GivenOf store.old values }
    ensures { IfOk result (λ r. (world : CWorld) → Makes store.old state.old left.old store.new state.new left.new (goes world (in_statement_seen store.old.texts frame.entry) (given_seen store.old.texts values) (frames_of store.old state.old) (slots_of store.old state.old)) r) }
{
    go_on(alloc, store, left, state, frame, values)
}
