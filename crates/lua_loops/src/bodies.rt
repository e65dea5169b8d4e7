//! Functions of Lua that are entered (manual 2.5.8 and 2.5.9): their parameters are new variables, and the arguments beyond them are their
//! values of `...`.
ghost use Rattle.std.specs.Prelude.{◌≡◌, ◌+◌, ◌<◌, ◌^◌, ◌∷◌, [], drop, length, if◌then◌else◌, IfOk, OnOk};
ghost use Rattle.page_run.specs.WkBaseDeclaredLeftLeft.{Left as Allowance};
ghost use Rattle.lua_code.specs.Seen.{block_seen, proto_seen};
ghost use Rattle.lua_state.specs.LuaSlotsCalls as calls;
ghost use Rattle.lua_state.specs.LuaSlotsPoints.{BodyEnd, Runs, Marks, Enters, Now};
ghost use Rattle.lua_state.specs.LuaSlotsSlots.{with_all};
ghost use Rattle.lua_state.specs.LuaStoreParts.{IsLater};
ghost use Rattle.lua_state.specs.LuaStackLevels.{levels_from};
ghost use Rattle.lua_state.specs.LuaStackOf.{CalleeOf, RegistersOf, ValuesOf};
ghost use Rattle.lua_state.specs.LuaStackSeen.{callee_seen, registers_seen, values_seen};
ghost use Rattle.lua_state.specs.Makes.{Makes, Counts};
ghost use Rattle.lua_state.specs.Of.{StateOf};
ghost use Rattle.lua_state.specs.Seen.{frames_of, slots_of};
ghost use Rattle.lua_state.specs.Worlds.{world_seen};

use crate::exits::{go, nothing, run_body};
use lua_code::{NoMemory, Proto};
use lua_state::{
    Activations, Callee, Ending, Left, Slot, Stack, State, Steps, Store, Turn, Values, enter_call,
    open_all,
};
use page_run::Which;
use std::alloc::Global;
use std::sync::ledger::Ledger;

/// The arguments behind the parameters are values of `...` in a function that has it.
fn dots_of(alloc: Global, dots: bool, behind: Values) -> Values
    ensures { result ≡ (if dots then behind else []) }
{
    if dots {
        return behind;
    }
    Values::new(alloc)
}

/// The parameters get the arguments, and the function is the newest one.
fn open_function(
    alloc: Global,
    store: &mut Store,
    regs: &mut Stack<Slot>,
    functions: &mut Activations,
    proto: &Proto,
    callee: &Callee,
    arguments: Values,
    line: Option<u32>,
) -> Result<(), NoMemory>
    requires registers { RegistersOf store.old regs.old }
    requires arguments { ValuesOf store.old arguments }
    ensures of { OnOk result (RegistersOf store.new regs.new) }
    ensures later { OnOk result (IsLater store.old store.new) }
    ensures texts { OnOk result (store.new.texts ≡ store.old.texts) }
    ensures opened { OnOk result ((store.new.heap, registers_seen store.new.texts regs.new) ≡ with_all proto.now.flags (values_seen store.old.texts arguments) (store.old.heap, registers_seen store.old.texts regs.old)) }
    ensures functions { OnOk result (functions.new ≡ record {
      source = callee.now.source;
      closure = callee.now.closure;
      dots = (if proto.now.dots then drop (length proto.now.flags) arguments else []);
      called_at = line;
      base = length regs.old;
      reach = levels_from functions.old line;
    } ∷ functions.old) }
{
    let base = regs.len();
    let mut behind = arguments;
    open_all(store, regs, proto.flags.as_slice(), &mut behind)?;
    let dots = dots_of(alloc, proto.dots, behind);
    functions.enter(callee, dots, line, base)?;
    Ok(())
}

/// The body of a function is next, whose call is paid and counted.
fn begin_body<'m>(
    alloc: Global,
    store: &mut Store,
    state: &mut State<'m>,
    proto: &'m Proto,
    callee: Callee,
    arguments: Values,
    line: Option<u32>,
) -> Result<Turn<'m>, NoMemory>
    requires state { StateOf store.old state.old }
    requires callee { CalleeOf store.old callee }
    requires arguments { ValuesOf store.old arguments }
    ensures { (l : Allowance) → IfOk result (λ r. Makes store.old state.old l store.new state.new l
        (Now (Runs (block_seen proto.now.body) (BodyEnd ∷ frames_of store.old state.old))
        (calls.slots_in_body (callee_seen store.old callee) (proto_seen proto.now) (values_seen store.old.texts arguments) line (slots_of store.old state.old))) r) }
{
    open_function(
        alloc,
        store,
        &mut state.regs,
        &mut state.functions,
        proto,
        &callee,
        arguments,
        line,
    )?;
    let focus = run_body(&mut state.frames, Ending::BodyEnd, &proto.body)?;
    Ok(Turn::On(focus))
}

/// A function whose code was found is entered, where a call is left.
fn enter_found<'m, L: Ledger>(
    alloc: Global,
    store: &mut Store,
    left: &mut Left,
    state: &mut State<'m>,
    proto: &'m Proto,
    callee: Callee,
    arguments: Values,
    line: Option<u32>,
    turns: &mut Steps<L>,
) -> Result<Turn<'m>, NoMemory>
    requires state { StateOf store.old state.old }
    requires callee { CalleeOf store.old callee }
    requires arguments { ValuesOf store.old arguments }
    ensures { IfOk result (λ r. Counts store.old state.old left.old turns.old store.new state.new left.new turns.new
        (Enters (Marks (Now (Runs (block_seen proto.now.body) (BodyEnd ∷ frames_of store.old state.old))
        (calls.slots_in_body (callee_seen store.old callee) (proto_seen proto.now) (values_seen store.old.texts arguments) line (slots_of store.old state.old))))) r) }
{
    let entered = enter_call(state, left)?;
    if !entered {
        return Ok(Turn::Spent(Which::Calls));
    }
    turns.tick();
    begin_body(alloc, store, state, proto, callee, arguments, line)
}

/// A function of Lua is entered, called by this line of the newest one, if a place of its text did. One whose code isn't there gives
/// nothing.
pub fn enter_body<'m, L: Ledger>(
    alloc: Global,
    store: &mut Store,
    left: &mut Left,
    state: &mut State<'m>,
    callee: Callee,
    arguments: Values,
    line: Option<u32>,
    turns: &mut Steps<L>,
) -> Result<Turn<'m>, NoMemory>
    requires state { StateOf store.old state.old }
    requires calls { left.old.calls + state.old.calls < 2 ^ 64 }
    requires callee { CalleeOf store.old callee }
    requires arguments { ValuesOf store.old arguments }
    ensures { IfOk result (λ r. Counts store.old state.old left.old turns.old store.new state.new left.new turns.new (calls.enters_body (world_seen state.old.codes.world) (callee_seen store.old callee) (values_seen store.old.texts arguments) line (frames_of store.old state.old) (slots_of store.old state.old)) r) }
{
    let found = state
        .codes
        .function(alloc, store, callee.source, callee.index)?;
    match found {
        Some(proto) => {
            enter_found(
                alloc, store, left, state, proto, callee, arguments, line, turns,
            )
        }
        None => {
            let focus = nothing(alloc);
            Ok(go(store, state, focus))
        }
    }
}
