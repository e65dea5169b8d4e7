//! Calls whose errors are caught: `pcall` and `xpcall` (manual 5.1).
ghost use Rattle.std.specs.Prelude.{◌∷◌, [], true, false, codes, IfOk};
ghost use Rattle.page_run.specs.Outcome.{Jumps};
ghost use Rattle.page_run.specs.WkBaseDeclaredLeftLeft.{Left as Allowance};
ghost use Rattle.lua_code.specs.LuaHeapValue as kind;
ghost use Rattle.lua_code.specs.LuaSlotsCallBacks as machine;
ghost use Rattle.lua_state.specs.LuaSlotsErrors.{gives};
ghost use Rattle.lua_state.specs.LuaStoreParts.{IsOf};
ghost use Rattle.lua_state.specs.LuaStoreSeen.{seen};
ghost use Rattle.lua_state.specs.LuaStackOf.{GivenOf, JumpOf, ValuesOf};
ghost use Rattle.lua_state.specs.LuaStackSeen.{given_seen, jump_seen, values_seen};
ghost use Rattle.lua_state.specs.Makes.{Makes};
ghost use Rattle.lua_state.specs.Of.{OutcomeOf, StateOf};
ghost use Rattle.lua_state.specs.Seen.{frames_of, outcome_seen, slots_of};

use crate::exits::{call_and_wait, give_all, one, pass};
use lua_code::NoMemory;
use lua_state::{Given, Jump, Outcome, Pending, State, Store, Turn, Value, Values, two};
use mw_html_texts::Left;
use std::alloc::Global;

/// True, and what a call gave.
fn succeeded<'m>(
    alloc: Global,
    store: &Store,
    state: &State<'m>,
    given: Given,
) -> Result<Turn<'m>, NoMemory>
    requires state { StateOf store.now state.now }
    requires given { GivenOf store.now given }
    ensures { (l : Allowance) → IfOk result (λ r. Makes store.now state.now l store.now state.now l
        (gives (kind.Truth true ∷ given_seen store.now.texts given) (frames_of store.now state.now) (slots_of store.now state.now)) r) }
{
    let mut values = given.into_values(alloc)?;
    values.put(Value::Bool(true))?;
    Ok(give_all(store, state, values))
}

/// False, and the value of an error.
fn failed<'m>(
    alloc: Global,
    store: &Store,
    state: &State<'m>,
    value: Value,
) -> Result<Turn<'m>, NoMemory>
    requires state { StateOf store.now state.now }
    requires value { IsOf store.now value }
    ensures { (l : Allowance) → IfOk result (λ r. Makes store.now state.now l store.now state.now l
        (gives (kind.Truth false ∷ seen store.now.texts value ∷ []) (frames_of store.now state.now) (slots_of store.now state.now)) r) }
{
    let values = two(alloc, Value::Bool(false), value)?;
    Ok(give_all(store, state, values))
}

/// False, and the message of an error in the handler of errors.
fn failed_twice<'m>(
    alloc: Global,
    store: &mut Store,
    state: &State<'m>,
) -> Result<Turn<'m>, NoMemory>
    requires { StateOf store.old state.now }
    ensures { (l : Allowance) → IfOk result (λ r. Makes store.old state.now l store.new state.now l
        (gives (kind.Truth false ∷ kind.Text (codes "error in error handling") ∷ []) (frames_of store.old state.now) (slots_of store.old state.now)) r) }
{
    let id = store.text(b"error in error handling")?;
    let turn = failed(alloc, store, state, Value::Text(id))?;
    Ok(turn)
}

/// `pcall(f, ...)`: f is called with the arguments behind it.
pub fn pcall<'m>(
    alloc: Global,
    store: &mut Store,
    left: &mut Left,
    state: &mut State<'m>,
    arguments: Values,
    line: Option<u32>,
) -> Result<Turn<'m>, NoMemory>
    requires state { StateOf store.old state.old }
    requires arguments { ValuesOf store.old arguments }
    ensures { IfOk result (λ r. Makes store.old state.old left.old store.new state.new left.new
        (machine.pcall (values_seen store.old.texts arguments) line (frames_of store.old state.old) (slots_of store.old state.old)) r) }
{
    let mut arguments = arguments;
    let called = arguments.take_first();
    let pending = Pending::Pcall;
    let turn = call_and_wait(alloc, store, left, state, called, arguments, pending, line)?;
    Ok(turn)
}

/// What a jump is for `pcall`: an error is caught.
fn caught<'m>(
    alloc: Global,
    store: &Store,
    state: &State<'m>,
    jump: Jump,
) -> Result<Turn<'m>, NoMemory>
    requires state { StateOf store.now state.now }
    requires jump { JumpOf store.now jump }
    ensures { (l : Allowance) → IfOk result (λ r. Makes store.now state.now l store.now state.now l
        (machine.pcall_answer (Jumps (jump_seen store.now.texts jump)) (frames_of store.now state.now) (slots_of store.now state.now)) r) }
{
    match jump {
        Jump::Raised(value) => failed(alloc, store, state, value),
        Jump::Returned(values) => Ok(pass(store, state, Jump::Returned(values))),
        Jump::Broke => Ok(pass(store, state, Jump::Broke)),
    }
}

/// What the call of `pcall` came to.
pub fn pcall_answer<'m>(
    alloc: Global,
    store: &Store,
    state: &State<'m>,
    outcome: Outcome,
) -> Result<Turn<'m>, NoMemory>
    requires state { StateOf store.now state.now }
    requires outcome { OutcomeOf store.now outcome }
    ensures { (l : Allowance) → IfOk result (λ r. Makes store.now state.now l store.now state.now l
        (machine.pcall_answer (outcome_seen store.now.texts outcome) (frames_of store.now state.now) (slots_of store.now state.now)) r) }
{
    match outcome {
        Outcome::Goes(given) => succeeded(alloc, store, state, given),
        Outcome::Jumps(jump) => caught(alloc, store, state, jump),
    }
}

/// `xpcall(f, handler)`: f is called without arguments.
pub fn xpcall<'m>(
    alloc: Global,
    store: &mut Store,
    left: &mut Left,
    state: &mut State<'m>,
    arguments: Values,
    line: Option<u32>,
) -> Result<Turn<'m>, NoMemory>
    requires state { StateOf store.old state.old }
    requires arguments { ValuesOf store.old arguments }
    ensures { IfOk result (λ r. Makes store.old state.old left.old store.new state.new left.new
        (machine.xpcall (values_seen store.old.texts arguments) line (frames_of store.old state.old) (slots_of store.old state.old)) r) }
{
    let mut arguments = arguments;
    let called = arguments.take_first();
    let handler = arguments.first();
    let none = Values::new(alloc);
    let pending = Pending::Xpcall(handler);
    let turn = call_and_wait(alloc, store, left, state, called, none, pending, line)?;
    Ok(turn)
}

/// What a jump is for `xpcall`: an error is handed to the handler.
fn handed<'m>(
    alloc: Global,
    store: &mut Store,
    left: &mut Left,
    state: &mut State<'m>,
    handler: Value,
    jump: Jump,
    line: Option<u32>,
) -> Result<Turn<'m>, NoMemory>
    requires state { StateOf store.old state.old }
    requires handler { IsOf store.old handler }
    requires jump { JumpOf store.old jump }
    ensures { IfOk result (λ r. Makes store.old state.old left.old store.new state.new left.new
        (machine.xpcall_answer (seen store.old.texts handler) (Jumps (jump_seen store.old.texts jump)) line (frames_of store.old state.old) (slots_of store.old state.old)) r) }
{
    match jump {
        Jump::Raised(value) => {
            let arguments = one(alloc, value)?;
            let pending = Pending::Handler;
            call_and_wait(alloc, store, left, state, handler, arguments, pending, line)
        }
        Jump::Returned(values) => Ok(pass(store, state, Jump::Returned(values))),
        Jump::Broke => Ok(pass(store, state, Jump::Broke)),
    }
}

/// What the call of `xpcall` came to.
pub fn xpcall_answer<'m>(
    alloc: Global,
    store: &mut Store,
    left: &mut Left,
    state: &mut State<'m>,
    handler: Value,
    outcome: Outcome,
    line: Option<u32>,
) -> Result<Turn<'m>, NoMemory>
    requires state { StateOf store.old state.old }
    requires handler { IsOf store.old handler }
    requires outcome { OutcomeOf store.old outcome }
    ensures { IfOk result (λ r. Makes store.old state.old left.old store.new state.new left.new
        (machine.xpcall_answer (seen store.old.texts handler) (outcome_seen store.old.texts outcome) line (frames_of store.old state.old) (slots_of store.old state.old)) r) }
{
    match outcome {
        Outcome::Goes(given) => succeeded(alloc, store, state, given),
        Outcome::Jumps(jump) => handed(alloc, store, left, state, handler, jump, line),
    }
}

/// What a jump out of the handler of `xpcall` is.
fn caught_twice<'m>(
    alloc: Global,
    store: &mut Store,
    state: &State<'m>,
    jump: Jump,
) -> Result<Turn<'m>, NoMemory>
    requires state { StateOf store.old state.now }
    requires jump { JumpOf store.old jump }
    ensures { (l : Allowance) → IfOk result (λ r. Makes store.old state.now l store.new state.now l
        (machine.handler_answer (Jumps (jump_seen store.old.texts jump)) (frames_of store.old state.now) (slots_of store.old state.now)) r) }
{
    match jump {
        Jump::Raised(_) => failed_twice(alloc, store, state),
        Jump::Returned(values) => Ok(pass(store, state, Jump::Returned(values))),
        Jump::Broke => Ok(pass(store, state, Jump::Broke)),
    }
}

/// What the handler of `xpcall` came to.
pub fn handler_answer<'m>(
    alloc: Global,
    store: &mut Store,
    state: &State<'m>,
    outcome: Outcome,
) -> Result<Turn<'m>, NoMemory>
    requires state { StateOf store.old state.now }
    requires outcome { OutcomeOf store.old outcome }
    ensures { (l : Allowance) → IfOk result (λ r. Makes store.old state.now l store.new state.now l
        (machine.handler_answer (outcome_seen store.old.texts outcome) (frames_of store.old state.now) (slots_of store.old state.now)) r) }
{
    match outcome {
        Outcome::Goes(given) => {
            let value = given.first();
            let turn = failed(alloc, store, state, value)?;
            Ok(turn)
        }
        Outcome::Jumps(jump) => caught_twice(alloc, store, state, jump),
    }
}
