//! What follows a call that is made in place.
ghost use Rattle.std.specs.Prelude.{◌≡◌, ◌<◌, ◌^◌, ◌∷◌, [], List as Items, Some, IfOk, OnOk};
ghost use Rattle.lua_turns.specs.PageRunOutcome.{Goes};
ghost use Rattle.lua_code.specs.Seen.{block_seen, expression_seen};
ghost use Rattle.lua_calls.specs.LuaGsubsBegun.{BegunOf};
ghost use Rattle.lua_code.specs.LuaSlotsCode.{CExp, CallStatC, DeclareC, MoreC, NoC, ThenC};
ghost use Rattle.lua_turns.specs.LuaSlotsPoints.{Evals, Gives, Runs, SFrame};
ghost use Rattle.lua_turns.specs.LuaSlotsSlots.{with_all};
ghost use Rattle.lua_turns.specs.LuaStackOf.{FocusOf, RegistersOf, ValuesOf};
ghost use Rattle.lua_turns.specs.LuaStackSeen.{focus_seen, registers_seen, values_seen};
ghost use Rattle.lua_turns.specs.LuaStateOf.{StateOf};
ghost use Rattle.lua_turns.specs.LuaStateSeen.{frames_of};
ghost use Rattle.lua_turns.specs.LuaStoreParts.{IsLater, IsOf};
ghost use Rattle.lua_turns.specs.LuaStoreSeen.{StoreView};
ghost use Rattle.lua_turns.specs.LuaStridesNext.{focus_of};
ghost use Rattle.lua_calls.specs.Ends.{BegunMakes};
ghost use Rattle.lua_rows.specs.Declaring.{Declares};
ghost use Rattle.lua_rows.specs.Made.{ends_above};
ghost use Rattle.lua_rows.specs.Ready.{IsReady};
ghost use Rattle.lua_rows.specs.Rows.{IsTurned, MayStrideTo};

use crate::making::{Made, make_call};
use crate::ready::{ReadyCall, ready_call};
use crate::rows::Went;
use lua_calls::gsubs::go_from;
use lua_calls::{Begun, Stop, Turn};
use lua_code::{Expression, List, NoMemory, Statement};
use lua_turns::{
    Ending, Frame, Frames, InExpression, InStatement, Left, Next, Slot, Stack, State, Steps, Store,
    Value, Values, leave_call, only, open, open_all, single,
};
use std::alloc::Global;
use std::sync::ledger::Ledger;

/// The values that a function gave are next.
pub fn next_of<'m>(values: List<Value>) -> Next<'m>
    ensures of { (s : StoreView) → ValuesOf s values → FocusOf s (focus_of result) }
    ensures gives { (s : StoreView) (fs : Items SFrame) → focus_seen s (focus_of result) fs ≡ Gives (Goes (values_seen s.texts values)) fs }
{
    match values.as_slice() {
        [] => Next::GivesNone,
        [value] => Next::Gives(*value),
        _ => Next::GivesAll(Values::of_list(values)),
    }
}

/// What has begun and doesn't answer goes on above the frame that ends the call, as where a frame calls.
pub fn go_above<'m>(
    alloc: Global,
    store: &mut Store,
    left: &mut Left,
    state: &mut State<'m>,
    begun: Result<Begun, Stop>,
    line: u32,
) -> Result<Turn<'m>, NoMemory>
    requires state { StateOf store.old state.old }
    requires begun { BegunOf store.old begun }
    ensures { IfOk result (λ r. BegunMakes store.old (ends_above state.old state.old.frames) left.old (Some line) begun store.new state.new left.new r) }
{
    state.frames.push(Frame::End(Ending::LibraryEnd))?;
    go_from(alloc, store, left, state, begun, Some(line))
}

/// A turn of the machine, with which a row ends.
pub fn turned<'m>(alloc: Global, turn: Turn<'m>) -> Result<Option<Went<'m>>, NoMemory>
    ensures { IfOk result (λ w. IsTurned w turn.entry) }
{
    match Box::new(alloc, turn) {
        Ok(turn) => Ok(Some(Went::Turned(turn))),
        Err(_) => Err(NoMemory),
    }
}

/// A call gives its values to the newest frame.
fn give<'m, L: Ledger>(
    alloc: Global,
    store: &mut Store,
    left: &mut Left,
    state: &mut State<'m>,
    call: ReadyCall,
    arguments: &[Value],
    turns: &mut Steps<L>,
) -> Result<Option<Went<'m>>, NoMemory>
    requires state { StateOf store.old state.old }
    requires arguments { ValuesOf store.old arguments.now }
    ensures { (e : CExp) → IsReady store.old state.old e arguments.now call → IfOk result (MayStrideTo store.old state.old (Evals e (frames_of store.old state.old)) left.old turns.old store.new state.new left.new turns.new) }
{
    let line = call.line;
    let made = make_call(
        alloc,
        store,
        left,
        state,
        call.callee,
        arguments,
        call.nodes,
        turns,
    )?;
    match made {
        Some(Made::GaveOne(value)) => {
            leave_call(state, left)?;
            Ok(Some(Went::On(Next::Gives(value))))
        }
        Some(Made::Gave(values)) => {
            leave_call(state, left)?;
            Ok(Some(Went::On(next_of(values))))
        }
        Some(Made::Stopped(begun)) => {
            let begun = Box::into_inner(begun);
            let turn = go_above(alloc, store, left, state, begun, line)?;
            turned(alloc, turn)
        }
        None => Ok(None),
    }
}

/// An expression: if it is a call that is ready, it is made.
pub fn call_expression<'m, L: Ledger>(
    alloc: Global,
    store: &mut Store,
    left: &mut Left,
    state: &mut State<'m>,
    e: &'m Expression,
    arguments: &mut Vec<Value>,
    turns: &mut Steps<L>,
) -> Result<Option<Went<'m>>, NoMemory>
    requires { StateOf store.old state.old }
    ensures { IfOk result (MayStrideTo store.old state.old (Evals (expression_seen e.now) (frames_of store.old state.old)) left.old turns.old store.new state.new left.new turns.new) }
{
    let ready = ready_call(store, state, e, arguments)?;
    match ready {
        Some(call) => give(alloc, store, left, state, call, arguments.as_slice(), turns),
        None => Ok(None),
    }
}

/// A call that is a statement: its values go nowhere.
fn go_on<'m, L: Ledger>(
    alloc: Global,
    store: &mut Store,
    left: &mut Left,
    state: &mut State<'m>,
    call: ReadyCall,
    arguments: &[Value],
    rest: &'m [Statement],
    turns: &mut Steps<L>,
) -> Result<Option<Went<'m>>, NoMemory>
    requires state { StateOf store.old state.old }
    requires arguments { ValuesOf store.old arguments.now }
    requires few { call.nodes < 2 ^ 40 }
    ensures { (e : CExp) → IsReady store.old state.old e arguments.now call → IfOk result (MayStrideTo store.old state.old (Runs (ThenC (CallStatC e) (block_seen rest.now)) (frames_of store.old state.old)) left.old turns.old store.new state.new left.new turns.new) }
{
    let line = call.line;
    let made = make_call(
        alloc,
        store,
        left,
        state,
        call.callee,
        arguments,
        1 + call.nodes,
        turns,
    )?;
    match made {
        Some(Made::GaveOne(_)) => {
            leave_call(state, left)?;
            Ok(Some(Went::On(Next::Runs(rest))))
        }
        Some(Made::Gave(_)) => {
            leave_call(state, left)?;
            Ok(Some(Went::On(Next::Runs(rest))))
        }
        Some(Made::Stopped(begun)) => {
            let begun = Box::into_inner(begun);
            let frame = InStatement::StatsNext(rest);
            state.frames.push(Frame::Statement(frame))?;
            let turn = go_above(alloc, store, left, state, begun, line)?;
            turned(alloc, turn)
        }
        None => Ok(None),
    }
}

/// A statement that is a call: if it is ready, it is made.
pub fn call_statement<'m, L: Ledger>(
    alloc: Global,
    store: &mut Store,
    left: &mut Left,
    state: &mut State<'m>,
    e: &'m Expression,
    rest: &'m [Statement],
    arguments: &mut Vec<Value>,
    turns: &mut Steps<L>,
) -> Result<Option<Went<'m>>, NoMemory>
    requires { StateOf store.old state.old }
    ensures { IfOk result (MayStrideTo store.old state.old (Runs (ThenC (CallStatC (expression_seen e.now)) (block_seen rest.now)) (frames_of store.old state.old)) left.old turns.old store.new state.new left.new turns.new) }
{
    let ready = ready_call(store, state, e, arguments)?;
    match ready {
        Some(call) => go_on(
            alloc,
            store,
            left,
            state,
            call,
            arguments.as_slice(),
            rest,
            turns,
        ),
        None => Ok(None),
    }
}

/// A declaration waits for the values of its one expression: a frame for the end of its list, above the one that declares.
fn wait_to_declare<'m>(
    alloc: Global,
    frames: &mut Frames<'m>,
    flags: &'m [bool],
    rest: &'m [Statement],
) -> Result<(), NoMemory>
    ensures { OnOk result (Declares flags.entry rest.entry frames.old frames.new) }
{
    let outer = InStatement::DeclareNow(flags, rest);
    frames.push(Frame::Statement(outer))?;
    let inner = InExpression::MoreNext(&[], Values::new(alloc));
    frames.push(Frame::Expression(inner))
}

/// New variables of which the first one gets this value, and the others nil. Nearly always there is one.
fn open_first(
    alloc: Global,
    store: &mut Store,
    regs: &mut Stack<Slot>,
    flags: &[bool],
    value: Value,
) -> Result<(), NoMemory>
    requires registers { RegistersOf store.old regs.old }
    requires value { IsOf store.old value }
    ensures of { OnOk result (RegistersOf store.new regs.new) }
    ensures later { OnOk result (IsLater store.old store.new) }
    ensures texts { OnOk result (store.new.texts ≡ store.old.texts) }
    ensures opened { OnOk result ((store.new.heap, registers_seen store.new.texts regs.new) ≡ with_all flags.now (values_seen store.old.texts (value ∷ [])) (store.old.heap, registers_seen store.old.texts regs.old)) }
{
    match only(flags) {
        Some(boxed) => open(store, regs, *boxed, value),
        None => {
            let list = single(alloc, value)?;
            let mut values = Values::of_list(list);
            open_all(store, regs, flags, &mut values)
        }
    }
}

/// A call whose values are those of new variables.
fn declare<'m, L: Ledger>(
    alloc: Global,
    store: &mut Store,
    left: &mut Left,
    state: &mut State<'m>,
    flags: &'m [bool],
    call: ReadyCall,
    arguments: &[Value],
    rest: &'m [Statement],
    turns: &mut Steps<L>,
) -> Result<Option<Went<'m>>, NoMemory>
    requires state { StateOf store.old state.old }
    requires arguments { ValuesOf store.old arguments.now }
    requires few { call.nodes < 2 ^ 40 }
    ensures { (e : CExp) → IsReady store.old state.old e arguments.now call → IfOk result (MayStrideTo store.old state.old (Runs (DeclareC flags.now (MoreC e NoC) (block_seen rest.now)) (frames_of store.old state.old)) left.old turns.old store.new state.new left.new turns.new) }
{
    let line = call.line;
    let made = make_call(
        alloc,
        store,
        left,
        state,
        call.callee,
        arguments,
        1 + call.nodes,
        turns,
    )?;
    match made {
        Some(Made::GaveOne(value)) => {
            leave_call(state, left)?;
            open_first(alloc, store, &mut state.regs, flags, value)?;
            Ok(Some(Went::On(Next::Runs(rest))))
        }
        Some(Made::Gave(list)) => {
            leave_call(state, left)?;
            let mut values = Values::of_list(list);
            open_all(store, &mut state.regs, flags, &mut values)?;
            Ok(Some(Went::On(Next::Runs(rest))))
        }
        Some(Made::Stopped(begun)) => {
            let begun = Box::into_inner(begun);
            wait_to_declare(alloc, &mut state.frames, flags, rest)?;
            let turn = go_above(alloc, store, left, state, begun, line)?;
            turned(alloc, turn)
        }
        None => Ok(None),
    }
}

/// A declaration with one expression: if that is a call that is ready, it is made.
pub fn call_declaration<'m, L: Ledger>(
    alloc: Global,
    store: &mut Store,
    left: &mut Left,
    state: &mut State<'m>,
    flags: &'m [bool],
    e: &'m Expression,
    rest: &'m [Statement],
    arguments: &mut Vec<Value>,
    turns: &mut Steps<L>,
) -> Result<Option<Went<'m>>, NoMemory>
    requires { StateOf store.old state.old }
    ensures { IfOk result (MayStrideTo store.old state.old (Runs (DeclareC flags.now (MoreC (expression_seen e.now) NoC) (block_seen rest.now)) (frames_of store.old state.old)) left.old turns.old store.new state.new left.new turns.new) }
{
    let ready = ready_call(store, state, e, arguments)?;
    match ready {
        Some(call) => declare(
            alloc,
            store,
            left,
            state,
            flags,
            call,
            arguments.as_slice(),
            rest,
            turns,
        ),
        None => Ok(None),
    }
}
