//! An operator whose one operand is a call that is made in place (manual 2.5.5).
ghost use Rattle.std.specs.Prelude.{◌≡◌, ◌<◌, ◌^◌, IfOk};
ghost use Rattle.lua_code.specs.Seen.{expression_seen};
ghost use Rattle.lua_code.specs.LuaSlotsCode.{CExp, UnaryC};
ghost use Rattle.lua_turns.specs.LuaSlotsPoints.{Evals};
ghost use Rattle.lua_turns.specs.LuaStackDeclaredFrameFrameTheVariants as frame_kind;
ghost use Rattle.lua_turns.specs.LuaStackDeclaredFrameInExpressionTheVariants as in_expression;
ghost use Rattle.lua_turns.specs.LuaStackOf.{ValuesOf};
ghost use Rattle.lua_turns.specs.LuaStateOf.{StateOf};
ghost use Rattle.lua_turns.specs.LuaStateSeen.{frames_of};
ghost use Rattle.lua_rows.specs.Ready.{IsReady};
ghost use Rattle.lua_rows.specs.Rows.{MayStrideTo};

use crate::in_place::{go_above, next_of, turned};
use crate::making::{Made, make_call};
use crate::ready::{ReadyCall, ready_call};
use crate::rows::Went;
use lua_code::{Expression, NoMemory};
use lua_syntax::UnaryOp;
use lua_turns::deciding::result_of;
use lua_turns::{Frame, InExpression, Left, Next, State, Steps, Store, Value, leave_call};
use std::alloc::Global;
use std::sync::ledger::Ledger;

/// The frame of an operator that waits for its operand.
fn operator_frame<'m>(op: UnaryOp, line: u32) -> Frame<'m>
    ensures { result ≡ frame_kind.Expression (in_expression.UnaryNow op line) }
{
    Frame::Expression(InExpression::UnaryNow(op, line))
}

/// A call whose value is the operand: where the operator gives its result at once, no frame waits for it.
fn apply<'m, L: Ledger>(
    alloc: Global,
    store: &mut Store,
    left: &mut Left,
    state: &mut State<'m>,
    op: UnaryOp,
    line: u32,
    call: ReadyCall,
    arguments: &[Value],
    turns: &mut Steps<L>,
) -> Result<Option<Went<'m>>, NoMemory>
    requires state { StateOf store.old state.old }
    requires arguments { ValuesOf store.old arguments.now }
    requires few { call.nodes < 2 ^ 40 }
    ensures { (e : CExp) → IsReady store.old state.old e arguments.now call → IfOk result (MayStrideTo store.old state.old (Evals (UnaryC op e line) (frames_of store.old state.old)) left.old turns.old store.new state.new left.new turns.new) }
{
    let made = make_call(
        alloc,
        store,
        left,
        state,
        call.callee,
        arguments,
        1 + call.nodes,
        turns,
    )?;
    match made {
        Some(Made::GaveOne(value)) => {
            leave_call(state, left)?;
            match result_of(store, op, value) {
                Some(given) => Ok(Some(Went::On(Next::Gives(given)))),
                None => {
                    state.frames.push(operator_frame(op, line))?;
                    Ok(Some(Went::On(Next::Gives(value))))
                }
            }
        }
        Some(Made::Gave(values)) => {
            leave_call(state, left)?;
            state.frames.push(operator_frame(op, line))?;
            Ok(Some(Went::On(next_of(values))))
        }
        Some(Made::Stopped(begun)) => {
            state.frames.push(operator_frame(op, line))?;
            let begun = Box::into_inner(begun);
            let turn = go_above(alloc, store, left, state, begun, call.line)?;
            turned(alloc, turn)
        }
        None => Ok(None),
    }
}

/// An operator with one operand: if that is a call that is ready, it is made.
pub fn call_operand<'m, L: Ledger>(
    alloc: Global,
    store: &mut Store,
    left: &mut Left,
    state: &mut State<'m>,
    op: UnaryOp,
    a: &'m Expression,
    line: u32,
    arguments: &mut Vec<Value>,
    turns: &mut Steps<L>,
) -> Result<Option<Went<'m>>, NoMemory>
    requires { StateOf store.old state.old }
    ensures { IfOk result (MayStrideTo store.old state.old (Evals (UnaryC op (expression_seen a.now) line) (frames_of store.old state.old)) left.old turns.old store.new state.new left.new turns.new) }
{
    let ready = ready_call(store, state, a, arguments)?;
    match ready {
        Some(call) => apply(
            alloc,
            store,
            left,
            state,
            op,
            line,
            call,
            arguments.as_slice(),
            turns,
        ),
        None => Ok(None),
    }
}
