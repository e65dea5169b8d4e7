//! Expressions begin with their first operand: where that is read in place, no frame waits for it (manual 2.5).
ghost use Rattle.std.specs.Prelude.{◌≤◌, ◌^◌, ◌∷◌, IfOk};
ghost use Rattle.lua_code.specs.Seen.{expression_seen, expressions_seen, operator_seen};
ghost use Rattle.lua_code.specs.LuaSlotsCode.{CallC, IndexC, MethodC, OperateC, UnaryC};
ghost use Rattle.lua_operators.specs.LuaSlotsPoints.{Evals, First, Point};
ghost use Rattle.lua_loops.specs.LuaStateOf.{IsConstant, StateOf};
ghost use Rattle.lua_loops.specs.LuaStateSeen.{frames_of, slots_of};
ghost use Rattle.lua_loops.specs.LuaStateWorlds.{world_seen};
ghost use Rattle.lua_strides.specs.Strides.{LeadsAt, MayStride};
ghost use Rattle.lua_turns.specs.Deciding.{deciding_with};

use crate::at_hand::{AT_HAND, next_of};
use crate::beginning::{
    begin_call, begin_deciding, begin_index, begin_method, begin_operator, begin_unary,
};
use crate::deciding::{decides, result_of};
use crate::listing::list;
use lua_code::{Expression, List, NoMemory, Operator};
use lua_loops::{State, Steps, Values};
use lua_operators::{Frame, InExpression, Left, Store, TextId};
use lua_strides::ending::{pay_nodes, wait_for};
use lua_strides::reading::{LEVELS, read};
use lua_strides::{Next, constant_at_hand};
use lua_syntax::UnaryOp;
use std::alloc::Global;
use std::sync::ledger::Ledger;

/// An operator begins: with its second operand, if the first one is read in place.
pub fn operator<'m, L: Ledger>(
    store: &Store,
    left: &mut Left,
    state: &mut State<'m>,
    op: Operator,
    a: &'m Expression,
    b: &'m Expression,
    line: u32,
    turns: &mut Steps<L>,
) -> Result<Option<Next<'m>>, NoMemory>
    requires { StateOf store.now state.old }
    ensures { IfOk result (MayStride store.now state.old (Evals (OperateC (operator_seen op) (expression_seen a.now) (expression_seen b.now) line) (frames_of store.now state.old)) left.old turns.old store.now state.new left.new turns.new) }
{
    match read(store, state, a, LEVELS) {
        Some(first) => {
            if !pay_nodes(left, turns, 1 + first.nodes) {
                return Ok(None);
            }
            let frame = InExpression::OperateNow(op, first.value, line);
            state.frames.push(Frame::Expression(frame))?;
            Ok(Some(next_of(store, left, state, b, turns)))
        }
        None => begin_operator(left, state, op, a, b, line, turns),
    }
}

/// An operator with one operand begins: it is over, if that is read in place.
pub fn unary<'m, L: Ledger>(
    store: &Store,
    left: &mut Left,
    state: &mut State<'m>,
    op: UnaryOp,
    a: &'m Expression,
    line: u32,
    turns: &mut Steps<L>,
) -> Result<Option<Next<'m>>, NoMemory>
    requires { StateOf store.now state.old }
    ensures { IfOk result (MayStride store.now state.old (Evals (UnaryC op (expression_seen a.now) line) (frames_of store.now state.old)) left.old turns.old store.now state.new left.new turns.new) }
{
    match read(store, state, a, LEVELS) {
        Some(found) => match result_of(store, op, found.value) {
            Some(value) => {
                if !pay_nodes(left, turns, 1 + found.nodes) {
                    return Ok(None);
                }
                Ok(Some(Next::Gives(value)))
            }
            None => Ok(None),
        },
        None => begin_unary(left, state, op, a, line, turns),
    }
}

/// The second operand of `and` or `or` is next, behind so many nodes that are still to be paid. It is read, if it is at hand.
fn second<'m, L: Ledger>(
    store: &Store,
    left: &mut Left,
    state: &mut State<'m>,
    nodes: u64,
    e: &'m Expression,
    turns: &mut Steps<L>,
) -> Result<Option<Next<'m>>, NoMemory>
    requires state { StateOf store.now state.old }
    requires some { 1 ≤ nodes }
    requires few { nodes ≤ 2 ^ 32 }
    ensures { (p : Point) → LeadsAt (world_seen state.old.codes.world) p (slots_of store.now state.old) nodes (Evals (expression_seen e.now) (First ∷ frames_of store.now state.old)) (slots_of store.now state.old) → IfOk result (MayStride store.now state.old p left.old turns.old store.now state.new left.new turns.new) }
{
    match read(store, state, e, AT_HAND) {
        Some(found) => {
            if !pay_nodes(left, turns, nodes + found.nodes) {
                return Ok(None);
            }
            Ok(Some(Next::Gives(found.value)))
        }
        None => {
            if !pay_nodes(left, turns, nodes) {
                return Ok(None);
            }
            let frame = Frame::Expression(InExpression::First);
            wait_for(state, frame, Next::Evaluates(e))
        }
    }
}

/// `and` or `or` begins: with its second operand, or with the value, if the first operand is read in place.
pub fn deciding<'m, L: Ledger>(
    store: &Store,
    left: &mut Left,
    state: &mut State<'m>,
    deciding: bool,
    a: &'m Expression,
    b: &'m Expression,
    turns: &mut Steps<L>,
) -> Result<Option<Next<'m>>, NoMemory>
    requires { StateOf store.now state.old }
    ensures { IfOk result (MayStride store.now state.old (Evals (deciding_with deciding (expression_seen a.now) (expression_seen b.now)) (frames_of store.now state.old)) left.old turns.old store.now state.new left.new turns.new) }
{
    match read(store, state, a, LEVELS) {
        Some(first) => {
            if !decides(deciding, first.value) {
                return second(store, left, state, 1 + first.nodes, b, turns);
            }
            if !pay_nodes(left, turns, 1 + first.nodes) {
                return Ok(None);
            }
            Ok(Some(Next::Gives(first.value)))
        }
        None => begin_deciding(left, state, deciding, a, b, turns),
    }
}

/// A call begins: with its arguments, if what is called is read in place.
pub fn call_of<'m, L: Ledger>(
    alloc: Global,
    store: &mut Store,
    left: &mut Left,
    state: &mut State<'m>,
    a: &'m Expression,
    arguments: &'m List<Expression>,
    line: u32,
    turns: &mut Steps<L>,
) -> Result<Option<Next<'m>>, NoMemory>
    requires { StateOf store.old state.old }
    ensures { IfOk result (MayStride store.old state.old (Evals (CallC (expression_seen a.now) (expressions_seen arguments.now) line) (frames_of store.old state.old)) left.old turns.old store.new state.new left.new turns.new) }
{
    match read(store, state, a, LEVELS) {
        Some(called) => {
            if !pay_nodes(left, turns, 1 + called.nodes) {
                return Ok(None);
            }
            let frame = InExpression::CallNow(called.value, line);
            state.frames.push(Frame::Expression(frame))?;
            let none = Values::new(alloc);
            list(alloc, store, left, state, arguments.as_slice(), none, turns)
        }
        None => begin_call(left, state, a, arguments, line, turns),
    }
}

/// A method begins whose name has this text: its object is given, if that is read in place.
fn method_named<'m, L: Ledger>(
    store: &Store,
    left: &mut Left,
    state: &mut State<'m>,
    a: &'m Expression,
    name: u32,
    text: TextId,
    arguments: &'m List<Expression>,
    line: u32,
    turns: &mut Steps<L>,
) -> Result<Option<Next<'m>>, NoMemory>
    requires state { StateOf store.now state.old }
    requires text { IsConstant store.now state.old name text }
    ensures { IfOk result (MayStride store.now state.old (Evals (MethodC (expression_seen a.now) name (expressions_seen arguments.now) line) (frames_of store.now state.old)) left.old turns.old store.now state.new left.new turns.new) }
{
    match read(store, state, a, LEVELS) {
        Some(object) => {
            if !pay_nodes(left, turns, 1 + object.nodes) {
                return Ok(None);
            }
            let frame = Frame::Expression(InExpression::MethodNext(text, arguments, line));
            wait_for(state, frame, Next::Gives(object.value))
        }
        None => begin_method(left, state, a, name, text, arguments, line, turns),
    }
}

/// A method begins, if its name is held.
pub fn method<'m, L: Ledger>(
    store: &Store,
    left: &mut Left,
    state: &mut State<'m>,
    a: &'m Expression,
    name: u32,
    arguments: &'m List<Expression>,
    line: u32,
    turns: &mut Steps<L>,
) -> Result<Option<Next<'m>>, NoMemory>
    requires { StateOf store.now state.old }
    ensures { IfOk result (MayStride store.now state.old (Evals (MethodC (expression_seen a.now) name (expressions_seen arguments.now) line) (frames_of store.now state.old)) left.old turns.old store.now state.new left.new turns.new) }
{
    match constant_at_hand(state, name) {
        Some(text) => { method_named(store, left, state, a, name, text, arguments, line, turns) }
        None => Ok(None),
    }
}

/// An index begins: with its key, if its object is read in place.
pub fn index<'m, L: Ledger>(
    store: &Store,
    left: &mut Left,
    state: &mut State<'m>,
    of: &'m Expression,
    key: &'m Expression,
    line: u32,
    turns: &mut Steps<L>,
) -> Result<Option<Next<'m>>, NoMemory>
    requires { StateOf store.now state.old }
    ensures { IfOk result (MayStride store.now state.old (Evals (IndexC (expression_seen of.now) (expression_seen key.now) line) (frames_of store.now state.old)) left.old turns.old store.now state.new left.new turns.new) }
{
    match read(store, state, of, LEVELS) {
        Some(object) => {
            if !pay_nodes(left, turns, 1 + object.nodes) {
                return Ok(None);
            }
            let frame = InExpression::IndexNow(object.value, line);
            state.frames.push(Frame::Expression(frame))?;
            Ok(Some(next_of(store, left, state, key, turns)))
        }
        None => begin_index(left, state, of, key, line, turns),
    }
}
