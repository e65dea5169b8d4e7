//! Expressions and a `return` begin whose first operand is not read in place: frames wait for it.
ghost use Rattle.std.specs.Prelude.{◌≡◌, ◌∷◌, [], IfOk};
ghost use Rattle.lua_code.specs.Seen.{block_seen, expression_seen, expressions_seen, operator_seen};
ghost use Rattle.lua_code.specs.LuaSlotsCode.{CallC, IndexC, MethodC, MoreC, NoC, OperateC, ParenC, ReturnC, ThenC, UnaryC};
ghost use Rattle.lua_operators.specs.LuaSlotsPoints.{Evals, Runs};
ghost use Rattle.lua_loops.specs.LuaStateOf.{IsConstant, StateOf};
ghost use Rattle.lua_loops.specs.LuaStateSeen.{frames_of};
ghost use Rattle.lua_operators.specs.LuaStoreSeen.{StoreView};
ghost use Rattle.lua_strides.specs.Strides.{MayStride};
ghost use Rattle.lua_turns.specs.Deciding.{deciding_with};

use lua_code::{Expression, List, NoMemory, Operator, Statement};
use lua_loops::{State, Steps, Values};
use lua_operators::{Frame, InExpression, Left, TextId};
use lua_strides::ending::{pay_nodes, wait_for};
use lua_strides::{InStatement, Next};
use lua_syntax::UnaryOp;
use std::alloc::Global;
use std::sync::ledger::Ledger;

/// An operator begins with its first operand, where its step is left.
pub fn begin_operator<'m, L: Ledger>(
    left: &mut Left,
    state: &mut State<'m>,
    op: Operator,
    a: &'m Expression,
    b: &'m Expression,
    line: u32,
    turns: &mut Steps<L>,
) -> Result<Option<Next<'m>>, NoMemory>
    ensures { (s : StoreView) → StateOf s state.old → IfOk result (MayStride s state.old (Evals (OperateC (operator_seen op) (expression_seen a.now) (expression_seen b.now) line) (frames_of s state.old)) left.old turns.old s state.new left.new turns.new) }
{
    if !pay_nodes(left, turns, 1) {
        return Ok(None);
    }
    let frame = Frame::Expression(InExpression::OperandNext(op, b, line));
    wait_for(state, frame, Next::Evaluates(a))
}

/// A `return` of one value begins, where its step is left. `none` is the end of its list.
pub fn begin_return<'m, L: Ledger>(
    alloc: Global,
    left: &mut Left,
    state: &mut State<'m>,
    value: &'m Expression,
    none: &'m [Expression],
    rest: &'m [Statement],
    turns: &mut Steps<L>,
) -> Result<Option<Next<'m>>, NoMemory>
    requires { none.now ≡ [] }
    ensures { (s : StoreView) → StateOf s state.old → IfOk result (MayStride s state.old (Runs (ThenC (ReturnC (MoreC (expression_seen value.now) NoC)) (block_seen rest.now)) (frames_of s state.old)) left.old turns.old s state.new left.new turns.new) }
{
    if !pay_nodes(left, turns, 1) {
        return Ok(None);
    }
    let values = Values::new(alloc);
    state
        .frames
        .push(Frame::Statement(InStatement::StatsNext(rest)))?;
    state.frames.push(Frame::Statement(InStatement::ReturnNow))?;
    state
        .frames
        .push(Frame::Expression(InExpression::MoreNext(none, values)))?;
    Ok(Some(Next::Evaluates(value)))
}

/// An operator with one operand begins, where its step is left.
pub fn begin_unary<'m, L: Ledger>(
    left: &mut Left,
    state: &mut State<'m>,
    op: UnaryOp,
    a: &'m Expression,
    line: u32,
    turns: &mut Steps<L>,
) -> Result<Option<Next<'m>>, NoMemory>
    ensures { (s : StoreView) → StateOf s state.old → IfOk result (MayStride s state.old (Evals (UnaryC op (expression_seen a.now) line) (frames_of s state.old)) left.old turns.old s state.new left.new turns.new) }
{
    if !pay_nodes(left, turns, 1) {
        return Ok(None);
    }
    let frame = Frame::Expression(InExpression::UnaryNow(op, line));
    wait_for(state, frame, Next::Evaluates(a))
}

/// `and` or `or` begins with its first operand, where its step is left.
pub fn begin_deciding<'m, L: Ledger>(
    left: &mut Left,
    state: &mut State<'m>,
    deciding: bool,
    a: &'m Expression,
    b: &'m Expression,
    turns: &mut Steps<L>,
) -> Result<Option<Next<'m>>, NoMemory>
    ensures { (s : StoreView) → StateOf s state.old → IfOk result (MayStride s state.old (Evals (deciding_with deciding (expression_seen a.now) (expression_seen b.now)) (frames_of s state.old)) left.old turns.old s state.new left.new turns.new) }
{
    if !pay_nodes(left, turns, 1) {
        return Ok(None);
    }
    let frame = Frame::Expression(InExpression::DecideNext(deciding, b));
    wait_for(state, frame, Next::Evaluates(a))
}

/// An expression in parentheses begins, where its step is left.
pub fn begin_paren<'m, L: Ledger>(
    left: &mut Left,
    state: &mut State<'m>,
    a: &'m Expression,
    turns: &mut Steps<L>,
) -> Result<Option<Next<'m>>, NoMemory>
    ensures { (s : StoreView) → StateOf s state.old → IfOk result (MayStride s state.old (Evals (ParenC (expression_seen a.now)) (frames_of s state.old)) left.old turns.old s state.new left.new turns.new) }
{
    if !pay_nodes(left, turns, 1) {
        return Ok(None);
    }
    let frame = Frame::Expression(InExpression::First);
    wait_for(state, frame, Next::Evaluates(a))
}

/// A call begins with what is called, where its step is left.
pub fn begin_call<'m, L: Ledger>(
    left: &mut Left,
    state: &mut State<'m>,
    a: &'m Expression,
    arguments: &'m List<Expression>,
    line: u32,
    turns: &mut Steps<L>,
) -> Result<Option<Next<'m>>, NoMemory>
    ensures { (s : StoreView) → StateOf s state.old → IfOk result (MayStride s state.old (Evals (CallC (expression_seen a.now) (expressions_seen arguments.now) line) (frames_of s state.old)) left.old turns.old s state.new left.new turns.new) }
{
    if !pay_nodes(left, turns, 1) {
        return Ok(None);
    }
    let frame = Frame::Expression(InExpression::ArgumentsNext(arguments, line));
    wait_for(state, frame, Next::Evaluates(a))
}

/// A method whose name has this text begins with its object, where its step is left.
pub fn begin_method<'m, L: Ledger>(
    left: &mut Left,
    state: &mut State<'m>,
    a: &'m Expression,
    name: u32,
    text: TextId,
    arguments: &'m List<Expression>,
    line: u32,
    turns: &mut Steps<L>,
) -> Result<Option<Next<'m>>, NoMemory>
    ensures { (s : StoreView) → StateOf s state.old → IsConstant s state.old name text → IfOk result (MayStride s state.old (Evals (MethodC (expression_seen a.now) name (expressions_seen arguments.now) line) (frames_of s state.old)) left.old turns.old s state.new left.new turns.new) }
{
    if !pay_nodes(left, turns, 1) {
        return Ok(None);
    }
    let frame = Frame::Expression(InExpression::MethodNext(text, arguments, line));
    wait_for(state, frame, Next::Evaluates(a))
}

/// An index begins with its object, where its step is left.
pub fn begin_index<'m, L: Ledger>(
    left: &mut Left,
    state: &mut State<'m>,
    of: &'m Expression,
    key: &'m Expression,
    line: u32,
    turns: &mut Steps<L>,
) -> Result<Option<Next<'m>>, NoMemory>
    ensures { (s : StoreView) → StateOf s state.old → IfOk result (MayStride s state.old (Evals (IndexC (expression_seen of.now) (expression_seen key.now) line) (frames_of s state.old)) left.old turns.old s state.new left.new turns.new) }
{
    if !pay_nodes(left, turns, 1) {
        return Ok(None);
    }
    let frame = Frame::Expression(InExpression::KeyNext(key, line));
    wait_for(state, frame, Next::Evaluates(of))
}
