//! What is next is gone on with in place, where that can be done, and a row of strides begins with it.
ghost use Rattle.std.specs.Prelude.{◌≡◌, ◌∷◌, [], map, option_map, IfOk};
ghost use Rattle.lua_code.specs.Seen.{block_seen, branches_seen, expression_seen, expressions_seen, statement_seen, target_seen};
ghost use Rattle.lua_code.specs.LuaSlotsCode.{AssignC, DeclareC, GlobalTargetC, MoreC, NoC, ThenC};
ghost use Rattle.lua_operators.specs.LuaSlotsPoints.{Evals, Runs};
ghost use Rattle.lua_operators.specs.LuaStackOf.{FocusOf};
ghost use Rattle.lua_operators.specs.LuaStackSeen.{focus_seen};
ghost use Rattle.lua_loops.specs.LuaStateOf.{StateOf};
ghost use Rattle.lua_loops.specs.LuaStateSeen.{frames_of};
ghost use Rattle.lua_operators.specs.LuaStoreSeen.{StoreView};
ghost use Rattle.lua_strides.specs.Conditions.{if_seen};
ghost use Rattle.lua_strides.specs.Next.{focus_of};
ghost use Rattle.lua_strides.specs.Strides.{MayStride};
ghost use Rattle.lua_turns.specs.Rows.{MayFollow};

use crate::beginning::{begin_paren, begin_return};
use crate::branching::front_branch;
use crate::calling::call;
use crate::ending::end;
use crate::entries::begin_entry;
use crate::giving::give;
use crate::operands::{call_of, deciding, index, method, operator, unary};
use crate::passing::pass;
use crate::setting::set;
use crate::statements::{
    begin_assign, begin_call_statement, begin_declare, begin_if, begin_while, else_of,
};
use lua_code::{Branch, Expression, List, NoMemory, Operator, Statement, Target};
use lua_loops::{State, Steps};
use lua_operators::{Focus, Left, Store};
use lua_strides::striding::{expression, front_of, only, statement};
use lua_strides::{Found, Next, constant_at_hand};
use std::alloc::Global;
use std::sync::ledger::Ledger;

/// A declaration of one value begins.
fn begin_local<'m, L: Ledger>(
    alloc: Global,
    left: &mut Left,
    state: &mut State<'m>,
    flags: &'m [bool],
    values: &'m [Expression],
    rest: &'m [Statement],
    turns: &mut Steps<L>,
) -> Result<Option<Next<'m>>, NoMemory>
    ensures { (s : StoreView) → StateOf s state.old → IfOk result (MayStride s state.old (Runs (DeclareC flags.now (expressions_seen values.now) (block_seen rest.now)) (frames_of s state.old)) left.old turns.old s state.new left.new turns.new) }
{
    match only(values) {
        Some(value) => begin_declare(alloc, left, state, flags, value, &[], rest, turns),
        None => Ok(None),
    }
}

/// An assignment of this value to a global variable begins, if its name is held.
fn begin_global<'m, L: Ledger>(
    alloc: Global,
    left: &mut Left,
    state: &mut State<'m>,
    name: u32,
    line: u32,
    value: &'m Expression,
    rest: &'m [Statement],
    turns: &mut Steps<L>,
) -> Result<Option<Next<'m>>, NoMemory>
    ensures { (s : StoreView) → StateOf s state.old → IfOk result (MayStride s state.old (Runs (ThenC (AssignC (GlobalTargetC name line ∷ []) (MoreC (expression_seen value.now) NoC)) (block_seen rest.now)) (frames_of s state.old)) left.old turns.old s state.new left.new turns.new) }
{
    match constant_at_hand(state, name) {
        Some(text) => {
            let found = Found::Global(text, line);
            begin_assign(alloc, left, state, found, value, &[], rest, turns)
        }
        None => Ok(None),
    }
}

/// An assignment of this value to this target begins, if no frame has to wait for a part of the target.
fn begin_set<'m, L: Ledger>(
    alloc: Global,
    store: &Store,
    left: &mut Left,
    state: &mut State<'m>,
    target: &'m Target,
    value: &'m Expression,
    rest: &'m [Statement],
    turns: &mut Steps<L>,
) -> Result<Option<Next<'m>>, NoMemory>
    requires { StateOf store.now state.old }
    ensures { IfOk result (MayStride store.now state.old (Runs (ThenC (AssignC (target_seen target.now ∷ []) (MoreC (expression_seen value.now) NoC)) (block_seen rest.now)) (frames_of store.now state.old)) left.old turns.old store.now state.new left.new turns.new) }
{
    match target {
        Target::Variable(place) => {
            let found = Found::Variable(*place);
            begin_assign(alloc, left, state, found, value, &[], rest, turns)
        }
        Target::Global(name, line) => {
            begin_global(alloc, left, state, *name, *line, value, rest, turns)
        }
        Target::At(of, key, line) => {
            let entry = (of, key, *line);
            begin_entry(alloc, store, left, state, entry, value, &[], rest, turns)
        }
        Target::Refused => Ok(None),
    }
}

/// An assignment begins, if it has one target and one value.
fn begin_assignment<'m, L: Ledger>(
    alloc: Global,
    store: &Store,
    left: &mut Left,
    state: &mut State<'m>,
    targets: &'m [Target],
    values: &'m [Expression],
    rest: &'m [Statement],
    turns: &mut Steps<L>,
) -> Result<Option<Next<'m>>, NoMemory>
    requires { StateOf store.now state.old }
    ensures { IfOk result (MayStride store.now state.old (Runs (ThenC (AssignC (map target_seen targets.now) (expressions_seen values.now)) (block_seen rest.now)) (frames_of store.now state.old)) left.old turns.old store.now state.new left.new turns.new) }
{
    match only(targets) {
        Some(target) => match only(values) {
            Some(value) => begin_set(alloc, store, left, state, target, value, rest, turns),
            None => Ok(None),
        },
        None => Ok(None),
    }
}

/// An `if` begins with its first test.
fn begin_condition<'m, L: Ledger>(
    left: &mut Left,
    state: &mut State<'m>,
    branches: &'m [Branch],
    other: &'m Option<List<Statement>>,
    rest: &'m [Statement],
    turns: &mut Steps<L>,
) -> Result<Option<Next<'m>>, NoMemory>
    ensures { (s : StoreView) → StateOf s state.old → IfOk result (MayStride s state.old (Runs (ThenC (if_seen (branches_seen branches.now) (option_map block_seen other.now)) (block_seen rest.now)) (frames_of s state.old)) left.old turns.old s state.new left.new turns.new) }
{
    match front_branch(branches) {
        Some(front) => {
            let other = else_of(other);
            begin_if(
                left, state, front.test, front.body, front.rest, other, rest, turns,
            )
        }
        None => Ok(None),
    }
}

/// A statement that is not read in place begins, where its step is left.
fn begin_statement<'m, L: Ledger>(
    alloc: Global,
    store: &Store,
    left: &mut Left,
    state: &mut State<'m>,
    first: &'m Statement,
    rest: &'m [Statement],
    turns: &mut Steps<L>,
) -> Result<Option<Next<'m>>, NoMemory>
    requires { StateOf store.now state.old }
    ensures { IfOk result (MayStride store.now state.old (Runs (statement_seen first.now (block_seen rest.now)) (frames_of store.now state.old)) left.old turns.old store.now state.new left.new turns.new) }
{
    match first {
        Statement::Return(values) => match only(values.as_slice()) {
            Some(value) => begin_return(alloc, left, state, value, &[], rest, turns),
            None => Ok(None),
        },
        Statement::Call(e) => begin_call_statement(left, state, e, rest, turns),
        Statement::While(test, body) => begin_while(left, state, test, body, rest, turns),
        Statement::If(branches, other) => {
            begin_condition(left, state, branches.as_slice(), other, rest, turns)
        }
        Statement::Declare(flags, values) => {
            let (flags, values) = (flags.as_slice(), values.as_slice());
            begin_local(alloc, left, state, flags, values, rest, turns)
        }
        Statement::Assign(targets, values) => {
            let (targets, values) = (targets.as_slice(), values.as_slice());
            begin_assignment(alloc, store, left, state, targets, values, rest, turns)
        }
        _ => Ok(None),
    }
}

/// Whether an expression is a call.
fn is_call(e: &Expression) -> bool {
    match e {
        Expression::Call(_, _, _) => true,
        Expression::Method(_, _, _, _) => true,
        _ => false,
    }
}

/// Whether an operand is a call, or an operator over one.
fn has_call(e: &Expression) -> bool {
    match e {
        Expression::Unary(_, a, _) => is_call(a),
        _ => is_call(e),
    }
}

/// Whether the operands of an expression may all be read in place, so far as a look at them tells. Those of a join would be read in vain,
/// since texts are not joined in place, and so would those that stand beside a call.
fn has_whole_operands(e: &Expression) -> bool {
    match e {
        Expression::Operate(Operator::Concatenate, _, _, _) => false,
        Expression::Operate(_, a, b, _) => !has_call(a) && !has_call(b),
        Expression::Unary(_, a, _) => !has_call(a),
        _ => true,
    }
}

/// Whether an expression is looked at as a whole first. What is called and its arguments are read one after another.
fn is_whole(e: &Expression) -> bool {
    !is_call(e) && has_whole_operands(e)
}

/// Whether the one value of a statement, if that is what it has, is looked at as a whole first.
fn has_whole_value(values: &[Expression]) -> bool {
    match values {
        [value] => has_whole_operands(value),
        _ => true,
    }
}

/// Whether a statement is looked at as a whole first.
fn is_whole_statement(statement: &Statement) -> bool {
    match statement {
        Statement::Assign(_, values) => has_whole_value(values.as_slice()),
        Statement::Declare(_, values) => has_whole_value(values.as_slice()),
        Statement::Return(values) => has_whole_value(values.as_slice()),
        _ => true,
    }
}

/// A statement, before others.
fn execute<'m, L: Ledger>(
    alloc: Global,
    store: &mut Store,
    left: &mut Left,
    state: &mut State<'m>,
    first: &'m Statement,
    rest: &'m [Statement],
    turns: &mut Steps<L>,
) -> Result<Option<Next<'m>>, NoMemory>
    requires { StateOf store.old state.old }
    ensures { IfOk result (MayStride store.old state.old (Runs (statement_seen first.now (block_seen rest.now)) (frames_of store.old state.old)) left.old turns.old store.new state.new left.new turns.new) }
{
    if !is_whole_statement(first) {
        return begin_statement(alloc, store, left, state, first, rest, turns);
    }
    let strode = statement(alloc, store, left, state, first, rest, turns)?;
    match strode {
        Some(next) => Ok(Some(next)),
        None => begin_statement(alloc, store, left, state, first, rest, turns),
    }
}

/// A block that has a statement goes on.
fn run_some<'m, L: Ledger>(
    alloc: Global,
    store: &mut Store,
    left: &mut Left,
    state: &mut State<'m>,
    statements: &'m [Statement],
    turns: &mut Steps<L>,
) -> Result<Option<Next<'m>>, NoMemory>
    requires { StateOf store.old state.old }
    ensures { IfOk result (MayStride store.old state.old (Runs (block_seen statements.now) (frames_of store.old state.old)) left.old turns.old store.new state.new left.new turns.new) }
{
    match front_of(statements) {
        Some(front) => execute(alloc, store, left, state, front.first, front.rest, turns),
        None => Ok(None),
    }
}

/// A block goes on, or is at its end.
fn run<'m, L: Ledger>(
    alloc: Global,
    store: &mut Store,
    left: &mut Left,
    state: &mut State<'m>,
    statements: &'m [Statement],
    turns: &mut Steps<L>,
) -> Result<Option<Next<'m>>, NoMemory>
    requires { StateOf store.old state.old }
    ensures { IfOk result (MayFollow store.old state.old (Runs (block_seen statements.now) (frames_of store.old state.old)) left.old turns.old store.new state.new left.new turns.new) }
{
    match front_of(statements) {
        Some(front) => execute(alloc, store, left, state, front.first, front.rest, turns),
        None => end(store, left, state, turns),
    }
}

/// An expression that is not read in place begins with its first operand, where its step is left.
fn begin_expression<'m, L: Ledger>(
    alloc: Global,
    store: &mut Store,
    left: &mut Left,
    state: &mut State<'m>,
    e: &'m Expression,
    turns: &mut Steps<L>,
) -> Result<Option<Next<'m>>, NoMemory>
    requires { StateOf store.old state.old }
    ensures { IfOk result (MayStride store.old state.old (Evals (expression_seen e.now) (frames_of store.old state.old)) left.old turns.old store.new state.new left.new turns.new) }
{
    match e {
        Expression::Operate(op, a, b, line) => {
            operator(store, left, state, *op, a, b, *line, turns)
        }
        Expression::Unary(op, a, line) => unary(store, left, state, *op, a, *line, turns),
        Expression::And(a, b) => deciding(store, left, state, false, a, b, turns),
        Expression::Or(a, b) => deciding(store, left, state, true, a, b, turns),
        Expression::Paren(a) => begin_paren(left, state, a, turns),
        Expression::Index(of, key, line) => index(store, left, state, of, key, *line, turns),
        Expression::Call(a, arguments, line) => {
            call_of(alloc, store, left, state, a, arguments, *line, turns)
        }
        Expression::Method(a, name, arguments, line) => {
            method(store, left, state, a, *name, arguments, *line, turns)
        }
        _ => Ok(None),
    }
}

/// An expression: it is read in place, or begins with its first operand.
fn evaluate<'m, L: Ledger>(
    alloc: Global,
    store: &mut Store,
    left: &mut Left,
    state: &mut State<'m>,
    e: &'m Expression,
    turns: &mut Steps<L>,
) -> Result<Option<Next<'m>>, NoMemory>
    requires { StateOf store.old state.old }
    ensures { IfOk result (MayStride store.old state.old (Evals (expression_seen e.now) (frames_of store.old state.old)) left.old turns.old store.new state.new left.new turns.new) }
{
    if !is_whole(e) {
        return begin_expression(alloc, store, left, state, e, turns);
    }
    let strode = expression(alloc, store, left, state, e, turns)?;
    match strode {
        Some(next) => Ok(Some(next)),
        None => begin_expression(alloc, store, left, state, e, turns),
    }
}

/// What follows this, if it can be done in place.
pub fn follow<'m, L: Ledger>(
    alloc: Global,
    store: &mut Store,
    left: &mut Left,
    state: &mut State<'m>,
    next: &Next<'m>,
    turns: &mut Steps<L>,
) -> Result<Option<Next<'m>>, NoMemory>
    requires state { StateOf store.old state.old }
    requires next { FocusOf store.old (focus_of next.now) }
    ensures { IfOk result (MayFollow store.old state.old (focus_seen store.old (focus_of next.now) (frames_of store.old state.old)) left.old turns.old store.new state.new left.new turns.new) }
{
    match next {
        Next::Gives(value) => give(alloc, store, left, state, *value, turns),
        Next::GivesAll(arguments) => call(alloc, store, left, state, arguments, turns),
        Next::GivesNone => end(store, left, state, turns),
        Next::Returns(value) => pass(store, left, state, *value),
        Next::Evaluates(e) => evaluate(alloc, store, left, state, *e, turns),
        Next::Sets(setting) => set(store, left, state, setting),
        Next::Runs(statements) => run(alloc, store, left, state, *statements, turns),
    }
}

/// Where the first of several strides leads from what is next.
pub fn begin_row<'m, L: Ledger>(
    alloc: Global,
    store: &mut Store,
    left: &mut Left,
    state: &mut State<'m>,
    next: &Focus<'m>,
    turns: &mut Steps<L>,
) -> Result<Option<Next<'m>>, NoMemory>
    requires { StateOf store.old state.old }
    ensures { IfOk result (MayStride store.old state.old (focus_seen store.old next.now (frames_of store.old state.old)) left.old turns.old store.new state.new left.new turns.new) }
{
    match next {
        Focus::Evaluates(e) => evaluate(alloc, store, left, state, *e, turns),
        Focus::Runs(statements) => run_some(alloc, store, left, state, *statements, turns),
        _ => Ok(None),
    }
}
