//! Strides, and calls of the library that are made in place, in a row.
ghost use Rattle.std.specs.Prelude.{IfOk};
ghost use Rattle.lua_code.specs.Seen.{block_seen, expression_seen, statement_seen};
ghost use Rattle.lua_turns.specs.LuaSlotsPoints.{Evals, Runs};
ghost use Rattle.lua_turns.specs.LuaStackOf.{FocusOf};
ghost use Rattle.lua_turns.specs.LuaStackSeen.{focus_seen};
ghost use Rattle.lua_turns.specs.LuaStateOf.{StateOf};
ghost use Rattle.lua_turns.specs.LuaStateSeen.{frames_of};
ghost use Rattle.lua_turns.specs.LuaStridesNext.{focus_of};
ghost use Rattle.lua_rows.specs.Rows.{FollowsTo, IsTurn, MayStrideTo};

use crate::in_place::{call_declaration, call_expression, call_statement};
use crate::operand::call_operand;
use lua_calls::Turn;
use lua_code::{Expression, NoMemory, Statement};
use lua_turns::{
    Focus, Left, Next, State, Steps, Store, Value, begin_row, focus_for, follow, front_of, only,
    variable,
};
use std::alloc::Global;
use std::sync::ledger::Ledger;

/// How many strides there are in a row at most.
const MOST: u64 = 1 << 20;

/// Where strides in a row have gone: on to what is next, or to a turn of the machine, where a function of the library that was called stops.
#[derive(Drop)]
pub enum Went<'m> {
    On(Next<'m>),
    Turned(Box<Turn<'m>>),
}

/// The same as the machine has it.
pub fn turn_for<'m>(alloc: Global, went: Went<'m>) -> Result<Turn<'m>, NoMemory>
    ensures { IfOk result (IsTurn went.entry) }
{
    match went {
        Went::On(next) => {
            let focus = focus_for(alloc, next)?;
            Ok(Turn::On(focus))
        }
        Went::Turned(turn) => Ok(Box::into_inner(turn)),
    }
}

/// Whether an expression is a call.
fn is_call(e: &Expression) -> bool {
    match e {
        Expression::Call(_, _, _) => true,
        Expression::Method(_, _, _, _) => true,
        _ => false,
    }
}

/// Whether what is called may be a function of the library, so far as a look at a variable tells.
fn may_be_builtin(store: &Store, state: &State<'_>, called: &Expression) -> bool
    requires { StateOf store.now state.now }
{
    match called {
        Expression::Local(place) => match variable(store, state, *place) {
            Value::Builtin(_) => true,
            _ => false,
        },
        _ => true,
    }
}

/// Whether what has a method may be a text, so far as a look at a variable tells.
fn may_be_text(store: &Store, state: &State<'_>, object: &Expression) -> bool
    requires { StateOf store.now state.now }
{
    match object {
        Expression::Local(place) => match variable(store, state, *place) {
            Value::Text(_) => true,
            _ => false,
        },
        _ => true,
    }
}

/// Whether an expression is a call that may be made in place. Most calls are of functions and methods of Lua, and these are to lose no time.
fn may_be_called(store: &Store, state: &State<'_>, e: &Expression) -> bool
    requires { StateOf store.now state.now }
{
    match e {
        Expression::Call(called, _, _) => may_be_builtin(store, state, called),
        Expression::Method(object, _, _, _) => may_be_text(store, state, object),
        _ => false,
    }
}

/// Whether an expression is such a call, or an operator over one.
fn may_be_made(store: &Store, state: &State<'_>, e: &Expression) -> bool
    requires { StateOf store.now state.now }
{
    match e {
        Expression::Unary(_, a, _) => may_be_called(store, state, a),
        _ => may_be_called(store, state, e),
    }
}

/// Whether a statement is a call, or a declaration with one expression that is a call.
fn is_call_statement(statement: &Statement) -> bool {
    match statement {
        Statement::Call(_) => true,
        Statement::Declare(_, values) => match values.as_slice() {
            [value] => is_call(value),
            _ => false,
        },
        _ => false,
    }
}

/// Whether the first statement of a block is such a one. Most are not, and these are to lose no time.
fn begins_with_call(statements: &[Statement]) -> bool {
    match statements {
        [first, ..] => is_call_statement(first),
        [] => false,
    }
}

/// An expression that is a call, or an operator over one, which is made in place.
fn call_in_expression<'m, L: Ledger>(
    alloc: Global,
    store: &mut Store,
    left: &mut Left,
    state: &mut State<'m>,
    e: &'m Expression,
    arguments: &mut Vec<Value>,
    turns: &mut Steps<L>,
) -> Result<Option<Went<'m>>, NoMemory>
    requires { StateOf store.old state.old }
    ensures { IfOk result (MayStrideTo store.old state.old (Evals (expression_seen e.now) (frames_of store.old state.old)) left.old turns.old store.new state.new left.new turns.new) }
{
    match e {
        Expression::Unary(op, a, line) => {
            call_operand(alloc, store, left, state, *op, a, *line, arguments, turns)
        }
        _ => call_expression(alloc, store, left, state, e, arguments, turns),
    }
}

/// A statement that calls a function of the library in place.
fn call_in_statement<'m, L: Ledger>(
    alloc: Global,
    store: &mut Store,
    left: &mut Left,
    state: &mut State<'m>,
    first: &'m Statement,
    rest: &'m [Statement],
    arguments: &mut Vec<Value>,
    turns: &mut Steps<L>,
) -> Result<Option<Went<'m>>, NoMemory>
    requires { StateOf store.old state.old }
    ensures { IfOk result (MayStrideTo store.old state.old (Runs (statement_seen first.now (block_seen rest.now)) (frames_of store.old state.old)) left.old turns.old store.new state.new left.new turns.new) }
{
    match first {
        Statement::Call(e) => call_statement(alloc, store, left, state, e, rest, arguments, turns),
        Statement::Declare(flags, values) => match only(values.as_slice()) {
            Some(e) => call_declaration(
                alloc,
                store,
                left,
                state,
                flags.as_slice(),
                e,
                rest,
                arguments,
                turns,
            ),
            None => Ok(None),
        },
        _ => Ok(None),
    }
}

/// The first statement of a block calls a function of the library in place.
fn call_in_block<'m, L: Ledger>(
    alloc: Global,
    store: &mut Store,
    left: &mut Left,
    state: &mut State<'m>,
    statements: &'m [Statement],
    arguments: &mut Vec<Value>,
    turns: &mut Steps<L>,
) -> Result<Option<Went<'m>>, NoMemory>
    requires { StateOf store.old state.old }
    ensures { IfOk result (MayStrideTo store.old state.old (Runs (block_seen statements.now) (frames_of store.old state.old)) left.old turns.old store.new state.new left.new turns.new) }
{
    match front_of(statements) {
        Some(front) => call_in_statement(
            alloc,
            store,
            left,
            state,
            front.first,
            front.rest,
            arguments,
            turns,
        ),
        None => Ok(None),
    }
}

/// Whether a call may be next that can be made in place. This is asked before each stride, so it is no more than a look.
fn may_call(store: &Store, state: &State<'_>, next: &Next<'_>) -> bool
    requires { StateOf store.now state.now }
{
    match next {
        Next::Evaluates(e) => may_be_made(store, state, *e),
        Next::Runs(statements) => begins_with_call(*statements),
        _ => false,
    }
}

/// A call of a function of the library that is next, and is made in place.
fn call<'m, L: Ledger>(
    alloc: Global,
    store: &mut Store,
    left: &mut Left,
    state: &mut State<'m>,
    next: &Next<'m>,
    arguments: &mut Vec<Value>,
    turns: &mut Steps<L>,
) -> Result<Option<Went<'m>>, NoMemory>
    requires { StateOf store.old state.old }
    ensures { IfOk result (MayStrideTo store.old state.old (focus_seen store.old (focus_of next.now) (frames_of store.old state.old)) left.old turns.old store.new state.new left.new turns.new) }
{
    match next {
        Next::Evaluates(e) => call_in_expression(alloc, store, left, state, *e, arguments, turns),
        Next::Runs(statements) => {
            call_in_block(alloc, store, left, state, *statements, arguments, turns)
        }
        _ => Ok(None),
    }
}

/// What follows this in a row: strides and calls in place, as long as they can be made.
pub fn row<'m, L: Ledger>(
    alloc: Global,
    store: &mut Store,
    left: &mut Left,
    state: &mut State<'m>,
    first: Next<'m>,
    turns: &mut Steps<L>,
) -> Result<Went<'m>, NoMemory>
    requires state { StateOf store.old state.old }
    requires first { FocusOf store.old (focus_of first) }
    ensures { IfOk result (FollowsTo store.old state.old (focus_seen store.old (focus_of first.entry) (frames_of store.old state.old)) left.old turns.old store.new state.new left.new turns.new) }
{
    let mut next = first;
    let mut arguments = Vec::new(alloc);
    'row: for _ in 0..MOST {
        if may_call(store, state, &next) {
            let called = call(alloc, store, left, state, &next, &mut arguments, turns)?;
            match called {
                Some(Went::On(after)) => {
                    next = after;
                    continue 'row;
                }
                Some(Went::Turned(turn)) => return Ok(Went::Turned(turn)),
                None => {}
            }
        }
        let followed = follow(alloc, store, left, state, &next, turns)?;
        match followed {
            Some(after) => {
                next = after;
            }
            None => return Ok(Went::On(next)),
        }
    }
    Ok(Went::On(next))
}

/// A call of a function of the library that is the first of several strides.
fn call_first<'m, L: Ledger>(
    alloc: Global,
    store: &mut Store,
    left: &mut Left,
    state: &mut State<'m>,
    next: &Focus<'m>,
    arguments: &mut Vec<Value>,
    turns: &mut Steps<L>,
) -> Result<Option<Went<'m>>, NoMemory>
    requires { StateOf store.old state.old }
    ensures { IfOk result (MayStrideTo store.old state.old (focus_seen store.old next.now (frames_of store.old state.old)) left.old turns.old store.new state.new left.new turns.new) }
{
    match next {
        Focus::Evaluates(e) => call_in_expression(alloc, store, left, state, *e, arguments, turns),
        Focus::Runs(statements) => call_in_block(
            alloc,
            store,
            left,
            state,
            *statements,
            arguments,
            turns,
        ),
        _ => Ok(None),
    }
}

/// The first of several strides, or a call in place.
fn begin<'m, L: Ledger>(
    alloc: Global,
    store: &mut Store,
    left: &mut Left,
    state: &mut State<'m>,
    next: &Focus<'m>,
    turns: &mut Steps<L>,
) -> Result<Option<Went<'m>>, NoMemory>
    requires { StateOf store.old state.old }
    ensures { IfOk result (MayStrideTo store.old state.old (focus_seen store.old next.now (frames_of store.old state.old)) left.old turns.old store.new state.new left.new turns.new) }
{
    let mut arguments = Vec::new(alloc);
    let called = call_first(alloc, store, left, state, next, &mut arguments, turns)?;
    match called {
        Some(went) => Ok(Some(went)),
        None => {
            let strode = begin_row(alloc, store, left, state, next, turns)?;
            match strode {
                Some(first) => Ok(Some(Went::On(first))),
                None => Ok(None),
            }
        }
    }
}

/// A stride, and what follows it in a row.
fn go_on<'m, L: Ledger>(
    alloc: Global,
    store: &mut Store,
    left: &mut Left,
    state: &mut State<'m>,
    next: &Focus<'m>,
    turns: &mut Steps<L>,
) -> Result<Option<Went<'m>>, NoMemory>
    requires { StateOf store.old state.old }
    ensures { IfOk result (MayStrideTo store.old state.old (focus_seen store.old next.now (frames_of store.old state.old)) left.old turns.old store.new state.new left.new turns.new) }
{
    let begun = begin(alloc, store, left, state, next, turns)?;
    match begun {
        Some(Went::On(first)) => {
            let last = row(alloc, store, left, state, first, turns)?;
            Ok(Some(last))
        }
        Some(Went::Turned(turn)) => Ok(Some(Went::Turned(turn))),
        None => Ok(None),
    }
}

/// Where several strides in a row lead from what is next, if the first one leads anywhere.
#[inline(always)]
pub fn strides<'m, L: Ledger>(
    alloc: Global,
    store: &mut Store,
    left: &mut Left,
    state: &mut State<'m>,
    next: &Focus<'m>,
    turns: &mut Steps<L>,
) -> Result<Option<Went<'m>>, NoMemory>
    requires { StateOf store.old state.old }
    ensures { IfOk result (MayStrideTo store.old state.old (focus_seen store.old next.now (frames_of store.old state.old)) left.old turns.old store.new state.new left.new turns.new) }
{
    match next {
        Focus::Evaluates(_) => go_on(alloc, store, left, state, next, turns),
        Focus::Runs(_) => go_on(alloc, store, left, state, next, turns),
        _ => Ok(None),
    }
}
