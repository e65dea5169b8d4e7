//! From what is next to where several moves lead.
ghost use Rattle.std.specs.Prelude.{◌≡◌, ◌∷◌, [], map, IfOk, IfSome, MatchOption};
ghost use Rattle.lua_code.specs.Seen.{block_seen, expression_seen, expressions_seen, statement_seen, target_seen};
ghost use Rattle.lua_code.specs.LuaSlotsCode.{AssignC, CallStatC, DeclareC, MoreC, NoC, ReturnC, ThenC};
ghost use Rattle.lua_state.specs.LuaSlotsPoints.{Evals, Runs};
ghost use Rattle.lua_state.specs.LuaStackSeen.{focus_seen};
ghost use Rattle.lua_state.specs.Of.{StateOf};
ghost use Rattle.lua_state.specs.Seen.{frames_of};
ghost use Rattle.lua_strides.specs.Strides.{MayStride};

use crate::calls::{call, call_before};
use crate::conditions::condition;
use crate::ending::pay_nodes;
use crate::next::Next;
use crate::reading::{LEVELS, read};
use crate::statements::{assign, assign_entry, declare, return_value};
use lua_code::{Expression, List, NoMemory, Statement, Target};
use lua_state::{Focus, Left, State, Steps, Store};
use std::alloc::Global;
use std::sync::ledger::Ledger;

/// An expression that is read in place.
fn give_value<'m, L: Ledger>(
    store: &Store,
    left: &mut Left,
    state: &State<'m>,
    e: &'m Expression,
    turns: &mut Steps<L>,
) -> Option<Next<'m>>
    requires { StateOf store.now state.now }
    ensures { MayStride store.now state.now (Evals (expression_seen e.now) (frames_of store.now state.now)) left.old turns.old store.now state.now left.new turns.new result }
{
    match read(store, state, e, LEVELS) {
        Some(found) => {
            if !pay_nodes(left, turns, found.nodes) {
                return None;
            }
            Some(Next::Gives(found.value))
        }
        None => None,
    }
}

/// An expression: a call begins, or a value is read.
#[tactic(auto, using(crate::proofs::Codes::codes))]
pub fn expression<'m, L: Ledger>(
    alloc: Global,
    store: &Store,
    left: &mut Left,
    state: &mut State<'m>,
    e: &'m Expression,
    turns: &mut Steps<L>,
) -> Result<Option<Next<'m>>, NoMemory>
    requires { StateOf store.now state.old }
    ensures { IfOk result (MayStride store.now state.old (Evals (expression_seen e.now) (frames_of store.now state.old)) left.old turns.old store.now state.new left.new turns.new) }
{
    match e {
        Expression::Call(called, arguments, line) => {
            let arguments = arguments.as_slice();
            call(alloc, store, left, state, called, arguments, *line, turns)
        }
        _ => Ok(give_value(store, left, state, e, turns)),
    }
}

/// The one item of a list that has just one.
pub fn only<'m, T>(items: &'m [T]) -> Option<&'m T>
    ensures { IfSome result (λ x. items.now ≡ x.now ∷ []) }
{
    match items {
        [item] => Some(item),
        _ => None,
    }
}

/// A value to a target, before these statements.
fn assign_to<'m, L: Ledger>(
    store: &mut Store,
    left: &mut Left,
    state: &mut State<'m>,
    target: &'m Target,
    value: &'m Expression,
    rest: &'m [Statement],
    turns: &mut Steps<L>,
) -> Result<Option<Next<'m>>, NoMemory>
    requires { StateOf store.old state.old }
    ensures { IfOk result (MayStride store.old state.old (Runs (ThenC (AssignC (target_seen target.now ∷ []) (MoreC (expression_seen value.now) NoC)) (block_seen rest.now)) (frames_of store.old state.old)) left.old turns.old store.new state.new left.new turns.new) }
{
    match target {
        Target::Variable(place) => Ok(assign(store, left, state, *place, value, rest, turns)),
        Target::At(of, key, line) => {
            let target = (of, key, *line);
            assign_entry(store, left, state, target, value, rest, turns)
        }
        _ => Ok(None),
    }
}

/// An assignment of one value to one target.
fn assign_only<'m, L: Ledger>(
    store: &mut Store,
    left: &mut Left,
    state: &mut State<'m>,
    targets: &'m [Target],
    values: &'m [Expression],
    rest: &'m [Statement],
    turns: &mut Steps<L>,
) -> Result<Option<Next<'m>>, NoMemory>
    requires { StateOf store.old state.old }
    ensures { IfOk result (MayStride store.old state.old (Runs (ThenC (AssignC (map target_seen targets.now) (expressions_seen values.now)) (block_seen rest.now)) (frames_of store.old state.old)) left.old turns.old store.new state.new left.new turns.new) }
{
    match only(targets) {
        Some(target) => match only(values) {
            Some(value) => assign_to(store, left, state, target, value, rest, turns),
            None => Ok(None),
        },
        None => Ok(None),
    }
}

/// A declaration of one variable with one value.
fn declare_only<'m, L: Ledger>(
    store: &mut Store,
    left: &mut Left,
    state: &mut State<'m>,
    flags: &'m [bool],
    values: &'m [Expression],
    rest: &'m [Statement],
    turns: &mut Steps<L>,
) -> Result<Option<Next<'m>>, NoMemory>
    requires { StateOf store.old state.old }
    ensures { IfOk result (MayStride store.old state.old (Runs (DeclareC flags.now (expressions_seen values.now) (block_seen rest.now)) (frames_of store.old state.old)) left.old turns.old store.new state.new left.new turns.new) }
{
    match only(flags) {
        Some(boxed) => match only(values) {
            Some(value) => declare(store, left, state, *boxed, value, rest, turns),
            None => Ok(None),
        },
        None => Ok(None),
    }
}

/// A `return` of one value.
fn return_only<'m, L: Ledger>(
    store: &Store,
    left: &mut Left,
    state: &State<'m>,
    values: &'m [Expression],
    rest: &'m [Statement],
    turns: &mut Steps<L>,
) -> Option<Next<'m>>
    requires { StateOf store.now state.now }
    ensures { MayStride store.now state.now (Runs (ThenC (ReturnC (expressions_seen values.now)) (block_seen rest.now)) (frames_of store.now state.now)) left.old turns.old store.now state.now left.new turns.new result }
{
    match only(values) {
        Some(value) => return_value(store, left, state, value, rest, turns),
        None => None,
    }
}

/// A call that is a statement.
#[tactic(auto, using(crate::proofs::Codes::codes))]
fn call_only<'m, L: Ledger>(
    alloc: Global,
    store: &Store,
    left: &mut Left,
    state: &mut State<'m>,
    e: &'m Expression,
    rest: &'m [Statement],
    turns: &mut Steps<L>,
) -> Result<Option<Next<'m>>, NoMemory>
    requires { StateOf store.now state.old }
    ensures { IfOk result (MayStride store.now state.old (Runs (ThenC (CallStatC (expression_seen e.now)) (block_seen rest.now)) (frames_of store.now state.old)) left.old turns.old store.now state.new left.new turns.new) }
{
    match e {
        Expression::Call(called, arguments, line) => call_before(
            alloc,
            store,
            left,
            state,
            called,
            arguments.as_slice(),
            *line,
            rest,
            turns,
        ),
        _ => Ok(None),
    }
}

/// A statement, before others.
#[tactic(auto, using(crate::proofs::Codes::codes))]
pub fn statement<'m, L: Ledger>(
    alloc: Global,
    store: &mut Store,
    left: &mut Left,
    state: &mut State<'m>,
    first: &'m Statement,
    rest: &'m [Statement],
    turns: &mut Steps<L>,
) -> Result<Option<Next<'m>>, NoMemory>
    requires { StateOf store.old state.old }
    ensures { IfOk result (MayStride store.old state.old (Runs (statement_seen first.now (block_seen rest.now)) (frames_of store.old state.old)) left.old turns.old store.new state.new left.new turns.new) }
{
    match first {
        Statement::Assign(targets, values) => {
            let (targets, values) = (targets.as_slice(), values.as_slice());
            assign_only(store, left, state, targets, values, rest, turns)
        }
        Statement::Declare(flags, values) => {
            let (flags, values) = (flags.as_slice(), values.as_slice());
            declare_only(store, left, state, flags, values, rest, turns)
        }
        Statement::Return(values) => {
            let values = values.as_slice();
            Ok(return_only(store, left, state, values, rest, turns))
        }
        Statement::Call(e) => call_only(alloc, store, left, state, e, rest, turns),
        Statement::If(branches, other) => {
            let branches = branches.as_slice();
            condition(store, left, state, branches, other, rest, turns)
        }
        _ => Ok(None),
    }
}

/// The first of some statements, and those behind it.
#[derive(Clone, Copy)]
pub struct Front<'m> {
    pub first: &'m Statement,
    pub rest: &'m [Statement],
}

/// They are taken apart, if there are any.
pub fn front_of<'m>(statements: &'m [Statement]) -> Option<Front<'m>>
    ensures { MatchOption result (statements.now ≡ []) (λ f. statements.now ≡ f.first.now ∷ f.rest.now) }
{
    match statements {
        [first, rest @ ..] => Some(Front { first, rest }),
        [] => None,
    }
}

/// A block: its first statement, before the others.
fn block<'m, L: Ledger>(
    alloc: Global,
    store: &mut Store,
    left: &mut Left,
    state: &mut State<'m>,
    statements: &'m [Statement],
    turns: &mut Steps<L>,
) -> Result<Option<Next<'m>>, NoMemory>
    requires { StateOf store.old state.old }
    ensures { IfOk result (MayStride store.old state.old (Runs (block_seen statements.now) (frames_of store.old state.old)) left.old turns.old store.new state.new left.new turns.new) }
{
    match front_of(statements) {
        Some(front) => statement(alloc, store, left, state, front.first, front.rest, turns),
        None => Ok(None),
    }
}

/// Where several moves lead from what is next, if its expressions are read in place and the steps of all their nodes are left. Else nothing
/// is done, and the moves are made one by one.
pub fn stride<'m, L: Ledger>(
    alloc: Global,
    store: &mut Store,
    left: &mut Left,
    state: &mut State<'m>,
    next: &Focus<'m>,
    turns: &mut Steps<L>,
) -> Result<Option<Next<'m>>, NoMemory>
    requires { StateOf store.old state.old }
    ensures { IfOk result (MayStride store.old state.old (focus_seen store.old next.now (frames_of store.old state.old)) left.old turns.old store.new state.new left.new turns.new) }
{
    match next {
        Focus::Evaluates(e) => expression(alloc, store, left, state, *e, turns),
        Focus::Runs(statements) => block(alloc, store, left, state, *statements, turns),
        _ => Ok(None),
    }
}
