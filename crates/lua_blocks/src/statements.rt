//! A block goes on with its first statement (manual 2.4.1), or is at its end.
ghost use Rattle.std.specs.Prelude.{◌≡◌, ◌∷◌, [], IfOk, MatchOption};
ghost use Rattle.lua_code.specs.Seen.{statement_seen, block_seen};
ghost use Rattle.lua_code.specs.LuaSlotsStatements as machine;
ghost use Rattle.lua_state.specs.LuaArmsPaid.{behind_node};
ghost use Rattle.lua_state.specs.Makes.{Makes, Counts};
ghost use Rattle.lua_state.specs.Of.{StateOf};
ghost use Rattle.lua_state.specs.Seen.{frames_of, slots_of};

use crate::conditions::condition;
use crate::exits::nothing;
use crate::forms::{assign, block, count, declare, each, loop_begins, repeat, return_values, then};
use crate::functions::local_function;
use lua_code::{NoMemory, Statement};
use lua_state::{Focus, InLoop, Jump, Left, State, Steps, Store, Turn, pay_node};
use page_run::Which;
use std::alloc::Global;
use std::sync::ledger::Ledger;

/// The first of some statements, and those behind it.
#[derive(Clone, Copy)]
struct Front<'m> {
    first: &'m Statement,
    rest: &'m [Statement],
}

fn front_of<'m>(statements: &'m [Statement]) -> Option<Front<'m>>
    ensures { MatchOption result (statements.now ≡ []) (λ f. statements.now ≡ f.first.now ∷ f.rest.now) }
{
    match statements {
        [first, rest @ ..] => Some(Front { first, rest }),
        [] => None,
    }
}

/// A statement begins, before others. The step of its node is paid, and the node is counted, by the caller.
fn begin<'m>(
    alloc: Global,
    store: &mut Store,
    left: &mut Left,
    state: &mut State<'m>,
    statement: &'m Statement,
    rest: &'m [Statement],
) -> Result<Turn<'m>, NoMemory>
    requires state { StateOf store.old state.old }
    ensures { IfOk result (λ r. Makes store.old state.old left.old store.new state.new left.new
        (behind_node (machine.runs (statement_seen statement.now (block_seen rest.now)) (frames_of store.old state.old) (slots_of store.old state.old))) r) }
{
    match statement {
        Statement::Assign(targets, values) => assign(alloc, store, state, targets, values, rest),
        Statement::Call(e) => then(store, state, Focus::Evaluates(e), rest),
        Statement::Do(body) => block(store, state, body, rest),
        Statement::While(test, body) => {
            loop_begins(store, state, test, InLoop::WhileTest(test, body), rest)
        }
        Statement::Repeat(body, test) => repeat(store, state, body, test, rest),
        Statement::If(arms, other) => condition(alloc, store, left, state, arms, other, rest),
        Statement::Count(boxed, from, to, by, body, line) => {
            count(store, state, *boxed, (from, to), by, body, *line, rest)
        }
        Statement::Each(flags, values, body, line) => {
            each(alloc, store, state, flags, values, body, *line, rest)
        }
        Statement::Return(values) => return_values(alloc, store, state, values, rest),
        Statement::Break => then(store, state, Focus::Jumps(Jump::Broke), rest),
        Statement::Declare(flags, values) => declare(alloc, store, state, flags, values, rest),
        Statement::LocalFunction(boxed, index, places) => {
            let places = places.as_slice();
            local_function(alloc, store, left, state, (*boxed, *index), places, rest)
        }
    }
}

/// A block goes on: its first statement begins, which is a node, or it is at its end.
pub fn run<'m, L: Ledger>(
    alloc: Global,
    store: &mut Store,
    left: &mut Left,
    state: &mut State<'m>,
    statements: &'m [Statement],
    turns: &mut Steps<L>,
) -> Result<Turn<'m>, NoMemory>
    requires state { StateOf store.old state.old }
    ensures { IfOk result (λ r. Counts store.old state.old left.old turns.old store.new state.new left.new turns.new (machine.runs (block_seen statements.now) (frames_of store.old state.old) (slots_of store.old state.old)) r) }
{
    match front_of(statements) {
        None => Ok(nothing(alloc, store, state)),
        Some(front) => {
            if !pay_node(left, turns) {
                return Ok(Turn::Spent(Which::Steps));
            }
            begin(alloc, store, left, state, front.first, front.rest)
        }
    }
}
