//! Calls whose function and arguments are read in place (manual 2.5.8): the frame that calls has its arguments.
ghost use Rattle.std.specs.Prelude.{IfOk};
ghost use Rattle.lua_code.specs.Seen.{expression_seen, expressions_seen, block_seen};
ghost use Rattle.lua_code.specs.LuaSlotsCode.{CallC, CallStatC, ThenC};
ghost use Rattle.lua_state.specs.LuaSlotsPoints.{Evals, Runs};
ghost use Rattle.lua_state.specs.Of.{StateOf};
ghost use Rattle.lua_state.specs.Seen.{frames_of};
ghost use Rattle.lua_strides.specs.Reads.{ReadsCall};
ghost use Rattle.lua_strides.specs.Strides.{MayStride};

use crate::ending::{pay_nodes, wait_for, wait_within};
use crate::next::Next;
use crate::reading::{LEVELS, ListRead, ValueRead, read, read_all};
use lua_code::{Expression, NoMemory, Statement};
use lua_state::{Frame, InExpression, InStatement, Left, State, Steps, Store};
use std::alloc::Global;
use std::sync::ledger::Ledger;

/// A function and its arguments.
fn read_call<'m>(
    alloc: Global,
    store: &Store,
    state: &State<'m>,
    called: &'m Expression,
    arguments: &'m [Expression],
) -> Result<Option<(ValueRead, ListRead)>, NoMemory>
    requires { StateOf store.now state.now }
    ensures { IfOk result (ReadsCall store.now state.now (expression_seen called.now) (expressions_seen arguments.now)) }
{
    match read(store, state, called, LEVELS) {
        Some(called) => {
            let all = read_all(alloc, store, state, arguments)?;
            match all {
                Some(arguments) => Ok(Some((called, arguments))),
                None => Ok(None),
            }
        }
        None => Ok(None),
    }
}

/// A call begins.
pub fn call<'m, L: Ledger>(
    alloc: Global,
    store: &Store,
    left: &mut Left,
    state: &mut State<'m>,
    called: &'m Expression,
    arguments: &'m [Expression],
    line: u32,
    turns: &mut Steps<L>,
) -> Result<Option<Next<'m>>, NoMemory>
    requires { StateOf store.now state.old }
    ensures { IfOk result (MayStride store.now state.old (Evals (CallC (expression_seen called.now) (expressions_seen arguments.now) line) (frames_of store.now state.old)) left.old turns.old store.now state.new left.new turns.new) }
{
    let known = read_call(alloc, store, state, called, arguments)?;
    match known {
        Some((called, arguments)) => {
            let nodes = 1 + (called.nodes + arguments.nodes);
            if !pay_nodes(left, turns, nodes) {
                return Ok(None);
            }
            let frame = Frame::Expression(InExpression::CallNow(called.value, line));
            let next = Next::GivesAll(arguments.values);
            wait_for(state, frame, next)
        }
        None => Ok(None),
    }
}

/// A call that is a statement begins, before others.
pub fn call_before<'m, L: Ledger>(
    alloc: Global,
    store: &Store,
    left: &mut Left,
    state: &mut State<'m>,
    called: &'m Expression,
    arguments: &'m [Expression],
    line: u32,
    rest: &'m [Statement],
    turns: &mut Steps<L>,
) -> Result<Option<Next<'m>>, NoMemory>
    requires { StateOf store.now state.old }
    ensures { IfOk result (MayStride store.now state.old (Runs (ThenC (CallStatC (CallC (expression_seen called.now) (expressions_seen arguments.now) line)) (block_seen rest.now)) (frames_of store.now state.old)) left.old turns.old store.now state.new left.new turns.new) }
{
    let known = read_call(alloc, store, state, called, arguments)?;
    match known {
        Some((called, arguments)) => {
            let nodes = 1 + (1 + (called.nodes + arguments.nodes));
            if !pay_nodes(left, turns, nodes) {
                return Ok(None);
            }
            let outer = Frame::Statement(InStatement::StatsNext(rest));
            let inner = Frame::Expression(InExpression::CallNow(called.value, line));
            let next = Next::GivesAll(arguments.values);
            wait_within(state, outer, inner, next)
        }
        None => Ok(None),
    }
}
