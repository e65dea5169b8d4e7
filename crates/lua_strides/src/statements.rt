//! Statements whose expressions are read in place (manual 2.4.3, 2.4.4 and 2.4.7).
ghost use Rattle.std.specs.Prelude.{◌≡◌, ◌∷◌, [], IfOk};
ghost use Rattle.lua_code.specs.Seen.{block_seen, expression_seen, place_seen};
ghost use Rattle.lua_code.specs.LuaSlotsCode.{AssignC, DeclareC, EntryC, MoreC, NoC, PlaceC, ReturnC, ThenC};
ghost use Rattle.lua_state.specs.LuaSlotsPoints.{Runs};
ghost use Rattle.lua_state.specs.Of.{StateOf};
ghost use Rattle.lua_state.specs.Seen.{frames_of};
ghost use Rattle.lua_strides.specs.Reads.{ReadsEntry};
ghost use Rattle.lua_strides.specs.Strides.{MayStride};

use crate::ending::{pay_nodes, wait_for};
use crate::next::Next;
use crate::reading::{EntryRead, LEVELS, read};
use crate::running::running_closure;
use lua_code::{Expression, NoMemory, Place, Statement};
use lua_state::{Found, Frame, InStatement, Left, Setting, State, Steps, Store, open, write};
use std::sync::ledger::Ledger;

/// A value to a local variable, before these statements.
pub fn assign<'m, L: Ledger>(
    store: &mut Store,
    left: &mut Left,
    state: &mut State<'m>,
    place: Place,
    value: &'m Expression,
    rest: &'m [Statement],
    turns: &mut Steps<L>,
) -> Option<Next<'m>>
    requires { StateOf store.old state.old }
    ensures { MayStride store.old state.old (Runs (ThenC (AssignC (PlaceC (place_seen place) ∷ []) (MoreC (expression_seen value.now) NoC)) (block_seen rest.now)) (frames_of store.old state.old)) left.old turns.old store.new state.new left.new turns.new result }
{
    match read(store, state, value, LEVELS) {
        Some(found) => {
            if !pay_nodes(left, turns, 1 + found.nodes) {
                return None;
            }
            let closure = running_closure(&state.functions);
            write(store, &mut state.regs, closure, place, found.value);
            Some(Next::Runs(rest))
        }
        None => None,
    }
}

/// A new local variable with a value, before these statements.
pub fn declare<'m, L: Ledger>(
    store: &mut Store,
    left: &mut Left,
    state: &mut State<'m>,
    boxed: bool,
    value: &'m Expression,
    rest: &'m [Statement],
    turns: &mut Steps<L>,
) -> Result<Option<Next<'m>>, NoMemory>
    requires { StateOf store.old state.old }
    ensures { IfOk result (MayStride store.old state.old (Runs (DeclareC (boxed ∷ []) (MoreC (expression_seen value.now) NoC) (block_seen rest.now)) (frames_of store.old state.old)) left.old turns.old store.new state.new left.new turns.new) }
{
    match read(store, state, value, LEVELS) {
        Some(found) => {
            if !pay_nodes(left, turns, 1 + found.nodes) {
                return Ok(None);
            }
            open(store, &mut state.regs, boxed, found.value)?;
            Ok(Some(Next::Runs(rest)))
        }
        None => Ok(None),
    }
}

/// A value that is returned. What follows the statement is passed by.
pub fn return_value<'m, L: Ledger>(
    store: &Store,
    left: &mut Left,
    state: &State<'m>,
    value: &'m Expression,
    rest: &'m [Statement],
    turns: &mut Steps<L>,
) -> Option<Next<'m>>
    requires { StateOf store.now state.now }
    ensures { MayStride store.now state.now (Runs (ThenC (ReturnC (MoreC (expression_seen value.now) NoC)) (block_seen rest.now)) (frames_of store.now state.now)) left.old turns.old store.now state.now left.new turns.new result }
{
    match read(store, state, value, LEVELS) {
        Some(found) => {
            if !pay_nodes(left, turns, 1 + found.nodes) {
                return None;
            }
            Some(Next::Returns(found.value))
        }
        None => None,
    }
}

/// What an assignment to an entry is made of: a table, a key, and the value.
fn read_entry<'m>(
    store: &Store,
    state: &State<'m>,
    of: &'m Expression,
    key: &'m Expression,
    value: &'m Expression,
) -> Option<EntryRead>
    requires { StateOf store.now state.now }
    ensures { ReadsEntry store.now state.now (expression_seen of.now) (expression_seen key.now) (expression_seen value.now) result }
{
    let of = read(store, state, of, LEVELS)?;
    let key = read(store, state, key, LEVELS)?;
    let value = read(store, state, value, LEVELS)?;
    Some(EntryRead { of, key, value })
}

/// A value to an entry, before these statements: it is still to be set.
pub fn assign_entry<'m, L: Ledger>(
    store: &mut Store,
    left: &mut Left,
    state: &mut State<'m>,
    target: (&'m Expression, &'m Expression, u32),
    value: &'m Expression,
    rest: &'m [Statement],
    turns: &mut Steps<L>,
) -> Result<Option<Next<'m>>, NoMemory>
    requires { StateOf store.old state.old }
    ensures { IfOk result (MayStride store.old state.old (Runs (ThenC (AssignC (EntryC (expression_seen target.entry.0.now) (expression_seen target.entry.1.now) target.entry.2 ∷ []) (MoreC (expression_seen value.now) NoC)) (block_seen rest.now)) (frames_of store.old state.old)) left.old turns.old store.new state.new left.new turns.new) }
{
    let (of, key, line) = target;
    match read_entry(store, state, of, key, value) {
        Some(found) => {
            let nodes = 1 + (1 + (found.of.nodes + (found.key.nodes + found.value.nodes)));
            if !pay_nodes(left, turns, nodes) {
                return Ok(None);
            }
            let setting = Setting {
                target: Found::At(found.of.value, found.key.value, line),
                value: found.value.value,
            };
            let frame = Frame::Statement(InStatement::StatsNext(rest));
            wait_for(state, frame, Next::Sets(setting))
        }
        None => Ok(None),
    }
}
