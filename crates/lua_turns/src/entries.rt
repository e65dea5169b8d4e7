//! An assignment to an entry begins (manual 2.4.3): its table and its key are read in place, and no frame waits for them.
ghost use Rattle.std.specs.Prelude.{◌≡◌, ◌∷◌, [], IfOk};
ghost use Rattle.lua_code.specs.Seen.{block_seen, expression_seen};
ghost use Rattle.lua_code.specs.LuaSlotsCode.{AssignC, EntryC, MoreC, NoC, ThenC};
ghost use Rattle.lua_operators.specs.LuaSlotsPoints.{Runs};
ghost use Rattle.lua_loops.specs.LuaStateOf.{StateOf};
ghost use Rattle.lua_loops.specs.LuaStateSeen.{frames_of};
ghost use Rattle.lua_strides.specs.Strides.{MayStride};

use crate::statements::wait_to_assign;
use lua_code::{Expression, NoMemory, Statement};
use lua_loops::{State, Steps};
use lua_operators::{Left, Store};
use lua_strides::ending::pay_nodes;
use lua_strides::reading::{LEVELS, read_two};
use lua_strides::{Found, Next};
use std::alloc::Global;
use std::sync::ledger::Ledger;

/// An assignment of one value to an entry begins, where its table and key are read in place and their steps are left: the value is next.
/// `none` is the end of the list of values.
pub fn begin_entry<'m, L: Ledger>(
    alloc: Global,
    store: &Store,
    left: &mut Left,
    state: &mut State<'m>,
    target: (&'m Expression, &'m Expression, u32),
    value: &'m Expression,
    none: &'m [Expression],
    rest: &'m [Statement],
    turns: &mut Steps<L>,
) -> Result<Option<Next<'m>>, NoMemory>
    requires state { StateOf store.now state.old }
    requires none { none.now ≡ [] }
    ensures { IfOk result (MayStride store.now state.old (Runs (ThenC (AssignC (EntryC (expression_seen target.entry.0.now) (expression_seen target.entry.1.now) target.entry.2 ∷ []) (MoreC (expression_seen value.now) NoC)) (block_seen rest.now)) (frames_of store.now state.old)) left.old turns.old store.now state.new left.new turns.new) }
{
    let (of, key, line) = target;
    match read_two(store, state, of, key, LEVELS + 1) {
        Some(found) => {
            if !pay_nodes(left, turns, 1 + (1 + (found.0.nodes + found.1.nodes))) {
                return Ok(None);
            }
            let entry = Found::At(found.0.value, found.1.value, line);
            wait_to_assign(alloc, &mut state.frames, entry, none, rest)?;
            Ok(Some(Next::Evaluates(value)))
        }
        None => Ok(None),
    }
}
