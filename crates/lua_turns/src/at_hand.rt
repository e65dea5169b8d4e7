//! Expressions that are at hand: constants, variables, and operators and indices of these. Where one comes up beside others that are
//! evaluated, its value is read at once.
ghost use Rattle.lua_code.specs.Seen.{expression_seen};
ghost use Rattle.lua_operators.specs.LuaSlotsPoints.{Evals};
ghost use Rattle.lua_loops.specs.LuaStateOf.{StateOf};
ghost use Rattle.lua_loops.specs.LuaStateSeen.{frames_of};
ghost use Rattle.lua_strides.specs.Next.{focus_of};
ghost use Rattle.lua_turns.specs.Rows.{Follows};

use lua_code::Expression;
use lua_loops::{State, Steps};
use lua_operators::{Left, Store};
use lua_strides::Next;
use lua_strides::ending::pay_nodes;
use lua_strides::reading::read;
use std::sync::ledger::Ledger;

/// How many operators one in the other are looked at. What is read in vain is read again, so these are few.
pub const AT_HAND: u64 = 1;

/// An expression is next: its value, if it is at hand and its steps are left.
pub fn next_of<'m, L: Ledger>(
    store: &Store,
    left: &mut Left,
    state: &State<'m>,
    e: &'m Expression,
    turns: &mut Steps<L>,
) -> Next<'m>
    requires { StateOf store.now state.now }
    ensures { Follows store.now state.now (Evals (expression_seen e.now) (frames_of store.now state.now)) left.old turns.old store.now state.now left.new turns.new (focus_of result) }
{
    match read(store, state, e, AT_HAND) {
        Some(found) => {
            if !pay_nodes(left, turns, found.nodes) {
                return Next::Evaluates(e);
            }
            Next::Gives(found.value)
        }
        None => Next::Evaluates(e),
    }
}
