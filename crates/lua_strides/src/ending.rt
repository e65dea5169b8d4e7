//! How several moves at once end: their nodes are paid and counted together, and then what is next is made. Nothing is made before they
//! are paid.
ghost use Rattle.std.specs.Prelude.{◌≡◌, ◌+◌, ◌∷◌, ℕ, true, IfOk};
ghost use Rattle.lua_state.specs.LuaSlotsPoints.{Point};
ghost use Rattle.lua_state.specs.LuaStoreSeen.{StoreView};
ghost use Rattle.lua_strides.specs.Next.{focus_of};
ghost use Rattle.lua_strides.specs.Strides.{PaysNodes, MayStride, Ready};
ghost use Rattle.lua_state.specs.WkBaseDeclaredLeftLeft.{Left as Allowance};

use crate::next::Next;
use lua_code::NoMemory;
use lua_state::{Frame, Left, State, Steps};
use std::sync::ledger::Ledger;

/// So many turns are counted.
fn tick_all<L: Ledger>(turns: &mut Steps<L>, count: u64)
    ensures { turns.new ≡ turns.old + count }
{
    'ticks: for at in 0..count {
        turns.tick();
    }
}

/// Takes a step for each of so many nodes, and counts them. Where fewer steps are left, the answer is false and nothing changes.
pub fn pay_nodes<L: Ledger>(left: &mut Left, turns: &mut Steps<L>, nodes: u64) -> bool
    ensures { PaysNodes nodes left.old turns.old left.new turns.new result }
{
    if left.steps < nodes {
        return false;
    }
    left.steps -= nodes;
    tick_all(turns, nodes);
    true
}

/// What is paid so: this is next, and a frame waits for it.
pub fn wait_for<'m>(
    state: &mut State<'m>,
    frame: Frame<'m>,
    next: Next<'m>,
) -> Result<Option<Next<'m>>, NoMemory>
    ensures { (s : StoreView) (p : Point) (n : ℕ) (l l' : Allowance) (k k' : ℕ) → Ready s state.old p n (focus_of next.entry) (frame.entry ∷ state.old.frames) → PaysNodes n l k l' k' true → IfOk result (MayStride s state.old p l k s state.new l' k') }
{
    state.frames.push(frame)?;
    Ok(Some(next))
}

/// The same, and a frame waits for it, for which another one waits.
pub fn wait_within<'m>(
    state: &mut State<'m>,
    outer: Frame<'m>,
    inner: Frame<'m>,
    next: Next<'m>,
) -> Result<Option<Next<'m>>, NoMemory>
    ensures { (s : StoreView) (p : Point) (n : ℕ) (l l' : Allowance) (k k' : ℕ) → Ready s state.old p n (focus_of next.entry) (inner.entry ∷ outer.entry ∷ state.old.frames) → PaysNodes n l k l' k' true → IfOk result (MayStride s state.old p l k s state.new l' k') }
{
    state.frames.push_two(outer, inner)?;
    Ok(Some(next))
}
