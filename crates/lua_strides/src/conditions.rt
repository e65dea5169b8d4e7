//! An `if` whose first test is read in place (manual 2.4.4).
ghost use Rattle.std.specs.Prelude.{◌≡◌, ◌∷◌, [], false, option_map, IfOk, MatchOption};
ghost use Rattle.lua_code.specs.Seen.{branches_seen, block_seen, expression_seen};
ghost use Rattle.lua_code.specs.LuaSlotsCode.{ArmC, CBlock, NoArmC, ThenC};
ghost use Rattle.lua_state.specs.LuaSlotsPoints.{Runs};
ghost use Rattle.lua_state.specs.Of.{StateOf};
ghost use Rattle.lua_state.specs.Seen.{frames_of};
ghost use Rattle.lua_strides.specs.Conditions.{if_seen, IsChosen};
ghost use Rattle.lua_strides.specs.Strides.{MayStride};

use crate::ending::{pay_nodes, wait_within};
use crate::next::Next;
use crate::reading::{LEVELS, read};
use crate::running::depth_of;
use lua_code::{Branch, Expression, List, NoMemory, Statement};
use lua_state::{Ending, Frame, InStatement, Left, State, Steps, Store, is_true};
use std::sync::ledger::Ledger;

/// What the value of the first test decides: a block, what follows the statement, or nothing yet.
pub enum Choice<'m> {
    Block(&'m List<Statement>),
    Rest,
    Later,
}

/// The first of some branches, and those behind it.
#[derive(Clone, Copy)]
struct FrontBranch<'m> {
    first: &'m Branch,
    rest: &'m [Branch],
}

fn front_branch<'m>(branches: &'m [Branch]) -> Option<FrontBranch<'m>>
    ensures { MatchOption result (branches.now ≡ []) (λ f. branches.now ≡ f.first.now ∷ f.rest.now) }
{
    match branches {
        [first, rest @ ..] => Some(FrontBranch { first, rest }),
        [] => None,
    }
}

/// The `else`, or what follows, where no branch is behind the one whose test does not hold.
fn chosen_else<'m>(other: &'m Option<List<Statement>>) -> Choice<'m>
    ensures { (body : CBlock) → IsChosen false body NoArmC (option_map block_seen other.now) result }
{
    match other {
        Some(body) => Choice::Block(body),
        None => Choice::Rest,
    }
}

/// What is chosen where the first test holds, or does not.
fn chosen<'m>(
    holds: bool,
    body: &'m List<Statement>,
    more: &'m [Branch],
    other: &'m Option<List<Statement>>,
) -> Choice<'m>
    ensures { IsChosen holds (block_seen body.now) (branches_seen more.now) (option_map block_seen other.now) result }
{
    if holds {
        return Choice::Block(body);
    }
    match front_branch(more) {
        Some(_) => Choice::Later,
        None => chosen_else(other),
    }
}

/// The first test of an `if`, with its body, what is behind it, and the statements that follow.
fn test_first<'m, L: Ledger>(
    store: &Store,
    left: &mut Left,
    state: &mut State<'m>,
    test: &'m Expression,
    body: &'m List<Statement>,
    more: &'m [Branch],
    other: &'m Option<List<Statement>>,
    rest: &'m [Statement],
    turns: &mut Steps<L>,
) -> Result<Option<Next<'m>>, NoMemory>
    requires { StateOf store.now state.old }
    ensures { IfOk result (MayStride store.now state.old (Runs (ThenC (if_seen (ArmC (expression_seen test.now) (block_seen body.now) (branches_seen more.now)) (option_map block_seen other.now)) (block_seen rest.now)) (frames_of store.now state.old)) left.old turns.old store.now state.new left.new turns.new) }
{
    match read(store, state, test, LEVELS) {
        Some(found) => match chosen(is_true(found.value), body, more, other) {
            Choice::Block(block) => {
                if !pay_nodes(left, turns, 1 + found.nodes) {
                    return Ok(None);
                }
                let depth = depth_of(&state.regs);
                let block = block.as_slice();
                let outer = Frame::Statement(InStatement::StatsNext(rest));
                let inner = Frame::End(Ending::BlockEnd(depth));
                wait_within(state, outer, inner, Next::Runs(block))
            }
            Choice::Rest => {
                if !pay_nodes(left, turns, 1 + found.nodes) {
                    return Ok(None);
                }
                Ok(Some(Next::Runs(rest)))
            }
            Choice::Later => Ok(None),
        },
        None => Ok(None),
    }
}

/// An `if` begins, before these statements.
pub fn condition<'m, L: Ledger>(
    store: &Store,
    left: &mut Left,
    state: &mut State<'m>,
    branches: &'m [Branch],
    other: &'m Option<List<Statement>>,
    rest: &'m [Statement],
    turns: &mut Steps<L>,
) -> Result<Option<Next<'m>>, NoMemory>
    requires { StateOf store.now state.old }
    ensures { IfOk result (MayStride store.now state.old (Runs (ThenC (if_seen (branches_seen branches.now) (option_map block_seen other.now)) (block_seen rest.now)) (frames_of store.now state.old)) left.old turns.old store.now state.new left.new turns.new) }
{
    match front_branch(branches) {
        Some(front) => {
            let Branch { test, body } = front.first;
            test_first(
                store, left, state, test, body, front.rest, other, rest, turns,
            )
        }
        None => Ok(None),
    }
}
