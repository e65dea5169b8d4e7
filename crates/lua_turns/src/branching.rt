//! Tests of `if` and `while` that have their value (manual 2.4.4).
ghost use Rattle.std.specs.Prelude.{◌≡◌, ◌∷◌, [], ℕ, List as Items, MatchOption};
ghost use Rattle.lua_loops.specs.PageRunOutcome.{Goes};
ghost use Rattle.lua_loops.specs.WkBaseDeclaredLeftLeft.{Left as Allowance};
ghost use Rattle.lua_code.specs.Seen.{block_seen, branches_seen, expression_seen};
ghost use Rattle.lua_code.specs.LuaHeapValue.{Value as Plain};
ghost use Rattle.lua_code.specs.LuaSlotsCode.{ArmC, NoArmC};
ghost use Rattle.lua_operators.specs.LuaSlotsPoints.{Gives};
ghost use Rattle.lua_operators.specs.LuaStackDeclaredFrameEndingTheVariants as ending_kind;
ghost use Rattle.lua_strides.specs.LuaStackDeclaredFrameFrame.{Frame as FrameValue};
ghost use Rattle.lua_operators.specs.LuaStackDeclaredFrameFrameTheVariants as frame_kind;
ghost use Rattle.lua_operators.specs.LuaStackDeclaredFrameInLoopTheVariants as in_loop;
ghost use Rattle.lua_operators.specs.LuaStackDeclaredFrameInStatementTheVariants as in_statement;
ghost use Rattle.lua_loops.specs.LuaStateOf.{StateOf};
ghost use Rattle.lua_loops.specs.LuaStateSeen.{frames_of};
ghost use Rattle.lua_operators.specs.LuaStoreParts.{IsOf};
ghost use Rattle.lua_operators.specs.LuaStoreSeen.{StoreView, seen};
ghost use Rattle.lua_strides.specs.Next.{focus_of};
ghost use Rattle.lua_turns.specs.Branching.{LeadsWithin};
ghost use Rattle.lua_turns.specs.Rows.{Follows, IsNewest, MayFollow};

use crate::waiting::{drop_newest, swap_newest};
use lua_code::{Branch, Expression, List, NoMemory, Statement};
use lua_loops::leaving::keep_oldest;
use lua_loops::turns::depth_of;
use lua_loops::{Ending, InLoop, State, Steps};
use lua_operators::{Frame, Left, Value, is_true};
use lua_strides::ending::pay_nodes;
use lua_strides::{InStatement, Next};
use std::sync::ledger::Ledger;

/// The first of some branches, and those behind it.
#[derive(Clone, Copy)]
struct FirstBranch<'m> {
    first: &'m Branch,
    rest: &'m [Branch],
}

fn first_branch<'m>(branches: &'m [Branch]) -> Option<FirstBranch<'m>>
    ensures { MatchOption result (branches.now ≡ []) (λ f. branches.now ≡ f.first.now ∷ f.rest.now) }
{
    match branches {
        [first, rest @ ..] => Some(FirstBranch { first, rest }),
        [] => None,
    }
}

/// The first of some branches, a test and what follows its `then`, and those behind it.
#[derive(Clone, Copy)]
pub struct FrontBranch<'m> {
    pub test: &'m Expression,
    pub body: &'m List<Statement>,
    pub rest: &'m [Branch],
}

/// They are taken apart, if there are any.
#[tactic(auto, using(crate::proofs::Codes::codes))]
pub fn front_branch<'m>(branches: &'m [Branch]) -> Option<FrontBranch<'m>>
    ensures { MatchOption result (branches_seen branches.now ≡ NoArmC) (λ f. branches_seen branches.now ≡ ArmC (expression_seen f.test.now) (block_seen f.body.now) (branches_seen f.rest.now)) }
{
    match first_branch(branches) {
        Some(front) => {
            let Branch { test, body } = front.first;
            Some(FrontBranch {
                test,
                body,
                rest: front.rest,
            })
        }
        None => None,
    }
}

/// A block of its own is next: the newest frame, whose move leads to it, waits for its end.
fn within<'m>(state: &mut State<'m>, body: &'m List<Statement>) -> Next<'m>
    ensures { (s : StoreView) (l : Allowance) (k : ℕ) (v : Plain) (f : FrameValue) → StateOf s state.old → IsNewest state.old.frames f → LeadsWithin s state.old f v (block_seen body.now) → Follows s state.old (Gives (Goes (v ∷ [])) (frames_of s state.old)) l k s state.new l k (focus_of result) }
{
    let depth = depth_of(&state.regs);
    swap_newest(&mut state.frames, Frame::End(Ending::BlockEnd(depth)));
    Next::Runs(body.as_slice())
}

/// A test of an `if` has its value: a block is next, the next test, or nothing.
pub fn choose<'m>(
    state: &mut State<'m>,
    body: &'m List<Statement>,
    more: &'m [Branch],
    other: Option<&'m List<Statement>>,
    value: Value,
) -> Next<'m>
    requires { IsNewest state.old.frames (frame_kind.Statement (in_statement.BranchNext body more other)) }
    ensures { (s : StoreView) (l : Allowance) (k : ℕ) → StateOf s state.old → IsOf s value → Follows s state.old (Gives (Goes (seen s.texts value ∷ [])) (frames_of s state.old)) l k s state.new l k (focus_of result) }
{
    if is_true(value) {
        return within(state, body);
    }
    match front_branch(more) {
        Some(front) => {
            let frame = InStatement::BranchNext(front.body, front.rest, other);
            swap_newest(&mut state.frames, Frame::Statement(frame));
            Next::Evaluates(front.test)
        }
        None => match other {
            Some(other) => within(state, other),
            None => {
                drop_newest(&mut state.frames);
                Next::GivesNone
            }
        },
    }
}

/// A test of a `while` has its value: a turn begins, whose step is taken, or the loop is over.
pub fn take_test<'m, L: Ledger>(
    left: &mut Left,
    state: &mut State<'m>,
    test: &'m Expression,
    body: &'m List<Statement>,
    value: Value,
    turns: &mut Steps<L>,
) -> Option<Next<'m>>
    requires { IsNewest state.old.frames (frame_kind.Loop (in_loop.WhileTest test body)) }
    ensures { (s : StoreView) → StateOf s state.old → IsOf s value → MayFollow s state.old (Gives (Goes (seen s.texts value ∷ [])) (frames_of s state.old)) left.old turns.old s state.new left.new turns.new result }
{
    if !is_true(value) {
        drop_newest(&mut state.frames);
        return Some(Next::GivesNone);
    }
    if !pay_nodes(left, turns, 1) {
        return None;
    }
    let depth = depth_of(&state.regs);
    swap_newest(
        &mut state.frames,
        Frame::End(Ending::WhileEnd(depth, test, body)),
    );
    Some(Next::Runs(body.as_slice()))
}

/// A turn of a `while` is over: its test is next.
pub fn end_while<'m>(
    state: &mut State<'m>,
    depth: usize,
    test: &'m Expression,
    body: &'m List<Statement>,
) -> Next<'m>
    requires { IsNewest state.old.frames (frame_kind.End (ending_kind.WhileEnd depth test body)) }
    ensures { (s : StoreView) (l : Allowance) (k : ℕ) (values : Items Plain) → StateOf s state.old → Follows s state.old (Gives (Goes values) (frames_of s state.old)) l k s state.new l k (focus_of result) }
{
    keep_oldest(&mut state.regs, depth);
    swap_newest(
        &mut state.frames,
        Frame::Loop(InLoop::WhileTest(test, body)),
    );
    Next::Evaluates(test)
}
