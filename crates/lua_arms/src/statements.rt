//! Statements that begin (manual 2.4), conditions, and blocks of their own.
ghost use Rattle.std.specs.Prelude.{◌≡◌, ◌∷◌, [], List, option_map, IfOk, MatchOption};
ghost use Rattle.lua_code.specs.Seen.{block_seen, branches_seen};
ghost use Rattle.lua_stack.specs.LuaSlotsSlots.{Slots};
ghost use Rattle.lua_code.specs.LuaSlotsStatements as machine;
ghost use Rattle.lua_stack.specs.Seen.{frames_seen, registers_seen};
ghost use Rattle.lua_stack.specs.Of.{FramesOf};
ghost use Rattle.lua_arms.specs.Steps.{step_seen, StepOf};

use crate::loops::nothing;
use crate::step::Step;
use lua_basic::Store;
use lua_code::{Branch, List, NoMemory, Statement};
use lua_stack::{Ending, Focus, Frame, Frames, InStatement, Slot, Stack};
use std::alloc::Global;

/// A block of its own begins: at its end its registers are gone.
pub fn within<'m>(
    store: &Store,
    frames: &mut Frames<'m>,
    regs: &Stack<Slot>,
    body: &'m List<Statement>,
) -> Result<Step<'m>, NoMemory>
    requires frames { FramesOf store.now frames.old }
    ensures of { IfOk result (λ r. StepOf store.now r × FramesOf store.now frames.new) }
    ensures move_ { IfOk result (λ r. (s : Slots) → s.regs ≡ registers_seen store.now.texts regs.now
        → machine.within (block_seen body.now) (frames_seen store.now.texts frames.old) s ≡ step_seen store.now r (frames_seen store.now.texts frames.new) s) }
{
    frames.push(Frame::End(Ending::BlockEnd(regs.len())))?;
    Ok(Step::On(Focus::Runs(body.as_slice())))
}

/// The first of some branches, and those behind it.
#[derive(Clone, Copy)]
struct FrontBranch<'m> {
    first: &'m Branch,
    rest: &'m [Branch],
}

fn front_branch<'m>(branches: &'m [Branch]) -> Option<FrontBranch<'m>>
    ensures { MatchOption result (branches.now ≡ []) (λ f. branches.now ≡ f.first.now ∷ f.rest.now) }
{
    match branches {
        [first, rest @ ..] => Some(FrontBranch { first, rest }),
        [] => None,
    }
}

/// The branches of an `if` that are left: the first test is next, or the `else`.
#[tactic(auto, using(crate::proofs::Codes::codes))]
pub fn branches<'m>(
    alloc: Global,
    store: &Store,
    frames: &mut Frames<'m>,
    regs: &Stack<Slot>,
    branches: &'m [Branch],
    other: Option<&'m List<Statement>>,
) -> Result<Step<'m>, NoMemory>
    requires frames { FramesOf store.now frames.old }
    ensures of { IfOk result (λ r. StepOf store.now r × FramesOf store.now frames.new) }
    ensures move_ { IfOk result (λ r. (s : Slots) → s.regs ≡ registers_seen store.now.texts regs.now
        → machine.branches (branches_seen branches.now) (option_map (λ b. block_seen b.now) other.entry) (frames_seen store.now.texts frames.old) s
        ≡ step_seen store.now r (frames_seen store.now.texts frames.new) s) }
{
    match front_branch(branches) {
        Some(front) => {
            let Branch { test, body } = front.first;
            frames.push(Frame::Statement(InStatement::BranchNext(body, front.rest, other)))?;
            Ok(Step::On(Focus::Evaluates(test)))
        }
        None => match other {
            Some(body) => {
                let step = within(store, frames, regs, body)?;
                Ok(step)
            }
            None => Ok(nothing(alloc)),
        },
    }
}
