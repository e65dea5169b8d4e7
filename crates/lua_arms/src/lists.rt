//! Lists of expressions, and operands of `and` and `or` (manual 2.5 and 2.5.3).
ghost use Rattle.std.specs.Prelude.{◌≡◌, ◌∷◌, [], List, IfOk, MatchOption};
ghost use Rattle.lua_code.specs.Seen.{expression_seen, expressions_seen};
ghost use Rattle.lua_basic.specs.LuaStoreSeen.{seen};
ghost use Rattle.lua_basic.specs.LuaStoreParts.{IsOf};
ghost use Rattle.lua_stack.specs.LuaSlotsSlots.{Slots};
ghost use Rattle.lua_stack.specs.LuaSlotsPoints.{SFrame};
ghost use Rattle.lua_code.specs.LuaSlotsExpressions as machine;
ghost use Rattle.lua_stack.specs.Seen.{values_seen, given_seen, frames_seen};
ghost use Rattle.lua_stack.specs.Of.{ValuesOf, GivenOf, FramesOf};
ghost use Rattle.lua_arms.specs.Steps.{step_seen, StepOf};

use crate::step::Step;
use lua_basic::{Store, Value};
use lua_code::{Expression, NoMemory};
use lua_stack::values::is_true;
use lua_stack::{Focus, Frame, Frames, Given, InExpression, Values};

/// The first of some expressions, and those behind it.
#[derive(Clone, Copy)]
struct Front<'m> {
    first: &'m Expression,
    rest: &'m [Expression],
}

fn front_of<'m>(expressions: &'m [Expression]) -> Option<Front<'m>>
    ensures { MatchOption result (expressions.now ≡ []) (λ f. expressions.now ≡ f.first.now ∷ f.rest.now) }
{
    match expressions {
        [first, rest @ ..] => Some(Front { first, rest }),
        [] => None,
    }
}

/// A list goes on, with the values before.
pub fn list<'m>(
    store: &Store,
    frames: &mut Frames<'m>,
    expressions: &'m [Expression],
    before: Values,
) -> Result<Step<'m>, NoMemory>
    requires before { ValuesOf store.now before }
    requires frames { FramesOf store.now frames.old }
    ensures of { IfOk result (λ r. StepOf store.now r × FramesOf store.now frames.new) }
    ensures move_ { IfOk result (λ r. (s : Slots)
        → machine.lists (expressions_seen expressions.now) (values_seen store.now.texts before) (frames_seen store.now.texts frames.old) s ≡ step_seen store.now r (frames_seen store.now.texts frames.new) s) }
{
    match front_of(expressions) {
        None => Ok(Step::On(Focus::Gives(Given::Many(before)))),
        Some(front) => {
            frames.push(Frame::Expression(InExpression::MoreNext(front.rest, before)))?;
            Ok(Step::On(Focus::Evaluates(front.first)))
        }
    }
}

/// What is left of a list goes on with the values of an expression: with all of them where it was the last, else with the first.
pub fn more_values<'m>(
    store: &Store,
    expressions: &'m [Expression],
    before: Values,
    values: Given,
) -> Result<Step<'m>, NoMemory>
    requires before { ValuesOf store.now before }
    requires values { GivenOf store.now values }
    ensures of { IfOk result (λ r. StepOf store.now r) }
    ensures move_ { IfOk result (λ r. (fs : List SFrame) (s : Slots)
        → machine.more_values (expressions_seen expressions.now) (values_seen store.now.texts before) (given_seen store.now.texts values) fs s ≡ step_seen store.now r fs s) }
{
    match front_of(expressions) {
        None => {
            let all = values.behind(before)?;
            Ok(Step::On(Focus::Gives(Given::Many(all))))
        }
        Some(_) => {
            let mut before = before;
            before.add(values.first())?;
            Ok(Step::On(Focus::Lists(expressions, before)))
        }
    }
}

/// An operand of `and` or `or`: it is the value where it decides, and else the other operand is.
pub fn choose_operand<'m>(
    store: &Store,
    frames: &mut Frames<'m>,
    deciding: bool,
    other: &'m Expression,
    value: Value,
) -> Result<Step<'m>, NoMemory>
    requires value { IsOf store.now value }
    requires frames { FramesOf store.now frames.old }
    ensures of { IfOk result (λ r. StepOf store.now r × FramesOf store.now frames.new) }
    ensures move_ { IfOk result (λ r. (s : Slots)
        → machine.choose_operand deciding (expression_seen other.now) (seen store.now.texts value) (frames_seen store.now.texts frames.old) s ≡ step_seen store.now r (frames_seen store.now.texts frames.new) s) }
{
    if is_true(value) == deciding {
        return Ok(Step::On(Focus::Gives(Given::One(value))));
    }
    frames.push(Frame::Expression(InExpression::First))?;
    Ok(Step::On(Focus::Evaluates(other)))
}
