//! Expressions whose operands are evaluated (manual 2.5): the first of them is next, and a frame waits for it. A method's call is none of
//! these, since the text of its name is looked for first.
ghost use Rattle.std.specs.Prelude.{◌≡◌, IfOk};
ghost use Rattle.lua_code.specs.Seen.{expression_seen};
ghost use Rattle.lua_code.specs.LuaSlotsCode.{Constants};
ghost use Rattle.lua_stack.specs.LuaSlotsSlots.{Slots};
ghost use Rattle.lua_code.specs.LuaSlotsExpressions as machine;
ghost use Rattle.lua_stack.specs.LuaSlotsErrors.{node};
ghost use Rattle.lua_stack.specs.Seen.{frames_seen};
ghost use Rattle.lua_stack.specs.Of.{FramesOf};
ghost use Rattle.lua_arms.specs.Steps.{step_seen, StepOf};
ghost use Rattle.lua_arms.specs.Operands.{HasOperands};

use crate::step::Step;
use lua_basic::Store;
use lua_code::{Expression, NoMemory};
use lua_stack::{Focus, Frame, Frames, InExpression};

/// An expression with operands begins, whose step is taken and which is counted.
#[tactic(auto, using(crate::proofs::Codes::codes))]
pub fn begin_operands<'m>(
    store: &Store,
    frames: &mut Frames<'m>,
    code: &'m Expression,
) -> Result<Step<'m>, NoMemory>
    requires code { HasOperands (expression_seen code.now) }
    requires frames { FramesOf store.now frames.old }
    ensures of { IfOk result (λ r. StepOf store.now r × FramesOf store.now frames.new) }
    ensures move_ { IfOk result (λ r. (constants : Constants) (s : Slots)
        → machine.evals constants (expression_seen code.now) (frames_seen store.now.texts frames.old) s ≡ node (step_seen store.now r (frames_seen store.now.texts frames.new) s)) }
{
    match code {
        Expression::Index(of, key, line) => {
            frames.push(Frame::Expression(InExpression::KeyNext(key, *line)))?;
            Ok(Step::On(Focus::Evaluates(of)))
        }
        Expression::Call(called, arguments, line) => {
            frames.push(Frame::Expression(InExpression::ArgumentsNext(arguments, *line)))?;
            Ok(Step::On(Focus::Evaluates(called)))
        }
        Expression::And(a, b) => {
            frames.push(Frame::Expression(InExpression::DecideNext(false, b)))?;
            Ok(Step::On(Focus::Evaluates(a)))
        }
        Expression::Or(a, b) => {
            frames.push(Frame::Expression(InExpression::DecideNext(true, b)))?;
            Ok(Step::On(Focus::Evaluates(a)))
        }
        Expression::Operate(op, a, b, line) => {
            frames.push(Frame::Expression(InExpression::OperandNext(*op, b, *line)))?;
            Ok(Step::On(Focus::Evaluates(a)))
        }
        Expression::Unary(op, a, line) => {
            frames.push(Frame::Expression(InExpression::UnaryNow(*op, *line)))?;
            Ok(Step::On(Focus::Evaluates(a)))
        }
        Expression::Paren(a) => {
            frames.push(Frame::Expression(InExpression::First))?;
            Ok(Step::On(Focus::Evaluates(a)))
        }
        Expression::Nil => unreachable!(),
        Expression::Truth(_) => unreachable!(),
        Expression::Number(_) => unreachable!(),
        Expression::Text(_) => unreachable!(),
        Expression::Dots => unreachable!(),
        Expression::Function(_, _) => unreachable!(),
        Expression::Local(_) => unreachable!(),
        Expression::Global(_, _) => unreachable!(),
        Expression::Method(_, _, _, _) => unreachable!(),
        Expression::Table(_, _) => unreachable!(),
    }
}
