//! Code of operators.
ghost use Rattle.std.specs.Prelude.{◌≡◌, ℕ, None, option_map};
ghost use Rattle.lua_syntax.specs.Tree.{Exp, BinaryE};
ghost use Rattle.lua_code.specs.LuaSlotsCode.{Protos as PlainProtos};
ghost use Rattle.lua_code.specs.LuaSlotsSight.{Sight};
ghost use Rattle.lua_code.specs.LuaSlotsIsCode.{IsExp, operator_of};
ghost use Rattle.lua_code.specs.Seen.{expression_seen, operator_seen};

use lua_code::{Arithmetic, Expression, Operator};
use lua_syntax::BinaryOp;

/// The operator, if both of its operands are evaluated (manual 2.5): all but `and` and `or`.
fn operator(op: BinaryOp) -> Option<Operator>
    ensures { option_map operator_seen result ≡ operator_of op }
{
    match op {
        BinaryOp::Or | BinaryOp::And => None,
        BinaryOp::Lt => Some(Operator::Less),
        BinaryOp::Gt => Some(Operator::Greater),
        BinaryOp::Le => Some(Operator::AtMost),
        BinaryOp::Ge => Some(Operator::AtLeast),
        BinaryOp::Ne => Some(Operator::Unequal),
        BinaryOp::Eq => Some(Operator::Equal),
        BinaryOp::Concat => Some(Operator::Concatenate),
        BinaryOp::Add => Some(Operator::Calculate(Arithmetic::Plus)),
        BinaryOp::Sub => Some(Operator::Calculate(Arithmetic::Minus)),
        BinaryOp::Mul => Some(Operator::Calculate(Arithmetic::Times)),
        BinaryOp::Div => Some(Operator::Calculate(Arithmetic::Divide)),
        BinaryOp::Mod => Some(Operator::Calculate(Arithmetic::Modulo)),
        BinaryOp::Pow => Some(Operator::Calculate(Arithmetic::Power)),
    }
}

/// Code of an operator between two operands.
pub(crate) fn binary(
    op: BinaryOp,
    left: Box<Expression>,
    right: Box<Expression>,
    line: u32,
) -> Expression
    ensures { (at : PlainProtos) (see : Sight) (a b : Exp) → IsExp at see a (expression_seen left.value) → IsExp at see b (expression_seen right.value) → IsExp at see (BinaryE line op a b) (expression_seen result) }
{
    match operator(op) {
        Some(operator) => Expression::Operate(operator, left, right, line),
        None => either(op, left, right),
    }
}

/// Code of `and` or `or`, which may leave out the second operand (manual 2.5.3).
fn either(op: BinaryOp, left: Box<Expression>, right: Box<Expression>) -> Expression
    requires { operator_of op ≡ None }
    ensures { (at : PlainProtos) (see : Sight) (line : ℕ) (a b : Exp) → IsExp at see a (expression_seen left.value) → IsExp at see b (expression_seen right.value) → IsExp at see (BinaryE line op a b) (expression_seen result) }
{
    match op {
        BinaryOp::And => Expression::And(left, right),
        _ => Expression::Or(left, right),
    }
}
