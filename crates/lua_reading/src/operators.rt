//! Operators, how tightly they bind, and which tokens go on with a tree.
ghost use Rattle.std.specs.Prelude.{◌≡◌, ◌≢◌, MatchOption};
ghost use Rattle.lua_grammar.specs.Grammar.{mark_of, level, groups_right, right_level, sign_of, suffix_goes};

use lua_grammar::TokenClass;
use lua_syntax::{BinaryOp, UnaryOp};

/// The binary operator whose mark or word a token is.
pub fn op_of(class: TokenClass) -> Option<BinaryOp>
    ensures { MatchOption result ((op : _) → class ≢ mark_of op) (λ op. class ≡ mark_of op) }
{
    match class {
        TokenClass::Or => Some(BinaryOp::Or),
        TokenClass::And => Some(BinaryOp::And),
        TokenClass::Less => Some(BinaryOp::Lt),
        TokenClass::More => Some(BinaryOp::Gt),
        TokenClass::LessEq => Some(BinaryOp::Le),
        TokenClass::MoreEq => Some(BinaryOp::Ge),
        TokenClass::NotEq => Some(BinaryOp::Ne),
        TokenClass::EqEq => Some(BinaryOp::Eq),
        TokenClass::DotDot => Some(BinaryOp::Concat),
        TokenClass::Plus => Some(BinaryOp::Add),
        TokenClass::Minus => Some(BinaryOp::Sub),
        TokenClass::Star => Some(BinaryOp::Mul),
        TokenClass::Slash => Some(BinaryOp::Div),
        TokenClass::Percent => Some(BinaryOp::Mod),
        TokenClass::Caret => Some(BinaryOp::Pow),
        _ => None,
    }
}

/// How tightly an operator binds, from 1 (manual 2.5.6).
pub fn level_of(op: BinaryOp) -> u8
    ensures { result ≡ level op }
{
    match op {
        BinaryOp::Or => 1,
        BinaryOp::And => 2,
        BinaryOp::Lt | BinaryOp::Gt | BinaryOp::Le | BinaryOp::Ge | BinaryOp::Ne | BinaryOp::Eq =>
            3,
        BinaryOp::Concat => 4,
        BinaryOp::Add | BinaryOp::Sub => 5,
        BinaryOp::Mul | BinaryOp::Div | BinaryOp::Mod => 6,
        BinaryOp::Pow => 7,
    }
}

fn groups_right(op: BinaryOp) -> bool
    ensures { result ≡ groups_right op }
{
    match op {
        BinaryOp::Concat | BinaryOp::Pow => true,
        _ => false,
    }
}

/// How tightly the right side of an operator binds at least.
pub fn right_level_of(op: BinaryOp) -> u8
    ensures { result ≡ right_level op }
{
    if groups_right(op) {
        level_of(op)
    } else {
        level_of(op) + 1
    }
}

/// Whether a token goes on with a prefix expression.
pub fn is_suffix(class: TokenClass) -> bool
    ensures { result ≡ suffix_goes class }
{
    match class {
        TokenClass::LeftParen
        | TokenClass::Dot
        | TokenClass::LeftBracket
        | TokenClass::Colon
        | TokenClass::LeftBrace
        | TokenClass::Text => true,
        _ => false,
    }
}
