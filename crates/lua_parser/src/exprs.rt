//! Expressions (manual 2.5): operators and operands.
ghost use Rattle.std.specs.Prelude.{◌≡◌, ◌<◌, ◌≤◌, ◌+◌, length, false};
ghost use Rattle.lua_reading.specs.LuaGrammarTokens.{class_at, tok_at};
ghost use Rattle.lua_reading.specs.LuaGrammarGrammar.{sign_of};
ghost use Rattle.lua_reading.specs.LuaGrammarDeclaredTokenClassTheVariants.{Function};
ghost use Rattle.lua_reading.specs.Parsing.{HasOneEnd};
ghost use Rattle.lua_reading.specs.Answers.{ExpAnswer, OperandAnswer, OneToken, has_parts};
ghost use Rattle.lua_parser.specs.Parts.{BoxedAnswer};

use crate::blocks::body;
use crate::boxes::{binary, in_box};
use crate::prefixes::prefix;
use crate::tables::table;
use lua_lexer::Token;
use lua_number::read_numeral;
use lua_reading::context::under;
use lua_reading::operators::{level_of, op_of, right_level_of};
use lua_reading::tokens::{bytes_at, class_at, copy_at, line_at};
use lua_reading::{Context, Fault, Reading, TokenClass, fault_at, make};
use lua_syntax::{Expr, UnaryOp};
use std::alloc::Global;

// An expression that binds at least so tightly.
#[cycle(parser)]
pub(crate) fn exp(
    alloc: Global,
    toks: &[Token],
    i: usize,
    least: u8,
    context: Context,
) -> Result<Reading<Expr>, Fault>
    requires ended { HasOneEnd toks.now }
    requires inside { i < length toks.now }
    requires levels { least ≤ 7 }
    requires high { context.above ≤ 201 }
    ensures { ExpAnswer toks.now context least i result }
{
    let first = operand(alloc, toks, i, context)?;
    let mut left = first.tree;
    let mut end = first.end;
    let mut height = first.height;
    'climb: loop {
        let Some(op) = op_of(class_at(toks, end)) else {
            let tree = left;
            return Ok(Reading { tree, end, height });
        };
        if level_of(op) < least {
            let tree = left;
            return Ok(Reading { tree, end, height });
        }
        if context.above + height > 200 {
            return fault_at(7, end);
        }
        let held = in_box(alloc, left)?;
        let right = exp(alloc, toks, end + 1, right_level_of(op), under(context))?;
        left = binary(alloc, line_at(toks, end), op, held, right.tree)?;
        end = right.end;
        height = 1 + height.max(right.height);
    }
}

// Any expression, in a box: a word that is held while more is read.
#[cycle(parser)]
pub(crate) fn boxed(
    alloc: Global,
    toks: &[Token],
    i: usize,
    context: Context,
) -> Result<Reading<Box<Expr>>, Fault>
    requires ended { HasOneEnd toks.now }
    requires inside { i < length toks.now }
    requires high { context.above ≤ 201 }
    ensures { BoxedAnswer toks.now context i result }
{
    let read = exp(alloc, toks, i, 1, context)?;
    let tree = in_box(alloc, read.tree)?;
    Ok(Reading {
        tree,
        end: read.end,
        height: read.height,
    })
}

// An expression that is no binary one.
#[cycle(parser)]
fn operand(
    alloc: Global,
    toks: &[Token],
    i: usize,
    context: Context,
) -> Result<Reading<Expr>, Fault>
    requires ended { HasOneEnd toks.now }
    requires inside { i < length toks.now }
    requires high { context.above ≤ 201 }
    ensures { OperandAnswer toks.now context i result }
{
    match class_at(toks, i) {
        TokenClass::Name | TokenClass::LeftParen => prefix(alloc, toks, i, context),
        TokenClass::LeftBrace => table(alloc, toks, i, context),
        TokenClass::Function => lambda(alloc, toks, i, context),
        TokenClass::Not => unary(alloc, toks, i, UnaryOp::Not, context),
        TokenClass::Hash => unary(alloc, toks, i, UnaryOp::Len, context),
        TokenClass::Minus => unary(alloc, toks, i, UnaryOp::Minus, context),
        _ => literal(alloc, toks, i, context),
    }
}

// An operator before its operand.
#[cycle(parser)]
fn unary(
    alloc: Global,
    toks: &[Token],
    i: usize,
    op: UnaryOp,
    context: Context,
) -> Result<Reading<Expr>, Fault>
    requires ended { HasOneEnd toks.now }
    requires inside { i < length toks.now }
    requires sign { class_at toks.now i ≡ sign_of op }
    requires high { context.above ≤ 201 }
    ensures { OperandAnswer toks.now context i result }
{
    if context.above > 200 {
        return fault_at(7, i);
    }
    let inner = exp(alloc, toks, i + 1, 7, under(context))?;
    let tree = make::unary(alloc, line_at(toks, i), op, inner.tree)?;
    Ok(Reading {
        tree,
        end: inner.end,
        height: 1 + inner.height,
    })
}

// A function without a name.
#[cycle(parser)]
fn lambda(alloc: Global, toks: &[Token], i: usize, context: Context) -> Result<Reading<Expr>, Fault>
    requires ended { HasOneEnd toks.now }
    requires inside { i < length toks.now }
    requires begins { class_at toks.now i ≡ Function }
    requires high { context.above ≤ 201 }
    ensures { OperandAnswer toks.now context i result }
{
    if context.above > 200 {
        return fault_at(7, i);
    }
    let function = body(alloc, toks, i + 1, false, under(context))?;
    let tree = make::function(line_at(toks, i), function.tree);
    Ok(Reading {
        tree,
        end: function.end,
        height: 1 + function.height,
    })
}

// An expression of one token.
fn literal(
    alloc: Global,
    toks: &[Token],
    i: usize,
    context: Context,
) -> Result<Reading<Expr>, Fault>
    requires ended { HasOneEnd toks.now }
    requires inside { i < length toks.now }
    requires plain { has_parts (class_at toks.now i) ≡ false }
    ensures { OperandAnswer toks.now context i result }
{
    let line = line_at(toks, i);
    match class_at(toks, i) {
        TokenClass::Nil => one_token(make::nil(line), i, context),
        TokenClass::True => one_token(make::true_value(line), i, context),
        TokenClass::False => one_token(make::false_value(line), i, context),
        TokenClass::Text => {
            let bytes = copy_at(alloc, toks, i)?;
            one_token(make::text(line, bytes), i, context)
        }
        TokenClass::Number => {
            let Some(value) = read_numeral(bytes_at(toks, i)) else {
                return fault_at(6, i);
            };
            one_token(make::number(line, value), i, context)
        }
        TokenClass::Dots => {
            if context.vararg {
                return one_token(make::dots(line), i, context);
            }
            if context.above > 200 {
                return fault_at(7, i);
            }
            fault_at(10, i)
        }
        _ => fault_at(5, i),
    }
}

// A node of one token, which may be too deep.
fn one_token(tree: Expr, i: usize, context: Context) -> Result<Reading<Expr>, Fault>
    requires { i + 1 < 18446744073709551616 }
    ensures { OneToken tree i context result }
{
    if context.above > 200 {
        return fault_at(7, i);
    }
    Ok(Reading {
        tree,
        end: i + 1,
        height: 1,
    })
}
