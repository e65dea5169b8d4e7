//! Assignments and calls (manual 2.4.3 and 2.4.6).
ghost use Rattle.std.specs.Prelude.{◌≡◌, ◌<◌, ◌≤◌, length};
ghost use Rattle.lua_reading.specs.LuaGrammarTokens.{class_at};
ghost use Rattle.lua_reading.specs.LuaGrammarGrammar.{under, IsVar};
ghost use Rattle.lua_syntax.specs.View.{expr_view};
ghost use Rattle.lua_reading.specs.Parsing.{HasOneEnd, ReadsPrefix};
ghost use Rattle.lua_reading.specs.Answers.{StatAnswer};
ghost use Rattle.lua_reading.specs.StatAnswers.{Opening, is_call, is_var};

use crate::prefixes::{alone, exprs, prefix};
use lua_lexer::Token;
use lua_reading::context::under;
use lua_reading::tokens::{class_at, line_at};
use lua_reading::{Context, Fault, Reading, TokenClass, fault_at, make};
use lua_syntax::{Expr, ExprKind, Stat};
use std::alloc::Global;

// What begins with a prefix expression.
#[cycle(parser)]
pub(crate) fn simple(
    alloc: Global,
    toks: &[Token],
    i: usize,
    context: Context,
) -> Result<Reading<Stat>, Fault>
    requires ended { HasOneEnd toks.now }
    requires inside { i < length toks.now }
    requires begins { Opening (class_at toks.now i) }
    requires high { context.above ≤ 201 }
    ensures { StatAnswer toks.now context i result }
{
    if context.above > 200 {
        return fault_at(7, i);
    }
    let first = prefix(alloc, toks, i, under(context))?;
    if is_call(&first.tree) {
        let tree = make::call_stat(line_at(toks, i), first.tree);
        return Ok(Reading {
            tree,
            end: first.end,
            height: 1 + first.height,
        });
    }
    if !is_var(&first.tree) {
        return fault_at(5, first.end);
    }
    assignment(alloc, toks, i, first, context)
}

// An assignment whose first target has been read.
#[cycle(parser)]
fn assignment(
    alloc: Global,
    toks: &[Token],
    i: usize,
    first: Reading<Expr>,
    context: Context,
) -> Result<Reading<Stat>, Fault>
    requires ended { HasOneEnd toks.now }
    requires inside { i < length toks.now }
    requires begins { Opening (class_at toks.now i) }
    requires room { context.above ≤ 200 }
    requires read { ReadsPrefix toks.now (under context) i (expr_view first.tree) first.end
        first.height }
    requires var { IsVar (expr_view first.tree) }
    ensures { StatAnswer toks.now context i result }
{
    let inner = under(context);
    let one = alone(alloc, first)?;
    let mut tree = one.tree;
    let mut end = one.end;
    let mut height = 1 + one.height;
    'targets: loop {
        match class_at(toks, end) {
            TokenClass::Assign => {
                let values = exprs(alloc, toks, end + 1, inner)?;
                let all = height.max(1 + values.height);
                let stat = make::assign(line_at(toks, i), tree, values.tree);
                return Ok(Reading {
                    tree: stat,
                    end: values.end,
                    height: all,
                });
            }
            TokenClass::Comma => {
                let next = prefix(alloc, toks, end + 1, inner)?;
                if !is_var(&next.tree) {
                    return fault_at(5, next.end);
                }
                height = height.max(1 + next.height);
                end = next.end;
                tree.push(next.tree)?;
            }
            _ => return fault_at(5, end),
        }
    }
}

#[tactic(auto, using(lua_syntax::proofs::Views::views))]
fn is_call(tree: &Expr) -> bool
    ensures { result ≡ is_call (expr_view tree.now) }
{
    match &tree.kind {
        ExprKind::Call(_, _) => true,
        ExprKind::Method(_, _, _) => true,
        ExprKind::Nil => false,
        ExprKind::True => false,
        ExprKind::False => false,
        ExprKind::Number(_) => false,
        ExprKind::Text(_) => false,
        ExprKind::Dots => false,
        ExprKind::Function(_) => false,
        ExprKind::Name(_) => false,
        ExprKind::Index(_, _) => false,
        ExprKind::Table(_) => false,
        ExprKind::Binary(_, _, _) => false,
        ExprKind::Unary(_, _) => false,
        ExprKind::Paren(_) => false,
    }
}

#[tactic(auto, using(lua_syntax::proofs::Views::views))]
fn is_var(tree: &Expr) -> bool
    ensures { result ≡ is_var (expr_view tree.now) }
{
    match &tree.kind {
        ExprKind::Name(_) => true,
        ExprKind::Index(_, _) => true,
        ExprKind::Call(_, _) => false,
        ExprKind::Method(_, _, _) => false,
        ExprKind::Nil => false,
        ExprKind::True => false,
        ExprKind::False => false,
        ExprKind::Number(_) => false,
        ExprKind::Text(_) => false,
        ExprKind::Dots => false,
        ExprKind::Function(_) => false,
        ExprKind::Table(_) => false,
        ExprKind::Binary(_, _, _) => false,
        ExprKind::Unary(_, _) => false,
        ExprKind::Paren(_) => false,
    }
}
