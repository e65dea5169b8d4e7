//! Prefix expressions (manual 2.5): names, parentheses, indexes and calls, and lists of expressions.
ghost use Rattle.std.specs.Prelude.{◌≡◌, ◌<◌, ◌≤◌, ◌+◌, length, true};
ghost use Rattle.lua_reading.specs.LuaGrammarTokens.{class_at, tok_at};
ghost use Rattle.lua_reading.specs.LuaGrammarGrammar.{under, suffix_goes};
ghost use Rattle.lua_syntax.specs.View.{expr_view, exprs_view};
ghost use Rattle.lua_reading.specs.LuaGrammarDeclaredTokenClassTheVariants.{Dot, LeftBracket, Colon};
ghost use Rattle.lua_reading.specs.Parsing.{HasOneEnd, nothing, exps_goes, all_lang, args_lang};
ghost use Rattle.lua_reading.specs.Answers.{Alone, Answer, PrefixAnswer, primary_lang, suffix_lang, name_lang};

use crate::boxes::{call, in_box, index, method};
use crate::exprs::exp;
use crate::tables::table;
use lua_lexer::Token;
use lua_reading::context::under;
use lua_reading::operators::is_suffix;
use lua_reading::short_lists::short_list;
use lua_reading::tokens::{class_at, copy_at, end_line_at, line_at};
use lua_reading::{Context, Fault, Reading, TokenClass, fault_at, make};
use lua_syntax::{Expr, WkBaseList as List};
use std::alloc::Global;

// A prefix expression, with all that goes on with it.
#[cycle(parser)]
pub(crate) fn prefix(
    alloc: Global,
    toks: &[Token],
    i: usize,
    context: Context,
) -> Result<Reading<Expr>, Fault>
    requires ended { HasOneEnd toks.now }
    requires inside { i < length toks.now }
    requires high { context.above ≤ 201 }
    ensures { PrefixAnswer toks.now context i result }
{
    let first = primary(alloc, toks, i, context)?;
    let mut left = first.tree;
    let mut end = first.end;
    let mut height = first.height;
    'chain: loop {
        if !is_suffix(class_at(toks, end)) {
            let tree = left;
            return Ok(Reading { tree, end, height });
        }
        if context.above + height > 200 {
            return fault_at(7, end);
        }
        let held = in_box(alloc, left)?;
        let next = suffix(alloc, toks, end, held, context)?;
        left = next.tree;
        end = next.end;
        height = next.height.max(1 + height);
    }
}

// A name, or an expression in parentheses.
#[cycle(parser)]
fn primary(
    alloc: Global,
    toks: &[Token],
    i: usize,
    context: Context,
) -> Result<Reading<Expr>, Fault>
    requires ended { HasOneEnd toks.now }
    requires inside { i < length toks.now }
    requires high { context.above ≤ 201 }
    ensures { Answer toks.now expr_view (primary_lang toks.now context) nothing context.above i
        result }
{
    match class_at(toks, i) {
        TokenClass::Name => {
            if context.above > 200 {
                return fault_at(7, i);
            }
            let tree = make::name(line_at(toks, i), copy_at(alloc, toks, i)?);
            Ok(Reading {
                tree,
                end: i + 1,
                height: 1,
            })
        }
        TokenClass::LeftParen => {
            if context.above > 200 {
                return fault_at(7, i);
            }
            let inner = exp(alloc, toks, i + 1, 1, under(context))?;
            let TokenClass::RightParen = class_at(toks, inner.end) else {
                return fault_at(5, inner.end);
            };
            let tree = make::paren(alloc, line_at(toks, i), inner.tree)?;
            Ok(Reading {
                tree,
                end: inner.end + 1,
                height: 1 + inner.height,
            })
        }
        _ => fault_at(5, i),
    }
}

// What goes on with a prefix expression, which is handed in, in the box that it will stand in.
#[cycle(parser)]
fn suffix(
    alloc: Global,
    toks: &[Token],
    i: usize,
    left: Box<Expr>,
    context: Context,
) -> Result<Reading<Expr>, Fault>
    requires ended { HasOneEnd toks.now }
    requires inside { i < length toks.now }
    requires begun { 1 ≤ i }
    requires goes { suffix_goes (class_at toks.now i) ≡ true }
    requires high { context.above ≤ 200 }
    ensures { Answer toks.now expr_view (suffix_lang toks.now context (expr_view left.value))
        nothing context.above i result }
{
    let line = line_at(toks, i);
    match class_at(toks, i) {
        TokenClass::Dot => {
            let key = key_name(alloc, toks, i + 1, under(context))?;
            Ok(Reading {
                tree: index(alloc, line, left, key.tree)?,
                end: key.end,
                height: 1 + key.height,
            })
        }
        TokenClass::LeftBracket => {
            let key = exp(alloc, toks, i + 1, 1, under(context))?;
            let TokenClass::RightBracket = class_at(toks, key.end) else {
                return fault_at(5, key.end);
            };
            Ok(Reading {
                tree: index(alloc, line, left, key.tree)?,
                end: key.end + 1,
                height: 1 + key.height,
            })
        }
        TokenClass::Colon => {
            let TokenClass::Name = class_at(toks, i + 1) else {
                return fault_at(5, i + 1);
            };
            let name = copy_at(alloc, toks, i + 1)?;
            let args = arguments(alloc, toks, i + 2, under(context))?;
            Ok(Reading {
                tree: method(line, left, name, args.tree),
                end: args.end,
                height: 1 + args.height,
            })
        }
        _ => {
            let args = arguments(alloc, toks, i, under(context))?;
            Ok(Reading {
                tree: call(line, left, args.tree),
                end: args.end,
                height: 1 + args.height,
            })
        }
    }
}

// A name that is a text.
pub(crate) fn key_name(
    alloc: Global,
    toks: &[Token],
    i: usize,
    context: Context,
) -> Result<Reading<Expr>, Fault>
    requires ended { HasOneEnd toks.now }
    requires inside { i < length toks.now }
    ensures { Answer toks.now expr_view (name_lang toks.now context) nothing context.above i
        result }
{
    let TokenClass::Name = class_at(toks, i) else {
        return fault_at(5, i);
    };
    if context.above > 200 {
        return fault_at(7, i);
    }
    let tree = make::text(line_at(toks, i), copy_at(alloc, toks, i)?);
    Ok(Reading {
        tree,
        end: i + 1,
        height: 1,
    })
}

// The arguments of a call.
#[cycle(parser)]
fn arguments(
    alloc: Global,
    toks: &[Token],
    i: usize,
    context: Context,
) -> Result<Reading<List<Expr>>, Fault>
    requires ended { HasOneEnd toks.now }
    requires inside { i < length toks.now }
    requires begun { 1 ≤ i }
    requires high { context.above ≤ 201 }
    ensures { Answer toks.now exprs_view (args_lang toks.now context) nothing context.above i
        result }
{
    match class_at(toks, i) {
        TokenClass::LeftParen => {
            if line_at(toks, i) != end_line_at(toks, i - 1) {
                return fault_at(9, i);
            }
            if let TokenClass::RightParen = class_at(toks, i + 1) {
                return Ok(Reading {
                    tree: List::new(alloc),
                    end: i + 2,
                    height: 0,
                });
            }
            let args = exprs(alloc, toks, i + 1, context)?;
            let TokenClass::RightParen = class_at(toks, args.end) else {
                return fault_at(5, args.end);
            };
            Ok(Reading {
                tree: args.tree,
                end: args.end + 1,
                height: args.height,
            })
        }
        TokenClass::LeftBrace => {
            let arg = table(alloc, toks, i, context)?;
            alone(alloc, arg)
        }
        TokenClass::Text => {
            if context.above > 200 {
                return fault_at(7, i);
            }
            let tree = make::text(line_at(toks, i), copy_at(alloc, toks, i)?);
            alone(
                alloc,
                Reading {
                    tree,
                    end: i + 1,
                    height: 1,
                },
            )
        }
        _ => fault_at(5, i),
    }
}

// One expression as a list.
pub(crate) fn alone(alloc: Global, arg: Reading<Expr>) -> Result<Reading<List<Expr>>, Fault>
    ensures { Alone arg result }
{
    let mut tree = short_list(alloc)?;
    tree.push(arg.tree)?;
    Ok(Reading {
        tree,
        end: arg.end,
        height: arg.height,
    })
}

// Expressions with commas between them.
#[cycle(parser)]
pub(crate) fn exprs(
    alloc: Global,
    toks: &[Token],
    i: usize,
    context: Context,
) -> Result<Reading<List<Expr>>, Fault>
    requires ended { HasOneEnd toks.now }
    requires inside { i < length toks.now }
    requires high { context.above ≤ 201 }
    ensures { Answer toks.now exprs_view (all_lang toks.now context) exps_goes context.above i
        result }
{
    let mut tree = short_list(alloc)?;
    let mut at = i;
    let mut height = 0;
    'list: loop {
        let next = exp(alloc, toks, at, 1, context)?;
        tree.push(next.tree)?;
        height = next.height.max(height);
        let TokenClass::Comma = class_at(toks, next.end) else {
            let end = next.end;
            return Ok(Reading { tree, end, height });
        };
        at = next.end + 1;
    }
}
