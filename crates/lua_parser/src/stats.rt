//! Statements (manual 2.4).
ghost use Rattle.std.specs.Prelude.{◌≡◌, ◌<◌, ◌≤◌, ◌+◌, length};
ghost use Rattle.lua_reading.specs.LuaGrammarTokens.{class_at};
ghost use Rattle.lua_reading.specs.LuaGrammarDeclaredTokenClassTheVariants.{Do, Repeat, While};
ghost use Rattle.lua_reading.specs.Parsing.{HasOneEnd};
ghost use Rattle.lua_reading.specs.Answers.{StatAnswer};

use crate::assignments::simple;
use crate::blocks::block;
use crate::conditions::if_stat;
use crate::exprs::{boxed, exp};
use crate::functions::named_function;
use crate::locals::{break_stat, local, return_stat};
use crate::loops::for_loop;
use lua_lexer::Token;
use lua_reading::context::{in_loop, under};
use lua_reading::tokens::{class_at, line_at};
use lua_reading::{Context, Fault, Reading, TokenClass, fault_at, make};
use lua_syntax::Stat;
use std::alloc::Global;

// The statement that begins here.
#[cycle(parser)]
pub(crate) fn statement(
    alloc: Global,
    toks: &[Token],
    i: usize,
    context: Context,
) -> Result<Reading<Stat>, Fault>
    requires ended { HasOneEnd toks.now }
    requires inside { i < length toks.now }
    requires high { context.above ≤ 201 }
    ensures { StatAnswer toks.now context i result }
{
    match class_at(toks, i) {
        TokenClass::Do => do_block(alloc, toks, i, context),
        TokenClass::While => while_loop(alloc, toks, i, context),
        TokenClass::Repeat => repeat_loop(alloc, toks, i, context),
        TokenClass::If => if_stat(alloc, toks, i, context),
        TokenClass::For => for_loop(alloc, toks, i, context),
        TokenClass::Local => local(alloc, toks, i, context),
        TokenClass::Return => return_stat(alloc, toks, i, context),
        TokenClass::Break => break_stat(toks, i, context),
        TokenClass::Function => named_function(alloc, toks, i, context),
        TokenClass::Name => simple(alloc, toks, i, context),
        TokenClass::LeftParen => simple(alloc, toks, i, context),
        _ => fault_at(5, i),
    }
}

#[cycle(parser)]
fn do_block(
    alloc: Global,
    toks: &[Token],
    i: usize,
    context: Context,
) -> Result<Reading<Stat>, Fault>
    requires ended { HasOneEnd toks.now }
    requires inside { i < length toks.now }
    requires begins { class_at toks.now i ≡ Do }
    requires high { context.above ≤ 201 }
    ensures { StatAnswer toks.now context i result }
{
    if context.above > 200 {
        return fault_at(7, i);
    }
    let body = block(alloc, toks, i + 1, under(context))?;
    let TokenClass::End = class_at(toks, body.end) else {
        return fault_at(5, body.end);
    };
    let tree = make::do_block(line_at(toks, i), body.tree);
    Ok(Reading {
        tree,
        end: body.end + 1,
        height: 1 + body.height,
    })
}

#[cycle(parser)]
fn while_loop(
    alloc: Global,
    toks: &[Token],
    i: usize,
    context: Context,
) -> Result<Reading<Stat>, Fault>
    requires ended { HasOneEnd toks.now }
    requires inside { i < length toks.now }
    requires begins { class_at toks.now i ≡ While }
    requires high { context.above ≤ 201 }
    ensures { StatAnswer toks.now context i result }
{
    if context.above > 200 {
        return fault_at(7, i);
    }
    let test = boxed(alloc, toks, i + 1, under(context))?;
    let TokenClass::Do = class_at(toks, test.end) else {
        return fault_at(5, test.end);
    };
    let body = block(alloc, toks, test.end + 1, in_loop(context))?;
    let TokenClass::End = class_at(toks, body.end) else {
        return fault_at(5, body.end);
    };
    let tree = make::while_loop(line_at(toks, i), Box::into_inner(test.tree), body.tree);
    Ok(Reading {
        tree,
        end: body.end + 1,
        height: 1 + test.height.max(body.height),
    })
}

#[cycle(parser)]
fn repeat_loop(
    alloc: Global,
    toks: &[Token],
    i: usize,
    context: Context,
) -> Result<Reading<Stat>, Fault>
    requires ended { HasOneEnd toks.now }
    requires inside { i < length toks.now }
    requires begins { class_at toks.now i ≡ Repeat }
    requires high { context.above ≤ 201 }
    ensures { StatAnswer toks.now context i result }
{
    if context.above > 200 {
        return fault_at(7, i);
    }
    let body = block(alloc, toks, i + 1, in_loop(context))?;
    let TokenClass::Until = class_at(toks, body.end) else {
        return fault_at(5, body.end);
    };
    let test = exp(alloc, toks, body.end + 1, 1, under(context))?;
    let tree = make::repeat_loop(line_at(toks, i), body.tree, test.tree);
    Ok(Reading {
        tree,
        end: test.end,
        height: 1 + body.height.max(test.height),
    })
}
