//! `for` (manual 2.4.5).
ghost use Rattle.std.specs.Prelude.{◌≡◌, ◌≢◌, ◌<◌, ◌≤◌, ◌+◌, length};
ghost use Rattle.lua_reading.specs.LuaGrammarTokens.{class_at};
ghost use Rattle.lua_syntax.specs.View.{block_view};
ghost use Rattle.lua_reading.specs.LuaGrammarDeclaredTokenClassTheVariants.{Assign, For, Name};
ghost use Rattle.lua_reading.specs.Parsing.{HasOneEnd, nothing};
ghost use Rattle.lua_reading.specs.Answers.{Answer, StatAnswer};
ghost use Rattle.lua_reading.specs.StatAnswers.{do_lang};

use crate::blocks::block;
use crate::boxes::{count, count_by};
use crate::exprs::boxed;
use crate::names::names;
use crate::prefixes::exprs;
use lua_lexer::Token;
use lua_reading::context::{in_loop, under};
use lua_reading::tokens::{class_at, copy_at, line_at};
use lua_reading::{Context, Fault, Reading, TokenClass, fault_at, make};
use lua_syntax::{Block, Stat};
use std::alloc::Global;

// Over numbers where a `=` is behind the first name, and over what an iterator gives elsewhere.
#[cycle(parser)]
pub(crate) fn for_loop(
    alloc: Global,
    toks: &[Token],
    i: usize,
    context: Context,
) -> Result<Reading<Stat>, Fault>
    requires ended { HasOneEnd toks.now }
    requires inside { i < length toks.now }
    requires begins { class_at toks.now i ≡ For }
    requires high { context.above ≤ 201 }
    ensures { StatAnswer toks.now context i result }
{
    if context.above > 200 {
        return fault_at(7, i);
    }
    let TokenClass::Name = class_at(toks, i + 1) else {
        return fault_at(5, i + 1);
    };
    match class_at(toks, i + 2) {
        TokenClass::Assign => count_loop(alloc, toks, i, context),
        _ => each_loop(alloc, toks, i, context),
    }
}

#[cycle(parser)]
fn count_loop(
    alloc: Global,
    toks: &[Token],
    i: usize,
    context: Context,
) -> Result<Reading<Stat>, Fault>
    requires ended { HasOneEnd toks.now }
    requires inside { i + 2 < length toks.now }
    requires begins { class_at toks.now i ≡ For }
    requires name { class_at toks.now (i + 1) ≡ Name }
    requires assign { class_at toks.now (i + 2) ≡ Assign }
    requires room { context.above ≤ 200 }
    ensures { StatAnswer toks.now context i result }
{
    let name = copy_at(alloc, toks, i + 1)?;
    let inner = under(context);
    let inside_loop = in_loop(context);
    let from = boxed(alloc, toks, i + 3, inner)?;
    let TokenClass::Comma = class_at(toks, from.end) else {
        return fault_at(5, from.end);
    };
    let to = boxed(alloc, toks, from.end + 1, inner)?;
    let two = from.height.max(to.height);
    if let TokenClass::Comma = class_at(toks, to.end) {
        let by = boxed(alloc, toks, to.end + 1, inner)?;
        let body = loop_body(alloc, toks, by.end, inside_loop)?;
        let three = two.max(by.height);
        let all = three.max(body.height);
        let line = line_at(toks, i);
        let tree = count_by(line, name, from.tree, to.tree, by.tree, body.tree);
        return Ok(Reading {
            tree,
            end: body.end,
            height: 1 + all,
        });
    }
    let body = loop_body(alloc, toks, to.end, inside_loop)?;
    let all = two.max(body.height);
    let tree = count(line_at(toks, i), name, from.tree, to.tree, body.tree);
    Ok(Reading {
        tree,
        end: body.end,
        height: 1 + all,
    })
}

#[cycle(parser)]
fn each_loop(
    alloc: Global,
    toks: &[Token],
    i: usize,
    context: Context,
) -> Result<Reading<Stat>, Fault>
    requires ended { HasOneEnd toks.now }
    requires inside { i + 1 < length toks.now }
    requires begins { class_at toks.now i ≡ For }
    requires name { class_at toks.now (i + 1) ≡ Name }
    requires plain { class_at toks.now (i + 2) ≢ Assign }
    requires room { context.above ≤ 200 }
    ensures { StatAnswer toks.now context i result }
{
    let named = names(alloc, toks, i + 1)?;
    let TokenClass::In = class_at(toks, named.end) else {
        return fault_at(5, named.end);
    };
    let values = exprs(alloc, toks, named.end + 1, under(context))?;
    let body = loop_body(alloc, toks, values.end, in_loop(context))?;
    let all = values.height.max(body.height);
    let tree = make::each(line_at(toks, i), named.tree, values.tree, body.tree);
    Ok(Reading {
        tree,
        end: body.end,
        height: 1 + all,
    })
}

// `do`, a block, and `end`.
#[cycle(parser)]
fn loop_body(
    alloc: Global,
    toks: &[Token],
    i: usize,
    context: Context,
) -> Result<Reading<Block>, Fault>
    requires ended { HasOneEnd toks.now }
    requires inside { i < length toks.now }
    requires high { context.above ≤ 201 }
    ensures { Answer toks.now block_view (do_lang toks.now context) nothing context.above i result }
{
    let TokenClass::Do = class_at(toks, i) else {
        return fault_at(5, i);
    };
    let body = block(alloc, toks, i + 1, context)?;
    let TokenClass::End = class_at(toks, body.end) else {
        return fault_at(5, body.end);
    };
    Ok(Reading {
        tree: body.tree,
        end: body.end + 1,
        height: body.height,
    })
}
