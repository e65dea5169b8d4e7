//! Local names, and the statements that end a block (manual 2.4.4, 2.4.7).
ghost use Rattle.std.specs.Prelude.{◌≡◌, ◌≢◌, ◌<◌, ◌≤◌, ◌+◌, length};
ghost use Rattle.lua_reading.specs.LuaGrammarTokens.{class_at};
ghost use Rattle.lua_reading.specs.LuaGrammarDeclaredTokenClassTheVariants.{Break, Function, Local, Return};
ghost use Rattle.lua_reading.specs.Parsing.{HasOneEnd};
ghost use Rattle.lua_reading.specs.Answers.{StatAnswer};

use crate::blocks::body;
use crate::names::names;
use crate::prefixes::exprs;
use lua_lexer::Token;
use lua_reading::context::under;
use lua_reading::ends::goes_on_return;
use lua_reading::tokens::{class_at, copy_at, line_at};
use lua_reading::{Context, Fault, Reading, TokenClass, fault_at, make};
use lua_syntax::{Stat, WkBaseList as List};
use std::alloc::Global;

// Local names, or a local function.
#[cycle(parser)]
pub(crate) fn local(
    alloc: Global,
    toks: &[Token],
    i: usize,
    context: Context,
) -> Result<Reading<Stat>, Fault>
    requires ended { HasOneEnd toks.now }
    requires inside { i < length toks.now }
    requires begins { class_at toks.now i ≡ Local }
    requires high { context.above ≤ 201 }
    ensures { StatAnswer toks.now context i result }
{
    match class_at(toks, i + 1) {
        TokenClass::Function => local_function(alloc, toks, i, context),
        _ => local_names(alloc, toks, i, context),
    }
}

#[cycle(parser)]
fn local_function(
    alloc: Global,
    toks: &[Token],
    i: usize,
    context: Context,
) -> Result<Reading<Stat>, Fault>
    requires ended { HasOneEnd toks.now }
    requires inside { i < length toks.now }
    requires begins { class_at toks.now i ≡ Local }
    requires next { class_at toks.now (i + 1) ≡ Function }
    requires high { context.above ≤ 201 }
    ensures { StatAnswer toks.now context i result }
{
    if context.above > 200 {
        return fault_at(7, i);
    }
    let TokenClass::Name = class_at(toks, i + 2) else {
        return fault_at(5, i + 2);
    };
    let name = copy_at(alloc, toks, i + 2)?;
    let function = body(alloc, toks, i + 3, false, under(context))?;
    let tree = make::local_function(line_at(toks, i), name, function.tree);
    Ok(Reading {
        tree,
        end: function.end,
        height: 1 + function.height,
    })
}

#[cycle(parser)]
fn local_names(
    alloc: Global,
    toks: &[Token],
    i: usize,
    context: Context,
) -> Result<Reading<Stat>, Fault>
    requires ended { HasOneEnd toks.now }
    requires inside { i < length toks.now }
    requires begins { class_at toks.now i ≡ Local }
    requires plain { class_at toks.now (i + 1) ≢ Function }
    requires high { context.above ≤ 201 }
    ensures { StatAnswer toks.now context i result }
{
    if context.above > 200 {
        return fault_at(7, i);
    }
    let TokenClass::Name = class_at(toks, i + 1) else {
        return fault_at(5, i + 1);
    };
    let named = names(alloc, toks, i + 1)?;
    let TokenClass::Assign = class_at(toks, named.end) else {
        let tree = make::local(line_at(toks, i), named.tree, List::new(alloc));
        return Ok(Reading {
            tree,
            end: named.end,
            height: 1,
        });
    };
    let values = exprs(alloc, toks, named.end + 1, under(context))?;
    let tree = make::local(line_at(toks, i), named.tree, values.tree);
    Ok(Reading {
        tree,
        end: values.end,
        height: 1 + values.height,
    })
}

#[cycle(parser)]
pub(crate) fn return_stat(
    alloc: Global,
    toks: &[Token],
    i: usize,
    context: Context,
) -> Result<Reading<Stat>, Fault>
    requires ended { HasOneEnd toks.now }
    requires inside { i < length toks.now }
    requires begins { class_at toks.now i ≡ Return }
    requires high { context.above ≤ 201 }
    ensures { StatAnswer toks.now context i result }
{
    if context.above > 200 {
        return fault_at(7, i);
    }
    if !goes_on_return(class_at(toks, i + 1)) {
        return Ok(Reading {
            tree: make::return_stat(line_at(toks, i), List::new(alloc)),
            end: i + 1,
            height: 1,
        });
    }
    let values = exprs(alloc, toks, i + 1, under(context))?;
    Ok(Reading {
        tree: make::return_stat(line_at(toks, i), values.tree),
        end: values.end,
        height: 1 + values.height,
    })
}

pub(crate) fn break_stat(toks: &[Token], i: usize, context: Context) -> Result<Reading<Stat>, Fault>
    requires ended { HasOneEnd toks.now }
    requires inside { i < length toks.now }
    requires begins { class_at toks.now i ≡ Break }
    requires high { context.above ≤ 201 }
    ensures { StatAnswer toks.now context i result }
{
    if context.above > 200 {
        return fault_at(7, i);
    }
    if !context.inside_loop {
        return fault_at(8, i);
    }
    Ok(Reading {
        tree: make::break_stat(line_at(toks, i)),
        end: i + 1,
        height: 1,
    })
}
