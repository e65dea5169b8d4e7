//! Bodies of functions (manual 2.5.9), and blocks (manual 2.4).
ghost use Rattle.std.specs.Prelude.{◌≡◌, ◌<◌, ◌≤◌, ◌+◌, length};
ghost use Rattle.lua_syntax.specs.View.{function_view};
ghost use Rattle.lua_reading.specs.Parsing.{HasOneEnd, nothing};
ghost use Rattle.lua_reading.specs.Answers.{Answer, BlockAnswer, body_lang};
ghost use Rattle.lua_reading.specs.StatAnswers.{Behind};

use crate::params::{params, with_self};
use crate::stats::statement;
use lua_lexer::Token;
use lua_reading::context::in_function;
use lua_reading::ends::{closes, goes_on_block};
use lua_reading::short_lists::short_list;
use lua_reading::tokens::class_at;
use lua_reading::{Context, Fault, Reading, TokenClass, fault_at, make};
use lua_syntax::{Block, Function};
use std::alloc::Global;

// The parameters and the body of a function, or of a method, which has `self` before its parameters.
#[cycle(parser)]
pub(crate) fn body(
    alloc: Global,
    toks: &[Token],
    i: usize,
    method: bool,
    context: Context,
) -> Result<Reading<Function>, Fault>
    requires ended { HasOneEnd toks.now }
    requires inside { i < length toks.now }
    requires high { context.above ≤ 201 }
    ensures { Answer toks.now function_view (body_lang method toks.now context) nothing
        context.above i result }
{
    let TokenClass::LeftParen = class_at(toks, i) else {
        return fault_at(5, i);
    };
    let list = params(alloc, toks, i + 1)?;
    let TokenClass::RightParen = class_at(toks, list.end) else {
        return fault_at(5, list.end);
    };
    let dots = list.tree.dots;
    let inner = block(alloc, toks, list.end + 1, in_function(dots, context))?;
    let TokenClass::End = class_at(toks, inner.end) else {
        return fault_at(5, inner.end);
    };
    let names = with_self(alloc, method, list.tree.names)?;
    Ok(Reading {
        tree: make::body_of(names, dots, inner.tree),
        end: inner.end + 1,
        height: inner.height,
    })
}

// Statements, up to one that ends the block or a word that ends it.
#[cycle(parser)]
pub(crate) fn block(
    alloc: Global,
    toks: &[Token],
    i: usize,
    context: Context,
) -> Result<Reading<Block>, Fault>
    requires ended { HasOneEnd toks.now }
    requires inside { i < length toks.now }
    requires high { context.above ≤ 201 }
    ensures { BlockAnswer toks.now context i result }
{
    let mut tree = short_list(alloc)?;
    let mut end = i;
    let mut height = 0;
    'stats: loop {
        let first = class_at(toks, end);
        if !goes_on_block(first) {
            let tree = make::block_of(tree);
            return Ok(Reading { tree, end, height });
        }
        let stat = statement(alloc, toks, end, context)?;
        height = height.max(stat.height);
        tree.push(stat.tree)?;
        end = behind(toks, stat.end);
        if closes(first) {
            let tree = make::block_of(tree);
            return Ok(Reading { tree, end, height });
        }
    }
}

// The place behind the `;` at q, if there is one.
fn behind(toks: &[Token], q: usize) -> usize
    requires ended { HasOneEnd toks.now }
    requires inside { q < length toks.now }
    ensures place { Behind toks.now q result }
    ensures within { result < length toks.now }
{
    match class_at(toks, q) {
        TokenClass::Semicolon => q + 1,
        _ => q,
    }
}
