//! Functions with a name (manual 2.5.9).
ghost use Rattle.std.specs.Prelude.{◌≡◌, ◌≢◌, ◌<◌, ◌≤◌, ◌+◌, length, MatchOption};
ghost use Rattle.lua_reading.specs.LuaGrammarTokens.{class_at};
ghost use Rattle.lua_reading.specs.LuaGrammarDeclaredTokenClassTheVariants.{Function, Dot, Colon};
ghost use Rattle.lua_reading.specs.Parsing.{HasOneEnd};
ghost use Rattle.lua_reading.specs.Answers.{Answer, StatAnswer};
ghost use Rattle.lua_parser.specs.Parts.{head_view};
ghost use Rattle.lua_reading.specs.StatAnswers.{head_goes, head_lang, head_mark};

use crate::blocks::body;
use crate::boxes::{dotted, out_of_box, single, variable};
use lua_lexer::Token;
use lua_reading::context::under;
use lua_reading::tokens::{class_at, copy_at, line_at};
use lua_reading::{Context, Fault, Reading, TokenClass, fault_at, make};
use lua_syntax::{Expr, Stat};
use std::alloc::Global;

/// The name of a function as an expression, and whether it is one of a method.
#[derive(Drop)]
pub(crate) struct Named {
    pub path: Box<Expr>,
    pub method: bool,
}

// An assignment of the function to its name. Both nodes come into being at the word `function`.
#[cycle(parser)]
pub(crate) fn named_function(
    alloc: Global,
    toks: &[Token],
    i: usize,
    context: Context,
) -> Result<Reading<Stat>, Fault>
    requires ended { HasOneEnd toks.now }
    requires inside { i < length toks.now }
    requires begins { class_at toks.now i ≡ Function }
    requires high { context.above ≤ 201 }
    ensures { StatAnswer toks.now context i result }
{
    if context.above + 1 > 200 {
        return fault_at(7, i);
    }
    let inner = under(context);
    let head = path(alloc, toks, i + 1, inner)?;
    let deep = under(inner);
    let function = body(alloc, toks, head.end, head.tree.method, deep)?;
    let line = line_at(toks, i);
    let targets = out_of_box(alloc, head.tree.path)?;
    let value = make::function(line, function.tree);
    let values = single(alloc, value)?;
    let tree = make::assign(line, targets, values);
    let all = head.height.max(1 + function.height);
    Ok(Reading {
        tree,
        end: function.end,
        height: 1 + all,
    })
}

// Names with a `.` between them, and maybe a `:` and one more.
fn path(alloc: Global, toks: &[Token], i: usize, context: Context) -> Result<Reading<Named>, Fault>
    requires ended { HasOneEnd toks.now }
    requires inside { i < length toks.now }
    requires room { context.above ≤ 200 }
    ensures { Answer toks.now head_view (head_lang toks.now context) head_goes context.above i
        result }
{
    let TokenClass::Name = class_at(toks, i) else {
        return fault_at(5, i);
    };
    let first = variable(alloc, toks, i)?;
    let mut path = first;
    let mut end = i + 1;
    let mut height = 1;
    'marks: loop {
        let Some(method) = mark_of(class_at(toks, end)) else {
            let method = false;
            let tree = Named { path, method };
            return Ok(Reading { tree, end, height });
        };
        if context.above + height > 200 {
            return fault_at(7, end);
        }
        let TokenClass::Name = class_at(toks, end + 1) else {
            return fault_at(5, end + 1);
        };
        let bytes = copy_at(alloc, toks, end + 1)?;
        path = dotted(
            alloc,
            line_at(toks, end),
            path,
            line_at(toks, end + 1),
            bytes,
        )?;
        end += 2;
        height += 1;
        if method {
            let tree = Named { path, method };
            return Ok(Reading { tree, end, height });
        }
    }
}

// Whether the name behind a mark is that of a method.
fn mark_of(class: TokenClass) -> Option<bool>
    ensures { MatchOption result ((class ≢ Dot) × (class ≢ Colon)) (λ m. class ≡ head_mark m) }
{
    match class {
        TokenClass::Dot => Some(false),
        TokenClass::Colon => Some(true),
        _ => None,
    }
}
