//! `if` (manual 2.4.4).
ghost use Rattle.std.specs.Prelude.{◌≡◌, ◌<◌, ◌≤◌, length};
ghost use Rattle.lua_reading.specs.LuaGrammarTokens.{class_at};
ghost use Rattle.lua_syntax.specs.View.{arms_view};
ghost use Rattle.lua_reading.specs.LuaGrammarDeclaredTokenClassTheVariants.{If};
ghost use Rattle.lua_reading.specs.Parsing.{HasOneEnd, arms_goes, arms_lang};
ghost use Rattle.lua_reading.specs.Answers.{Answer, StatAnswer};

use crate::blocks::block;
use crate::exprs::exp;
use lua_lexer::Token;
use lua_reading::context::under;
use lua_reading::short_lists::short_list;
use lua_reading::tokens::{class_at, line_at};
use lua_reading::{Context, Fault, Reading, TokenClass, fault_at, make};
use lua_syntax::{Arm, Stat, WkBaseList as List};
use std::alloc::Global;

#[cycle(parser)]
pub(crate) fn if_stat(
    alloc: Global,
    toks: &[Token],
    i: usize,
    context: Context,
) -> Result<Reading<Stat>, Fault>
    requires ended { HasOneEnd toks.now }
    requires inside { i < length toks.now }
    requires begins { class_at toks.now i ≡ If }
    requires high { context.above ≤ 201 }
    ensures { StatAnswer toks.now context i result }
{
    if context.above > 200 {
        return fault_at(7, i);
    }
    let inner = under(context);
    let tested = arms(alloc, toks, i + 1, inner)?;
    match class_at(toks, tested.end) {
        TokenClass::End => {
            let tree = make::if_stat(line_at(toks, i), tested.tree);
            Ok(Reading {
                tree,
                end: tested.end + 1,
                height: 1 + tested.height,
            })
        }
        TokenClass::Else => {
            let other = block(alloc, toks, tested.end + 1, inner)?;
            let TokenClass::End = class_at(toks, other.end) else {
                return fault_at(5, other.end);
            };
            let all = tested.height.max(other.height);
            let tree = make::if_else(line_at(toks, i), tested.tree, other.tree);
            Ok(Reading {
                tree,
                end: other.end + 1,
                height: 1 + all,
            })
        }
        _ => fault_at(5, tested.end),
    }
}

// Conditions, each with its block, and with `elseif` between them.
#[cycle(parser)]
fn arms(
    alloc: Global,
    toks: &[Token],
    i: usize,
    context: Context,
) -> Result<Reading<List<Arm>>, Fault>
    requires ended { HasOneEnd toks.now }
    requires inside { i < length toks.now }
    requires high { context.above ≤ 201 }
    ensures { Answer toks.now arms_view (arms_lang toks.now context) arms_goes context.above i
        result }
{
    let mut tree = short_list(alloc)?;
    let mut at = i;
    let mut height = 0;
    'arms: loop {
        let test = exp(alloc, toks, at, 1, context)?;
        let TokenClass::Then = class_at(toks, test.end) else {
            return fault_at(5, test.end);
        };
        let body = block(alloc, toks, test.end + 1, context)?;
        let two = test.height.max(height);
        height = body.height.max(two);
        let made = make::arm(test.tree, body.tree);
        tree.push(made)?;
        let end = body.end;
        let TokenClass::Elseif = class_at(toks, end) else {
            return Ok(Reading { tree, end, height });
        };
        at = end + 1;
    }
}
