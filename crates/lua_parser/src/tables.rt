//! Table constructors (manual 2.5.7).
ghost use Rattle.std.specs.Prelude.{◌≡◌, ◌≢◌, ◌<◌, ◌≤◌, ◌+◌, length};
ghost use Rattle.lua_reading.specs.LuaGrammarTokens.{class_at, tok_at};
ghost use Rattle.lua_syntax.specs.View.{fields_view};
ghost use Rattle.lua_reading.specs.LuaGrammarDeclaredTokenClassTheVariants.{Assign, LeftBrace, LeftBracket, Name};
ghost use Rattle.lua_reading.specs.Parsing.{HasOneEnd, fields_lang, fields_goes};
ghost use Rattle.lua_reading.specs.Answers.{Answer, IsItem, MaybeEmpty, OperandAnswer, field_lang, field_goes, one_field};

use crate::exprs::exp;
use lua_lexer::Token;
use lua_reading::context::under;
use lua_reading::tokens::{class_at, copy_at, line_at};
use lua_reading::{Context, Fault, Reading, TokenClass, fault_at, make};
use lua_syntax::{Expr, Field, WkBaseList as List};
use std::alloc::Global;

// A table constructor.
#[cycle(parser)]
pub(crate) fn table(
    alloc: Global,
    toks: &[Token],
    i: usize,
    context: Context,
) -> Result<Reading<Expr>, Fault>
    requires ended { HasOneEnd toks.now }
    requires inside { i < length toks.now }
    requires begins { class_at toks.now i ≡ LeftBrace }
    requires high { context.above ≤ 201 }
    ensures { OperandAnswer toks.now context i result }
{
    if context.above > 200 {
        return fault_at(7, i);
    }
    let inner = fields(alloc, toks, i + 1, under(context))?;
    let TokenClass::RightBrace = class_at(toks, inner.end) else {
        return fault_at(5, inner.end);
    };
    let tree = make::table(line_at(toks, i), inner.tree);
    Ok(Reading {
        tree,
        end: inner.end + 1,
        height: 1 + inner.height,
    })
}

// Fields, each with a separator behind it but the last, which may have one.
#[cycle(parser)]
fn fields(
    alloc: Global,
    toks: &[Token],
    i: usize,
    context: Context,
) -> Result<Reading<List<Field>>, Fault>
    requires ended { HasOneEnd toks.now }
    requires inside { i < length toks.now }
    requires high { context.above ≤ 201 }
    ensures { MaybeEmpty toks.now fields_view (fields_lang toks.now context) fields_goes
        context.above i result }
{
    let mut tree = List::new(alloc);
    let mut end = i;
    let mut height = 0;
    'fields: loop {
        if let TokenClass::RightBrace = class_at(toks, end) {
            return Ok(Reading { tree, end, height });
        }
        let next = field(alloc, toks, end, context)?;
        tree.push(next.tree)?;
        height = next.height.max(height);
        end = next.end;
        match class_at(toks, end) {
            TokenClass::Comma | TokenClass::Semicolon => end += 1,
            _ => return Ok(Reading { tree, end, height }),
        }
    }
}

#[cycle(parser)]
fn field(alloc: Global, toks: &[Token], i: usize, context: Context) -> Result<Reading<Field>, Fault>
    requires ended { HasOneEnd toks.now }
    requires inside { i < length toks.now }
    requires high { context.above ≤ 201 }
    ensures { Answer toks.now one_field (field_lang toks.now context) field_goes context.above i
        result }
{
    match class_at(toks, i) {
        TokenClass::LeftBracket => keyed(alloc, toks, i, context),
        TokenClass::Name => match class_at(toks, i + 1) {
            TokenClass::Assign => named(alloc, toks, i, context),
            _ => item(alloc, toks, i, context),
        },
        _ => item(alloc, toks, i, context),
    }
}

// A field whose key stands in brackets.
#[cycle(parser)]
fn keyed(alloc: Global, toks: &[Token], i: usize, context: Context) -> Result<Reading<Field>, Fault>
    requires ended { HasOneEnd toks.now }
    requires inside { i < length toks.now }
    requires begins { class_at toks.now i ≡ LeftBracket }
    requires high { context.above ≤ 201 }
    ensures { Answer toks.now one_field (field_lang toks.now context) field_goes context.above i
        result }
{
    let key = exp(alloc, toks, i + 1, 1, context)?;
    let TokenClass::RightBracket = class_at(toks, key.end) else {
        return fault_at(5, key.end);
    };
    let TokenClass::Assign = class_at(toks, key.end + 1) else {
        return fault_at(5, key.end + 1);
    };
    let value = exp(alloc, toks, key.end + 2, 1, context)?;
    Ok(Reading {
        tree: make::pair(key.tree, value.tree),
        end: value.end,
        height: value.height.max(key.height),
    })
}

// A field whose key is a name.
#[cycle(parser)]
fn named(alloc: Global, toks: &[Token], i: usize, context: Context) -> Result<Reading<Field>, Fault>
    requires ended { HasOneEnd toks.now }
    requires inside { i + 1 < length toks.now }
    requires begins { class_at toks.now i ≡ Name }
    requires assign { class_at toks.now (i + 1) ≡ Assign }
    requires high { context.above ≤ 201 }
    ensures { Answer toks.now one_field (field_lang toks.now context) field_goes context.above i
        result }
{
    if context.above > 200 {
        return fault_at(7, i);
    }
    let name = copy_at(alloc, toks, i)?;
    let value = exp(alloc, toks, i + 2, 1, context)?;
    let key = make::text(line_at(toks, i), name);
    Ok(Reading {
        tree: make::pair(key, value.tree),
        end: value.end,
        height: value.height.max(1),
    })
}

// An expression as a field.
#[cycle(parser)]
fn item(alloc: Global, toks: &[Token], i: usize, context: Context) -> Result<Reading<Field>, Fault>
    requires ended { HasOneEnd toks.now }
    requires inside { i < length toks.now }
    requires high { context.above ≤ 201 }
    requires no_bracket { class_at toks.now i ≢ LeftBracket }
    requires no_key { IsItem toks.now i }
    ensures { Answer toks.now one_field (field_lang toks.now context) field_goes context.above i
        result }
{
    let value = exp(alloc, toks, i, 1, context)?;
    Ok(Reading {
        tree: make::item(value.tree),
        end: value.end,
        height: value.height,
    })
}
