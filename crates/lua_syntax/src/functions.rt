//! The functions of a tree, in the order in which they begin in the text (manual 2.5.9).
//!
//! These functions go down the tree by recursion, so they are for trees of a bounded height, as a parser makes them.
#![tactic(auto, using(crate::proofs::Views::gathered))]

ghost use Rattle.std.specs.Prelude.{◌≡◌, ◌++◌, ◌∷◌, map, ℕ, IfOk, OnOk};
ghost use Rattle.lua_syntax.specs.Functions.{expr_functions, exprs_functions, fields_functions, inner_functions, block_functions, arms_functions, stat_functions};
ghost use Rattle.lua_syntax.specs.View.{kind_view, expr_view, exprs_view, field_view, fields_view, function_view, block_view, arm_view, arms_view, stats_view, stat_view, stat_kind_view, chunk_view};
ghost use Rattle.lua_syntax.specs.Tree.{Fields as PlainFields, Arms as PlainArms};

use crate::{Arm, Block, Chunk, Expr, ExprKind, Field, Function, Stat, StatKind};
use std::alloc::Global;
use wk_base::{List, NoMemory};

/// The functions of a chunk, in the order in which they begin in the text: an outer function before those inside it. The
/// chunk itself, which Lua runs as a function too, is not among them. The place in this list numbers a function.
pub fn nested_functions<'t>(alloc: Global, chunk: &'t Chunk) -> Result<List<&'t Function>, NoMemory>
    ensures { IfOk result (λ fs. map (λ f. function_view f.now) fs ≡ block_functions (chunk_view chunk.now)) }
{
    let mut out = List::new(alloc);
    block(&chunk.body, &mut out)?;
    Ok(out)
}

#[cycle(functions)]
fn expr<'t>(e: &'t Expr, out: &mut List<&'t Function>) -> Result<(), NoMemory>
    ensures { OnOk result (map (λ f. function_view f.now) out.new ≡ map (λ f. function_view f.now) out.old ++ expr_functions (expr_view e.now)) }
{
    kind(&e.kind, out)
}

// Whatever the line of its expression.
#[cycle(functions)]
fn kind<'t>(k: &'t ExprKind, out: &mut List<&'t Function>) -> Result<(), NoMemory>
    ensures { OnOk result ((line : ℕ) → map (λ f. function_view f.now) out.new ≡ map (λ f. function_view f.now) out.old ++ expr_functions (kind_view k.now line)) }
{
    match k {
        ExprKind::Nil
        | ExprKind::True
        | ExprKind::False
        | ExprKind::Number(_)
        | ExprKind::Text(_)
        | ExprKind::Name(_)
        | ExprKind::Dots => Ok(()),
        ExprKind::Function(f) => function(f, out),
        ExprKind::Index(of, at) => {
            expr(of, out)?;
            expr(at, out)
        }
        ExprKind::Call(f, args) => {
            expr(f, out)?;
            exprs(args.as_slice(), out)
        }
        ExprKind::Method(of, _, args) => {
            expr(of, out)?;
            exprs(args.as_slice(), out)
        }
        ExprKind::Table(list) => fields(list.as_slice(), out),
        ExprKind::Binary(_, a, b) => {
            expr(a, out)?;
            expr(b, out)
        }
        ExprKind::Unary(_, a) => expr(a, out),
        ExprKind::Paren(a) => expr(a, out),
    }
}

#[cycle(functions)]
fn exprs<'t>(list: &'t [Expr], out: &mut List<&'t Function>) -> Result<(), NoMemory>
    ensures { OnOk result (map (λ f. function_view f.now) out.new ≡ map (λ f. function_view f.now) out.old ++ exprs_functions (exprs_view list.now)) }
{
    for e in list {
        expr(e, out)?;
    }
    Ok(())
}

// With whatever fields come after it.
#[cycle(functions)]
fn field<'t>(f: &'t Field, out: &mut List<&'t Function>) -> Result<(), NoMemory>
    ensures { OnOk result ((rest : PlainFields) → map (λ f. function_view f.now) out.new ++ fields_functions rest ≡ map (λ f. function_view f.now) out.old ++ fields_functions (field_view f.now rest)) }
{
    match f {
        Field::Item(e) => expr(e, out),
        Field::Pair(k, v) => {
            expr(k, out)?;
            expr(v, out)
        }
    }
}

#[cycle(functions)]
fn fields<'t>(list: &'t [Field], out: &mut List<&'t Function>) -> Result<(), NoMemory>
    ensures { OnOk result (map (λ f. function_view f.now) out.new ≡ map (λ f. function_view f.now) out.old ++ fields_functions (fields_view list.now)) }
{
    for f in list {
        field(f, out)?;
    }
    Ok(())
}

#[cycle(functions)]
fn function<'t>(f: &'t Function, out: &mut List<&'t Function>) -> Result<(), NoMemory>
    ensures { OnOk result (map (λ f. function_view f.now) out.new ≡ map (λ f. function_view f.now) out.old ++ (function_view f.now ∷ inner_functions (function_view f.now))) }
{
    out.push(f)?;
    block(&f.body, out)
}

#[cycle(functions)]
fn block<'t>(b: &'t Block, out: &mut List<&'t Function>) -> Result<(), NoMemory>
    ensures { OnOk result (map (λ f. function_view f.now) out.new ≡ map (λ f. function_view f.now) out.old ++ block_functions (block_view b.now)) }
{
    stats(b.stats.as_slice(), out)
}

#[cycle(functions)]
fn stats<'t>(list: &'t [Stat], out: &mut List<&'t Function>) -> Result<(), NoMemory>
    ensures { OnOk result (map (λ f. function_view f.now) out.new ≡ map (λ f. function_view f.now) out.old ++ block_functions (stats_view list.now)) }
{
    for s in list {
        stat(s, out)?;
    }
    Ok(())
}

#[cycle(functions)]
fn stat<'t>(s: &'t Stat, out: &mut List<&'t Function>) -> Result<(), NoMemory>
    ensures { OnOk result (map (λ f. function_view f.now) out.new ≡ map (λ f. function_view f.now) out.old ++ stat_functions (stat_view s.now)) }
{
    stat_kind(&s.kind, out)
}

// Whatever the line of its statement.
#[cycle(functions)]
fn stat_kind<'t>(s: &'t StatKind, out: &mut List<&'t Function>) -> Result<(), NoMemory>
    ensures { OnOk result ((line : ℕ) → map (λ f. function_view f.now) out.new ≡ map (λ f. function_view f.now) out.old ++ stat_functions (stat_kind_view s.now line)) }
{
    match s {
        StatKind::Assign(targets, values) => {
            exprs(targets.as_slice(), out)?;
            exprs(values.as_slice(), out)
        }
        StatKind::Call(e) => expr(e, out),
        StatKind::Do(b) => block(b, out),
        StatKind::While(e, b) => {
            expr(e, out)?;
            block(b, out)
        }
        StatKind::Repeat(b, e) => {
            block(b, out)?;
            expr(e, out)
        }
        StatKind::If(list, other) => {
            arms(list.as_slice(), out)?;
            match other {
                None => Ok(()),
                Some(b) => block(b, out),
            }
        }
        StatKind::Count(_, from, to, by, body) => {
            expr(from, out)?;
            expr(to, out)?;
            match by {
                None => {}
                Some(e) => expr(e, out)?,
            }
            block(body, out)
        }
        StatKind::Each(_, values, body) => {
            exprs(values.as_slice(), out)?;
            block(body, out)
        }
        StatKind::LocalFunction(_, f) => function(f, out),
        StatKind::Local(_, values) => exprs(values.as_slice(), out),
        StatKind::Return(values) => exprs(values.as_slice(), out),
        StatKind::Break => Ok(()),
    }
}

// With whatever arms come after it.
#[cycle(functions)]
fn arm<'t>(a: &'t Arm, out: &mut List<&'t Function>) -> Result<(), NoMemory>
    ensures { OnOk result ((rest : PlainArms) → map (λ f. function_view f.now) out.new ++ arms_functions rest ≡ map (λ f. function_view f.now) out.old ++ arms_functions (arm_view a.now rest)) }
{
    expr(&a.test, out)?;
    block(&a.body, out)
}

#[cycle(functions)]
fn arms<'t>(list: &'t [Arm], out: &mut List<&'t Function>) -> Result<(), NoMemory>
    ensures { OnOk result (map (λ f. function_view f.now) out.new ≡ map (λ f. function_view f.now) out.old ++ arms_functions (arms_view list.now)) }
{
    for a in list {
        arm(a, out)?;
    }
    Ok(())
}
