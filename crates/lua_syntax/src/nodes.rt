//! The lines of a tree's nodes, in order of the text. A node is a statement or an expression.
//!
//! These functions go down the tree by recursion, so they are for trees of a bounded height, as a parser makes them.
#![tactic(auto, using(crate::proofs::Views::gathered))]

ghost use Rattle.std.specs.Prelude.{◌≡◌, ◌++◌, ◌∷◌, [], ℕ, List as Items, IfOk, OnOk};
ghost use Rattle.lua_syntax.specs.Tree.{Fields as PlainFields, Arms as PlainArms};
ghost use Rattle.lua_syntax.specs.Nodes.{expr_lines, exprs_lines, fields_lines, function_lines, block_lines, arms_lines, stat_lines};
ghost use Rattle.lua_syntax.specs.View.{kind_view, expr_view, exprs_view, field_view, fields_view, function_view, block_view, arm_view, arms_view, stats_view, stat_view, stat_kind_view, chunk_view};

use crate::{Arm, Block, Chunk, Expr, ExprKind, Field, Function, Stat, StatKind};
use std::alloc::Global;
use wk_base::{List, NoMemory};

/// The lines of the nodes of a chunk, in order of the text: a statement before what is in it, and an expression before
/// its parts.
pub fn node_lines(alloc: Global, chunk: &Chunk) -> Result<List<u32>, NoMemory>
    ensures { IfOk result (λ lines. lines ≡ block_lines (chunk_view chunk.now)) }
{
    let mut out = List::new(alloc);
    block(&chunk.body, &mut out)?;
    Ok(out)
}

#[cycle(lines)]
fn expr(e: &Expr, out: &mut List<u32>) -> Result<(), NoMemory>
    ensures { OnOk result (out.new ≡ out.old ++ expr_lines (expr_view e.now)) }
{
    out.push(e.line)?;
    kind(&e.kind, out)
}

// Behind the line of its expression, which the caller has just put.
#[cycle(lines)]
fn kind(k: &ExprKind, out: &mut List<u32>) -> Result<(), NoMemory>
    ensures { OnOk result ((line : ℕ) (before : Items ℕ) → out.old ≡ before ++ line ∷ [] → out.new ≡ before ++ expr_lines (kind_view k.now line)) }
{
    match k {
        ExprKind::Nil
        | ExprKind::True
        | ExprKind::False
        | ExprKind::Number(_)
        | ExprKind::Text(_)
        | ExprKind::Name(_)
        | ExprKind::Dots => Ok(()),
        ExprKind::Function(f) => function(f, out),
        ExprKind::Index(of, at) => {
            expr(of, out)?;
            expr(at, out)
        }
        ExprKind::Call(f, args) => {
            expr(f, out)?;
            exprs(args.as_slice(), out)
        }
        ExprKind::Method(of, _, args) => {
            expr(of, out)?;
            exprs(args.as_slice(), out)
        }
        ExprKind::Table(list) => fields(list.as_slice(), out),
        ExprKind::Binary(_, a, b) => {
            expr(a, out)?;
            expr(b, out)
        }
        ExprKind::Unary(_, a) => expr(a, out),
        ExprKind::Paren(a) => expr(a, out),
    }
}

#[cycle(lines)]
fn exprs(list: &[Expr], out: &mut List<u32>) -> Result<(), NoMemory>
    ensures { OnOk result (out.new ≡ out.old ++ exprs_lines (exprs_view list.now)) }
{
    for e in list {
        expr(e, out)?;
    }
    Ok(())
}

// With whatever fields come after it.
#[cycle(lines)]
fn field(f: &Field, out: &mut List<u32>) -> Result<(), NoMemory>
    ensures { OnOk result ((rest : PlainFields) → out.new ++ fields_lines rest ≡ out.old ++ fields_lines (field_view f.now rest)) }
{
    match f {
        Field::Item(e) => expr(e, out),
        Field::Pair(k, v) => {
            expr(k, out)?;
            expr(v, out)
        }
    }
}

#[cycle(lines)]
fn fields(list: &[Field], out: &mut List<u32>) -> Result<(), NoMemory>
    ensures { OnOk result (out.new ≡ out.old ++ fields_lines (fields_view list.now)) }
{
    for f in list {
        field(f, out)?;
    }
    Ok(())
}

#[cycle(lines)]
fn function(f: &Function, out: &mut List<u32>) -> Result<(), NoMemory>
    ensures { OnOk result (out.new ≡ out.old ++ function_lines (function_view f.now)) }
{
    block(&f.body, out)
}

#[cycle(lines)]
fn block(b: &Block, out: &mut List<u32>) -> Result<(), NoMemory>
    ensures { OnOk result (out.new ≡ out.old ++ block_lines (block_view b.now)) }
{
    stats(b.stats.as_slice(), out)
}

#[cycle(lines)]
fn stats(list: &[Stat], out: &mut List<u32>) -> Result<(), NoMemory>
    ensures { OnOk result (out.new ≡ out.old ++ block_lines (stats_view list.now)) }
{
    for s in list {
        stat(s, out)?;
    }
    Ok(())
}

#[cycle(lines)]
fn stat(s: &Stat, out: &mut List<u32>) -> Result<(), NoMemory>
    ensures { OnOk result (out.new ≡ out.old ++ stat_lines (stat_view s.now)) }
{
    out.push(s.line)?;
    stat_kind(&s.kind, out)
}

// Behind the line of its statement, which the caller has just put.
#[cycle(lines)]
fn stat_kind(s: &StatKind, out: &mut List<u32>) -> Result<(), NoMemory>
    ensures { OnOk result ((line : ℕ) (before : Items ℕ) → out.old ≡ before ++ line ∷ [] → out.new ≡ before ++ stat_lines (stat_kind_view s.now line)) }
{
    match s {
        StatKind::Assign(targets, values) => {
            exprs(targets.as_slice(), out)?;
            exprs(values.as_slice(), out)
        }
        StatKind::Call(e) => expr(e, out),
        StatKind::Do(b) => block(b, out),
        StatKind::While(e, b) => {
            expr(e, out)?;
            block(b, out)
        }
        StatKind::Repeat(b, e) => {
            block(b, out)?;
            expr(e, out)
        }
        StatKind::If(list, other) => {
            arms(list.as_slice(), out)?;
            match other {
                None => Ok(()),
                Some(b) => block(b, out),
            }
        }
        StatKind::Count(_, from, to, by, body) => {
            expr(from, out)?;
            expr(to, out)?;
            match by {
                None => {}
                Some(e) => expr(e, out)?,
            }
            block(body, out)
        }
        StatKind::Each(_, values, body) => {
            exprs(values.as_slice(), out)?;
            block(body, out)
        }
        StatKind::LocalFunction(_, f) => function(f, out),
        StatKind::Local(_, values) => exprs(values.as_slice(), out),
        StatKind::Return(values) => exprs(values.as_slice(), out),
        StatKind::Break => Ok(()),
    }
}

// With whatever arms come after it.
#[cycle(lines)]
fn arm(a: &Arm, out: &mut List<u32>) -> Result<(), NoMemory>
    ensures { OnOk result ((rest : PlainArms) → out.new ++ arms_lines rest ≡ out.old ++ arms_lines (arm_view a.now rest)) }
{
    expr(&a.test, out)?;
    block(&a.body, out)
}

#[cycle(lines)]
fn arms(list: &[Arm], out: &mut List<u32>) -> Result<(), NoMemory>
    ensures { OnOk result (out.new ≡ out.old ++ arms_lines (arms_view list.now)) }
{
    for a in list {
        arm(a, out)?;
    }
    Ok(())
}
