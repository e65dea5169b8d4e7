//! The first look at a text: its names and declarations, in the order in which code is made of them.
//!
//! These functions go down the tree by recursion; the grammar bounds its depth (200 levels).
use crate::sketch::{Sketch, Sketching};
use lua_code::{Bytes, NoMemory};
use lua_syntax::{Arm, Block, Chunk, Expr, ExprKind, Field, Function, Stat, StatKind};
use std::alloc::Global;
use std::hash::RandomState;

/// What a first look at a text tells. Names are hashed by the seed, so that no text can choose names that collide.
pub fn first_look<'t>(
    alloc: Global,
    seed: RandomState,
    chunk: &'t Chunk,
) -> Result<Sketch<'t>, NoMemory> {
    let mut seen = Sketching::new(alloc, seed)?;
    block(&chunk.body, &mut seen)?;
    Ok(seen.into_sketch())
}

#[cycle(looks)]
fn expression<'t>(e: &'t Expr, seen: &mut Sketching<'t>) -> Result<(), NoMemory> {
    match &e.kind {
        ExprKind::Nil
        | ExprKind::True
        | ExprKind::False
        | ExprKind::Number(_)
        | ExprKind::Text(_)
        | ExprKind::Dots => Ok(()),
        ExprKind::Name(name) => seen.used(name),
        ExprKind::Function(f) => function(f, seen),
        ExprKind::Index(of, key) => {
            expression(of, seen)?;
            expression(key, seen)
        }
        ExprKind::Call(called, arguments) => {
            expression(called, seen)?;
            expressions(arguments.as_slice(), seen)
        }
        ExprKind::Method(of, _, arguments) => {
            expression(of, seen)?;
            expressions(arguments.as_slice(), seen)
        }
        ExprKind::Table(list) => fields(list.as_slice(), seen),
        ExprKind::Binary(_, left, right) => {
            expression(left, seen)?;
            expression(right, seen)
        }
        ExprKind::Unary(_, of) | ExprKind::Paren(of) => expression(of, seen),
    }
}

#[cycle(looks)]
fn expressions<'t>(list: &'t [Expr], seen: &mut Sketching<'t>) -> Result<(), NoMemory> {
    for e in list {
        expression(e, seen)?;
    }
    Ok(())
}

#[cycle(looks)]
fn fields<'t>(list: &'t [Field], seen: &mut Sketching<'t>) -> Result<(), NoMemory> {
    for f in list {
        match f {
            Field::Item(e) => expression(e, seen)?,
            Field::Pair(key, e) => {
                expression(key, seen)?;
                expression(e, seen)?;
            }
        }
    }
    Ok(())
}

#[cycle(looks)]
fn function<'t>(f: &'t Function, seen: &mut Sketching<'t>) -> Result<(), NoMemory> {
    seen.enter();
    scoped(f.params.as_slice(), &f.body, seen)?;
    seen.leave();
    Ok(())
}

/// A block that sees some variables more.
#[cycle(looks)]
fn scoped<'t>(
    names: &'t [Bytes],
    body: &'t Block,
    seen: &mut Sketching<'t>,
) -> Result<(), NoMemory> {
    let count = seen.len();
    declarations(names, seen)?;
    block(body, seen)?;
    seen.close(count);
    Ok(())
}

fn declarations<'t>(names: &'t [Bytes], seen: &mut Sketching<'t>) -> Result<(), NoMemory> {
    for name in names {
        seen.declared(name)?;
    }
    Ok(())
}

#[cycle(looks)]
fn block<'t>(b: &'t Block, seen: &mut Sketching<'t>) -> Result<(), NoMemory> {
    let count = seen.len();
    statements(b.stats.as_slice(), seen)?;
    seen.close(count);
    Ok(())
}

#[cycle(looks)]
fn statements<'t>(list: &'t [Stat], seen: &mut Sketching<'t>) -> Result<(), NoMemory> {
    for s in list {
        statement(&s.kind, seen)?;
    }
    Ok(())
}

#[cycle(looks)]
fn statement<'t>(s: &'t StatKind, seen: &mut Sketching<'t>) -> Result<(), NoMemory> {
    match s {
        StatKind::Assign(targets, values) => {
            expressions(targets.as_slice(), seen)?;
            expressions(values.as_slice(), seen)
        }
        StatKind::Call(e) => expression(e, seen),
        StatKind::Do(body) => block(body, seen),
        StatKind::While(test, body) => {
            expression(test, seen)?;
            block(body, seen)
        }
        StatKind::Repeat(body, test) => {
            // the test sees the variables of the body
            let count = seen.len();
            statements(body.stats.as_slice(), seen)?;
            expression(test, seen)?;
            seen.close(count);
            Ok(())
        }
        StatKind::If(arms, other) => {
            branches(arms.as_slice(), seen)?;
            otherwise(other, seen)
        }
        StatKind::Count(name, from, to, by, body) => {
            expression(from, seen)?;
            expression(to, seen)?;
            step(by, seen)?;
            counted(name, body, seen)
        }
        StatKind::Each(names, values, body) => {
            expressions(values.as_slice(), seen)?;
            scoped(names.as_slice(), body, seen)
        }
        StatKind::LocalFunction(name, f) => {
            seen.declared(name)?;
            function(f, seen)
        }
        StatKind::Local(names, values) => {
            expressions(values.as_slice(), seen)?;
            declarations(names.as_slice(), seen)
        }
        StatKind::Return(values) => expressions(values.as_slice(), seen),
        StatKind::Break => Ok(()),
    }
}

#[cycle(looks)]
fn counted<'t>(name: &'t Bytes, body: &'t Block, seen: &mut Sketching<'t>) -> Result<(), NoMemory> {
    let count = seen.len();
    seen.declared(name)?;
    block(body, seen)?;
    seen.close(count);
    Ok(())
}

#[cycle(looks)]
fn step<'t>(by: &'t Option<Expr>, seen: &mut Sketching<'t>) -> Result<(), NoMemory> {
    match by {
        None => Ok(()),
        Some(e) => expression(e, seen),
    }
}

#[cycle(looks)]
fn otherwise<'t>(b: &'t Option<Block>, seen: &mut Sketching<'t>) -> Result<(), NoMemory> {
    match b {
        None => Ok(()),
        Some(b) => block(b, seen),
    }
}

#[cycle(looks)]
fn branches<'t>(list: &'t [Arm], seen: &mut Sketching<'t>) -> Result<(), NoMemory> {
    for a in list {
        expression(&a.test, seen)?;
        block(&a.body, seen)?;
    }
    Ok(())
}
