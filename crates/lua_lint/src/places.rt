//! Where a text names globals, in reading order (manual 2.3 and 2.6).
//!
//! These functions go down the tree by recursion; the grammar bounds its depth (200 levels).
#![tactic(auto, using(crate::proofs::PlaceLemmas::found))]

ghost use Rattle.std.specs.Prelude.{◌≡◌, ◌++◌, ◌∷◌, ℕ, OnOk, IfOk, option_map};
ghost use Rattle.lua_syntax.specs.Tree.{Fields as PlainFields, Arms as PlainArms, MoreExp, NoExp};
ghost use Rattle.lua_syntax.specs.View.{kind_view, expr_view, exprs_view, field_view, fields_view, function_view, block_view, arm_view, arms_view, stats_view, stat_view, stat_kind_view, chunk_view};
ghost use Rattle.lua_uses.specs.Uses.{only_text, required_by, requiring, with_names, name_uses, expr_uses, exprs_uses, fields_uses, function_uses, block_uses, arms_uses, stat_uses, stat_scope, block_scope, text_uses};
ghost use Rattle.lua_lint.specs.Seen.{uses_seen, Finds, text_of_call};

use crate::scopes::Scope;
use lua_syntax::{Arm, Block, Chunk, Expr, ExprKind, Field, Function, Stat, StatKind};
use std::alloc::Global;
use std::hash::RandomState;
use wk_base::{Bytes, List, NoMemory};

/// A place where a text names a global: the line, the name, and where it is the function of a call `require(text)`, that text.
#[derive(Clone, Copy)]
pub(crate) struct Use<'t> {
    pub(crate) line: u32,
    pub(crate) name: &'t Bytes,
    pub(crate) required: Option<&'t Bytes>,
}

/// The places where a text names globals, behind others.
fn find_uses<'t>(
    alloc: Global,
    seed: RandomState,
    chunk: &'t Chunk,
    out: &mut List<Use<'t>>,
) -> Result<(), NoMemory>
    ensures { OnOk result (Finds out.old out.new (text_uses (chunk_view chunk.now))) }
{
    let mut scope = Scope::new(alloc, seed);
    block(&chunk.body, &mut scope, out)
}

/// Where a text names globals. Names are hashed by the seed, so that no text can choose names that collide.
pub(crate) fn text_uses<'t>(
    alloc: Global,
    seed: RandomState,
    chunk: &'t Chunk,
) -> Result<List<Use<'t>>, NoMemory>
    ensures { IfOk result (λ uses. uses_seen uses ≡ text_uses (chunk_view chunk.now)) }
{
    let mut out = List::new(alloc);
    find_uses(alloc, seed, chunk, &mut out)?;
    Ok(out)
}

/// The text that the arguments are, if they are one text.
fn only_text<'t>(args: &'t [Expr]) -> Option<&'t Bytes>
    ensures { option_map (λ t. t.now) result ≡ only_text (exprs_view args.now) }
{
    if args.len() != 1 {
        return None;
    }
    text_in(&args[0].kind)
}

/// The text that an expression is, on whatever line.
fn text_in<'t>(k: &'t ExprKind) -> Option<&'t Bytes>
    ensures { (line : ℕ) → option_map (λ t. t.now) result ≡ only_text (MoreExp (kind_view k.now line) NoExp) }
{
    match k {
        ExprKind::Text(text) => Some(text),
        ExprKind::Nil
        | ExprKind::True
        | ExprKind::False
        | ExprKind::Number(_)
        | ExprKind::Dots
        | ExprKind::Function(_)
        | ExprKind::Name(_)
        | ExprKind::Index(_, _)
        | ExprKind::Call(_, _)
        | ExprKind::Method(_, _, _)
        | ExprKind::Table(_)
        | ExprKind::Binary(_, _, _)
        | ExprKind::Unary(_, _)
        | ExprKind::Paren(_) => None,
    }
}

/// The text of a call of this name, if the name is `require` and the arguments are one text.
fn text_of_call<'t>(name: &Bytes, args: &'t [Expr]) -> Option<&'t Bytes>
    ensures { option_map (λ t. t.now) result ≡ text_of_call name.now (exprs_view args.now) }
{
    if name.as_slice() == b"require".as_slice() {
        only_text(args)
    } else {
        None
    }
}

/// A name that stands in this scope; where it is the function of a call `require(text)`, with that text.
fn named<'t>(
    line: u32,
    name: &'t Bytes,
    required: Option<&'t Bytes>,
    scope: &Scope<'t>,
    out: &mut List<Use<'t>>,
) -> Result<(), NoMemory>
    ensures { OnOk result (Finds out.old out.new (requiring (option_map (λ t. t.now) required.entry) (name_uses line name.now scope.now))) }
{
    if scope.binds(name) {
        return Ok(());
    }
    out.push(Use {
        line,
        name,
        required,
    })
}

fn declare_all<'t>(names: &'t [Bytes], scope: &mut Scope<'t>) -> Result<(), NoMemory>
    ensures { OnOk result (scope.new ≡ with_names names.now scope.old) }
{
    for name in names {
        scope.declare(name)?;
    }
    Ok(())
}

#[cycle(places)]
fn expr<'t>(e: &'t Expr, scope: &mut Scope<'t>, out: &mut List<Use<'t>>) -> Result<(), NoMemory>
    ensures uses { OnOk result (Finds out.old out.new (expr_uses (expr_view e.now) scope.old)) }
    ensures scope { OnOk result (scope.new ≡ scope.old) }
{
    kind(e.line, &e.kind, scope, out)
}

#[cycle(places)]
fn kind<'t>(
    line: u32,
    k: &'t ExprKind,
    scope: &mut Scope<'t>,
    out: &mut List<Use<'t>>,
) -> Result<(), NoMemory>
    ensures uses { OnOk result (Finds out.old out.new (expr_uses (kind_view k.now line) scope.old)) }
    ensures scope { OnOk result (scope.new ≡ scope.old) }
{
    match k {
        ExprKind::Name(name) => named(line, name, None, scope, out),
        ExprKind::Nil
        | ExprKind::True
        | ExprKind::False
        | ExprKind::Number(_)
        | ExprKind::Text(_)
        | ExprKind::Dots => Ok(()),
        ExprKind::Function(f) => function(f, scope, out),
        ExprKind::Index(of, at) => {
            expr(of, scope, out)?;
            expr(at, scope, out)
        }
        ExprKind::Call(f, args) => {
            called(f.line, &f.kind, args.as_slice(), scope, out)?;
            exprs(args.as_slice(), scope, out)
        }
        ExprKind::Method(of, _, args) => {
            expr(of, scope, out)?;
            exprs(args.as_slice(), scope, out)
        }
        ExprKind::Table(list) => fields(list.as_slice(), scope, out),
        ExprKind::Binary(_, a, b) => {
            expr(a, scope, out)?;
            expr(b, scope, out)
        }
        ExprKind::Unary(_, a) => expr(a, scope, out),
        ExprKind::Paren(a) => expr(a, scope, out),
    }
}

/// What is called with these arguments.
#[cycle(places)]
fn called<'t>(
    line: u32,
    k: &'t ExprKind,
    args: &'t [Expr],
    scope: &mut Scope<'t>,
    out: &mut List<Use<'t>>,
) -> Result<(), NoMemory>
    ensures uses { OnOk result (Finds out.old out.new (requiring (required_by (kind_view k.now line) (exprs_view args.now)) (expr_uses (kind_view k.now line) scope.old))) }
    ensures scope { OnOk result (scope.new ≡ scope.old) }
{
    match k {
        ExprKind::Name(name) => named(line, name, text_of_call(name, args), scope, out),
        ExprKind::Nil
        | ExprKind::True
        | ExprKind::False
        | ExprKind::Number(_)
        | ExprKind::Text(_)
        | ExprKind::Dots
        | ExprKind::Function(_)
        | ExprKind::Index(_, _)
        | ExprKind::Call(_, _)
        | ExprKind::Method(_, _, _)
        | ExprKind::Table(_)
        | ExprKind::Binary(_, _, _)
        | ExprKind::Unary(_, _)
        | ExprKind::Paren(_) => kind(line, k, scope, out),
    }
}

#[cycle(places)]
fn exprs<'t>(
    list: &'t [Expr],
    scope: &mut Scope<'t>,
    out: &mut List<Use<'t>>,
) -> Result<(), NoMemory>
    ensures uses { OnOk result (Finds out.old out.new (exprs_uses (exprs_view list.now) scope.old)) }
    ensures scope { OnOk result (scope.new ≡ scope.old) }
{
    for e in list {
        expr(e, scope, out)?;
    }
    Ok(())
}

// With whatever fields come after it.
#[cycle(places)]
fn field<'t>(f: &'t Field, scope: &mut Scope<'t>, out: &mut List<Use<'t>>) -> Result<(), NoMemory>
    ensures uses { OnOk result ((rest : PlainFields) → uses_seen out.new ++ fields_uses rest scope.old ≡ uses_seen out.old ++ fields_uses (field_view f.now rest) scope.old) }
    ensures scope { OnOk result (scope.new ≡ scope.old) }
{
    match f {
        Field::Item(e) => expr(e, scope, out),
        Field::Pair(k, v) => {
            expr(k, scope, out)?;
            expr(v, scope, out)
        }
    }
}

#[cycle(places)]
fn fields<'t>(
    list: &'t [Field],
    scope: &mut Scope<'t>,
    out: &mut List<Use<'t>>,
) -> Result<(), NoMemory>
    ensures uses { OnOk result (Finds out.old out.new (fields_uses (fields_view list.now) scope.old)) }
    ensures scope { OnOk result (scope.new ≡ scope.old) }
{
    for f in list {
        field(f, scope, out)?;
    }
    Ok(())
}

#[cycle(places)]
fn function<'t>(
    f: &'t Function,
    scope: &mut Scope<'t>,
    out: &mut List<Use<'t>>,
) -> Result<(), NoMemory>
    ensures uses { OnOk result (Finds out.old out.new (function_uses (function_view f.now) scope.old)) }
    ensures scope { OnOk result (scope.new ≡ scope.old) }
{
    seeing(f.params.as_slice(), &f.body, scope, out)
}

/// A block that sees more variables.
#[cycle(places)]
fn seeing<'t>(
    names: &'t [Bytes],
    body: &'t Block,
    scope: &mut Scope<'t>,
    out: &mut List<Use<'t>>,
) -> Result<(), NoMemory>
    ensures uses { OnOk result (Finds out.old out.new (block_uses (block_view body.now) (with_names names.now scope.old))) }
    ensures scope { OnOk result (scope.new ≡ scope.old) }
{
    let count = scope.len();
    declare_all(names, scope)?;
    block(body, scope, out)?;
    scope.close(count)
}

/// A block that sees one variable more.
#[cycle(places)]
fn seeing_one<'t>(
    name: &'t Bytes,
    body: &'t Block,
    scope: &mut Scope<'t>,
    out: &mut List<Use<'t>>,
) -> Result<(), NoMemory>
    ensures uses { OnOk result (Finds out.old out.new (block_uses (block_view body.now) (name.now ∷ scope.old))) }
    ensures scope { OnOk result (scope.new ≡ scope.old) }
{
    let count = scope.len();
    scope.declare(name)?;
    block(body, scope, out)?;
    scope.close(count)
}

#[cycle(places)]
fn block<'t>(b: &'t Block, scope: &mut Scope<'t>, out: &mut List<Use<'t>>) -> Result<(), NoMemory>
    ensures uses { OnOk result (Finds out.old out.new (block_uses (block_view b.now) scope.old)) }
    ensures scope { OnOk result (scope.new ≡ scope.old) }
{
    let count = scope.len();
    stats(b.stats.as_slice(), scope, out)?;
    scope.close(count)
}

#[cycle(places)]
fn stats<'t>(
    list: &'t [Stat],
    scope: &mut Scope<'t>,
    out: &mut List<Use<'t>>,
) -> Result<(), NoMemory>
    ensures uses { OnOk result (Finds out.old out.new (block_uses (stats_view list.now) scope.old)) }
    ensures scope { OnOk result (scope.new ≡ block_scope (stats_view list.now) scope.old) }
{
    for s in list {
        stat(s, scope, out)?;
    }
    Ok(())
}

#[cycle(places)]
fn stat<'t>(s: &'t Stat, scope: &mut Scope<'t>, out: &mut List<Use<'t>>) -> Result<(), NoMemory>
    ensures uses { OnOk result (Finds out.old out.new (stat_uses (stat_view s.now) scope.old)) }
    ensures scope { OnOk result (scope.new ≡ stat_scope (stat_view s.now) scope.old) }
{
    stat_kind(&s.kind, scope, out)
}

// Whatever the line of its statement.
#[cycle(places)]
fn stat_kind<'t>(
    s: &'t StatKind,
    scope: &mut Scope<'t>,
    out: &mut List<Use<'t>>,
) -> Result<(), NoMemory>
    ensures uses { OnOk result ((line : ℕ) → Finds out.old out.new (stat_uses (stat_kind_view s.now line) scope.old)) }
    ensures scope { OnOk result ((line : ℕ) → scope.new ≡ stat_scope (stat_kind_view s.now line) scope.old) }
{
    match s {
        StatKind::Assign(targets, values) => {
            exprs(targets.as_slice(), scope, out)?;
            exprs(values.as_slice(), scope, out)
        }
        StatKind::Call(e) => expr(e, scope, out),
        StatKind::Do(b) => block(b, scope, out),
        StatKind::While(e, b) => {
            expr(e, scope, out)?;
            block(b, scope, out)
        }
        StatKind::Repeat(body, test) => {
            // the test sees what the body declares
            let count = scope.len();
            stats(body.stats.as_slice(), scope, out)?;
            expr(test, scope, out)?;
            scope.close(count)
        }
        StatKind::If(list, other) => {
            arms(list.as_slice(), scope, out)?;
            match other {
                None => Ok(()),
                Some(b) => block(b, scope, out),
            }
        }
        StatKind::Count(name, from, to, by, body) => {
            expr(from, scope, out)?;
            expr(to, scope, out)?;
            match by {
                None => seeing_one(name, body, scope, out),
                Some(e) => {
                    expr(e, scope, out)?;
                    seeing_one(name, body, scope, out)
                }
            }
        }
        StatKind::Each(names, values, body) => {
            exprs(values.as_slice(), scope, out)?;
            seeing(names.as_slice(), body, scope, out)
        }
        StatKind::LocalFunction(name, f) => {
            scope.declare(name)?;
            function(f, scope, out)
        }
        StatKind::Local(names, values) => {
            exprs(values.as_slice(), scope, out)?;
            declare_all(names.as_slice(), scope)
        }
        StatKind::Return(values) => exprs(values.as_slice(), scope, out),
        StatKind::Break => Ok(()),
    }
}

// With whatever arms come after it.
#[cycle(places)]
fn arm<'t>(a: &'t Arm, scope: &mut Scope<'t>, out: &mut List<Use<'t>>) -> Result<(), NoMemory>
    ensures uses { OnOk result ((rest : PlainArms) → uses_seen out.new ++ arms_uses rest scope.old ≡ uses_seen out.old ++ arms_uses (arm_view a.now rest) scope.old) }
    ensures scope { OnOk result (scope.new ≡ scope.old) }
{
    expr(&a.test, scope, out)?;
    block(&a.body, scope, out)
}

#[cycle(places)]
fn arms<'t>(list: &'t [Arm], scope: &mut Scope<'t>, out: &mut List<Use<'t>>) -> Result<(), NoMemory>
    ensures uses { OnOk result (Finds out.old out.new (arms_uses (arms_view list.now) scope.old)) }
    ensures scope { OnOk result (scope.new ≡ scope.old) }
{
    for a in list {
        arm(a, scope, out)?;
    }
    Ok(())
}
