//! Expressions in boxes, and nodes over them (manual 2.4 and 2.5). A box is one word, so an expression that is held while more is
//! read waits in one: mostly in the box in which it will stand in the tree.
ghost use Rattle.std.specs.Prelude.{◌≡◌, ◌<◌, ◌∷◌, [], length, IfOk, IfErr};
ghost use Rattle.lua_reading.specs.LuaGrammarTokens.{tok_at, bytes_of};
ghost use Rattle.lua_reading.specs.declared.answer.Fault.TheVariants.{NoMemory};
ghost use Rattle.lua_syntax.specs.Tree.{TextE, NameE, IndexE, CallE, MethodE, BinaryE, CountS, CountByS};
ghost use Rattle.lua_syntax.specs.View.{expr_view, exprs_view, block_view, stat_view};

use lua_lexer::Token;
use lua_reading::short_lists::short_list;
use lua_reading::tokens::{copy_at, line_at};
use lua_reading::{Fault, make};
use lua_syntax::{BinaryOp, Block, Expr, ExprKind, Stat, WkBaseBytes as Bytes, WkBaseList as List};
use std::alloc::Global;

/// An expression in a box.
pub(crate) fn in_box(alloc: Global, tree: Expr) -> Result<Box<Expr>, Fault>
    ensures ok { IfOk result (λ b. b.value ≡ tree) }
    ensures err { IfErr result (λ e. e ≡ NoMemory) }
{
    let made = Box::new(alloc, tree)?;
    Ok(made)
}

/// One expression as a list.
pub(crate) fn single(alloc: Global, value: Expr) -> Result<List<Expr>, Fault>
    ensures ok { IfOk result (λ l. l ≡ value ∷ []) }
    ensures err { IfErr result (λ e. e ≡ NoMemory) }
{
    let mut list = short_list(alloc)?;
    list.push(value)?;
    Ok(list)
}

/// The expression of a box as a list.
pub(crate) fn out_of_box(alloc: Global, value: Box<Expr>) -> Result<List<Expr>, Fault>
    ensures ok { IfOk result (λ l. l ≡ value.value ∷ []) }
    ensures err { IfErr result (λ e. e ≡ NoMemory) }
{
    let list = single(alloc, Box::into_inner(value))?;
    Ok(list)
}

/// The variable whose name is the token at i.
pub(crate) fn variable(alloc: Global, toks: &[Token], i: usize) -> Result<Box<Expr>, Fault>
    requires { i < length toks.now }
    ensures ok { IfOk result (λ b.
        expr_view b.value ≡ NameE (tok_at toks.now i).line (bytes_of (tok_at toks.now i))) }
    ensures err { IfErr result (λ e. e ≡ NoMemory) }
{
    let name = copy_at(alloc, toks, i)?;
    let made = in_box(alloc, make::name(line_at(toks, i), name))?;
    Ok(made)
}

/// `of.name`, with the lines of the dot and of the name (manual 2.3).
pub(crate) fn dotted(
    alloc: Global,
    line: u32,
    of: Box<Expr>,
    name_line: u32,
    name: Bytes,
) -> Result<Box<Expr>, Fault>
    ensures ok { IfOk result (λ b.
        expr_view b.value ≡ IndexE line (expr_view of.value) (TextE name_line name)) }
    ensures err { IfErr result (λ e. e ≡ NoMemory) }
{
    let key = make::text(name_line, name);
    let tree = index(alloc, line, of, key)?;
    let made = in_box(alloc, tree)?;
    Ok(made)
}

/// `of[key]`, and `of.name` where the key is a string (manual 2.3).
#[tactic(auto, using(lua_syntax::proofs::Views::views))]
pub(crate) fn index(alloc: Global, line: u32, of: Box<Expr>, key: Expr) -> Result<Expr, Fault>
    ensures ok { IfOk result (λ e. expr_view e ≡ IndexE line (expr_view of.value) (expr_view key)) }
    ensures err { IfErr result (λ e. e ≡ NoMemory) }
{
    let key = Box::new(alloc, key)?;
    let kind = ExprKind::Index(of, key);
    Ok(Expr { line, kind })
}

/// An operator between its sides.
#[tactic(auto, using(lua_syntax::proofs::Views::views))]
pub(crate) fn binary(
    alloc: Global,
    line: u32,
    op: BinaryOp,
    left: Box<Expr>,
    right: Expr,
) -> Result<Expr, Fault>
    ensures ok { IfOk result (λ e.
        expr_view e ≡ BinaryE line op (expr_view left.value) (expr_view right)) }
    ensures err { IfErr result (λ e. e ≡ NoMemory) }
{
    let right = Box::new(alloc, right)?;
    let kind = ExprKind::Binary(op, left, right);
    Ok(Expr { line, kind })
}

/// A call with its arguments (manual 2.5.8).
#[tactic(auto, using(lua_syntax::proofs::Views::views))]
pub(crate) fn call(line: u32, called: Box<Expr>, args: List<Expr>) -> Expr
    ensures { expr_view result ≡ CallE line (expr_view called.value) (exprs_view args) }
{
    let kind = ExprKind::Call(called, args);
    Expr { line, kind }
}

/// `of:name(args)` (manual 2.5.8).
#[tactic(auto, using(lua_syntax::proofs::Views::views))]
pub(crate) fn method(line: u32, of: Box<Expr>, name: Bytes, args: List<Expr>) -> Expr
    ensures { expr_view result ≡ MethodE line (expr_view of.value) name (exprs_view args) }
{
    let kind = ExprKind::Method(of, name, args);
    Expr { line, kind }
}

/// `for name = from, to do body end`.
pub(crate) fn count(line: u32, name: Bytes, from: Box<Expr>, to: Box<Expr>, body: Block) -> Stat
    ensures { stat_view result
        ≡ CountS line name (expr_view from.value) (expr_view to.value) (block_view body) }
{
    let from = Box::into_inner(from);
    let to = Box::into_inner(to);
    make::count(line, name, from, to, body)
}

/// `for name = from, to, by do body end`.
pub(crate) fn count_by(
    line: u32,
    name: Bytes,
    from: Box<Expr>,
    to: Box<Expr>,
    by: Box<Expr>,
    body: Block,
) -> Stat
    ensures { stat_view result
        ≡ CountByS line name (expr_view from.value) (expr_view to.value) (expr_view by.value)
        (block_view body) }
{
    let from = Box::into_inner(from);
    let to = Box::into_inner(to);
    let by = Box::into_inner(by);
    make::count_by(line, name, from, to, by, body)
}
