//! Nodes as they are made, each with the plain tree for which it stands (manual 2.4 and 2.5). A node has the line, counted from 1, of
//! its own token. The only error is want of memory.
ghost use Rattle.std.specs.Prelude.{◌≡◌, IfOk, IfErr};
ghost use Rattle.lua_reading.specs.declared.answer.Fault.TheVariants.{NoMemory};
ghost use Rattle.lua_syntax.specs.Tree.{NilE, TrueE, FalseE, NumberE, TextE, DotsE, FunctionE, NameE, IndexE, CallE, MethodE, TableE, BinaryE, UnaryE, ParenE, Item, Pair, NoField, Lambda, Arm as OneArm, AssignS, CallS, DoS, WhileS, RepeatS, IfS, IfElseS, CountS, CountByS, EachS, LocalFunctionS, LocalS, ReturnS, BreakS};
ghost use Rattle.lua_syntax.specs.View.{expr_view, exprs_view, fields_view, field_view, function_view, block_view, stats_view, arm_view, arms_view, stat_view};

use crate::answer::Fault;
use lua_syntax::{
    Arm, BinaryOp, Block, Expr, ExprKind, Field, Function, Stat, StatKind, UnaryOp,
    WkBaseBytes as Bytes, WkBaseList as List,
};
use std::alloc::Global;

/// `nil`
#[tactic(auto, using(lua_syntax::proofs::Views::views))]
pub fn nil(line: u32) -> Expr
    ensures { expr_view result ≡ NilE line }
{
    let kind = ExprKind::Nil;
    Expr { line, kind }
}

/// `true`
#[tactic(auto, using(lua_syntax::proofs::Views::views))]
pub fn true_value(line: u32) -> Expr
    ensures { expr_view result ≡ TrueE line }
{
    let kind = ExprKind::True;
    Expr { line, kind }
}

/// `false`
#[tactic(auto, using(lua_syntax::proofs::Views::views))]
pub fn false_value(line: u32) -> Expr
    ensures { expr_view result ≡ FalseE line }
{
    let kind = ExprKind::False;
    Expr { line, kind }
}

/// `...`
#[tactic(auto, using(lua_syntax::proofs::Views::views))]
pub fn dots(line: u32) -> Expr
    ensures { expr_view result ≡ DotsE line }
{
    let kind = ExprKind::Dots;
    Expr { line, kind }
}

/// A number.
#[tactic(auto, using(lua_syntax::proofs::Views::views))]
pub fn number(line: u32, n: i64) -> Expr
    ensures { expr_view result ≡ NumberE line n }
{
    let kind = ExprKind::Number(n);
    Expr { line, kind }
}

/// A string, by its bytes.
#[tactic(auto, using(lua_syntax::proofs::Views::views))]
pub fn text(line: u32, bytes: Bytes) -> Expr
    ensures { expr_view result ≡ TextE line bytes }
{
    let kind = ExprKind::Text(bytes);
    Expr { line, kind }
}

/// A variable, by its name.
#[tactic(auto, using(lua_syntax::proofs::Views::views))]
pub fn name(line: u32, bytes: Bytes) -> Expr
    ensures { expr_view result ≡ NameE line bytes }
{
    let kind = ExprKind::Name(bytes);
    Expr { line, kind }
}

/// `function body`
#[tactic(auto, using(lua_syntax::proofs::Views::views))]
pub fn function(line: u32, body: Function) -> Expr
    ensures { expr_view result ≡ FunctionE line (function_view body) }
{
    let kind = ExprKind::Function(body);
    Expr { line, kind }
}

/// A table constructor (manual 2.5.7).
#[tactic(auto, using(lua_syntax::proofs::Views::views))]
pub fn table(line: u32, fields: List<Field>) -> Expr
    ensures { expr_view result ≡ TableE line (fields_view fields) }
{
    let kind = ExprKind::Table(fields);
    Expr { line, kind }
}

/// An expression in parentheses.
#[tactic(auto, using(lua_syntax::proofs::Views::views))]
pub fn paren(alloc: Global, line: u32, inner: Expr) -> Result<Expr, Fault>
    ensures ok { IfOk result (λ e. expr_view e ≡ ParenE line (expr_view inner)) }
    ensures err { IfErr result (λ e. e ≡ NoMemory) }
{
    let inner = Box::new(alloc, inner)?;
    let kind = ExprKind::Paren(inner);
    Ok(Expr { line, kind })
}

/// An operator before its operand.
#[tactic(auto, using(lua_syntax::proofs::Views::views))]
pub fn unary(alloc: Global, line: u32, op: UnaryOp, inner: Expr) -> Result<Expr, Fault>
    ensures ok { IfOk result (λ e. expr_view e ≡ UnaryE line op (expr_view inner)) }
    ensures err { IfErr result (λ e. e ≡ NoMemory) }
{
    let inner = Box::new(alloc, inner)?;
    let kind = ExprKind::Unary(op, inner);
    Ok(Expr { line, kind })
}

/// An operator between its sides.
#[tactic(auto, using(lua_syntax::proofs::Views::views))]
pub fn binary(
    alloc: Global,
    line: u32,
    op: BinaryOp,
    left: Expr,
    right: Expr,
) -> Result<Expr, Fault>
    ensures ok { IfOk result (λ e.
        expr_view e ≡ BinaryE line op (expr_view left) (expr_view right)) }
    ensures err { IfErr result (λ e. e ≡ NoMemory) }
{
    let left = Box::new(alloc, left)?;
    let right = Box::new(alloc, right)?;
    let kind = ExprKind::Binary(op, left, right);
    Ok(Expr { line, kind })
}

/// `of[key]`, and `of.name` where the key is a string (manual 2.3).
#[tactic(auto, using(lua_syntax::proofs::Views::views))]
pub fn index(alloc: Global, line: u32, of: Expr, key: Expr) -> Result<Expr, Fault>
    ensures ok { IfOk result (λ e. expr_view e ≡ IndexE line (expr_view of) (expr_view key)) }
    ensures err { IfErr result (λ e. e ≡ NoMemory) }
{
    let of = Box::new(alloc, of)?;
    let key = Box::new(alloc, key)?;
    let kind = ExprKind::Index(of, key);
    Ok(Expr { line, kind })
}

/// A call with its arguments (manual 2.5.8).
#[tactic(auto, using(lua_syntax::proofs::Views::views))]
pub fn call(alloc: Global, line: u32, called: Expr, args: List<Expr>) -> Result<Expr, Fault>
    ensures ok { IfOk result (λ e. expr_view e ≡ CallE line (expr_view called) (exprs_view args)) }
    ensures err { IfErr result (λ e. e ≡ NoMemory) }
{
    let called = Box::new(alloc, called)?;
    let kind = ExprKind::Call(called, args);
    Ok(Expr { line, kind })
}

/// `of:name(args)` (manual 2.5.8).
#[tactic(auto, using(lua_syntax::proofs::Views::views))]
pub fn method(
    alloc: Global,
    line: u32,
    of: Expr,
    name: Bytes,
    args: List<Expr>,
) -> Result<Expr, Fault>
    ensures ok { IfOk result (λ e.
        expr_view e ≡ MethodE line (expr_view of) name (exprs_view args)) }
    ensures err { IfErr result (λ e. e ≡ NoMemory) }
{
    let of = Box::new(alloc, of)?;
    let kind = ExprKind::Method(of, name, args);
    Ok(Expr { line, kind })
}

/// A field without a key.
#[tactic(auto, using(lua_syntax::proofs::Views::views))]
pub fn item(value: Expr) -> Field
    ensures { (rest : _) → field_view result rest ≡ Item (expr_view value) rest }
{
    Field::Item(value)
}

/// A field with a key.
#[tactic(auto, using(lua_syntax::proofs::Views::views))]
pub fn pair(key: Expr, value: Expr) -> Field
    ensures { (rest : _) → field_view result rest ≡ Pair (expr_view key) (expr_view value) rest }
{
    Field::Pair(key, value)
}

/// A function, by its parameters, whether `...` follows them, and its body (manual 2.5.9).
#[tactic(auto, using(lua_syntax::proofs::Views::views))]
pub fn body_of(params: List<Bytes>, dots: bool, body: Block) -> Function
    ensures { function_view result ≡ Lambda params dots (block_view body) }
{
    Function { params, dots, body }
}

/// A test of an `if` with its block.
#[tactic(auto, using(lua_syntax::proofs::Views::views))]
pub fn arm(test: Expr, body: Block) -> Arm
    ensures { (rest : _) → arm_view result rest ≡ OneArm (expr_view test) (block_view body) rest }
{
    Arm { test, body }
}

/// Statements in order.
#[tactic(auto, using(lua_syntax::proofs::Views::views))]
pub fn block_of(stats: List<Stat>) -> Block
    ensures { block_view result ≡ stats_view stats }
{
    Block { stats }
}

/// An assignment (manual 2.4.3).
#[tactic(auto, using(lua_syntax::proofs::Views::views))]
pub fn assign(line: u32, targets: List<Expr>, values: List<Expr>) -> Stat
    ensures { stat_view result ≡ AssignS line (exprs_view targets) (exprs_view values) }
{
    let kind = StatKind::Assign(targets, values);
    Stat { line, kind }
}

/// A call as a statement.
#[tactic(auto, using(lua_syntax::proofs::Views::views))]
pub fn call_stat(line: u32, call: Expr) -> Stat
    ensures { stat_view result ≡ CallS line (expr_view call) }
{
    let kind = StatKind::Call(call);
    Stat { line, kind }
}

/// `do body end`
#[tactic(auto, using(lua_syntax::proofs::Views::views))]
pub fn do_block(line: u32, body: Block) -> Stat
    ensures { stat_view result ≡ DoS line (block_view body) }
{
    let kind = StatKind::Do(body);
    Stat { line, kind }
}

/// `while test do body end`
#[tactic(auto, using(lua_syntax::proofs::Views::views))]
pub fn while_loop(line: u32, test: Expr, body: Block) -> Stat
    ensures { stat_view result ≡ WhileS line (expr_view test) (block_view body) }
{
    let kind = StatKind::While(test, body);
    Stat { line, kind }
}

/// `repeat body until test`
#[tactic(auto, using(lua_syntax::proofs::Views::views))]
pub fn repeat_loop(line: u32, body: Block, test: Expr) -> Stat
    ensures { stat_view result ≡ RepeatS line (block_view body) (expr_view test) }
{
    let kind = StatKind::Repeat(body, test);
    Stat { line, kind }
}

/// An `if` without `else`.
#[tactic(auto, using(lua_syntax::proofs::Views::views))]
pub fn if_stat(line: u32, arms: List<Arm>) -> Stat
    ensures { stat_view result ≡ IfS line (arms_view arms) }
{
    let kind = StatKind::If(arms, None);
    Stat { line, kind }
}

/// An `if` with its `else`.
#[tactic(auto, using(lua_syntax::proofs::Views::views))]
pub fn if_else(line: u32, arms: List<Arm>, other: Block) -> Stat
    ensures { stat_view result ≡ IfElseS line (arms_view arms) (block_view other) }
{
    let kind = StatKind::If(arms, Some(other));
    Stat { line, kind }
}

/// `for name = from, to do body end`
#[tactic(auto, using(lua_syntax::proofs::Views::views))]
pub fn count(line: u32, name: Bytes, from: Expr, to: Expr, body: Block) -> Stat
    ensures { stat_view result
        ≡ CountS line name (expr_view from) (expr_view to) (block_view body) }
{
    let kind = StatKind::Count(name, from, to, None, body);
    Stat { line, kind }
}

/// `for name = from, to, by do body end`
#[tactic(auto, using(lua_syntax::proofs::Views::views))]
pub fn count_by(line: u32, name: Bytes, from: Expr, to: Expr, by: Expr, body: Block) -> Stat
    ensures { stat_view result
        ≡ CountByS line name (expr_view from) (expr_view to) (expr_view by) (block_view body) }
{
    let kind = StatKind::Count(name, from, to, Some(by), body);
    Stat { line, kind }
}

/// `for names in values do body end`
#[tactic(auto, using(lua_syntax::proofs::Views::views))]
pub fn each(line: u32, names: List<Bytes>, values: List<Expr>, body: Block) -> Stat
    ensures { stat_view result ≡ EachS line names (exprs_view values) (block_view body) }
{
    let kind = StatKind::Each(names, values, body);
    Stat { line, kind }
}

/// `local function name body`
#[tactic(auto, using(lua_syntax::proofs::Views::views))]
pub fn local_function(line: u32, name: Bytes, body: Function) -> Stat
    ensures { stat_view result ≡ LocalFunctionS line name (function_view body) }
{
    let kind = StatKind::LocalFunction(name, body);
    Stat { line, kind }
}

/// `local names = values`
#[tactic(auto, using(lua_syntax::proofs::Views::views))]
pub fn local(line: u32, names: List<Bytes>, values: List<Expr>) -> Stat
    ensures { stat_view result ≡ LocalS line names (exprs_view values) }
{
    let kind = StatKind::Local(names, values);
    Stat { line, kind }
}

/// `return values`
#[tactic(auto, using(lua_syntax::proofs::Views::views))]
pub fn return_stat(line: u32, values: List<Expr>) -> Stat
    ensures { stat_view result ≡ ReturnS line (exprs_view values) }
{
    let kind = StatKind::Return(values);
    Stat { line, kind }
}

/// `break`
#[tactic(auto, using(lua_syntax::proofs::Views::views))]
pub fn break_stat(line: u32) -> Stat
    ensures { stat_view result ≡ BreakS line }
{
    let kind = StatKind::Break;
    Stat { line, kind }
}
