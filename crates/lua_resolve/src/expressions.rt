//! Code of expressions and functions. One cycle with `statements`: an expression may hold a function, and so statements. Its depth
//! is that of the tree.
ghost use Rattle.std.specs.Prelude.{◌≡◌, map, IfOk, OnOk};
ghost use Rattle.lua_syntax.specs.Tree.{Fields as PlainFields};
ghost use Rattle.lua_syntax.specs.View.{kind_view, expr_view, exprs_view, field_view, fields_view, function_view};
ghost use Rattle.lua_code.specs.LuaSlotsCode.{Protos as PlainProtos, CFields};
ghost use Rattle.lua_code.specs.LuaSlotsSight.{Sight};
ghost use Rattle.lua_code.specs.LuaSlotsIsCode.{IsClosure, IsExp, IsExps, IsFields, IsFun, IsTarget, IsTargets};
ghost use Rattle.lua_code.specs.Seen.{place_seen, expression_seen, expressions_seen, entry_seen, entries_seen, target_seen};
ghost use Rattle.lua_resolve.specs.Parts.{state_of, Next, Later};

use crate::lists::with_room;
use crate::operators::binary;
use crate::resolver::Resolver;
use lua_code::{Entry, Expression, NoMemory, Place, Proto, Target};
use lua_store::List;
use lua_syntax::{Expr, ExprKind, Field, Function};
use std::alloc::Global;

/// A function that is done: its number, and from where it captures.
#[derive(Drop)]
pub(crate) struct Done {
    pub(crate) index: u32,
    pub(crate) places: List<Place>,
}

/// A box for it.
fn boxed(alloc: Global, code: Expression) -> Result<Box<Expression>, NoMemory>
    ensures { IfOk result (λ b. b.value ≡ code) }
{
    match Box::new(alloc, code) {
        Ok(code) => Ok(code),
        Err(_) => Err(NoMemory),
    }
}

impl<'t> Resolver<'t> {
    /// Code of an expression.
    #[cycle(parts)]
    pub(crate) fn expression(&mut self, e: &'t Expr) -> Result<Expression, NoMemory>
        ensures next { OnOk result (Next (state_of self.old) (state_of self.new)) }
        ensures code { IfOk result (λ c. (at : PlainProtos) (see : Sight) → Later (state_of self.new) at see → IsExp at see (expr_view e.now) (expression_seen c)) }
    {
        self.kind(&e.kind, e.line)
    }

    /// Code of an expression, in a box.
    #[cycle(parts)]
    pub(crate) fn operand(&mut self, e: &'t Expr) -> Result<Box<Expression>, NoMemory>
        ensures next { OnOk result (Next (state_of self.old) (state_of self.new)) }
        ensures code { IfOk result (λ c. (at : PlainProtos) (see : Sight) → Later (state_of self.new) at see → IsExp at see (expr_view e.now) (expression_seen c.value)) }
    {
        let code = self.expression(e)?;
        let code = boxed(self.alloc, code)?;
        Ok(code)
    }

    #[cycle(parts)]
    fn kind(&mut self, k: &'t ExprKind, line: u32) -> Result<Expression, NoMemory>
        ensures next { OnOk result (Next (state_of self.old) (state_of self.new)) }
        ensures code { IfOk result (λ c. (at : PlainProtos) (see : Sight) → Later (state_of self.new) at see → IsExp at see (kind_view k.now line) (expression_seen c)) }
    {
        match k {
            ExprKind::Nil => Ok(Expression::Nil),
            ExprKind::True => Ok(Expression::Truth(true)),
            ExprKind::False => Ok(Expression::Truth(false)),
            ExprKind::Number(n) => Ok(Expression::Number(*n)),
            ExprKind::Text(text) => {
                let number = self.constant(text)?;
                Ok(Expression::Text(number))
            }
            ExprKind::Dots => Ok(Expression::Dots),
            ExprKind::Function(f) => {
                let Done { index, places } = self.function(f)?;
                Ok(Expression::Function(index, places))
            }
            ExprKind::Name(name) => self.name(name, line),
            ExprKind::Index(of, key) => {
                let of = self.operand(of)?;
                let key = self.operand(key)?;
                Ok(Expression::Index(of, key, line))
            }
            ExprKind::Call(called, arguments) => {
                let called = self.operand(called)?;
                let arguments = self.expressions(arguments.as_slice())?;
                Ok(Expression::Call(called, arguments, line))
            }
            ExprKind::Method(of, name, arguments) => {
                let of = self.operand(of)?;
                let arguments = self.expressions(arguments.as_slice())?;
                let number = self.constant(name)?;
                Ok(Expression::Method(of, number, arguments, line))
            }
            ExprKind::Table(fields) => {
                let entries = self.entries(fields.as_slice())?;
                Ok(Expression::Table(entries, line))
            }
            ExprKind::Binary(op, left, right) => {
                let left = self.operand(left)?;
                let right = self.operand(right)?;
                Ok(binary(*op, left, right, line))
            }
            ExprKind::Unary(op, of) => {
                let of = self.operand(of)?;
                Ok(Expression::Unary(*op, of, line))
            }
            ExprKind::Paren(of) => {
                let of = self.operand(of)?;
                Ok(Expression::Paren(of))
            }
        }
    }

    /// Code of expressions, in order.
    #[cycle(parts)]
    pub(crate) fn expressions(&mut self, list: &'t [Expr]) -> Result<List<Expression>, NoMemory>
        ensures next { OnOk result (Next (state_of self.old) (state_of self.new)) }
        ensures code { IfOk result (λ cs. (at : PlainProtos) (see : Sight) → Later (state_of self.new) at see → IsExps at see (exprs_view list.now) (expressions_seen cs)) }
    {
        let mut out = with_room(self.alloc, list.len())?;
        for e in list {
            let code = self.expression(e)?;
            out.push(code)?;
        }
        Ok(out)
    }

    /// Code of a field, whatever stands behind it.
    #[cycle(parts)]
    fn entry(&mut self, f: &'t Field) -> Result<Entry, NoMemory>
        ensures next { OnOk result (Next (state_of self.old) (state_of self.new)) }
        ensures code { IfOk result (λ c. (at : PlainProtos) (see : Sight) → Later (state_of self.new) at see → (fs : PlainFields) (cs : CFields) → IsFields at see fs cs → IsFields at see (field_view f.now fs) (entry_seen c cs)) }
    {
        match f {
            Field::Item(e) => {
                let item = self.expression(e)?;
                Ok(Entry::Item(item))
            }
            Field::Pair(key, e) => {
                let key = self.expression(key)?;
                let item = self.expression(e)?;
                Ok(Entry::Pair(key, item))
            }
        }
    }

    /// Code of the fields of a constructor.
    #[cycle(parts)]
    fn entries(&mut self, list: &'t [Field]) -> Result<List<Entry>, NoMemory>
        ensures next { OnOk result (Next (state_of self.old) (state_of self.new)) }
        ensures code { IfOk result (λ cs. (at : PlainProtos) (see : Sight) → Later (state_of self.new) at see → IsFields at see (fields_view list.now) (entries_seen cs)) }
    {
        let mut out = with_room(self.alloc, list.len())?;
        for f in list {
            let code = self.entry(f)?;
            out.push(code)?;
        }
        Ok(out)
    }

    /// Code of what is assigned to.
    #[cycle(parts)]
    fn target(&mut self, e: &'t Expr) -> Result<Target, NoMemory>
        ensures next { OnOk result (Next (state_of self.old) (state_of self.new)) }
        ensures code { IfOk result (λ c. (at : PlainProtos) (see : Sight) → Later (state_of self.new) at see → IsTarget at see (expr_view e.now) (target_seen c)) }
    {
        match &e.kind {
            ExprKind::Name(name) => self.named_target(name, e.line),
            ExprKind::Index(of, key) => {
                let of = self.expression(of)?;
                let key = self.expression(key)?;
                Ok(Target::At(of, key, e.line))
            }
            ExprKind::Nil
            | ExprKind::True
            | ExprKind::False
            | ExprKind::Number(_)
            | ExprKind::Text(_)
            | ExprKind::Dots
            | ExprKind::Function(_)
            | ExprKind::Call(_, _)
            | ExprKind::Method(_, _, _)
            | ExprKind::Table(_)
            | ExprKind::Binary(_, _, _)
            | ExprKind::Unary(_, _)
            | ExprKind::Paren(_) => Ok(Target::Refused),
        }
    }

    /// Code of all that is assigned to.
    #[cycle(parts)]
    pub(crate) fn targets(&mut self, list: &'t [Expr]) -> Result<List<Target>, NoMemory>
        ensures next { OnOk result (Next (state_of self.old) (state_of self.new)) }
        ensures code { IfOk result (λ cs. (at : PlainProtos) (see : Sight) → Later (state_of self.new) at see → IsTargets at see (exprs_view list.now) (map target_seen cs)) }
    {
        let mut out = with_room(self.alloc, list.len())?;
        for e in list {
            let code = self.target(e)?;
            out.push(code)?;
        }
        Ok(out)
    }

    /// A function: its code gets a number, and it captures what it finds around it.
    #[cycle(parts)]
    pub(crate) fn function(&mut self, f: &'t Function) -> Result<Done, NoMemory>
        ensures next { OnOk result (Next (state_of self.old) (state_of self.new)) }
        ensures code { IfOk result (λ d. (at : PlainProtos) (see : Sight) → Later (state_of self.new) at see → IsClosure at see d.index (map place_seen d.places) (λ inner p. IsFun at inner (function_view f.now) p)) }
    {
        self.scopes.enter()?;
        let flags = self.declare(f.params.as_slice())?;
        let body = self.block(&f.body)?;
        let places = self.scopes.leave()?;
        let dots = f.dots;
        let index = self.add(Proto { flags, dots, body })?;
        Ok(Done { index, places })
    }
}
