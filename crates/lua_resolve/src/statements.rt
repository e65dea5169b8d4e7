//! Code of statements and blocks, in one cycle with `expressions`.
ghost use Rattle.std.specs.Prelude.{◌≡◌, ℕ, IfOk, OnOk};
ghost use Rattle.lua_syntax.specs.Tree.{NoStat, Arms as PlainArms};
ghost use Rattle.lua_syntax.specs.View.{block_view, stats_view, stat_view, stat_kind_view, arm_view, arms_view};
ghost use Rattle.lua_code.specs.LuaSlotsCode.{Protos as PlainProtos, CArms};
ghost use Rattle.lua_code.specs.LuaSlotsSight.{Sight, with_local, with_locals, AreAsMany};
ghost use Rattle.lua_code.specs.LuaSlotsIsCode.{any_sight, IsArms, IsBlock};
ghost use Rattle.lua_code.specs.Seen.{statement_seen, block_seen, branch_seen, branches_seen};
ghost use Rattle.lua_resolve.specs.Parts.{state_of, Next, Later, IsPart, BlockSoFar, IsStep, IsOther};

use crate::expressions::Done;
use crate::lists::with_room;
use crate::resolver::Resolver;
use lua_code::{Branch, Bytes, Expression, NoMemory, Statement};
use lua_store::List;
use lua_syntax::{Arm, Block, Expr, Stat, StatKind};

/// The body of a loop with one variable, and whether that has a cell.
#[derive(Drop)]
struct Counted {
    boxed: bool,
    body: List<Statement>,
}

/// The body of a loop with several variables, and which of these have cells.
#[derive(Drop)]
struct Scoped {
    flags: List<bool>,
    body: List<Statement>,
}

impl<'t> Resolver<'t> {
    /// Code of a block, whose variables are closed behind it.
    #[cycle(parts)]
    pub(crate) fn block(&mut self, b: &'t Block) -> Result<List<Statement>, NoMemory>
        ensures next { OnOk result (Next (state_of self.old) (state_of self.new)) }
        ensures code { IfOk result (λ cs. (at : PlainProtos) (see : Sight) → Later (state_of self.new) at see → IsBlock at any_sight see (block_view b.now) (block_seen cs)) }
    {
        let count = self.scopes.len();
        let out = self.stats(b.stats.as_slice())?;
        self.close(count)?;
        Ok(out)
    }

    /// Code of statements, whose variables stay open.
    #[cycle(parts)]
    fn stats(&mut self, list: &'t [Stat]) -> Result<List<Statement>, NoMemory>
        ensures { IfOk result (λ cs. BlockSoFar (state_of self.old) (state_of self.new) (stats_view list.now) NoStat cs) }
    {
        let mut out = with_room(self.alloc, list.len())?;
        for s in list {
            let code = self.stat(s)?;
            out.push(code)?;
        }
        Ok(out)
    }

    /// Code of a statement.
    #[cycle(parts)]
    fn stat(&mut self, s: &'t Stat) -> Result<Statement, NoMemory>
        ensures { IfOk result (λ c. IsPart (state_of self.old) (state_of self.new) (stat_view s.now) (statement_seen c)) }
    {
        self.stat_kind(&s.kind, s.line)
    }

    #[cycle(parts)]
    fn stat_kind(&mut self, k: &'t StatKind, line: u32) -> Result<Statement, NoMemory>
        ensures { IfOk result (λ c. IsPart (state_of self.old) (state_of self.new) (stat_kind_view k.now line) (statement_seen c)) }
    {
        match k {
            StatKind::Assign(targets, values) => {
                let targets = self.targets(targets.as_slice())?;
                let values = self.expressions(values.as_slice())?;
                Ok(Statement::Assign(targets, values))
            }
            StatKind::Call(e) => {
                let code = self.expression(e)?;
                Ok(Statement::Call(code))
            }
            StatKind::Do(body) => {
                let body = self.block(body)?;
                Ok(Statement::Do(body))
            }
            StatKind::If(arms, other) => {
                let arms = self.branches(arms.as_slice())?;
                let other = self.otherwise(other)?;
                Ok(Statement::If(arms, other))
            }
            StatKind::LocalFunction(name, f) => {
                let boxed = self.declare_one(name)?;
                let Done { index, places } = self.function(f)?;
                Ok(Statement::LocalFunction(boxed, index, places))
            }
            StatKind::Local(names, values) => {
                let values = self.expressions(values.as_slice())?;
                let flags = self.declare(names.as_slice())?;
                Ok(Statement::Declare(flags, values))
            }
            StatKind::Return(values) => {
                let values = self.expressions(values.as_slice())?;
                Ok(Statement::Return(values))
            }
            StatKind::Break => Ok(Statement::Break),
            StatKind::While(_, _)
            | StatKind::Repeat(_, _)
            | StatKind::Count(_, _, _, _, _)
            | StatKind::Each(_, _, _) => self.loop_kind(k, line),
        }
    }

    /// Code of a loop. Loops stand apart, since a function pays at each call for the room of all values that it may hold.
    #[cycle(parts)]
    fn loop_kind(&mut self, k: &'t StatKind, line: u32) -> Result<Statement, NoMemory>
        ensures { IfOk result (λ c. IsPart (state_of self.old) (state_of self.new) (stat_kind_view k.now line) (statement_seen c)) }
    {
        match k {
            StatKind::While(test, body) => {
                let test = self.expression(test)?;
                let body = self.block(body)?;
                Ok(Statement::While(test, body))
            }
            StatKind::Repeat(body, test) => {
                let count = self.scopes.len();
                let body = self.stats(body.stats.as_slice())?;
                let test = self.expression(test)?;
                self.close(count)?;
                Ok(Statement::Repeat(body, test))
            }
            StatKind::Count(name, from, to, by, body) => {
                let from = self.operand(from)?;
                let to = self.operand(to)?;
                let by = self.step(by)?;
                let Counted { boxed, body } = self.counted(name, body)?;
                Ok(Statement::Count(boxed, from, to, by, body, line))
            }
            StatKind::Each(names, values, body) => {
                let values = self.expressions(values.as_slice())?;
                let Scoped { flags, body } = self.scoped(names, body)?;
                Ok(Statement::Each(flags, values, body, line))
            }
            // `stat_kind` hands on loops alone
            StatKind::Assign(_, _)
            | StatKind::Call(_)
            | StatKind::Do(_)
            | StatKind::If(_, _)
            | StatKind::LocalFunction(_, _)
            | StatKind::Local(_, _)
            | StatKind::Return(_)
            | StatKind::Break => Err(NoMemory),
        }
    }

    /// Code of a loop's body that sees the loop's variable.
    #[cycle(parts)]
    fn counted(&mut self, name: &'t Bytes, body: &'t Block) -> Result<Counted, NoMemory>
        ensures next { OnOk result (Next (state_of self.old) (state_of self.new)) }
        ensures code { IfOk result (λ r. (at : PlainProtos) (see : Sight) → Later (state_of self.new) at see → IsBlock at any_sight (with_local name.now r.boxed see) (block_view body.now) (block_seen r.body)) }
    {
        let count = self.scopes.len();
        let boxed = self.declare_one(name)?;
        let body = self.block(body)?;
        self.close(count)?;
        Ok(Counted { boxed, body })
    }

    /// Code of a loop's body that sees the loop's variables.
    #[cycle(parts)]
    fn scoped(&mut self, names: &'t List<Bytes>, body: &'t Block) -> Result<Scoped, NoMemory>
        ensures as_many { IfOk result (λ r. AreAsMany names.now r.flags) }
        ensures next { OnOk result (Next (state_of self.old) (state_of self.new)) }
        ensures code { IfOk result (λ r. (at : PlainProtos) (see : Sight) → Later (state_of self.new) at see → IsBlock at any_sight (with_locals names.now r.flags see) (block_view body.now) (block_seen r.body)) }
    {
        let count = self.scopes.len();
        let flags = self.declare(names.as_slice())?;
        let body = self.block(body)?;
        self.close(count)?;
        Ok(Scoped { flags, body })
    }

    /// Code of the step of a loop, if it has one.
    #[cycle(parts)]
    fn step(&mut self, by: &'t Option<Expr>) -> Result<Option<Box<Expression>>, NoMemory>
        ensures next { OnOk result (Next (state_of self.old) (state_of self.new)) }
        ensures code { IfOk result (λ c. (at : PlainProtos) (see : Sight) → Later (state_of self.new) at see → IsStep at see by.now c) }
    {
        match by {
            None => Ok(None),
            Some(e) => {
                let code = self.operand(e)?;
                Ok(Some(code))
            }
        }
    }

    /// Code of what stands behind `else`, if it is there.
    #[cycle(parts)]
    fn otherwise(&mut self, b: &'t Option<Block>) -> Result<Option<List<Statement>>, NoMemory>
        ensures next { OnOk result (Next (state_of self.old) (state_of self.new)) }
        ensures code { IfOk result (λ c. (at : PlainProtos) (see : Sight) → Later (state_of self.new) at see → IsOther at see b.now c) }
    {
        match b {
            None => Ok(None),
            Some(b) => {
                let code = self.block(b)?;
                Ok(Some(code))
            }
        }
    }

    /// Code of an arm, whatever arms come after it.
    #[cycle(parts)]
    fn branch(&mut self, a: &'t Arm) -> Result<Branch, NoMemory>
        ensures next { OnOk result (Next (state_of self.old) (state_of self.new)) }
        ensures code { IfOk result (λ c. (at : PlainProtos) (see : Sight) → Later (state_of self.new) at see → (more : PlainArms) (cs : CArms) → IsArms at see more cs → IsArms at see (arm_view a.now more) (branch_seen c cs)) }
    {
        let test = self.expression(&a.test)?;
        let body = self.block(&a.body)?;
        Ok(Branch { test, body })
    }

    /// Code of the arms of an `if`.
    #[cycle(parts)]
    fn branches(&mut self, list: &'t [Arm]) -> Result<List<Branch>, NoMemory>
        ensures next { OnOk result (Next (state_of self.old) (state_of self.new)) }
        ensures code { IfOk result (λ cs. (at : PlainProtos) (see : Sight) → Later (state_of self.new) at see → IsArms at see (arms_view list.now) (branches_seen cs)) }
    {
        let mut out = with_room(self.alloc, list.len())?;
        for a in list {
            let code = self.branch(a)?;
            out.push(code)?;
        }
        Ok(out)
    }
}
