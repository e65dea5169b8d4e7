//! Code of tests. A test jumps where its truth is not the one with which it goes on.
ghost use Rattle.std.specs.Prelude.{◌≡◌, true, IfOk, OnOk};
ghost use Rattle.lua_flat.specs.LuaSlotsCode.{OperateC, ParenC};
ghost use Rattle.lua_flat.specs.IsExpression.{is_comparison as compares};
ghost use Rattle.lua_code.specs.Seen.{operator_seen, expression_seen};
ghost use Rattle.lua_flat_code.specs.Making.{state_of};
ghost use Rattle.lua_flat_code.specs.Parts.{IsTrueConstant, TestSaid, ConditionSaid, BranchSaid};

use crate::maker::Maker;
use crate::op::{OPEN, Op};
use lua_code::{Expression, List, NoMemory, Operator};
use lua_syntax::UnaryOp;

/// Whether the value of an operator is a truth.
fn is_comparison(op: Operator) -> bool
    ensures { result ≡ compares (operator_seen op) }
{
    match op {
        Operator::Concatenate => false,
        Operator::Calculate(_) => false,
        Operator::Less => true,
        Operator::Greater => true,
        Operator::AtMost => true,
        Operator::AtLeast => true,
        Operator::Equal => true,
        Operator::Unequal => true,
    }
}

/// Whether it is a constant that is true.
fn is_true(e: &Expression) -> bool
    ensures { result ≡ true → IsTrueConstant (expression_seen e.now) }
{
    match e {
        Expression::Truth(truth) => *truth,
        Expression::Number(_) => true,
        _ => false,
    }
}

impl Maker {
    /// The test of a statement, which goes on where it is true. Those of its jumps where it is not are put into the list.
    pub(crate) fn condition(
        &mut self,
        e: &Expression,
        misses: &mut List<u32>,
        free: u32,
    ) -> Result<(), NoMemory>
        ensures { OnOk result (ConditionSaid free (expression_seen e.now) misses.old misses.new (state_of self.old) (state_of self.new)) }
    {
        if is_true(e) {
            return self.begin();
        }
        let mut hits = List::new(self.alloc);
        self.test(e, true, &mut hits, misses, free)?;
        self.land(&hits)
    }

    /// A test, which goes on where its truth is this one. Its jumps are put into the lists: those where it is true, and those where it is not.
    #[cycle(tests)]
    pub(crate) fn test(
        &mut self,
        e: &Expression,
        goes_on: bool,
        hits: &mut List<u32>,
        misses: &mut List<u32>,
        free: u32,
    ) -> Result<(), NoMemory>
        ensures { OnOk result (TestSaid free (expression_seen e.now) goes_on hits.old hits.new misses.old misses.new (state_of self.old) (state_of self.new)) }
    {
        match e {
            Expression::And(_, _) => self.test_and(e, goes_on, hits, misses, free),
            Expression::Or(_, _) => self.test_or(e, goes_on, hits, misses, free),
            Expression::Unary(_, _, _) => self.test_unary(e, goes_on, hits, misses, free),
            Expression::Paren(a) => self.test_paren(a, goes_on, hits, misses, free),
            _ => self.test_last(e, goes_on, hits, misses, free),
        }
    }

    /// `a and b`: the second test begins where the first one is true.
    #[cycle(tests)]
    fn test_and(
        &mut self,
        e: &Expression,
        goes_on: bool,
        hits: &mut List<u32>,
        misses: &mut List<u32>,
        free: u32,
    ) -> Result<(), NoMemory>
        ensures { OnOk result (TestSaid free (expression_seen e.now) goes_on hits.old hits.new misses.old misses.new (state_of self.old) (state_of self.new)) }
    {
        match e {
            Expression::And(a, b) => {
                self.begin()?;
                let mut middle = List::new(self.alloc);
                self.test(a, true, &mut middle, misses, free)?;
                self.land(&middle)?;
                self.test(b, goes_on, hits, misses, free)
            }
            _ => Err(NoMemory),
        }
    }

    /// `a or b`: the second test begins where the first one is not true.
    #[cycle(tests)]
    fn test_or(
        &mut self,
        e: &Expression,
        goes_on: bool,
        hits: &mut List<u32>,
        misses: &mut List<u32>,
        free: u32,
    ) -> Result<(), NoMemory>
        ensures { OnOk result (TestSaid free (expression_seen e.now) goes_on hits.old hits.new misses.old misses.new (state_of self.old) (state_of self.new)) }
    {
        match e {
            Expression::Or(a, b) => {
                self.begin()?;
                let mut middle = List::new(self.alloc);
                self.test(a, false, hits, &mut middle, free)?;
                self.land(&middle)?;
                self.test(b, goes_on, hits, misses, free)
            }
            _ => Err(NoMemory),
        }
    }

    /// An operator before its operand: where it is `not`, its operand is tested, and where to go on changes places.
    #[cycle(tests)]
    fn test_unary(
        &mut self,
        e: &Expression,
        goes_on: bool,
        hits: &mut List<u32>,
        misses: &mut List<u32>,
        free: u32,
    ) -> Result<(), NoMemory>
        ensures { OnOk result (TestSaid free (expression_seen e.now) goes_on hits.old hits.new misses.old misses.new (state_of self.old) (state_of self.new)) }
    {
        match e {
            Expression::Unary(op, a, _) => match *op {
                UnaryOp::Not => {
                    self.begin()?;
                    self.test(a, !goes_on, misses, hits, free)
                }
                _ => self.test_last(e, goes_on, hits, misses, free),
            },
            _ => Err(NoMemory),
        }
    }

    /// A test in parentheses.
    #[cycle(tests)]
    fn test_paren(
        &mut self,
        a: &Expression,
        goes_on: bool,
        hits: &mut List<u32>,
        misses: &mut List<u32>,
        free: u32,
    ) -> Result<(), NoMemory>
        ensures { OnOk result (TestSaid free (ParenC (expression_seen a.now)) goes_on hits.old hits.new misses.old misses.new (state_of self.old) (state_of self.new)) }
    {
        self.begin()?;
        self.test(a, goes_on, hits, misses, free)
    }

    /// A test by one operation, whose jump is put into the list of where it leads.
    fn test_last(
        &mut self,
        e: &Expression,
        goes_on: bool,
        hits: &mut List<u32>,
        misses: &mut List<u32>,
        free: u32,
    ) -> Result<(), NoMemory>
        ensures { OnOk result (TestSaid free (expression_seen e.now) goes_on hits.old hits.new misses.old misses.new (state_of self.old) (state_of self.new)) }
    {
        let jump = self.branch(e, !goes_on, free)?;
        if goes_on {
            misses.push(jump)
        } else {
            hits.push(jump)
        }
    }

    /// A test by one operation, which jumps where its truth is this one; the place of that jump.
    fn branch(&mut self, e: &Expression, when: bool, free: u32) -> Result<u32, NoMemory>
        ensures { IfOk result (λ jump. BranchSaid free (expression_seen e.now) when (state_of self.old) (state_of self.new) jump) }
    {
        match e {
            Expression::Operate(op, a, b, line) => {
                if !is_comparison(*op) {
                    return self.truth(e, when, free);
                }
                let jump = self.comparison(*op, a, b, *line, when, free)?;
                Ok(jump)
            }
            _ => self.truth(e, when, free),
        }
    }

    /// A test of a value, which jumps where its truth is this one; the place of that jump.
    fn truth(&mut self, e: &Expression, when: bool, free: u32) -> Result<u32, NoMemory>
        ensures { IfOk result (λ jump. BranchSaid free (expression_seen e.now) when (state_of self.old) (state_of self.new) jump) }
    {
        let a = self.operand(e, free)?;
        let op = Op::Test {
            when,
            a: a.operand,
            target: OPEN,
        };
        let jump = self.jump_at(op, 0)?;
        Ok(jump)
    }

    /// A comparison, which jumps where its truth is this one; the place of that jump.
    fn comparison(
        &mut self,
        op: Operator,
        a: &Expression,
        b: &Expression,
        line: u32,
        when: bool,
        free: u32,
    ) -> Result<u32, NoMemory>
        ensures { IfOk result (λ jump. compares (operator_seen op) ≡ true → BranchSaid free (OperateC (operator_seen op) (expression_seen a.now) (expression_seen b.now) line) when (state_of self.old) (state_of self.new) jump) }
    {
        self.begin()?;
        let a = self.operand(a, free)?;
        let b = self.operand(b, a.free)?;
        let op = Op::Compare {
            op,
            a: a.operand,
            b: b.operand,
            when,
            target: OPEN,
        };
        let jump = self.jump_at(op, line)?;
        Ok(jump)
    }
}
