//! Code of loops. One cycle with `statements`. Nothing is owed at the top of a loop.
ghost use Rattle.std.specs.Prelude.{OnOk};
ghost use Rattle.lua_flat.specs.LuaSlotsCode.{WhileC, RepeatC};
ghost use Rattle.lua_code.specs.Seen.{expression_seen, expressions_seen, statement_seen, block_seen};
ghost use Rattle.lua_flat_code.specs.Making.{state_of};
ghost use Rattle.lua_flat_code.specs.Whole.{step_seen, BegunStat, BegunPart, CountSaid, CountLoopSaid, UntilSaid, TurnSaid, EachSaid, EachLoopSaid};

use crate::maker::{Maker, short};
use crate::op::{OPEN, Op};
use crate::operand::Constant;
use lua_code::{Expression, List, NoMemory, Statement};

impl Maker {
    /// Code of a loop.
    #[cycle(parts)]
    pub(crate) fn repeated(&mut self, statement: &Statement, free: u32) -> Result<(), NoMemory>
        ensures { OnOk result (BegunPart free (statement_seen statement.now) (state_of self.old) (state_of self.new) free) }
    {
        match statement {
            Statement::While(test, body) => self.while_loop(body.as_slice(), test, free),
            Statement::Repeat(body, test) => self.repeat_loop(body.as_slice(), test, free),
            Statement::Count(boxed, from, to, by, body, line) => {
                self.count_values(from, to, by, free)?;
                self.count_loop(*boxed, body.as_slice(), *line, free)
            }
            Statement::Each(flags, values, body, line) => {
                self.each_values(values.as_slice(), free)?;
                self.each_loop(flags.as_slice(), body.as_slice(), *line, free)
            }
            _ => Err(NoMemory),
        }
    }

    /// `while test do .. end`
    #[cycle(parts)]
    fn while_loop(
        &mut self,
        body: &[Statement],
        test: &Expression,
        free: u32,
    ) -> Result<(), NoMemory>
        ensures { OnOk result (BegunStat free (WhileC (expression_seen test.now) (block_seen body.now)) (state_of self.old) (state_of self.new)) }
    {
        self.emit(Op::Pay)?;
        let top = self.place()?;
        let mut misses = List::new(self.alloc);
        self.condition(test, &mut misses, free)?;
        self.begin()?;
        let outer = self.enter_loop();
        self.block(body, free)?;
        self.emit(Op::Jump { target: top })?;
        self.land(&misses)?;
        self.leave_loop(outer)
    }

    /// `repeat .. until test`, where the test sees the variables of the body.
    #[cycle(parts)]
    fn repeat_loop(
        &mut self,
        body: &[Statement],
        test: &Expression,
        free: u32,
    ) -> Result<(), NoMemory>
        ensures { OnOk result (BegunStat free (RepeatC (block_seen body.now) (expression_seen test.now)) (state_of self.old) (state_of self.new)) }
    {
        self.emit(Op::Pay)?;
        let top = self.place()?;
        self.begin()?;
        let count = self.opened();
        let outer = self.enter_loop();
        let inner = self.statements(body, free)?;
        self.until(test, top, inner)?;
        self.close(count);
        self.leave_loop(outer)
    }

    /// The test at the end of a loop, which jumps to the top where it is not true.
    fn until(&mut self, test: &Expression, top: u32, free: u32) -> Result<(), NoMemory>
        ensures { OnOk result (UntilSaid free (expression_seen test.now) top (state_of self.old) (state_of self.new)) }
    {
        let mut hits = List::new(self.alloc);
        let mut misses = List::new(self.alloc);
        self.test(test, true, &mut hits, &mut misses, free)?;
        self.land(&hits)?;
        self.lead_all(&misses, top)
    }

    /// The index, the limit and the step of a counting loop come to three registers, and its variable has the one behind them.
    fn count_values(
        &mut self,
        from: &Expression,
        to: &Expression,
        by: &Option<Box<Expression>>,
        free: u32,
    ) -> Result<(), NoMemory>
        ensures { OnOk result (CountSaid free (expression_seen from.now) (expression_seen to.now) (step_seen by.now) (state_of self.old) (state_of self.new)) }
    {
        let end = self.take(free, 4)?;
        self.value(from, free, end - 3)?;
        self.value(to, end - 3, end - 2)?;
        match by {
            Some(by) => { self.value(by, end - 2, end - 1) }
            None => {
                let from = self.constant(Constant::Number(1))?;
                self.emit(Op::Load { to: end - 2, from })
            }
        }
    }

    /// `for name = .. do .. end`, with its values in registers.
    #[cycle(parts)]
    fn count_loop(
        &mut self,
        boxed: bool,
        body: &[Statement],
        line: u32,
        base: u32,
    ) -> Result<(), NoMemory>
        ensures { OnOk result (CountLoopSaid boxed (block_seen body.now) line base (state_of self.old) (state_of self.new)) }
    {
        let begins = self.jump_at(Op::CountBegins { base, target: OPEN }, line)?;
        let top = self.place()?;
        self.begin()?;
        let outer = self.enter_loop();
        let flags = [boxed];
        let names = self.take(base, 3)?;
        self.turn(&flags, body, names)?;
        self.emit(Op::CountGoesOn { base, target: top })?;
        let end = self.place()?;
        self.lead(begins, end)?;
        self.leave_loop(outer)
    }

    /// The body of a loop with its variables in the registers from this one on.
    #[cycle(parts)]
    fn turn(&mut self, flags: &[bool], body: &[Statement], names: u32) -> Result<(), NoMemory>
        ensures { OnOk result (TurnSaid flags.now names (block_seen body.now) (state_of self.old) (state_of self.new)) }
    {
        let count = self.opened();
        self.open(flags, names)?;
        let free = self.declare_row(flags, names)?;
        self.block(body, free)?;
        self.close(count);
        Ok(())
    }

    /// The iterator, the state and the value before come to three registers.
    fn each_values(&mut self, values: &[Expression], free: u32) -> Result<(), NoMemory>
        ensures { OnOk result (EachSaid free (expressions_seen values.now) (state_of self.old) (state_of self.new)) }
    {
        self.exact(values, free, 3)?;
        self.settle()
    }

    /// `for names in .. do .. end`, with its values in registers.
    #[cycle(parts)]
    fn each_loop(
        &mut self,
        flags: &[bool],
        body: &[Statement],
        line: u32,
        base: u32,
    ) -> Result<(), NoMemory>
        ensures { OnOk result (EachLoopSaid flags.now (block_seen body.now) line base (state_of self.old) (state_of self.new)) }
    {
        let count = short(flags.len())?;
        if count == 0 {
            return Err(NoMemory);
        }
        let top = self.place()?;
        self.emit_at(Op::EachCalls { base, count }, line)?;
        let tests = self.jump_at(Op::EachTests { base, target: OPEN }, 0)?;
        let names = self.take(base, 3)?;
        self.begin()?;
        let outer = self.enter_loop();
        self.turn(flags, body, names)?;
        self.emit(Op::Jump { target: top })?;
        let end = self.place()?;
        self.lead(tests, end)?;
        self.leave_loop(outer)
    }
}
