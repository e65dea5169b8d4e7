//! Code of what may give several values, and of lists. One cycle with `values`.
ghost use Rattle.std.specs.Prelude.{IfOk, OnOk};
ghost use Rattle.lua_flat.specs.LuaSlotsCode.{MoreC, NoC};
ghost use Rattle.lua_code.specs.Seen.{expression_seen, expressions_seen};
ghost use Rattle.lua_flat_code.specs.Making.{state_of};
ghost use Rattle.lua_flat_code.specs.Parts.{ManySaid, MethodSaid, RowSaid, RowEndSaid};

use crate::maker::Maker;
use crate::op::Op;
use crate::operand::Wanted;
use crate::values::is_many;
use lua_code::{Expression, NoMemory};

impl Maker {
    /// So many values of a call or of `...` come to the registers from `to` on.
    #[cycle(values)]
    pub(crate) fn many(
        &mut self,
        e: &Expression,
        to: u32,
        wanted: Wanted,
        free: u32,
    ) -> Result<(), NoMemory>
        ensures { OnOk result (ManySaid free (expression_seen e.now) to wanted (state_of self.old) (state_of self.new)) }
    {
        match e {
            Expression::Dots => {
                self.begin()?;
                self.emit(Op::Dots { to, wanted })
            }
            Expression::Call(_, _, _) => self.call(e, to, wanted, free),
            Expression::Method(_, _, _, _) => self.method_call(e, to, wanted, free),
            _ => Err(NoMemory),
        }
    }

    /// `of:name(arguments)`
    #[cycle(values)]
    fn method_call(
        &mut self,
        e: &Expression,
        to: u32,
        wanted: Wanted,
        free: u32,
    ) -> Result<(), NoMemory>
        ensures { OnOk result (ManySaid free (expression_seen e.now) to wanted (state_of self.old) (state_of self.new)) }
    {
        match e {
            Expression::Method(of, name, arguments, line) => {
                let base = self.method(of, *name, *line, free)?;
                let row = self.row(arguments.as_slice(), base)?;
                let all = row.one_more()?;
                let op = Op::Call {
                    to,
                    base: free,
                    arguments: all,
                    results: wanted,
                };
                self.emit_at(op, *line)
            }
            _ => Err(NoMemory),
        }
    }

    /// `f(arguments)`: the function comes to the first free register, and the arguments behind it.
    #[cycle(values)]
    fn call(&mut self, e: &Expression, to: u32, wanted: Wanted, free: u32) -> Result<(), NoMemory>
        ensures { OnOk result (ManySaid free (expression_seen e.now) to wanted (state_of self.old) (state_of self.new)) }
    {
        match e {
            Expression::Call(f, arguments, line) => {
                self.begin()?;
                let next = self.take(free, 1)?;
                self.value(f, free, next)?;
                let row = self.row(arguments.as_slice(), next)?;
                let op = Op::Call {
                    to,
                    base: free,
                    arguments: row,
                    results: wanted,
                };
                self.emit_at(op, *line)
            }
            _ => Err(NoMemory),
        }
    }

    /// The function `of:name` comes to the first free register, and its object behind it. The next register behind them.
    #[cycle(values)]
    fn method(&mut self, of: &Expression, name: u32, line: u32, free: u32) -> Result<u32, NoMemory>
        ensures { IfOk result (λ next. MethodSaid free (expression_seen of.now) name line (state_of self.old) (state_of self.new) next) }
    {
        self.begin()?;
        let next = self.take(free, 2)?;
        let of = self.operand(of, next - 1)?;
        let op = Op::Method {
            to: free,
            of: of.operand,
            name,
        };
        self.emit_at(op, line)?;
        Ok(next)
    }

    /// A list with all its values comes to the registers from this one on; how many there are.
    #[cycle(values)]
    pub(crate) fn row(&mut self, es: &[Expression], register: u32) -> Result<Wanted, NoMemory>
        ensures { IfOk result (λ count. RowSaid register (expressions_seen es.now) (state_of self.old) (state_of self.new) count) }
    {
        let mut at = register;
        let mut left = es.len();
        for e in es {
            left -= 1;
            if left == 0 {
                let before = at - register;
                let count = self.row_last(e, at, before)?;
                return Ok(count);
            }
            let next = self.take(at, 1)?;
            self.value(e, at, next)?;
            at = next;
        }
        // there was none
        let done = at - register;
        let count = Wanted::exactly(done)?;
        Ok(count)
    }

    /// The last value of a list, or all its last values, behind so many.
    #[cycle(values)]
    fn row_last(&mut self, e: &Expression, at: u32, before: u32) -> Result<Wanted, NoMemory>
        ensures { IfOk result (λ count. RowEndSaid at before (MoreC (expression_seen e.now) NoC) (state_of self.old) (state_of self.new) count) }
    {
        if is_many(e) {
            let all = Wanted::every();
            self.reach(at)?;
            self.many(e, at, all, at)?;
            return Ok(all);
        }
        let others = Wanted::exactly(before)?;
        let next = self.take(at, 1)?;
        self.value(e, at, next)?;
        let count = others.one_more()?;
        Ok(count)
    }
}
