//! Code of lists that are adjusted to a number of values (manual 2.4.3).
ghost use Rattle.std.specs.Prelude.{[], ◌∷◌, ◌++◌, OnOk};
ghost use Rattle.lua_flat.specs.LuaSlotsCode.{NoC, MoreC};
ghost use Rattle.lua_code.specs.Seen.{expression_seen, expressions_seen};
ghost use Rattle.lua_flat_code.specs.Making.{state_of};
ghost use Rattle.lua_flat_code.specs.Parts.{ExactSaid};

use crate::maker::Maker;
use crate::op::Op;
use crate::operand::Wanted;
use crate::values::is_many;
use lua_code::{Expression, NoMemory};

impl Maker {
    /// Exactly so many values of a list come to the registers from this one on.
    pub(crate) fn exact(
        &mut self,
        es: &[Expression],
        register: u32,
        count: u32,
    ) -> Result<(), NoMemory>
        ensures { OnOk result (ExactSaid register (expressions_seen es.now) count (state_of self.old) (state_of self.new)) }
    {
        match es.split_last() {
            Some((last, front)) => self.exact_of(front, last, register, count),
            None => self.nils(register, count),
        }
    }

    /// The same of a list and its last one.
    fn exact_of(
        &mut self,
        front: &[Expression],
        last: &Expression,
        register: u32,
        count: u32,
    ) -> Result<(), NoMemory>
        ensures { OnOk result (ExactSaid register (expressions_seen (front.now ++ last.now ∷ [])) count (state_of self.old) (state_of self.new)) }
    {
        let mut at = register;
        let mut missing = count;
        for e in front {
            let next = self.take(at, 1)?;
            self.value(e, at, next)?;
            if missing > 0 {
                missing -= 1;
                at = next;
            }
        }
        self.exact_last(last, at, missing)
    }

    /// The last value of a list, or its last values, where so many are missing.
    fn exact_last(&mut self, e: &Expression, register: u32, missing: u32) -> Result<(), NoMemory>
        ensures { OnOk result (ExactSaid register (MoreC (expression_seen e.now) NoC) missing (state_of self.old) (state_of self.new)) }
    {
        if is_many(e) {
            let wanted = Wanted::exactly(missing)?;
            self.reach(register)?;
            return self.many(e, register, wanted, register);
        }
        let next = self.take(register, 1)?;
        self.value(e, register, next)?;
        if missing > 1 {
            return self.nils(next, missing - 1);
        }
        Ok(())
    }

    /// So many registers from this one on become nil.
    fn nils(&mut self, to: u32, count: u32) -> Result<(), NoMemory>
        ensures { OnOk result (ExactSaid to NoC count (state_of self.old) (state_of self.new)) }
    {
        if count > 0 {
            self.take(to, count)?;
            return self.emit(Op::Nils { to, count });
        }
        Ok(())
    }
}
