//! Code of statements and blocks. One cycle with `choices` and `loops`. Its depth is that of the tree; lists are loops.
ghost use Rattle.std.specs.Prelude.{◌≡◌, ℕ, [], map, length, IfSome, IfOk, OnOk};
ghost use Rattle.lua_flat.specs.LuaSlotsCode.{Reg, LocalC, NoC, MoreC, CBlock, EndC, DeclareC, LocalFunctionC, CallStatC, ReturnC, BreakC};
ghost use Rattle.lua_flat.specs.IsStatement.{is_any as any};
ghost use Rattle.lua_code.specs.Seen.{place_seen, expression_seen, expressions_seen, statement_seen, block_seen};
ghost use Rattle.lua_flat_code.specs.Making.{state_of, place, closed, with_breaks, AllLed, Relieved};
ghost use Rattle.lua_flat_code.specs.Parts.{OpenSaid, RowDeclared, BlockSoFar};
ghost use Rattle.lua_flat_code.specs.Whole.{BegunStat, BegunPart, BlockSaid};

use crate::maker::{Maker, short};
use crate::op::{OPEN, Op};
use crate::operand::Wanted;
use crate::values::is_many;
use lua_code::{Expression, List, NoMemory, Place, Statement};

/// A block pays before a statement where so much is owed.
const MUCH: u32 = 1 << 16;

/// Whether one of them is true.
fn is_any(flags: &[bool]) -> bool
    ensures { result ≡ any flags.now }
{
    let mut left = flags;
    'flags: while let Some((first, rest)) = left.split_first() {
        if *first {
            return true;
        }
        left = rest;
    }
    false
}

/// Where a plain local variable stands, if the list has it alone.
fn plain_place(values: &[Expression]) -> Option<usize>
    ensures { IfSome result (λ at. expressions_seen values.now ≡ MoreC (LocalC (Reg at)) NoC) }
{
    if values.len() != 1 {
        return None;
    }
    plain_of(&values[0])
}

/// Where it stands, if it is a plain local variable.
fn plain_of(e: &Expression) -> Option<usize>
    ensures { IfSome result (λ at. expression_seen e.now ≡ LocalC (Reg at)) }
{
    match e {
        Expression::Local(place) => plain_at(*place),
        _ => None,
    }
}

/// The number of a plain register.
fn plain_at(place: Place) -> Option<usize>
    ensures { IfSome result (λ at. place_seen place ≡ Reg at) }
{
    match place {
        Place::Register(at) => Some(at),
        _ => None,
    }
}

impl Maker {
    /// Code of a block, whose variables are closed behind it.
    #[cycle(parts)]
    pub(crate) fn block(&mut self, body: &[Statement], free: u32) -> Result<(), NoMemory>
        ensures { OnOk result (BlockSaid free (block_seen body.now) (state_of self.old) (state_of self.new)) }
    {
        let count = self.opened();
        self.statements(body, free)?;
        self.close(count);
        Ok(())
    }

    /// How many local variables are open.
    pub(crate) fn opened(&self) -> usize
        ensures { result ≡ length (state_of self.now).locals }
    {
        self.locals.as_slice().len()
    }

    /// Only the oldest so many local variables are left.
    pub(crate) fn close(&mut self, count: usize)
        ensures { state_of self.new ≡ closed count (state_of self.old) }
    {
        self.locals.truncate(count);
    }

    /// Code of statements, whose variables stay open; the next free register.
    #[cycle(parts)]
    pub(crate) fn statements(&mut self, body: &[Statement], free: u32) -> Result<u32, NoMemory>
        ensures { IfOk result (λ next. BlockSoFar free (block_seen body.now) EndC (state_of self.old) (state_of self.new) next) }
    {
        let mut at = free;
        for statement in body {
            self.relieve()?;
            at = self.statement(statement, at)?;
        }
        Ok(at)
    }

    /// What is owed is paid if it is much.
    #[tactic(auto, using(crate::proofs::MakingLaws::relieved_same, crate::proofs::MakingLaws::relieved_paid))]
    fn relieve(&mut self) -> Result<(), NoMemory>
        ensures { OnOk result (Relieved (state_of self.old) (state_of self.new)) }
    {
        if self.owed < MUCH {
            return Ok(());
        }
        self.emit(Op::Pay)?;
        Ok(())
    }

    /// Code of a statement; the next free register.
    #[cycle(parts)]
    fn statement(&mut self, statement: &Statement, free: u32) -> Result<u32, NoMemory>
        ensures { IfOk result (λ next. (rest : CBlock) → BlockSoFar free (statement_seen statement.now rest) rest (state_of self.old) (state_of self.new) next) }
    {
        self.begin()?;
        match statement {
            Statement::Declare(flags, values) => {
                let next = self.declaration(flags.as_slice(), values.as_slice(), free)?;
                Ok(next)
            }
            Statement::LocalFunction(boxed, index, places) => {
                let next = self.local_function(*boxed, *index, places.as_slice(), free)?;
                Ok(next)
            }
            _ => {
                self.unnamed(statement, free)?;
                Ok(free)
            }
        }
    }

    /// Code of a statement that opens no variable.
    #[cycle(parts)]
    fn unnamed(&mut self, statement: &Statement, free: u32) -> Result<(), NoMemory>
        ensures { OnOk result (BegunPart free (statement_seen statement.now) (state_of self.old) (state_of self.new) free) }
    {
        match statement {
            Statement::Assign(targets, values) => {
                self.assign(targets.as_slice(), values.as_slice(), free)
            }
            Statement::Call(e) => self.alone(e, free),
            Statement::Do(body) => self.block(body.as_slice(), free),
            Statement::If(_, _) => self.choice(statement, free),
            Statement::Return(values) => self.give(values.as_slice(), free),
            Statement::Break => self.leave(),
            Statement::While(_, _)
            | Statement::Repeat(_, _)
            | Statement::Count(_, _, _, _, _, _)
            | Statement::Each(_, _, _, _) => self.repeated(statement, free),
            // `statement` has these
            Statement::Declare(_, _) | Statement::LocalFunction(_, _, _) => Err(NoMemory),
        }
    }

    /// A call by itself. No chunk has another expression there.
    fn alone(&mut self, e: &Expression, free: u32) -> Result<(), NoMemory>
        ensures { OnOk result (BegunStat free (CallStatC (expression_seen e.now)) (state_of self.old) (state_of self.new)) }
    {
        if is_many(e) {
            let wanted = Wanted::exactly(0)?;
            return self.many(e, free, wanted, free);
        }
        let next = self.take(free, 1)?;
        self.value(e, free, next)
    }

    /// `return values`. A plain variable is given from its own register.
    fn give(&mut self, values: &[Expression], free: u32) -> Result<(), NoMemory>
        ensures { OnOk result (BegunStat free (ReturnC (expressions_seen values.now)) (state_of self.old) (state_of self.new)) }
    {
        match plain_place(values) {
            Some(at) => self.give_plain(at),
            None => {
                let count = self.row(values, free)?;
                self.emit(Op::Return { from: free, count })
            }
        }
    }

    /// A plain variable is returned.
    fn give_plain(&mut self, at: usize) -> Result<(), NoMemory>
        ensures { OnOk result ((free : ℕ) → BegunStat free (ReturnC (MoreC (LocalC (Reg at)) NoC)) (state_of self.old) (state_of self.new)) }
    {
        self.begin()?;
        let from = self.plain(at)?;
        let count = Wanted::exactly(1)?;
        self.emit(Op::Return { from, count })
    }

    /// `break`
    fn leave(&mut self) -> Result<(), NoMemory>
        ensures { OnOk result ((free : ℕ) → BegunStat free BreakC (state_of self.old) (state_of self.new)) }
    {
        let jump = self.jump_at(Op::Jump { target: OPEN }, 0)?;
        self.breaks.push(jump)
    }

    /// `local names = values`; the next free register.
    fn declaration(
        &mut self,
        flags: &[bool],
        values: &[Expression],
        free: u32,
    ) -> Result<u32, NoMemory>
        ensures { IfOk result (λ next. BegunPart free (DeclareC flags.now (expressions_seen values.now)) (state_of self.old) (state_of self.new) next) }
    {
        let count = short(flags.len())?;
        self.exact(values, free, count)?;
        self.open(flags, free)?;
        let next = self.declare_row(flags, free)?;
        Ok(next)
    }

    /// The values in the registers from this one on become variables: an operation where some have cells.
    pub(crate) fn open(&mut self, flags: &[bool], at: u32) -> Result<(), NoMemory>
        ensures { OnOk result (OpenSaid flags.now at (state_of self.old) (state_of self.new)) }
    {
        if is_any(flags) {
            let part = self.flags(flags)?;
            return self.emit(Op::Open {
                at,
                first: part.first,
                count: part.count,
            });
        }
        Ok(())
    }

    /// Local variables in the registers from this one on; the next register.
    pub(crate) fn declare_row(&mut self, flags: &[bool], register: u32) -> Result<u32, NoMemory>
        ensures { IfOk result (λ next. RowDeclared register flags.now (state_of self.old) (state_of self.new) next) }
    {
        self.reach(register)?;
        let mut at = register;
        for boxed in flags {
            self.declare(*boxed, at)?;
            at = self.take(at, 1)?;
        }
        Ok(at)
    }

    /// `local function name .. end`, which may capture its own variable; the next free register.
    fn local_function(
        &mut self,
        boxed: bool,
        index: u32,
        places: &[Place],
        free: u32,
    ) -> Result<u32, NoMemory>
        ensures { IfOk result (λ next. BegunPart free (LocalFunctionC boxed index (map place_seen places.now)) (state_of self.old) (state_of self.new) next) }
    {
        let next = self.take(free, 1)?;
        self.declare(boxed, free)?;
        let part = self.captures(places)?;
        self.emit(Op::Named {
            boxed,
            to: free,
            index,
            first: part.first,
            count: part.count,
        })?;
        Ok(next)
    }

    /// Jumps out of a loop, while no other loop is inside.
    pub(crate) fn enter_loop(&mut self) -> List<u32>
        ensures jumps { result ≡ (state_of self.old).breaks }
        ensures state { state_of self.new ≡ with_breaks [] (state_of self.old) }
    {
        std::mem::replace(&mut self.breaks, List::new(self.alloc))
    }

    /// A loop ends at the next operation, and the one around it goes on.
    pub(crate) fn leave_loop(&mut self, outer: List<u32>) -> Result<(), NoMemory>
        ensures { OnOk result (AllLed (state_of self.old).breaks (place (state_of self.old)) (with_breaks outer (state_of self.old)) (state_of self.new)) }
    {
        let breaks = std::mem::replace(&mut self.breaks, outer);
        self.land(&breaks)
    }
}
