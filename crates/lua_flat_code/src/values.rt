//! Code of expressions. One cycle with `calls` and `constructors`. Its depth is that of the tree; lists are loops.
ghost use Rattle.std.specs.Prelude.{◌≡◌, ℕ, true, map, IfOk, OnOk};
ghost use Rattle.lua_flat.specs.LuaSlotsCode.{ConstantC, TextC, LocalC, FunctionC, GlobalC, UnaryC, ParenC};
ghost use Rattle.lua_code.specs.Seen.{place_seen, expression_seen};
ghost use Rattle.lua_flat_code.specs.Seen.{constant_seen};
ghost use Rattle.lua_flat_code.specs.Making.{state_of};
ghost use Rattle.lua_flat_code.specs.Parts.{is_many as has_many, ThereOrNot, OperandSaid, ValueSaid};

use crate::maker::{Maker, short};
use crate::op::{OPEN, Op};
use crate::operand::{Constant, Operand, Wanted};
use lua_code::{Expression, NoMemory, Place};
use lua_syntax::UnaryOp;

/// An operand, and the next register that is free behind it.
#[derive(Clone, Copy)]
pub(crate) struct Read {
    pub(crate) operand: Operand,
    pub(crate) free: u32,
}

/// Whether it may give several values.
pub(crate) fn is_many(e: &Expression) -> bool
    ensures { result ≡ has_many (expression_seen e.now) }
{
    match e {
        Expression::Dots => true,
        Expression::Call(_, _, _) => true,
        Expression::Method(_, _, _, _) => true,
        Expression::Nil => false,
        Expression::Truth(_) => false,
        Expression::Number(_) => false,
        Expression::Text(_) => false,
        Expression::Function(_, _) => false,
        Expression::Local(_) => false,
        Expression::Global(_, _) => false,
        Expression::Index(_, _, _) => false,
        Expression::Table(_, _) => false,
        Expression::And(_, _) => false,
        Expression::Or(_, _) => false,
        Expression::Operate(_, _, _, _) => false,
        Expression::Unary(_, _, _) => false,
        Expression::Paren(_) => false,
    }
}

impl Maker {
    /// What is read where it stands: a plain variable, a constant and a text.
    fn there(&mut self, e: &Expression) -> Result<Option<Operand>, NoMemory>
        ensures { IfOk result (λ o. ThereOrNot (expression_seen e.now) (state_of self.old) (state_of self.new) o) }
    {
        match e {
            Expression::Local(place) => self.variable_there(*place),
            Expression::Nil => self.constant_there(Constant::Nil),
            Expression::Truth(truth) => self.constant_there(Constant::Truth(*truth)),
            Expression::Number(number) => self.constant_there(Constant::Number(*number)),
            Expression::Text(number) => self.text_there(*number),
            _ => Ok(None),
        }
    }

    /// A plain variable.
    fn variable_there(&self, place: Place) -> Result<Option<Operand>, NoMemory>
        ensures { IfOk result (λ o. ThereOrNot (LocalC (place_seen place)) (state_of self.now) (state_of self.now) o) }
    {
        match place {
            Place::Register(at) => {
                let register = self.plain(at)?;
                let operand = Operand::register(register)?;
                Ok(Some(operand))
            }
            Place::Cell(_) => Ok(None),
            Place::Captured(_) => Ok(None),
        }
    }

    /// A constant that is no text.
    fn constant_there(&mut self, constant: Constant) -> Result<Option<Operand>, NoMemory>
        ensures { IfOk result (λ o. ThereOrNot (ConstantC (constant_seen constant)) (state_of self.old) (state_of self.new) o) }
    {
        let operand = self.constant(constant)?;
        Ok(Some(operand))
    }

    /// A text.
    fn text_there(&self, number: u32) -> Result<Option<Operand>, NoMemory>
        ensures { IfOk result (λ o. ThereOrNot (TextC number) (state_of self.now) (state_of self.now) o) }
    {
        let operand = self.text(number)?;
        Ok(Some(operand))
    }

    /// What is read where it stands, or a value that is made in a register of its own.
    #[cycle(values)]
    pub(crate) fn operand(&mut self, e: &Expression, free: u32) -> Result<Read, NoMemory>
        ensures { IfOk result (λ r. OperandSaid free (expression_seen e.now) (state_of self.old) (state_of self.new) r.operand r.free) }
    {
        match self.there(e)? {
            Some(operand) => {
                self.begin()?;
                Ok(Read { operand, free })
            }
            None => self.made_operand(e, free),
        }
    }

    /// A value that is made in a register of its own.
    #[cycle(values)]
    fn made_operand(&mut self, e: &Expression, free: u32) -> Result<Read, NoMemory>
        ensures { IfOk result (λ r. OperandSaid free (expression_seen e.now) (state_of self.old) (state_of self.new) r.operand r.free) }
    {
        let next = self.take(free, 1)?;
        self.made(e, free, next)?;
        let operand = Operand::register(free)?;
        Ok(Read {
            operand,
            free: next,
        })
    }

    /// The first value of an expression comes to a register. Registers from `free` on may be written.
    #[cycle(values)]
    pub(crate) fn value(&mut self, e: &Expression, to: u32, free: u32) -> Result<(), NoMemory>
        ensures { OnOk result (ValueSaid free (expression_seen e.now) to (state_of self.old) (state_of self.new)) }
    {
        match self.there(e)? {
            Some(from) => {
                self.begin()?;
                self.emit(Op::Load { to, from })
            }
            None => self.made(e, to, free),
        }
    }

    /// The same of what is not read where it stands.
    #[cycle(values)]
    fn made(&mut self, e: &Expression, to: u32, free: u32) -> Result<(), NoMemory>
        ensures { OnOk result (ValueSaid free (expression_seen e.now) to (state_of self.old) (state_of self.new)) }
    {
        if is_many(e) {
            return self.first_of_many(e, to, free);
        }
        match e {
            Expression::Local(place) => self.variable(*place, to),
            Expression::Global(name, line) => self.global(*name, *line, to),
            Expression::Function(index, places) => self.closure(*index, places.as_slice(), to),
            Expression::Index(_, _, _) => self.index(e, to, free),
            Expression::Operate(_, _, _, _) => self.operate(e, to, free),
            Expression::Unary(op, a, line) => self.unary(*op, a, *line, to, free),
            Expression::And(_, _) => self.and_value(e, to, free),
            Expression::Or(_, _) => self.or_value(e, to, free),
            Expression::Paren(a) => self.first(a, to, free),
            Expression::Table(entries, line) => self.table(entries.as_slice(), *line, to, free),
            // the others are read where they stand
            _ => Err(NoMemory),
        }
    }

    /// The first of several values.
    #[cycle(values)]
    fn first_of_many(&mut self, e: &Expression, to: u32, free: u32) -> Result<(), NoMemory>
        ensures { OnOk result (has_many (expression_seen e.now) ≡ true → ValueSaid free (expression_seen e.now) to (state_of self.old) (state_of self.new)) }
    {
        let wanted = Wanted::exactly(1)?;
        self.many(e, to, wanted, free)
    }

    /// The value of a variable in a cell.
    fn variable(&mut self, place: Place, to: u32) -> Result<(), NoMemory>
        ensures { OnOk result ((free : ℕ) → ValueSaid free (LocalC (place_seen place)) to (state_of self.old) (state_of self.new)) }
    {
        self.begin()?;
        match place {
            Place::Cell(at) => {
                let cell = self.cell(at)?;
                self.emit(Op::GetCell { to, cell })
            }
            Place::Captured(at) => {
                let captured = short(at)?;
                self.emit(Op::GetUp { to, captured })
            }
            Place::Register(_) => Err(NoMemory),
        }
    }

    /// The value of a global variable.
    fn global(&mut self, name: u32, line: u32, to: u32) -> Result<(), NoMemory>
        ensures { OnOk result ((free : ℕ) → ValueSaid free (GlobalC name line) to (state_of self.old) (state_of self.new)) }
    {
        self.begin()?;
        self.emit_at(Op::GetGlobal { to, name }, line)
    }

    /// A new function.
    fn closure(&mut self, index: u32, places: &[Place], to: u32) -> Result<(), NoMemory>
        ensures { OnOk result ((free : ℕ) → ValueSaid free (FunctionC index (map place_seen places.now)) to (state_of self.old) (state_of self.new)) }
    {
        self.begin()?;
        let part = self.captures(places)?;
        self.emit(Op::Closure {
            to,
            index,
            first: part.first,
            count: part.count,
        })
    }

    /// `of[key]`
    #[cycle(values)]
    fn index(&mut self, e: &Expression, to: u32, free: u32) -> Result<(), NoMemory>
        ensures { OnOk result (ValueSaid free (expression_seen e.now) to (state_of self.old) (state_of self.new)) }
    {
        match e {
            Expression::Index(of, key, line) => {
                self.begin()?;
                let of = self.operand(of, free)?;
                let key = self.operand(key, of.free)?;
                let op = Op::Index {
                    to,
                    of: of.operand,
                    key: key.operand,
                };
                self.emit_at(op, *line)
            }
            _ => Err(NoMemory),
        }
    }

    /// An operator whose operands are both evaluated.
    #[cycle(values)]
    fn operate(&mut self, e: &Expression, to: u32, free: u32) -> Result<(), NoMemory>
        ensures { OnOk result (ValueSaid free (expression_seen e.now) to (state_of self.old) (state_of self.new)) }
    {
        match e {
            Expression::Operate(which, a, b, line) => {
                self.begin()?;
                let a = self.operand(a, free)?;
                let b = self.operand(b, a.free)?;
                let op = Op::Operate {
                    op: *which,
                    to,
                    a: a.operand,
                    b: b.operand,
                };
                self.emit_at(op, *line)
            }
            _ => Err(NoMemory),
        }
    }

    /// An operator before its operand.
    #[cycle(values)]
    fn unary(
        &mut self,
        op: UnaryOp,
        a: &Expression,
        line: u32,
        to: u32,
        free: u32,
    ) -> Result<(), NoMemory>
        ensures { OnOk result (ValueSaid free (UnaryC op (expression_seen a.now) line) to (state_of self.old) (state_of self.new)) }
    {
        self.begin()?;
        let a = self.operand(a, free)?;
        let op = Op::Unary {
            op,
            to,
            a: a.operand,
        };
        self.emit_at(op, line)
    }

    /// `and`: the first operand stays where it is false.
    #[cycle(values)]
    fn and_value(&mut self, e: &Expression, to: u32, free: u32) -> Result<(), NoMemory>
        ensures { OnOk result (ValueSaid free (expression_seen e.now) to (state_of self.old) (state_of self.new)) }
    {
        match e {
            Expression::And(a, b) => {
                self.begin()?;
                self.value(a, to, free)?;
                let test = Op::Test {
                    when: false,
                    a: Operand::register(to)?,
                    target: OPEN,
                };
                let jump = self.jump_at(test, 0)?;
                self.value(b, to, free)?;
                let end = self.place()?;
                self.lead(jump, end)
            }
            _ => Err(NoMemory),
        }
    }

    /// `or`: the first operand stays where it is true.
    #[cycle(values)]
    fn or_value(&mut self, e: &Expression, to: u32, free: u32) -> Result<(), NoMemory>
        ensures { OnOk result (ValueSaid free (expression_seen e.now) to (state_of self.old) (state_of self.new)) }
    {
        match e {
            Expression::Or(a, b) => {
                self.begin()?;
                self.value(a, to, free)?;
                let test = Op::Test {
                    when: true,
                    a: Operand::register(to)?,
                    target: OPEN,
                };
                let jump = self.jump_at(test, 0)?;
                self.value(b, to, free)?;
                let end = self.place()?;
                self.lead(jump, end)
            }
            _ => Err(NoMemory),
        }
    }

    /// An expression in parentheses, which has one value.
    #[cycle(values)]
    fn first(&mut self, a: &Expression, to: u32, free: u32) -> Result<(), NoMemory>
        ensures { OnOk result (ValueSaid free (ParenC (expression_seen a.now)) to (state_of self.old) (state_of self.new)) }
    {
        self.begin()?;
        self.value(a, to, free)
    }
}
