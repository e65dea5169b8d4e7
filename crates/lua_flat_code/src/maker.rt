//! A function's flat code while it is made.
ghost use Rattle.std.specs.Prelude.{◌≡◌, ◌<◌, ◌+◌, ◌-◌, ◌^◌, ◌∷◌, ◌++◌, [], map, Some, length, slice_get, slice_set, IfOk, OnOk};
ghost use Rattle.lua_flat.specs.Locals as locals;
ghost use Rattle.lua_flat.specs.Operations.{ConstantO, TextO};
ghost use Rattle.lua_code.specs.Seen.{place_seen};
ghost use Rattle.lua_flat_code.specs.Seen.{constant_seen, operand_seen};
ghost use Rattle.lua_flat_code.specs.Making.{state_of, local_seen, place, begun, emitted, declared, aimed, Final, Later, Reached, Settled, Captured, IsAimed, Led, AllLed};
ghost use Rattle.lua_flat_code.specs.Parts.{Keeps, ConstantSaid, CellsSaid, OriginsSaid};

use crate::op::{OPEN, Op};
use crate::operand::{Constant, MOST, Operand, Origin};
use lua_code::{List, NoMemory, Place};
use std::alloc::Global;

/// An operation with its charge, and its line.
#[derive(Clone, Copy)]
pub(crate) struct Lined {
    pub(crate) charge: u32,
    pub(crate) op: Op,
    pub(crate) line: u32,
}

/// An open local variable: its register has its value, or the number of its cell.
#[derive(Clone, Copy)]
pub(crate) enum Local {
    Plain(u32),
    Cell(u32),
}

/// A function while it is made. Constants are those of the whole module, and the rest begins anew for each function. `owed` is the steps of
/// the nodes and turns that began since the last operation. Local variables stand with the oldest first. `breaks` are the jumps out of the
/// innermost loop.
#[derive(Drop)]
pub(crate) struct Maker {
    pub(crate) alloc: Global,
    pub(crate) texts: u32,
    pub(crate) constants: List<Constant>,
    pub(crate) steps: Vec<Lined>,
    pub(crate) cells: Vec<bool>,
    pub(crate) origins: Vec<Origin>,
    pub(crate) owed: u32,
    pub(crate) registers: u32,
    pub(crate) locals: Vec<Local>,
    pub(crate) breaks: List<u32>,
}

/// A part of a list.
#[derive(Clone, Copy)]
pub(crate) struct Part {
    pub(crate) first: u32,
    pub(crate) count: u32,
}

/// A number in 32 bits, below the largest one.
pub(crate) fn short(number: usize) -> Result<u32, NoMemory>
    ensures { IfOk result (λ n. (n ≡ number) × (n < 2 ^ 32 - 1)) }
{
    if number < u32::MAX as usize {
        Ok(number as u32)
    } else {
        Err(NoMemory)
    }
}

/// The operation of a place.
fn step_at(steps: &[Lined], at: usize) -> Option<Lined>
    ensures { result ≡ slice_get steps.now at }
{
    steps.get(at).copied()
}

/// A place gets another operation. Nothing happens where there is none.
fn set_step(steps: &mut Vec<Lined>, at: usize, step: Lined)
    ensures { steps.new.items ≡ slice_set steps.old.items at step }
{
    if at < steps.len() {
        steps[at] = step;
    }
}

/// Puts an item behind all others.
fn put<T: Drop>(items: &mut Vec<T>, item: T) -> Result<(), NoMemory>
    ensures { OnOk result (items.new.items ≡ items.old.items ++ item ∷ []) }
{
    match items.push(item) {
        Ok(_) => Ok(()),
        Err(_) => Err(NoMemory),
    }
}

/// Puts items behind all others.
fn put_all<T: Copy + Drop>(items: &mut Vec<T>, more: &[T]) -> Result<(), NoMemory>
    ensures { OnOk result (items.new.items ≡ items.old.items ++ more.now) }
{
    match items.extend_from_slice(more) {
        Ok(()) => Ok(()),
        Err(_) => Err(NoMemory),
    }
}

impl Maker {
    /// One more node or turn begins. What is owed grows in an expression by no more than it has nodes, and a block pays what is much.
    pub(crate) fn begin(&mut self) -> Result<(), NoMemory>
        ensures { OnOk result (state_of self.new ≡ begun (state_of self.old)) }
    {
        if self.owed < u32::MAX {
            self.owed += 1;
            Ok(())
        } else {
            Err(NoMemory)
        }
    }

    /// An operation that no error names.
    pub(crate) fn emit(&mut self, op: Op) -> Result<(), NoMemory>
        ensures { OnOk result (state_of self.new ≡ emitted op 0 (state_of self.old)) }
    {
        self.emit_at(op, 0)
    }

    /// An operation, which pays what is owed, and its line.
    pub(crate) fn emit_at(&mut self, op: Op, line: u32) -> Result<(), NoMemory>
        ensures { OnOk result (state_of self.new ≡ emitted op line (state_of self.old)) }
    {
        let charge = self.owed;
        put(&mut self.steps, Lined { charge, op, line })?;
        self.owed = 0;
        Ok(())
    }

    /// The place of the next operation.
    pub(crate) fn place(&self) -> Result<u32, NoMemory>
        ensures { IfOk result (λ at. (at ≡ place (state_of self.now)) × (at < 2 ^ 32 - 1)) }
    {
        short(self.steps.len())
    }

    /// A jump whose target is still open; its place.
    pub(crate) fn jump_at(&mut self, op: Op, line: u32) -> Result<u32, NoMemory>
        ensures { IfOk result (λ at. (at ≡ place (state_of self.old)) × (state_of self.new ≡ emitted op line (state_of self.old))) }
    {
        let at = self.place()?;
        self.emit_at(op, line)?;
        Ok(at)
    }

    /// Nothing is owed behind it.
    #[tactic(auto, using(crate::proofs::MakingLaws::is_settled, crate::proofs::MakingLaws::is_paid))]
    pub(crate) fn settle(&mut self) -> Result<(), NoMemory>
        ensures { OnOk result (Settled (state_of self.old) (state_of self.new)) }
    {
        if self.owed == 0 {
            return Ok(());
        }
        self.emit(Op::Pay)?;
        Ok(())
    }

    /// An open jump gets its target.
    pub(crate) fn lead(&mut self, at: u32, target: u32) -> Result<(), NoMemory>
        ensures { OnOk result (Led at target (state_of self.old) (state_of self.new)) }
    {
        match step_at(self.steps.as_slice(), at as usize) {
            Some(step) => {
                let step = aimed(step, target)?;
                set_step(&mut self.steps, at as usize, step);
                Ok(())
            }
            None => Err(NoMemory),
        }
    }

    /// Open jumps lead to a place.
    #[tactic(auto, using(crate::proofs::MakingLaws::led_start, crate::proofs::MakingLaws::led_step, crate::proofs::MakingLaws::led_end))]
    pub(crate) fn lead_all(&mut self, jumps: &List<u32>, target: u32) -> Result<(), NoMemory>
        ensures { OnOk result (AllLed jumps.now target (state_of self.old) (state_of self.new)) }
    {
        for at in jumps.as_slice() {
            self.lead(*at, target)?;
        }
        Ok(())
    }

    /// Open jumps lead to the next operation.
    pub(crate) fn land(&mut self, jumps: &List<u32>) -> Result<(), NoMemory>
        ensures { OnOk result (AllLed jumps.now (place (state_of self.old)) (state_of self.old) (state_of self.new)) }
    {
        let target = self.place()?;
        self.lead_all(jumps, target)
    }

    /// There are at least so many registers.
    pub(crate) fn reach(&mut self, count: u32) -> Result<(), NoMemory>
        ensures { OnOk result (Reached count (state_of self.old) (state_of self.new)) }
    {
        if count > MOST {
            return Err(NoMemory);
        }
        if self.registers < count {
            self.registers = count;
        }
        Ok(())
    }

    /// So many registers from this one on are taken; the next behind them.
    pub(crate) fn take(&mut self, register: u32, count: u32) -> Result<u32, NoMemory>
        ensures { IfOk result (λ next. (next ≡ register + count) × Reached next (state_of self.old) (state_of self.new)) }
    {
        if register > MOST || count > MOST - register {
            return Err(NoMemory);
        }
        let next = register + count;
        self.reach(next)?;
        Ok(next)
    }

    /// A local variable, which is counted from the newest.
    fn local(&self, at: usize) -> Result<Local, NoMemory>
        ensures { IfOk result (λ l. slice_get (state_of self.now).locals at ≡ Some (local_seen l)) }
    {
        let locals = self.locals.as_slice();
        if at >= locals.len() {
            return Err(NoMemory);
        }
        Ok(locals[locals.len() - 1 - at])
    }

    /// The register of a plain local variable. Code of a text has no other one there.
    pub(crate) fn plain(&self, at: usize) -> Result<u32, NoMemory>
        ensures { IfOk result (λ r. slice_get (state_of self.now).locals at ≡ Some (locals.PlainL r)) }
    {
        match self.local(at)? {
            Local::Plain(register) => Ok(register),
            Local::Cell(_) => Err(NoMemory),
        }
    }

    /// The register that has the number of a local variable's cell.
    pub(crate) fn cell(&self, at: usize) -> Result<u32, NoMemory>
        ensures { IfOk result (λ r. slice_get (state_of self.now).locals at ≡ Some (locals.CellL r)) }
    {
        match self.local(at)? {
            Local::Cell(register) => Ok(register),
            Local::Plain(_) => Err(NoMemory),
        }
    }

    /// One more local variable.
    pub(crate) fn declare(&mut self, boxed: bool, register: u32) -> Result<(), NoMemory>
        ensures { OnOk result (state_of self.new ≡ declared (locals.local_of boxed register) (state_of self.old)) }
    {
        let local = if boxed {
            Local::Cell(register)
        } else {
            Local::Plain(register)
        };
        put(&mut self.locals, local)
    }

    /// A constant that is no text.
    pub(crate) fn constant(&mut self, constant: Constant) -> Result<Operand, NoMemory>
        ensures { IfOk result (λ o. ConstantSaid (constant_seen constant) o (state_of self.old) (state_of self.new)) }
    {
        let number = short(self.constants.as_slice().len())?;
        if self.texts > MOST || number >= MOST - self.texts {
            return Err(NoMemory);
        }
        self.constants.push(constant)?;
        let operand = Operand::constant(self.texts + number)?;
        Ok(operand)
    }

    /// A text.
    pub(crate) fn text(&self, number: u32) -> Result<Operand, NoMemory>
        ensures { IfOk result (λ o. (f : Final) → Later (state_of self.now) f → operand_seen f.tables o ≡ TextO number) }
    {
        if number < self.texts {
            Operand::constant(number)
        } else {
            Err(NoMemory)
        }
    }

    /// Which of some new variables have cells.
    pub(crate) fn flags(&mut self, flags: &[bool]) -> Result<Part, NoMemory>
        ensures { IfOk result (λ p. CellsSaid flags.now (state_of self.old) (state_of self.new) p.first p.count) }
    {
        let first = short(self.cells.len())?;
        let count = short(flags.len())?;
        put_all(&mut self.cells, flags)?;
        Ok(Part { first, count })
    }

    /// Where cells are captured from.
    pub(crate) fn captures(&mut self, places: &[Place]) -> Result<Part, NoMemory>
        ensures { IfOk result (λ p. OriginsSaid (map place_seen places.now) (state_of self.old) (state_of self.new) p.first p.count) }
    {
        let first = short(self.origins.len())?;
        for place in places {
            self.capture(*place)?;
        }
        let end = short(self.origins.len())?;
        if end < first {
            return Err(NoMemory);
        }
        Ok(Part {
            first,
            count: end - first,
        })
    }

    /// Where a cell is captured from. A plain register has none.
    #[tactic(auto, using(crate::proofs::OriginLaws::captured_nothing))]
    fn capture(&mut self, place: Place) -> Result<(), NoMemory>
        ensures { OnOk result (Captured (place_seen place) (state_of self.old) (state_of self.new)) }
    {
        match place {
            Place::Cell(at) => {
                let register = self.cell(at)?;
                put(&mut self.origins, Origin::Register(register))?;
                Ok(())
            }
            Place::Captured(at) => {
                let number = short(at)?;
                put(&mut self.origins, Origin::Captured(number))?;
                Ok(())
            }
            Place::Register(_) => Ok(()),
        }
    }
}

/// An open jump with its target.
fn aimed(step: Lined, to: u32) -> Result<Lined, NoMemory>
    ensures { IfOk result (λ l. IsAimed to step l) }
{
    if to == OPEN {
        return Err(NoMemory);
    }
    let op = match step.op {
        Op::Jump { target: OPEN } => Op::Jump { target: to },
        Op::Test {
            when,
            a,
            target: OPEN,
        } => Op::Test {
            when,
            a,
            target: to,
        },
        Op::Compare {
            op,
            a,
            b,
            when,
            target: OPEN,
        } => Op::Compare {
            op,
            a,
            b,
            when,
            target: to,
        },
        Op::CountBegins { base, target: OPEN } => Op::CountBegins { base, target: to },
        Op::EachTests { base, target: OPEN } => Op::EachTests { base, target: to },
        _ => return Err(NoMemory),
    };
    Ok(Lined {
        charge: step.charge,
        op,
        line: step.line,
    })
}
