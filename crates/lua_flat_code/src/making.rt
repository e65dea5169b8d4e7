//! Flat code of a module.
ghost use Rattle.std.specs.Prelude.{◌≡◌, [], map, IfOk, OnOk};
ghost use Rattle.lua_code.specs.Seen.{proto_seen};
ghost use Rattle.lua_flat_code.specs.Making.{state_of, empty, step_of, line_of};
ghost use Rattle.lua_flat_code.specs.Whole.{CodeSaid, Finished, FunctionSaid, FunctionsSaid, IsMade};

use crate::function::{Function, Functions};
use crate::maker::{Lined, Maker};
use crate::op::{Op, Step};
use crate::operand::{MOST, Wanted};
use lua_code::{List, NoMemory, Proto, Protos};
use std::alloc::Global;

/// A copy with no more room than it needs.
fn copied<T: Copy + Drop>(alloc: Global, items: &[T]) -> Result<List<T>, NoMemory>
    ensures { IfOk result (λ list. list ≡ items.now) }
{
    match Vec::from_slice(alloc, items) {
        Ok(items) => Ok(List::of_vec(items)),
        Err(_) => Err(NoMemory),
    }
}

/// No items, with room for so many.
fn with_room<T>(alloc: Global, count: usize) -> Result<List<T>, NoMemory>
    ensures { IfOk result (λ items. items ≡ []) }
{
    match Vec::with_capacity(alloc, count) {
        Ok(items) => Ok(List::of_vec(items)),
        Err(_) => Err(NoMemory),
    }
}

/// The steps of a function.
fn steps_of(alloc: Global, lined: &[Lined]) -> Result<List<Step>, NoMemory>
    ensures { IfOk result (λ steps. steps ≡ map step_of lined.now) }
{
    let mut list = with_room(alloc, lined.len())?;
    for one in lined {
        let step = Step {
            charge: one.charge,
            op: one.op,
        };
        list.push(step)?;
    }
    Ok(list)
}

/// The lines of a function's steps.
fn lines_of(alloc: Global, lined: &[Lined]) -> Result<List<u32>, NoMemory>
    ensures { IfOk result (λ lines. lines ≡ map line_of lined.now) }
{
    let mut list = with_room(alloc, lined.len())?;
    for one in lined {
        list.push(one.line)?;
    }
    Ok(list)
}

/// Flat code of the functions of a module. Its tree is let go.
///
/// Code that needs more than 2^31 registers or constants, or 2^32 - 1 operations, is refused as want of memory, and so is what `resolve` never
/// makes: a variable that is not there, `break` outside of loops, a loop without variables.
pub fn make(alloc: Global, protos: Protos) -> Result<Functions, NoMemory>
    ensures { IfOk result (λ fs. IsMade protos fs) }
{
    let mut maker = Maker::new(alloc, protos.constants.as_slice().len())?;
    let text = maker.function(&protos.text)?;
    let functions = maker.functions(protos.functions.as_slice())?;
    let constants = copied(alloc, maker.constants.as_slice())?;
    Ok(Functions {
        text,
        functions,
        texts: protos.constants,
        constants,
    })
}

impl Maker {
    /// No function is made yet, in a module with so many texts.
    fn new(alloc: Global, texts: usize) -> Result<Maker, NoMemory>
        ensures { IfOk result (λ m. (m.texts ≡ texts) × (m.constants ≡ []) × (m.breaks ≡ [])) }
    {
        if texts >= MOST as usize {
            return Err(NoMemory);
        }
        Ok(Maker {
            alloc,
            texts: texts as u32,
            constants: List::new(alloc),
            steps: Vec::new(alloc),
            cells: Vec::new(alloc),
            origins: Vec::new(alloc),
            owed: 0,
            registers: 0,
            locals: Vec::new(alloc),
            breaks: List::new(alloc),
        })
    }

    /// Nothing is there but the constants. Lists keep their room.
    fn begin_function(&mut self)
        ensures { state_of self.new ≡ empty self.old.texts self.old.constants self.old.breaks }
    {
        self.steps.truncate(0);
        self.cells.truncate(0);
        self.origins.truncate(0);
        self.locals.truncate(0);
        self.owed = 0;
        self.registers = 0;
    }

    /// Flat code of functions.
    fn functions(&mut self, protos: &[Proto]) -> Result<List<Function>, NoMemory>
        ensures { IfOk result (λ list. FunctionsSaid protos.now (state_of self.old) (state_of self.new) list) }
    {
        let mut list = with_room(self.alloc, protos.len())?;
        for proto in protos {
            let function = self.function(proto)?;
            list.push(function)?;
        }
        Ok(list)
    }

    /// Flat code of a function.
    fn function(&mut self, proto: &Proto) -> Result<Function, NoMemory>
        ensures { IfOk result (λ g. FunctionSaid proto.now (state_of self.old) (state_of self.new) g) }
    {
        self.begin_function();
        self.code(proto)?;
        let made = self.finished(proto)?;
        Ok(made)
    }

    /// Code of a function, up to its return.
    fn code(&mut self, proto: &Proto) -> Result<(), NoMemory>
        ensures { OnOk result (CodeSaid (proto_seen proto.now) (state_of self.old) (state_of self.new)) }
    {
        let free = self.declare_row(proto.flags.as_slice(), 0)?;
        self.statements(proto.body.as_slice(), free)?;
        let count = Wanted::exactly(0)?;
        self.emit(Op::Return { from: 0, count })?;
        if !self.breaks.as_slice().is_empty() {
            return Err(NoMemory);
        }
        Ok(())
    }

    /// What is made becomes a function, with lists that have no more room than they need.
    fn finished(&self, proto: &Proto) -> Result<Function, NoMemory>
        ensures { IfOk result (λ g. Finished (proto_seen proto.now) (state_of self.now) g) }
    {
        let flags = copied(self.alloc, proto.flags.as_slice())?;
        let steps = steps_of(self.alloc, self.steps.as_slice())?;
        let lines = lines_of(self.alloc, self.steps.as_slice())?;
        let cells = copied(self.alloc, self.cells.as_slice())?;
        let origins = copied(self.alloc, self.origins.as_slice())?;
        Ok(Function {
            flags,
            dots: proto.dots,
            registers: self.registers,
            steps,
            lines,
            cells,
            origins,
        })
    }
}
