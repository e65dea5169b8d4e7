//! The registers of a function whose code is gone over, and whether there is anything to look for.
ghost use Rattle.std.specs.Prelude.{◌≡◌, [], true, false, length, map, OnOk};
ghost use Rattle.lua_code.specs.Seen.{place_seen, expression_seen, expressions_seen, target_seen};
ghost use Rattle.lua_cells.specs.Registers.{all_captured, opened_one, opened, closed, expression_gone, expressions_gone, targets_gone};

use crate::expressions;
use crate::registers::Registers;
use lua_code::{Expression, NoMemory, Place, Target};
use std::alloc::Global;
use std::marker::Model;

/// The registers of a function, seen as these. As long as none of its variables had a cell, expressions change nothing, and need not be
/// gone over.
#[derive(Drop)]
pub(crate) struct Watch {
    registers: Registers,
    /// Whether a variable had a cell so far.
    any: bool,
}

impl Model for Watch {
    ghost use Rattle.std.specs.Prelude.{◌≡◌, false};
    ghost use Rattle.lua_cells.specs.declared.registers.Registers.{Registers as RegistersSeen};
    ghost use Rattle.lua_cells.specs.Registers.{NoneIdle};

    ghost Value = { RegistersSeen };

    ghost view = { λ w. w.registers };

    ghost invariant = { λ w. w.any ≡ false → NoneIdle w.registers.idle };
}

impl Watch {
    /// No register.
    pub(crate) fn new(alloc: Global) -> Watch
        ensures { result ≡ record { idle = []; needed = true } }
    {
        Watch {
            registers: Registers::new(alloc),
            any: false,
        }
    }

    /// Whether all cells of variables that ended were captured.
    pub(crate) fn is_needed(&self) -> bool
        ensures { result ≡ self.now.needed }
    {
        self.registers.needed
    }

    /// How many registers there are.
    pub(crate) fn len(&self) -> usize
        ensures { result ≡ length self.now.idle }
    {
        self.registers.len()
    }

    /// One more variable, which has a cell or has none.
    pub(crate) fn open_one(&mut self, boxed: bool) -> Result<(), NoMemory>
        ensures { OnOk result (self.new ≡ opened_one boxed self.old) }
    {
        let any = either(self.any, boxed);
        match self.registers.open_one(boxed) {
            Ok(_) => {
                self.any = any;
                Ok(())
            }
            Err(_) => {
                self.any = true;
                Err(NoMemory)
            }
        }
    }

    /// More variables, one after another.
    pub(crate) fn open(&mut self, flags: &[bool]) -> Result<(), NoMemory>
        ensures { OnOk result (self.new ≡ opened flags.now self.old) }
    {
        for boxed in flags {
            self.open_one(*boxed)?;
        }
        Ok(())
    }

    /// All but the oldest so many variables end.
    pub(crate) fn close(&mut self, count: usize)
        ensures { self.new ≡ closed count self.old }
    {
        self.registers.close(count);
    }

    /// A function captures from these places.
    pub(crate) fn capture(&mut self, places: &[Place])
        ensures { self.new ≡ all_captured (map place_seen places.now) self.old }
    {
        if self.any {
            self.registers.capture(places);
        }
    }

    /// An expression.
    pub(crate) fn expression(&mut self, code: &Expression)
        ensures { self.new ≡ expression_gone (expression_seen code.now) self.old }
    {
        if self.any {
            expressions::expression(code, &mut self.registers);
        }
    }

    /// Expressions, in order.
    pub(crate) fn expressions(&mut self, list: &[Expression])
        ensures { self.new ≡ expressions_gone (expressions_seen list.now) self.old }
    {
        if self.any {
            expressions::expressions(list, &mut self.registers);
        }
    }

    /// What is assigned to.
    pub(crate) fn targets(&mut self, list: &[Target])
        ensures { self.new ≡ targets_gone (map target_seen list.now) self.old }
    {
        if self.any {
            expressions::targets(list, &mut self.registers);
        }
    }
}

/// Whether one of them holds.
fn either(first: bool, second: bool) -> bool
    ensures { result ≡ false → (first ≡ false) × (second ≡ false) }
{
    first || second
}
