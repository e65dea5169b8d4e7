//! The registers of a function whose code is gone over.
ghost use Rattle.std.specs.Prelude.{◌≡◌, [], true, length, map, OnOk};
ghost use Rattle.lua_code.specs.Seen.{place_seen};
ghost use Rattle.lua_cells.specs.Registers.{captured, all_captured, opened_one, newest_ended, closed};

use lua_code::{NoMemory, Place};
use lua_stack::Stack;
use std::alloc::Global;

/// The registers of a function: of each, the newest first, whether it names a cell that nothing captured so far; and whether all
/// cells of variables that ended were captured.
#[derive(Drop)]
pub(crate) struct Registers {
    pub(crate) idle: Stack<bool>,
    pub(crate) needed: bool,
}

impl Registers {
    /// No register.
    pub(crate) fn new(alloc: Global) -> Registers
        ensures { result ≡ record { idle = []; needed = true } }
    {
        Registers {
            idle: Stack::new(alloc),
            needed: true,
        }
    }

    /// How many registers there are.
    pub(crate) fn len(&self) -> usize
        ensures { result ≡ length self.now.idle }
    {
        self.idle.len()
    }

    /// One more variable, which has a cell or has none.
    pub(crate) fn open_one(&mut self, boxed: bool) -> Result<(), NoMemory>
        ensures { OnOk result (self.new ≡ opened_one boxed self.old) }
    {
        self.idle.push(boxed)
    }

    /// A function captures what stands at this place.
    fn capture_one(&mut self, place: &Place)
        ensures { self.new ≡ captured (place_seen place.now) self.old }
    {
        match place {
            Place::Cell(index) => self.idle.set(*index, false),
            Place::Register(_) | Place::Captured(_) => {}
        }
    }

    /// A function captures from these places.
    pub(crate) fn capture(&mut self, places: &[Place])
        ensures { self.new ≡ all_captured (map place_seen places.now) self.old }
    {
        for place in places {
            self.capture_one(place);
        }
    }

    /// The newest variable ends.
    fn end_one(&mut self)
        ensures { self.new ≡ newest_ended 1 self.old.idle self.old.needed }
    {
        match self.idle.pop() {
            None => {}
            Some(idle) => {
                if idle {
                    self.needed = false;
                }
            }
        }
    }

    /// All but the oldest so many variables end.
    pub(crate) fn close(&mut self, count: usize)
        ensures { self.new ≡ closed count self.old }
    {
        while self.idle.len() > count {
            self.end_one();
        }
    }
}
