//! The marks of the captures.
ghost use Rattle.std.specs.Prelude.{◌≡◌, [], ◌∷◌, ◌++◌, ◌<◌, length, slice_set, OnOk};

use std::alloc::Global;
use std::marker::Model;
use wk_base::{List, NoMemory};

/// The marks of a capture, counted from 0 in the order of the pattern: of a text where it begins and where it ends, or
/// of a place alone.
#[derive(Clone, Copy, Debug, PartialEq, Eq)]
pub enum Slot {
    Text(usize, usize),
    Point(usize),
    /// A text whose end has not been read yet; no pattern that was read has one.
    Open(usize),
}

/// The captures of a pattern that is being read, in the order of their `(`.
#[derive(Drop)]
pub struct Slots {
    slots: Vec<Slot>,
}

impl Model for Slots {
    ghost use Rattle.std.specs.Prelude.{List};
    ghost use Rattle.std.specs.Coded.{coded_list};
    ghost use Rattle.lua_pattern.specs.declared.slots.Slot.{Slot as ASlot};
    ghost use Rattle.lua_pattern.specs.contracts.slots.Slot as slot;

    ghost Value = { List ASlot };

    ghost coded = { coded_list slot.the_row.coded };

    ghost view = { λ s. s.slots.items };
}

impl Slots {
    pub fn new(alloc: Global) -> Slots
        ensures { result ≡ [] }
    {
        Slots {
            slots: Vec::new(alloc),
        }
    }

    pub fn as_slice(&self) -> &[Slot]
        ensures { result.now ≡ self.now }
    {
        self.slots.as_slice()
    }

    pub fn into_list(self) -> List<Slot>
        ensures { result ≡ self }
    {
        List::of_vec(self.slots)
    }

    pub fn push(&mut self, slot: Slot) -> Result<(), NoMemory>
        ensures { OnOk result (self.new ≡ self.old ++ slot ∷ []) }
    {
        match self.slots.push(slot) {
            Ok(_) => Ok(()),
            Err(_) => Err(NoMemory),
        }
    }

    pub fn set(&mut self, index: usize, slot: Slot)
        requires { index < length self.old }
        ensures { self.new ≡ slice_set self.old index slot }
    {
        self.slots[index] = slot;
    }
}
