//! New local variables: each gets a register, and a cell where functions share it (manual 2.4.7 and 2.6).
ghost use Rattle.std.specs.Prelude.{◌≡◌, [], ◌∷◌, length, drop, OnOk, MatchOption};
ghost use Rattle.lua_store.specs.Seen.{seen};
ghost use Rattle.lua_store.specs.Parts.{IsOf, IsLater};
ghost use Rattle.lua_code.specs.LuaSlotsSlots.{with_one, with_all};
ghost use Rattle.lua_stack.specs.Seen.{values_seen, registers_seen};
ghost use Rattle.lua_stack.specs.Of.{RegistersOf, ValuesOf};

use crate::register::Slot;
use crate::stack::Stack;
use crate::values::Values;
use lua_store::{Store, Value};
use mw_frame::NoMemory;

/// One more variable, with this value. Where memory runs out, the texts are as they were, and so is what the store had.
pub fn open(
    store: &mut Store,
    regs: &mut Stack<Slot>,
    boxed: bool,
    value: Value,
) -> Result<(), NoMemory>
    requires registers { RegistersOf store.old regs.old }
    requires value { IsOf store.old value }
    ensures of { OnOk result (RegistersOf store.new regs.new) }
    ensures later { IsLater store.old store.new }
    ensures texts { store.new.texts ≡ store.old.texts }
    ensures opened { OnOk result ((store.new.heap, registers_seen store.new.texts regs.new) ≡ with_one boxed (seen store.old.texts value) (store.old.heap, registers_seen store.old.texts regs.old)) }
{
    if boxed {
        let cell = store.new_cell(value)?;
        regs.push(Slot::Boxed(cell))?;
        Ok(())
    } else {
        regs.push(Slot::Plain(value))?;
        Ok(())
    }
}

/// The first flag, and those behind it.
#[derive(Clone, Copy)]
struct Flag<'f> {
    boxed: bool,
    rest: &'f [bool],
}

fn next_flag<'f>(flags: &'f [bool]) -> Option<Flag<'f>>
    ensures { MatchOption result (flags.now ≡ []) (λ f. flags.now ≡ f.boxed ∷ f.rest.now) }
{
    match flags {
        [boxed, rest @ ..] => Some(Flag {
            boxed: *boxed,
            rest,
        }),
        [] => None,
    }
}

/// A variable for each flag, with the values in order, which are taken out; where there are no more, nil.
pub fn open_all(
    store: &mut Store,
    regs: &mut Stack<Slot>,
    flags: &[bool],
    values: &mut Values,
) -> Result<(), NoMemory>
    requires registers { RegistersOf store.old regs.old }
    requires values { ValuesOf store.old values.old }
    ensures of { OnOk result (RegistersOf store.new regs.new × ValuesOf store.new values.new) }
    ensures later { OnOk result (IsLater store.old store.new) }
    ensures texts { OnOk result (store.new.texts ≡ store.old.texts) }
    ensures opened { OnOk result ((store.new.heap, registers_seen store.new.texts regs.new) ≡ with_all flags.now (values_seen store.old.texts values.old) (store.old.heap, registers_seen store.old.texts regs.old)) }
    ensures left { OnOk result (values.new ≡ drop (length flags.now) values.old) }
{
    let mut left = flags;
    'flags: while let Some(next) = next_flag(left) {
        let value = values.take_first();
        open(store, regs, next.boxed, value)?;
        left = next.rest;
    }
    Ok(())
}
