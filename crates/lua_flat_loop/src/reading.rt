//! Registers, and what operations read.
ghost use Rattle.std.specs.Prelude.{◌≡◌, ◌+◌, ◌<◌, ◌^◌, slice_get, IfSome};
ghost use Rattle.std.specs.Option.{option_copied, option_map};
ghost use Rattle.lua_flat.specs.LuaSlotsCode.{Constants};
ghost use Rattle.lua_stack.specs.LuaSlotsSlots.{slot_value};
ghost use Rattle.lua_store.specs.Seen.{StoreView, seen};
ghost use Rattle.lua_store.specs.Parts.{IsOf};
ghost use Rattle.lua_stack.specs.Seen.{Texts, slot_seen, registers_seen};
ghost use Rattle.lua_stack.specs.Of.{RegistersOf, ValuesOf, MayBeSlotOf};
ghost use Rattle.lua_flat.specs.Registers as flat;
ghost use Rattle.lua_flat_code.specs.Seen.{Tables, operand_seen};
ghost use Rattle.lua_flat_loop.specs.Code.{Knows, value_or_nil};

use lua_flat_code::{MOST, Operand, Step};
use lua_stack::Slot;
use lua_store::Value;

/// The register at a place, if there is one.
#[inline(always)]
fn slot_at(regs: &[Slot], at: usize) -> Option<Slot>
    ensures { result ≡ slice_get regs.now at }
{
    regs.get(at).copied()
}

/// The value of a register, or nil.
#[inline(always)]
fn value_of(slot: Option<Slot>) -> Value
    ensures of { (s : StoreView) → MayBeSlotOf s slot → IsOf s result }
    ensures value { (texts : Texts) → seen texts result ≡ slot_value (option_map (slot_seen texts) slot) }
{
    match slot {
        Some(Slot::Plain(value)) => value,
        Some(Slot::Boxed(_)) => Value::Nil,
        None => Value::Nil,
    }
}

/// The value of the register at a place, which is nil where none is there.
#[inline(always)]
pub(crate) fn value_at(regs: &[Slot], at: usize) -> Value
    ensures of { (s : StoreView) → RegistersOf s regs.now → IsOf s result }
    ensures value { (texts : Texts) → seen texts result ≡ flat.read (registers_seen texts regs.now) at }
{
    value_of(slot_at(regs, at))
}

/// The place of a register of the function that begins at the base.
#[inline(always)]
pub(crate) fn place(base: u32, register: u32) -> usize
    ensures { result ≡ base + register }
{
    base as usize + register as usize
}

/// The constant of this number, which is nil where none is there.
#[inline(always)]
fn constant(constants: &[Value], number: u32) -> Value
    ensures { result ≡ value_or_nil (slice_get constants.now number) }
{
    match constants.get(number as usize) {
        Some(value) => *value,
        None => Value::Nil,
    }
}

/// What an operand of the function that begins at the base reads.
#[inline(always)]
pub(crate) fn operand(regs: &[Slot], constants: &[Value], base: u32, from: Operand) -> Value
    ensures of { (s : StoreView) → RegistersOf s regs.now → ValuesOf s constants.now → IsOf s result }
    ensures value { (texts : Texts) (cs : Constants) (k : Tables) → Knows texts cs k constants.now → seen texts result ≡ flat.operand cs (registers_seen texts regs.now) base (operand_seen k from) }
{
    if from.code < MOST {
        return value_at(regs, place(base, from.code));
    }
    constant(constants, from.code - MOST)
}

/// The step at a place, if there is one.
#[inline(always)]
pub(crate) fn step_at(steps: &[Step], at: usize) -> Option<&Step>
    ensures there { option_copied result ≡ slice_get steps.now at }
    ensures next { IfSome result (λ step. at + 1 < 2 ^ 64) }
{
    if at < steps.len() {
        return Some(&steps[at]);
    }
    None
}
