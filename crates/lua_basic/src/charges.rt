//! What things cost, in steps: each number once, as the meaning has it.
ghost use Rattle.std.specs.Prelude.{◌≡◌};
ghost use Rattle.lua_meaning.specs.Charges as meaning;

/// The start of an invocation, with its frame, and of a data module.
pub const RUN_CHARGE: u64 = 1000;

/// A table that is made.
pub const TABLE_CHARGE: u64 = 8;

/// A closure that is made.
pub const CLOSURE_CHARGE: u64 = 8;

/// A new entry of a table.
pub const ENTRY_CHARGE: u64 = 4;

/// A parent or a child of a frame.
pub const FRAME_CHARGE: u64 = 16;

/// An argument of a frame, beside the bytes of its name and value.
pub const ARGUMENT_CHARGE: u64 = 4;

/// They are the numbers of the meaning.
pub fn charges_of_the_meaning()
    ensures run { RUN_CHARGE ≡ meaning.run_charge }
    ensures table { TABLE_CHARGE ≡ meaning.table_charge }
    ensures closure { CLOSURE_CHARGE ≡ meaning.closure_charge }
    ensures entry { ENTRY_CHARGE ≡ meaning.entry_charge }
    ensures frame { FRAME_CHARGE ≡ meaning.frame_charge }
    ensures argument { ARGUMENT_CHARGE ≡ meaning.argument_charge }
{}
