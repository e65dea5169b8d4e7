//! What operations read, how many values they want, and where captured cells come from. Each takes 32 bits, so that a step takes 24 bytes.
ghost use Rattle.std.specs.Prelude.{◌≡◌, ◌<◌, ◌+◌, ◌^◌, IfOk};
ghost use Rattle.lua_flat_code.specs.Seen.{wanted_seen};
ghost use Rattle.lua_flat.specs.Operations.{Exactly, Every};
ghost use Rattle.lua_flat.specs.IsExpression.{one_more};

use lua_code::NoMemory;

/// Registers and constants each have numbers below this one.
pub const MOST: u32 = 1 << 31;

/// What an operation reads: below `MOST` the register of this number, counted from the base of its function, and from there on the
/// constant of the rest. The first constants are the texts of the module, and the others follow.
#[derive(Clone, Copy)]
pub struct Operand {
    pub code: u32,
}

/// How many values: exactly so many, where what is absent is nil; or as many as there are, which is the largest number.
#[derive(Clone, Copy)]
pub struct Wanted {
    pub code: u32,
}

/// A constant that is no text.
#[derive(Clone, Copy)]
pub enum Constant {
    Nil,
    Truth(bool),
    Number(i64),
}

/// Where a new function finds a cell that it captures: by a register of the running function, or among the cells of that function.
#[derive(Clone, Copy)]
pub enum Origin {
    Register(u32),
    Captured(u32),
}

impl Operand {
    /// The register of this number.
    pub fn register(number: u32) -> Result<Operand, NoMemory>
        ensures { IfOk result (λ o. (number < 2 ^ 31) × (o.code ≡ number)) }
    {
        if number < MOST {
            Ok(Operand { code: number })
        } else {
            Err(NoMemory)
        }
    }

    /// The constant of this number.
    pub fn constant(number: u32) -> Result<Operand, NoMemory>
        ensures { IfOk result (λ o. o.code ≡ 2 ^ 31 + number) }
    {
        if number < MOST {
            Ok(Operand {
                code: MOST + number,
            })
        } else {
            Err(NoMemory)
        }
    }
}

impl Wanted {
    /// As many as there are.
    pub fn every() -> Wanted
        ensures { wanted_seen result ≡ Every }
    {
        Wanted { code: u32::MAX }
    }

    /// Exactly so many.
    pub fn exactly(count: u32) -> Result<Wanted, NoMemory>
        ensures { IfOk result (λ w. wanted_seen w ≡ Exactly count) }
    {
        if count < u32::MAX {
            Ok(Wanted { code: count })
        } else {
            Err(NoMemory)
        }
    }

    /// One more.
    pub fn one_more(self) -> Result<Wanted, NoMemory>
        ensures { IfOk result (λ w. wanted_seen w ≡ one_more (wanted_seen self)) }
    {
        if self.code == u32::MAX {
            return Ok(self);
        }
        Wanted::exactly(self.code + 1)
    }
}
