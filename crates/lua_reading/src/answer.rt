//! What a function that reads a piece of Lua answers.
ghost use Rattle.std.specs.Prelude.{◌≡◌};
ghost use Rattle.lua_reading.specs.declared.answer.Fault.TheVariants.{NoMemory};

use lua_syntax::NoMemory;
use std::alloc::{AllocError, AllocFailed};

/// A fault at a token, by its place in the list of tokens.
#[derive(Clone, Copy, Debug)]
pub struct FaultPlace {
    pub kind: u8,
    pub place: usize,
}

/// Why no tree is read.
#[derive(Clone, Copy, Debug)]
pub enum Fault {
    At(FaultPlace),
    NoMemory,
}

/// A tree, the place behind it, and how many levels of nodes it has.
#[derive(Drop)]
pub struct Reading<T> {
    pub tree: T,
    pub end: usize,
    pub height: u32,
}

impl From<AllocError> for Fault {
    ghost from_gives = { λ _ e. e ≡ NoMemory };

    fn from(_e: AllocError) -> Fault {
        Fault::NoMemory
    }
}

impl<T: Drop> From<AllocFailed<T>> for Fault {
    ghost from_gives = { λ _ e. e ≡ NoMemory };

    fn from(_e: AllocFailed<T>) -> Fault {
        Fault::NoMemory
    }
}

impl From<NoMemory> for Fault {
    ghost from_gives = { λ _ e. e ≡ NoMemory };

    fn from(_e: NoMemory) -> Fault {
        Fault::NoMemory
    }
}

/// The answer that fault `kind` (5 to 10) is at the token `place`.
pub fn fault_at<T>(kind: u8, place: usize) -> Result<T, Fault>
    ensures { result ≡ Err (Fault.At (record { kind = kind; place = place })) }
{
    Err(Fault::At(FaultPlace { kind, place }))
}
