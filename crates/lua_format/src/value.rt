//! The values that a format takes, and why it may have no answer.
ghost use Rattle.std.specs.Prelude.{◌≡◌};

use lua_number::{Bytes, NoMemory};

/// A value behind the format.
#[derive(Drop, Debug)]
pub enum FormatValue {
    Number(i64),
    Text(Bytes),
    Other,
}

/// What a directive takes.
#[derive(Clone, Copy, Debug, PartialEq, Eq)]
pub enum Want {
    Number,
    Text,
}

/// Why a format has no answer. Values are counted from 0.
#[derive(Clone, Copy, Debug, PartialEq, Eq)]
pub enum FormatFault {
    /// What stands behind a `%` is no directive.
    BadOption,
    /// The value is absent.
    Missing(usize, Want),
    WrongKind(usize, Want),
    /// A number for `%c` that is not from 0 to 255.
    OutOfRange(usize),
    NoMemory,
}

impl From<NoMemory> for FormatFault {
    fn from(_error: NoMemory) -> FormatFault
        ensures { result ≡ FormatFault.NoMemory }
    {
        FormatFault::NoMemory
    }
}
