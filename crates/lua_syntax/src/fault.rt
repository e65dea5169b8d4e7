//! The faults of a text that is no chunk.
//!
//! 1 unfinished string; 2 unfinished long bracket or comment; 3 escape above 255; 4 a byte that begins no token;
//! 5 unexpected token; 6 a numeral that is not whole or is out of range; 7 nested too deeply; 8 `break` outside a loop;
//! 9 the `(` of a call on a new line; 10 `...` outside a vararg function.

/// A fault: its number from 1 to 10, and the line, counted from 1, of the place where it stands.
#[derive(Clone, Copy, Debug, PartialEq, Eq)]
pub struct FaultAt {
    pub kind: u8,
    pub line: u32,
}

/// Why a text gives no tree, or no tokens.
#[derive(Clone, Copy, Debug, PartialEq, Eq)]
pub enum SyntaxFault {
    At(FaultAt),
    NoMemory,
}
