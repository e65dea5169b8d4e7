//! Lua's numbers, where every number is a whole number of 64 bits.
//!
//! - `arithmetic`: the six operations and negation, with what they refuse
//! - `printing`: the digits of a number
//! - `reading`: numerals and number texts
//!
//! The definitions stand in `specs/Whole.antt` (the operations; read it first) and `specs/Numerals.antt` (what is read).
#![tactic(auto)]

pub mod arithmetic;
pub mod printing;
pub mod reading;

pub use arithmetic::{NumberFault, add, div, mul, neg, pow, rem, sub};
pub use printing::{reads_back, text};
pub use reading::{read_in_base, read_number, read_numeral};
pub use wk_base::{Bytes, Left, NoMemory};
