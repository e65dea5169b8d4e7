//! Tables of Lua: a list of entries in order of first insertion, with a metatable and a read-only mark.
//!
//! - `table`: a table, its calls and their refusals
//! - `entries`: the list of its entries, of which the keys 1, 2, 3 and so on may stand in an array
//! - `holes`: which of the keys 1, 2, 3 and so on are cleared, and the first of them
//!
//! Of the definitions read `specs/Entries.antt` first: a table as the list of its entries.
#![tactic(auto)]

ghost use Rattle.std.specs.Prelude.{◌≡◌, ◌↔◌, ℤ, Option, Some, None, IsTrue, true};

mod entries;
mod holes;
pub mod table;

// A crate can name a table in a contract only if the types of its fields are exported.
#[doc(hidden)]
pub use entries::Entries;
#[doc(hidden)]
pub use holes::Holes;
use std::hash::Hash;
pub use table::{NoSuchKey, SetFault, Step, Table};

/// A value that a table can hold: which one is nil, and which ones are whole numbers.
pub trait Slot: Copy + Eq + Hash {
    ghost nil_value: { Self };

    ghost number_of: { ℤ → Self };

    ghost whole_of: { Self → Option ℤ };

    /// The value nil, which is no key and stands for what is not there.
    fn nil() -> Self
        ensures { result ≡ nil_value };

    /// Whether this is nil.
    fn is_nil(&self) -> bool
        ensures test { result ≡ Self.eq self.now nil_value }
        ensures exact { IsTrue result ↔ (self.now ≡ nil_value) };

    /// The value that stands for a whole number.
    fn number(n: i64) -> Self
        ensures { result ≡ number_of n };

    /// The whole number that this stands for, if it is one.
    fn whole(&self) -> Option<i64>
        ensures { result ≡ whole_of self.now };

    /// Equal values are the same value.
    ghost same: { (a b : Self) → Self.eq a b ≡ true → a ≡ b };

    /// A whole number is read back.
    ghost reads_back: { (n : ℤ) → whole_of (number_of n) ≡ Some n };

    /// Nothing else is read as a whole number.
    ghost only: { (a : Self) (n : ℤ) → whole_of a ≡ Some n → a ≡ number_of n };

    /// Nil is not a whole number.
    ghost no_number: { whole_of nil_value ≡ None };
}
