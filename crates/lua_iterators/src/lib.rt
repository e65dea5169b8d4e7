//! The functions of the library that make iterators, and the steps of these, over the store of a page: `string.gmatch` (manual 5.4),
//! `mw.ustring.gmatch`, `mw.ustring.gcodepoint` and `mw.text.gsplit` (Scribunto).
//!
//! What they give stands in `specs/Iterators.antt` of `lua_meaning`; read it first, then `call`.
//!
//! - `table`: which functions they are
//! - `cells`: the cells of an iterator, and what they hold
//! - `making`: new iterators
//! - `makers`: the functions that make them
//! - `symbols`: symbols between two places of a text
//! - `captures`: what is given of a match
//! - `walking`: a step of `gmatch`, over bytes or code points
//! - `pointing`: a step of `gcodepoint`
//! - `parting`: a step of `gsplit`
//! - `call`: one of the functions is called
//! - `examples`: worked examples
#![tactic(auto)]

pub mod call;
pub mod captures;
pub mod cells;
pub mod examples;
pub mod makers;
pub mod making;
pub mod parting;
pub mod pointing;
pub mod symbols;
pub mod table;
pub mod walking;

pub use call::iterator_call;
pub use lua_strings::captures::span;
pub use lua_strings::{
    Left, Library, Stop, Store, TextIn, a_text, first, kind_of, number_or, pair, rest,
};
pub use mw_ustrings::arguments::{refuse_pattern, utf8_text};
pub use mw_ustrings::giving::{number, spend};
pub use mw_ustrings::{pay, pay_given};
pub use table::{IteratorFunction, Maker, Stepper, iterator_function};
