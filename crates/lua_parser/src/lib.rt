//! The parser of Lua (manual 8): the chunk that a text spells, or the first fault.
//!
//! - `parser`: `parse`, over the tokens of a text
//! - `blocks`, `stats`, `loops`, `conditions`, `locals`, `assignments`, `functions`: statements
//! - `exprs`, `prefixes`, `tables`: expressions
//! - `params`, `names`: parameters, and other lists of names
//! - `boxes`: expressions that are held while more is read
//! - `laws`: what the definitions alone say of `parse`'s answer
//!
//! `specs/Chunks.antt` says what `parse` answers; read it first. What the functions for parts answer stands in `lua_reading`, with
//! the parts that need no recursion: looks at tokens, operators, and nodes as they are made. The
//! tests are in `text_cases`.
#![tactic(auto)]

pub mod assignments;
pub mod blocks;
pub mod boxes;
pub mod conditions;
pub mod exprs;
pub mod functions;
pub mod laws;
pub mod locals;
pub mod loops;
pub mod names;
pub mod params;
pub mod parser;
pub mod prefixes;
pub mod stats;
pub mod tables;

pub use laws::parsed_once;
pub use lua_syntax::{FaultAt, SyntaxFault};
pub use parser::parse;
