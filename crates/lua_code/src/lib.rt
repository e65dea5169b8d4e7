//! Resolved code of Lua as a machine holds it: each name has become a place (manual 2.6).
//!
//! - `place`: where a local variable stands
//! - `operator`: the operators whose operands are both evaluated
//! - `expression`: code of expressions, and the entries of a constructor
//! - `statement`: targets of assignments, code of statements, the arms of an `if`
//! - `proto`: the functions of a module
//! - `modules`: the modules of a run, by their titles
//!
//! Begin with `specs/Seen.antt`: which plain code (`lua_slots`) each of these types is seen as. `specs/Held.antt` says what is
//! found in `Modules`.
#![tactic(auto)]

pub mod expression;
pub mod modules;
pub mod operator;
pub mod place;
pub mod proto;
pub mod statement;

pub use expression::{Entry, Expression};
pub use lua_syntax::{Namespace, NoMemory, Title, WkBaseBytes as Bytes, WkBaseList as List};
pub use modules::{Module, Modules};
pub use operator::{Arithmetic, Operator};
pub use place::Place;
pub use proto::{Proto, Protos};
pub use statement::{Branch, Statement, Target};
