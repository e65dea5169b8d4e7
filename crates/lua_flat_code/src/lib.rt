//! Flat code (`lua_flat`) as a machine holds it, and how it is made of resolved code (`lua_code`).
//!
//! - `operand`: what operations read, how many values they want, constants, and where captured cells come from
//! - `op`: operations and steps
//! - `function`: functions and modules
//! - `making`: `make`, the public call
//! - `maker`: a function while it is made: its operations, jumps, registers, variables, and the lists beside its code
//! - `values`, `calls`, `constructors`: code of expressions
//! - `lists`: lists that are adjusted to a number of values
//! - `conditions`: tests
//! - `assignments`: targets of assignments
//! - `statements`, `choices`, `loops`: code of statements
//!
//! Begin with `specs/Seen.antt`: which plain code each of these types is seen as.
#![tactic(auto)]

mod assignments;
mod calls;
mod choices;
mod conditions;
mod constructors;
pub mod function;
mod lists;
mod loops;
mod maker;
mod making;
pub mod op;
pub mod operand;
mod statements;
mod values;

pub use function::{Function, Functions};
pub use making::make;
pub use op::{OPEN, Op, Step};
pub use operand::{Constant, MOST, Operand, Origin, Wanted};
