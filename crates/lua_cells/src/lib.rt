//! Which local variables of resolved code have cells (manual 2.6): whether each of these cells is captured by
//! some function.
//!
//! - `functions`: `has_no_idle_cell`, the public call
//! - `statements`, `expressions`: code that is gone over
//! - `registers`: the registers of the function whose code it is; `watch`: these, and whether there is anything to look for
//!
//! Begin with `specs/Cells.antt`: what code captures, and that no variable has a cell for nothing. `specs/Registers.antt` says what
//! going over code does.
#![tactic(auto)]

mod expressions;
mod functions;
mod registers;
mod statements;
mod watch;

pub use functions::has_no_idle_cell;
