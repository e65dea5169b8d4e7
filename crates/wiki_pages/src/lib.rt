//! The pages that are held: their trees, and what is prepared of them so that an expansion pays for it once.
//!
//! - `pages`: the pages by title, each with its text as it is read and as it is included
//! - `forest`: trees, as a stretch of nodes
//! - `passing`: where a `#switch` goes on behind parts that cannot decide
//! - `cases`: a run of parts of a `#switch`, as it is read; `constants`: parts with constant names
//! - `tables`: the table of a run; `held`: a text with its tables; `preparing`: how these are made
//!
//! Begin with `specs/Forests.antt` and `specs/Furthers.antt`, which are all that callers see; `specs/CaseTables.antt` says
//! what is kept true of the tables.
#![tactic(auto)]

mod cases;
mod constants;
mod forest;
mod held;
mod pages;
mod passing;
mod preparing;
mod tables;

pub use cases::is_default;
pub use forest::{Forest, Split};
pub use pages::{Entry, PageMap};
pub use passing::{Further, go_further};
