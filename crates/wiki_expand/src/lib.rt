//! The expansion of templates, parameters and parser functions (MediaWiki, Help:Templates,
//! Help:Extension:ParserFunctions).
//!
//! - `expander`: an expansion that stops at each invocation
//! - `resume`: what waits for a text goes on with it
//! - `calls`: arguments, templates and invocations
//! - `functions`: `#if`, `#ifeq` and `#switch`
//! - `walk`: going through trees, and opening what stands in them
//! - `frame`: the state of an expansion: what waits, and what is done next
//! - `allowances`: what is taken of the allowances
//! - `laws`: what holds of the definitions
//!
//! What an expansion is stands in `expand_meaning`. The pages that can be included, and their trees, are
//! those of `wiki_pages`. Here begin with `specs/Standing.antt`, what an expander at a point of a
//! run is; `Points` says what a state of the machine stands for, and `Weights` why it comes to an end.
#![tactic(auto)]

mod allowances;
mod calls;
pub mod expander;
mod frame;
mod functions;
pub mod laws;
mod resume;
mod walk;

pub use expander::{Expander, Move, Source};
pub use mw_frame::Left;
pub use wiki_pages::PageMap;
