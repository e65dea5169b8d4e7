//! What a run is: of the Lua code that a page invokes, and of the expansion of the page itself.
//!
//! A run is the events that it makes, one after another. The definitions stand in `specs/`, best read in this order:
//!
//! - `Run`: the events
//! - `Part`, `Outcome`: parts of a run, one after another, and jumps past what follows
//! - `State`: a moment of a run, replies, and what is seen from outside
//! - `Perform`: what a run comes to
//! - `Trace`: what a run notes on its way
//! - `Walk`: what data loads tell of kept data
//! - `Examples`, `Jumps`: small runs, with what they come to
//!
//! Nothing here is executed: each function has an empty body, and its contract is a law about those definitions:
//!
//! - `events`: what each event makes of the state
//! - `replies`: what more replies make of a run
//! - `charges`: what is left of the allowances, and what a run that ends needs
//! - `loads`: which data loads a run tells, and the walk over them
//! - `examples`: the small runs come to what `Examples` and `Jumps` say
//! - `which`: the allowances that end a run of Lua
#![tactic(auto)]

pub mod charges;
pub mod events;
pub mod examples;
pub mod loads;
pub mod replies;
pub mod which;

pub use which::Which;
