//! Calls that workers share: each worker makes the next call that nobody has begun.
//!
//! - `taking`: the calls that one worker makes
//! - `placing`: what the calls gave, put to their numbers
//! - `sharing`: calls with all numbers below a count, by some workers
//!
//! Begin with `sharing`; `specs/Given.antt` says what is known of what a worker hands in.
#![tactic(auto)]

mod placing;
mod sharing;
mod taking;

pub use sharing::map_by_workers;
