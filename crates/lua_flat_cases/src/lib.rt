//! Small modules and their flat code. Nothing here is executed.
//!
//! - `examples`: functions with an empty body, whose contracts are what is said of these modules
#![tactic(auto)]

pub mod examples;
