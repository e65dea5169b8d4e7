//! A machine asks for the tables of a data module once: definitions and laws alone. Read `specs/Laws.antt`.
//!
//! - `laws`: functions with an empty body, whose contracts are the laws
#![tactic(auto)]

pub mod laws;
