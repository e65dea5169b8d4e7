//! Expressions that are read where they stand: what they are worth, for as many steps as they have nodes, and that the moves of a
//! machine come to the same. Definitions and laws alone.
//!
//! The definitions stand in `specs/`; read `specs/InPlace.antt` first, then `Laws` and `Examples`.
//!
//! - `laws`: functions with an empty body, whose contracts are the laws and the examples
#![tactic(auto)]

pub mod laws;
