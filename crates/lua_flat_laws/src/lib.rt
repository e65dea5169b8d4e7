//! The laws of flat code: that each operation is moves of a machine over trees, at the same steps. Definitions and laws alone.
//!
//! - `specs/Follows.antt`: when a move of a flat machine is moves of a machine over trees
//! - `specs/Laws.antt`: the laws
//! - `laws`: functions with an empty body, whose contracts are the laws
#![tactic(auto)]

pub mod laws;
