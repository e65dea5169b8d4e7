//! A run over names and a machine over slots make the same events: the relation between them, and that each move follows the run.
//! Definitions and laws alone; nothing here is executed.
//!
//! The definitions stand in `specs/`; read them in this order:
//!
//! - `Variables`: open variables and registers, cells and places, scopes
//! - `Values`: jumps, outcomes, targets, what waits in the library, what is kept of a run
//! - `Functions`: a function of a run, and one of a machine
//! - `Rests`: what follows in a run, and the frames that wait: one constructor for each frame
//! - `Agree`: things, points, and what both hold
//! - `Follows`: when a move follows a run
//! - `Met`: where a move leaves a run, with what is left of the allowances
//! - `Laws`: each move follows the run, so it is met by it
//! - `Named`: the objects that a machine names
//!
//! Each function has an empty body, and its contract is a law about those definitions:
//!
//! - `laws`: the laws of the simulation, as `Laws` says them
#![tactic(auto)]

pub mod laws;
