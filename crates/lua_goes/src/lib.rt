//! A machine over slots goes on until an event: that it comes to one, and what is counted and given back. Definitions and laws alone.
//!
//! The definitions stand in `specs/`; read `specs/Going.antt` first:
//!
//! - `Going`: moves one after another, and the event that they come to
//! - `Weight`: of what is next and of what waits; it falls in each move that costs no step
//! - `Laws`
//!
//! Each function has an empty body, and its contract is a law about those definitions:
//!
//! - `laws`: the laws, as `Laws` says them
#![tactic(auto)]

pub mod laws;
