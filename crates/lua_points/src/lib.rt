//! Where a machine over slots stands in a run of Lua, what its calls mean, and why machines that share a store do not notice each other.
//! Definitions and laws alone; nothing here is executed.
//!
//! The definitions stand in `specs/`; read `specs/At.antt` first:
//!
//! - `At`: a machine stands in a store at a point of a run; what a call does
//! - `Told`: a fresh environment, and answers
//! - `Laws`: what holds of `start`, `go` and `answer`, and of points that wait
//! - `Clauses`: the same as code cites it, for all runs at once
//! - `Families`: many machines of one store
//!
//! Each function has an empty body, and its contract is a law about those definitions:
//!
//! - `laws`: the laws, as `Laws`, `Clauses` and `Families` say them
#![tactic(auto)]

pub mod laws;
