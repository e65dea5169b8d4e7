//! Walks over the tables of a heap: which tables are reached, and in which order; data that is taken out of a heap; and copies
//! of values. Definitions, with their laws; nothing here is executed.
//!
//! The definitions stand in `specs/`, in this order:
//!
//! - `Order`: the tables that are reached from one, in order of first reach
//! - `Data`: the graph of a value that is data, or its first fault (`mw.loadData`)
//! - `Copy`: the copy of a value, and its cost (`mw.clone`)
//! - `Examples`: small heaps, walked by hand
//!
//! Each function has an empty body, and its contract is what it is named after:
//!
//! - `laws`: the walk reaches what it should, data are graphs, and copies are new (`Laws`)
//! - `examples`: the small heaps are walked as `Examples` says
#![tactic(auto)]

pub mod examples;
pub mod laws;
