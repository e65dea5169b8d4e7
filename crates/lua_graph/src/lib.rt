//! Graphs of plain data, taken out of a store and put into one (Scribunto, `mw.loadData`), and copies (`mw.clone`).
//!
//! Read `specs/Plain.antt` first, and then `IsCopy` in `specs/Copied.antt`.
//!
//! - `copying`: copies of a table and of all that it reaches
//! - `graph`: graphs
//! - `fault`: why a value is no data
//! - `order`: the tables that a table reaches, in order of first reach
//! - `paying`: the steps that a copy costs
//! - `putting`: a graph is put into a store
//! - `taking`: a graph is taken out of a store
#![tactic(auto)]

mod copying;
pub mod fault;
pub mod graph;
mod order;
mod paying;
mod putting;
mod taking;

pub use copying::copy;
pub use fault::DataFault;
pub use graph::{Graph, GraphEntry, GraphItem, GraphNode};
pub use lua_store::{Library, NoMemory, Store, TableId, TextId, Value};
pub use putting::put_in;
pub use taking::take_out;
