//! The store of one page: all texts, tables, cells, functions and markup objects that its Lua code makes.
//!
//! - `ids`: the names of what stands in a store
//! - `value`: the values of Lua
//! - `laws`: what is true of all stores
//! - `store`: the store, and its calls on texts, cells, closures and markup objects
//! - `tables`: its calls on tables
//! - `texts`: byte strings, each kept once
//! - `vectors`: changes of a vector
//! - `closure`, `markup`: closures, and objects of `mw.html`
//! - `closures`: the closures of a store, with the numbers of their invocations
//!
//! Of the definitions read `specs/Seen.antt` first: what is seen of a store, which is a heap of `lua_heap` and its texts.
#![tactic(auto)]

pub mod closure;
mod closures;
pub mod ids;
pub mod laws;
pub mod markup;
pub mod store;
mod tables;
mod texts;
pub mod value;
mod vectors;

pub use closure::{Closure, ClosureKind, ProtoId};
pub use ids::{CellId, ClosureId, MarkupId, TableId, TextId};
pub use lua_heap::Library;
pub use lua_table::Slot;
pub use markup::{MarkupChild, MarkupNode, MarkupStyle, TextPair};
pub use store::Store;
pub use value::Value;
pub use wk_base::{Bytes, Left, List, NoMemory};
