//! Data modules of one page: what was loaded is kept, and is shared read-only (Scribunto, `mw.loadData`).
//!
//! Read `specs/Shared.antt` first.
//!
//! - `keep`: what the loads of a page gave
//! - `sharing`: the data of a value, read-only
#![tactic(auto)]

pub mod keep;
mod sharing;

pub use keep::{DataKeep, Kept};
pub use sharing::make_shared;
