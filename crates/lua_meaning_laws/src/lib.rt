//! Laws of the meaning of Lua that go over whole runs: functions with an empty body, whose contracts are statements about the
//! definitions of `lua_meaning`.
//!
//! - `laws`: what the run of a data module asks
//!
//! Of the definitions read `specs/Laws.antt` first.
#![tactic(auto)]

pub mod laws;

pub use laws::data_runs_ask_for_data;
