//! The environment with which a run of Lua starts, in the store of a page (manual 2.8 and 5; Scribunto, "Lua environment").
//!
//! `start` has `environment`. Read `EnvironmentOf` in `lua_stack`'s `specs/Of.antt` and `specs/Made.antt` of `lua_home` first.
//!
//! - `names`: the names of handlers
//! - `start`: the environment of a run that starts
#![tactic(auto)]

pub mod names;
pub mod start;

pub use start::environment;
