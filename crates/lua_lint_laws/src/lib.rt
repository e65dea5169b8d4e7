//! No global that a run of Lua uses is missed by the linter: a function with an empty body, whose contract is a statement about the
//! definitions of `lua_uses` and `lua_meaning`.
//!
//! - `laws`: the names that a run notes, and those that are told of its modules
//!
//! Read `specs/Laws.antt` first, then `specs/Modules.antt` of `lua_uses`.
#![tactic(auto)]

pub mod laws;

pub use laws::none_is_missed;
