//! Which global variables a module of Lua uses, with the modules that it requires.
//!
//! - `globals`: the answer, of a list of modules and one of them
//! - `reading`: the modules that are reached, and where their texts name globals
//! - `places`: where a text names globals
//! - `scopes`: the local variables that are seen at a place of a text
//! - `stack`: a list of which the newest item is at hand
//!
//! The definitions stand in `lua_uses`: read `specs/Uses.antt` there first, then `specs/Modules.antt`. Here `specs/Scopes.antt` says what the
//! code holds of local variables, and `specs/Seen.antt` what its values stand for.
#![tactic(auto)]

mod globals;
mod places;
mod reading;
mod scopes;
mod stack;

pub use globals::{GlobalUses, UnknownAt, uses};
pub use reading::Named;
