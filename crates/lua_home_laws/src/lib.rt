//! What a fresh environment is to a machine (manual 5; Scribunto, "Lua environment"). Laws alone; nothing here is executed.
//!
//! Read `specs/Laws.antt` first.
//!
//! - `laws`: functions with an empty body, whose contracts are the laws
#![tactic(auto)]

pub mod laws;
