//! The laws that the grammar of Lua (manual 8) spells each text once: functions with an empty body, whose contracts are
//! statements about the definitions of `lua_grammar`.
//!
//! - `laws`: a list of tokens, and so a text, spells one chunk at most
//!
//! Read `lua_grammar/specs/Grammar.antt` first; no definitions stand here.
#![tactic(auto)]

pub mod laws;

pub use laws::{spelled_once, text_spelled_once};
