//! The laws of Lua's tokens on which a layout stands: functions with an empty body, whose contracts are statements about the definitions of
//! `lua_lexer` and `lua_grammar`.
//!
//! - `pieces`: where a piece of a text ends (manual 2.1): it has some of the text's bytes, and is the same in front of other bytes where the
//!   first of them can't go on with it
//! - `neighbours`: what stands beside what among the tokens of a chunk (manual 8): in front of a point stands what can be indexed, behind it
//!   a name, and behind `[` no `=`
//! - `twins`: tokens that differ in places and lines alone spell the same chunk, lines aside
//!
//! Read `specs/Pieces.antt`, `specs/Neighbours.antt` and `specs/Twins.antt` first; `lua_lexer/specs/Lexis.antt` for what a piece is, and
//! `lua_grammar/specs/Grammar.antt` for what a chunk is.
#![tactic(auto)]

pub mod neighbours;
pub mod pieces;
pub mod twins;

pub use neighbours::neighbours_fit;
pub use pieces::{closed_pieces_stay, pieces_fit, pieces_stay};
pub use twins::twins_spell;
