//! The lexis of Lua (manual 2.1): a text of bytes as its tokens, or the first fault.
//!
//! - `token`: the tokens
//! - `lexer`: `lex`, which goes over a text piece by piece
//! - `pieces`: what stands at a place: white space, a comment or a token
//! - `marks`: marks, keywords and the size of numerals
//! - `strings`: strings in quotes
//! - `brackets`: long brackets, and line breaks
//! - `classes`: kinds of bytes, and runs of them
//!
//! The definitions stand in `specs/Lexis.antt` (read it first), and `specs/Answers.antt` joins them to the answers of the functions.
#![tactic(auto)]

mod brackets;
mod classes;
pub mod lexer;
mod marks;
mod pieces;
mod strings;
pub mod token;

pub use lexer::{is_lexed_once, lex};
pub use token::{Token, TokenKind};
