//! Reading a piece of Lua (manual 8) from its tokens, from left to right: what a function that does so answers, what its answer
//! says of every text that begins so, and the laws by which the answers for the parts make the answer for the whole.
//!
//! - `answer`: the answers, a tree with its end and height or a fault with its place
//! - `tokens`, `context`: a look at a token, and where a node stands
//! - `operators`, `ends`: operators and their levels, and what ends a block
//! - `make`, `short_lists`: a node is made, with the plain tree for which it stands; lists that mostly have one item
//!
//! The definitions stand in `specs/Parsing.antt` (read it first: `ReadsTree` and `ReadsFault`), `specs/Answers.antt` (expressions,
//! tables and functions) and `specs/StatAnswers.antt` (statements). The laws are lemmas, which `lua_parser` and
//! `lua_grammar_laws` cite, in folders of `proofs/`: `pieces` (sequences of tokens and trees), `levels` (levels of operators and left
//! recursion), `expressions`, `lists`, `functions` and `statements`.
#![tactic(auto)]

pub mod answer;
pub mod context;
pub mod ends;
pub mod make;
pub mod operators;
pub mod short_lists;
pub mod tokens;

pub use answer::{Fault, FaultPlace, Reading, fault_at};
pub use lua_grammar::{Context, TokenClass};
