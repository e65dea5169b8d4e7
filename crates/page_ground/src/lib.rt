//! What the tasks of a page stand on (MediaWiki, Extension:Scribunto): what nothing on a page changes, what runs of Lua come to, and the data that
//! is kept.
//!
//! - `context`: what nothing on a page changes
//! - `data`: what the load of a data module gave
//! - `ending`: how an invocation ended and its text, or the data that a load gave
//! - `held_modules`: whether a module is held
//! - `keep`: what the loads of a page gave
//! - `numbers`: the numbers of the runs of a page
//! - `scenes`: texts and scenes from which expansions begin
//!
//! Begin with `specs/Ground.antt`, then `specs/Kept.antt`.
#![tactic(auto)]

pub mod context;
pub mod data;
pub mod ending;
pub mod held_modules;
pub mod keep;
pub mod numbers;
pub mod scenes;

pub use lua_graph::put_in;
pub use lua_state::Stack;
pub use page_meaning::JobOutcome;
