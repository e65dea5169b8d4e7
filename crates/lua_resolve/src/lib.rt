//! Code of a text of Lua: each name gets its place (manual 2.6, local variables and upvalues).
//!
//! - `rounds`: `resolve`, the public call, and `is_made_once`, which tests ask
//! - `expressions`, `statements`: code of the parts of a tree
//! - `operators`: code of operators
//! - `resolver`: names, constants and declarations
//! - `constants`: texts and names that were met, by their numbers
//! - `functions`: functions that are done, none of which has an idle cell
//! - `lists`: lists with room
//!
//! Which code is code of a text is said in `lua_slots` (`specs/IsCode.antt`), and where names stand in functions in progress in
//! `lua_scopes` (`specs/Scopes.antt`). Here begin with `specs/Parts.antt`: what each part of a tree leaves, as the cycle has it.
#![tactic(auto)]

mod constants;
mod expressions;
mod functions;
mod lists;
mod operators;
mod resolver;
mod rounds;
mod statements;

pub use lua_store::{TableId, TextId};
pub use rounds::{is_made_once, resolve};
