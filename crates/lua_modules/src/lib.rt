//! Modules in a machine of Lua: `require`, and `mw.loadData` (manual 5.3; Scribunto, "require" and mw.loadData).
//!
//! - `messages`: texts of failures
//! - `texts`: arguments that are texts, and titles that they are read as
//! - `raising`: errors with these messages
//! - `strict`: `require('strict')`
//! - `running`: the text of a module begins
//! - `requiring`: `require`
//! - `loading`: `mw.loadData`
//!
//! The moves stand in `lua_slots` (`specs/Modules.antt`); that code makes one is `Makes` of `lua_state`.
#![tactic(auto)]

pub mod loading;
pub mod messages;
pub mod raising;
pub mod requiring;
pub mod running;
pub mod strict;
pub mod texts;

pub use loading::{data_answer, load_data};
pub use lua_state::{
    Asked, Ending, Focus, Frame, Given, InRun, Jump, Outcome, Parent, Pending, SceneFrame, Scenes,
    State, Turn, Values, Work, boxed, call, enter_call, fail, fail_quoting, finish, handler,
    index_table, is_function, is_nil, make_frame, pay, pay_args,
};
pub use requiring::{module_answer, require, require_module};
pub use running::run_text;
