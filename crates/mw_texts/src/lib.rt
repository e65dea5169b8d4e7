//! The functions of `mw.text` that call back nobody, over the store of a page (Scribunto, Text library).
//!
//! What each function gives stands in `specs/Texts.antt` of `lua_meaning`; begin there.
//!
//! - `sets`: `trim` and `encode`
//! - `splitting`: `split`
//! - `tables`: a new table with texts
//! - `paying`: texts that are paid for before they are made
//! - `plain`: `decode`, `nowiki` and `truncate`
//! - `listing`: `listToText`
//! - `tagging`: `tag`
//! - `table`: which functions they are
//! - `call`: a function is called
#![tactic(auto)]

pub mod call;
pub mod listing;
pub mod paying;
pub mod plain;
pub mod sets;
pub mod splitting;
pub mod table;
pub mod tables;
pub mod tagging;

pub use call::text_call;
pub use mw_ustrings::{FieldNames, UstringFunction, ustring_call, ustring_function};
pub use table::{TextFunction, text_function};
