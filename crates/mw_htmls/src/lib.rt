//! The functions of `mw.html` over the store of a page: `create`, and the methods of its objects (Scribunto, HTML library).
//!
//! - `table`: which functions of the library they are
//! - `arguments`: what they are given
//! - `nodes`: an object of the store is changed
//! - `making`: `create` and `tag`
//! - `children`: `node`, `wikitext` and `newline`
//! - `lists`: an attribute or a style is set in its place, or removed
//! - `settings`: an attribute or a style is set
//! - `setting`: `attr` and `css` of one name
//! - `tabled`: `attr` and `css` of a table
//! - `classes`: `addClass`, `getAttr` and `cssText`
//! - `above`: `done` and `allDone`
//! - `call`: a function is called
//!
//! Begin with `specs/Table.antt`, then `specs/Nodes.antt`. What each function gives stands in `specs/Html.antt` of `lua_meaning`.
#![tactic(auto)]

pub mod above;
pub mod arguments;
pub mod call;
pub mod children;
pub mod classes;
pub mod lists;
pub mod making;
pub mod nodes;
pub mod setting;
pub mod settings;
pub mod table;
pub mod tabled;

pub use call::html_call;
pub use lua_strings::places::sub;
pub use lua_strings::{StringFunction, string_call, string_function};
pub use table::{HtmlFunction, Method, html_function};
