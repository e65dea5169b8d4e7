//! The functions of the library that call back nobody, over the store of a page (manual 5; Scribunto).
//!
//! Read `specs/Table.antt` first: which of them are plain, and what the meaning says of each.
//!
//! - `table`: which functions are plain
//! - `mw`: those that Scribunto adds
//! - `call`: a plain function is called
//! - `copying`: `mw.clone`
//! - `titles`: `mw.title.getCurrentTitle`
#![tactic(auto)]

pub mod call;
pub mod copying;
pub mod mw;
pub mod table;
pub mod titles;

pub use call::plain_call;
pub use copying::mw_clone;
pub use lua_basic::arguments::{a_number, a_table};
pub use lua_basic::texts::text_in;
pub use lua_basic::values::{first, rest, second, third};
pub use lua_basic::{Library, Stop};
pub use lua_graph::TableId;
pub use table::{PlainFunction, plain_function};
pub use titles::mw_get_current_title;
