//! The functions of Lua's `table` (manual 5.5), over the store of a page: `concat`, `insert`, `maxn`, `remove`, `sort`.
//!
//! Read `specs/TableLibrary.antt` of `lua_meaning` first: what each function gives, and its charge.
//!
//! - `checks`: further arguments of functions
//! - `paying`: charges of several parts
//! - `places`: values are read and put at places of a table
//! - `walking`: values are read up to the first one that a test refuses
//! - `joining`: `concat`
//! - `inserting`: `insert`
//! - `counting`: `maxn`
//! - `removing`: `remove`
//! - `distinct`: strings, each once with how often it stands among values
//! - `ordering`: values are put in order
//! - `sorting`: `sort`
//! - `table`: which functions they are
//! - `call`: one of them is called
#![tactic(auto)]

pub mod call;
pub mod checks;
pub mod counting;
pub mod distinct;
pub mod inserting;
pub mod joining;
pub mod ordering;
pub mod paying;
pub mod places;
pub mod removing;
pub mod sorting;
pub mod table;
pub mod walking;

pub use call::table_call;
pub use lua_basic::{Left, Library, Stop, Store, TableId, TextId, Value};
pub use table::{TableFunction, table_function};
