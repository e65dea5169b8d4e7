//! The basic functions of Lua that call back nobody (manual 5.1), over the store of a page.
//!
//! Read `specs/Seen.antt` first: what an answer is seen as, and when it is the meaning's own.
//!
//! - `charges`: what things cost, in steps
//! - `stop`: why a function gives no values
//! - `values`: values, and lists of values
//! - `texts`: the text that a value is taken for
//! - `messages`: the texts of errors
//! - `arguments`: the arguments of functions
//! - `fields`: fields of tables, and metatables
//! - `raising`: `assert` and `error`
//! - `handlers`: `getmetatable` and `setmetatable`
//! - `raw`: `rawequal`, `rawget`, `rawset`
//! - `walking`: `next`
//! - `choosing`: `select` and `type`
//! - `unpacking`: `unpack`
//! - `numbers`: `tonumber`
//! - `objects`: objects of `mw.html`, and their fields
#![tactic(auto)]

pub mod arguments;
pub mod charges;
pub mod choosing;
pub mod fields;
pub mod handlers;
pub mod messages;
pub mod numbers;
pub mod objects;
pub mod raising;
pub mod raw;
pub mod stop;
pub mod texts;
pub mod unpacking;
pub mod values;
pub mod walking;

pub use lua_number::Left;
pub use lua_store::{
    CellId, Closure, ClosureId, ClosureKind, Library, List, MarkupChild, MarkupId, MarkupNode,
    MarkupStyle, ProtoId, Store, TableId, TextId, TextPair, Value,
};
pub use stop::Stop;
