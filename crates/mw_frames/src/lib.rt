//! The frames of a run, over the store of a page (Scribunto, Frame object): their tables, and what is read of tables for them.
//!
//! Read `specs/Scenes.antt` first: what the frames of a run are seen as.
//!
//! - `scenes`: the frames of a run
//! - `keys`: the names of arguments as keys
//! - `making`: the tables of a frame
//! - `index`: the `__index` of a frame's arguments
//! - `reading`: arguments that are read of a table
//! - `merging`: arguments of which no two have one name
//! - `copying`: copies of scenes
//! - `paying`: what is taken of the steps that are left
#![tactic(auto)]

pub mod copying;
pub mod index;
pub mod keys;
pub mod making;
pub mod merging;
pub mod paying;
pub mod reading;
pub mod scenes;

pub use index::args_index;
pub use lua_basic::arguments::{a_number, a_table, a_text, number_or};
pub use lua_basic::charges::{CLOSURE_CHARGE, ENTRY_CHARGE, TABLE_CHARGE};
pub use lua_basic::fields::{field_at, metatable};
pub use lua_basic::messages::{bad_argument, expected, fail, number_fault, refuse, refuse_kind};
pub use lua_basic::texts::{TextIn, text_in};
pub use lua_basic::values::{
    first, is_nil, is_true, kind_of, number_in, pair, rest, second, single, third,
};
pub use lua_basic::{Left, Library, ProtoId, Stop, Store, TableId, TextId, Value};
pub use lua_home::fields::{Field, Item, fill};
pub use making::make_frame;
pub use scenes::{FieldNames, Parent, SceneFrame, Scenes};
