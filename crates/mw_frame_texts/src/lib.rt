//! Tags of HTML over the store of a page (Scribunto, `frame:extensionTag`, `mw.text.tag`).
//!
//! What a tag is stands in `lua_meaning` (`specs/Tag`). Read `specs/Written.antt` first: what is written of attributes that are read.
//!
//! - `attributes`: the attributes of a tag, read of a table
//! - `contents`: what follows the attributes
//! - `costs`: what a tag costs
//! - `copies`: the texts of a tag, copied
//! - `tagging`: the tag
#![tactic(auto)]

pub mod attributes;
pub mod contents;
pub mod copies;
pub mod costs;
pub mod tagging;

pub use mw_frames::copying::{copy_scene, copy_titles};
pub use mw_frames::index::args_index;
pub use mw_frames::keys::set_field;
pub use mw_frames::merging::merge_args;
pub use mw_frames::paying::{pay, pay_args, pay_texts, split_args};
pub use mw_frames::reading::{ArgText, pay_bytes, pay_passed, pay_read, read_args};
pub use mw_frames::{
    ENTRY_CHARGE, FieldNames, Left, Library, Parent, SceneFrame, Scenes, Stop, Store, TABLE_CHARGE,
    TableId, TextId, TextIn, Value, a_number, a_table, a_text, expected, fail, field_at, first,
    is_nil, is_true, make_frame, metatable, number_in, number_or, pair, refuse, refuse_kind, rest,
    second, single, text_in, third,
};
pub use tagging::extension_tag;
