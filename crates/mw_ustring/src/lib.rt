//! Functions on the code points of texts (Scribunto, Ustring library).
//!
//! Texts are bytes in UTF-8. Where a caller does not know it, `isutf8` tells.
//!
//! - `points`: lengths, and places of code points in the bytes
//! - `parts`: `sub`, `codepoint` and `char`
//! - `byte_places`: `byteoffset`
//! - `finding`: `find` and `match`, within a budget of steps
//! - `forms`: the normal forms
//!
//! The definitions: begin with `specs/Texts.antt`, then `specs/Finds.antt` and `specs/Forms.antt`.
#![tactic(auto)]

pub mod byte_places;
pub mod finding;
pub mod forms;
pub mod parts;
pub mod points;

pub use byte_places::byteoffset;
pub use finding::{find, match_from, plain_find, start};
pub use forms::{to_nfc, to_nfd, to_nfkc, to_nfkd};
pub use lua_string::replacing::{
    CaptureText as LuaStringReplacingCaptureText, replaced as lua_string_replacing_replaced,
    replaced_length as lua_string_replacing_replaced_length,
};
pub use lua_string::text::push_all;
pub use lua_string::{
    Alphabet, Bytes, Capture, CaptureText as LuaStringCaptureText, Class, Item, List, Match,
    NoMemory, OneByte, OnePoint, Part, Pattern, PatternFault, PreparedSet, Search, Set, Single,
    Slot, abs, byte, ceil, char_of as lua_string_char_of, find as lua_string_find, floor, fmod,
    going_on, len as lua_string_len, lower, match_from as lua_string_match_from, max, min,
    part as lua_string_part, pow, read_set, rep, rep_length, replaced as lua_string_replaced,
    replaced_length as lua_string_replaced_length, reverse, sub as lua_string_sub, symbol_at,
    text_from, upper,
};
pub use parts::{char_of, codepoint, part, sub};
pub use points::{
    count_points, first_points, isutf8, len, offset, point_place, points_behind, text_of,
};
