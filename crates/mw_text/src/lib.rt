//! The plain functions of MediaWiki's `mw.text` (Scribunto manual, Text library), over UTF-8.
//!
//! Texts are bytes; where a function needs them to be UTF-8, it says so, and `mw_ustring::isutf8` tells.
//!
//! - `answers`: what functions give within a budget of steps
//! - `sets`: the sets of `trim` and `encode`
//! - `ends`: the code points at both ends of a text
//! - `trimming`: `trim`
//! - `splitting`: `split`, and the step of `gsplit`
//! - `references`: character references; `encode` and `nowiki`
//! - `decoding`: `decode`
//! - `joining`: `listToText` and `truncate`
//! - `tagging`: `tag`
//! - `laws`: what `tag` writes of a value is what `encode` gives
//!
//! The definitions: begin with `specs/Answers.antt`, then take the file of the function: `specs/Trim.antt`, `Split`,
//! `References`, `Decode`, `Joined`, `Tag`.
#![tactic(auto)]

pub mod answers;
pub mod decoding;
pub mod ends;
pub mod joining;
pub mod laws;
pub mod references;
pub mod sets;
pub mod splitting;
pub mod tagging;
pub mod trimming;

pub use answers::{PartsAnswer, TextAnswer};
pub use decoding::decode;
pub use joining::{list_to_text, truncate};
pub use laws::value_is_encoded;
pub use mw_ustring::{
    Alphabet, Bytes, Capture, Class, Item, List, LuaStringCaptureText,
    LuaStringReplacingCaptureText, Match, OneByte, OnePoint, Part as LuaPatternItemPart, Pattern,
    PatternFault, PreparedSet, Search, Set, Single, Slot, abs, byte, byteoffset, ceil,
    char_of as mw_ustring_char_of, codepoint, count_points, find as mw_ustring_find, first_points,
    floor, fmod, going_on, isutf8, len as mw_ustring_len, lower, lua_string_char_of,
    lua_string_find, lua_string_len, lua_string_match_from, lua_string_part, lua_string_replaced,
    lua_string_replaced_length, lua_string_replacing_replaced,
    lua_string_replacing_replaced_length, lua_string_sub, match_from as mw_ustring_match_from, max,
    min, offset, part as mw_ustring_part, plain_find, point_place, points_behind, pow, push_all,
    read_set, rep, rep_length, reverse, start, sub as mw_ustring_sub, symbol_at, text_from,
    text_of, to_nfc, to_nfd, to_nfkc, to_nfkd, upper,
};
pub use references::{encode, nowiki};
pub use splitting::{Part, PartAnswer, next_part, split};
pub use tagging::{TagAttr, TagContent, TagValue, tag};
pub use trimming::trim;
