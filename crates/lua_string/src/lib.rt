//! The plain functions of Lua's `string` and `math` (Lua 5.1 manual, 5.4 and 5.6), over whole numbers of 64 bits.
//!
//! - `place`: places of Lua in a text; `sub` and `byte`
//! - `text`: `char`, `len`, `lower`, `upper`, `rep` and `reverse`
//! - `finding`: `find` and `match`, within a budget of steps
//! - `replacing`: what a replacement text of `gsub` stands for
//! - `walking`: the law that `gsub` may search on in place of going from place to place
//! - `math`: the functions of `math`, over whole numbers
//!
//! The definitions stand in `specs/Places.antt`, `specs/Texts.antt`, `specs/Finds.antt`, `specs/Replacements.antt`,
//! `specs/Walk.antt` (the way of `gsub` and `gmatch`) and `specs/Whole.antt`.
#![tactic(auto)]

pub mod finding;
pub mod math;
pub mod place;
pub mod replacing;
pub mod text;
pub mod walking;

pub use finding::{find, match_from};
pub use lua_number::{Bytes, NoMemory, NumberFault};
pub use lua_pattern::item::{Class, Item, Part, Set, Single};
pub use lua_pattern::slots::Slot;
pub use lua_pattern::{
    Alphabet, Capture, List, Match, OneByte, OnePoint, Pattern, PatternFault, PreparedSet, Search,
    read_set, symbol_at, text_from,
};
pub use math::{abs, ceil, floor, fmod, max, min, pow};
pub use place::{byte, part, sub};
pub use replacing::{CaptureText, replaced, replaced_length};
pub use text::{char_of, len, lower, rep, rep_length, reverse, upper};
pub use walking::going_on;
