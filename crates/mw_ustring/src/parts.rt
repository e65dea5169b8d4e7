//! Parts of a text by places of Lua, counted in code points (Scribunto, Ustring library).
ghost use Rattle.std.specs.Prelude.{◌≡◌, IsUtf8, IfOk, OnOk, MatchOption, Some, None, true, false, ◌++◌, string_bytes, chars, encode_utf8_all, unsigned_abs};
ghost use Rattle.std.specs.Char.{encode_utf8};
ghost use Rattle.mw_ustring.specs.Texts.{points_of, is_point, text_of_codes};

use crate::points::{count, text_before, text_behind, text_of};
use lua_string::place::{first_place, last_place};
use lua_string::{List, NoMemory};
use std::alloc::Global;

/// The code points from one place to another, both included, in the text itself.
pub fn part(s: &[u8], from: i64, to: i64) -> &[u8]
    requires text { IsUtf8 s.now }
    ensures text { IsUtf8 result.now }
    ensures points { chars result.now ≡ points_of s.now from to }
{
    let text = text_of(s);
    let count = count(text);
    let first = first_place(count, from);
    let last = last_place(count, to);
    text_before(text_behind(text, first), last.saturating_sub(first)).as_bytes()
}

/// `mw.ustring.sub(s, from, to)`
pub fn sub(alloc: Global, s: &[u8], from: i64, to: i64) -> Result<Vec<u8>, NoMemory>
    requires text { IsUtf8 s.now }
    ensures { IfOk result (λ made. made.items ≡ encode_utf8_all (points_of s.now from to)) }
{
    match part(s, from, to).to_vec(alloc) {
        Ok(made) => Ok(made),
        Err(_) => Err(NoMemory),
    }
}

/// The code points of a text.
fn codes_of(alloc: Global, text: &str) -> Result<List<u32>, NoMemory>
    ensures { IfOk result (λ codes. codes ≡ chars text.now) }
{
    let mut codes = List::new(alloc);
    for point in text.chars() {
        codes.push(point as u32)?;
    }
    Ok(codes)
}

/// `mw.ustring.codepoint(s, from, to)`: the numbers of the code points.
pub fn codepoint(alloc: Global, s: &[u8], from: i64, to: i64) -> Result<List<u32>, NoMemory>
    requires text { IsUtf8 s.now }
    ensures { IfOk result (λ codes. codes ≡ points_of s.now from to) }
{
    let codes = codes_of(alloc, text_of(part(s, from, to)))?;
    Ok(codes)
}

/// The code point with a number, if there is one that UTF-8 can write.
fn point(code: i64) -> Option<char>
    ensures { MatchOption result (is_point code ≡ false) (λ c. (is_point code ≡ true) × (c ≡ unsigned_abs code)) }
{
    match u32::try_from(code) {
        Ok(code) => char::from_u32(code),
        Err(_) => None,
    }
}

/// Adds a code point to a text.
fn put(made: &mut String, point: char) -> Result<(), NoMemory>
    ensures { OnOk result (string_bytes made.new ≡ string_bytes made.old ++ encode_utf8 point) }
{
    match made.push(point) {
        Ok(_) => Ok(()),
        Err(_) => Err(NoMemory),
    }
}

/// `mw.ustring.char(..)`: the text with these code points; None where a number is a surrogate, below 0 or above U+10FFFF.
pub fn char_of(alloc: Global, codes: &[i64]) -> Result<Option<Vec<u8>>, NoMemory>
    ensures { IfOk result (λ made. MatchOption made (text_of_codes codes.now ≡ None) (λ v. text_of_codes codes.now ≡ Some v.items)) }
{
    let mut made = String::new(alloc);
    let mut left = codes;
    'codes: while let [code, rest @ ..] = left {
        let Some(point) = point(*code) else {
            return Ok(None);
        };
        put(&mut made, point)?;
        left = rest;
    }
    Ok(Some(made.into_bytes()))
}
