//! The kind `ustring`: what `mw_ustring` gives. The first word is the function's name in the library, and the others are its
//! arguments, in its order; a budget that is missing is as much as there can be.
//!
//! - A text, a number or the numbers of code points (with blanks between) stand as they are; where there is no answer, `none`.
//! - `find` has `plain` or `pattern` before the budget, and gives `FIRST LAST, N tries` in code points, as Lua counts them; else
//!   `none, N tries`, `spent` or `fault N`. `match`, and `plain_find` behind so many code points, give what a row of the kind
//!   `pattern` gives, in bytes from 0.
//! - `forms` has the numbers of code points, in hexadecimal, and gives those of their normal forms C, D, KC and KD.
//! - `walk` gives the sum of the code points, as std walks over them: what the times of the other functions are compared with.

ghost use Rattle.std.specs.Prelude.{IsUtf8};

use crate::out::Out;
use crate::patterns::search_text;
use crate::words::{
    between, budget, bytes, copied, fault, number, numbers, place, place_or_none, shown,
    text_or_none, truth, word,
};
use mw_frame::List;
use mw_text::{
    Search, byteoffset, codepoint, count_points, first_points, isutf8,
    mw_ustring_char_of as char_of, mw_ustring_find as find, mw_ustring_len as len,
    mw_ustring_match_from as match_from, mw_ustring_part as part, mw_ustring_sub as sub, offset,
    plain_find, point_place, points_behind, start, text_of, to_nfc, to_nfd, to_nfkc, to_nfkd,
};
use std::alloc::Global;
use wiki_markup::NoMemory;

/// What a call gives.
pub(crate) fn answer(alloc: Global, text: &str) -> Result<Vec<u8>, NoMemory> {
    match word(text, 0) {
        "char_of" => chars(alloc, text),
        "forms" => forms_of_codes(alloc, word(text, 1)),
        _ => with_text(alloc, text),
    }
}

fn chars(alloc: Global, text: &str) -> Result<Vec<u8>, NoMemory> {
    let codes = numbers(alloc, text)?;
    text_or_none(alloc, char_of(alloc, codes.as_slice()))
}

fn with_text(alloc: Global, text: &str) -> Result<Vec<u8>, NoMemory> {
    let s = bytes(alloc, text, 1)?;
    of_bytes(alloc, &s, text)
}

fn of_bytes(alloc: Global, s: &[u8], text: &str) -> Result<Vec<u8>, NoMemory> {
    match word(text, 0) {
        "isutf8" => truth(alloc, isutf8(s)),
        "len" => place_or_none(alloc, len(s)),
        "byteoffset" => place_or_none(alloc, byteoffset(s, number(text, 2), number(text, 3))),
        "nfc" => text_or_none(alloc, to_nfc(alloc, s)),
        "nfd" => text_or_none(alloc, to_nfd(alloc, s)),
        "walk" => shown(alloc, walk(s)),
        _ if isutf8(s) => of_points(alloc, s, text),
        _ => copied(alloc, b"no UTF-8"),
    }
}

/// The sum of the code points of a text, as std walks over it.
fn walk(text: &[u8]) -> u64 {
    let mut sum: u64 = 0;
    for point in std::str::from_utf8(text).unwrap_or("").chars() {
        sum = sum.wrapping_add(point as u64);
    }
    sum
}

fn of_points(alloc: Global, s: &[u8], text: &str) -> Result<Vec<u8>, NoMemory>
    requires text { IsUtf8 s.now }
{
    match word(text, 0) {
        "sub" => sub(alloc, s, number(text, 2), number(text, 3)),
        "part" => copied(alloc, part(s, number(text, 2), number(text, 3))),
        "points_behind" => copied(alloc, points_behind(s, place(text, 2))),
        "first_points" => copied(alloc, first_points(s, place(text, 2))),
        "text_of" => copied(alloc, text_of(s).as_bytes()),
        "count_points" => shown(alloc, count_points(s) as u64),
        "offset" => shown(alloc, offset(s, place(text, 2)) as u64),
        "start" => shown(alloc, start(s, number(text, 2)) as u64),
        "codepoint" => codes(alloc, s, text),
        _ => with_pattern(alloc, s, text),
    }
}

/// The numbers of code points, with blanks between.
fn codes(alloc: Global, s: &[u8], text: &str) -> Result<Vec<u8>, NoMemory>
    requires text { IsUtf8 s.now }
{
    match codepoint(alloc, s, number(text, 2), number(text, 3)) {
        Ok(codes) => joined(alloc, codes.as_slice()),
        Err(_) => Err(NoMemory),
    }
}

fn joined(alloc: Global, codes: &[u32]) -> Result<Vec<u8>, NoMemory> {
    let mut out = Out::new(alloc);
    for code in codes {
        out.put_gap();
        out.put_sum(u64::from(*code));
    }
    out.given()
}

fn with_pattern(alloc: Global, s: &[u8], text: &str) -> Result<Vec<u8>, NoMemory>
    requires text { IsUtf8 s.now }
{
    let pattern = bytes(alloc, text, 2)?;
    if isutf8(&pattern) {
        of_pattern(alloc, s, &pattern, text)
    } else {
        copied(alloc, b"no UTF-8")
    }
}

fn of_pattern(alloc: Global, s: &[u8], pattern: &[u8], text: &str) -> Result<Vec<u8>, NoMemory>
    requires text { IsUtf8 s.now }
    requires pattern { IsUtf8 pattern.now }
{
    match word(text, 0) {
        "find" => found(alloc, s, pattern, text),
        "match" => matched(alloc, s, pattern, text),
        "plain_find" => {
            let from = offset(s, place(text, 3));
            search_text(alloc, &plain_find(alloc, s, pattern, from))
        }
        _ => copied(alloc, b"no such call"),
    }
}

fn matched(alloc: Global, s: &[u8], pattern: &[u8], text: &str) -> Result<Vec<u8>, NoMemory>
    requires text { IsUtf8 s.now }
{
    match match_from(alloc, s, pattern, number(text, 3), budget(text, 4)) {
        Ok(it) => search_text(alloc, &it),
        Err(it) => fault(alloc, it),
    }
}

fn found(alloc: Global, s: &[u8], pattern: &[u8], text: &str) -> Result<Vec<u8>, NoMemory>
    requires text { IsUtf8 s.now }
    requires pattern { IsUtf8 pattern.now }
{
    let plain = word(text, 4) == "plain";
    match find(alloc, s, pattern, number(text, 3), plain, budget(text, 5)) {
        Ok(Search::Found(it, tries)) => {
            let (before, last) = (point_place(s, it.start), point_place(s, it.end));
            between(alloc, before, last, tries)
        }
        Ok(other) => search_text(alloc, &other),
        Err(it) => fault(alloc, it),
    }
}

fn forms_of_codes(alloc: Global, codes: &str) -> Result<Vec<u8>, NoMemory> {
    let text = spelled(alloc, codes)?;
    forms_text(alloc, &text)
}

/// The text of code points in hexadecimal, with blanks between them.
fn spelled(alloc: Global, codes: &str) -> Result<Vec<u8>, NoMemory> {
    let codes = hexadecimals(alloc, codes)?;
    text_or_none(alloc, char_of(alloc, codes.as_slice()))
}

fn hexadecimals(alloc: Global, codes: &str) -> Result<List<i64>, NoMemory> {
    let mut numbers = List::new(alloc);
    for code in codes.split(' ') {
        numbers.push(i64::from_str_radix(code, 16).unwrap_or(-1))?;
    }
    Ok(numbers)
}

/// The normal forms, each with its name in front, as code points in hexadecimal.
fn forms_text(alloc: Global, text: &[u8]) -> Result<Vec<u8>, NoMemory> {
    let mut out = Out::new(alloc);
    for name in ["C", " D", " KC", " KD"] {
        put_form(&mut out, name, text);
    }
    out.given()
}

fn put_form(out: &mut Out, name: &str, text: &[u8]) {
    out.put(name.as_bytes());
    match form(out.alloc, name, text) {
        Ok(Some(made)) => put_codes(out, &made),
        _ => out.lack(),
    }
}

fn form(alloc: Global, name: &str, text: &[u8]) -> Result<Option<Vec<u8>>, NoMemory> {
    match name {
        "C" => to_nfc(alloc, text),
        " D" => to_nfd(alloc, text),
        " KC" => to_nfkc(alloc, text),
        _ => to_nfkd(alloc, text),
    }
}

fn put_codes(out: &mut Out, text: &[u8]) {
    for point in std::str::from_utf8(text).unwrap_or("").chars() {
        put_code(out, point as u32);
    }
}

fn put_code(out: &mut Out, code: u32) {
    match format!(in out.alloc; " {code:04X}") {
        Ok(digits) => out.put(digits.as_bytes()),
        Err(_) => out.lack(),
    }
}
