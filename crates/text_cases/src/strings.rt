//! The kind `string`: what `lua_string` gives. The first word is the function's name in the library, and the others are its
//! arguments, in its order; a budget that is missing is as much as there can be.
//!
//! - A number, a text or the bytes of codes stand as they are; where there is no answer, `none`.
//! - `find` has `plain` or `pattern` before the budget. It and `match` give `FIRST LAST, N tries`, as Lua counts places;
//!   else `none, N tries`, `spent` or `fault N`.
//! - `replaced` and `replaced_length` have a replacement, for a match of `whole` with two captures, the text `xy` and the place
//!   12; with `alone` before the name, for a match of `w` without captures.
//! - `fmod`, `pow`, `abs`: a number, `by zero`, `out of range` or `not whole`

use crate::words::{
    between, budget, bytes, copied, fault, number, numbered, numbers, shown, text_or_none, word,
};
use lua_number::NumberFault;
use mw_text::{
    LuaStringCaptureText as CaptureText, OneByte, PatternFault, Search, abs, byte, ceil, floor,
    fmod, going_on, lower, lua_string_char_of as char_of, lua_string_find as find,
    lua_string_len as len, lua_string_match_from as match_from, lua_string_part as part,
    lua_string_replaced as replaced, lua_string_replaced_length as replaced_length,
    lua_string_sub as sub, max, min, pow, rep, rep_length, reverse, upper,
};
use std::alloc::Global;
use wiki_markup::NoMemory;

/// What a call gives.
pub(crate) fn answer(alloc: Global, text: &str) -> Result<Vec<u8>, NoMemory> {
    match word(text, 0) {
        "char_of" => chars(alloc, text),
        "max" | "min" => most(alloc, text),
        "abs" | "fmod" | "pow" | "ceil" | "floor" => of_numbers(alloc, text),
        _ => with_text(alloc, text),
    }
}

fn with_text(alloc: Global, text: &str) -> Result<Vec<u8>, NoMemory> {
    let s = bytes(alloc, text, 1)?;
    of_text(alloc, &s, text)
}

fn of_text(alloc: Global, s: &[u8], text: &str) -> Result<Vec<u8>, NoMemory> {
    match word(text, 0) {
        "sub" => sub(alloc, s, number(text, 2), number(text, 3)),
        "part" => copied(alloc, part(s, number(text, 2), number(text, 3))),
        "byte" => codes(alloc, s, text),
        "lower" => lower(alloc, s),
        "upper" => upper(alloc, s),
        "reverse" => reverse(alloc, s),
        "rep" => rep(alloc, s, number(text, 2)),
        "rep_length" => shown(alloc, rep_length(s, number(text, 2))),
        "len" => shown(alloc, len(s) as u64),
        _ => of_two_texts(alloc, s, text),
    }
}

fn of_two_texts(alloc: Global, s: &[u8], text: &str) -> Result<Vec<u8>, NoMemory> {
    match word(text, 0) {
        "find" | "match" => with_pattern(alloc, s, text),
        "replaced" => replacement(alloc, s, b"whole", &two_captures()),
        "replaced alone" => replacement(alloc, s, b"w", &[]),
        "replaced_length" => replacement_length(alloc, s, b"whole", &two_captures()),
        "replaced_length alone" => replacement_length(alloc, s, b"w", &[]),
        _ => copied(alloc, b"no such call"),
    }
}

fn codes(alloc: Global, s: &[u8], text: &str) -> Result<Vec<u8>, NoMemory> {
    match byte(alloc, s, number(text, 2), number(text, 3)) {
        Ok(codes) => Ok(codes.into_vec()),
        Err(NoMemory) => Err(NoMemory),
    }
}

fn chars(alloc: Global, text: &str) -> Result<Vec<u8>, NoMemory> {
    let codes = numbers(alloc, text)?;
    text_or_none(alloc, char_of(alloc, codes.as_slice()))
}

fn most(alloc: Global, text: &str) -> Result<Vec<u8>, NoMemory> {
    let values = numbers(alloc, text)?;
    match word(text, 0) {
        "max" => number_or_none(alloc, max(values.as_slice())),
        _ => number_or_none(alloc, min(values.as_slice())),
    }
}

fn number_or_none(alloc: Global, number: Option<i64>) -> Result<Vec<u8>, NoMemory> {
    match number {
        Some(number) => lua_number::text(alloc, number),
        None => copied(alloc, b"none"),
    }
}

fn of_numbers(alloc: Global, text: &str) -> Result<Vec<u8>, NoMemory> {
    let (a, b) = (number(text, 1), number(text, 2));
    match word(text, 0) {
        "abs" => number_or_fault(alloc, abs(a)),
        "fmod" => number_or_fault(alloc, fmod(a, b)),
        "pow" => number_or_fault(alloc, pow(a, b)),
        "ceil" => lua_number::text(alloc, ceil(a)),
        _ => lua_number::text(alloc, floor(a)),
    }
}

fn number_or_fault(alloc: Global, number: Result<i64, NumberFault>) -> Result<Vec<u8>, NoMemory> {
    match number {
        Ok(number) => lua_number::text(alloc, number),
        Err(NumberFault::ByZero) => copied(alloc, b"by zero"),
        Err(NumberFault::OutOfRange) => copied(alloc, b"out of range"),
        Err(NumberFault::NotWhole) => copied(alloc, b"not whole"),
    }
}

fn with_pattern(alloc: Global, s: &[u8], text: &str) -> Result<Vec<u8>, NoMemory> {
    let pattern = bytes(alloc, text, 2)?;
    going_on::<OneByte>();
    match word(text, 0) {
        "find" => places(alloc, &found(alloc, s, &pattern, text)),
        _ => places(
            alloc,
            &match_from(alloc, s, &pattern, number(text, 3), budget(text, 4)),
        ),
    }
}

fn found(alloc: Global, s: &[u8], pattern: &[u8], text: &str) -> Result<Search, PatternFault> {
    let plain = word(text, 4) == "plain";
    find(alloc, s, pattern, number(text, 3), plain, budget(text, 5))
}

/// Where a match starts and ends, as Lua counts.
fn places(alloc: Global, found: &Result<Search, PatternFault>) -> Result<Vec<u8>, NoMemory> {
    match found {
        Ok(Search::Found(it, tries)) => between(alloc, it.start, it.end, *tries),
        Ok(Search::NotFound(tries)) => numbered(alloc, b"none, ", *tries, b" tries"),
        Ok(Search::Spent) => copied(alloc, b"spent"),
        Err(it) => fault(alloc, *it),
    }
}

fn two_captures() -> [CaptureText<'static>; 2] {
    [CaptureText::Bytes(b"xy"), CaptureText::Place(12)]
}

fn replacement(
    alloc: Global,
    text: &[u8],
    whole: &[u8],
    captures: &[CaptureText],
) -> Result<Vec<u8>, NoMemory> {
    match replaced(alloc, text, whole, captures) {
        Ok(made) => Ok(made),
        Err(it) => fault(alloc, it),
    }
}

fn replacement_length(
    alloc: Global,
    text: &[u8],
    whole: &[u8],
    captures: &[CaptureText],
) -> Result<Vec<u8>, NoMemory> {
    match replaced_length(text, whole, captures) {
        Some(length) => shown(alloc, length),
        None => copied(alloc, b"none"),
    }
}
