//! Runs rows of cases of the lower libraries from standard input, and prints those that don't come to what they say.
//!
//! A row is a kind, a text, and what the text is to come to, with a tab and `\t=> ` between; escapes are those of `case_text`. Empty
//! lines, and those that begin with `#`, are passed over. What a text of a kind comes to is written as the kind's module says.
//!
//! - `lua_rows`: texts of Lua: `numbers`, `tokens`, `trees` (which `written` writes) and calls of their `laws`
//! - `markup`: what is shown of a page, and how it pairs
//! - `wikis`, `expansion`: small wikis, and the texts of an expansion
//! - `patterns`, and `small_patterns` beside a plain program, `plain_patterns`
//! - `strings`, `formats`, `code_points`, `wikitexts`: plain functions of the libraries; `times` runs one again and again
//! - `words`: the words of a row's text, and answers that several modules have
//! - `out`, `seed`: what is written of a row, the seed of every map
//!
//! There are no definitions here.
#![tactic(auto)]

mod code_points;
mod expansion;
mod formats;
mod laws;
mod lua_rows;
mod markup;
mod numbers;
mod out;
mod patterns;
mod plain_patterns;
mod seed;
mod small_patterns;
mod strings;
mod times;
mod tokens;
mod trees;
mod wikis;
mod wikitexts;
mod words;
mod written;

use crate::out::Out;
use case_text::unescaped;
use std::alloc::Global;
use std::io;
use wiki_markup::NoMemory;

fn put_of_kind(out: &mut Out, kind: &str, text: &str) {
    match kind {
        "markup" => markup::put_of_row(out, text),
        "wiki" => wikis::put_of_row(out, text),
        "expansion" => expansion::put_of_row(out, text),
        _ => lua_rows::put_of_row(out, kind, text),
    }
}

/// What a text comes to that is written piece by piece.
fn gathered(alloc: Global, kind: &str, text: &str) -> Result<Vec<u8>, NoMemory> {
    let mut out = Out::new(alloc);
    put_of_kind(&mut out, kind, text);
    out.given()
}

/// What a text of a kind comes to, as its rows write it.
fn answer(alloc: Global, kind: &str, text: &str) -> Result<Vec<u8>, NoMemory> {
    match kind {
        "format" => formats::answer(alloc, text),
        "pattern" => patterns::answer(alloc, text),
        "small patterns" => small_patterns::answer(alloc),
        "string" => strings::answer(alloc, text),
        "text" => wikitexts::answer(alloc, text),
        "times" => times::answer(alloc, text),
        "ustring" => code_points::answer(alloc, text),
        _ => gathered(alloc, kind, text),
    }
}

/// Tells of a row that is wrong.
fn tell(rt: &HostRuntime, row: &str, given: &[u8]) -> io::Result<bool> {
    println!(rt; "{row}\n  {:?}", given)?;
    Ok(false)
}

/// Whether a row came to what it says; where it didn't, it is printed with what it came to.
fn is_as_said(rt: &HostRuntime, row: &str, expected: &str, given: &[u8]) -> io::Result<bool> {
    let expected = unescaped(rt.alloc(), expected.as_bytes())?;
    if given == expected.as_slice() {
        return Ok(true);
    }
    tell(rt, row, given)
}

/// Whether a row's text comes to what the row says.
fn is_right(rt: &HostRuntime, row: &str) -> io::Result<bool> {
    let (kind, rest) = row.split_once('\t').unwrap_or((row, ""));
    let (text, expected) = rest.split_once("\t=> ").unwrap_or((rest, ""));
    match answer(rt.alloc(), kind, text) {
        Ok(given) => is_as_said(rt, row, expected, given.as_slice()),
        Err(_) => tell(rt, row, b"no memory"),
    }
}

/// Whether a line is a row that is right.
fn is_right_row(rt: &HostRuntime, line: &str) -> io::Result<bool> {
    if line.is_empty() || line.starts_with('#') {
        return Ok(false);
    }
    is_right(rt, line)
}

/// How many rows are right.
fn count_right(rt: &HostRuntime) -> io::Result<u64> {
    let mut right: u64 = 0;
    for line in rt.lines(rt.alloc()) {
        let line = line?;
        if is_right_row(rt, line.as_str())? {
            right = right.wrapping_add(1);
        }
    }
    Ok(right)
}

fn main(rt: HostRuntime) -> io::Result<()> {
    let right = count_right(&rt)?;
    println!(rt; "{right} rows are right")
}
