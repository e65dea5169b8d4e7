//! The kind `text`: what `mw_text` gives. The first word is the function's name in the library, and the others are its
//! arguments, in its order; a budget that is missing is as much as there can be.
//!
//! - `trim` and `encode` have their set between `[` and `]`, or an empty word for the usual one, and give `N tries: TEXT`; else
//!   `spent` or `fault N`.
//! - `split` has `plain` or `pattern` before the budget, and gives the parts, each with `|` behind it; `split_tries` gives
//!   `N parts, N tries`; else `spent` or `fault N`. `next_part` likewise, with its place in code points behind `plain` or
//!   `pattern`: where the part stops and where the next begins, in bytes from 0, and the tries.
//! - `list_to_text` has the items; `, ` and ` and ` stand between them.
//! - `truncate` has `adjust` last, or nothing.
//! - `tag` has a name, then `open`, `closed` or a text with `'` in front, and then attributes: a name, or `NAME=VALUE`.

ghost use Rattle.std.specs.Prelude.{IsUtf8};

use crate::out::Out;
use crate::words::{budget, bytes, copied, escaped, fault, number, place, put_tries, word};
use mw_frame::{Bytes, List};
use mw_text::{
    PartAnswer, PartsAnswer, PatternFault, TagAttr, TagContent, TagValue, TextAnswer, decode,
    encode, isutf8, list_to_text, next_part, nowiki, offset, split, tag, trim, truncate,
    value_is_encoded,
};
use std::alloc::Global;
use wiki_markup::NoMemory;

/// What a call gives.
pub(crate) fn answer(alloc: Global, text: &str) -> Result<Vec<u8>, NoMemory> {
    match word(text, 0) {
        "list_to_text" => joined(alloc, text),
        "tag" => tagged(alloc, text),
        _ => with_text(alloc, text),
    }
}

fn with_text(alloc: Global, text: &str) -> Result<Vec<u8>, NoMemory> {
    let s = bytes(alloc, text, 1)?;
    of_bytes(alloc, &s, text)
}

fn of_bytes(alloc: Global, s: &[u8], text: &str) -> Result<Vec<u8>, NoMemory> {
    match word(text, 0) {
        "decode" => decode(alloc, s),
        "nowiki" => nowiki(alloc, s),
        _ if isutf8(s) => of_text(alloc, s, text),
        _ => copied(alloc, b"no UTF-8"),
    }
}

fn of_text(alloc: Global, s: &[u8], text: &str) -> Result<Vec<u8>, NoMemory>
    requires text { IsUtf8 s.now }
{
    match word(text, 0) {
        "trim" => told(alloc, &trim(alloc, s, set_of(text), budget(text, 3))),
        "encode" => told(alloc, &encode(alloc, s, set_of(text), budget(text, 3))),
        "truncate" => with_ellipsis(alloc, s, text),
        _ => with_separator(alloc, s, text),
    }
}

/// What stands between `[` and `]` in the word behind a text; none where they are missing.
fn set_of(text: &str) -> Option<&[u8]> {
    match word(text, 2).as_bytes() {
        [b'[', set @ .., b']'] => Some(set),
        _ => None,
    }
}

fn told(alloc: Global, given: &Result<TextAnswer, PatternFault>) -> Result<Vec<u8>, NoMemory> {
    match given {
        Ok(TextAnswer::Text(made, tries)) => tries_and_text(alloc, *tries, made),
        Ok(TextAnswer::Spent) => copied(alloc, b"spent"),
        Err(it) => fault(alloc, *it),
    }
}

fn tries_and_text(alloc: Global, tries: u64, text: &[u8]) -> Result<Vec<u8>, NoMemory> {
    let mut out = Out::new(alloc);
    out.put_sum(tries);
    out.put(b" tries: ");
    out.put(text);
    out.given()
}

fn with_ellipsis(alloc: Global, s: &[u8], text: &str) -> Result<Vec<u8>, NoMemory>
    requires text { IsUtf8 s.now }
{
    let dots = bytes(alloc, text, 3)?;
    if isutf8(&dots) {
        truncate(alloc, s, number(text, 2), &dots, word(text, 4) == "adjust")
    } else {
        copied(alloc, b"no UTF-8")
    }
}

fn with_separator(alloc: Global, s: &[u8], text: &str) -> Result<Vec<u8>, NoMemory>
    requires text { IsUtf8 s.now }
{
    let separator = bytes(alloc, text, 2)?;
    if isutf8(&separator) {
        of_separator(alloc, s, &separator, text)
    } else {
        copied(alloc, b"no UTF-8")
    }
}

fn of_separator(alloc: Global, s: &[u8], separator: &[u8], text: &str) -> Result<Vec<u8>, NoMemory>
    requires text { IsUtf8 s.now }
    requires separator { IsUtf8 separator.now }
{
    let plain = word(text, 3) == "plain";
    match word(text, 0) {
        "split" => parts(alloc, &split(alloc, s, separator, plain, budget(text, 4))),
        "split_tries" => tries(alloc, &split(alloc, s, separator, plain, budget(text, 4))),
        "next_part" => {
            let from = offset(s, place(text, 4));
            part(
                alloc,
                &next_part(alloc, s, separator, plain, from, budget(text, 5)),
            )
        }
        _ => copied(alloc, b"no such call"),
    }
}

fn parts(alloc: Global, given: &Result<PartsAnswer, PatternFault>) -> Result<Vec<u8>, NoMemory> {
    match given {
        Ok(PartsAnswer::Parts(parts, _)) => with_bars(alloc, parts.as_slice()),
        Ok(PartsAnswer::Spent) => copied(alloc, b"spent"),
        Err(it) => fault(alloc, *it),
    }
}

fn with_bars(alloc: Global, parts: &[Bytes]) -> Result<Vec<u8>, NoMemory> {
    let mut out = Out::new(alloc);
    for part in parts {
        out.put(part.as_slice());
        out.put(b"|");
    }
    out.given()
}

fn tries(alloc: Global, given: &Result<PartsAnswer, PatternFault>) -> Result<Vec<u8>, NoMemory> {
    match given {
        Ok(PartsAnswer::Parts(parts, tries)) => counts(alloc, parts.as_slice().len(), *tries),
        Ok(PartsAnswer::Spent) => copied(alloc, b"spent"),
        Err(it) => fault(alloc, *it),
    }
}

fn part(alloc: Global, given: &Result<PartAnswer, PatternFault>) -> Result<Vec<u8>, NoMemory> {
    match given {
        Ok(PartAnswer::Part(it)) => one_part(alloc, it.stop, it.next, it.tries),
        Ok(PartAnswer::Spent) => copied(alloc, b"spent"),
        Err(it) => fault(alloc, *it),
    }
}

fn counts(alloc: Global, parts: usize, tries: u64) -> Result<Vec<u8>, NoMemory> {
    let mut out = Out::new(alloc);
    out.put_count(parts);
    out.put(b" parts");
    put_tries(&mut out, tries);
    out.given()
}

fn one_part(
    alloc: Global,
    stop: usize,
    next: Option<usize>,
    tries: u64,
) -> Result<Vec<u8>, NoMemory> {
    let mut out = Out::new(alloc);
    out.put_count(stop);
    put_next(&mut out, next);
    put_tries(&mut out, tries);
    out.given()
}

fn put_next(out: &mut Out, next: Option<usize>) {
    match next {
        Some(next) => {
            out.put(b", next ");
            out.put_count(next);
        }
        None => {}
    }
}

fn joined(alloc: Global, text: &str) -> Result<Vec<u8>, NoMemory> {
    let items = items(alloc, text)?;
    list_to_text(alloc, items.as_slice(), b", ", b" and ")
}

fn items(alloc: Global, text: &str) -> Result<List<Bytes>, NoMemory> {
    let mut items = List::new(alloc);
    for word in text.split('\t').skip(1) {
        items.push(Bytes::of_vec(escaped(alloc, word)?))?;
    }
    Ok(items)
}

fn tagged(alloc: Global, text: &str) -> Result<Vec<u8>, NoMemory> {
    let attrs = attrs_of(alloc, text)?;
    with_attrs(alloc, attrs.as_slice(), text)
}

fn with_attrs(alloc: Global, attrs: &[TagAttr], text: &str) -> Result<Vec<u8>, NoMemory> {
    let content = content_of(alloc, word(text, 2))?;
    let made = tag(alloc, word(text, 1).as_bytes(), attrs, &content)?;
    if isutf8(&made) {
        value_is_encoded(&made);
    }
    Ok(made)
}

fn content_of(alloc: Global, text: &str) -> Result<TagContent, NoMemory> {
    match text.strip_prefix('\'') {
        Some(text) => Ok(TagContent::Text(Bytes::of_vec(escaped(alloc, text)?))),
        None if text == "open" => Ok(TagContent::Nothing),
        None => Ok(TagContent::Closed),
    }
}

fn attrs_of(alloc: Global, text: &str) -> Result<List<TagAttr>, NoMemory> {
    let mut attrs = List::new(alloc);
    for word in text.split('\t').skip(3) {
        put_attr(alloc, &mut attrs, word)?;
    }
    Ok(attrs)
}

fn put_attr(alloc: Global, attrs: &mut List<TagAttr>, word: &str) -> Result<(), NoMemory> {
    match word.split_once('=') {
        Some((name, value)) => {
            let value = TagValue::Text(Bytes::of_vec(escaped(alloc, value)?));
            push_attr(alloc, attrs, name, value)
        }
        None => push_attr(alloc, attrs, word, TagValue::Alone),
    }
}

fn push_attr(
    alloc: Global,
    attrs: &mut List<TagAttr>,
    name: &str,
    value: TagValue,
) -> Result<(), NoMemory> {
    let name = Bytes::of(alloc, name.as_bytes())?;
    attrs.push(TagAttr { name, value })
}
