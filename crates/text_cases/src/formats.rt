//! The kind `format`: what `lua_format` gives. The first word is the format, and the others are its values: a number, a text with
//! `'` in front, or any other word for a value that is neither.
//!
//! The answer is the text, or the fault: `bad option`, or with the value's number from 0 on `0 is missing, a number` (or `a text`), `0 is no number`,
//! `0 is no text`, `0 is out of range`. The text's length has to be what was said before.

use crate::words::{bytes, copied, escaped, numbered};
use lua_format::{FormatFault, FormatValue, Want, format, format_length};
use mw_frame::{Bytes, List};
use std::alloc::Global;
use wiki_markup::NoMemory;

/// What a format gives.
pub(crate) fn answer(alloc: Global, text: &str) -> Result<Vec<u8>, NoMemory> {
    let spec = bytes(alloc, text, 0)?;
    of_format(alloc, &spec, text)
}

fn of_format(alloc: Global, spec: &[u8], text: &str) -> Result<Vec<u8>, NoMemory> {
    let values = values_of(alloc, text)?;
    of_values(alloc, spec, values.as_slice())
}

fn values_of(alloc: Global, text: &str) -> Result<List<FormatValue>, NoMemory> {
    let mut values = List::new(alloc);
    for word in text.split('\t').skip(1) {
        put_value(alloc, &mut values, word)?;
    }
    Ok(values)
}

fn put_value(alloc: Global, values: &mut List<FormatValue>, word: &str) -> Result<(), NoMemory> {
    match word.strip_prefix('\'') {
        Some(text) => values.push(FormatValue::Text(Bytes::of_vec(escaped(alloc, text)?))),
        None => values.push(number_of(word)),
    }
}

fn number_of(word: &str) -> FormatValue {
    match word.parse() {
        Ok(number) => FormatValue::Number(number),
        Err(_) => FormatValue::Other,
    }
}

fn of_values(alloc: Global, spec: &[u8], values: &[FormatValue]) -> Result<Vec<u8>, NoMemory> {
    let length = format_length(spec, values).unwrap_or(0);
    match format(alloc, spec, values) {
        Ok(made) => as_long(alloc, made, length),
        Err(fault) => fault_text(alloc, fault),
    }
}

fn as_long(alloc: Global, made: Vec<u8>, length: u64) -> Result<Vec<u8>, NoMemory> {
    if made.len() as u64 == length {
        Ok(made)
    } else {
        copied(alloc, b"not as long as was said")
    }
}

fn fault_text(alloc: Global, fault: FormatFault) -> Result<Vec<u8>, NoMemory> {
    match fault {
        FormatFault::BadOption => copied(alloc, b"bad option"),
        FormatFault::Missing(at, want) => numbered(alloc, b"", at as u64, missing(want)),
        FormatFault::WrongKind(at, want) => numbered(alloc, b"", at as u64, wrong(want)),
        FormatFault::OutOfRange(at) => numbered(alloc, b"", at as u64, b" is out of range"),
        FormatFault::NoMemory => Err(NoMemory),
    }
}

fn missing(want: Want) -> &'static [u8] {
    match want {
        Want::Number => b" is missing, a number",
        Want::Text => b" is missing, a text",
    }
}

fn wrong(want: Want) -> &'static [u8] {
    match want {
        Want::Number => b" is no number",
        Want::Text => b" is no text",
    }
}
