//! Numbers and texts of a row.
use case_text::unescaped;
use std::alloc::Global;
use wk_base::NoMemory;

/// The number of no call.
pub const NONE: u64 = u64::MAX;

/// What stands for a field that says nothing.
const UNSAID: &str = "-";

/// A field of a row: those are cut by spaces, and counted from 0.
pub fn field<'r>(row: &'r str, number: usize) -> &'r str {
    for (at, word) in row.split(' ').enumerate() {
        if at == number {
            return word;
        }
    }
    UNSAID
}

/// The number in a field, or another one where there is none.
pub fn number_or(row: &str, number: usize, other: u64) -> u64 {
    match field(row, number).parse::<u64>() {
        Ok(said) => said,
        Err(_) => other,
    }
}

/// Whether a field has this number, or says nothing.
pub fn is_number(row: &str, number: usize, told: u64) -> bool {
    number_or(row, number, told) == told
}

/// The text of a field; none, where it says nothing.
pub fn text_of<'r>(row: &'r str, number: usize) -> &'r [u8] {
    let word = field(row, number);
    if word == UNSAID {
        return b"";
    }
    word.as_bytes()
}

/// What stands for any text.
pub const ANY: &str = "*";

/// Whether bytes are those of a text with escapes.
pub fn is_text(alloc: Global, text: &[u8], bytes: &[u8]) -> Result<bool, NoMemory> {
    if text == ANY.as_bytes() {
        return Ok(true);
    }
    let wanted = unescaped(alloc, text)?;
    Ok(wanted.as_slice() == bytes)
}
