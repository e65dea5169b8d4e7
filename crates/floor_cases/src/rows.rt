//! Reading rows, and what a test says of one.
use case_text::unescaped;
use std::alloc::Global;
use std::process::Abort;

/// Tries that a row holds.
pub fn holds(rt: &impl Abort, held: bool, row: &str) {
    assert!(rt; held, "{row}");
}

/// Whether bytes are those of a text with escapes.
pub fn is_text(alloc: Global, bytes: &[u8], text: &str) -> bool {
    match unescaped(alloc, text.as_bytes()) {
        Ok(wanted) => wanted.as_slice() == bytes,
        Err(_) => false,
    }
}

/// The two sides of a row: what is given, and what is wanted.
pub fn sides(row: &str) -> (&str, &str) {
    row.split_once(" => ").unwrap_or((row, ""))
}

/// The first word of a text, and what stands behind the space.
pub fn words(text: &str) -> (&str, &str) {
    text.split_once(' ').unwrap_or((text, ""))
}
