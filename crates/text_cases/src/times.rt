//! The kind `times`: a number, a kind of a library, and a case of it, which is run so often. The answer is how many bytes the last
//! answer has. It serves to take times: no row of the table has it.

use crate::words::{copied, place, shown};
use crate::{code_points, formats, strings, wikitexts};
use std::alloc::Global;
use wiki_markup::NoMemory;

/// How long the answer of a case is, which is run so often.
pub(crate) fn answer(alloc: Global, text: &str) -> Result<Vec<u8>, NoMemory> {
    let (_, case) = text.split_once('\t').unwrap_or(("", ""));
    let (kind, case) = case.split_once('\t').unwrap_or(("", ""));
    let mut length = 0;
    for _ in 0..place(text, 0) {
        length = length_of(alloc, kind, case)?;
    }
    shown(alloc, length)
}

fn length_of(alloc: Global, kind: &str, case: &str) -> Result<u64, NoMemory> {
    match once(alloc, kind, case) {
        Ok(made) => Ok(made.len() as u64),
        Err(NoMemory) => Err(NoMemory),
    }
}

fn once(alloc: Global, kind: &str, case: &str) -> Result<Vec<u8>, NoMemory> {
    match kind {
        "format" => formats::answer(alloc, case),
        "string" => strings::answer(alloc, case),
        "ustring" => code_points::answer(alloc, case),
        "text" => wikitexts::answer(alloc, case),
        _ => copied(alloc, b"no such kind"),
    }
}
