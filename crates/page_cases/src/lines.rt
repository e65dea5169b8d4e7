//! What each line says, or runs.
use crate::commands::{ran, ran_in_crowd};
use crate::expanded::is_page;
use crate::fields::{ANY, NONE, number_or};
use crate::jobs::is_job;
use crate::rows::{File, Rows, put};
use case_text::unescaped;
use std::alloc::{AllocError, Global};
use std::hash::RandomState;
use std::thread::Threads;
use wk_base::NoMemory;

/// A word of a command line.
fn word_of(alloc: Global, word: &str) -> Result<String, AllocError> {
    let bytes = unescaped(alloc, word.as_bytes())?;
    String::from_utf8_lossy(alloc, bytes.as_slice())
}

/// Puts the words of a text into the place of those that were there; they are cut by spaces.
fn take_words(alloc: Global, words: &mut Vec<String>, text: &str) -> Result<(), AllocError> {
    words.clear();
    for word in text.split(' ') {
        if !word.is_empty() {
            words.push(word_of(alloc, word)?)?;
        }
    }
    Ok(())
}

/// Takes a status, the numbers of calls that fail, and the turns of the gate.
fn take_numbers(rows: &mut Rows<'_>, row: &str) {
    rows.status = number_or(row, 0, 0);
    rows.fails = [
        number_or(row, 1, NONE),
        number_or(row, 2, NONE),
        number_or(row, 3, NONE),
    ];
    rows.held = [number_or(row, 4, 0), number_or(row, 5, 0)];
}

/// Takes a line that says what holds for the next run.
fn set<'t>(alloc: Global, rows: &mut Rows<'t>, line: &'t str) -> Result<(), AllocError> {
    if line.starts_with('#') {
        return Ok(());
    }
    if let Some(words) = line.strip_prefix('$') {
        return take_words(alloc, &mut rows.words, words);
    }
    if let Some(err) = line.strip_prefix('!') {
        rows.err = err.as_bytes();
    } else if let Some(numbers) = line.strip_prefix('=') {
        take_numbers(rows, numbers);
    } else if let Some((name, text)) = line.split_once('|') {
        let (name, text) = (name.as_bytes(), text.as_bytes());
        return put(&mut rows.files, File { name, text });
    } else if line.is_empty() {
        rows.files.clear();
    }
    Ok(())
}

/// Says again what holds where no line says otherwise.
pub fn unset(alloc: Global, rows: &mut Rows<'_>) -> Result<(), AllocError> {
    rows.err = b"";
    take_numbers(rows, "");
    take_words(alloc, &mut rows.words, "expand d P")
}

/// Runs the words behind a status, which alone is told.
fn has_status<R: Threads + Sync>(
    rt: &R,
    alloc: Global,
    seed: RandomState,
    rows: &mut Rows<'_>,
    row: &str,
) -> Result<bool, NoMemory> {
    let (_, words) = row.split_once(' ').unwrap_or((row, ""));
    take_words(alloc, &mut rows.words, words)?;
    rows.status = number_or(row, 0, NONE);
    rows.err = ANY.as_bytes();
    ran(rt, alloc, seed, rows, ANY)
}

/// Takes a line: whether what it runs came to what it says, if it runs anything.
pub fn taken<'t, R: Threads + Sync>(
    rt: &R,
    alloc: Global,
    seed: RandomState,
    rows: &mut Rows<'t>,
    line: &'t str,
) -> Result<bool, NoMemory> {
    if let Some(out) = line.strip_prefix('>') {
        return ran(rt, alloc, seed, rows, out);
    }
    if let Some(row) = line.strip_prefix('?') {
        return has_status(rt, alloc, seed, rows, row);
    }
    if let Some(row) = line.strip_prefix('*') {
        return ran_in_crowd(rt, alloc, seed, rows, row);
    }
    if let Some(row) = line.strip_prefix('%') {
        return is_page(rt, alloc, seed, rows, row);
    }
    if let Some(row) = line.strip_prefix('&') {
        return is_job(rt, alloc, seed, rows, row);
    }
    set(alloc, rows, line)?;
    Ok(true)
}
