//! A run of the top call over a folder in memory.
use crate::fields::{is_text, number_or};
use crate::lines::unset;
use crate::rows::Rows;
use crate::shelves::{Crowd, Meeting, Streams, shelf_of};
use std::alloc::Global;
use std::hash::RandomState;
use std::thread::Threads;
use wiki_app::run;
use wk_base::NoMemory;
use wk_shelf::Shelf;

/// Whether the streams have the texts that are said of them.
fn has_texts(alloc: Global, streams: &Streams, out: &str, err: &[u8]) -> Result<bool, NoMemory> {
    if !is_text(alloc, out.as_bytes(), streams.out.bytes())? {
        return Ok(false);
    }
    is_text(alloc, err, streams.err.bytes())
}

/// Notes what a run left on the streams.
fn note(rows: &mut Rows<'_>, status: u64, streams: &Streams) -> Result<(), NoMemory> {
    rows.note(status, streams.out.bytes())?;
    rows.came.extend_from_slice(streams.err.bytes())?;
    Ok(())
}

/// Whether a run came to what is said of it.
fn is_as_said(
    alloc: Global,
    rows: &mut Rows<'_>,
    status: u64,
    in_vain: u64,
    streams: &Streams,
    out: &str,
) -> Result<bool, NoMemory> {
    let texts = has_texts(alloc, streams, out, rows.err)?;
    let right = texts && status == rows.status && in_vain == rows.held[1];
    note(rows, status, streams)?;
    unset(alloc, rows)?;
    Ok(rows.count(right))
}

/// Runs the words over a shelf.
fn ran_over<R: Threads + Sync, S: Shelf>(
    rt: &R,
    alloc: Global,
    seed: RandomState,
    rows: &mut Rows<'_>,
    shelf: &mut S,
    out: &str,
) -> Result<bool, NoMemory> {
    let mut streams = Streams::new(alloc, rows.fails[1], rows.fails[2])?;
    let gate = Meeting::new(rows.held[0]);
    let status = run(
        rt,
        alloc,
        seed,
        rows.words.as_slice(),
        shelf,
        &mut streams.out,
        &mut streams.err,
        &gate,
    );
    let in_vain = gate.in_vain();
    is_as_said(alloc, rows, u64::from(status), in_vain, &streams, out)
}

/// Runs the words over the folder.
pub fn ran<R: Threads + Sync>(
    rt: &R,
    alloc: Global,
    seed: RandomState,
    rows: &mut Rows<'_>,
    out: &str,
) -> Result<bool, NoMemory> {
    let mut shelf = shelf_of(alloc, rows.files.as_slice(), rows.fails[0])?;
    ran_over(rt, alloc, seed, rows, &mut shelf, out)
}

/// Runs the words over a folder of as many pages as the row says, whose names end in what stands behind the number.
pub fn ran_in_crowd<R: Threads + Sync>(
    rt: &R,
    alloc: Global,
    seed: RandomState,
    rows: &mut Rows<'_>,
    row: &str,
) -> Result<bool, NoMemory> {
    let (_, tail) = row.split_once(' ').unwrap_or((row, ""));
    let pages = number_or(row, 0, 0);
    let mut crowd = Crowd { pages, tail };
    ran_over(rt, alloc, seed, rows, &mut crowd, "")
}
