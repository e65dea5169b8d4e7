//! Runs rows of cases of the top call, of pages and of invocations by themselves from standard input, and prints those that don't
//! come to what they say. The README says what a line may be.
//!
//! - `rows`: what the lines so far say, and what a row came to
//! - `lines`: what each line says, or runs
//! - `fields`: numbers and texts of a row
//! - `commands`: a run of the top call over a folder in memory
//! - `shelves`: folders, the streams, and the gate that holds a page
//! - `wikis`: a wiki from the pages of the folder
//! - `expanded`: a page with allowances of its own
//! - `jobs`: an invocation by itself
//!
//! There are no definitions here.
#![tactic(auto)]

mod commands;
mod expanded;
mod fields;
mod jobs;
mod lines;
mod rows;
mod shelves;
mod wikis;

use crate::lines::{taken, unset};
use crate::rows::Rows;
use std::alloc::{AllocError, Global};
use std::hash::RandomState;
use std::io;
use std::thread::Threads;
use wk_base::NoMemory;

/// Tells a line that is wrong, and what it came to.
fn tell(alloc: Global, rows: &mut Rows<'_>, line: &str) -> Result<(), AllocError> {
    let came = String::from_utf8_lossy(alloc, rows.came.as_slice())?;
    let text = format!(in alloc; "{line}\n  {} {came}\n", rows.number)?;
    rows.told.push_str(text.as_str())
}

/// Tells how many rows were right since the last such line.
fn tell_count(alloc: Global, rows: &mut Rows<'_>, what: &str) -> Result<(), AllocError> {
    let text = format!(in alloc; "{} {what}\n", rows.right)?;
    rows.right = 0;
    rows.told.push_str(text.as_str())
}

/// Takes a line.
fn take<'t, R: Threads + Sync>(
    rt: &R,
    alloc: Global,
    seed: RandomState,
    rows: &mut Rows<'t>,
    line: &'t str,
) -> Result<(), AllocError> {
    if let Some(what) = line.strip_prefix(':') {
        return tell_count(alloc, rows, what);
    }
    match taken(rt, alloc, seed, rows, line) {
        Ok(true) => Ok(()),
        Ok(false) => tell(alloc, rows, line),
        Err(NoMemory) => tell(alloc, rows, "no memory"),
    }
}

/// Takes each line of the tables.
fn take_all<'t, R: Threads + Sync>(
    rt: &R,
    alloc: Global,
    seed: RandomState,
    rows: &mut Rows<'t>,
    tables: &'t str,
) -> Result<(), AllocError> {
    unset(alloc, rows)?;
    for line in tables.split('\n') {
        take(rt, alloc, seed, rows, line)?;
    }
    Ok(())
}

fn main(rt: HostRuntime) -> io::Result<()> {
    let seed = RandomState::new(&rt)?;
    let tables = io::read_to_string(rt.alloc(), rt.stdin())?;
    let mut rows = Rows::new(rt.alloc());
    take_all(&rt, rt.alloc(), seed, &mut rows, tables.as_str())?;
    let told = rows.told.as_str();
    print!(rt; "{told}")
}
