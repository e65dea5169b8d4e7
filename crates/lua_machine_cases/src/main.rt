//! Runs cases of the machine of Lua from a table on standard input, and prints how each ended. `bench/machine_rows.py` writes the
//! table, and `bench/machine.py` has the program timed. Begin with `take_line` in `lines`, which says what a line may be.
//!
//! There are no definitions here: nothing is claimed of what a run comes to, but that it ends and never panics; `lua_machine` says what
//! the machine does.
//!
//! - `case`: modules, and what is to be done with one of them
//! - `replies`: answers to questions, written by hand
//! - `runs`: one run of a case
//! - `every`: many runs of a case, with each number of steps or of calls
//! - `starts`: machines that are only started
//! - `parts`: the lines of a table that make a case
//! - `lines`: all lines, and what those say that have it run
//! - `words`: how a run ended, in words
//! - `shown`: titles, texts and questions in words
#![tactic(auto)]

mod case;
mod every;
mod lines;
mod parts;
mod replies;
mod runs;
mod shown;
mod starts;
mod words;

use crate::case::Case;
use crate::lines::take_line;
use crate::shown::Out;
use std::hash::RandomState;
use std::io;

/// Prints what a line came to, if it says anything.
fn print_said(rt: &HostRuntime, said: &str) -> io::Result<()> {
    if said.is_empty() {
        return Ok(());
    }
    println!(rt; "{said}")
}

/// Takes a line, and prints what it came to.
fn take(
    rt: &HostRuntime,
    seed: RandomState,
    case: &mut Case,
    said: &mut Out,
    line: &str,
) -> io::Result<()> {
    said.clear();
    match take_line(rt.alloc(), seed, case, said, line.as_bytes()) {
        Ok(()) if !said.is_lacking => print_said(rt, said.text.as_str()),
        _ => println!(rt; "no memory"),
    }
}

fn take_all(rt: &HostRuntime, seed: RandomState, case: &mut Case) -> io::Result<()> {
    let mut said = Out::new(rt.alloc());
    for line in rt.lines(rt.alloc()) {
        let line = line?;
        take(rt, seed, case, &mut said, line.as_str())?;
    }
    Ok(())
}

/// Takes each line, beginning with a case that has nothing in it.
fn take_from_nothing(rt: &HostRuntime, seed: RandomState) -> io::Result<()> {
    match Case::new(rt.alloc(), seed, b"") {
        Ok(mut case) => take_all(rt, seed, &mut case),
        Err(_) => println!(rt; "no memory"),
    }
}

fn main(rt: HostRuntime) -> io::Result<()> {
    let seed = RandomState::new(&rt)?;
    take_from_nothing(&rt, seed)
}
