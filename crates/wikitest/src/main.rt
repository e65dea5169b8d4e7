//! Runs the test modules of a folder of wiki files, each case by itself.
//!
//! What is printed, and with which status, stands in `wiki_tests` (`specs/Due.antt`): its `run_tests` is called here over the real folder and
//! the real streams.
#![tactic(auto)]

use std::hash::RandomState;
use std::process::ExitCode;
use std::{env, io};
use wiki_tests::{CANNOT_READ, run_tests};
use wk_tool::{FolderShelf, Status, StreamSink, after_put, put_piece};

/// The words after the program's name.
fn words(rt: &HostRuntime) -> io::Result<Vec<String>> {
    let mut words = Vec::new(rt.alloc());
    for word in env::args(rt)?.skip(1) {
        words.push(word)?;
    }
    Ok(words)
}

fn main(rt: HostRuntime) -> ExitCode {
    let words = match words(&rt) {
        Ok(words) => words,
        Err(error) if error.kind() == io::ErrorKind::OutOfMemory => {
            return ExitCode::from(Status::NoMemory.code());
        }
        // A word that is no text makes no command, as no words at all.
        Err(_) => Vec::new(rt.alloc()),
    };
    let Ok(files) = rt.clone() else {
        return ExitCode::from(Status::NoMemory.code());
    };
    let mut shelf = FolderShelf::new(rt.alloc(), files);
    let mut out = StreamSink::new(rt.alloc(), rt.stdout());
    let mut err = StreamSink::new(rt.alloc(), rt.stderr());
    // A source of random bytes that gives none is a read that failed.
    let Ok(seed) = RandomState::new(&rt) else {
        let put = put_piece(&mut err, CANNOT_READ);
        return ExitCode::from(after_put(put, Status::ReadFault));
    };
    ExitCode::from(run_tests(
        &rt,
        rt.alloc(),
        seed,
        words.as_slice(),
        &mut shelf,
        &mut out,
        &mut err,
    ))
}
