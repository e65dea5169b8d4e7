//! The report of test modules.
ghost use Rattle.std.specs.Prelude.{◌≡◌, ◌++◌, flat_map, IfOk, OnOk};
ghost use Rattle.std.specs.Fmt.{decimal};
ghost use Rattle.wk_base.specs.Allowances.{IsCountable};
ghost use Rattle.wiki_tests.specs.Report.{count_of, counts, with_break, report_of_lines, IsReport};

use crate::running::lines;
use crate::subjects::subjects;
use crate::tested::TestModule;
use itoa::Buffer;
use std::alloc::Global;
use std::hash::RandomState;
use std::thread::Threads;
use wiki_batch::Wiki;
use wk_base::{Bytes, Limits, NoMemory};
use wk_tool::put_bytes;

/// The report of test modules: its text, and how many cases passed and failed.
#[derive(Drop)]
pub struct TestReport {
    pub text: Bytes,
    pub passed: u64,
    pub failed: u64,
}

/// How many lines begin so.
fn count_of(begin: &[u8], lines: &[Bytes]) -> u64
    ensures { result ≡ count_of begin.now lines.now }
{
    let mut count = 0usize;
    for line in lines {
        if line.as_slice().starts_with(begin) {
            count += 1;
        }
    }
    count as u64
}

/// Adds a number in decimal digits.
fn put_number(made: &mut Vec<u8>, number: u64) -> Result<(), NoMemory>
    ensures { OnOk result (made.new.items ≡ made.old.items ++ decimal number) }
{
    let mut buffer = Buffer::new();
    put_bytes(made, buffer.format(number).as_bytes())
}

/// Adds how many passed and failed.
fn put_counts(made: &mut Vec<u8>, passed: u64, failed: u64) -> Result<(), NoMemory>
    ensures { OnOk result (made.new.items ≡ made.old.items ++ counts passed failed) }
{
    put_bytes(made, b"passed ")?;
    put_number(made, passed)?;
    put_bytes(made, b" failed ")?;
    put_number(made, failed)?;
    put_bytes(made, b"\n")
}

/// Adds a line with its newline.
fn put_line(made: &mut Vec<u8>, line: &Bytes) -> Result<(), NoMemory>
    ensures { OnOk result (made.new.items ≡ made.old.items ++ with_break line.now) }
{
    put_bytes(made, line.as_slice())?;
    put_bytes(made, b"\n")
}

/// Adds lines, each with a newline.
fn put_lines(made: &mut Vec<u8>, lines: &[Bytes]) -> Result<(), NoMemory>
    ensures { OnOk result (made.new.items ≡ made.old.items ++ flat_map with_break lines.now) }
{
    for line in lines {
        put_line(made, line)?;
    }
    Ok(())
}

/// The report of these lines.
fn report_of_lines(alloc: Global, lines: &[Bytes]) -> Result<TestReport, NoMemory>
    ensures { IfOk result (λ report. report ≡ report_of_lines lines.now) }
{
    let passed = count_of(b"ok", lines);
    let failed = count_of(b"not ok", lines);
    let mut text = Vec::new(alloc);
    put_lines(&mut text, lines)?;
    put_counts(&mut text, passed, failed)?;
    Ok(TestReport {
        text: Bytes::of_vec(text),
        passed,
        failed,
    })
}

/// The report of these test modules on a wiki: a line for each case, which is run by itself, in an environment of its own and with all of the
/// limits; then how many passed and failed. Threads take the next case that nobody has begun; their number changes nothing.
///
/// Tables are hashed by the seed, which changes nothing either.
pub fn report<R: Threads + Sync>(
    rt: &R,
    alloc: Global,
    seed: RandomState,
    wiki: &Wiki,
    tests: &[TestModule],
    limits: &Limits,
    jobs: usize,
) -> Result<TestReport, NoMemory>
    requires countable { IsCountable limits.now }
    ensures { IfOk result (λ report. IsReport wiki.now limits.now tests.now report) }
{
    let about = subjects(alloc, tests)?;
    let made = lines(rt, alloc, seed, wiki, limits, about.as_slice(), jobs)?;
    report_of_lines(alloc, made.as_slice())
}
