//! The lines of all cases, by threads that share them.
ghost use Rattle.std.specs.Prelude.{◌≡◌, ◌<◌, IfOk, Ok, length, map};
ghost use Rattle.wk_base.specs.Allowances.{IsCountable};
ghost use Rattle.wiki_tests.specs.Report.{IsLineAt, AreLineParts, AreLines};

use crate::lines::line_of;
use crate::subjects::Subject;
use std::alloc::Global;
use std::hash::RandomState;
use std::thread::Threads;
use wiki_batch::Wiki;
use wk_base::{Bytes, Limits, List, NoMemory};
use wk_workers::map_by_workers;

/// The line that is about the thing with the number i.
fn line_at(
    alloc: Global,
    seed: RandomState,
    wiki: &Wiki,
    limits: &Limits,
    subjects: &[Subject],
    i: usize,
) -> Result<Bytes, NoMemory>
    requires within { i < length subjects.now }
    requires countable { IsCountable limits.now }
    ensures { IfOk result (λ line. IsLineAt wiki.now limits.now subjects.now i line) }
{
    line_of(alloc, seed, wiki, limits, &subjects[i])
}

/// Each line, made by whichever thread is free. None hangs on another.
fn line_parts<R: Threads + Sync>(
    rt: &R,
    alloc: Global,
    seed: RandomState,
    wiki: &Wiki,
    limits: &Limits,
    subjects: &[Subject],
    jobs: usize,
) -> Result<Vec<Result<Bytes, NoMemory>>, NoMemory>
    requires countable { IsCountable limits.now }
    ensures { IfOk result (λ parts. AreLineParts wiki.now limits.now subjects.now parts.items) }
{
    let parts = map_by_workers(
        rt,
        alloc,
        jobs,
        subjects.len(),
        &|j| { line_at(alloc, seed, wiki, limits, subjects, j) },
    )?;
    Ok(parts)
}

/// The lines, where none lacked memory.
fn gathered(alloc: Global, parts: Vec<Result<Bytes, NoMemory>>) -> Result<List<Bytes>, NoMemory>
    ensures { IfOk result (λ lines. parts.items ≡ map Ok lines) }
{
    let mut lines = List::new(alloc);
    for part in parts {
        lines.push(part?)?;
    }
    Ok(lines)
}

/// The lines about these, in their order, whatever the number of jobs.
pub(crate) fn lines<R: Threads + Sync>(
    rt: &R,
    alloc: Global,
    seed: RandomState,
    wiki: &Wiki,
    limits: &Limits,
    subjects: &[Subject],
    jobs: usize,
) -> Result<List<Bytes>, NoMemory>
    requires countable { IsCountable limits.now }
    ensures { IfOk result (λ lines. AreLines wiki.now limits.now subjects.now lines) }
{
    let parts = line_parts(rt, alloc, seed, wiki, limits, subjects, jobs)?;
    gathered(alloc, parts)
}
