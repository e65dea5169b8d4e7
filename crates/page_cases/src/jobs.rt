//! An invocation by itself.
ghost use Rattle.std.specs.Prelude.{◌≡◌, IfOk};
ghost use Rattle.mw_frame.specs.Scenes.{NamesDiffer, HaveNames};
ghost use Rattle.wk_base.specs.Allowances.{IsCountable};

use crate::fields::{field, is_number, is_text, text_of};
use crate::rows::Rows;
use crate::wikis::{limits_of, title_of, wiki_of};
use mw_frame::{Arg, Job, Scene};
use page_meaning::JobOutcome;
use page_run::Which;
use std::alloc::Global;
use std::hash::RandomState;
use std::marker::Brand;
use std::mem;
use std::sync::ledger::{Blank, Ledger};
use std::thread::Threads;
use wiki_app::{JobEnd, Wiki, run_job};
use wk_base::{Bytes, Limits, List, Namespace, NoMemory, Steps, Title};

/// The first argument of a frame, which has no other.
fn one_arg(alloc: Global, value: &[u8]) -> Result<List<Arg>, NoMemory>
    ensures { IfOk result NamesDiffer }
{
    let name = Bytes::of(alloc, b"1")?;
    let value = Bytes::of(alloc, value)?;
    let mut args = List::new(alloc);
    args.push(Arg { name, value })?;
    Ok(args)
}

/// One argument; none, where it would be empty.
fn args_of(alloc: Global, value: &[u8]) -> Result<List<Arg>, NoMemory>
    ensures { IfOk result NamesDiffer }
{
    if value.is_empty() {
        return Ok(List::new(alloc));
    }
    one_arg(alloc, value)
}

/// The scene of a title, with these arguments.
fn scene_of(alloc: Global, ns: Namespace, name: &[u8], value: &[u8]) -> Result<Scene, NoMemory>
    ensures { IfOk result (λ scene. NamesDiffer scene.args) }
{
    let args = args_of(alloc, value)?;
    let name = Bytes::of(alloc, name)?;
    Ok(Scene {
        title: Title { ns, name },
        args,
        chain: List::new(alloc),
    })
}

/// The invocation of a row: a module, a function, the first argument of its frame, and that of the frame around it.
fn job_of(alloc: Global, row: &str) -> Result<Job, NoMemory>
    ensures { IfOk result HaveNames }
{
    let scene = scene_of(alloc, Namespace::Module, text_of(row, 3), text_of(row, 5))?;
    let parent = scene_of(alloc, Namespace::Main, b"P", text_of(row, 6))?;
    let function = Bytes::of(alloc, text_of(row, 4))?;
    let name = Bytes::of(alloc, text_of(row, 3))?;
    let ns = Namespace::Module;
    Ok(Job {
        module: Title { ns, name },
        function,
        scene,
        parent,
    })
}

fn name_of(outcome: &JobOutcome) -> &'static str {
    match outcome {
        JobOutcome::Done(_) => "done",
        JobOutcome::Failed(_) => "failed",
        JobOutcome::Spent(Which::Steps) => "steps",
        JobOutcome::Spent(Which::Calls) => "calls",
    }
}

/// The text that was given, or the message of the failure.
fn told<'o>(outcome: &'o JobOutcome) -> &'o [u8] {
    match outcome {
        JobOutcome::Done(text) => text.as_slice(),
        JobOutcome::Failed(message) => message.as_slice(),
        JobOutcome::Spent(_) => b"",
    }
}

/// Whether an invocation came to what the row says.
fn is_as_said(
    alloc: Global,
    rows: &mut Rows<'_>,
    row: &str,
    end: &JobEnd,
) -> Result<bool, NoMemory> {
    let (head, text) = row.split_once('|').unwrap_or((row, ""));
    let came = told(&end.outcome);
    rows.note(end.left.steps, came)?;
    let right = is_text(alloc, text.as_bytes(), came)?
        && is_number(head, 2, end.left.steps)
        && field(head, 7) == name_of(&end.outcome);
    Ok(right)
}

/// Runs an invocation, with a counter that counts from two turns on.
fn ended<L: Ledger>(
    alloc: Global,
    seed: RandomState,
    wiki: &Wiki,
    page: &Title,
    job: Job,
    limits: &Limits,
    blank: Blank,
) -> Result<JobEnd, NoMemory>
    requires name { blank.name ≡ L.name }
    requires parts { blank.parts ≡ L.parts }
    requires one { blank.parts ≡ 1 }
    requires names { HaveNames job }
    requires countable { IsCountable limits.now }
{
    let mut turns = Steps::<L>::open(blank);
    turns.tick();
    turns.tick();
    run_job(alloc, seed, wiki, page, job, limits, &mut turns)
}

/// How the invocation of a row ends on a wiki.
fn end_of(alloc: Global, seed: RandomState, row: &str, wiki: &Wiki) -> Result<JobEnd, NoMemory> {
    let limits = limits_of(row);
    let page = title_of(alloc, b"P")?;
    let job = job_of(alloc, row)?;
    ended::<Brand>(alloc, seed, wiki, &page, job, &limits, Blank::new(1))
}

/// Whether an invocation on a wiki comes to what the row says.
fn is_run(
    alloc: Global,
    seed: RandomState,
    rows: &mut Rows<'_>,
    row: &str,
    wiki: &Wiki,
) -> Result<bool, NoMemory> {
    let end = end_of(alloc, seed, row, wiki)?;
    is_as_said(alloc, rows, row, &end)
}

/// Whether it does so twice: what was run before changes nothing.
fn is_run_twice(
    alloc: Global,
    seed: RandomState,
    rows: &mut Rows<'_>,
    row: &str,
    wiki: &Wiki,
) -> Result<bool, NoMemory> {
    let first = is_run(alloc, seed, rows, row, wiki)?;
    let right = first && is_run(alloc, seed, rows, row, wiki)?;
    Ok(rows.count(right))
}

/// Whether an invocation by itself comes to what the row says: the steps and the calls that it may use, the steps that are left, the module, the
/// function, the argument of its frame and that of the frame around it, and how it ends; then what it gives, or its message.
pub fn is_job<R: Threads + Sync>(
    rt: &R,
    alloc: Global,
    seed: RandomState,
    rows: &mut Rows<'_>,
    row: &str,
) -> Result<bool, NoMemory> {
    let wiki = wiki_of(rt, alloc, seed, rows.files.as_slice())?;
    let right = is_run_twice(alloc, seed, rows, row, &wiki);
    // As of a page: it isn't given back.
    mem::forget(wiki);
    right
}
