//! The line of a case, and of a module whose text is no Lua.
ghost use Rattle.std.specs.Prelude.{◌≡◌, ◌++◌, flat_map, IfOk, codes};
ghost use Rattle.wk_base.specs.Allowances.{IsCountable};
ghost use Rattle.wk_base.specs.Titles.{title_text};
ghost use Rattle.wiki_tests.specs.Lines.{in_line, one_line, ok_line, not_ok_line, spent_message, outcome_line, job_of, fault_shown, fault_line};
ghost use Rattle.wiki_tests.specs.declared.subjects.Subject.TheVariants.{Case};
ghost use Rattle.wiki_tests.specs.Report.{IsOutcome, IsLine};

use crate::subjects::Subject;
use lua_runs::html::escaped;
use lua_syntax::{FaultAt, fault_message};
use mw_frame::Job;
use page_ground::scenes::bare_scene;
use page_meaning::JobOutcome;
use page_run::Which;
use std::alloc::Global;
use std::hash::RandomState;
use std::marker::Brand;
use std::sync::ledger::{Blank, Ledger};
use wiki_batch::{Wiki, run_job};
use wk_base::{Bytes, Limits, NoMemory, Steps, Title};
use wk_tool::put_bytes;

/// A byte of a line: a space in place of a line break.
fn in_line(byte: u8) -> u8
    ensures { result ≡ in_line byte }
{
    if byte == b'\n' {
        return b' ';
    }
    if byte == b'\r' {
        return b' ';
    }
    byte
}

/// A text as one line, without its end.
fn one_line(alloc: Global, text: &[u8]) -> Result<Bytes, NoMemory>
    ensures { IfOk result (λ line. line ≡ one_line text.now) }
{
    let mut line = Vec::new(alloc);
    for byte in text {
        put_bytes(&mut line, &[in_line(*byte)])?;
    }
    Ok(Bytes::of_vec(line))
}

/// The line of what passed.
fn ok_line(alloc: Global, what: &[u8]) -> Result<Bytes, NoMemory>
    ensures { IfOk result (λ line. line ≡ ok_line what.now) }
{
    let mut text = Vec::new(alloc);
    put_bytes(&mut text, b"ok ")?;
    put_bytes(&mut text, what)?;
    one_line(alloc, text.as_slice())
}

/// The line of what failed, with why.
fn not_ok_line(alloc: Global, what: &[u8], message: &[u8]) -> Result<Bytes, NoMemory>
    ensures { IfOk result (λ line. line ≡ not_ok_line what.now message.now) }
{
    let mut text = Vec::new(alloc);
    put_bytes(&mut text, b"not ok ")?;
    put_bytes(&mut text, what)?;
    put_bytes(&mut text, b": ")?;
    put_bytes(&mut text, message)?;
    one_line(alloc, text.as_slice())
}

/// What is told of an allowance that is spent, as on a page, but without tags.
fn spent_message(which: Which) -> &'static [u8]
    ensures { result.now ≡ spent_message which }
{
    match which {
        Which::Steps => b"Script error: The allowance of steps is spent.",
        Which::Calls => b"Script error: The allowance of nested calls is spent.",
    }
}

/// The line of a case that ended so.
fn outcome_line(alloc: Global, what: &[u8], outcome: &JobOutcome) -> Result<Bytes, NoMemory>
    ensures { IfOk result (λ line. line ≡ outcome_line what.now outcome.now) }
{
    match outcome {
        JobOutcome::Done(_) => ok_line(alloc, what),
        JobOutcome::Failed(message) => not_ok_line(alloc, what, message.as_slice()),
        JobOutcome::Spent(which) => not_ok_line(alloc, what, spent_message(*which)),
    }
}

/// What a case is to do.
fn job_of(alloc: Global, title: &Title, name: &Bytes) -> Result<Job, NoMemory>
    ensures { IfOk result (λ job. job ≡ job_of title.now name.now) }
{
    let module_title = title.copy()?;
    let function = name.copy()?;
    let scene = bare_scene(alloc, title)?;
    let parent = bare_scene(alloc, title)?;
    Ok(Job {
        module: module_title,
        function,
        scene,
        parent,
    })
}

/// How a case ends, with a counter of turns that nobody reads.
fn counted<L: Ledger>(
    alloc: Global,
    seed: RandomState,
    blank: Blank,
    wiki: &Wiki,
    limits: &Limits,
    title: &Title,
    name: &Bytes,
) -> Result<JobOutcome, NoMemory>
    requires name { blank.name ≡ L.name }
    requires parts { blank.parts ≡ L.parts }
    requires one { blank.parts ≡ 1 }
    requires countable { IsCountable limits.now }
    ensures { IfOk result (λ outcome. IsOutcome wiki.now limits.now title.now name.now outcome) }
{
    let mut turns = Steps::<L>::open(blank);
    let job = job_of(alloc, title, name)?;
    let end = run_job(alloc, seed, wiki, title, job, limits, &mut turns)?;
    Ok(end.outcome)
}

/// How a case ends: as the first run on the page of its module, in a store of its own, with all of the limits.
fn case_outcome(
    alloc: Global,
    seed: RandomState,
    wiki: &Wiki,
    limits: &Limits,
    title: &Title,
    name: &Bytes,
) -> Result<JobOutcome, NoMemory>
    requires countable { IsCountable limits.now }
    ensures { IfOk result (λ outcome. IsOutcome wiki.now limits.now title.now name.now outcome) }
{
    counted::<Brand>(alloc, seed, Blank::new(1), wiki, limits, title, name)
}

/// A case of a module, as a line names it.
fn case_name(title: &Title, name: &Bytes) -> Result<Vec<u8>, NoMemory>
    ensures { IfOk result (λ made. made.items ≡ title_text title.now ++ codes " " ++ name.now) }
{
    let mut made = title.text()?.into_vec();
    put_bytes(&mut made, b" ")?;
    put_bytes(&mut made, name.as_slice())?;
    Ok(made)
}

/// The line of a case, which is run.
fn case_line(
    alloc: Global,
    seed: RandomState,
    wiki: &Wiki,
    limits: &Limits,
    title: &Title,
    name: &Bytes,
) -> Result<Bytes, NoMemory>
    requires countable { IsCountable limits.now }
    ensures { IfOk result (λ line. IsLine wiki.now limits.now (Case title.now name.now) line) }
{
    let what = case_name(title, name)?;
    let outcome = case_outcome(alloc, seed, wiki, limits, title, name)?;
    outcome_line(alloc, what.as_slice(), &outcome)
}

/// What an invocation of a module tells whose text is no Lua.
fn fault_shown(alloc: Global, title: &Title, fault: &FaultAt) -> Result<Vec<u8>, NoMemory>
    ensures { IfOk result (λ made. made.items ≡ fault_shown title.now fault.now) }
{
    let message = fault_message(alloc, title, fault)?;
    let mut text = Vec::new(alloc);
    put_bytes(&mut text, b"Lua error: ")?;
    put_bytes(&mut text, message.as_slice())?;
    escaped(alloc, text.as_slice())
}

/// The line of a module whose text is no Lua.
fn fault_line(alloc: Global, title: &Title, fault: &FaultAt) -> Result<Bytes, NoMemory>
    ensures { IfOk result (λ line. line ≡ fault_line title.now fault.now) }
{
    let what = title.text()?;
    let message = fault_shown(alloc, title, fault)?;
    not_ok_line(alloc, what.as_slice(), message.as_slice())
}

/// The line that is about this.
pub(crate) fn line_of(
    alloc: Global,
    seed: RandomState,
    wiki: &Wiki,
    limits: &Limits,
    subject: &Subject,
) -> Result<Bytes, NoMemory>
    requires countable { IsCountable limits.now }
    ensures { IfOk result (λ line. IsLine wiki.now limits.now subject.now line) }
{
    match subject {
        Subject::Case(title, name) => case_line(alloc, seed, wiki, limits, title, name),
        Subject::Fault(title, fault) => fault_line(alloc, title, fault),
    }
}
