//! The top call: what the program does with its words, over any shelf and any two sinks.
ghost use Rattle.std.specs.Prelude.{◌≡◌, ◌≤◌, ◌⊎◌, false, Err, IfOk, IfSome, map, string_bytes};
ghost use Rattle.wk_base.specs.Allowances.{IsCountable};
ghost use Rattle.wk_tool.specs.WkShelfCauses.{Rose};
ghost use Rattle.wk_tool.specs.Ending.{KeepsDueOn, is_cut, stream};
ghost use Rattle.wiki_words.specs.Command.{begins_command};
ghost use Rattle.wiki_app.specs.Pages.{wiki_for};
ghost use Rattle.wiki_app.specs.Report.{cannot_read, statuses, is_command, AreThere, CutMeant, HasModules, IsDue, IsOfFolder, IsReportOf, IsWork, ReadFailed};

use crate::answer::{TOOL, command_report};
use crate::pages::pages_for;
use std::alloc::Global;
use std::hash::RandomState;
use std::thread::Threads;
use wiki_batch::Gate;
use wiki_words::{Command, read_command};
use wk_base::NoMemory;
use wk_tool::{
    FolderFault, Report, Shelf, Sink, Status, Unread, finish, finish_usage, source_report,
};

const USAGE: &[u8] = b"usage: wikiexpand expand DIR PAGE [PAGE ...] | expand DIR --all | demo N\n";

/// What standard error gets where something can not be read.
pub const CANNOT_READ: &[u8] = b"wikiexpand: cannot read\n";

/// Gets the pages of the wiki, and makes what the command is to answer.
fn prepare<R: Threads + Sync, S: Shelf, G: Gate + Sync>(
    rt: &R,
    alloc: Global,
    seed: RandomState,
    command: &Command<'_>,
    shelf: &mut S,
    gate: &G,
) -> Result<Report, Unread>
    requires countable { IsCountable command.now.settings.limits }
    requires jobs { 1 ≤ command.now.settings.jobs }
    ensures report { IfOk result (λ report.
        IfSome (wiki_for command.now.work (S.files shelf.old)) (IsReportOf command.now report)) }
    ensures has_modules { IfOk result (λ _.
        IfSome (wiki_for command.now.work (S.files shelf.old)) AreThere) }
    ensures work { IfOk result (λ report. IsWork report.status) }
    ensures cause { result ≡ Err Unread.Failed
        → IsOfFolder command.now.work × Rose (S.faults shelf.old) (S.faults shelf.new) }
{
    match pages_for(alloc, seed, &command.work, shelf) {
        Ok(pages) => {
            let report = command_report(rt, alloc, seed, command, pages, gate)?;
            Ok(report)
        }
        Err(FolderFault::Source(fault)) => {
            let report = source_report(alloc, TOOL, fault.as_slice())?;
            Ok(report)
        }
        Err(FolderFault::Read) => Err(Unread::Failed),
        Err(FolderFault::NoMemory) => Err(Unread::NoMemory),
    }
}

/// Does what the words ask, over a shelf, with `out` and `err` for the two streams. The answer is the exit status.
///
/// The seed is drawn anew for each run of the program: who does not know it can't choose titles that collide. Nothing that is
/// answered or put depends on it, nor on the gate, which is told as each page begins, nor on the number of jobs that the words name.
pub fn run<R: Threads + Sync, S: Shelf, O: Sink, E: Sink, G: Gate + Sync>(
    rt: &R,
    alloc: Global,
    seed: RandomState,
    words: &[String],
    shelf: &mut S,
    out: &mut O,
    err: &mut E,
    gate: &G,
) -> u8
    ensures keeps { KeepsDueOn (is_command (map string_bytes words.now)) statuses cannot_read
        (IsDue (map string_bytes words.now) (S.files shelf.old))
        (ReadFailed (map string_bytes words.now) (Rose (S.faults shelf.old) (S.faults shelf.new)))
        (stream O.contents O.faults out.old out.new) (stream E.contents E.faults err.old err.new)
        result }
    ensures has_modules { is_cut result ≡ false
        → HasModules (map string_bytes words.now) (S.files shelf.old) }
    // After status 5 the report that was cut off is one of modules that there are, or it is the line of a read that failed.
    ensures cut_meant { result ≡ 5
        → CutMeant (map string_bytes words.now) (S.files shelf.old)
        (Rose (S.faults shelf.old) (S.faults shelf.new))
        (stream O.contents O.faults out.old out.new)
        (stream E.contents E.faults err.old err.new) }
    ensures other_word { begins_command (map string_bytes words.now) ≡ false
        → (result ≡ 2) ⊎ (result ≡ 5) }
{
    match read_command(alloc, words) {
        Ok(Some(command)) => {
            let work = prepare(rt, alloc, seed, &command, shelf, gate);
            finish(work, CANNOT_READ, out, err)
        }
        Ok(None) => finish_usage(USAGE, out, err),
        Err(NoMemory) => Status::NoMemory.code(),
    }
}
