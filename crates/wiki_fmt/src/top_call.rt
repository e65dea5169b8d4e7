//! The top call: what the program does with its words, over any shelf and any two sinks.
ghost use Rattle.std.specs.Prelude.{◌≡◌, ◌⊎◌, false, IfOk, IfErr, map, string_bytes};
ghost use Rattle.wk_tool.specs.WkShelfCauses.{Rose};
ghost use Rattle.wk_tool.specs.Ending.{Prepares, KeepsDueOn, is_cut, stream};
ghost use Rattle.wiki_fmt.specs.Command.{is_command};
ghost use Rattle.wk_tool.specs.Report.{usage_report};
ghost use Rattle.wiki_fmt.specs.Due.{IsDue, HasDue, usage, statuses, cannot_read};

use crate::answer::command_report;
use crate::command::read_command;
use std::alloc::Global;
use std::hash::RandomState;
use wk_tool::{NoMemory, Report, Shelf, Sink, Unread, finish, usage_report};

const USAGE: &[u8] = b"usage: wikifmt print DIR MODULE | lint DIR MODULE\n";

/// What standard error gets where something can not be read.
pub const CANNOT_READ: &[u8] = b"wikifmt: cannot read\n";

/// What words give that are no command.
fn usage(alloc: Global) -> Result<Report, Unread>
    ensures report { IfOk result (λ report. report ≡ usage_report usage) }
    ensures memory { IfErr result (λ e. e ≡ Unread.NoMemory) }
{
    match usage_report(alloc, USAGE) {
        Ok(report) => Ok(report),
        Err(NoMemory) => Err(Unread::NoMemory),
    }
}

/// What the words give.
fn prepare<S: Shelf>(
    alloc: Global,
    seed: RandomState,
    words: &[String],
    shelf: &mut S,
) -> Result<Report, Unread>
    ensures prepares { Prepares result (is_command (map string_bytes words.now)) statuses
        (IsDue (map string_bytes words.now) (S.files shelf.old))
        (Rose (S.faults shelf.old) (S.faults shelf.new)) }
    ensures has_due { IfOk result (λ report.
        HasDue (map string_bytes words.now) (S.files shelf.old)) }
{
    match read_command(alloc, words) {
        Ok(None) => usage(alloc),
        Ok(Some(command)) => command_report(alloc, seed, &command, shelf),
        Err(NoMemory) => Err(Unread::NoMemory),
    }
}

/// Does what the words ask, over a shelf, with `out` and `err` for the two streams. The answer is the exit status.
///
/// The seed is drawn anew for each run of the program: who does not know it can't choose titles that collide. Nothing that is answered or
/// put depends on it.
pub fn run_fmt<S: Shelf, O: Sink, E: Sink>(
    alloc: Global,
    seed: RandomState,
    words: &[String],
    shelf: &mut S,
    out: &mut O,
    err: &mut E,
) -> u8
    ensures keeps { KeepsDueOn (is_command (map string_bytes words.now)) statuses cannot_read
        (IsDue (map string_bytes words.now) (S.files shelf.old))
        (Rose (S.faults shelf.old) (S.faults shelf.new))
        (stream O.contents O.faults out.old out.new) (stream E.contents E.faults err.old err.new)
        result }
    ensures has_due { is_cut result ≡ false
        → HasDue (map string_bytes words.now) (S.files shelf.old) }
    // After status 5 what was cut off is due, or it is the line of a read that failed.
    ensures cut_due { result ≡ 5
        → HasDue (map string_bytes words.now) (S.files shelf.old)
        ⊎ Rose (S.faults shelf.old) (S.faults shelf.new) }
{
    let work = prepare(alloc, seed, words, shelf);
    finish(work, CANNOT_READ, out, err)
}
