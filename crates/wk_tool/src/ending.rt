//! The end of a run, from what the work on the words came to.
ghost use Rattle.wk_shelf.specs.Causes.{Rose};
ghost use Rattle.std.specs.Prelude.{◌≡◌, ◌≤◌, ◌⊎◌};
ghost use Rattle.wk_tool.specs.Report.{usage_report};
ghost use Rattle.wk_tool.specs.Ending.{EndsUnread, Finished, PutsReport};

use crate::put::{after_put, put_both, put_piece};
use crate::report::{Report, Status};
use wk_shelf::{NoMemory, Sink};

/// Why there is no report.
#[derive(Clone, Copy, Debug, PartialEq, Eq)]
pub enum Unread {
    /// The shelf failed, and counted a fault.
    Failed,
    NoMemory,
}

impl From<NoMemory> for Unread {
    ghost use Rattle.std.specs.Prelude.{◌≡◌};
    ghost use Rattle.wk_tool.specs.declared.ending.Unread.TheVariants.{NoMemory};

    ghost from_gives = { λ _ made. made ≡ NoMemory };

    fn from(_error: NoMemory) -> Unread {
        Unread::NoMemory
    }
}

/// Puts the line that something can't be read, where that is so.
fn put_unread<E: Sink>(unread: Unread, cannot_read: &[u8], err: &mut E) -> u8
    ensures { EndsUnread unread cannot_read.now (err.new ≡ err.old)
        (Rose (E.faults err.old) (E.faults err.new)) (E.contents err.old) (E.contents err.new)
        result }
{
    match unread {
        Unread::Failed => after_put(put_piece(err, cannot_read), Status::ReadFault),
        Unread::NoMemory => Status::NoMemory.code(),
    }
}

/// Puts the report, or the line that something can't be read. The answer is the exit status.
pub fn finish<O: Sink, E: Sink>(
    work: Result<Report, Unread>,
    cannot_read: &[u8],
    out: &mut O,
    err: &mut E,
) -> u8
    ensures { Finished work cannot_read.now (out.new ≡ out.old) (err.new ≡ err.old)
        (Rose (O.faults out.old) (O.faults out.new)) (Rose (E.faults err.old) (E.faults err.new))
        (O.contents out.old) (O.contents out.new) (E.contents err.old) (E.contents err.new) result }
{
    match work {
        Ok(report) => after_put(
            put_both(out, report.out.as_slice(), err, report.err.as_slice()),
            report.status,
        ),
        Err(unread) => put_unread(unread, cannot_read, err),
    }
}

/// Puts the line that says which words are a command, where they are none. It takes no memory. The answer is the exit status.
pub fn finish_usage<O: Sink, E: Sink>(usage: &[u8], out: &mut O, err: &mut E) -> u8
    ensures ends { PutsReport (Rose (O.faults out.old) (O.faults out.new))
        (Rose (E.faults err.old) (E.faults err.new)) (O.contents out.old) (O.contents out.new)
        (E.contents err.old) (E.contents err.new) result (usage_report usage.now) }
    ensures status { (result ≡ 2) ⊎ (result ≡ 5) }
{
    after_put(put_both(out, b"", err, usage), Status::Usage)
}
