//! Putting a report to the two streams.
ghost use Rattle.std.specs.Prelude.{◌≡◌, ◌≤◌, ◌⊎◌, OnOk, OnErr, is_ok, if◌then◌else◌};
ghost use Rattle.wk_shelf.specs.Causes.{Rose};
ghost use Rattle.wk_shelf.specs.Put.{Puts, PutsSome};
ghost use Rattle.wk_tool.specs.Report.{status_code};

use crate::report::Status;
use wk_shelf::{Sink, SinkFailed};

/// Puts a piece, if there is anything in it.
pub fn put_piece<K: Sink>(sink: &mut K, piece: &[u8]) -> Result<(), SinkFailed>
    ensures ok { OnOk result (Puts (K.contents sink.old) (K.contents sink.new) piece.now) }
    ensures some { PutsSome (K.contents sink.old) (K.contents sink.new) piece.now }
    ensures cause { OnErr result (Rose (K.faults sink.old) (K.faults sink.new)) }
{
    if piece.is_empty() {
        return Ok(());
    }
    sink.put(piece)
}

/// Puts a page to one sink, then a message to another.
pub fn put_both<O: Sink, E: Sink>(
    out: &mut O,
    page: &[u8],
    err: &mut E,
    message: &[u8],
) -> Result<(), SinkFailed>
    ensures out_ok { OnOk result (Puts (O.contents out.old) (O.contents out.new) page.now) }
    ensures err_ok { OnOk result (Puts (E.contents err.old) (E.contents err.new) message.now) }
    ensures out_some { PutsSome (O.contents out.old) (O.contents out.new) page.now }
    ensures err_some { PutsSome (E.contents err.old) (E.contents err.new) message.now }
    ensures cause { OnErr result (Rose (O.faults out.old) (O.faults out.new)
        ⊎ Rose (E.faults err.old) (E.faults err.new)) }
{
    put_piece(out, page)?;
    put_piece(err, message)
}

/// The exit status after a put: the given one, or that of a write fault.
pub fn after_put(put: Result<(), SinkFailed>, status: Status) -> u8
    ensures { result ≡ (if is_ok put then status_code status else 5) }
{
    match put {
        Ok(()) => status.code(),
        Err(SinkFailed) => Status::WriteFault.code(),
    }
}
