//! A sink: where bytes are put, piece by piece.
ghost use Rattle.std.specs.Prelude.{◌≡◌, ℕ, ◌≤◌, List, Option, OnOk, OnErr};
ghost use Rattle.wk_shelf.specs.Causes.{Rose};
ghost use Rattle.wk_shelf.specs.Put.{Puts, PutsSome};

/// A piece was not taken whole: some prefix of it was, which may be empty.
#[derive(Clone, Copy, Debug, PartialEq, Eq)]
pub struct SinkFailed;

/// A place to which bytes are put.
///
/// An implementation says by `contents` what was put, where it can know that, and counts in `faults`
/// the calls that failed. The count never falls, and stays at `u64::MAX` once it is there.
pub trait Sink {
    /// What was put so far, where that is known.
    ghost contents: { Self → Option (List ℕ) };

    /// How many calls failed.
    ghost faults: { Self → ℕ };

    /// Appends a piece. One that takes nothing of a piece that isn't empty counts a fault.
    fn put(&mut self, bytes: &[u8]) -> Result<(), SinkFailed>
        ensures ok { OnOk result (Puts (contents self.old) (contents self.new) bytes.now) }
        ensures err { OnErr result (PutsSome (contents self.old) (contents self.new) bytes.now) }
        ensures later { faults self.old ≤ faults self.new }
        ensures cause { OnErr result (Rose (faults self.old) (faults self.new)) };
}
