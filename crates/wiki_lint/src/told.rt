//! What the tool prints.
ghost use Rattle.std.specs.Prelude.{◌≡◌, ◌++◌, OnOk};
ghost use Rattle.wiki_lint.specs.Told.{printed};

use std::alloc::Global;
use wk_base::{Bytes, NoMemory};
use wk_tool::{Report, Status};

/// The name that stands before the colon in a line on standard error.
pub const TOOL: &[u8] = b"wikifmt";

/// A text of Lua has fewer bytes than this, so that 32 bits number its lines. No folder that is read holds a longer one.
pub const TEXT_LIMIT: usize = 4_000_000_000;

/// More bytes behind a text.
pub(crate) fn put(made: &mut Vec<u8>, bytes: &[u8]) -> Result<(), NoMemory>
    ensures { OnOk result (made.new.items ≡ made.old.items ++ bytes.now) }
{
    match made.extend_from_slice(bytes) {
        Ok(_) => Ok(()),
        Err(_) => Err(NoMemory),
    }
}

/// What is printed where there is nothing to be said.
pub fn printed(alloc: Global, bytes: Bytes) -> Report
    ensures { result ≡ printed bytes }
{
    Report {
        status: Status::Done,
        out: bytes,
        err: Bytes::of_vec(Vec::new(alloc)),
    }
}
