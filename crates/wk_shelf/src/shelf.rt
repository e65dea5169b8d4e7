//! A shelf: folders of files that can be listed and read.
ghost use Rattle.std.specs.Prelude.{◌≡◌, ℕ, ◌≤◌, List, Option, IfOk, map, string_bytes};
ghost use Rattle.wk_shelf.specs.Causes.{Rose};
ghost use Rattle.wk_shelf.specs.Files.{StoredFile, Lists, Reads};

use std::alloc::Global;
use wk_base::Bytes;

/// Why a shelf gave no answer.
#[derive(Clone, Copy, Debug, PartialEq, Eq)]
pub enum ShelfFault {
    /// The outside failed, and the shelf counted a fault.
    Failed,
    NoMemory,
}

/// Folders of files. Nothing that is asked changes what is held.
///
/// An implementation says by `files` what it holds, where it can know that, and counts in `faults`
/// the calls that failed. The count never falls, and stays at `u64::MAX` once it is there.
pub trait Shelf {
    /// The files that it holds, where that is known.
    ghost files: { Self → Option (List StoredFile) };

    /// How many calls failed.
    ghost faults: { Self → ℕ };

    /// The names of the files of a folder, in some order, each once.
    fn list(&mut self, alloc: Global, folder: &str) -> Result<Vec<String>, ShelfFault>
        ensures same { files self.new ≡ files self.old }
        ensures later { faults self.old ≤ faults self.new }
        ensures cause { result ≡ Err ShelfFault.Failed → Rose (faults self.old) (faults self.new) }
        ensures names { IfOk result (λ names.
            Lists (files self.old) folder.now (map string_bytes names.items)) };

    /// The first `most` bytes of a file, or all where it has fewer.
    fn read(
        &mut self,
        alloc: Global,
        folder: &str,
        name: &str,
        most: usize,
    ) -> Result<Bytes, ShelfFault>
        ensures same { files self.new ≡ files self.old }
        ensures later { faults self.old ≤ faults self.new }
        ensures cause { result ≡ Err ShelfFault.Failed → Rose (faults self.old) (faults self.new) }
        ensures bytes { IfOk result (λ bytes.
            Reads (files self.old) folder.now name.now most bytes) };
}
