//! The names of a folder in byte order.
ghost use Rattle.std.specs.Prelude.{◌≡◌, ◌≤◌, IfOk, IfSome, Err, map, string_bytes};
ghost use Rattle.wk_shelf.specs.Causes.{Rose};
ghost use Rattle.wk_shelf.specs.Files.{names_in, all_differ};
ghost use Rattle.wk_shelf.specs.Order.{in_byte_order};

use crate::{Shelf, ShelfFault};
use std::alloc::Global;

/// The names of a folder's files in byte order, where the shelf lists them.
pub fn sorted_names<S: Shelf>(
    alloc: Global,
    shelf: &mut S,
    folder: &str,
) -> Result<Vec<String>, ShelfFault>
    ensures same { S.files shelf.new ≡ S.files shelf.old }
    ensures later { S.faults shelf.old ≤ S.faults shelf.new }
    ensures cause { result ≡ Err ShelfFault.Failed
        → Rose (S.faults shelf.old) (S.faults shelf.new) }
    ensures names { IfOk result (λ names.
        IfSome (S.files shelf.old) (λ files.
        map string_bytes names.items ≡ in_byte_order (names_in folder.now files))) }
{
    let mut names = shelf.list(alloc, folder)?;
    names.sort_unstable();
    Ok(names)
}
