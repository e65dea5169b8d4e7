//! Lists with room.
ghost use Rattle.std.specs.Prelude.{◌≡◌, [], IfOk};

use lua_code::NoMemory;
use lua_store::List;
use std::alloc::Global;

/// No items, and room for so many, so that these are not moved while they come.
pub(crate) fn with_room<T>(alloc: Global, count: usize) -> Result<List<T>, NoMemory>
    ensures { IfOk result (λ items. items ≡ []) }
{
    match Vec::with_capacity(alloc, count) {
        Ok(items) => Ok(List::of_vec(items)),
        Err(_) => Err(NoMemory),
    }
}
