//! Lists of nodes, most of which have one item.
ghost use Rattle.std.specs.Prelude.{◌≡◌, [], IfOk};

use lua_syntax::{NoMemory, WkBaseList as List};
use std::alloc::Global;

/// An empty list with room for one item, which is all that many lists of statements, expressions and arms need. At its first
/// `push` a list takes room for four by itself.
pub fn short_list<T>(alloc: Global) -> Result<List<T>, NoMemory>
    ensures { IfOk result (λ made. made ≡ []) }
{
    let items = Vec::with_capacity(alloc, 1)?;
    Ok(List::of_vec(items))
}
