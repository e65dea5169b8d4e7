//! A function whose code is gone over.
ghost use Rattle.std.specs.Prelude.{◌≡◌, ◌↔◌, true, IfOk};
ghost use Rattle.lua_code.specs.Seen.{proto_seen};
ghost use Rattle.lua_cells.specs.Cells.{HasNoIdleCell};

use crate::statements::inner;
use crate::watch::Watch;
use lua_code::{NoMemory, Proto};
use std::alloc::Global;

/// Whether each variable of a function that has a cell is captured by a function inside. Each node of its code is looked at once; the
/// code of functions inside it is not.
///
/// The code is one that is made of a tree whose depth is bounded (200 levels): it is gone down by recursion.
pub fn has_no_idle_cell(alloc: Global, proto: &Proto) -> Result<bool, NoMemory>
    ensures { IfOk result (λ none. (none ≡ true) ↔ HasNoIdleCell (proto_seen proto.now)) }
{
    let mut registers = Watch::new(alloc);
    inner(
        proto.flags.as_slice(),
        proto.body.as_slice(),
        &mut registers,
    )?;
    Ok(registers.is_needed())
}
