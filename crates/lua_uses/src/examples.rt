//! Worked examples.
ghost use Rattle.lua_uses.specs.Examples.{RowsHold};

/// The modules of `specs/Examples.antt` use the globals that stand beside them.
pub fn rows_hold()
    ensures { RowsHold }
{}
