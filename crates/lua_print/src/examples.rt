//! Worked examples.
ghost use Rattle.lua_print.specs.Examples.{RowsHold};

/// The texts of `specs/Examples.antt` have the layouts that stand beside them.
pub fn rows_hold()
    ensures { RowsHold }
{}
