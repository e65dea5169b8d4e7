//! The laws: `specs/Laws.antt` says them.
ghost use Rattle.lua_lint_laws.specs.Laws.{NoneIsMissed};

/// Where the names of the globals that a module uses can be told, they have each name that a run reads or writes as a global in the text
/// of a module that is reached.
pub fn none_is_missed()
    ensures { NoneIsMissed }
{}
