//! The laws: `specs/Laws.antt` says them.
ghost use Rattle.lua_meaning_laws.specs.Laws.{DataRunsAskForData};

/// The run of a data module never asks for a template or for a text, whatever its module does and however it is answered
/// (Scribunto, mw.loadData: a data module has no frame).
pub fn data_runs_ask_for_data()
    ensures { DataRunsAskForData }
{}
