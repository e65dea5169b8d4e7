//! The environment with which a run starts.
ghost use Rattle.std.specs.Prelude.{◌≡◌, length, IfOk, OnOk};
ghost use Rattle.lua_store.specs.Parts.{IsLater};
ghost use Rattle.lua_stack.specs.Of.{EnvironmentOf};
ghost use Rattle.lua_home.specs.Made.{with_home, IsHomeAt};

use crate::names::{access_names, arithmetic_names, other_names};
use lua_code::NoMemory;
use lua_home::fresh;
use lua_stack::Environment;
use lua_store::Store;

/// The environment of a run that starts (manual 5; Scribunto, "Lua environment"): fresh tables, and the names of handlers. Nothing
/// that was there is changed.
pub fn environment(store: &mut Store) -> Result<Environment, NoMemory>
    ensures of { IfOk result (EnvironmentOf store.new) }
    ensures at { IfOk result (λ e.
        IsHomeAt (length store.old.heap.tables) e.globals.at e.strings.at) }
    ensures made { OnOk result (store.new.heap ≡ with_home store.old.heap) }
    ensures later { IsLater store.old store.new }
{
    let tables = fresh(store)?;
    let access = access_names(store)?;
    let arithmetic = arithmetic_names(store)?;
    let others = other_names(store)?;
    Ok(Environment {
        globals: tables.globals,
        strings: tables.strings,
        index: access.index,
        set_index: access.set_index,
        call: access.call,
        add: arithmetic.add,
        subtract: arithmetic.subtract,
        multiply: arithmetic.multiply,
        divide: arithmetic.divide,
        modulo: arithmetic.modulo,
        power: arithmetic.power,
        negate: others.negate,
        concatenate: others.concatenate,
        equal: others.equal,
        less: others.less,
        at_most: others.at_most,
        to_string: access.to_string,
        pairs: access.pairs,
        ipairs: access.ipairs,
    })
}
