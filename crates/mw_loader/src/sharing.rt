//! The data of a value, read-only.
ghost use Rattle.std.specs.Prelude.{◌≡◌, ◌≢◌, IfOk, IfErr};
ghost use Rattle.lua_graph.specs.LuaWalkData.{taken};
ghost use Rattle.lua_store.specs.Seen.{seen};
ghost use Rattle.lua_store.specs.Parts.{IsOf, IsLater};
ghost use Rattle.lua_graph.specs.declared.fault.DataFault.TheVariants as fault;
ghost use Rattle.lua_graph.specs.Taken.{IsFault};
ghost use Rattle.mw_loader.specs.Shared.{IsSharedData};

use lua_graph::{DataFault, put_in, take_out};
use lua_store::{Store, Value, laws};
use std::alloc::Global;

/// New read-only tables that hold the data of a value, and the root among them; or the first fault that keeps it from being
/// data (Scribunto, `mw.loadData`). What was there stays as it was, and none of it is reached from what is new.
pub fn make_shared(alloc: Global, store: &mut Store, value: Value) -> Result<Value, DataFault>
    requires { IsOf store.old value }
    ensures shared { IfOk result (IsSharedData store.old value store.new) }
    ensures of { IfOk result (IsOf store.new) }
    ensures later { IsLater store.old store.new }
    ensures fault { IfErr result (IsFault (taken store.old.heap (seen store.old.texts value))) }
    ensures same { IfErr result (λ e. e ≢ fault.NoMemory → store.new ≡ store.old) }
{
    laws::names_what_is_there(store);
    let graph = match take_out(alloc, store, value) {
        Ok(graph) => graph,
        Err(fault) => return Err(fault),
    };
    match put_in(alloc, store, &graph, true) {
        Ok(root) => Ok(root),
        Err(_) => Err(DataFault::NoMemory),
    }
}
