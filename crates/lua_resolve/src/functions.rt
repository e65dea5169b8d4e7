//! Functions that are done.
ghost use Rattle.std.specs.Prelude.{◌≡◌, ◌∷◌, ◌++◌, [], true, length, IfOk, OnOk};
ghost use Rattle.lua_code.specs.Seen.{proto_seen};
ghost use Rattle.lua_cells.specs.Cells.{HasNoIdleCell};
ghost use Rattle.lua_resolve.specs.Finished.{AllTight};

use lua_cells::has_no_idle_cell;
use lua_code::{NoMemory, Proto};
use lua_store::List;
use std::alloc::Global;
use std::marker::Model;

/// Functions that are done, in the order in which they ended.
#[derive(Drop)]
pub(crate) struct Functions {
    alloc: Global,
    protos: List<Proto>,
    tight: bool,
}

impl Model for Functions {
    ghost use Rattle.std.specs.Prelude.{◌≡◌, List, true};
    ghost use Rattle.std.specs.Coded.{coded_list};
    ghost use Rattle.lua_code.specs.declared.proto.Proto.{Proto as ProtoHeld};
    ghost use Rattle.lua_code.specs.contracts.proto.Proto as proto_row;
    ghost use Rattle.lua_resolve.specs.Finished.{AllTight};

    ghost Value = { List ProtoHeld };

    ghost coded = { coded_list proto_row.the_row.coded };

    ghost view = { λ f. f.protos };

    ghost invariant = { λ f. f.tight ≡ true → AllTight f.protos };
}

/// Functions, and whether each of their variables that has a cell is captured by a function inside.
#[derive(Drop)]
pub(crate) struct Finished {
    pub(crate) protos: List<Proto>,
    pub(crate) tight: bool,
}

impl Functions {
    /// No function.
    pub(crate) fn new(alloc: Global) -> Functions
        ensures { result ≡ [] }
    {
        Functions {
            alloc,
            protos: List::new(alloc),
            tight: true,
        }
    }

    /// How many functions there are.
    pub(crate) fn len(&self) -> usize
        ensures { result ≡ length self.now }
    {
        self.protos.as_slice().len()
    }

    /// One more function, whose code is looked at while it is at hand.
    pub(crate) fn push(&mut self, proto: Proto) -> Result<(), NoMemory>
        ensures { OnOk result (self.new ≡ self.old ++ proto ∷ []) }
    {
        let tight = with_one(self.alloc, &proto, self.tight)?;
        match self.protos.push(proto) {
            Ok(_) => {
                self.tight = tight;
                Ok(())
            }
            Err(_) => Err(NoMemory),
        }
    }

    /// The functions, and what was found of them.
    pub(crate) fn into_finished(self) -> Finished
        ensures protos { result.protos ≡ self }
        ensures tight { result.tight ≡ true → AllTight result.protos }
    {
        Finished {
            protos: self.protos,
            tight: self.tight,
        }
    }
}

/// Whether that was found of functions, and this one has no idle cell either.
pub(crate) fn with_one(alloc: Global, proto: &Proto, tight: bool) -> Result<bool, NoMemory>
    ensures { IfOk result (λ now. now ≡ true → (tight ≡ true) × HasNoIdleCell (proto_seen proto.now)) }
{
    if tight {
        has_no_idle_cell(alloc, proto)
    } else {
        Ok(false)
    }
}
