//! A text that is gone over: names, constants, declarations, and functions that are done.
ghost use Rattle.std.specs.Prelude.{◌≡◌, ◌∷◌, ◌++◌, [], true, suc, length, IfOk, IfSome, OnOk, option_map};
ghost use Rattle.lua_syntax.specs.Tree.{NameE};
ghost use Rattle.lua_code.specs.LuaSlotsCode.{Protos as PlainProtos};
ghost use Rattle.lua_code.specs.LuaSlotsSight.{Sight};
ghost use Rattle.lua_code.specs.LuaSlotsIsCode.{IsExp, IsTarget};
ghost use Rattle.lua_code.specs.Seen.{place_seen, expression_seen, target_seen};
ghost use Rattle.lua_scopes.specs.Scopes.{nothing_known, closed_to, IsSighted};
ghost use Rattle.lua_resolve.specs.Parts.{state_of, Next, Later, AreDeclared};

use crate::constants::Constants;
use crate::functions::Functions;
use crate::lists::with_room;
use lua_code::{Bytes, Expression, NoMemory, Place, Proto, Target};
use lua_scopes::{Scopes, Sketch};
use lua_store::List;
use std::alloc::Global;
use std::hash::RandomState;

/// A text that is gone over: the functions in progress, those that are done, and the constants that were met.
#[derive(Drop)]
pub(crate) struct Resolver<'t> {
    pub(crate) alloc: Global,
    pub(crate) scopes: Scopes<'t>,
    pub(crate) functions: Functions,
    pub(crate) constants: Constants<'t>,
}

impl<'t> Resolver<'t> {
    /// In front of a text of which a sketch was made. Its constants are hashed by the seed.
    pub(crate) fn new(alloc: Global, seed: RandomState, sketch: Sketch<'t>) -> Resolver<'t>
        ensures scopes { result.scopes ≡ record { clean = true; level = nothing_known; outer = [] } }
        ensures functions { result.functions ≡ [] }
        ensures constants { result.constants ≡ [] }
    {
        Resolver {
            alloc,
            scopes: Scopes::new(alloc, sketch),
            functions: Functions::new(alloc),
            constants: Constants::new(alloc, seed),
        }
    }

    /// Where a name stands; `None` where it is global.
    pub(crate) fn variable(&mut self, name: &'t Bytes) -> Result<Option<Place>, NoMemory>
        ensures next { OnOk result (Next (state_of self.old) (state_of self.new)) }
        ensures place { IfOk result (λ p. (at : PlainProtos) (see : Sight) → Later (state_of self.new) at see → IsSighted (option_map place_seen p) (see name.now)) }
    {
        let place = self.scopes.place(name)?;
        Ok(place)
    }

    /// The number of a text or a name among the constants.
    pub(crate) fn constant(&mut self, bytes: &'t Bytes) -> Result<u32, NoMemory>
        ensures next { OnOk result (Next (state_of self.old) (state_of self.new)) }
        ensures there { IfOk result (λ n. (at : PlainProtos) (see : Sight) → Later (state_of self.new) at see → at.constant n ≡ bytes.now) }
    {
        let number = self.constants.number(bytes)?;
        Ok(number)
    }

    /// Code of a name.
    pub(crate) fn name(&mut self, name: &'t Bytes, line: u32) -> Result<Expression, NoMemory>
        ensures next { OnOk result (Next (state_of self.old) (state_of self.new)) }
        ensures code { IfOk result (λ c. (at : PlainProtos) (see : Sight) → Later (state_of self.new) at see → IsExp at see (NameE line name.now) (expression_seen c)) }
    {
        match self.variable(name)? {
            Some(place) => Ok(Expression::Local(place)),
            None => {
                let number = self.constant(name)?;
                Ok(Expression::Global(number, line))
            }
        }
    }

    /// A name that is assigned to.
    pub(crate) fn named_target(&mut self, name: &'t Bytes, line: u32) -> Result<Target, NoMemory>
        ensures next { OnOk result (Next (state_of self.old) (state_of self.new)) }
        ensures code { IfOk result (λ c. (at : PlainProtos) (see : Sight) → Later (state_of self.new) at see → IsTarget at see (NameE line name.now) (target_seen c)) }
    {
        match self.variable(name)? {
            Some(place) => Ok(Target::Variable(place)),
            None => {
                let number = self.constant(name)?;
                Ok(Target::Global(number, line))
            }
        }
    }

    /// Local variables of these names; whether each has a cell.
    pub(crate) fn declare(&mut self, names: &'t [Bytes]) -> Result<List<bool>, NoMemory>
        ensures { IfOk result (λ flags. AreDeclared (state_of self.old) (state_of self.new) names.now flags) }
    {
        let mut flags = with_room(self.alloc, names.len())?;
        for name in names {
            let boxed = self.scopes.declare(name)?;
            flags.push(boxed)?;
        }
        Ok(flags)
    }

    /// A local variable of this name; whether it has a cell.
    pub(crate) fn declare_one(&mut self, name: &'t Bytes) -> Result<bool, NoMemory>
        ensures { IfOk result (λ boxed. AreDeclared (state_of self.old) (state_of self.new) (name.now ∷ []) (boxed ∷ [])) }
    {
        let boxed = self.scopes.declare(name)?;
        Ok(boxed)
    }

    /// Only the oldest so many local variables are left.
    pub(crate) fn close(&mut self, count: usize) -> Result<(), NoMemory>
        ensures { OnOk result ((self.new.scopes ≡ record self.old.scopes { level = closed_to count self.old.scopes.level }) × (self.new.functions ≡ self.old.functions) × (self.new.constants ≡ self.old.constants)) }
    {
        self.scopes.close(count)
    }

    /// A function that is done; its number.
    pub(crate) fn add(&mut self, proto: Proto) -> Result<u32, NoMemory>
        ensures scopes { self.new.scopes ≡ self.old.scopes }
        ensures constants { self.new.constants ≡ self.old.constants }
        ensures functions { IfOk result (λ index. (index ≡ suc (length self.old.functions)) × (self.new.functions ≡ self.old.functions ++ proto ∷ [])) }
    {
        let Some(index) = number_of(self.functions.len()) else {
            return Err(NoMemory);
        };
        self.functions.push(proto)?;
        Ok(index)
    }
}

/// The number of the next function behind so many.
fn number_of(count: usize) -> Option<u32>
    ensures { IfSome result (λ index. index ≡ suc count) }
{
    if count < 4000000000 {
        Some(count as u32 + 1)
    } else {
        None
    }
}
