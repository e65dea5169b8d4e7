//! Functions in progress, and the places of their errors (manual 2.7, and 5.1 under `error`).
ghost use Rattle.std.specs.Prelude.{◌≡◌, ◌-◌, ◌≤◌, [], ◌∷◌, Some, IfSome, OnOk, OnErr, MatchOption, slice_get};
ghost use Rattle.std.specs.Option.{option_map, option_copied};
ghost use Rattle.lua_replacing.specs.LuaMeaningMessages.{nth_level};
ghost use Rattle.lua_code.specs.LuaSlotsSlots.{levels_at};
ghost use Rattle.lua_store.specs.Seen.{StoreView};
ghost use Rattle.lua_store.specs.Parts.{IsTextOf};
ghost use Rattle.lua_stack.specs.Levels.{levels_from, level_of, KnowReach};
ghost use Rattle.lua_stack.specs.Seen.{activations_seen, level_seen};
ghost use Rattle.lua_stack.specs.Of.{ActivationsOf};

use crate::stack::Stack;
use crate::values::Values;
use lua_store::{ClosureId, TextId};
use mw_frame::NoMemory;
use std::alloc::Global;
use std::marker::Model;

/// A function of Lua that is called: the text of its module's title, its number among the functions of the module, and the closure in
/// which it stands. The text of a module as a whole stands in none.
#[derive(Clone, Copy)]
pub struct Callee {
    pub source: TextId,
    pub index: u32,
    pub closure: Option<ClosureId>,
}

/// A function in progress.
#[derive(Drop)]
pub struct Activation {
    /// The text of its module's title.
    pub source: TextId,
    /// The closure whose cells it has, if it stands in one.
    pub closure: Option<ClosureId>,
    /// Its values of `...`.
    pub dots: Values,
    /// The line that called it, if a place of a text did.
    pub called_at: Option<u32>,
    /// How many registers there were before its own.
    pub base: usize,
    /// How many lines called in a row, from the one that called it on.
    pub reach: usize,
}

/// The place of an error: a line of a module.
#[derive(Clone, Copy)]
pub struct Level {
    /// The text of the module's title.
    pub source: TextId,
    pub line: u32,
}

/// The functions in progress, the newest first.
#[derive(Drop)]
pub struct Activations {
    stack: Stack<Activation>,
}

impl Model for Activations {
    ghost use Rattle.std.specs.Prelude.{List};
    ghost use Rattle.std.specs.Coded.{coded_list};
    ghost use Rattle.lua_stack.specs.declared.activation.Activation.{Activation as ActivationValue};
    ghost use Rattle.lua_stack.specs.contracts.activation.Activation as activation;
    ghost use Rattle.lua_stack.specs.Levels.{KnowReach};

    ghost Value = { List ActivationValue };

    ghost coded = { coded_list activation.the_row.coded };

    ghost view = { λ a. a.stack };

    ghost invariant = { λ a. KnowReach a.stack };
}

/// How many levels there are from a line of the newest function on, if so many can be.
fn count_levels(stack: &Stack<Activation>, line: Option<u32>) -> Option<usize>
    ensures { IfSome result (λ n. n ≡ levels_from stack.now line) }
{
    let Some(newest) = stack.get(0) else {
        return Some(0);
    };
    if line.is_none() {
        return Some(0);
    }
    newest.reach.checked_add(1)
}

/// The place of a level above the first one: the line that called the function there.
fn caller(stack: &Stack<Activation>, level: usize) -> Option<Level>
    requires { 2 ≤ level }
    ensures { result ≡ level_of (slice_get stack.now (level - 2)) (slice_get stack.now (level - 1)) }
{
    match stack.get(level - 2) {
        Some(called) => match stack.get(level - 1) {
            Some(calling) => match called.called_at {
                Some(line) => Some(Level {
                    source: calling.source,
                    line,
                }),
                None => None,
            },
            None => None,
        },
        None => None,
    }
}

/// The place of a level of an error at a line of the newest function.
fn level_above(
    stack: &Stack<Activation>,
    newest: &Activation,
    line: u32,
    level: usize,
) -> Option<Level>
    requires known { KnowReach stack.now }
    requires newest { Some newest.now ≡ slice_get stack.now 0 }
    ensures of { (s : StoreView) → ActivationsOf s stack.now → IfSome result (λ l. IsTextOf s l.source) }
    ensures place { (s : StoreView) → option_map (level_seen s.texts) result ≡ nth_level (levels_at (activations_seen s stack.now) (Some line)) level }
{
    if level == 0 {
        return None;
    }
    if level == 1 {
        return Some(Level {
            source: newest.source,
            line,
        });
    }
    if level - 2 >= newest.reach {
        return None;
    }
    caller(stack, level)
}

/// The same, where a line or a function may be wanting.
fn level_at(stack: &Stack<Activation>, line: Option<u32>, level: usize) -> Option<Level>
    requires { KnowReach stack.now }
    ensures of { (s : StoreView) → ActivationsOf s stack.now → IfSome result (λ l. IsTextOf s l.source) }
    ensures place { (s : StoreView) → option_map (level_seen s.texts) result ≡ nth_level (levels_at (activations_seen s stack.now) line) level }
{
    match stack.get(0) {
        Some(newest) => match line {
            Some(line) => level_above(stack, newest, line, level),
            None => None,
        },
        None => None,
    }
}

impl Activations {
    /// No function is in progress.
    pub fn new(alloc: Global) -> Activations
        ensures { result ≡ [] }
    {
        Activations {
            stack: Stack::new(alloc),
        }
    }

    /// A function is entered, called by this line of the newest one. Where memory runs out, the others stay as they were.
    pub fn enter(
        &mut self,
        callee: &Callee,
        dots: Values,
        called_at: Option<u32>,
        base: usize,
    ) -> Result<(), NoMemory>
        ensures ok { OnOk result (self.new ≡ record {
          source = callee.now.source;
          closure = callee.now.closure;
          dots = dots;
          called_at = called_at;
          base = base;
          reach = levels_from self.old called_at;
        } ∷ self.old) }
        ensures err { OnErr result (self.new ≡ self.old) }
    {
        let Some(reach) = count_levels(&self.stack, called_at) else {
            return Err(NoMemory);
        };
        self.stack.push(Activation {
            source: callee.source,
            closure: callee.closure,
            dots,
            called_at,
            base,
            reach,
        })
    }

    /// The newest function is left.
    pub fn leave(&mut self) -> Option<Activation>
        ensures { MatchOption result ((self.old ≡ []) × (self.new ≡ [])) (λ a. self.old ≡ a ∷ self.new) }
    {
        self.stack.pop()
    }

    /// The newest function, if one is in progress.
    pub fn newest(&self) -> Option<&Activation>
        ensures { option_copied result ≡ slice_get self.now 0 }
    {
        self.stack.get(0)
    }

    /// The place of a level of an error at a line of the newest function. Level 1 is that line, level 2 the line that called, and so
    /// on; from where no line called there is none.
    pub fn place_of_level(&self, line: Option<u32>, level: usize) -> Option<Level>
        ensures of { (s : StoreView) → ActivationsOf s self.now → IfSome result (λ l. IsTextOf s l.source) }
        ensures place { (s : StoreView) → option_map (level_seen s.texts) result ≡ nth_level (levels_at (activations_seen s self.now) line) level }
    {
        level_at(&self.stack, line, level)
    }
}
