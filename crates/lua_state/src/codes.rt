//! The modules of a run: the code of those that have run, by the text of their title, and their constants that were found as texts.
ghost use Rattle.std.specs.Prelude.{◌≡◌, Some, option_map, IfOk, IfSome, OnOk};
ghost use Rattle.lua_code.specs.Held.{module_seen, modules_seen};
ghost use Rattle.lua_code.specs.Seen.{proto_seen};
ghost use Rattle.lua_arms.specs.LuaSlotsCalls.{code_of};
ghost use Rattle.lua_code.specs.LuaSlotsCode.{CWorld, Protos as PlainProtos};
ghost use Rattle.mw_frames.specs.LuaStoreSeen.{StoreView, text_at};
ghost use Rattle.mw_frames.specs.LuaStoreParts.{IsTextOf};
ghost use Rattle.lua_state.specs.Worlds.{world_seen, IsCode, IsFound, AreFound, IsRecent, IsHeld, CodesOf};

use crate::held::{Held, held_text, put};
use indexmap::IndexMap;
use lua_code::{Module, Modules, NoMemory, Proto, Protos, Title};
use mw_frames::{Store, TextId};
use std::alloc::Global;
use std::hash::RandomState;

/// What nothing in a run changes: the title of the page that is expanded, and the modules.
#[derive(Clone, Copy)]
pub struct World<'m> {
    pub page: &'m Title,
    pub modules: &'m Modules,
}

/// The functions and constants of a module that has run, and the place of its first constant among those that are held.
#[derive(Clone, Copy)]
pub struct Known<'m> {
    functions: &'m Protos,
    begin: usize,
}

/// The module that was asked for last, with the text of its title.
#[derive(Clone, Copy)]
pub struct Recent<'m> {
    source: TextId,
    code: Known<'m>,
}

/// The modules of a run, with those that have run, by the text of the module's title in the store.
#[derive(Drop)]
pub struct Codes<'m> {
    pub world: World<'m>,
    known: IndexMap<TextId, Known<'m>, RandomState>,
    /// So that a module which is asked for again is not looked for.
    recent: Option<Recent<'m>>,
    /// Constants that were found, each module's from a place of its own on. A place tells which constant stands there.
    held: Vec<Option<Held>>,
    /// The place of the next module's first constant.
    next: usize,
}

/// The module with this text as its title, if it was asked for last.
fn recent_module<'m>(recent: Option<Recent<'m>>, source: TextId) -> Option<Known<'m>>
    ensures { (w : CWorld) (s : StoreView) → IsRecent w s recent.entry → IfSome result (λ k. IsFound w s source k.functions.now) }
{
    match recent {
        Some(one) => {
            if one.source == source {
                return Some(one.code);
            }
            None
        }
        None => None,
    }
}

/// The module with this text as its title, if it is known.
fn known_module<'m>(
    known: &IndexMap<TextId, Known<'m>, RandomState>,
    source: TextId,
) -> Option<Known<'m>>
    ensures { (w : CWorld) (s : StoreView) → AreFound w s known.now.entries → IfSome result (λ k. IsFound w s source k.functions.now) }
{
    known.get(&source).copied()
}

/// This module is known from now on.
fn note<'m>(
    known: &mut IndexMap<TextId, Known<'m>, RandomState>,
    source: TextId,
    code: Known<'m>,
) -> Result<(), NoMemory>
    ensures { OnOk result ((w : CWorld) (s : StoreView) → AreFound w s known.old.entries → IsFound w s source code.entry.functions.now → AreFound w s known.new.entries) }
{
    match known.insert(source, code) {
        Ok(_) => Ok(()),
        Err(_) => Err(NoMemory),
    }
}

/// The functions and constants of a module, if it has no fault.
fn code_in<'m>(found: &'m Module) -> Option<&'m Protos>
    ensures { IsCode (code_of (Some (module_seen found.now))) result }
{
    match &found.code {
        Ok(functions) => Some(functions),
        Err(_) => None,
    }
}

/// The functions and constants of a module that is not known yet, if there is one without a fault.
fn first_code<'m>(
    alloc: Global,
    modules: &'m Modules,
    store: &Store,
    source: TextId,
) -> Result<Option<&'m Protos>, NoMemory>
    requires { IsTextOf store.now source }
    ensures { IfOk result (λ functions. IsCode (code_of (modules_seen modules.now (text_at store.now.texts source.at))) functions) }
{
    let text = store.bytes(source);
    let found = modules.find_text(alloc, text)?;
    match found {
        Some(one) => Ok(code_in(one)),
        None => Ok(None),
    }
}

/// A constant of this code. One that is not there is empty.
fn constant_in<'m>(code: Option<&'m Protos>, number: u32) -> &'m [u8]
    ensures { (plain : PlainProtos) → IsCode plain code.entry → result.now ≡ plain.constant number }
{
    match code {
        Some(functions) => functions.constant(number),
        None => &[],
    }
}

impl<'m> Codes<'m> {
    /// No module has run.
    pub fn new(alloc: Global, seed: RandomState, world: World<'m>) -> Codes<'m>
        ensures world { result.world ≡ world.entry }
        ensures codes { (s : StoreView) → CodesOf s result }
    {
        Codes {
            world,
            known: IndexMap::with_hasher(alloc, seed),
            recent: None,
            held: Vec::new(alloc),
            next: 0,
        }
    }

    /// The module of this title, if it is known.
    fn find(&self, source: TextId) -> Option<Known<'m>>
        ensures { (s : StoreView) → CodesOf s self.now → IfSome result (λ k. IsFound (world_seen self.now.world) s source k.functions.now) }
    {
        match recent_module(self.recent, source) {
            Some(code) => Some(code),
            None => known_module(&self.known, source),
        }
    }

    /// This module was asked for last.
    fn remember(&mut self, source: TextId, code: Known<'m>)
        ensures world { self.new.world ≡ self.old.world }
        ensures codes { (s : StoreView) → CodesOf s self.old → IsFound (world_seen self.old.world) s source code.entry.functions.now → CodesOf s self.new }
    {
        self.recent = Some(Recent { source, code });
    }

    /// The module of this title is known from now on.
    fn learn(&mut self, source: TextId, functions: &'m Protos) -> Result<(), NoMemory>
        ensures world { OnOk result (self.new.world ≡ self.old.world) }
        ensures codes { OnOk result ((s : StoreView) → CodesOf s self.old → IsFound (world_seen self.old.world) s source functions.now → CodesOf s self.new) }
    {
        let begin = self.next;
        let code = Known { functions, begin };
        self.next = begin.saturating_add(functions.constants.as_slice().len());
        note(&mut self.known, source, code)?;
        self.remember(source, code);
        Ok(())
    }

    /// The function of this number in a module that is not known yet.
    fn first_function(
        &mut self,
        alloc: Global,
        store: &Store,
        source: TextId,
        index: u32,
    ) -> Result<Option<&'m Proto>, NoMemory>
        requires source { IsTextOf store.now source }
        requires codes { CodesOf store.now self.old }
        ensures world { OnOk result (self.new.world ≡ self.old.world) }
        ensures codes { OnOk result (CodesOf store.now self.new) }
        ensures found { IfOk result (λ p. option_map (λ f. proto_seen f.now) p ≡ (code_of ((world_seen self.old.world).modules (text_at store.now.texts source.at))).function index) }
    {
        let modules = self.world.modules;
        let code = first_code(alloc, modules, store, source)?;
        match code {
            Some(functions) => {
                self.learn(source, functions)?;
                let function = functions.get(index);
                Ok(function)
            }
            None => Ok(None),
        }
    }

    /// The function of this number in the module of this title, if there is one.
    pub fn function(
        &mut self,
        alloc: Global,
        store: &Store,
        source: TextId,
        index: u32,
    ) -> Result<Option<&'m Proto>, NoMemory>
        requires source { IsTextOf store.now source }
        requires codes { CodesOf store.now self.old }
        ensures world { OnOk result (self.new.world ≡ self.old.world) }
        ensures codes { OnOk result (CodesOf store.now self.new) }
        ensures found { IfOk result (λ p. option_map (λ f. proto_seen f.now) p ≡ (code_of ((world_seen self.old.world).modules (text_at store.now.texts source.at))).function index) }
    {
        match self.find(source) {
            Some(code) => {
                self.remember(source, code);
                let function = code.functions.get(index);
                Ok(function)
            }
            None => {
                let found = self.first_function(alloc, store, source, index)?;
                Ok(found)
            }
        }
    }

    /// The module of this title is the one that was asked for last, if it is known.
    pub(crate) fn turn_to(&mut self, source: TextId)
        ensures world { self.new.world ≡ self.old.world }
        ensures codes { (s : StoreView) → CodesOf s self.old → CodesOf s self.new }
    {
        match self.find(source) {
            Some(code) => self.remember(source, code),
            None => (),
        }
    }

    /// The bytes of the constant of this number in the module of this title.
    pub(crate) fn constant_bytes(
        &self,
        alloc: Global,
        store: &Store,
        source: TextId,
        number: u32,
    ) -> Result<&'m [u8], NoMemory>
        requires source { IsTextOf store.now source }
        requires codes { CodesOf store.now self.now }
        ensures { IfOk result (λ bytes. bytes.now ≡ (code_of ((world_seen self.now.world).modules (text_at store.now.texts source.at))).constant number) }
    {
        match self.find(source) {
            Some(code) => Ok(code.functions.constant(number)),
            None => {
                let modules = self.world.modules;
                let code = first_code(alloc, modules, store, source)?;
                Ok(constant_in(code, number))
            }
        }
    }

    /// The text of the constant of this number in the module of this title, if it is held.
    pub(crate) fn held(&self, source: TextId, number: u32) -> Option<TextId>
        ensures { (s : StoreView) → CodesOf s self.now → IfSome result (λ text. IsHeld (world_seen self.now.world) s (record { source = source; number = number; text = text })) }
    {
        match self.find(source) {
            Some(code) => {
                let at = code.begin.saturating_add(number as usize);
                held_text(self.held.as_slice(), at, source, number)
            }
            None => None,
        }
    }

    /// This is the text of a constant, which is held from now on where its module is known.
    pub(crate) fn hold(&mut self, one: Held) -> Result<(), NoMemory>
        ensures world { OnOk result (self.new.world ≡ self.old.world) }
        ensures codes { OnOk result ((s : StoreView) → CodesOf s self.old → IsHeld (world_seen self.old.world) s one → CodesOf s self.new) }
    {
        match self.find(one.source) {
            Some(code) => {
                let at = code.begin.saturating_add(one.number as usize);
                put(&mut self.held, at, one)?;
                Ok(())
            }
            None => Ok(()),
        }
    }
}
