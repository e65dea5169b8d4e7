//! The modules of a run.
ghost use Rattle.std.specs.Prelude.{◌≡◌, ◌++◌, ◌∷◌, [], true, None, OnOk, OnErr, IfOk, option_map};
ghost use Rattle.std.specs.Option.{option_copied};
ghost use Rattle.lua_slots.specs.WkBaseDeclaredTitleNamespaceTheVariants as space;
ghost use Rattle.lua_syntax.specs.WkBaseTitles.{is_module, title_text};
ghost use Rattle.lua_code.specs.Held.{find_module, modules_seen, module_seen, AreModules};

use crate::proto::Protos;
use indexmap::IndexMap;
use lua_syntax::{FaultAt, Namespace, NoMemory, Title, WkBaseBytes as Bytes};
use std::alloc::Global;
use std::hash::RandomState;
use std::marker::Model;

/// A module: the length of its text in bytes, and its functions, or its first fault.
#[derive(Drop)]
pub struct Module {
    pub size: u64,
    pub code: Result<Protos, FaultAt>,
}

/// A finite map from the titles of modules to these. Its model is the list of its entries, in the order in which they were
/// added.
#[derive(Drop)]
pub struct Modules {
    map: IndexMap<Title, Module, RandomState>,
}

impl Model for Modules {
    ghost use Rattle.std.specs.Prelude.{List};
    ghost use Rattle.lua_syntax.specs.WkBaseDeclaredTitleTitle.{Title as TitleValue};
    ghost use Rattle.lua_code.specs.declared.modules.Module.{Module as ModuleValue};
    ghost use Rattle.std.specs.Coded.{coded_list, coded×};
    ghost use Rattle.lua_syntax.specs.WkBaseContractsTitleTitle as title;
    ghost use Rattle.lua_code.specs.contracts.modules.Module as module_;
    ghost use Rattle.lua_code.specs.Held.{AreModules};

    ghost Value = { List (TitleValue × ModuleValue) };

    ghost coded = { coded_list (coded× title.the_row.coded module_.the_row.coded) };

    ghost view = { λ m. m.map.entries };

    ghost invariant = { λ m. AreModules m.map.entries };
}

/// An entry of a title that isn't there is put at the end.
fn insert(
    map: &mut IndexMap<Title, Module, RandomState>,
    title: Title,
    held: Module,
) -> Result<(), NoMemory>
    requires namespace { is_module title.ns ≡ true }
    requires fresh { find_module map.old.entries title ≡ None }
    ensures ok { OnOk result (map.new.entries ≡ map.old.entries ++ (title, held) ∷ []) }
    ensures err { OnErr result (map.new.entries ≡ map.old.entries) }
    ensures all { AreModules map.old.entries → AreModules map.new.entries }
{
    match map.insert(title, held) {
        Ok(_) => Ok(()),
        Err(_) => Err(NoMemory),
    }
}

/// The title of a module by its name.
fn title_named(alloc: Global, name: &[u8]) -> Result<Title, NoMemory>
    ensures { IfOk result (λ title. title ≡ record { ns = space.Module; name = name.now }) }
{
    let name = Bytes::of(alloc, name)?;
    Ok(Title {
        ns: Namespace::Module,
        name,
    })
}

/// The module whose title is written as this text.
fn find_in<'a>(
    map: &'a IndexMap<Title, Module, RandomState>,
    alloc: Global,
    text: &[u8],
) -> Result<Option<&'a Module>, NoMemory>
    requires { AreModules map.now.entries }
    ensures { IfOk result (λ found.
        option_map (λ m. module_seen m.now) found ≡ modules_seen map.now.entries text.now) }
{
    match text.strip_prefix(b"Module:") {
        None => Ok(None),
        Some(name) => {
            let title = title_named(alloc, name)?;
            let found = map.get(&title);
            Ok(found)
        }
    }
}

impl Modules {
    /// No module. Titles are hashed by the seed, so that no title can be chosen to collide with others.
    pub fn new(alloc: Global, seed: RandomState) -> Modules
        ensures { result ≡ [] }
    {
        Modules {
            map: IndexMap::with_hasher(alloc, seed),
        }
    }

    /// A module that isn't held yet is held. Where memory runs out, the modules stay as they were.
    pub fn add(
        &mut self,
        title: Title,
        length: u64,
        code: Result<Protos, FaultAt>,
    ) -> Result<(), NoMemory>
        requires namespace { is_module title.ns ≡ true }
        requires fresh { find_module self.old title ≡ None }
        ensures ok { OnOk result (self.new
            ≡ self.old ++ (title, record { size = length; code = code }) ∷ []) }
        ensures err { OnErr result (self.new ≡ self.old) }
    {
        let held = Module { size: length, code };
        insert(&mut self.map, title, held)
    }

    /// The module of a title, if it is held.
    pub fn get(&self, title: &Title) -> Option<&Module>
        ensures found { option_copied result ≡ find_module self.now title.now }
        ensures seen { is_module title.now.ns ≡ true
            → option_map (λ m. module_seen m.now) result
            ≡ modules_seen self.now (title_text title.now) }
    {
        self.map.get(title)
    }

    /// The module whose title is written as this text, if it is held.
    pub fn find_text(&self, alloc: Global, text: &[u8]) -> Result<Option<&Module>, NoMemory>
        ensures { IfOk result (λ found.
            option_map (λ m. module_seen m.now) found ≡ modules_seen self.now text.now) }
    {
        find_in(&self.map, alloc, text)
    }
}
