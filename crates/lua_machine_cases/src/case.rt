//! Modules, and what is to be done with one of them.
ghost use Rattle.std.specs.Prelude.{◌≡◌, true, false, None, IfOk};
ghost use Rattle.lua_code.specs.WkBaseTitles.{is_module};
ghost use Rattle.lua_code.specs.Held.{find_module};
ghost use Rattle.lua_machine.specs.LuaStackOf.{WorkOf};
ghost use Rattle.mw_frame.specs.Scenes.{NamesDiffer, HaveNames};

use crate::replies::{Entry, Reply};
use lua_code::{Bytes, List, Modules, Namespace, NoMemory, Protos, Title};
use lua_machine::{ArgText, TextIn, Work, merge_args};
use lua_parser::{FaultAt, SyntaxFault, parse};
use lua_resolve::resolve;
use mw_frame::{Job, Scene};
use std::alloc::Global;
use std::hash::RandomState;

/// More bytes are not read as Lua.
const MOST: usize = 4000000000;

/// What is to be done with a module.
#[derive(Drop)]
pub enum Aim {
    /// The function of that name, the second one, is invoked.
    Invoke(Vec<u8>, Vec<u8>),
    /// The module is loaded as data.
    Load(Vec<u8>),
}

/// Modules, what is to be done with one of them, and the answers to the questions of its next run.
#[derive(Drop)]
pub struct Case {
    pub name: Vec<u8>,
    pub page: Title,
    pub modules: Modules,
    pub aim: Aim,
    pub args: List<ArgText<'static>>,
    /// The template around the invocation, if there is one, with its arguments.
    pub parent: Option<Title>,
    pub parent_args: List<ArgText<'static>>,
    /// Entries of the next table that is an answer.
    pub entries: List<Entry>,
    /// The answers to the questions of the next run, in order.
    pub replies: List<Reply>,
}

/// The title of a module.
fn module_title(alloc: Global, name: &[u8]) -> Result<Title, NoMemory>
    ensures { IfOk result (λ title. is_module title.ns ≡ true) }
{
    let name = Bytes::of(alloc, name)?;
    Ok(Title {
        ns: Namespace::Module,
        name,
    })
}

/// The title of the page.
fn page_title(alloc: Global) -> Result<Title, NoMemory> {
    let name = Bytes::of(alloc, b"P")?;
    Ok(Title {
        ns: Namespace::Main,
        name,
    })
}

/// The code of a text, or its first fault.
fn code_of(
    alloc: Global,
    seed: RandomState,
    text: &[u8],
) -> Result<Result<Protos, FaultAt>, NoMemory> {
    if text.len() >= MOST {
        return Err(NoMemory);
    }
    match parse(alloc, text) {
        Ok(chunk) => without_fault(resolve(alloc, seed, &chunk)),
        Err(SyntaxFault::At(fault)) => Ok(Err(fault)),
        Err(SyntaxFault::NoMemory) => Err(NoMemory),
    }
}

fn without_fault(code: Result<Protos, NoMemory>) -> Result<Result<Protos, FaultAt>, NoMemory> {
    match code {
        Ok(protos) => Ok(Ok(protos)),
        Err(NoMemory) => Err(NoMemory),
    }
}

/// Whether a module of that title is held.
fn is_held(modules: &Modules, title: &Title) -> bool
    ensures { result ≡ false → find_module modules.now title.now ≡ None }
{
    match modules.get(title) {
        Some(_) => true,
        None => false,
    }
}

/// A module of that title, which isn't held, is held.
fn hold(
    alloc: Global,
    seed: RandomState,
    modules: &mut Modules,
    title: Title,
    text: &[u8],
) -> Result<(), NoMemory>
    requires namespace { is_module title.ns ≡ true }
    requires fresh { find_module modules.old title ≡ None }
{
    match code_of(alloc, seed, text) {
        Ok(code) => modules.add(title, text.len() as u64, code),
        Err(NoMemory) => Err(NoMemory),
    }
}

/// A module with this text is held, unless one of its title is.
pub fn add_module(
    alloc: Global,
    seed: RandomState,
    modules: &mut Modules,
    name: &[u8],
    text: &[u8],
) -> Result<(), NoMemory> {
    let title = module_title(alloc, name)?;
    if is_held(modules, &title) {
        return Ok(());
    }
    hold(alloc, seed, modules, title, text)
}

/// An argument of a frame.
pub fn argument(name: Vec<u8>, value: Vec<u8>) -> ArgText<'static> {
    ArgText {
        name: TextIn::Written(name),
        value: TextIn::Written(value),
    }
}

/// A scene with these arguments, of two with one name the last.
fn scene(
    alloc: Global,
    seed: RandomState,
    title: Title,
    args: &[ArgText<'static>],
    chain: List<Title>,
) -> Result<Scene, NoMemory>
    ensures { IfOk result (λ s. NamesDiffer s.args) }
{
    match merge_args(alloc, seed, args) {
        Ok(args) => Ok(Scene { title, args, chain }),
        Err(NoMemory) => Err(NoMemory),
    }
}

/// A list of a copy of a title.
fn listed(alloc: Global, title: &Title) -> Result<List<Title>, NoMemory> {
    let mut titles = List::new(alloc);
    titles.push(title.copy()?)?;
    Ok(titles)
}

/// A case of that name on a page, with nothing in it.
fn empty(alloc: Global, seed: RandomState, name: Vec<u8>, page: Title) -> Case {
    Case {
        name,
        page,
        modules: Modules::new(alloc, seed),
        aim: Aim::Load(Vec::new(alloc)),
        args: List::new(alloc),
        parent: None,
        parent_args: List::new(alloc),
        entries: List::new(alloc),
        replies: List::new(alloc),
    }
}

impl Case {
    /// A case with nothing in it, on a page `P`.
    pub fn new(alloc: Global, seed: RandomState, name: &[u8]) -> Result<Case, NoMemory> {
        let name = Vec::from_slice(alloc, name)?;
        let page = page_title(alloc)?;
        Ok(empty(alloc, seed, name, page))
    }

    /// The titles of the templates that are being expanded.
    fn chain(&self, alloc: Global) -> Result<List<Title>, NoMemory> {
        match &self.parent {
            Some(title) => listed(alloc, title),
            None => Ok(List::new(alloc)),
        }
    }

    /// The title of the page or template around the invocation.
    fn around(&self) -> Result<Title, NoMemory> {
        match &self.parent {
            Some(title) => title.copy(),
            None => self.page.copy(),
        }
    }

    /// The scene of a module's frame.
    fn own_scene(&self, alloc: Global, seed: RandomState, name: &[u8]) -> Result<Scene, NoMemory>
        ensures { IfOk result (λ s. NamesDiffer s.args) }
    {
        let chain = self.chain(alloc)?;
        let title = module_title(alloc, name)?;
        scene(alloc, seed, title, self.args.as_slice(), chain)
    }

    /// The scene around the invocation.
    fn parent_scene(&self, alloc: Global, seed: RandomState) -> Result<Scene, NoMemory>
        ensures { IfOk result (λ s. NamesDiffer s.args) }
    {
        let chain = self.chain(alloc)?;
        let title = self.around()?;
        scene(alloc, seed, title, self.parent_args.as_slice(), chain)
    }

    /// The invocation of a function of a module.
    fn job(
        &self,
        alloc: Global,
        seed: RandomState,
        name: &[u8],
        function: Bytes,
    ) -> Result<Job, NoMemory>
        ensures { IfOk result HaveNames }
    {
        let module = module_title(alloc, name)?;
        let scene = self.own_scene(alloc, seed, name)?;
        let parent = self.parent_scene(alloc, seed)?;
        Ok(Job {
            module,
            function,
            scene,
            parent,
        })
    }

    fn invocation(
        &self,
        alloc: Global,
        seed: RandomState,
        name: &[u8],
        function: &[u8],
    ) -> Result<Work, NoMemory>
        ensures { IfOk result WorkOf }
    {
        let function = Bytes::of(alloc, function)?;
        let job = self.job(alloc, seed, name, function)?;
        Ok(Work::Invoke(job))
    }

    /// What is to be done, for one run.
    pub fn work(&self, alloc: Global, seed: RandomState) -> Result<Work, NoMemory>
        ensures { IfOk result WorkOf }
    {
        match &self.aim {
            Aim::Invoke(name, function) => {
                self.invocation(alloc, seed, name.as_slice(), function.as_slice())
            }
            Aim::Load(name) => load(alloc, name.as_slice()),
        }
    }
}

/// The load of a module.
fn load(alloc: Global, name: &[u8]) -> Result<Work, NoMemory>
    ensures { IfOk result WorkOf }
{
    let title = module_title(alloc, name)?;
    Ok(Work::Data(title))
}
