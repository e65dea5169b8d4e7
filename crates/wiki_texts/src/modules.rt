//! The modules of a wiki, from the texts of its pages.
ghost use Rattle.std.specs.Prelude.{◌≡◌, true, IfOk, OnOk};
ghost use Rattle.lua_code.specs.WkBaseTitles.{is_module};
ghost use Rattle.lua_code.specs.Held.{code_seen};
ghost use Rattle.wiki_texts.specs.Code.{IsCodeOf, Adds};
ghost use Rattle.wiki_texts.specs.Prepared.{IsCodeOfPage};

use crate::raw::RawPage;
use lua_code::{Modules, Protos};
use lua_parser::{FaultAt, SyntaxFault, parse};
use lua_resolve::resolve;
use std::alloc::Global;
use std::hash::RandomState;
use wiki_markup::NoMemory;

/// A text of Lua has fewer bytes than this, so that 32 bits number its lines. No folder that is read holds a longer one.
const TEXT_LIMIT: usize = 4_000_000_000;

/// The code of a text of Lua, or the text's first fault.
fn code_of(
    alloc: Global,
    seed: RandomState,
    text: &[u8],
) -> Result<Result<Protos, FaultAt>, NoMemory>
    ensures { IfOk result (λ code. IsCodeOf text.now (code_seen code)) }
{
    if text.len() >= TEXT_LIMIT {
        return Err(NoMemory);
    }
    match parse(alloc, text) {
        Ok(chunk) => {
            let protos = resolve(alloc, seed, &chunk)?;
            Ok(Ok(protos))
        }
        Err(SyntaxFault::At(fault)) => Ok(Err(fault)),
        Err(SyntaxFault::NoMemory) => Err(NoMemory),
    }
}

/// The code of a page of namespace Module. Such a page may hold anything, wikitext too, and hurts nothing until it is called.
pub(crate) fn code_of_page(
    alloc: Global,
    seed: RandomState,
    page: &RawPage,
) -> Result<Option<Result<Protos, FaultAt>>, NoMemory>
    ensures { IfOk result (λ code. IsCodeOfPage (is_module page.now.title.ns) page.now.bytes code) }
{
    if !page.title.ns.is_module() {
        return Ok(None);
    }
    let code = code_of(alloc, seed, page.bytes.as_slice())?;
    Ok(Some(code))
}

/// Adds a module, where none of its title is there.
fn add_module(
    modules: &mut Modules,
    page: &RawPage,
    code: Result<Protos, FaultAt>,
) -> Result<(), NoMemory>
    requires namespace { is_module page.now.title.ns ≡ true }
    requires code { IsCodeOf page.now.bytes (code_seen code) }
    ensures { OnOk result (Adds page.now modules.old modules.new) }
{
    if modules.get(&page.title).is_some() {
        return Ok(());
    }
    let text = page.bytes.as_slice();
    let title = page.title.copy()?;
    modules.add(title, text.len() as u64, code)
}

/// Adds the module that a page is, where it is one and none of its title is there.
pub(crate) fn add_code(
    modules: &mut Modules,
    page: &RawPage,
    code: Option<Result<Protos, FaultAt>>,
) -> Result<(), NoMemory>
    requires { IsCodeOfPage (is_module page.now.title.ns) page.now.bytes code }
    ensures { OnOk result (Adds page.now modules.old modules.new) }
{
    match code {
        None => Ok(()),
        Some(code) => add_module(modules, page, code),
    }
}
