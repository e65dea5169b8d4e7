//! Texts and scenes from which expansions begin.
ghost use Rattle.std.specs.Prelude.{◌≡◌, [], ◌∷◌, ◌++◌, None, IfOk, OnOk};
ghost use Rattle.mw_frame.specs.Scenes.{NamesDiffer};
ghost use Rattle.wiki_pages.specs.ExpandMeaningPlaces.{trees_at};
ghost use Rattle.expand_texts.specs.ExpandMeaningExpand.{found};
ghost use Rattle.page_meaning.specs.ExpandMeaningOutcome.{page_scene};
ghost use Rattle.page_meaning.specs.Wiki.{read};

use crate::context::Context;
use expand_texts::arguments::Arguments;
use mw_frame::{Arg, Scene};
use std::alloc::Global;
use wiki_markup::{Marked, Mode, markup, shown};
use wk_base::{Bytes, List, NoMemory, Title};

/// One more argument, whose name is not among those before. No question of a machine has two arguments of one name, but no clause of a
/// machine says so: where one had, the answer would be that memory was wanting.
fn add_named(names: &mut Arguments, arg: &Arg) -> Result<(), NoMemory>
    ensures fresh { OnOk result (found arg.now.name names.old ≡ None) }
    ensures added { OnOk result (names.new ≡ names.old ++ arg.now ∷ []) }
{
    let taken = names.find(&arg.name).is_some();
    if taken {
        return Err(NoMemory);
    }
    let arg = arg.copy()?;
    let Arg { name, value } = arg;
    names.put(name, value)?;
    Ok(())
}

/// These are arguments of a frame: no two have one name.
pub fn check_names(around: &Context<'_>, args: &[Arg]) -> Result<(), NoMemory>
    ensures { OnOk result (NamesDiffer args.now) }
{
    let mut names = Arguments::new(around.alloc, around.seed);
    for arg in args {
        add_named(&mut names, arg)?;
    }
    Ok(())
}

/// The trees of a text that stands by itself.
pub fn read_text(alloc: Global, text: &Bytes) -> Result<Marked, NoMemory>
    ensures { IfOk result (λ marked. trees_at 0 marked.nodes ≡ read text.now) }
{
    let shown_text = shown(alloc, text.as_slice(), Mode::Direct)?;
    let marked = markup(alloc, &shown_text)?;
    Ok(marked)
}

/// The scene of the page itself: it has no arguments, and is in no chain.
pub fn bare_scene(alloc: Global, page: &Title) -> Result<Scene, NoMemory>
    ensures { IfOk result (λ scene. scene ≡ page_scene page.now) }
{
    let title = page.copy()?;
    Ok(Scene {
        title,
        args: List::new(alloc),
        chain: List::new(alloc),
    })
}
