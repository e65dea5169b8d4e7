//! Copies of scenes.
ghost use Rattle.std.specs.Prelude.{◌≡◌, IfOk};

use mw_frame::{Arg, List, NoMemory, Scene, Title};
use std::alloc::Global;

fn copy_args(alloc: Global, args: &[Arg]) -> Result<List<Arg>, NoMemory>
    ensures { IfOk result (λ made. made ≡ args.now) }
{
    let mut made = List::new(alloc);
    for arg in args {
        let copy = arg.copy()?;
        made.push(copy)?;
    }
    Ok(made)
}

/// An equal chain of titles.
pub fn copy_titles(alloc: Global, titles: &[Title]) -> Result<List<Title>, NoMemory>
    ensures { IfOk result (λ made. made ≡ titles.now) }
{
    let mut made = List::new(alloc);
    for title in titles {
        let copy = title.copy()?;
        made.push(copy)?;
    }
    Ok(made)
}

/// An equal scene.
pub fn copy_scene(alloc: Global, scene: &Scene) -> Result<Scene, NoMemory>
    ensures { IfOk result (λ made. made ≡ scene.now) }
{
    let title = scene.title.copy()?;
    let args = copy_args(alloc, scene.args.as_slice())?;
    let chain = copy_titles(alloc, scene.chain.as_slice())?;
    Ok(Scene { title, args, chain })
}
