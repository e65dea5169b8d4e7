//! Arguments, the scene of a frame, and the job of an invocation.
ghost use Rattle.std.specs.Prelude.{◌≡◌, IfOk};
ghost use Rattle.mw_frame.specs.Scenes.{NamesDiffer, HaveNames};

use std::alloc::Global;
use wk_base::{Bytes, List, NoMemory, Title};

/// An argument of a template or of an invocation. One without a name of its own is named by its number, in decimal
/// (MediaWiki, Help:Templates, "Usage of parameters").
#[derive(Drop, Debug)]
pub struct Arg {
    pub name: Bytes,
    pub value: Bytes,
}

/// What a text is expanded in: the title of the page, template or module to which the frame belongs, its arguments in
/// order, no two of one name, and the templates that are being expanded around it, the nearest first.
#[derive(Drop, Debug)]
pub struct Scene {
    pub title: Title,
    pub args: List<Arg>,
    pub chain: List<Title>,
}

/// What an invocation is to do: the function of a module is called with a frame of this scene, whose parent is the frame
/// of the text in which the invocation stands.
#[derive(Drop, Debug)]
pub struct Job {
    pub module: Title,
    pub function: Bytes,
    pub scene: Scene,
    pub parent: Scene,
}

impl Arg {
    /// An equal argument.
    pub fn copy(&self) -> Result<Arg, NoMemory>
        ensures { IfOk result (λ made. made ≡ self.now) }
    {
        let name = self.name.copy()?;
        let value = self.value.copy()?;
        Ok(Arg { name, value })
    }
}
