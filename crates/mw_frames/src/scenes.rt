//! The frames of a run, in the order in which they were made (Scribunto, Frame object).
ghost use Rattle.std.specs.Prelude.{◌≡◌, ◌<◌, ◌^◌, ◌++◌, ◌∷◌, [], Some, length, slice_get, slice_set, IfOk, OnOk, OnErr};
ghost use Rattle.std.specs.Option.{option_map};
ghost use Rattle.lua_basic.specs.LuaStoreSeen.{StoreView};
ghost use Rattle.lua_basic.specs.LuaStoreParts.{IsLater, IsTableOf};
ghost use Rattle.mw_frame.specs.declared.scene.Scene.{Scene as SceneValue};
ghost use Rattle.mw_frames.specs.Scenes.{made, FramesOf, NamesOf, ScenesOf, ScenesStay};
ghost use Rattle.mw_frames.specs.declared.scenes.Parent.TheVariants as kin;
ghost use Rattle.mw_frames.specs.declared.scenes.SceneFrame.{SceneFrame as SceneFrameValue};

use lua_basic::{Store, TableId, TextId};
use mw_frame::{NoMemory, Scene};
use std::alloc::Global;
use std::hash::RandomState;

/// The parent of a frame.
#[derive(Drop)]
pub enum Parent {
    /// There is none.
    Nobody,
    /// It has not been asked for yet.
    Unmade(Scene),
    /// It is the frame of that number.
    Made(usize),
}

/// A frame: its scene, which never changes, its table, and its parent.
#[derive(Drop)]
pub struct SceneFrame {
    pub scene: Scene,
    pub table: TableId,
    pub parent: Parent,
}

/// The names of the fields that methods of frames and `mw.text.tag` read, as texts of a store.
#[derive(Clone, Copy)]
pub struct FieldNames {
    pub args: TextId,
    pub title: TextId,
    pub name: TextId,
    pub text: TextId,
    pub content: TextId,
    pub attrs: TextId,
}

/// The frames of a run by number, the names that their methods read, and a seed from which names of arguments are hashed.
#[derive(Drop)]
pub struct Scenes {
    seed: RandomState,
    names: FieldNames,
    frames: Vec<SceneFrame>,
}

/// The names as texts of a store.
fn names_in(store: &mut Store) -> Result<FieldNames, NoMemory>
    ensures names { IfOk result (NamesOf store.new) }
    ensures heap { store.new.heap ≡ store.old.heap }
    ensures later { IsLater store.old store.new }
{
    let args = store.text(b"args")?;
    let title = store.text(b"title")?;
    let name = store.text(b"name")?;
    let text = store.text(b"text")?;
    let content = store.text(b"content")?;
    let attrs = store.text(b"attrs")?;
    Ok(FieldNames {
        args,
        title,
        name,
        text,
        content,
        attrs,
    })
}

impl Scenes {
    /// No frames. Names of arguments will be hashed from the seed, on which no answer depends.
    pub fn new(alloc: Global, store: &mut Store, seed: RandomState) -> Result<Scenes, NoMemory>
        ensures made { IfOk result (λ x. made x ≡ []) }
        ensures of { IfOk result (ScenesOf store.new) }
        ensures heap { store.new.heap ≡ store.old.heap }
        ensures later { IsLater store.old store.new }
    {
        let names = names_in(store)?;
        Ok(Scenes {
            seed,
            names,
            frames: Vec::new(alloc),
        })
    }

    /// How many frames there are: the number of the next one.
    pub fn count(&self) -> usize
        ensures count { result ≡ length (made self.now) }
        ensures within { result < 2 ^ 63 }
    {
        self.frames.as_slice().len()
    }

    /// The frame of a number.
    pub fn get(&self, number: usize) -> Option<&SceneFrame>
        ensures frame { option_map (λ f. f.now) result ≡ slice_get (made self.now) number }
    {
        self.frames.as_slice().get(number)
    }

    /// The frame of a number that was given out.
    pub fn frame(&self, number: usize) -> &SceneFrame
        requires { number < length (made self.now) }
        ensures { slice_get (made self.now) number ≡ Some result.now }
    {
        &self.frames[number]
    }

    /// The names of fields.
    pub fn names(&self) -> FieldNames
        ensures { result ≡ self.now.names }
    {
        self.names
    }

    /// From this names of arguments are hashed.
    pub fn seed(&self) -> RandomState {
        self.seed
    }

    /// Adds a frame behind all others.
    pub fn push(&mut self, frame: SceneFrame) -> Result<(), NoMemory>
        ensures ok { OnOk result (made self.new ≡ made self.old ++ frame ∷ []) }
        ensures err { OnErr result (made self.new ≡ made self.old) }
        ensures names { self.new.names ≡ self.old.names }
    {
        match self.frames.push(frame) {
            Ok(_) => Ok(()),
            Err(_) => Err(NoMemory),
        }
    }

    /// Puts another parent in the place of a frame's, and gives back the one that was there.
    fn swap_parent(&mut self, number: usize, parent: Parent) -> Parent
        requires { number < length (made self.old) }
        ensures was { (f : SceneFrameValue) → slice_get (made self.old) number ≡ Some f
            → result ≡ f.parent }
        ensures set { (f : SceneFrameValue) → slice_get (made self.old) number ≡ Some f
            → made self.new ≡ slice_set (made self.old) number (record f { parent = parent }) }
        ensures names { self.new.names ≡ self.old.names }
    {
        std::mem::replace(&mut self.frames[number].parent, parent)
    }

    /// The parent of a frame that was not asked for yet gets a frame of its own, with this table.
    pub fn adopt(&mut self, number: usize, table: TableId) -> Result<(), NoMemory>
        requires { number < length (made self.old) }
        ensures ok { OnOk result ((f : SceneFrameValue) (scene : SceneValue)
            → slice_get (made self.old) number ≡ Some f → f.parent ≡ kin.Unmade scene
            → made self.new
            ≡ slice_set (made self.old) number
            (record f { parent = kin.Made (length (made self.old)) })
            ++ record { scene = scene; table = table; parent = kin.Nobody } ∷ []) }
        ensures of { (s : StoreView) → FramesOf s (made self.old) → IsTableOf s table
            → FramesOf s (made self.new) }
        ensures names { self.new.names ≡ self.old.names }
    {
        let count = self.count();
        match self.swap_parent(number, Parent::Made(count)) {
            Parent::Nobody => Ok(()),
            Parent::Made(_) => Ok(()),
            Parent::Unmade(scene) => self.push(SceneFrame {
                scene,
                table,
                parent: Parent::Nobody,
            }),
        }
    }
}

/// Frames of a store are of each later one.
pub fn scenes_stay()
    ensures { ScenesStay }
{}
