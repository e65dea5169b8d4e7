//! Going through trees from the left, and opening the constructs and parameters that stand in them.
ghost use Rattle.std.specs.Prelude.{◌≡◌, ◌+◌, ◌*◌, ◌++◌, ℕ, List, cond, length, IfOk};
ghost use Rattle.mw_frame.specs.declared.scene.Scene.{Scene};
ghost use Rattle.page_run.specs.Run.{TakeBytes, Uses};
ghost use Rattle.page_run.specs.Part.{open_or};
ghost use Rattle.expand_texts.specs.ExpandMeaningTexts.{node_text as no_node, size_text as no_bytes};
ghost use Rattle.wiki_pages.specs.ExpandMeaningPlaces.{name_in};
ghost use Rattle.expand_texts.specs.ExpandMeaningExpand.{Setting, Thing, AConstruct, AParameter, Page, Doing, expand, onward, sized as sized_part, deeper, thing_text};
ghost use Rattle.wiki_pages.specs.Forests.{trees_in, parts, size};
ghost use Rattle.wiki_expand.specs.Points.{Leads, Opens_to, Takes_of, waiting, scene_in, ahead};
ghost use Rattle.wiki_expand.specs.Steps.{StepIs};
ghost use Rattle.wiki_expand.specs.Weights.{allowed, weights};

use crate::allowances::{enter_level, take_bytes, take_node};
use crate::frame::{Entry, Focus, Frame, Machine, Progress, Walk, Wiki};
use expand_texts::rope::{Piece, Rope};
use expand_texts::texts::{depth_text, node_text, size_text};
use mw_frame::Left;
use std::alloc::Global;
use wiki_markup::NoMemory;
use wiki_pages::{Forest, Split};

/// A text that is fixed.
pub fn fixed<'w>(alloc: Global, text: &'w [u8]) -> Result<Rope<'w>, NoMemory>
    ensures { IfOk result (λ rope. rope ≡ text.now) }
{
    Rope::of(alloc, Piece::Borrowed(text))
}

/// A result takes its bytes, or the text stands in its place.
pub fn sized<'w>(alloc: Global, left: &mut Left, text: Rope<'w>) -> Result<Rope<'w>, NoMemory>
    ensures leads { IfOk result (λ made. (w : Setting) (k : List ℕ → Page) → Leads w (Uses tt (TakeBytes (length text.entry)) (λ enough. k (cond enough text.entry no_bytes))) left.old (k made) left.new) }
    ensures same { left.new ≡ record left.old { bytes = left.new.bytes } }
{
    if take_bytes(left, &text) {
        return Ok(text);
    }
    let made = fixed(alloc, size_text())?;
    Ok(made)
}

/// Takes a node and enters a level.
pub fn enter<'w>(alloc: Global, left: &mut Left) -> Result<Entry<'w>, NoMemory>
    ensures opens { IfOk result (λ entry. (w : Setting) (t : Thing) (m : Doing (List ℕ)) (k : List ℕ → Page) → thing_text w t ≡ sized_part (deeper m) → Opens_to w t m k left.old entry left.new) }
    ensures takes { IfOk result (λ entry. Takes_of left.old entry left.new) }
{
    if !take_node(left) {
        let text = fixed(alloc, node_text())?;
        return Ok(Entry::NoNode(text));
    }
    if enter_level(left) {
        return Ok(Entry::Entered);
    }
    let text = fixed(alloc, depth_text())?;
    let text = sized(alloc, left, text)?;
    Ok(Entry::NoLevel(text))
}

/// Trees from their start.
pub fn walk<'w>(alloc: Global, rest: Forest<'w>) -> Walk<'w>
    ensures starts { (sc : Scene) (k : List ℕ → Page) → onward (ahead result) sc result.out k ≡ expand (trees_in rest.entry) sc k }
    ensures size { size result.rest ≡ size rest.entry }
{
    Walk {
        rest,
        named: false,
        out: Rope::new(alloc),
    }
}

/// The trees up to the first `=`.
pub fn walk_name<'w>(alloc: Global, rest: Forest<'w>) -> Walk<'w>
    ensures starts { (sc : Scene) (k : List ℕ → Page) → onward (ahead result) sc result.out k ≡ expand (name_in (trees_in rest.entry)) sc k }
    ensures size { size result.rest ≡ size rest.entry }
{
    Walk {
        rest,
        named: true,
        out: Rope::new(alloc),
    }
}

impl<'w> Walk<'w> {
    /// A text behind the text so far.
    pub fn behind(self, text: Rope<'w>) -> Result<Walk<'w>, NoMemory>
        ensures out { IfOk result (λ walk. walk.out ≡ self.entry.out ++ text.entry) }
        ensures ahead { IfOk result (λ walk. ahead walk ≡ ahead self.entry) }
        ensures size { IfOk result (λ walk. size walk.rest ≡ size self.entry.rest) }
    {
        let Walk { rest, named, out } = self;
        let mut out = out;
        out.append(text)?;
        Ok(Walk { rest, named, out })
    }
}

impl<'w> Machine<'w> {
    /// Opens a construct.
    fn open_construct(
        &mut self,
        wiki: &Wiki<'w>,
        left: &mut Left,
        inside: Forest<'w>,
    ) -> Result<Progress<'w>, NoMemory>
        ensures { IfOk result (λ r. StepIs wiki.now (open_or tt no_node (AConstruct (parts inside.entry) (scene_in self.old.scene)) (waiting wiki.now self.old)) left.old self.old.stack (3 + weights self.old.stack) (allowed left.old self.old.stack) r self.new left.new) }
    {
        match enter(wiki.alloc, left)? {
            Entry::NoNode(text) => Ok(Progress::On(Focus::Text(text))),
            Entry::NoLevel(text) => Ok(Progress::Deeper(Focus::Text(text))),
            Entry::Entered => {
                let (first, rest) = inside.head()?;
                self.stack.push(Frame::Level)?;
                self.stack.push(Frame::First(rest))?;
                Ok(Progress::Deeper(Focus::Walk(walk(wiki.alloc, first))))
            }
        }
    }

    /// Opens a parameter.
    fn open_parameter(
        &mut self,
        wiki: &Wiki<'w>,
        left: &mut Left,
        inside: Forest<'w>,
    ) -> Result<Progress<'w>, NoMemory>
        ensures { IfOk result (λ r. StepIs wiki.now (open_or tt no_node (AParameter (parts inside.entry) (scene_in self.old.scene)) (waiting wiki.now self.old)) left.old self.old.stack (3 + weights self.old.stack) (allowed left.old self.old.stack) r self.new left.new) }
    {
        match enter(wiki.alloc, left)? {
            Entry::NoNode(text) => Ok(Progress::On(Focus::Text(text))),
            Entry::NoLevel(text) => Ok(Progress::Deeper(Focus::Text(text))),
            Entry::Entered => {
                let (name, rest) = inside.head()?;
                self.stack.push(Frame::Parameter(rest))?;
                Ok(Progress::Deeper(Focus::Walk(walk(wiki.alloc, name))))
            }
        }
    }

    /// Goes on by one tree.
    pub fn walk_on(
        &mut self,
        wiki: &Wiki<'w>,
        left: &mut Left,
        walk: Walk<'w>,
    ) -> Result<Progress<'w>, NoMemory>
        ensures { IfOk result (λ r. StepIs wiki.now (onward (ahead walk.entry) (scene_in self.old.scene) walk.entry.out (waiting wiki.now self.old)) left.old self.old.stack (8 * size walk.entry.rest + 4 + weights self.old.stack) (allowed left.old self.old.stack) r self.new left.new) }
    {
        let Walk { rest, named, out } = walk;
        let mut out = out;
        match rest.split()? {
            Split::Nothing => Ok(Progress::On(Focus::Text(out))),
            Split::Text(text, rest) => {
                out.push(text)?;
                Ok(Progress::On(Focus::Walk(Walk { rest, named, out })))
            }
            Split::Equals(rest) => {
                if named {
                    return Ok(Progress::On(Focus::Text(out)));
                }
                out.push(Piece::Borrowed(b"="))?;
                Ok(Progress::On(Focus::Walk(Walk { rest, named, out })))
            }
            Split::Part(_, rest) => Ok(Progress::On(Focus::Walk(Walk { rest, named, out }))),
            Split::Construct(inside, rest) => {
                self.stack.push(Frame::Walk(Walk { rest, named, out }))?;
                self.open_construct(wiki, left, inside)
            }
            Split::Parameter(inside, rest) => {
                self.stack.push(Frame::Walk(Walk { rest, named, out }))?;
                self.open_parameter(wiki, left, inside)
            }
        }
    }
}
