//! Nodes as they are put together, from the right.
ghost use Rattle.std.specs.Prelude.{◌≡◌, ◌∷◌, [], length, map, reverse, IfOk, OnOk, OnErr};
ghost use Rattle.wiki_markup.specs.Nodes.{Text, Equals};
ghost use Rattle.wiki_markup.specs.Build.{put_node, from_left};
ghost use Rattle.wiki_markup.specs.Held.{branch_kind, nodes_before, AreNumbered, turned as turned_lem};

use crate::held::{Branch, Kept};
use crate::marked::Marked;
use crate::texts::{Texts, short};
use std::alloc::Global;
use std::marker::Model;
use wk_base::{List, NoMemory};

/// Nodes from the right: the first in its model is the leftmost one, and each is counted from the right.
#[derive(Drop)]
pub struct Growing {
    texts: Texts,
    kept: Vec<Kept>,
}

impl Model for Growing {
    ghost use Rattle.std.specs.Prelude.{List, length, reverse};
    ghost use Rattle.wiki_markup.specs.Nodes.{Node};
    ghost use Rattle.wiki_markup.specs.Held.{nodes_before, AreNumbered};

    ghost Value = { List Node };

    ghost view = { λ g. nodes_before g.texts (reverse g.kept.items) };

    ghost invariant = { λ g. AreNumbered (length g.texts) (reverse g.kept.items) };
}

/// A node more.
fn push(kept: &mut Vec<Kept>, node: Kept) -> Result<(), NoMemory>
    ensures ok { OnOk result (reverse kept.new.items ≡ node ∷ reverse kept.old.items) }
    ensures err { OnErr result (kept.new.items ≡ kept.old.items) }
{
    match kept.push(node) {
        Ok(_) => Ok(()),
        Err(_) => Err(NoMemory),
    }
}

/// A text more, and its node.
fn push_text(texts: &mut Texts, kept: &mut Vec<Kept>, text: &[u8]) -> Result<(), NoMemory>
    requires { AreNumbered (length texts.old) (reverse kept.old.items) }
    ensures ok { OnOk result (nodes_before texts.new (reverse kept.new.items)
        ≡ put_node (Text text.now) (length (nodes_before texts.old (reverse kept.old.items)))
        (nodes_before texts.old (reverse kept.old.items))) }
    ensures numbered { AreNumbered (length texts.new) (reverse kept.new.items) }
{
    let number = short(texts.len())?;
    texts.push(text)?;
    push(kept, Kept::Text(number))?;
    Ok(())
}

/// One of so many nodes, counted from the left.
fn turned(node: Kept, count: u32) -> Kept
    ensures { result ≡ turned_lem count node }
{
    match node {
        Kept::Text(number) => Kept::Text(number),
        Kept::Equals => Kept::Equals,
        Kept::Branch(branch, right) => Kept::Branch(branch, count.saturating_sub(right)),
    }
}

/// The nodes from the left, in no more room than they need.
fn from_the_left(alloc: Global, kept: Vec<Kept>) -> Result<List<Kept>, NoMemory>
    ensures { IfOk result (λ nodes.
        nodes ≡ map (turned_lem (length kept.items)) (reverse kept.items)) }
{
    let count = short(kept.len())?;
    let Ok(room) = Vec::with_capacity(alloc, kept.len()) else {
        return Err(NoMemory);
    };
    let mut nodes = List::of_vec(room);
    let mut left = kept;
    while let Some(node) = left.pop() {
        nodes.push(turned(node, count))?;
    }
    Ok(nodes)
}

impl Growing {
    /// No nodes.
    #[tactic(auto, unfolding(crate::specs::Held::nodes_before))]
    pub fn new(alloc: Global) -> Growing
        ensures { result ≡ [] }
    {
        Growing {
            texts: Texts::new(alloc),
            kept: Vec::new(alloc),
        }
    }

    /// How many nodes there are.
    pub fn len(&self) -> usize
        ensures { result ≡ length self.now }
    {
        self.kept.len()
    }

    /// A text to the left of all others.
    pub fn put_text(&mut self, text: &[u8]) -> Result<(), NoMemory>
        ensures { OnOk result (self.new ≡ put_node (Text text.now) (length self.old) self.old) }
    {
        push_text(&mut self.texts, &mut self.kept, text)?;
        Ok(())
    }

    /// An `=` to the left of all others.
    pub fn put_equals(&mut self) -> Result<(), NoMemory>
        ensures { OnOk result (self.new ≡ put_node Equals (length self.old) self.old) }
    {
        push(&mut self.kept, Kept::Equals)?;
        Ok(())
    }

    /// A node to the left of all others, whose children are all but those to the right of a place.
    pub fn put_branch(&mut self, branch: Branch, right: usize) -> Result<(), NoMemory>
        ensures { OnOk result (self.new ≡ put_node (branch_kind branch) right self.old) }
    {
        let place = short(right)?;
        push(&mut self.kept, Kept::Branch(branch, place))?;
        Ok(())
    }

    /// The nodes from the left, each with the place of its end.
    pub fn finish(self, alloc: Global) -> Result<Marked, NoMemory>
        ensures { IfOk result (λ marked. marked.nodes ≡ map (from_left (length self)) self) }
    {
        let mut texts = self.texts;
        texts.shrink();
        let nodes = from_the_left(alloc, self.kept)?;
        Ok(Marked::of(texts, nodes))
    }
}
