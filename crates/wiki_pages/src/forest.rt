//! Trees side by side, as a stretch of the nodes that they are read from.
ghost use Rattle.std.specs.Prelude.{◌≡◌, ◌+◌, ◌-◌, ◌<◌, ◌≤◌, [], ◌∷◌, length, cond, min, max, slice_get, MatchOption, None, Some, IfOk, IfSome};
ghost use Rattle.wiki_markup.specs.Trees.{done};
ghost use Rattle.wiki_markup.specs.Views.{kind_seen, node_seen};
ghost use Rattle.expand_texts.specs.ExpandMeaningPlaces.{trees_at, part_in, first_in, others_in, no_part, value_in};
ghost use Rattle.expand_texts.specs.Ropes.{bytes_of};
ghost use Rattle.wiki_pages.specs.Forests.{nodes_in, trees_in, text_in, size, parts, Splits, Falls, Stays, Amid, Behind, option_trees, option_size, OptionAmid, GoesPast, PastFalls, PastAmid};
ghost use Rattle.wiki_pages.specs.CaseTables.{IsRight};

use crate::held::HeldText;
use crate::tables::CaseTable;
use expand_texts::rope::Piece;
use std::alloc::Global;
use std::rc::Rc;
use wiki_markup::{KindView, Marked, NoMemory, NodeView};

/// The nodes of a page that is held, or of a text of its own.
#[derive(Drop)]
pub enum Nodes<'w> {
    Held(&'w HeldText),
    Own(Rc<Marked>),
}

/// The trees of the nodes from `at` up to, but not including, `end`.
#[derive(Drop)]
pub struct Forest<'w> {
    pub(crate) nodes: Nodes<'w>,
    pub(crate) at: usize,
    pub(crate) end: usize,
}

/// The first tree of a forest, with what stands in it, and the trees behind it.
#[derive(Drop)]
pub enum Split<'w> {
    Nothing,
    Text(Piece<'w>, Forest<'w>),
    Equals(Forest<'w>),
    Construct(Forest<'w>, Forest<'w>),
    Parameter(Forest<'w>, Forest<'w>),
    Part(Forest<'w>, Forest<'w>),
}

/// What a step of the search for the first `=` finds.
#[derive(Drop)]
enum Past<'w> {
    Nothing,
    Equals(Forest<'w>),
    Next(Forest<'w>),
}

impl<'w> Nodes<'w> {
    fn len(&self) -> usize
        ensures { result ≡ length (nodes_in self.now) }
    {
        match self {
            Nodes::Held(text) => text.len(),
            Nodes::Own(marked) => marked.as_ref().len(),
        }
    }

    fn copy(&self) -> Result<Nodes<'w>, NoMemory>
        ensures { IfOk result (λ copy. nodes_in copy ≡ nodes_in self.now) }
    {
        match self {
            Nodes::Held(text) => Ok(Nodes::Held(text)),
            Nodes::Own(marked) => match marked.clone() {
                Ok(marked) => Ok(Nodes::Own(marked)),
                Err(_) => Err(NoMemory),
            },
        }
    }
}

/// The place `end`, or the nearest one from `first` to `last`.
fn clamped(end: usize, first: usize, last: usize) -> usize
    ensures { result ≡ min (max end first) last }
{
    end.max(first).min(last)
}

/// The text of a node of a page, which stays where it is.
fn borrowed<'w>(kind: KindView<'w>) -> Piece<'w>
    ensures { bytes_of result ≡ text_in (kind_seen kind.entry) }
{
    match kind {
        KindView::Text(bytes) => Piece::Borrowed(bytes),
        _ => Piece::Borrowed(b""),
    }
}

/// A copy of the text of a node.
fn copied<'w>(alloc: Global, kind: KindView<'_>) -> Result<Piece<'w>, NoMemory>
    ensures { IfOk result (λ text. bytes_of text ≡ text_in (kind_seen kind.entry)) }
{
    match kind {
        KindView::Text(bytes) => match bytes.to_vec(alloc) {
            Ok(bytes) => Ok(Piece::Owned(bytes)),
            Err(_) => Err(NoMemory),
        },
        _ => Ok(Piece::Borrowed(b"")),
    }
}

impl<'w> Forest<'w> {
    /// All trees of some nodes.
    pub(crate) fn all(nodes: Nodes<'w>) -> Forest<'w>
        ensures trees { trees_in result ≡ trees_at 0 (nodes_in nodes.entry) }
    {
        let end = nodes.len();
        Forest { nodes, at: 0, end }
    }

    /// All trees of a text of its own.
    pub fn own(alloc: Global, text: Marked) -> Result<Forest<'w>, NoMemory>
        ensures { IfOk result (λ f. trees_in f ≡ trees_at 0 text.nodes) }
    {
        match Rc::new(alloc, text) {
            Ok(text) => Ok(Forest::all(Nodes::Own(text))),
            Err(_) => Err(NoMemory),
        }
    }

    /// The trees of the nodes from `at` up to `end`.
    pub(crate) fn part(&self, at: usize, end: usize) -> Result<Forest<'w>, NoMemory>
        ensures nodes { IfOk result (λ f. nodes_in f.nodes ≡ nodes_in self.now.nodes) }
        ensures at { IfOk result (λ f. f.at ≡ at) }
        ensures end { IfOk result (λ f. f.end ≡ end) }
    {
        let nodes = self.nodes.copy()?;
        Ok(Forest { nodes, at, end })
    }

    /// The table of the run of parts in front, if there is one.
    pub(crate) fn table(&self) -> Option<&'w CaseTable>
        ensures { IfSome result (λ t. IsRight (nodes_in self.now.nodes) self.now.at t.now) }
    {
        match &self.nodes {
            Nodes::Held(text) => text.table(self.at),
            Nodes::Own(_) => None,
        }
    }

    /// The first tree, and what stands in it and behind it.
    pub fn split(&self) -> Result<Split<'w>, NoMemory>
        ensures splits { IfOk result (λ s. Splits s (trees_in self.now)) }
        ensures falls { IfOk result (λ s. Falls s (size self.now)) }
        ensures stays { IfOk result (λ s. Stays s self.now) }
    {
        if self.at >= self.end {
            return Ok(Split::Nothing);
        }
        match &self.nodes {
            Nodes::Held(text) => match text.node(self.at) {
                None => Ok(Split::Nothing),
                Some(node) => self.split_at(node, borrowed(node.kind)),
            },
            Nodes::Own(marked) => match marked.as_ref().node(self.at) {
                None => Ok(Split::Nothing),
                Some(node) => self.split_at(node, copied(marked.as_ref().alloc(), node.kind)?),
            },
        }
    }

    /// The tree of the first node, whose text is given where it is one.
    fn split_at(&self, node: NodeView<'_>, text: Piece<'w>) -> Result<Split<'w>, NoMemory>
        requires some { self.now.at < self.now.end }
        requires first { slice_get (nodes_in self.now.nodes) self.now.at ≡ Some (node_seen node) }
        requires text { bytes_of text ≡ text_in (kind_seen node.kind) }
        ensures splits { IfOk result (λ s. Splits s (trees_in self.now)) }
        ensures falls { IfOk result (λ s. Falls s (size self.now)) }
        ensures stays { IfOk result (λ s. Stays s self.now) }
    {
        let end = self.end;
        let cut = clamped(node.end, self.at + 1, end);
        let inside = self.part(self.at + 1, cut)?;
        let rest = self.part(cut, end)?;
        match node.kind {
            KindView::Text(_) => Ok(Split::Text(text, rest)),
            KindView::Equals => Ok(Split::Equals(rest)),
            KindView::Construct => Ok(Split::Construct(inside, rest)),
            KindView::Parameter => Ok(Split::Parameter(inside, rest)),
            KindView::Part => Ok(Split::Part(inside, rest)),
        }
    }

    /// What stands in the first of some parts, and the parts behind it.
    pub fn take_part(&self) -> Result<Option<(Forest<'w>, Forest<'w>)>, NoMemory>
        ensures parts { IfOk result (λ taken. MatchOption taken (parts self.now ≡ []) (λ p. parts self.now ≡ trees_in p.0 ∷ parts p.1)) }
        ensures falls { IfOk result (λ taken. IfSome taken (λ p. size p.0 + size p.1 < size self.now)) }
        ensures stays { IfOk result (λ taken. IfSome taken (λ p. Amid p.0 self.now × Behind p.1 self.now)) }
    {
        match self.split()? {
            Split::Construct(inside, rest) => Ok(Some((inside, rest))),
            Split::Parameter(inside, rest) => Ok(Some((inside, rest))),
            Split::Part(inside, rest) => Ok(Some((inside, rest))),
            Split::Nothing => Ok(None),
            Split::Text(_, _) => Ok(None),
            Split::Equals(_) => Ok(None),
        }
    }

    /// No trees.
    pub fn none(&self) -> Result<Forest<'w>, NoMemory>
        ensures trees { IfOk result (λ f. trees_in f ≡ done) }
        ensures size { IfOk result (λ f. size f ≡ 0) }
        ensures stays { IfOk result (λ f. Behind f self.now) }
    {
        let none = self.part(self.end, self.end)?;
        Ok(none)
    }

    /// What stands in the first of some parts, and the parts behind it; nothing where there is no part.
    pub fn head(&self) -> Result<(Forest<'w>, Forest<'w>), NoMemory>
        ensures first { IfOk result (λ p. trees_in p.0 ≡ first_in (parts self.now)) }
        ensures others { IfOk result (λ p. parts p.1 ≡ others_in (parts self.now)) }
        ensures size { IfOk result (λ p. size p.0 + size p.1 ≤ size self.now) }
        ensures stays { IfOk result (λ p. Amid p.0 self.now × Behind p.1 self.now) }
    {
        match self.take_part()? {
            Some((first, others)) => Ok((first, others)),
            None => {
                let first = self.none()?;
                let others = self.none()?;
                Ok((first, others))
            }
        }
    }

    /// These parts, or those behind the first.
    pub fn either(&self, all: bool) -> Result<Forest<'w>, NoMemory>
        ensures parts { IfOk result (λ f. parts f ≡ cond all (parts self.now) (others_in (parts self.now))) }
        ensures size { IfOk result (λ f. size f ≤ size self.now) }
    {
        if all {
            let same = self.copy()?;
            return Ok(same);
        }
        let (_, others) = self.head()?;
        Ok(others)
    }

    /// What stands in the first part, if there is one.
    pub fn first_part(&self) -> Result<Option<Forest<'w>>, NoMemory>
        ensures part { IfOk result (λ part. option_trees part ≡ part_in (parts self.now)) }
        ensures size { IfOk result (λ part. option_size part ≤ size self.now) }
    {
        match self.take_part()? {
            Some((part, _)) => Ok(Some(part)),
            None => Ok(None),
        }
    }

    /// Whether no part is there.
    pub fn is_over(&self) -> Result<bool, NoMemory>
        ensures { IfOk result (λ over. over ≡ no_part (parts self.now)) }
    {
        match self.take_part()? {
            Some(_) => Ok(false),
            None => Ok(true),
        }
    }

    /// The same trees.
    pub fn copy(&self) -> Result<Forest<'w>, NoMemory>
        ensures trees { IfOk result (λ f. trees_in f ≡ trees_in self.now) }
        ensures size { IfOk result (λ f. size f ≡ size self.now) }
        ensures stays { IfOk result (λ f. Behind f self.now) }
    {
        let copy = self.part(self.at, self.end)?;
        Ok(copy)
    }

    /// The first `=` found, or the trees to go on with.
    fn past_first(&self) -> Result<Past<'w>, NoMemory>
        ensures value { IfOk result (λ past. GoesPast past (trees_in self.now)) }
        ensures size { IfOk result (λ past. PastFalls past (size self.now)) }
        ensures stays { IfOk result (λ past. PastAmid past self.now) }
    {
        match self.split()? {
            Split::Nothing => Ok(Past::Nothing),
            Split::Equals(value) => Ok(Past::Equals(value)),
            Split::Text(_, next) => Ok(Past::Next(next)),
            Split::Construct(_, next) => Ok(Past::Next(next)),
            Split::Parameter(_, next) => Ok(Past::Next(next)),
            Split::Part(_, next) => Ok(Past::Next(next)),
        }
    }

    /// The trees behind the first `=`, if there is one.
    pub fn value(&self) -> Result<Option<Forest<'w>>, NoMemory>
        ensures value { IfOk result (λ value. option_trees value ≡ value_in (trees_in self.now)) }
        ensures size { IfOk result (λ value. option_size value ≤ size self.now) }
        ensures stays { IfOk result (λ value. OptionAmid value self.now) }
    {
        let mut rest = self.copy()?;
        loop {
            match rest.past_first()? {
                Past::Nothing => return Ok(None),
                Past::Equals(value) => return Ok(Some(value)),
                Past::Next(next) => rest = next,
            }
        }
    }
}
