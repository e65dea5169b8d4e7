//! Objects of `mw.html` (Scribunto, HTML library).
use crate::ids::{MarkupId, TextId};
use wk_base::List;

/// A name and its value.
#[derive(Clone, Copy, Debug, PartialEq, Eq)]
pub struct TextPair {
    pub name: TextId,
    pub value: TextId,
}

/// A style of an object.
#[derive(Clone, Copy, Debug, PartialEq, Eq)]
pub enum MarkupStyle {
    /// One property with its value (`css`).
    Item(TextPair),
    /// A text of styles as it is (`cssText`).
    Text(TextId),
}

/// A child of an object.
#[derive(Clone, Copy, Debug, PartialEq, Eq)]
pub enum MarkupChild {
    Text(TextId),
    Node(MarkupId),
}

/// An object: a tag with what is in it, or without a tag what is in it alone.
#[derive(Drop)]
pub struct MarkupNode {
    /// The name of the tag, or the empty text where there is none.
    pub name: TextId,
    /// Whether the tag closes itself.
    pub closed: bool,
    /// The object whose `tag` made this one.
    pub parent: Option<MarkupId>,
    pub attrs: List<TextPair>,
    pub styles: List<MarkupStyle>,
    pub children: List<MarkupChild>,
}
