//! Whether what nodes name is there, which `render` requires.
ghost use Rattle.std.specs.Prelude.{◌≡◌, [], ◌∷◌, length, IsTrue, MatchOption};
ghost use Rattle.std.specs.List.{AllByRecursion};
ghost use Rattle.mw_html.specs.Plain.{IsPairOf, IsStyleOf, IsChildOf, IsNodeOf};

use crate::plain::{PlainChild, PlainNode, PlainPair, PlainStyle};

fn is_pair_placed(pair: PlainPair, texts: usize) -> bool
    ensures { IsTrue result → IsPairOf texts pair }
{
    pair.name < texts && pair.value < texts
}

fn is_style_placed(style: PlainStyle, texts: usize) -> bool
    ensures { IsTrue result → IsStyleOf texts style }
{
    match style {
        PlainStyle::Item(pair) => is_pair_placed(pair, texts),
        PlainStyle::Text(at) => at < texts,
    }
}

fn is_child_placed(child: PlainChild, nodes: usize, texts: usize) -> bool
    ensures { IsTrue result → IsChildOf nodes texts child }
{
    match child {
        PlainChild::Text(at) => at < texts,
        PlainChild::Node(at) => at < nodes,
    }
}

fn pairs_placed(pairs: &[PlainPair], texts: usize) -> bool
    ensures { IsTrue result → AllByRecursion (IsPairOf texts) pairs.now }
{
    let mut rest = pairs;
    while let [pair, more @ ..] = rest {
        if !is_pair_placed(*pair, texts) {
            return false;
        }
        rest = more;
    }
    true
}

fn styles_placed(styles: &[PlainStyle], texts: usize) -> bool
    ensures { IsTrue result → AllByRecursion (IsStyleOf texts) styles.now }
{
    let mut rest = styles;
    while let [style, more @ ..] = rest {
        if !is_style_placed(*style, texts) {
            return false;
        }
        rest = more;
    }
    true
}

fn children_placed(children: &[PlainChild], nodes: usize, texts: usize) -> bool
    ensures { IsTrue result → AllByRecursion (IsChildOf nodes texts) children.now }
{
    let mut rest = children;
    while let [child, more @ ..] = rest {
        if !is_child_placed(*child, nodes, texts) {
            return false;
        }
        rest = more;
    }
    true
}

fn is_node_placed(node: &PlainNode, nodes: usize, texts: usize) -> bool
    ensures { IsTrue result → IsNodeOf nodes texts node.now }
{
    if node.name >= texts {
        return false;
    }
    if !pairs_placed(node.attrs.as_slice(), texts) {
        return false;
    }
    if !styles_placed(node.styles.as_slice(), texts) {
        return false;
    }
    children_placed(node.children.as_slice(), nodes, texts)
}

/// Whether all that these nodes name is there, with so many texts.
pub fn are_placed(nodes: &[PlainNode], texts: usize) -> bool
    ensures { IsTrue result → AllByRecursion (IsNodeOf (length nodes.now) texts) nodes.now }
{
    let mut rest = nodes;
    while let [node, more @ ..] = rest {
        if !is_node_placed(node, nodes.len(), texts) {
            return false;
        }
        rest = more;
    }
    true
}
