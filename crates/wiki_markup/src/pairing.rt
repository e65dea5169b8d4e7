//! The letters of a shown text, and its pairing.
ghost use Rattle.std.specs.Prelude.{◌≡◌, ◌+◌, ◌≤◌, ◌<◌, ℕ, List, length, drop, get_or, IfOk};
ghost use Rattle.wiki_markup.specs.Items.{mark_of as mark_of_lem, letters_from};
ghost use Rattle.wiki_markup.specs.Order.{Ordered, Rising, kept_head as kept_head_lem, span_apart as span_apart_lem, cut_apart as cut_apart_lem, span_passed as span_passed_lem, cut_passed as cut_passed_lem, letter_of as letter_of_lem};
ghost use Rattle.wiki_markup.specs.Trees.{marked_of};
ghost use Rattle.wiki_markup.specs.Formed.{IsMarked};

use crate::build::mark_letters;
use crate::cells::{Letter, Mark, Pair};
use crate::marked::{Marked, ShownText, Span};
use std::alloc::Global;
use wk_base::NoMemory;

fn mark_of(b: u8) -> Mark
    ensures { result ≡ mark_of_lem b }
{
    if b == b'{' {
        return Mark::Open(Pair::Brace);
    }
    if b == b'}' {
        return Mark::Close(Pair::Brace);
    }
    if b == b'[' {
        return Mark::Open(Pair::Bracket);
    }
    if b == b']' {
        return Mark::Close(Pair::Bracket);
    }
    if b == b'|' {
        return Mark::Bar;
    }
    if b == b'=' {
        return Mark::Equal;
    }
    Mark::Plain
}

fn span_passed(literals: &[Span], k: usize, at: usize) -> bool
    ensures { result ≡ span_passed_lem (drop k literals.now) at }
{
    if k >= literals.len() {
        return false;
    }
    literals[k].end <= at
}

fn cut_passed(cuts: &[usize], c: usize, at: usize) -> bool
    ensures { result ≡ cut_passed_lem (drop c cuts.now) at }
{
    if c >= cuts.len() {
        return false;
    }
    cuts[c] <= at
}

fn kept_head(literals: &[Span], k: usize, at: usize) -> bool
    ensures { result ≡ kept_head_lem (drop k literals.now) at }
{
    if k >= literals.len() {
        return false;
    }
    literals[k].start <= at
}

fn span_apart(literals: &[Span], k: usize, p: usize) -> bool
    ensures { result ≡ span_apart_lem (drop k literals.now) p }
{
    if k >= literals.len() {
        return false;
    }
    literals[k].start == p || literals[k].end == p
}

fn cut_apart(cuts: &[usize], c: usize, p: usize) -> bool
    ensures { result ≡ cut_apart_lem (drop c cuts.now) p }
{
    if c >= cuts.len() {
        return false;
    }
    cuts[c] == p
}

fn letter_of(b: u8, literals: &[Span], k: usize, cuts: &[usize], c: usize, at: usize) -> Letter
    requires { at + 1 < 18446744073709551616 }
    ensures { result ≡ letter_of_lem b (drop k literals.now) (drop c cuts.now) at }
{
    let mark = if kept_head(literals, k, at) {
        Mark::Plain
    } else {
        mark_of(b)
    };
    let cut = cut_apart(cuts, c, at + 1);
    let span = span_apart(literals, k, at + 1);
    Letter {
        byte: b,
        mark,
        joins: !(cut | span),
    }
}

/// Spans and cuts are in order: two cursors go along with the bytes.
fn letters(
    alloc: Global,
    bytes: &[u8],
    literals: &[Span],
    cuts: &[usize],
) -> Result<Vec<Letter>, NoMemory>
    requires spans { Ordered 0 literals.now }
    requires cuts { Rising 0 cuts.now }
    ensures { IfOk result (λ out. out.items ≡ letters_from literals.now cuts.now 0 bytes.now) }
{
    let mut out = Vec::new(alloc);
    let mut k = 0;
    let mut c = 0;
    let mut at = 0;
    while at < bytes.len() {
        if span_passed(literals, k, at) {
            k += 1;
            continue;
        }
        if cut_passed(cuts, c, at) {
            c += 1;
            continue;
        }
        let letter = letter_of(bytes[at], literals, k, cuts, c, at);
        match out.push(letter) {
            Ok(_) => {}
            Err(_) => return Err(NoMemory),
        }
        at += 1;
    }
    Ok(out)
}

/// The pairing of a shown text: its braces and brackets paired, each node's parts and their `=`, as nodes in preorder.
///
/// Any text that `shown` gives can be passed, and any other whose spans and cuts are in order. Only want of memory is an
/// error. It takes time in proportion to the text, and its stack doesn't grow with what the text nests. The pairing follows
/// MediaWiki's manual, "Preprocessor ABNF", "Ideal precedence"; docs/RULES.md says where this profile chooses.
pub fn markup(alloc: Global, text: &ShownText) -> Result<Marked, NoMemory>
    requires spans { Ordered 0 text.now.literals }
    requires cuts { Rising 0 text.now.cuts }
    // The nodes are the preorder of what is left where the leftmost closing run is rewritten until there is none.
    ensures paired { IfOk result (λ m. m.nodes ≡ marked_of text.now) }
    // Parts stand in constructs and parameters, and nothing else does; an `=` stands in a later part, once.
    ensures formed { IfOk result (λ m. IsMarked m.nodes) }
    ensures few { IfOk result (λ m. length m.nodes ≤ length text.now.bytes) }
{
    let letters = letters(
        alloc,
        text.bytes.as_slice(),
        text.literals.as_slice(),
        text.cuts.as_slice(),
    )?;
    let marked = mark_letters(alloc, letters.as_slice())?;
    Ok(marked)
}
