//! What is shown of a text in both modes, and the trees of its braces and brackets.
//!
//! A row's text has a name, a tab, and what is tried:
//!
//! - `D` or `T` for the mode (Direct, Transcluded), and a text: comes to its trees, with texts in quotes, constructs as
//!   `C(part;part;)`, parameters as `P(part;part;)`, and the `=` that splits as `~`
//! - `pairings`, and a number and pieces with tabs between: comes to a sum over the trees of all texts of up to so many
//!   pieces, in which nothing is a comment or a tag
//! - `shown`, and the same: comes to a sum over what is shown of these texts in both modes
//! - `counts`, and a text: comes to how many bytes are shown of it in Direct mode, and how many nodes they have
//! - `length`, and a text: comes to how many bytes it has; `bench/markup.py` takes off what such a row takes
//!
//! Escapes are read in each text and piece by itself, so a tab in one is written `\t`. A sum is that of FNV-1a over bytes and
//! places, with 256 behind each list of them.
ghost use Rattle.std.specs.Prelude.{◌<◌, length};
ghost use Rattle.wiki_markup.specs.Order.{Ordered, Rising};

use crate::out::Out;
use crate::words::word;
use case_text::unescaped;
use mw_frame::{Bytes, List};
use std::alloc::Global;
use wiki_markup::{KindView, Marked, Mode, NoMemory, NodeView, ShownText, Span, markup, shown};

/// A node that is open: where it ends, and what is written there.
#[derive(Clone, Copy)]
struct Open {
    end: usize,
    mark: u8,
}

/// What a sum is taken of.
#[derive(Clone, Copy)]
enum Summed {
    Trees,
    Shown,
}

/// What a row `markup` comes to.
pub(crate) fn put_of_row(out: &mut Out, text: &str) {
    match word(text, 0) {
        "D" => put_trees_of(out, Mode::Direct, word(text, 1)),
        "T" => put_trees_of(out, Mode::Transcluded, word(text, 1)),
        "pairings" => put_sum_of(out, Summed::Trees, text),
        "shown" => put_sum_of(out, Summed::Shown, text),
        "counts" => put_counts_of(out, word(text, 1)),
        _ => put_length(out, word(text, 1)),
    }
}

fn put_trees_of(out: &mut Out, mode: Mode, text: &str) {
    match unescaped(out.alloc, text.as_bytes()) {
        Ok(text) => put_trees_in(out, mode, text.as_slice()),
        Err(_) => out.lack(),
    }
}

fn put_trees_in(out: &mut Out, mode: Mode, text: &[u8]) {
    match shown(out.alloc, text, mode) {
        Ok(page) => put_trees(out, &page),
        Err(_) => out.lack(),
    }
}

fn put_trees(out: &mut Out, page: &ShownText)
    requires spans { Ordered 0 page.now.literals }
    requires cuts { Rising 0 page.now.cuts }
{
    match markup(out.alloc, page) {
        Ok(marked) => put_nodes(out, &marked),
        Err(_) => out.lack(),
    }
}

fn put_nodes(out: &mut Out, marked: &Marked) {
    let mut open = Vec::new(out.alloc);
    for place in 0..marked.len() {
        put_node(out, &mut open, marked, place);
    }
    close_up_to(out, &mut open, marked.len());
}

/// The ends of the nodes before a place, and the beginning of the node there.
fn put_node(out: &mut Out, open: &mut Vec<Open>, marked: &Marked, place: usize) {
    close_up_to(out, open, place);
    match marked.node(place) {
        Some(node) => put_begin(out, open, node),
        None => {}
    }
}

/// Writes the ends of the nodes that end at a place, the innermost first.
fn close_up_to(out: &mut Out, open: &mut Vec<Open>, place: usize) {
    for _ in 0..open.len() {
        match open.last().copied() {
            Some(node) if node.end <= place => out.put(&[node.mark]),
            _ => return,
        }
        let _ = open.pop();
    }
}

fn put_begin(out: &mut Out, open: &mut Vec<Open>, node: NodeView<'_>) {
    match node.kind {
        KindView::Text(bytes) => put_quoted(out, bytes),
        KindView::Equals => out.put(b"~"),
        KindView::Part => open_node(out, open, node.end, b';'),
        KindView::Construct => put_branch(out, open, b"C(", node.end),
        KindView::Parameter => put_branch(out, open, b"P(", node.end),
    }
}

fn put_quoted(out: &mut Out, bytes: &[u8]) {
    out.put(b"'");
    out.put(bytes);
    out.put(b"'");
}

fn put_branch(out: &mut Out, open: &mut Vec<Open>, mark: &[u8], end: usize) {
    out.put(mark);
    open_node(out, open, end, b')');
}

fn open_node(out: &mut Out, open: &mut Vec<Open>, end: usize, mark: u8) {
    if open.push(Open { end, mark }).is_err() {
        out.lack();
    }
}

fn put_counts_of(out: &mut Out, text: &str) {
    match unescaped(out.alloc, text.as_bytes()) {
        Ok(text) => put_counts_shown(out, text.as_slice()),
        Err(_) => out.lack(),
    }
}

fn put_counts_shown(out: &mut Out, text: &[u8]) {
    match shown(out.alloc, text, Mode::Direct) {
        Ok(page) => put_counts(out, &page),
        Err(_) => out.lack(),
    }
}

fn put_counts(out: &mut Out, page: &ShownText)
    requires spans { Ordered 0 page.now.literals }
    requires cuts { Rising 0 page.now.cuts }
{
    out.put_count(page.bytes.as_slice().len());
    out.put(b" bytes shown, ");
    match markup(out.alloc, page) {
        Ok(marked) => out.put_count(marked.len()),
        Err(_) => out.lack(),
    }
    out.put(b" nodes");
}

fn put_length(out: &mut Out, text: &str) {
    match unescaped(out.alloc, text.as_bytes()) {
        Ok(text) => out.put_count(text.len()),
        Err(_) => out.lack(),
    }
}

fn put_sum_of(out: &mut Out, summed: Summed, text: &str) {
    match pieces(out.alloc, text) {
        Ok(pieces) => put_sum(out, summed, pieces.as_slice(), word(text, 1)),
        Err(_) => out.lack(),
    }
}

/// The parts behind the name and the number.
fn pieces(alloc: Global, text: &str) -> Result<List<Vec<u8>>, NoMemory> {
    let mut pieces = List::new(alloc);
    for piece in text.split('\t').skip(2) {
        pieces.push(unescaped(alloc, piece.as_bytes())?)?;
    }
    Ok(pieces)
}

fn put_sum(out: &mut Out, summed: Summed, pieces: &[Vec<u8>], most: &str) {
    if pieces.is_empty() {
        return;
    }
    let sum = sum_up_to(out, summed, pieces, most.parse().unwrap_or(0));
    out.put_sum(sum);
}

fn sum_up_to(out: &mut Out, summed: Summed, pieces: &[Vec<u8>], most: usize) -> u64
    requires { 0 < length pieces.now }
{
    let mut sum = 14695981039346656037u64;
    let mut texts = 1usize;
    for count in 0..most.saturating_add(1) {
        sum = mixed_texts(out, summed, sum, pieces, count, texts);
        texts = texts.wrapping_mul(pieces.len());
    }
    sum
}

/// The sum goes on over the texts of so many pieces; there are `texts` of them.
fn mixed_texts(
    out: &mut Out,
    summed: Summed,
    sum: u64,
    pieces: &[Vec<u8>],
    count: usize,
    texts: usize,
) -> u64
    requires { 0 < length pieces.now }
{
    let mut sum = sum;
    for number in 0..texts {
        let text = spelled(out, pieces, count, number);
        sum = mixed_text(out, summed, sum, text);
    }
    sum
}

/// The text that a number spells by its digits, the lowest first.
fn spelled(out: &mut Out, pieces: &[Vec<u8>], count: usize, number: usize) -> Vec<u8>
    requires { 0 < length pieces.now }
{
    let mut text = Vec::new(out.alloc);
    let mut rest = number;
    for _ in 0..count {
        if text
            .extend_from_slice(pieces[rest % pieces.len()].as_slice())
            .is_err()
        {
            out.lack();
        }
        rest /= pieces.len();
    }
    text
}

fn mixed_text(out: &mut Out, summed: Summed, sum: u64, text: Vec<u8>) -> u64 {
    match summed {
        Summed::Trees => mixed_trees(out, sum, text),
        Summed::Shown => mixed_modes(out, sum, text.as_slice()),
    }
}

/// The text as it stands: nothing of it is kept as written, and nothing was removed.
fn mixed_trees(out: &mut Out, sum: u64, text: Vec<u8>) -> u64 {
    let page = ShownText {
        bytes: Bytes::of_vec(text),
        literals: List::new(out.alloc),
        cuts: List::new(out.alloc),
    };
    let mut trees = Out::new(out.alloc);
    put_trees(&mut trees, &page);
    match trees.given() {
        Ok(trees) => mixed_bytes(sum, trees.as_slice()),
        Err(_) => lacking(out),
    }
}

/// No sum, for want of memory.
fn lacking(out: &mut Out) -> u64 {
    out.lack();
    0
}

fn mixed_modes(out: &mut Out, sum: u64, text: &[u8]) -> u64 {
    let sum = mixed_shown(out, sum, text, Mode::Direct);
    mixed_shown(out, sum, text, Mode::Transcluded)
}

fn mixed_shown(out: &mut Out, sum: u64, text: &[u8], mode: Mode) -> u64 {
    match shown(out.alloc, text, mode) {
        Ok(page) => mixed_page(sum, &page),
        Err(_) => lacking(out),
    }
}

fn mixed_page(sum: u64, page: &ShownText) -> u64 {
    let sum = mixed_bytes(sum, page.bytes.as_slice());
    let sum = mixed_spans(sum, page.literals.as_slice());
    mixed_places(sum, page.cuts.as_slice())
}

fn mixed_bytes(sum: u64, bytes: &[u8]) -> u64 {
    let mut sum = sum;
    for byte in bytes {
        sum = mixed(sum, u64::from(*byte));
    }
    mixed(sum, 256)
}

fn mixed_spans(sum: u64, spans: &[Span]) -> u64 {
    let mut sum = sum;
    for span in spans {
        sum = mixed(mixed(sum, span.start as u64), span.end as u64);
    }
    mixed(sum, 256)
}

fn mixed_places(sum: u64, places: &[usize]) -> u64 {
    let mut sum = sum;
    for place in places {
        sum = mixed(sum, *place as u64);
    }
    mixed(sum, 256)
}

/// A step of FNV-1a, over a number or the end of some.
fn mixed(sum: u64, number: u64) -> u64 {
    (sum ^ number).wrapping_mul(1099511628211)
}
