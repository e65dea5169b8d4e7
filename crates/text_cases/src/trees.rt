//! Rows of `lua_parser`, and of the walks of `lua_syntax` over a tree. A fault is written as `fault K line L`, its kind as in `lua_syntax`.
//!
//! - `tree`: the tree of a text, as an S-expression in which each node has its line, `(assign@1 ((name@1 x)) ((number@1 1)))`; or
//!   its fault
//! - `chunk`: `chunk` where the text is one, or its fault
//! - `repeated`: the same of `before|part|between|behind|after|count`, where `part` and `behind` stand so many times
//! - `beginnings`: a sum (FNV-1a) over what a `tree` row says of each beginning of a text
//! - `pieces`: such a sum over all texts of up to four of sixteen pieces, with `|` between the pieces
//! - `lines`: the lines of the nodes of a text, in the order of the walk; `functions`: how many parameters each function has
use crate::out::Out;
use crate::written::put_chunk;
use case_text::unescaped;
use lua_parser::parse;
use lua_syntax::{Chunk, FaultAt, Function, SyntaxFault, nested_functions, node_lines};

/// Longer texts have no places in 32 bits, and no row has one.
const LONGEST: usize = 4000000000;

fn put_fault(out: &mut Out, fault: FaultAt) {
    out.put(b"fault ");
    out.put_line(u32::from(fault.kind));
    out.put(b" line ");
    out.put_line(fault.line);
}

fn put_syntax_fault(out: &mut Out, fault: SyntaxFault) {
    match fault {
        SyntaxFault::At(fault) => put_fault(out, fault),
        SyntaxFault::NoMemory => out.lack(),
    }
}

fn put_line_numbers(out: &mut Out, lines: &[u32]) {
    for line in lines {
        out.put_gap();
        out.put_line(*line);
    }
}

fn put_lines(out: &mut Out, chunk: &Chunk) {
    match node_lines(out.alloc, chunk) {
        Ok(lines) => put_line_numbers(out, lines.as_slice()),
        Err(_) => out.lack(),
    }
}

fn put_counts(out: &mut Out, functions: &[&Function]) {
    for function in functions {
        out.put_gap();
        out.put_count(function.params.as_slice().len());
    }
}

fn put_functions(out: &mut Out, chunk: &Chunk) {
    match nested_functions(out.alloc, chunk) {
        Ok(functions) => put_counts(out, functions.as_slice()),
        Err(_) => out.lack(),
    }
}

/// What is asked of a text's tree.
#[derive(Clone, Copy)]
pub(crate) enum Asked {
    Tree,
    WhetherChunk,
    Lines,
    Functions,
}

fn put_asked(out: &mut Out, asked: Asked, chunk: &Chunk) {
    match asked {
        Asked::Tree => put_chunk(out, chunk),
        Asked::WhetherChunk => out.put(b"chunk"),
        Asked::Lines => put_lines(out, chunk),
        Asked::Functions => put_functions(out, chunk),
    }
}

pub(crate) fn put_parsed(out: &mut Out, asked: Asked, text: &[u8]) {
    if text.len() < LONGEST {
        match parse(out.alloc, text) {
            Ok(chunk) => put_asked(out, asked, &chunk),
            Err(fault) => put_syntax_fault(out, fault),
        }
    }
}

/// The number that digits spell.
fn count_of(digits: &str) -> usize {
    digits.parse::<usize>().unwrap_or_default()
}

fn put_unescaped(out: &mut Out, part: &str) {
    match unescaped(out.alloc, part.as_bytes()) {
        Ok(bytes) => out.put(&bytes),
        Err(_) => out.lack(),
    }
}

fn put_times(out: &mut Out, part: &str, count: usize) {
    for _ in 0..count {
        put_unescaped(out, part);
    }
}

/// Puts the text up to the next `|`, so many times, and gives what stands behind.
fn put_part<'t>(out: &mut Out, row: &'t str, count: usize) -> &'t str {
    let (part, rest) = row.split_once('|').unwrap_or((row, ""));
    put_times(out, part, count);
    rest
}

pub(crate) fn put_repeated(out: &mut Out, row: &str) {
    let (parts, count) = row.rsplit_once('|').unwrap_or((row, ""));
    let count = count_of(count);
    let mut text = Out::new(out.alloc);
    let rest = put_part(&mut text, parts, 1);
    let rest = put_part(&mut text, rest, count);
    let rest = put_part(&mut text, rest, 1);
    let rest = put_part(&mut text, rest, count);
    put_part(&mut text, rest, 1);
    put_parsed(out, Asked::WhetherChunk, &text.text);
}

/// FNV-1a over a number.
fn mixed(sum: u64, number: u64) -> u64 {
    (sum ^ number).wrapping_mul(1099511628211)
}

/// The sum with the bytes of an answer, and its end.
fn mixed_answer(out: &mut Out, sum: u64, text: &[u8]) -> u64 {
    out.text.clear();
    put_parsed(out, Asked::Tree, text);
    let mut sum = sum;
    for b in &out.text {
        sum = mixed(sum, u64::from(*b));
    }
    mixed(sum, 256)
}

fn put_sum(out: &mut Out, sum: u64) {
    out.text.clear();
    out.put_sum(sum);
}

pub(crate) fn put_beginnings(out: &mut Out, text: &[u8]) {
    let mut sum = 14695981039346656037u64;
    for end in 0..text.len() {
        sum = mixed_answer(out, sum, text.get(..end).unwrap_or_default());
    }
    sum = mixed_answer(out, sum, text);
    put_sum(out, sum);
}

/// Puts the text that a number spells by its digits, the lowest first.
fn put_spelled(out: &mut Out, pieces: &str, count: usize, number: usize) {
    let mut rest = number;
    for _ in 0..count {
        put_unescaped(out, pieces.split('|').nth(rest % 16).unwrap_or(""));
        rest /= 16;
    }
}

fn mixed_spelled(out: &mut Out, sum: u64, pieces: &str, count: usize, number: usize) -> u64 {
    let mut text = Out::new(out.alloc);
    put_spelled(&mut text, pieces, count, number);
    mixed_answer(out, sum, &text.text)
}

pub(crate) fn put_pieces(out: &mut Out, pieces: &str) {
    let mut sum = 14695981039346656037u64;
    let mut texts = 1usize;
    for count in 0..5 {
        for number in 0..texts {
            sum = mixed_spelled(out, sum, pieces, count, number);
        }
        texts = texts.wrapping_mul(16);
    }
    put_sum(out, sum);
}
