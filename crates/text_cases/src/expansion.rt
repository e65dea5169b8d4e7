//! What the expansion of a page does with plain texts. A row's text has a name, a tab, and what is tried:
//!
//! - `refused`, and what is: comes to what stands in the page for it; the template is `T`, the module `<`
//! - `trimmed`, and a text: comes to the text without the white space at its ends
//! - `equal`, and two texts with a tab between: comes to whether they are equal to `#ifeq`
//! - `rope`, and three pieces with tabs between: comes to their text without the white space at its ends, whether that is
//!   `#default`, and what is left of 9 bytes behind it
//! - `stack`, and the name of a title: comes to whether a stack has it, how many titles that lists, and whether it gives one
//! - `arguments`, and `NAME=VALUE` with tabs between: comes to the arguments that are held, each with a `;`
//! - `word`, and the one part of a construct: comes to what that gives on the page `Template:T`
//! - `title`, and a text: comes to the name of the title that it is read as
//!
//! There are no escapes in these texts.
use crate::out::Out;
use crate::seed::fixed_seed;
use crate::words::word;
use expand_texts::arguments::Arguments;
use expand_texts::equality::are_equal;
use expand_texts::kind::{Kind, kind_of, title_named};
use expand_texts::rope::{Piece, Rope};
use expand_texts::space::trimmed;
use expand_texts::stack::Stack;
use expand_texts::{Namespace, texts};
use mw_frame::{Arg, Bytes, Title};
use std::alloc::Global;
use wiki_markup::NoMemory;

/// The title of a name, which isn't read.
pub(crate) fn titled(alloc: Global, ns: Namespace, name: &[u8]) -> Result<Title, NoMemory> {
    match Bytes::of(alloc, name) {
        Ok(name) => Ok(Title { ns, name }),
        Err(_) => Err(NoMemory),
    }
}

/// What a row `expansion` comes to.
pub(crate) fn put_of_row(out: &mut Out, text: &str) {
    match word(text, 0) {
        "refused" => put_refused(out, word(text, 1)),
        "trimmed" => put_trimmed(out, word(text, 1).as_bytes()),
        "equal" => put_truth(out, is_equal(word(text, 1), word(text, 2))),
        "rope" => put_rope_of(out, text),
        "stack" => put_stack_of(out, word(text, 1)),
        "arguments" => put_arguments_of(out, text),
        "word" => put_word_of(out, word(text, 1)),
        _ => put_title(out, word(text, 1)),
    }
}

fn put_made(out: &mut Out, made: &Result<Vec<u8>, NoMemory>) {
    match made {
        Ok(text) => out.put(text.as_slice()),
        Err(_) => out.lack(),
    }
}

fn put_truth(out: &mut Out, holds: bool) {
    if holds {
        out.put(b"true");
    } else {
        out.put(b"false");
    }
}

fn put_refused(out: &mut Out, text: &str) {
    match titled(out.alloc, Namespace::Template, b"T") {
        Ok(title) => put_refusal(out, &title, text),
        Err(_) => out.lack(),
    }
}

fn put_refusal(out: &mut Out, title: &Title, text: &str) {
    put_made(out, &refusal(out.alloc, title, text));
}

fn refusal(alloc: Global, title: &Title, text: &str) -> Result<Vec<u8>, NoMemory> {
    match text {
        "loop" => texts::loop_text(alloc, title),
        "missing" => texts::missing_text(alloc, title),
        "no function" => texts::no_function_text(alloc),
        "no module" => texts::no_module_text(alloc, b"<"),
        _ => texts::copied(alloc, limit_text(text)),
    }
}

fn limit_text(text: &str) -> &'static [u8] {
    match text {
        "nodes" => texts::node_text(),
        "bytes" => texts::size_text(),
        _ => texts::depth_text(),
    }
}

fn put_trimmed(out: &mut Out, text: &[u8]) {
    put_made(out, &trimmed(out.alloc, text));
}

fn is_equal(left: &str, right: &str) -> bool {
    are_equal(left.as_bytes(), right.as_bytes())
}

/// A piece that is pushed, one that is appended as a rope of its own, and one that was made.
fn put_rope_of(out: &mut Out, text: &str) {
    let mut rope = Rope::new(out.alloc);
    push_piece(out, &mut rope, Piece::Borrowed(word(text, 1).as_bytes()));
    append_copy(out, &mut rope, word(text, 2));
    push_made(out, &mut rope, word(text, 3));
    put_trimmed_rope(out, rope);
}

fn push_piece<'w>(out: &mut Out, rope: &mut Rope<'w>, piece: Piece<'w>) {
    if rope.push(piece).is_err() {
        out.lack();
    }
}

fn append_copy<'w>(out: &mut Out, rope: &mut Rope<'w>, text: &'w str) {
    match Piece::Borrowed(text.as_bytes()).copy(out.alloc) {
        Ok(piece) => append_piece(out, rope, piece),
        Err(_) => out.lack(),
    }
}

fn append_piece<'w>(out: &mut Out, rope: &mut Rope<'w>, piece: Piece<'w>) {
    match Rope::of(out.alloc, piece) {
        Ok(other) => append_rope(out, rope, other),
        Err(_) => out.lack(),
    }
}

fn append_rope<'w>(out: &mut Out, rope: &mut Rope<'w>, other: Rope<'w>) {
    if rope.append(other).is_err() {
        out.lack();
    }
}

fn push_made(out: &mut Out, rope: &mut Rope<'_>, text: &str) {
    match texts::copied(out.alloc, text.as_bytes()) {
        Ok(made) => push_piece(out, rope, Piece::Owned(made)),
        Err(_) => out.lack(),
    }
}

fn put_trimmed_rope(out: &mut Out, rope: Rope<'_>) {
    match rope.trimmed(out.alloc) {
        Ok(rope) => put_rope(out, rope),
        Err(_) => out.lack(),
    }
}

fn put_rope(out: &mut Out, rope: Rope<'_>) {
    let is_default = rope.is(b"#default");
    let left = rope.left_of(9).unwrap_or(0);
    put_made(out, &rope.into_vec(out.alloc));
    out.put(b", ");
    put_truth(out, is_default);
    out.put(b", ");
    out.put_sum(left);
}

fn put_stack_of(out: &mut Out, text: &str) {
    match titled(out.alloc, Namespace::Template, text.as_bytes()) {
        Ok(title) => put_stack_with(out, &title),
        Err(_) => out.lack(),
    }
}

fn put_stack_with(out: &mut Out, title: &Title) {
    let mut stack = Stack::new(out.alloc);
    push(out, &mut stack, title);
    put_truth(out, stack.contains(title));
    put_listed(out, &stack);
    put_taken(out, &mut Stack::of_vec(stack.into_vec()));
}

fn push(out: &mut Out, stack: &mut Stack<Title>, title: &Title) {
    match title.copy() {
        Ok(copy) => put_on(out, stack, copy),
        Err(_) => out.lack(),
    }
}

fn put_on(out: &mut Out, stack: &mut Stack<Title>, title: Title) {
    if stack.push(title).is_err() {
        out.lack();
    }
}

fn put_listed(out: &mut Out, stack: &Stack<Title>) {
    out.put(b", ");
    match stack.list(out.alloc) {
        Ok(titles) => out.put_count(titles.as_slice().len()),
        Err(_) => out.lack(),
    }
}

fn put_taken(out: &mut Out, stack: &mut Stack<Title>) {
    out.put(b", ");
    put_truth(out, stack.pop().is_some());
}

fn put_arguments_of(out: &mut Out, text: &str) {
    match fixed_seed() {
        Ok(seed) => put_arguments(out, &mut Arguments::new(out.alloc, seed), text),
        Err(_) => out.lack(),
    }
}

fn put_arguments(out: &mut Out, args: &mut Arguments, text: &str) {
    for pair in text.split('\t').skip(1) {
        if hold(out.alloc, args, pair).is_err() {
            out.lack();
        }
    }
    match args.list(out.alloc) {
        Ok(list) => put_list(out, list.as_slice()),
        Err(_) => out.lack(),
    }
}

fn hold(alloc: Global, args: &mut Arguments, pair: &str) -> Result<(), NoMemory> {
    let (name, value) = pair.split_once('=').unwrap_or((pair, ""));
    let name = Bytes::of(alloc, name.as_bytes())?;
    args.put(name, Bytes::of(alloc, value.as_bytes())?)
}

fn put_list(out: &mut Out, args: &[Arg]) {
    for arg in args {
        out.put(arg.name.as_slice());
        out.put(b"=");
        out.put(arg.value.as_slice());
        out.put(b";");
    }
}

fn put_word_of(out: &mut Out, text: &str) {
    match titled(out.alloc, Namespace::Template, b"T") {
        Ok(page) => put_word(out, &page, text.as_bytes()),
        Err(_) => out.lack(),
    }
}

fn put_word(out: &mut Out, page: &Title, text: &[u8]) {
    match &kind_of(out.alloc, true, page, text) {
        Ok(Kind::Word(word)) => out.put(word.as_slice()),
        Ok(_) => out.put(b"no word"),
        Err(_) => out.lack(),
    }
}

fn put_title(out: &mut Out, text: &str) {
    match &title_named(out.alloc, text.as_bytes(), Namespace::Template) {
        Ok(Some(title)) => out.put(title.name.as_slice()),
        Ok(None) => out.put(b"no title"),
        Err(_) => out.lack(),
    }
}
