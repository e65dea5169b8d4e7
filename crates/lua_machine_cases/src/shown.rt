//! Titles, texts and questions in words.
use itoa::Buffer;
use lua_code::{List, Title};
use mw_frame::{Arg, Ask, Scene};
use page_run::Which;
use std::alloc::Global;

/// The sixteen digits of hexadecimal numbers.
const DIGITS: [char; 16] = [
    '0', '1', '2', '3', '4', '5', '6', '7', '8', '9', 'a', 'b', 'c', 'd', 'e', 'f',
];

/// A text that grows. Want of memory is told at its end, so that what writes into it has no errors to hand on.
#[derive(Drop)]
pub struct Out {
    pub text: String,
    pub is_lacking: bool,
}

impl Out {
    pub fn new(alloc: Global) -> Out {
        Out {
            text: String::new(alloc),
            is_lacking: false,
        }
    }

    /// Nothing is written.
    pub fn clear(&mut self) {
        self.text.clear();
        self.is_lacking = false;
    }

    /// Tells that memory ran out.
    pub fn lack(&mut self) {
        self.is_lacking = true;
    }

    /// Words as they are.
    pub fn put(&mut self, words: &str) {
        if self.text.push_str(words).is_err() {
            self.is_lacking = true;
        }
    }

    fn put_char(&mut self, letter: char) {
        if self.text.push(letter).is_err() {
            self.is_lacking = true;
        }
    }

    /// A number in decimal.
    pub fn put_number(&mut self, n: u64) {
        let mut buffer = Buffer::new();
        self.put(buffer.format(n));
    }
}

/// A byte that no table would write as it is.
fn put_escaped(out: &mut Out, byte: u8) {
    out.put("\\x");
    out.put_char(DIGITS[usize::from(byte / 16)]);
    out.put_char(DIGITS[usize::from(byte % 16)]);
}

/// A byte, as a table would write it.
fn put_byte(out: &mut Out, byte: u8) {
    match byte {
        b'\n' => out.put("\\n"),
        b'\r' => out.put("\\r"),
        b'\t' => out.put("\\t"),
        b'\\' => out.put("\\\\"),
        b' '..=b'~' => out.put_char(char::from(byte)),
        _ => put_escaped(out, byte),
    }
}

/// Some bytes.
pub fn put_bytes(out: &mut Out, bytes: &[u8]) {
    for byte in bytes {
        put_byte(out, *byte);
    }
}

/// A title.
fn put_title(out: &mut Out, title: &Title) {
    match title.text() {
        Ok(text) => put_bytes(out, text.as_slice()),
        Err(_) => out.lack(),
    }
}

/// An argument, behind a `|`.
fn put_arg(out: &mut Out, arg: &Arg) {
    out.put("|");
    put_bytes(out, arg.name.as_slice());
    out.put("=");
    put_bytes(out, arg.value.as_slice());
}

fn put_args(out: &mut Out, args: &List<Arg>) {
    for arg in args.as_slice() {
        put_arg(out, arg);
    }
}

/// The templates that are being expanded.
fn put_chain(out: &mut Out, chain: &[Title]) {
    for title in chain {
        out.put(" under ");
        put_title(out, title);
    }
}

/// Where a question is asked: a title with arguments, and the templates that are being expanded.
fn put_scene(out: &mut Out, scene: &Scene) {
    out.put(" in ");
    put_title(out, &scene.title);
    put_args(out, &scene.args);
    put_chain(out, scene.chain.as_slice());
}

fn put_template(out: &mut Out, scene: &Scene, title: &Title, args: &List<Arg>) {
    out.put("asks template ");
    put_title(out, title);
    put_args(out, args);
    put_scene(out, scene);
}

fn put_text(out: &mut Out, scene: &Scene, text: &[u8]) {
    out.put("asks preprocess ");
    put_bytes(out, text);
    put_scene(out, scene);
}

fn put_data(out: &mut Out, title: &Title) {
    out.put("asks data ");
    put_title(out, title);
}

/// A question.
pub fn put_question(out: &mut Out, question: &Ask) {
    match question {
        Ask::Template(scene, title, args) => put_template(out, scene, title, args),
        Ask::Preprocess(scene, text) => put_text(out, scene, text.as_slice()),
        Ask::Data(title) => put_data(out, title),
    }
}

/// An allowance that is spent.
pub fn put_spent(out: &mut Out, which: Which) {
    match which {
        Which::Steps => out.put("spends steps"),
        Which::Calls => out.put("spends calls"),
    }
}
