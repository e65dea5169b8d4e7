//! Each public call once, with ample memory.
use crate::rows::{holds, sides, words};
use std::alloc::Global;
use std::test::Fail;
use wk_base::space::{is_white, trim, trim_end, trim_start};
use wk_base::{Bytes, Left, Limits, List, Namespace, NoMemory, Title};

/// Whether bytes are these, and are so still when they were taken out and put back.
fn stay(bytes: Bytes, wanted: &[u8]) -> bool {
    bytes.as_slice() == wanted && Bytes::of_vec(bytes.into_vec()).as_slice() == wanted
}

/// Whether a copy is equal, and has these bytes.
fn copies(text: &Bytes, wanted: &[u8]) -> bool {
    match text.copy() {
        Ok(copy) => *text == copy && stay(copy, wanted),
        Err(_) => false,
    }
}

#[test]
fn bytes_keep_what_they_are_given(rt: HostRuntime) -> Result<(), Fail> {
    let text = Bytes::of(rt.alloc(), b"a\0\xff")?;
    holds(&rt, copies(&text, b"a\0\xff"), "bytes");
    Ok(())
}

fn numbers(alloc: Global, count: u64) -> Result<List<u64>, NoMemory> {
    let mut numbers = List::new(alloc);
    for number in 0..count {
        numbers.push(number)?;
    }
    Ok(numbers)
}

/// Whether numbers are these, and are so still when they were taken out and put back.
fn are(numbers: List<u64>, wanted: &[u64]) -> bool {
    numbers.as_slice() == wanted && List::of_vec(numbers.into_vec()).as_slice() == wanted
}

#[test]
fn lists_keep_what_they_are_given(rt: HostRuntime) -> Result<(), Fail> {
    let numbers = numbers(rt.alloc(), 3)?;
    holds(&rt, are(numbers, &[0, 1, 2]), "numbers");
    Ok(())
}

fn sand_box(alloc: Global, ns: Namespace) -> Result<Title, NoMemory> {
    let name = Bytes::of(alloc, b"Sand box")?;
    Ok(Title { ns, name })
}

/// Whether the copy of a title is the same one.
fn has_copy(title: &Title) -> bool {
    match title.copy() {
        Ok(copy) => *title == copy,
        Err(_) => false,
    }
}

/// Whether that page of another namespace has another title.
fn differs(alloc: Global, title: &Title, ns: Namespace) -> bool {
    match sand_box(alloc, ns) {
        Ok(other) => *title != other,
        Err(_) => false,
    }
}

#[test]
fn titles_are_copied_and_compared(rt: HostRuntime) -> Result<(), Fail> {
    let title = sand_box(rt.alloc(), Namespace::HelpTalk)?;
    holds(&rt, has_copy(&title), "copy");
    holds(&rt, differs(rt.alloc(), &title, Namespace::Help), "help");
    Ok(())
}

/// What is asked of the allowances one after another, by how much, what is answered, and what is then left of that one.
fn calls() -> &'static str {
    "steps 5 => true 0
steps 0 => true 0
steps 1 => false 0
nodes 5 => false 0
bytes 2 => true 1
call 1 => true 1
expansion 1 => true 0
expansion 1 => false 0
template 1 => false 0
leave-call 1 => true 2
leave-expansion 1 => true 1
leave-template 1 => true 1"
}

/// Asks for one. Gives the answer, and what is left.
fn ask(left: &mut Left, name: &str, count: u64) -> (bool, u64) {
    match name {
        "steps" => (left.take_steps(count), left.steps),
        "nodes" => (left.take_nodes(count), left.nodes),
        "bytes" => (left.take_bytes(count), left.bytes),
        "call" => (left.enter_call(), left.calls),
        "expansion" => (left.enter_expansion(), left.depth),
        "template" => (left.enter_template(), left.templates),
        _ => (leave(left, name), left_of(left, name)),
    }
}

/// Gives one back, where no count is near its end.
fn leave(left: &mut Left, name: &str) -> bool {
    if left.calls > 9 || left.depth > 9 || left.templates > 9 {
        return false;
    }
    match name {
        "leave-call" => left.leave_call(),
        "leave-expansion" => left.leave_expansion(),
        "leave-template" => left.leave_template(),
        _ => return false,
    }
    true
}

/// What is left of what was given back.
fn left_of(left: &Left, name: &str) -> u64 {
    match name {
        "leave-call" => left.calls,
        "leave-expansion" => left.depth,
        _ => left.templates,
    }
}

fn number(digits: &str) -> u64 {
    digits.parse::<u64>().unwrap_or(99)
}

/// Whether an answer, and what is left, are those of a row.
fn is_answer(held: bool, rest: u64, answer: &str) -> bool {
    let (word, digits) = words(answer);
    (word == "true") == held && number(digits) == rest
}

/// Whether a call gives what its row says.
fn call_holds(left: &mut Left, row: &str) -> bool {
    let (call, answer) = sides(row);
    let (name, count) = words(call);
    let (held, rest) = ask(left, name, number(count));
    is_answer(held, rest, answer)
}

#[test]
fn allowances_are_taken_entered_and_left(rt: HostRuntime) {
    let limits = Limits {
        steps: 5,
        nodes: 4,
        bytes: 3,
        calls: 2,
        depth: 1,
        templates: 0,
    };
    let mut left = Left::full(&limits);
    for row in calls().lines() {
        holds(&rt, call_holds(&mut left, row), row);
    }
}

/// Whether those six bytes alone are white.
fn six_are_white() -> bool {
    for byte in 0..=255u8 {
        if is_white(byte) != b" \t\n\x0b\x0c\r".contains(&byte) {
            return false;
        }
    }
    true
}

#[test]
fn white_space_has_six_bytes(rt: HostRuntime) {
    holds(&rt, six_are_white(), "six");
}

/// Whether each text has its white space taken off.
fn are_trimmed(rows: &[(&[u8], &[u8])]) -> bool {
    for (text, expected) in rows {
        if trim(text) != *expected {
            return false;
        }
    }
    true
}

#[test]
fn white_space_is_taken_off_both_ends(rt: HostRuntime) {
    let rows: [(&[u8], &[u8]); 5] = [
        (b" \t a b\r\n", b"a b"),
        (b"_a_", b"_a_"),
        (b"\xc2\xa0a", b"\xc2\xa0a"),
        (b" \x0b\x0c ", b""),
        (b"", b""),
    ];
    holds(&rt, are_trimmed(&rows), "both ends");
    holds(&rt, trim_start(b" a ") == b"a ".as_slice(), "start");
    holds(&rt, trim_end(b" a ") == b" a".as_slice(), "end");
}

#[test]
fn only_the_namespace_of_modules_holds_modules(rt: HostRuntime) {
    holds(&rt, Namespace::Module.is_module(), "Module");
    holds(&rt, !Namespace::ModuleTalk.is_module(), "Module talk");
    holds(&rt, !Namespace::Main.is_module(), "the main one");
}
