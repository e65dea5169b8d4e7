//! Counts the variables of resolved code. Blocks nest no deeper than the grammar lets them.
use lua_code::{Branch, Proto, Protos, Statement};

/// Local variables with a cell, those in plain registers, and functions beside the text.
#[derive(Clone, Copy, Debug, PartialEq, Eq)]
pub struct Counts {
    pub boxed: usize,
    pub plain: usize,
    pub functions: usize,
}

fn more(count: usize) -> usize {
    count.saturating_add(1)
}

fn flag(boxed: bool, counts: &mut Counts) {
    if boxed {
        counts.boxed = more(counts.boxed);
    } else {
        counts.plain = more(counts.plain);
    }
}

fn flags(list: &[bool], counts: &mut Counts) {
    for boxed in list {
        flag(*boxed, counts);
    }
}

#[cycle(counts)]
fn block(list: &[Statement], counts: &mut Counts) {
    for s in list {
        statement(s, counts);
    }
}

#[cycle(counts)]
fn branches(list: &[Branch], counts: &mut Counts) {
    for b in list {
        block(b.body.as_slice(), counts);
    }
}

#[cycle(counts)]
fn statement(s: &Statement, counts: &mut Counts) {
    match s {
        Statement::Do(body) | Statement::While(_, body) | Statement::Repeat(body, _) => {
            block(body.as_slice(), counts)
        }
        Statement::If(list, None) => branches(list.as_slice(), counts),
        Statement::If(list, Some(other)) => {
            branches(list.as_slice(), counts);
            block(other.as_slice(), counts);
        }
        Statement::Count(boxed, _, _, _, body, _) => {
            flag(*boxed, counts);
            block(body.as_slice(), counts);
        }
        Statement::Each(list, _, body, _) => {
            flags(list.as_slice(), counts);
            block(body.as_slice(), counts);
        }
        Statement::Declare(list, _) => flags(list.as_slice(), counts),
        Statement::LocalFunction(boxed, _, _) => flag(*boxed, counts),
        Statement::Assign(_, _) | Statement::Call(_) | Statement::Return(_) | Statement::Break => {}
    }
}

fn proto(p: &Proto, counts: &mut Counts) {
    flags(p.flags.as_slice(), counts);
    block(p.body.as_slice(), counts);
}

/// The counts of a module.
pub fn counts_of(protos: &Protos) -> Counts {
    let functions = protos.functions.as_slice();
    let mut counts = Counts {
        boxed: 0,
        plain: 0,
        functions: functions.len(),
    };
    proto(&protos.text, &mut counts);
    for p in functions {
        proto(p, &mut counts);
    }
    counts
}
