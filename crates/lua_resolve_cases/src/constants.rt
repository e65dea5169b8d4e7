//! Numbers of texts and names in resolved code.
use lua_code::{Expression, Protos, Statement};

/// The number of a text or of a global variable.
fn number_of(code: &Expression) -> Option<u32> {
    match code {
        Expression::Text(number) | Expression::Global(number, _) => Some(*number),
        _ => None,
    }
}

fn have_numbers(list: &[Expression], numbers: &[u32]) -> bool {
    if list.len() != numbers.len() {
        return false;
    }
    for at in 0..list.len() {
        if number_of(&list[at]) != Some(numbers[at]) {
            return false;
        }
    }
    true
}

/// Whether the text of a module ends in a `return` of texts and global variables that have these numbers.
pub fn returns(protos: &Protos, numbers: &[u32]) -> bool {
    match protos.text.body.as_slice().last() {
        Some(Statement::Return(list)) => have_numbers(list.as_slice(), numbers),
        _ => false,
    }
}

/// Whether a module has these constants, in this order.
pub fn has_constants(protos: &Protos, constants: &[&str]) -> bool {
    let held = protos.constants.as_slice();
    if held.len() != constants.len() {
        return false;
    }
    for at in 0..held.len() {
        if held[at].as_slice() != constants[at].as_bytes() {
            return false;
        }
    }
    true
}
