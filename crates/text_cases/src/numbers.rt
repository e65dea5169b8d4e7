//! Rows of `lua_number`. A number is written by its digits, what is none as `none`, and a fault as RANGE (no number of 64 bits),
//! WHOLE (no whole number) or ZERO (a division by 0).
//!
//! - `operations`: of two numbers the sum, the difference, the product, the quotient, the rest and the power
//! - `negated`: the number with the other sign
//! - `numeral`: the value of a numeral; `number`: that of a text of a number; `based`: that of a text in a base, whose two digits stand before it
//! - `digits`: the digits of a number, and the number that they are read as
use crate::out::Out;
use lua_number::{
    NumberFault, add, div, mul, neg, pow, read_in_base, read_number, read_numeral, rem, sub, text,
};

fn fault_name(fault: NumberFault) -> &'static [u8] {
    match fault {
        NumberFault::OutOfRange => b"RANGE",
        NumberFault::NotWhole => b"WHOLE",
        NumberFault::ByZero => b"ZERO",
    }
}

fn put_result(out: &mut Out, answer: Result<i64, NumberFault>) {
    match answer {
        Ok(n) => out.put_number(n),
        Err(fault) => out.put(fault_name(fault)),
    }
}

fn put_next(out: &mut Out, answer: Result<i64, NumberFault>) {
    out.put_gap();
    put_result(out, answer);
}

fn put_option(out: &mut Out, number: Option<i64>) {
    match number {
        Some(n) => out.put_number(n),
        None => out.put(b"none"),
    }
}

fn number(digits: &str) -> i64 {
    digits.parse::<i64>().unwrap_or_default()
}

fn put_all_operations(out: &mut Out, a: i64, b: i64) {
    put_result(out, add(a, b));
    put_next(out, sub(a, b));
    put_next(out, mul(a, b));
    put_next(out, div(a, b));
    put_next(out, rem(a, b));
    put_next(out, pow(a, b));
}

pub(crate) fn put_operations(out: &mut Out, row: &str) {
    let (a, b) = row.split_once(' ').unwrap_or((row, ""));
    put_all_operations(out, number(a), number(b));
}

pub(crate) fn put_negated(out: &mut Out, row: &str) {
    put_result(out, neg(number(row)));
}

pub(crate) fn put_numeral(out: &mut Out, text: &[u8]) {
    put_option(out, read_numeral(text));
}

pub(crate) fn put_read(out: &mut Out, text: &[u8]) {
    put_option(out, read_number(text));
}

fn digit(byte: u8) -> u32 {
    u32::from(byte.wrapping_sub(b'0'))
}

fn put_in_base(out: &mut Out, base: u32, text: &[u8]) {
    if base >= 2 && base <= 36 {
        put_option(out, read_in_base(text, base));
    }
}

pub(crate) fn put_based(out: &mut Out, text: &[u8]) {
    if let [tens, ones, b' ', text @ ..] = text {
        let base = digit(*tens).wrapping_mul(10).wrapping_add(digit(*ones));
        put_in_base(out, base, text);
    }
}

pub(crate) fn put_digits(out: &mut Out, row: &str) {
    match text(out.alloc, number(row)) {
        Ok(digits) => put_digits_and_number(out, &digits),
        Err(_) => out.lack(),
    }
}

fn put_digits_and_number(out: &mut Out, digits: &[u8]) {
    out.put(digits);
    out.put_gap();
    put_option(out, read_number(digits));
}
