//! Strings in quotes.
ghost use Rattle.std.specs.Prelude.{◌≡◌, ◌-◌, ◌<◌, ◌≤◌, [], ◌∷◌, ◌++◌, length, IfOk, IfErr, OnOk, true};
ghost use Rattle.lua_lexer.specs.Lexis.{at, is_digit, escape_digits, escape_value, escape_letter, escape_of, string_body};
ghost use Rattle.lua_lexer.specs.Answers.{IsBody, IsEscape};

use crate::brackets::{break_size, push, rest};
use crate::classes::{at, byte, is_break, is_digit};
use crate::token::Stop;
use std::alloc::Global;

/// The bytes for which a string stands, and the size of its text, the closing quote included.
#[derive(Drop)]
pub struct StringBody {
    pub bytes: Vec<u8>,
    pub size: usize,
}

/// The byte for which an escape stands, and the size of its text, the backslash included.
#[derive(Clone, Copy)]
pub struct EscapeByte {
    pub byte: u8,
    pub size: usize,
}

/// The string behind an opening quote.
pub fn string_body(alloc: Global, quote: u16, text: &[u8]) -> Result<StringBody, Stop>
    ensures body { IsBody result (string_body quote text.now) }
    ensures inside { IfOk result (λ b. b.size ≤ length text.now) }
{
    let mut bytes = Vec::new(alloc);
    let mut passed = 0;
    for i in 0..text.len() {
        if passed > 0 {
            passed -= 1;
            continue;
        }
        let c = at(text, i);
        if c == quote {
            return Ok(StringBody { bytes, size: i + 1 });
        }
        if is_break(c) {
            return Err(Stop::Fault(1));
        }
        if c != 92 {
            add(&mut bytes, byte(text, i))?;
            continue;
        }
        match escape(rest(text, i + 1)) {
            Err(stop) => return Err(stop),
            Ok(escape) => {
                add(&mut bytes, escape.byte)?;
                passed = escape.size - 1;
            }
        }
    }
    Err(Stop::Fault(1))
}

fn add(bytes: &mut Vec<u8>, c: u8) -> Result<(), Stop>
    ensures ok { OnOk result (bytes.new.items ≡ bytes.old.items ++ c ∷ []) }
    ensures err { IfErr result (λ e. e ≡ Stop.NoMemory) }
{
    match push(bytes, c) {
        Ok(_) => Ok(()),
        Err(_) => Err(Stop::NoMemory),
    }
}

// The escape behind a backslash.
fn escape(text: &[u8]) -> Result<EscapeByte, Stop>
    ensures { IsEscape result (escape_of text.now) }
{
    let first = at(text, 0);
    if first >= 256 {
        return Err(Stop::Fault(1));
    }
    if is_digit(first) {
        return decimal_escape(text);
    }
    if is_break(first) {
        return Ok(EscapeByte {
            byte: b'\n',
            size: break_size(text) + 1,
        });
    }
    Ok(EscapeByte {
        byte: escape_letter(byte(text, 0)),
        size: 2,
    })
}

fn escape_letter(c: u8) -> u8
    ensures { result ≡ escape_letter c }
{
    if c == 97 {
        7
    } else if c == 98 {
        8
    } else if c == 102 {
        12
    } else if c == 110 {
        10
    } else if c == 114 {
        13
    } else if c == 116 {
        9
    } else if c == 118 {
        11
    } else {
        c
    }
}

// An escape of one to three digits.
fn decimal_escape(text: &[u8]) -> Result<EscapeByte, Stop>
    requires digit { is_digit (at text.now 0) ≡ true }
    ensures { IsEscape result (escape_of text.now) }
{
    let value = escape_value(text);
    if value > 255 {
        return Err(Stop::Fault(3));
    }
    Ok(EscapeByte {
        byte: value as u8,
        size: escape_digits(text) + 1,
    })
}

fn escape_digits(text: &[u8]) -> usize
    ensures size { result ≡ escape_digits text.now }
    ensures bound { (1 ≤ result) × (result ≤ 3) }
{
    if !is_digit(at(text, 1)) {
        1
    } else if !is_digit(at(text, 2)) {
        2
    } else {
        3
    }
}

fn escape_value(text: &[u8]) -> u16
    ensures { result ≡ escape_value text.now }
{
    let first = digit(at(text, 0));
    let second = digit(at(text, 1));
    let third = digit(at(text, 2));
    if !is_digit(at(text, 1)) {
        first
    } else if !is_digit(at(text, 2)) {
        first * 10 + second
    } else {
        first * 100 + second * 10 + third
    }
}

fn digit(c: u16) -> u16
    requires { c ≤ 256 }
    ensures value { result ≡ c - 48 }
    ensures bound { result ≤ 208 }
{
    c.saturating_sub(48)
}
