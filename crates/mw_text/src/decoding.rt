//! `decode`: character references as code points (Scribunto manual, mw.text.decode).
ghost use Rattle.std.specs.Prelude.{◌≡◌, ◌+◌, ◌-◌, ◌^◌, ◌≤◌, ◌++◌, min, drop, length, IfOk, IfSome};
ghost use Rattle.mw_text.specs.Decode.{begins as begins_lem, named as named_lem, digits_of, number_from, numeral as numeral_lem, reference as reference_lem, behind as behind_lem, head, decoded};

use crate::ends::first_byte;
use crate::references::put_point;
use mw_ustring::{NoMemory, push_all};
use std::alloc::Global;

/// A reference by name, behind `&`: the code point, and how many bytes the name and its `;` take.
fn named(text: &[u8]) -> Option<(char, usize)>
    ensures value { result ≡ named_lem text.now }
    ensures within { IfSome result (λ p. p.1 ≤ length text.now) }
{
    if text.starts_with(b"lt;") {
        Some(('<', 3))
    } else if text.starts_with(b"gt;") {
        Some(('>', 3))
    } else if text.starts_with(b"amp;") {
        Some(('&', 4))
    } else if text.starts_with(b"quot;") {
        Some(('"', 5))
    } else if text.starts_with(b"nbsp;") {
        Some(('\u{A0}', 5))
    } else {
        None
    }
}

/// How many digits stand at the head of a text, and their number, or the greatest one of 32 bits where it is greater.
fn digits(radix: u32, text: &[u8]) -> (u32, usize)
    requires low { 2 ≤ radix }
    requires high { radix ≤ 36 }
    ensures number { result.0 ≡ min (number_from radix 0 (digits_of radix text.now)) (2 ^ 32 - 1) }
    ensures count { result.1 ≡ length (digits_of radix text.now) }
    ensures within { result.1 ≤ length text.now }
{
    let mut number: u32 = 0;
    let mut rest = text;
    'digits: loop {
        let Some((byte, behind)) = first_byte(rest) else {
            return (number, text.len());
        };
        let Some(digit) = (byte as char).to_digit(radix) else {
            return (number, text.len() - rest.len());
        };
        number = number.saturating_mul(radix).saturating_add(digit);
        rest = behind;
    }
}

/// A reference by number, behind `&#` or `&#x`.
fn numeral(radix: u32, text: &[u8]) -> Option<(char, usize)>
    requires low { 2 ≤ radix }
    requires high { radix ≤ 36 }
    ensures value { result ≡ numeral_lem radix text.now }
    ensures within { IfSome result (λ p. p.1 ≤ length text.now) }
{
    let (number, count) = digits(radix, text);
    if count == 0 {
        return None;
    }
    if !text[count..].starts_with(b";") {
        return None;
    }
    match char::from_u32(number) {
        Some(point) => Some((point, count + 1)),
        None => None,
    }
}

/// Adds the bytes in front of a reference to its length.
fn longer(count: usize, found: Option<(char, usize)>, most: usize) -> Option<(char, usize)>
    requires { IfSome found (λ p. count + p.1 ≤ most) }
    ensures value { result ≡ behind_lem count found }
    ensures within { IfSome result (λ p. p.1 ≤ most) }
{
    match found {
        Some((point, size)) => Some((point, count + size)),
        None => None,
    }
}

/// A reference behind `&`: the code point, and how many bytes it takes, its `;` included.
pub fn reference(text: &[u8]) -> Option<(char, usize)>
    ensures value { result ≡ reference_lem text.now }
    ensures within { IfSome result (λ p. p.1 ≤ length text.now) }
{
    if text.starts_with(b"#x") {
        return longer(2, numeral(16, &text[2..]), text.len());
    }
    if text.starts_with(b"#") {
        return longer(1, numeral(10, &text[1..]), text.len());
    }
    named(text)
}

/// `mw.text.decode(s)`: `&lt;`, `&gt;`, `&amp;`, `&quot;`, `&nbsp;`, and `&#N;` and `&#xH;` of a code point in decimal and in
/// hexadecimal, as the code points. Anything else stays, and nothing is read twice.
pub fn decode(alloc: Global, s: &[u8]) -> Result<Vec<u8>, NoMemory>
    ensures { IfOk result (λ made. made.items ≡ decoded s.now) }
{
    let mut made = Vec::new(alloc);
    let mut rest = s;
    'bytes: loop {
        let Some((byte, behind)) = first_byte(rest) else {
            return Ok(made);
        };
        rest = put_head(&mut made, byte, behind)?;
    }
}

/// Adds what a byte and the text behind it begin with; and the text behind that.
fn put_head<'t>(made: &mut Vec<u8>, byte: u8, text: &'t [u8]) -> Result<&'t [u8], NoMemory>
    ensures { IfOk result (λ rest. (made.new.items ≡ made.old.items ++ (head byte text.now).0) × (rest.now ≡ drop (head byte text.now).1 text.now)) }
{
    if byte == b'&' {
        if let Some((point, size)) = reference(text) {
            put_point(made, point)?;
            return Ok(&text[size..]);
        }
    }
    push_all(made, &[byte])?;
    Ok(text)
}
