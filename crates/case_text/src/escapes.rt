//! Reading the escapes of a text.
ghost use Rattle.std.specs.Prelude.{◌≡◌, ◌<◌, ◌++◌, ◌∷◌, List, ℕ, IfOk, OnOk};
ghost use Rattle.case_text.specs.Escapes.{digit, hex_byte, before, behind, number_after, repeated, letter, meaning, extent, unescaped};

use std::alloc::{AllocError, Global};

/// The text, each escape replaced by what it stands for: `\n`, `\r` and `\t`; `\xHH` for the byte of two small hexadecimal
/// digits; `\(N:TEXT)` for N copies of a text without escapes; a backslash before any other byte for that byte.
pub fn unescaped(alloc: Global, text: &[u8]) -> Result<Vec<u8>, AllocError>
    ensures { IfOk result (λ bytes. bytes.items ≡ unescaped text.now) }
{
    let mut bytes = Vec::new(alloc);
    let mut left = text;
    let mut passed = 0usize;
    while let [first, rest @ ..] = left {
        if passed > 0 {
            passed -= 1;
        } else if *first == b'\\' {
            add_meaning(&mut bytes, rest)?;
            passed = extent(rest);
        } else {
            bytes.push(*first)?;
        }
        left = rest;
    }
    Ok(bytes)
}

/// Adds what an escape stands for, from the byte behind its backslash on.
fn add_meaning(bytes: &mut Vec<u8>, text: &[u8]) -> Result<(), AllocError>
    ensures { OnOk result (bytes.new.items ≡ bytes.old.items ++ meaning text.now) }
{
    match text {
        [b'x', digits @ ..] => bytes.push(hex_byte(digits))?,
        [b'(', inside @ ..] => add_copies(bytes, before(b')', inside))?,
        [byte, ..] => bytes.push(letter(*byte))?,
        [] => {}
    }
    Ok(())
}

/// How many bytes behind the backslash belong to the escape.
fn extent(text: &[u8]) -> usize
    ensures { result ≡ extent text.now }
{
    match text {
        [b'x', ..] => 3,
        [b'(', inside @ ..] => before(b')', inside).len() + 2,
        [_, ..] => 1,
        [] => 0,
    }
}

/// Adds N copies of TEXT, for `N:TEXT`.
fn add_copies(bytes: &mut Vec<u8>, text: &[u8]) -> Result<(), AllocError>
    ensures { OnOk result (bytes.new.items ≡ bytes.old.items ++ repeated text.now) }
{
    let copy = behind(b':', text);
    let mut left = number(before(b':', text));
    while left > 0 {
        bytes.extend_from_slice(copy)?;
        left -= 1;
    }
    Ok(())
}

/// What stands before the first such byte, or all where there is none.
fn before(byte: u8, text: &[u8]) -> &[u8]
    ensures { result.now ≡ before byte text.now }
{
    for (at, other) in text.iter().enumerate() {
        if *other == byte {
            return &text[..at];
        }
    }
    text
}

/// What stands behind the first such byte, or nothing where there is none.
fn behind(byte: u8, mut text: &[u8]) -> &[u8]
    ensures { result.now ≡ behind byte text.now }
{
    while let [first, rest @ ..] = text {
        text = rest;
        if *first == byte {
            break;
        }
    }
    text
}

/// The number of these decimal digits, or the greatest number where they don't fit.
fn number(mut digits: &[u8]) -> usize
    ensures { result ≡ number_after 0 digits.now }
{
    let mut number = 0usize;
    while let [first, rest @ ..] = digits {
        number = with_digit(number, *first);
        digits = rest;
    }
    number
}

fn with_digit(number: usize, byte: u8) -> usize
    ensures { (rest : List ℕ) → number_after result rest ≡ number_after number (byte ∷ rest) }
{
    number
        .saturating_mul(10)
        .saturating_add(usize::from(digit(byte)))
}

/// The byte of two hexadecimal digits, or 0 where one is missing.
fn hex_byte(digits: &[u8]) -> u8
    ensures { result ≡ hex_byte digits.now }
{
    match digits {
        [high, low, ..] => digit(*high) * 16 + digit(*low),
        _ => 0,
    }
}

/// The value of a hexadecimal digit, and 0 for any other byte.
fn digit(byte: u8) -> u8
    ensures value { result ≡ digit byte }
    ensures below { result < 16 }
{
    match byte {
        b'0'..=b'9' => byte - b'0',
        b'a'..=b'f' => byte - b'a' + 10,
        _ => 0,
    }
}

/// What a letter behind a backslash stands for.
fn letter(byte: u8) -> u8
    ensures { result ≡ letter byte }
{
    match byte {
        b'n' => b'\n',
        b'r' => b'\r',
        b't' => b'\t',
        _ => byte,
    }
}
