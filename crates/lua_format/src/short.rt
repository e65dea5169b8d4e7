//! The digits of numbers, with no memory of their own.
ghost use Rattle.std.specs.Prelude.{◌≡◌, ◌≤◌, ◌∷◌, [], length, take, drop};
ghost use Rattle.std.specs.Fmt.{digits as digits_lem, digit_glyph, signed_decimal};

use std::marker::Model;

/// A text of at most 24 bytes.
#[derive(Drop)]
pub struct Short {
    bytes: [u8; 24],
    start: usize,
    end: usize,
}

impl Model for Short {
    ghost use Rattle.std.specs.Prelude.{List, ℕ, ◌-◌, ◌≤◌, ◌≡◌, length, take, drop};

    ghost Value = { List ℕ };

    ghost view = { λ s. take (s.end - s.start) (drop s.start s.bytes) };

    ghost invariant = { λ s. (length s.bytes ≡ 24) × (s.start ≤ s.end) × (s.end ≤ 24) };
}

fn glyph(upper: bool, digit: u8) -> u8
    requires { digit ≤ 15 }
    ensures { result ≡ digit_glyph upper digit }
{
    if digit < 10 {
        b'0' + digit
    } else if upper {
        b'A' - 10 + digit
    } else {
        b'a' - 10 + digit
    }
}

/// Writes the digits of a number to the end of a buffer. They begin at the place that is answered.
fn put_digits(bytes: &mut [u8; 24], n: u64, base: u64, upper: bool) -> usize
    requires whole { length bytes.old ≡ 24 }
    requires low { 8 ≤ base }
    requires high { base ≤ 16 }
    ensures whole { length bytes.new ≡ 24 }
    ensures digits { drop result bytes.new ≡ digits_lem base upper n }
    ensures low { 2 ≤ result }
    ensures high { result ≤ 24 }
{
    let mut start: usize = 24;
    let mut left = n;
    'digits: loop {
        start -= 1;
        bytes[start] = glyph(upper, (left % base) as u8);
        left /= base;
        if left == 0 {
            return start;
        }
    }
}

/// The digits of a number in a base, without a sign or zeros before them.
pub fn digits(n: u64, base: u64, upper: bool) -> Short
    requires low { 8 ≤ base }
    requires high { base ≤ 16 }
    ensures { result ≡ digits_lem base upper n }
{
    let mut bytes = [0; 24];
    let start = put_digits(&mut bytes, n, base, upper);
    Short {
        bytes,
        start,
        end: 24,
    }
}

/// The decimal digits of a number, with `-` before them where it is below 0.
pub fn signed(n: i64) -> Short
    ensures { result ≡ signed_decimal n }
{
    let mut bytes = [0; 24];
    let mut start = put_digits(&mut bytes, n.unsigned_abs(), 10, false);
    if n < 0 {
        start -= 1;
        bytes[start] = b'-';
    }
    Short {
        bytes,
        start,
        end: 24,
    }
}

impl Short {
    /// The text of one byte.
    pub fn one(byte: u8) -> Short
        ensures { result ≡ byte ∷ [] }
    {
        let mut bytes = [0; 24];
        bytes[0] = byte;
        Short {
            bytes,
            start: 0,
            end: 1,
        }
    }

    pub fn empty() -> Short
        ensures { result ≡ [] }
    {
        Short {
            bytes: [0; 24],
            start: 0,
            end: 0,
        }
    }

    pub fn as_slice(&self) -> &[u8]
        ensures { result.now ≡ self.now }
    {
        &self.bytes[self.start..self.end]
    }

    /// The first `n` bytes, or all where there are fewer.
    pub fn cut(self, n: usize) -> Short
        ensures { result ≡ take n self }
    {
        let Short { bytes, start, end } = self;
        let end = if n < end - start { start + n } else { end };
        Short { bytes, start, end }
    }
}
