//! Numbers read from the bytes of a text: numerals (manual 2.1) and number texts (`tonumber`, manual 5.1).
ghost use Rattle.std.specs.Prelude.{◌≡◌, ℕ, Option, true, ◌+◌, ◌-◌, ◌*◌, ◌^◌, ◌<◌, ◌≤◌, ◌++◌, ◌==◌, ◌&&◌, [], length, pos, min, take, drop, nat_lt, option_map, unwrap_or, position, Some, SomeIff};
ghost use Rattle.std.specs.List.{before_first, list_all};
ghost use Rattle.std.specs.Char.{digit_value};
ghost use Rattle.std.specs.Str.Parse.{digits_value, digits_value_after};
ghost use Rattle.std.specs.Option.{ForSome};
ghost use Rattle.lua_number.specs.Numerals.{in_range, behind, are_digits, natural, is_minus, unsigned, signed, is_exponent_mark, is_point, is_zero_digit, exponent_of, moved_point, whole_part, decimal_value, decimal_of, has_hex_mark, numeral_of, digits_of_base, read_numeral_of, read_number_of, read_in_base_of};
ghost use Rattle.lua_number.specs.Words.{in_word};

use wk_base::space::trim;

/// The value of a numeral of a program, as `12`, `1e3`, `3.0` or `0x1F`, or None where the bytes are no numeral,
/// or its value is not whole or is above 2^63 - 1.
pub fn read_numeral(text: &[u8]) -> Option<i64>
    ensures { result ≡ read_numeral_of text.now }
{
    with_sign(false, numeral(text))
}

/// The number that a text writes, with white space allowed at both ends and then one sign (`tonumber` without a base),
/// or None where the bytes write none, or its value is not whole or is not in the range of `i64`.
pub fn read_number(text: &[u8]) -> Option<i64>
    ensures { result ≡ read_number_of text.now }
{
    let text = trim(text);
    with_sign(is_minus(text), numeral(unsigned(text)))
}

/// The number that a text writes in a base (`tonumber` with a base), with white space allowed at both ends and then
/// one sign. The digits above 9 are letters in either case. In base 16 they may have `0x` or `0X` before them; base 10
/// is `read_number`.
pub fn read_in_base(text: &[u8], base: u32) -> Option<i64>
    requires low { 2 ≤ base }
    requires high { base ≤ 36 }
    ensures { result ≡ read_in_base_of text.now base }
{
    if base == 10 {
        return read_number(text);
    }
    let text = trim(text);
    with_sign(is_minus(text), digits_of_base(unsigned(text), base))
}

// The number with its sign, if it is in range. A size of None is one above every size of 64 bits, or no number at all.
fn with_sign(negative: bool, size: Option<u64>) -> Option<i64>
    ensures { (n : Option ℕ) → size ≡ in_word n → result ≡ in_range (option_map (signed negative) n) }
{
    match size {
        None => None,
        Some(size) => {
            if negative {
                0i64.checked_sub_unsigned(size)
            } else {
                0i64.checked_add_unsigned(size)
            }
        }
    }
}

fn is_minus(text: &[u8]) -> bool
    ensures { result ≡ is_minus text.now }
{
    !text.is_empty() && text[0] == b'-'
}

fn unsigned(text: &[u8]) -> &[u8]
    ensures { result.now ≡ unsigned text.now }
{
    match text {
        [b'-' | b'+', rest @ ..] => rest,
        _ => text,
    }
}

fn has_hex_mark(text: &[u8]) -> bool
    ensures { result ≡ has_hex_mark text.now }
{
    text.len() > 1 && text[0] == b'0' && (text[1] == b'x' || text[1] == b'X')
}

fn behind_mark(text: &[u8]) -> &[u8]
    requires { has_hex_mark text.now ≡ true }
    ensures { result.now ≡ drop 2 text.now }
{
    match text {
        [_, _, rest @ ..] => rest,
        _ => &[],
    }
}

fn may_have_mark(text: &[u8], base: u32) -> bool
    ensures { result ≡ (base == 16 && has_hex_mark text.now) }
{
    base == 16 && has_hex_mark(text)
}

fn digits_of_base(text: &[u8], base: u32) -> Option<u64>
    requires low { 2 ≤ base }
    requires high { base ≤ 36 }
    ensures { result ≡ in_word (digits_of_base base text.now) }
{
    if may_have_mark(text, base) {
        natural(behind_mark(text), base)
    } else {
        natural(text, base)
    }
}

fn natural(text: &[u8], base: u32) -> Option<u64>
    requires low { 2 ≤ base }
    requires high { base ≤ 36 }
    ensures { result ≡ in_word (natural base text.now) }
{
    if are_digits(text, base) {
        digits_after(0, text, base)
    } else {
        None
    }
}

fn are_digits(text: &[u8], base: u32) -> bool
    ensures { result ≡ are_digits base text.now }
{
    !text.is_empty() && are_below(text, base)
}

fn are_below(text: &[u8], base: u32) -> bool
    ensures { result ≡ list_all (λ c. nat_lt (digit_value c) base) text.now }
{
    text.iter().all(|c| digit_value(*c) < base)
}

fn digit_value(c: u8) -> u32
    ensures value { result ≡ digit_value c }
    ensures bound { result ≤ 36 }
{
    match c {
        b'0'..=b'9' => u32::from(c - b'0'),
        b'a'..=b'z' => u32::from(c - b'a') + 10,
        b'A'..=b'Z' => u32::from(c - b'A') + 10,
        _ => 36,
    }
}

// The number of the digits, read on from a number.
fn digits_after(start: u64, digits: &[u8], base: u32) -> Option<u64>
    requires { 2 ≤ base }
    ensures { SomeIff result (digits_value_after base start digits.now < 2 ^ 64) (digits_value_after base start digits.now) }
{
    let mut value = start;
    for c in digits {
        value = match with_digit(value, base, digit_value(*c)) {
            None => return None,
            Some(more) => more,
        };
    }
    Some(value)
}

fn with_digit(value: u64, base: u32, digit: u32) -> Option<u64>
    ensures { SomeIff result (value * base + digit < 2 ^ 64) (value * base + digit) }
{
    match value.checked_mul(u64::from(base)) {
        None => None,
        Some(product) => product.checked_add(u64::from(digit)),
    }
}

fn numeral(text: &[u8]) -> Option<u64>
    ensures { result ≡ in_word (numeral_of text.now) }
{
    if has_hex_mark(text) {
        natural(behind_mark(text), 16)
    } else {
        decimal(text)
    }
}

// A text round the first byte that passes a test.
#[derive(Clone, Copy)]
struct Parts<'t> {
    front: &'t [u8],
    back: Option<&'t [u8]>,
}

fn round_exponent_mark(text: &[u8]) -> Parts<'_>
    ensures front { result.front.now ≡ before_first is_exponent_mark text.now }
    ensures back { option_map (λ b. b.now) result.back ≡ behind is_exponent_mark text.now }
{
    round(text, exponent_mark(text))
}

fn round_point(text: &[u8]) -> Parts<'_>
    ensures front { result.front.now ≡ before_first is_point text.now }
    ensures back { option_map (λ b. b.now) result.back ≡ behind is_point text.now }
{
    round(text, point(text))
}

fn exponent_mark(text: &[u8]) -> Option<usize>
    ensures { result ≡ position is_exponent_mark text.now }
{
    text.iter().position(|c| *c == b'e' || *c == b'E')
}

fn point(text: &[u8]) -> Option<usize>
    ensures { result ≡ position is_point text.now }
{
    text.iter().position(|c| *c == b'.')
}

fn round(text: &[u8], place: Option<usize>) -> Parts<'_>
    requires { ForSome place (λ k. k < length text.now) }
    ensures front { result.front.now ≡ take (unwrap_or place (length text.now)) text.now }
    ensures back { option_map (λ b. b.now) result.back ≡ option_map (λ k. drop (k + 1) text.now) place }
{
    match place {
        None => Parts {
            front: text,
            back: None,
        },
        Some(k) => Parts {
            front: &text[..k],
            back: Some(&text[k + 1..]),
        },
    }
}

fn decimal(text: &[u8]) -> Option<u64>
    ensures { result ≡ in_word (decimal_of text.now) }
{
    let text = round_exponent_mark(text);
    let mantissa = round_point(text.front);
    decimal_value(mantissa.front, or_empty(mantissa.back), text.back)
}

fn or_empty(part: Option<&[u8]>) -> &[u8]
    ensures { result.now ≡ unwrap_or (option_map (λ b. b.now) part.entry) [] }
{
    match part {
        None => &[],
        Some(digits) => digits,
    }
}

fn decimal_value(whole: &[u8], fraction: &[u8], exponent: Option<&[u8]>) -> Option<u64>
    requires { length whole.now + length fraction.now < 2 ^ 63 }
    ensures { result ≡ in_word (decimal_value whole.now fraction.now (exponent_of (option_map (λ b. b.now) exponent.entry))) }
{
    match moved_point(whole.len(), exponent) {
        None => None,
        Some(point) => {
            if are_all_digits(whole, fraction) {
                whole_part(whole, fraction, point)
            } else {
                None
            }
        }
    }
}

fn are_all_digits(whole: &[u8], fraction: &[u8]) -> bool
    ensures { result ≡ are_digits 10 (whole.now ++ fraction.now) }
{
    if whole.is_empty() {
        are_digits(fraction, 10)
    } else {
        are_digits(whole, 10) && (fraction.is_empty() || are_digits(fraction, 10))
    }
}

// The place of the point behind the exponent, or the greatest number where it is beyond.
fn moved_point(point: usize, exponent: Option<&[u8]>) -> Option<usize>
    ensures { result ≡ option_map (λ e. min (moved_point point e) usize.MAX) (exponent_of (option_map (λ b. b.now) exponent.entry)) }
{
    match exponent {
        None => Some(point),
        Some(text) => {
            let digits = unsigned(text);
            if are_digits(digits, 10) {
                Some(shifted(point, is_minus(text), digits_after(0, digits, 10)))
            } else {
                None
            }
        }
    }
}

// The point moved by a number of places, None being more than any text has.
fn shifted(point: usize, back: bool, places: Option<u64>) -> usize
    ensures { (n : ℕ) → SomeIff places (n < 2 ^ 64) n → result ≡ min (moved_point point (signed back n)) usize.MAX }
{
    let places = places.unwrap_or(u64::MAX) as usize;
    if back {
        point.saturating_sub(places)
    } else {
        point.saturating_add(places)
    }
}

fn whole_part(whole: &[u8], fraction: &[u8], point: usize) -> Option<u64>
    requires { length whole.now + length fraction.now < 2 ^ 63 }
    ensures { result ≡ in_word (whole_part (whole.now ++ fraction.now) point) }
{
    let in_whole = point.min(whole.len());
    let more = point - in_whole;
    let in_fraction = more.min(fraction.len());
    let (whole_front, whole_back) = whole.split_at(in_whole);
    let (fraction_front, fraction_back) = fraction.split_at(in_fraction);
    if are_zeros_in(whole_back, fraction_back) {
        with_zeros(value_of(whole_front, fraction_front), more - in_fraction)
    } else {
        None
    }
}

// The number of the digits of both parts together.
fn value_of(front: &[u8], back: &[u8]) -> Option<u64>
    ensures { SomeIff result (digits_value 10 (front.now ++ back.now) < 2 ^ 64) (digits_value 10 (front.now ++ back.now)) }
{
    match digits_after(0, front, 10) {
        None => None,
        Some(value) => digits_after(value, back, 10),
    }
}

fn are_zeros_in(front: &[u8], back: &[u8]) -> bool
    ensures { result ≡ list_all is_zero_digit (front.now ++ back.now) }
{
    are_zeros(front) && are_zeros(back)
}

fn are_zeros(digits: &[u8]) -> bool
    ensures { result ≡ list_all is_zero_digit digits.now }
{
    digits.iter().all(|c| *c == b'0')
}

// The number with zeros put behind it; None is a number above every one of 64 bits.
fn with_zeros(value: Option<u64>, zeros: usize) -> Option<u64>
    ensures { (n : ℕ) → SomeIff value (n < 2 ^ 64) n → SomeIff result (n * 10 ^ zeros < 2 ^ 64) (n * 10 ^ zeros) }
{
    match value {
        None => None,
        Some(value) => times_power(value, zeros),
    }
}

fn times_power(value: u64, zeros: usize) -> Option<u64>
    ensures { SomeIff result (value * 10 ^ zeros < 2 ^ 64) (value * 10 ^ zeros) }
{
    if value == 0 {
        Some(0)
    } else if zeros < 20 {
        value.checked_mul(10u64.pow(zeros as u32))
    } else {
        None
    }
}
