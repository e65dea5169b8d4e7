//! The two alphabets of patterns: bytes, and the code points of UTF-8.
ghost use Rattle.std.specs.Prelude.{◌≡◌, ℕ, List, true, ◌<◌, ◌≤◌, ◌∷◌, length, drop, IsUtf8, IsCharBoundary};
ghost use Rattle.lua_pattern.specs.Letters.{Letters, IsAlphabet};
ghost use Rattle.lua_pattern.specs.Places.{KeepsPlaces};
ghost use Rattle.lua_pattern.specs.Texts.{between, bytes, points, is_of, is_among, goes_on, later_bytes};

use crate::item::Class;
use bstr::decode_lossy;
use unicode::properties::{GeneralCategory, GeneralCategoryGroup};

/// What the symbols of a text are. Its methods are of use to this crate alone.
///
/// `is_text` says which bytes are a text, and `is_place` at which bytes of a text its symbols begin and end.
pub trait Alphabet {
    ghost letters: { Letters };

    ghost is_text: { List ℕ → Type 0 };

    ghost is_place: { List ℕ → ℕ → Type 0 };

    /// The first symbol of a text, and how many bytes it takes.
    fn first(text: &[u8]) -> (char, usize)
        requires { 0 < length text.now }
        ensures { letters.symbols text.now ≡ record { code = result.0; size = result.1 } ∷ letters.symbols (drop result.1 text.now) };

    /// Whether a symbol begins at the head of a text, as at its end.
    fn starts(text: &[u8]) -> bool
        ensures { result ≡ letters.starts text.now };

    /// Whether a class holds a symbol.
    fn is_in(class: Class, symbol: char) -> bool
        ensures { result ≡ letters.has class symbol };

    /// Whether the symbols are the bytes.
    fn are_bytes() -> bool
        ensures { result ≡ true → letters ≡ bytes };

    ghost lawful: { IsAlphabet letters };

    ghost keeps: { (subject : List ℕ) → is_text subject → KeepsPlaces letters subject (is_place subject) };
}

/// Each byte is a symbol; the classes are those of ASCII.
#[derive(Clone, Copy, Debug)]
pub struct OneByte;

/// Each code point of UTF-8 is a symbol; the classes go by General Category. Texts have to be UTF-8: in other bytes a
/// symbol is a byte with all the bytes from 128 to 191 behind it.
#[derive(Clone, Copy, Debug)]
pub struct OnePoint;

fn is_between(low: char, high: char, symbol: char) -> bool
    ensures { result ≡ between low high symbol }
{
    low <= symbol && symbol <= high
}

impl Alphabet for OneByte {
    ghost use Rattle.lua_pattern.specs.Lawful.{bytes_lawful};
    ghost use Rattle.lua_pattern.specs.Keeps.{bytes_keep};

    ghost letters = { bytes };

    ghost is_text = { λ subject. Unit {0} };

    ghost is_place = { λ subject at. at ≤ length subject };

    ghost lawful = { bytes_lawful };

    ghost keeps = { λ subject text. bytes_keep subject };

    fn first(text: &[u8]) -> (char, usize) {
        match text {
            [] => ('\0', 1),
            [byte, ..] => (*byte as char, 1),
        }
    }

    fn starts(_text: &[u8]) -> bool {
        true
    }

    fn is_in(class: Class, symbol: char) -> bool {
        match class {
            Class::Letter => is_between('A', 'Z', symbol) || is_between('a', 'z', symbol),
            Class::Control => symbol <= '\u{1f}' || symbol == '\u{7f}',
            Class::Digit => is_between('0', '9', symbol),
            Class::Lower => is_between('a', 'z', symbol),
            Class::Punctuation => {
                is_between('!', '/', symbol)
                    || is_between(':', '@', symbol)
                    || is_between('[', '`', symbol)
                    || is_between('{', '~', symbol)
            }
            Class::Space => is_between('\t', '\r', symbol) || symbol == ' ',
            Class::Upper => is_between('A', 'Z', symbol),
            Class::Alphanumeric => {
                is_between('A', 'Z', symbol)
                    || is_between('a', 'z', symbol)
                    || is_between('0', '9', symbol)
            }
            Class::Hexadecimal => {
                is_between('0', '9', symbol)
                    || is_between('A', 'F', symbol)
                    || is_between('a', 'f', symbol)
            }
            Class::Zero => symbol == '\0',
        }
    }

    fn are_bytes() -> bool {
        true
    }
}

fn category_is(category: GeneralCategory, symbol: char) -> bool
    ensures { result ≡ is_of category symbol }
{
    GeneralCategory::for_char(symbol) == category
}

fn is_member(group: GeneralCategoryGroup, symbol: char) -> bool
    ensures { result ≡ is_among group symbol }
{
    group.contains(GeneralCategory::for_char(symbol))
}

/// A byte with which a code point goes on.
fn is_later(byte: u8) -> bool
    ensures { result ≡ goes_on byte }
{
    128 <= byte && byte <= 191
}

/// How many such bytes stand at the head of a text.
fn count_later(text: &[u8]) -> usize
    ensures value { result ≡ later_bytes text.now }
    ensures short { result ≤ length text.now }
{
    let mut left = text;
    let mut count: usize = 0;
    while let [byte, rest @ ..] = left {
        if !is_later(*byte) {
            return count;
        }
        count += 1;
        left = rest;
    }
    count
}

impl Alphabet for OnePoint {
    ghost use Rattle.lua_pattern.specs.Lawful.{points_lawful};
    ghost use Rattle.lua_pattern.specs.Keeps.{points_keep};

    ghost letters = { points };

    ghost is_text = { IsUtf8 };

    ghost is_place = { IsCharBoundary };

    ghost lawful = { points_lawful };

    ghost keeps = { points_keep };

    #[tactic(auto, using(crate::specs::Lawful::point_cut))]
    fn first(text: &[u8]) -> (char, usize) {
        match text {
            [] => ('\0', 1),
            [_, rest @ ..] => (decode_lossy(text).0, 1 + count_later(rest)),
        }
    }

    fn starts(text: &[u8]) -> bool {
        match text {
            [] => true,
            [byte, ..] => !is_later(*byte),
        }
    }

    fn is_in(class: Class, symbol: char) -> bool {
        match class {
            Class::Letter => is_member(GeneralCategoryGroup::Letter, symbol),
            Class::Control => category_is(GeneralCategory::Control, symbol),
            Class::Digit => category_is(GeneralCategory::DecimalNumber, symbol),
            Class::Lower => category_is(GeneralCategory::LowercaseLetter, symbol),
            Class::Punctuation => is_member(GeneralCategoryGroup::Punctuation, symbol),
            Class::Space => {
                is_member(GeneralCategoryGroup::Separator, symbol) || is_between('\t', '\r', symbol)
            }
            Class::Upper => category_is(GeneralCategory::UppercaseLetter, symbol),
            Class::Alphanumeric => {
                is_member(GeneralCategoryGroup::Letter, symbol)
                    || category_is(GeneralCategory::DecimalNumber, symbol)
            }
            Class::Hexadecimal => {
                is_between('0', '9', symbol)
                    || is_between('A', 'F', symbol)
                    || is_between('a', 'f', symbol)
            }
            Class::Zero => symbol == '\0',
        }
    }

    fn are_bytes() -> bool {
        false
    }
}
