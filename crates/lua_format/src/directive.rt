//! The reading of what stands behind a `%`.
ghost use Rattle.std.specs.Prelude.{◌≡◌, ◌≤◌, ◌<◌, ℕ, Some, None, length, MatchOption, IfSome};
ghost use Rattle.lua_format.specs.Directives.{is_flag as is_flag_lem, with_flag, flags_from, no_flags, second_digit, two_digits, precision_of, conversion_of, letter_of, directive_of};

/// The flags of a directive.
#[derive(Clone, Copy, Debug, PartialEq, Eq)]
pub struct Flags {
    /// `-`: the text stands on the left.
    pub minus: bool,
    /// `+`: a number that is not below 0 has a `+`.
    pub plus: bool,
    /// A space: a number that is not below 0 has a space in place of a sign.
    pub space: bool,
    /// `#`: `0x` before a hexadecimal number, `0` before an octal one, and a point behind any `%f`.
    pub sharp: bool,
    /// `0`: zeros in place of spaces on the left.
    pub zero: bool,
}

/// The letter of a directive.
#[derive(Clone, Copy, Debug, PartialEq, Eq)]
pub enum Conversion {
    /// `c`: the byte with a code from 0 to 255
    Byte,
    /// `d`, `i`
    Decimal,
    /// `u`: the number modulo 2^64
    Unsigned,
    /// `o`: the number modulo 2^64
    Octal,
    /// `x`, or `X` where the digits above 9 are capital: the number modulo 2^64
    Hexadecimal(bool),
    /// `f`
    Fixed,
    /// `q`: a text between quotes, as Lua reads it
    Quoted,
    /// `s`
    Text,
    /// `%`
    Percent,
}

/// What stands behind a `%`.
#[derive(Clone, Copy, Debug, PartialEq, Eq)]
pub struct Directive {
    pub flags: Flags,
    /// At most 99; 0 where none is written.
    pub width: usize,
    /// At most 99.
    pub precision: Option<usize>,
    pub conversion: Conversion,
}

const NO_FLAGS: Flags = Flags {
    minus: false,
    plus: false,
    space: false,
    sharp: false,
    zero: false,
};

fn is_flag(byte: u8) -> bool
    ensures { result ≡ is_flag_lem byte }
{
    byte == b'-' || byte == b'+' || byte == b' ' || byte == b'#' || byte == b'0'
}

impl Flags {
    fn with(self, byte: u8) -> Flags
        ensures { result ≡ with_flag byte self }
    {
        Flags {
            minus: self.minus || byte == b'-',
            plus: self.plus || byte == b'+',
            space: self.space || byte == b' ',
            sharp: self.sharp || byte == b'#',
            zero: self.zero || byte == b'0',
        }
    }
}

/// The flags at the head of a text, of which there are five at most, and the text behind them.
fn read_flags(text: &[u8]) -> Option<(Flags, &[u8])>
    ensures flags { MatchOption result (flags_from 5 no_flags text.now ≡ None) (λ p. flags_from 5 no_flags text.now ≡ Some (p.0, p.1.now)) }
    ensures short { IfSome result (λ p. length p.1.now ≤ length text.now) }
{
    let mut flags = NO_FLAGS;
    let mut rest = text;
    let mut room: usize = 5;
    'flags: while let [byte, behind @ ..] = rest {
        if !is_flag(*byte) {
            return Some((flags, rest));
        }
        if room == 0 {
            return None;
        }
        room -= 1;
        flags = flags.with(*byte);
        rest = behind;
    }
    Some((flags, rest))
}

/// A number behind its first digit, with one digit more if there is one, and the text behind it.
fn read_second(first: usize, text: &[u8]) -> (usize, &[u8])
    requires { first ≤ 9 }
    ensures number { result.0 ≡ (second_digit first text.now).0 }
    ensures rest { result.1.now ≡ (second_digit first text.now).1 }
    ensures small { result.0 ≤ 99 }
    ensures short { length result.1.now ≤ length text.now }
{
    match text {
        [byte @ b'0'..=b'9', rest @ ..] => (10 * first + (*byte - b'0') as usize, rest),
        _ => (first, text),
    }
}

/// A number of at most two digits, which may be none, and the text behind it.
fn read_number(text: &[u8]) -> (usize, &[u8])
    ensures number { result.0 ≡ (two_digits text.now).0 }
    ensures rest { result.1.now ≡ (two_digits text.now).1 }
    ensures small { result.0 ≤ 99 }
    ensures short { length result.1.now ≤ length text.now }
{
    match text {
        [byte @ b'0'..=b'9', rest @ ..] => read_second((*byte - b'0') as usize, rest),
        _ => (0, text),
    }
}

/// The precision behind a point, if there is one, and the text behind it.
fn read_precision(text: &[u8]) -> (Option<usize>, &[u8])
    ensures number { result.0 ≡ (precision_of text.now).0 }
    ensures rest { result.1.now ≡ (precision_of text.now).1 }
    ensures small { IfSome result.0 (λ n. n ≤ 99) }
    ensures short { length result.1.now ≤ length text.now }
{
    match text {
        [b'.', behind @ ..] => {
            let (precision, rest) = read_number(behind);
            (Some(precision), rest)
        }
        _ => (None, text),
    }
}

fn read_conversion(letter: u8) -> Option<Conversion>
    ensures { result ≡ conversion_of letter }
{
    match letter {
        b'c' => Some(Conversion::Byte),
        b'd' => Some(Conversion::Decimal),
        b'i' => Some(Conversion::Decimal),
        b'u' => Some(Conversion::Unsigned),
        b'o' => Some(Conversion::Octal),
        b'x' => Some(Conversion::Hexadecimal(false)),
        b'X' => Some(Conversion::Hexadecimal(true)),
        b'f' => Some(Conversion::Fixed),
        b'q' => Some(Conversion::Quoted),
        b's' => Some(Conversion::Text),
        b'%' => Some(Conversion::Percent),
        _ => None,
    }
}

/// The directive behind a `%`, and the text behind it.
#[tactic(auto, unfolding(crate::specs::Directives::directive_of))]
pub fn read_directive(text: &[u8]) -> Option<(Directive, &[u8])>
    ensures directive { MatchOption result (directive_of text.now ≡ None) (λ p. directive_of text.now ≡ Some (p.0, p.1.now)) }
    ensures short { IfSome result (λ p. length p.1.now < length text.now) }
    ensures small { IfSome result (λ p. (p.0.width ≤ 99) × IfSome p.0.precision (λ n. n ≤ 99)) }
{
    let (flags, behind) = read_flags(text)?;
    let (width, behind) = read_number(behind);
    let (precision, behind) = read_precision(behind);
    let [letter, rest @ ..] = behind else {
        return None;
    };
    let conversion = read_conversion(*letter)?;
    Some((
        Directive {
            flags,
            width,
            precision,
            conversion,
        },
        rest,
    ))
}
