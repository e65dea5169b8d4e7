//! The equality of `#ifeq` and `#switch` (MediaWiki, Help:Extension:ParserFunctions, "#ifeq").
ghost use Rattle.std.specs.Prelude.{◌≡◌, ◌≤◌, true, length};
ghost use Rattle.std.specs.List.{list_all};
ghost use Rattle.expand_meaning.specs.Texts.{is_digit, is_short, behind_sign, is_minus, size_after, signed, number_of, same_number, are_equal};

fn is_digit(byte: u8) -> bool
    ensures { result ≡ is_digit byte }
{
    48 <= byte && byte <= 57
}

fn is_short(digits: &[u8]) -> bool
    ensures { result ≡ is_short digits.now }
{
    1 <= digits.len() && digits.len() <= 18
}

fn behind_sign(text: &[u8]) -> &[u8]
    ensures { result.now ≡ behind_sign text.now }
{
    match text {
        [first, rest @ ..] if *first == b'+' || *first == b'-' => rest,
        _ => text,
    }
}

fn is_minus(text: &[u8]) -> bool
    ensures { result ≡ is_minus text.now }
{
    matches!(text, [first, ..] if *first == b'-')
}

fn are_digits(text: &[u8]) -> bool
    ensures { result ≡ list_all is_digit text.now }
{
    text.iter().all(|byte| is_digit(*byte))
}

/// The number that some digits write.
fn size_of(digits: &[u8]) -> u64
    requires short { length digits.now ≤ 18 }
    requires digits { list_all is_digit digits.now ≡ true }
    ensures { result ≡ size_after 0 digits.now }
{
    let mut size = 0u64;
    for digit in digits {
        size = size * 10 + (*digit - b'0') as u64;
    }
    size
}

/// A sign, but for zero, and a size.
fn signed(minus: bool, size: u64) -> (bool, u64)
    ensures { result ≡ signed minus size }
{
    (minus && !(size == 0), size)
}

/// The number that a text writes, as its sign and its size.
#[tactic(auto, unfolding(expand_meaning::specs::Texts::number_of))]
pub fn number_of(text: &[u8]) -> Option<(bool, u64)>
    ensures { result ≡ number_of text.now }
{
    let digits = behind_sign(text);
    let short = is_short(digits);
    if !short {
        return None;
    }
    let numeral = are_digits(digits);
    if !numeral {
        return None;
    }
    Some(signed(is_minus(text), size_of(digits)))
}

fn same_number(left: Option<(bool, u64)>, right: Option<(bool, u64)>) -> bool
    ensures { result ≡ same_number left right }
{
    match (left, right) {
        (Some(m), Some(n)) => m.0 == n.0 && m.1 == n.1,
        _ => false,
    }
}

/// Whether two texts have the same bytes, or are numbers and equal as numbers.
#[tactic(auto, unfolding(expand_meaning::specs::Texts::are_equal))]
pub fn are_equal(left: &[u8], right: &[u8]) -> bool
    ensures { result ≡ are_equal left.now right.now }
{
    left == right || same_number(number_of(left), number_of(right))
}
