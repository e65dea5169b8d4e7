//! The code points at both ends of a text, and its first byte.
ghost use Rattle.std.specs.Prelude.{◌≡◌, [], ◌∷◌, reverse, chars, MatchOption};

/// The first code point of a text, and the text behind it.
pub fn first_point(text: &str) -> Option<(char, &str)>
    ensures { MatchOption result (chars text.now ≡ []) (λ p. chars text.now ≡ p.0 ∷ chars p.1.now) }
{
    let mut points = text.chars();
    match points.next() {
        Some(point) => Some((point, points.as_str())),
        None => None,
    }
}

/// The last code point of a text, and the text before it.
pub fn last_point(text: &str) -> Option<(char, &str)>
    ensures { MatchOption result (reverse (chars text.now) ≡ []) (λ p. reverse (chars text.now) ≡ p.0 ∷ reverse (chars p.1.now)) }
{
    let mut points = text.chars();
    match points.next_back() {
        Some(point) => Some((point, points.as_str())),
        None => None,
    }
}

/// The first byte of a text, and the text behind it.
pub fn first_byte(text: &[u8]) -> Option<(u8, &[u8])>
    ensures { MatchOption result (text.now ≡ []) (λ p. text.now ≡ p.0 ∷ p.1.now) }
{
    match text {
        [byte, behind @ ..] => Some((*byte, behind)),
        [] => None,
    }
}
