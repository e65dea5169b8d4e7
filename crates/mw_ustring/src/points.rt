//! Lengths, and places of code points in the bytes.
ghost use Rattle.std.specs.Prelude.{◌≡◌, ◌↔◌, ◌≤◌, IsUtf8, IsCharBoundary, IsTrue, MatchOption, chars, length, take, drop};
ghost use Rattle.mw_ustring.specs.Texts.{offset_of};

/// Whether these bytes are UTF-8: `mw.ustring.isutf8(s)`.
pub fn isutf8(s: &[u8]) -> bool
    ensures { IsTrue result ↔ IsUtf8 s.now }
{
    std::str::from_utf8(s).is_ok()
}

/// How many code points these bytes spell, or nothing where they aren't UTF-8: `mw.ustring.len(s)`.
pub fn len(s: &[u8]) -> Option<usize>
    ensures { MatchOption result (IsUtf8 s.now → ⊥) (λ n. IsUtf8 s.now × (n ≡ length (chars s.now))) }
{
    match std::str::from_utf8(s) {
        Ok(text) => Some(text.chars().count()),
        Err(_) => None,
    }
}

/// Bytes in UTF-8 as a text.
pub fn text_of(s: &[u8]) -> &str
    requires text { IsUtf8 s.now }
    ensures { result.now ≡ s.now }
{
    match std::str::from_utf8(s) {
        Ok(text) => text,
        Err(_) => unreachable!(),
    }
}

/// How many code points a text has.
pub(crate) fn count(text: &str) -> usize
    ensures { result ≡ length (chars text.now) }
{
    text.chars().count()
}

/// How many code points a text has.
pub fn count_points(s: &[u8]) -> usize
    requires text { IsUtf8 s.now }
    ensures { result ≡ length (chars s.now) }
{
    count(text_of(s))
}

/// Where the code point with this number begins, from 0, or the end of the text; in bytes.
fn byte_offset(text: &str, index: usize) -> usize
    ensures value { result ≡ offset_of text.now index }
    ensures boundary { IsCharBoundary text.now result }
{
    match text.char_indices().nth(index) {
        Some((offset, _)) => offset,
        None => text.len(),
    }
}

/// How many bytes so many code points take at the head of a text. Where it has fewer, all of its bytes.
pub fn offset(s: &[u8], count: usize) -> usize
    requires text { IsUtf8 s.now }
    ensures value { result ≡ offset_of s.now count }
    ensures boundary { IsCharBoundary s.now result }
{
    byte_offset(text_of(s), count)
}

/// How many code points stand before a byte place at which one begins.
pub fn point_place(s: &[u8], at: usize) -> usize
    requires text { IsUtf8 s.now }
    requires place { IsCharBoundary s.now at }
    ensures { result ≡ length (chars (take at s.now)) }
{
    count_points(&s[..at])
}

/// The text behind so many code points.
pub(crate) fn text_behind(text: &str, count: usize) -> &str
    ensures { chars result.now ≡ drop count (chars text.now) }
{
    &text[byte_offset(text, count)..]
}

/// The text of the first code points, at most so many.
pub(crate) fn text_before(text: &str, count: usize) -> &str
    ensures { chars result.now ≡ take count (chars text.now) }
{
    &text[..byte_offset(text, count)]
}

/// The text behind so many code points.
pub fn points_behind(s: &[u8], count: usize) -> &[u8]
    requires text { IsUtf8 s.now }
    ensures text { IsUtf8 result.now }
    ensures points { chars result.now ≡ drop count (chars s.now) }
{
    text_behind(text_of(s), count).as_bytes()
}

/// The text of the first code points, at most so many.
pub fn first_points(s: &[u8], count: usize) -> &[u8]
    requires text { IsUtf8 s.now }
    ensures text { IsUtf8 result.now }
    ensures points { chars result.now ≡ take count (chars s.now) }
{
    text_before(text_of(s), count).as_bytes()
}
