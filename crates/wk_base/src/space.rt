//! White space of wikitext: space, tab, line feed, vertical tab, form feed and carriage return.
ghost use Rattle.std.specs.Prelude.{◌≡◌};
ghost use Rattle.wk_base.specs.Space.{is_white, trim_start, trim_end, trim};

/// Whether the byte is white space: what MediaWiki trims, which is ASCII alone (PHP's `trim` and the form feed).
pub fn is_white(byte: u8) -> bool
    ensures { result ≡ is_white byte }
{
    matches!(byte, b' ' | 9..=13)
}

/// The text without the white space at its ends, as arguments with a name and the names of templates and parser
/// functions are taken (MediaWiki, Help:Templates).
pub fn trim(text: &[u8]) -> &[u8]
    ensures { result.now ≡ trim text.now }
{
    trim_end(trim_start(text))
}

/// The text without the white space at its start.
pub fn trim_start(mut text: &[u8]) -> &[u8]
    ensures { result.now ≡ trim_start text.now }
{
    while let [first, rest @ ..] = text
        && is_white(*first)
    {
        text = rest;
    }
    text
}

/// The text without the white space at its end.
pub fn trim_end(mut text: &[u8]) -> &[u8]
    ensures { result.now ≡ trim_end text.now }
{
    while let [rest @ .., last] = text
        && is_white(*last)
    {
        text = rest;
    }
    text
}
