//! Kinds of bytes, and runs of them.
ghost use Rattle.std.specs.Prelude.{◌≡◌, ◌<◌, ◌≤◌, length, not};
ghost use Rattle.std.specs.List.{prefix_len};
ghost use Rattle.lua_syntax.specs.WkBaseSpace.{is_white};
ghost use Rattle.lua_lexer.specs.Lexis.{at, is_break, is_digit, is_letter, is_name_byte, is_number_byte, is_quote, is_equals};

/// The byte k places on, and 256 behind the last.
pub fn at(text: &[u8], k: usize) -> u16
    ensures value { result ≡ at text.now k }
    ensures bound { result ≤ 256 }
    ensures there { result < 256 → k < length text.now }
{
    if k < text.len() {
        u16::from(text[k])
    } else {
        256
    }
}

/// The byte k places on.
pub fn byte(text: &[u8], k: usize) -> u8
    requires { k < length text.now }
    ensures { result ≡ at text.now k }
{
    text[k]
}

pub fn is_white(c: u16) -> bool
    ensures { result ≡ is_white c }
{
    c == 32 || (9 <= c && c <= 13)
}

pub fn is_break(c: u16) -> bool
    ensures { result ≡ is_break c }
{
    c == 10 || c == 13
}

pub fn is_digit(c: u16) -> bool
    ensures { result ≡ is_digit c }
{
    48 <= c && c <= 57
}

pub fn is_letter(c: u16) -> bool
    ensures { result ≡ is_letter c }
{
    (97 <= c && c <= 122) || ((65 <= c && c <= 90) || c == 95)
}

pub fn is_name_byte(c: u16) -> bool
    ensures { result ≡ is_name_byte c }
{
    is_letter(c) || is_digit(c)
}

pub fn is_number_byte(c: u16) -> bool
    ensures { result ≡ is_number_byte c }
{
    is_digit(c) || c == 46
}

pub fn is_quote(c: u16) -> bool
    ensures { result ≡ is_quote c }
{
    c == 34 || c == 39
}

pub fn space_run(text: &[u8]) -> usize
    ensures size { result ≡ prefix_len is_white text.now }
    ensures inside { result ≤ length text.now }
{
    let mut n = 0;
    for c in text {
        if !is_white(u16::from(*c)) {
            return n;
        }
        n += 1;
    }
    n
}

pub fn name_run(text: &[u8]) -> usize
    ensures size { result ≡ prefix_len is_name_byte text.now }
    ensures inside { result ≤ length text.now }
{
    let mut n = 0;
    for c in text {
        if !is_name_byte(u16::from(*c)) {
            return n;
        }
        n += 1;
    }
    n
}

pub fn number_run(text: &[u8]) -> usize
    ensures size { result ≡ prefix_len is_number_byte text.now }
    ensures inside { result ≤ length text.now }
{
    let mut n = 0;
    for c in text {
        if !is_number_byte(u16::from(*c)) {
            return n;
        }
        n += 1;
    }
    n
}

pub fn equals_run(text: &[u8]) -> usize
    ensures size { result ≡ prefix_len is_equals text.now }
    ensures inside { result ≤ length text.now }
{
    let mut n = 0;
    for c in text {
        if *c != b'=' {
            return n;
        }
        n += 1;
    }
    n
}

pub fn line_run(text: &[u8]) -> usize
    ensures size { result ≡ prefix_len (λ c. not (is_break c)) text.now }
    ensures inside { result ≤ length text.now }
{
    let mut n = 0;
    for c in text {
        if is_break(u16::from(*c)) {
            return n;
        }
        n += 1;
    }
    n
}
