//! Character references: `encode`, within a budget of steps, and `nowiki` (Scribunto manual, Text library).
ghost use Rattle.std.specs.Prelude.{◌≡◌, ◌++◌, length, chars, IsUtf8, IfOk, OnOk, MatchResult};
ghost use Rattle.std.specs.Char.{encode_utf8};
ghost use Rattle.std.specs.Option.{option_map};
ghost use Rattle.mw_text.specs.Sets.{chosen_set, member, IsChoiceFault};
ghost use Rattle.mw_text.specs.Answers.{IsText};
ghost use Rattle.mw_text.specs.References.{numbered, referred, is_special, encoded_point, encoded, IsEncoded, is_markup as is_markup_lem, nowiki_byte, nowiki_of};

use crate::answers::TextAnswer;
use crate::ends::first_point;
use crate::sets::{is_encoded, read_choice};
use itoa::Buffer;
use mw_ustring::{NoMemory, PatternFault, PreparedSet, push_all, text_of};
use std::alloc::Global;

/// Adds a code point.
pub fn put_point(made: &mut Vec<u8>, point: char) -> Result<(), NoMemory>
    ensures { OnOk result (made.new.items ≡ made.old.items ++ encode_utf8 point) }
{
    let mut buffer = [0u8; 4];
    push_all(made, point.encode_utf8(&mut buffer).as_bytes())
}

/// Adds a reference by number.
#[tactic(auto, unfolding(crate::specs::References::numbered))]
fn put_number(made: &mut Vec<u8>, code: u32) -> Result<(), NoMemory>
    ensures { OnOk result (made.new.items ≡ made.old.items ++ numbered code) }
{
    let mut buffer = Buffer::new();
    push_all(made, b"&#")?;
    push_all(made, buffer.format(code).as_bytes())?;
    push_all(made, b";")
}

/// Adds a reference: by name, where the code point has one.
fn put_reference(made: &mut Vec<u8>, point: char) -> Result<(), NoMemory>
    ensures { OnOk result (made.new.items ≡ made.old.items ++ referred point) }
{
    match point {
        '&' => push_all(made, b"&amp;"),
        '<' => push_all(made, b"&lt;"),
        '>' => push_all(made, b"&gt;"),
        '"' => push_all(made, b"&quot;"),
        '\u{A0}' => push_all(made, b"&nbsp;"),
        _ => put_number(made, point as u32),
    }
}

fn put_encoded(made: &mut Vec<u8>, set: &Option<PreparedSet>, point: char) -> Result<(), NoMemory>
    ensures { OnOk result (made.new.items ≡ made.old.items ++ encoded_point (member is_special set.now) point) }
{
    if is_encoded(set, point) {
        return put_reference(made, point);
    }
    put_point(made, point)
}

fn encode_points(
    alloc: Global,
    text: &str,
    set: &Option<PreparedSet>,
    budget: u64,
) -> Result<TextAnswer, NoMemory>
    ensures { IfOk result (λ given. IsText budget (length (chars text.now)) (encoded (member is_special set.now) (chars text.now)) given) }
{
    let mut made = Vec::new(alloc);
    let mut left = budget;
    let mut rest = text;
    'points: while let Some((point, behind)) = first_point(rest) {
        let before = made.len();
        put_encoded(&mut made, set, point)?;
        let size = (made.len() - before) as u64;
        if left <= size {
            return Ok(TextAnswer::Spent);
        }
        left -= size + 1;
        rest = behind;
    }
    let tries = budget - left - made.len() as u64;
    Ok(TextAnswer::Text(made, tries))
}

/// `mw.text.encode(s, set)`: each code point of the set as a character reference. `set` is what stands between `[` and `]`
/// in a pattern; without it these are `&`, `<`, `>`, `"`, `'` and U+00A0.
///
/// It is `Spent` exactly where the number of code points, one try for each, and the bytes of the answer together exceed the
/// budget. The fault is that of the set, whatever the budget is.
pub fn encode(
    alloc: Global,
    s: &[u8],
    set: Option<&[u8]>,
    budget: u64,
) -> Result<TextAnswer, PatternFault>
    requires text { IsUtf8 s.now }
    ensures { MatchResult result (λ made. IsEncoded budget s.now (chosen_set (option_map (λ t. t.now) set.entry)) made) (λ e. IsChoiceFault (chosen_set (option_map (λ t. t.now) set.entry)) e) }
{
    let set = match read_choice(alloc, set) {
        Ok(set) => set,
        Err(fault) => return Err(fault),
    };
    match encode_points(alloc, text_of(s), &set, budget) {
        Ok(given) => Ok(given),
        Err(_) => Err(PatternFault::NoMemory),
    }
}

/// Whether wikitext would read a byte as markup.
pub fn is_markup(byte: u8) -> bool
    ensures { result ≡ is_markup_lem byte }
{
    byte == b'"'
        || byte == b'&'
        || byte == b'\''
        || byte == b'<'
        || byte == b'='
        || byte == b'>'
        || byte == b'['
        || byte == b']'
        || byte == b'{'
        || byte == b'|'
        || byte == b'}'
}

fn put_plain(made: &mut Vec<u8>, byte: u8) -> Result<(), NoMemory>
    ensures { OnOk result (made.new.items ≡ made.old.items ++ nowiki_byte byte) }
{
    if is_markup(byte) {
        return put_number(made, byte as u32);
    }
    push_all(made, &[byte])
}

/// `mw.text.nowiki(s)`: each of `"`, `&`, `'`, `<`, `=`, `>`, `[`, `]`, `{`, `|` and `}` as a reference by number.
pub fn nowiki(alloc: Global, s: &[u8]) -> Result<Vec<u8>, NoMemory>
    ensures { IfOk result (λ made. made.items ≡ nowiki_of s.now) }
{
    let mut made = Vec::new(alloc);
    let mut rest = s;
    'bytes: while let [byte, behind @ ..] = rest {
        put_plain(&mut made, *byte)?;
        rest = behind;
    }
    Ok(made)
}
