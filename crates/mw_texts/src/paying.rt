//! Texts that are paid for before they are made: a step for each byte, taken piece by piece.
ghost use Rattle.std.specs.Prelude.{◌≡◌, drop, length};
ghost use Rattle.mw_text.specs.Decode.{head, decoded};
ghost use Rattle.mw_text.specs.References.{nowiki_byte, nowiki_of};
ghost use Rattle.mw_ustrings.specs.MwFramesCosts.{Pays};

use mw_text::decoding::reference;
use mw_text::ends::first_byte;
use mw_text::references::is_markup;
use mw_ustrings::{Left, Stop, pay};

/// How many bytes `decode` makes of a byte and the text behind it; and the text behind what that takes.
fn head_cost(byte: u8, text: &[u8]) -> (u64, &[u8])
    ensures cost { result.0 ≡ length (head byte text.now).0 }
    ensures rest { result.1.now ≡ drop (head byte text.now).1 text.now }
{
    if byte == b'&' {
        if let Some((point, size)) = reference(text) {
            return (point.len_utf8() as u64, &text[size..]);
        }
    }
    (1, text)
}

/// Takes what the text costs that `decode` makes.
pub fn pay_decoded(left: &mut Left, s: &[u8]) -> Result<(), Stop>
    ensures { Pays (length (decoded s.now)) left.old left.new result }
{
    let mut rest = s;
    'bytes: while let Some((byte, behind)) = first_byte(rest) {
        let (cost, more) = head_cost(byte, behind);
        pay(left, cost)?;
        rest = more;
    }
    Ok(())
}

/// How many bytes `nowiki` makes of a byte: a reference has a number of two or three digits between `&#` and `;`.
fn nowiki_cost(byte: u8) -> u64
    ensures { result ≡ length (nowiki_byte byte) }
{
    if !is_markup(byte) {
        return 1;
    }
    if byte < 100 {
        return 5;
    }
    6
}

/// Takes what the text costs that `nowiki` makes.
pub fn pay_nowiki(left: &mut Left, s: &[u8]) -> Result<(), Stop>
    ensures { Pays (length (nowiki_of s.now)) left.old left.new result }
{
    let mut rest = s;
    'bytes: while let Some((byte, behind)) = first_byte(rest) {
        pay(left, nowiki_cost(byte))?;
        rest = behind;
    }
    Ok(())
}
