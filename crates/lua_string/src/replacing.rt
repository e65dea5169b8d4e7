//! What a replacement text of `gsub` stands for (Lua 5.1 manual, 5.4, string.gsub).
ghost use Rattle.std.specs.Prelude.{◌≡◌, ◌++◌, ◌<◌, length, Ok, Err, IfSome, OnOk, MatchResult, MatchOption};
ghost use Rattle.lua_string.specs.Texts.{saturated};
ghost use Rattle.lua_string.specs.Replacements.{text_of, capture_text, behind_percent, replaced_of, put, IsReplacedFault, HasLength};
ghost use Rattle.lua_string.specs.Heads.{head_text};

use crate::text::push_all;
use itoa::Buffer;
use lua_number::NoMemory;
use lua_pattern::PatternFault;
use std::alloc::Global;

/// A capture of a match: its bytes, or a place as Lua counts it.
#[derive(Clone, Copy, Debug)]
pub enum CaptureText<'s> {
    Bytes(&'s [u8]),
    Place(u64),
}

/// The text of a capture by its number from 0 to 9, if it is there.
fn capture<'s>(
    whole: &'s [u8],
    captures: &'s [CaptureText<'s>],
    number: usize,
) -> Option<CaptureText<'s>>
    ensures { MatchOption result (capture_text whole.now captures.now number ≡ Err 7) (λ c. capture_text whole.now captures.now number ≡ Ok (text_of c)) }
{
    if number == 0 {
        return Some(CaptureText::Bytes(whole));
    }
    if number == 1 && captures.is_empty() {
        return Some(CaptureText::Bytes(whole));
    }
    match captures.get(number - 1) {
        Some(found) => Some(*found),
        None => None,
    }
}

/// What stands at the head of a replacement text: one byte, or a capture behind `%`, and the text behind it.
#[derive(Clone, Copy, Debug)]
enum Head<'s> {
    Byte(u8),
    Capture(CaptureText<'s>),
}

fn behind<'s>(whole: &'s [u8], captures: &'s [CaptureText<'s>], byte: u8) -> Option<Head<'s>>
    ensures { MatchOption result (behind_percent whole.now captures.now byte ≡ Err 7) (λ h. behind_percent whole.now captures.now byte ≡ Ok (head_text h)) }
{
    match byte {
        b'0'..=b'9' => match capture(whole, captures, (byte - b'0') as usize) {
            Some(found) => Some(Head::Capture(found)),
            None => None,
        },
        _ => Some(Head::Byte(byte)),
    }
}

fn read_head<'s, 't>(
    whole: &'s [u8],
    captures: &'s [CaptureText<'s>],
    text: &'t [u8],
) -> Option<(Head<'s>, &'t [u8])>
    requires { 0 < length text.now }
    ensures head { MatchOption result (replaced_of whole.now captures.now text.now ≡ Err 7) (λ p. replaced_of whole.now captures.now text.now ≡ put (Ok (head_text p.0)) (replaced_of whole.now captures.now p.1.now)) }
    ensures short { IfSome result (λ p. length p.1.now < length text.now) }
{
    match text {
        [b'%', byte, rest @ ..] => match behind(whole, captures, *byte) {
            Some(head) => Some((head, rest)),
            None => None,
        },
        [byte, rest @ ..] => Some((Head::Byte(*byte), rest)),
        [] => unreachable!(),
    }
}

impl<'s> Head<'s> {
    fn write(self, out: &mut Vec<u8>) -> Result<(), NoMemory>
        ensures { OnOk result (out.new.items ≡ out.old.items ++ head_text self.entry) }
    {
        match self {
            Head::Byte(byte) => push_all(out, &[byte]),
            Head::Capture(CaptureText::Bytes(text)) => push_all(out, text),
            Head::Capture(CaptureText::Place(n)) => {
                let mut buffer = Buffer::new();
                push_all(out, buffer.format(n).as_bytes())
            }
        }
    }

    fn len(self) -> u64
        ensures { result ≡ length (head_text self.entry) }
    {
        match self {
            Head::Byte(_) => 1,
            Head::Capture(CaptureText::Bytes(text)) => text.len() as u64,
            Head::Capture(CaptureText::Place(n)) => {
                let mut buffer = Buffer::new();
                buffer.format(n).len() as u64
            }
        }
    }
}

/// What a replacement text stands for at a match, whose bytes are `whole`. A capture that is not there is fault 7.
#[tactic(auto, using(crate::proofs::HeadLemmas::heads_done, crate::proofs::HeadLemmas::heads_more, crate::proofs::HeadLemmas::heads_fault))]
pub fn replaced<'s>(
    alloc: Global,
    replacement: &'s [u8],
    whole: &'s [u8],
    captures: &'s [CaptureText<'s>],
) -> Result<Vec<u8>, PatternFault>
    ensures { MatchResult result (λ made. replaced_of whole.now captures.now replacement.now ≡ Ok made.items) (λ e. IsReplacedFault (replaced_of whole.now captures.now replacement.now) e) }
{
    let mut made = Vec::new(alloc);
    let mut rest = replacement;
    'heads: while !rest.is_empty() {
        let Some((head, behind)) = read_head(whole, captures, rest) else {
            return Err(PatternFault::At(7));
        };
        match head.write(&mut made) {
            Ok(_) => rest = behind,
            Err(_) => return Err(PatternFault::NoMemory),
        }
    }
    Ok(made)
}

/// How many bytes `replaced` gives, without making them; the greatest number where they are more, and None where it has a
/// fault.
#[tactic(auto, using(crate::proofs::HeadLemmas::length_done, crate::proofs::HeadLemmas::length_more, crate::proofs::HeadLemmas::length_fault))]
pub fn replaced_length<'s>(
    replacement: &'s [u8],
    whole: &'s [u8],
    captures: &'s [CaptureText<'s>],
) -> Option<u64>
    ensures { MatchOption result (replaced_of whole.now captures.now replacement.now ≡ Err 7) (λ n. HasLength (replaced_of whole.now captures.now replacement.now) n) }
{
    let mut len: u64 = 0;
    let mut rest = replacement;
    'heads: while !rest.is_empty() {
        let Some((head, behind)) = read_head(whole, captures, rest) else {
            return None;
        };
        len = len.saturating_add(head.len());
        rest = behind;
    }
    Some(len)
}
