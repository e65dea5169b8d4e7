//! What a replacement text stands for at a match, put behind a text for a step a byte.
ghost use Rattle.std.specs.Prelude.{◌≡◌, ◌++◌, ◌+◌, ◌<◌, ◌^◌, ◌∷◌, [], ℕ, List as Items, Ok, suc, map, length, IfOk, IsTrue, OnOk, MatchOption};
ghost use Rattle.mw_text.specs.LuaStringReplacements.{text_of, replaced_of};
ghost use Rattle.mw_text.specs.LuaStringDeclaredReplacingCaptureText.{CaptureText};
ghost use Rattle.lua_replacing.specs.LuaMeaningGsub as meaning;
ghost use Rattle.lua_replacing.specs.LuaMeaningIterators.{symbols_before as symbols_before_of};
ghost use Rattle.lua_iterators.specs.MwFramesCosts.{Pays};
ghost use Rattle.lua_replacing.specs.Seen.{stand_seen};
ghost use Rattle.lua_gsubs.specs.Parts.{IsText, IsFilled};

use lua_iterators::symbols::symbols_before;
use lua_iterators::{Left, Stop, pay, span};
use lua_number::NoMemory;
use lua_pattern::{Alphabet, Capture, List};
use lua_replacing::Stand;
use mw_text::ends::first_byte;
use mw_text::{
    LuaStringReplacingCaptureText as CaptureText, lua_string_replacing_replaced as replaced,
    lua_string_replacing_replaced_length as replaced_length, push_all,
};
use std::alloc::Global;

/// Why a text is not replaced.
#[derive(Clone, Copy, Debug, PartialEq, Eq)]
pub enum Halt {
    /// The replacement names a capture that is not there.
    NoCapture,
    /// Fewer steps were left than it costs.
    Spent,
    NoMemory,
}

impl From<NoMemory> for Halt {
    ghost use Rattle.lua_gsubs.specs.declared.filling.Halt.TheVariants as halt;

    ghost from_gives = { λ _ e. e ≡ halt.NoMemory };

    fn from(_error: NoMemory) -> Halt {
        Halt::NoMemory
    }
}

/// The place of a capture, as Lua counts it.
fn place_number<A: Alphabet>(s: &[u8], stand: Stand, place: usize) -> Result<u64, NoMemory>
    ensures { IfOk result (λ n.
        n ≡ suc (symbols_before_of A.letters s.now (stand_seen stand) place)) }
{
    let count = symbols_before::<A>(s, stand.at, stand.before, place)?;
    match count.checked_add(1) {
        Some(place) => Ok(place as u64),
        None => Err(NoMemory),
    }
}

/// The text of a capture.
fn capture_text<'s, A: Alphabet>(
    s: &'s [u8],
    stand: Stand,
    capture: Capture,
) -> Result<CaptureText<'s>, NoMemory>
    ensures { IfOk result (λ c.
        text_of c ≡ meaning.capture_text A.letters s.now (stand_seen stand) capture) }
{
    match capture {
        Capture::Span(from, to) => Ok(CaptureText::Bytes(span(s, from, to))),
        Capture::Place(place) => {
            let number = place_number::<A>(s, stand, place)?;
            Ok(CaptureText::Place(number))
        }
    }
}

/// The first of captures, and those behind it.
fn split_captures(captures: &[Capture]) -> Option<(Capture, &[Capture])>
    ensures { MatchOption result (captures.now ≡ []) (λ p. captures.now ≡ p.0 ∷ p.1.now) }
{
    match captures {
        [capture, more @ ..] => Some((*capture, more)),
        [] => None,
    }
}

/// The texts of captures.
pub fn capture_texts<'s, A: Alphabet>(
    alloc: Global,
    s: &'s [u8],
    stand: Stand,
    captures: &[Capture],
) -> Result<List<CaptureText<'s>>, NoMemory>
    ensures { IfOk result (λ texts.
        map text_of texts
        ≡ map (meaning.capture_text A.letters s.now (stand_seen stand)) captures.now) }
{
    let mut texts = List::new(alloc);
    let mut rest = captures;
    'each: while let Some((capture, more)) = split_captures(rest) {
        let text = capture_text::<A>(s, stand, capture)?;
        texts.push(text)?;
        rest = more;
    }
    Ok(texts)
}

/// Takes two numbers of steps.
fn pay_both(left: &mut Left, first: u64, second: u64) -> Result<(), Stop>
    ensures { Pays (first + second) left.old left.new result }
{
    pay(left, first)?;
    pay(left, second)
}

/// Two texts behind another one. As the second stands in memory, its length is one of 64 bits.
fn put_both(text: &mut Vec<u8>, between: &[u8], made: &[u8]) -> Result<(), NoMemory>
    ensures text { OnOk result (text.new.items ≡ text.old.items ++ (between.now ++ made.now)) }
    ensures fits { length made.now < 2 ^ 64 }
{
    push_all(text, between)?;
    push_all(text, made)
}

/// Whether a replacement has no `%`: then it stands for itself at each match.
fn stands_for_itself(replacement: &[u8]) -> bool
    ensures { IsTrue result → (whole : Items ℕ) (captures : Items CaptureText)
        → replaced_of whole captures replacement.now ≡ Ok replacement.now }
{
    let mut left = replacement;
    'bytes: while let Some((byte, more)) = first_byte(left) {
        if byte == b'%' {
            return false;
        }
        left = more;
    }
    true
}

/// What a replacement stands for at a match, behind the text and what stands between. It is paid for already. One that stands for itself
/// is made nowhere else first.
fn make_filled(
    alloc: Global,
    text: &mut Vec<u8>,
    between: &[u8],
    replacement: &[u8],
    whole: &[u8],
    captures: &[CaptureText],
) -> Result<(), NoMemory>
    ensures { OnOk result (IsText (replaced_of whole.now captures.now replacement.now) between.now
        text.old.items text.new.items) }
{
    if stands_for_itself(replacement) {
        put_both(text, between, replacement)?;
        return Ok(());
    }
    match replaced(alloc, replacement, whole, captures) {
        Err(_) => Err(NoMemory),
        Ok(made) => put_both(text, between, made.as_slice()),
    }
}

/// What a replacement stands for at a match, behind the text and what stands between, for a step a byte.
pub fn put_filled(
    alloc: Global,
    left: &mut Left,
    text: &mut Vec<u8>,
    between: &[u8],
    replacement: &[u8],
    whole: &[u8],
    captures: &[CaptureText],
) -> Result<(), Halt>
    ensures { IsFilled (replaced_of whole.now captures.now replacement.now) between.now
        text.old.items left.old text.new.items left.new result }
{
    match replaced_length(replacement, whole, captures) {
        None => Err(Halt::NoCapture),
        Some(size) => match pay_both(left, between.len() as u64, size) {
            Err(_) => Err(Halt::Spent),
            Ok(_) => {
                make_filled(alloc, text, between, replacement, whole, captures)?;
                Ok(())
            }
        },
    }
}
