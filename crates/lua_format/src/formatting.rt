//! The whole format.
ghost use Rattle.std.specs.Prelude.{◌≡◌, ◌≤◌, ◌<◌, ◌+◌, ℕ, List, length, take, drop, IfOk, ◌∷◌, MatchResult, Ok, Err};
ghost use Rattle.lua_format.specs.declared.value.FormatValue.{FormatValue as Value};
ghost use Rattle.lua_format.specs.Format.{formatted, put, is_percent as is_percent_lem, IsFault, HasLength};
ghost use Rattle.lua_format.specs.Pieces.{piece_bytes};
ghost use Rattle.lua_format.specs.Lengths.{saturated};

use crate::convert::item;
use crate::directive::{Conversion, read_directive};
use crate::layout::{Content, Layout, Piece, Source, first_byte};
use crate::value::{FormatFault, FormatValue};
use std::alloc::Global;

/// A piece, and what stands behind it: the rest of the format, and the place of the next value.
#[derive(Drop)]
struct Step<'t> {
    piece: Piece<'t>,
    rest: &'t [u8],
    at: usize,
}

fn is_percent(conversion: Conversion) -> bool
    ensures { result ≡ is_percent_lem conversion }
{
    match conversion {
        Conversion::Percent => true,
        _ => false,
    }
}

/// How many bytes stand before the first `%`.
fn plain_len(text: &[u8]) -> usize
    ensures plain { (values : List Value) (at : ℕ) → formatted values text.now at ≡ put (take result text.now) (formatted values (drop result text.now) at) }
    ensures within { result ≤ length text.now }
{
    let mut count: usize = 0;
    let mut rest = text;
    'bytes: loop {
        let Some((byte, behind)) = first_byte(rest) else {
            return count;
        };
        if byte == b'%' {
            return count;
        }
        count += 1;
        rest = behind;
    }
}

/// Bytes as they stand.
fn plain_piece(bytes: &[u8]) -> Piece<'_>
    ensures { piece_bytes result ≡ bytes.now }
{
    Piece::Laid(Layout {
        before: 0,
        content: Content::of(Source::Given(bytes)),
        after: 0,
    })
}

/// What the directive behind a `%` writes.
#[tactic(auto, using(crate::proofs::Formats::bad_option, crate::proofs::Formats::percent_piece, crate::proofs::Formats::item_fault, crate::proofs::Formats::item_text))]
fn directive_step<'t>(
    behind: &'t [u8],
    values: &'t [FormatValue],
    at: usize,
) -> Result<Step<'t>, FormatFault>
    requires room { at + length behind.now < usize.MAX }
    ensures step { MatchResult result (λ s. formatted values.now (37 ∷ behind.now) at ≡ put (piece_bytes s.piece) (formatted values.now s.rest.now s.at)) (λ e. formatted values.now (37 ∷ behind.now) at ≡ Err e) }
    ensures shorter { IfOk result (λ s. (length s.rest.now < length behind.now) × (s.at + length s.rest.now ≤ at + length behind.now)) }
{
    let Some((directive, rest)) = read_directive(behind) else {
        return Err(FormatFault::BadOption);
    };
    if is_percent(directive.conversion) {
        let piece = plain_piece(b"%");
        return Ok(Step { piece, rest, at });
    }
    match item(&directive, values, at) {
        Err(fault) => Err(fault),
        Ok(piece) => Ok(Step {
            piece,
            rest,
            at: at + 1,
        }),
    }
}

/// What stands at the head of a format: bytes up to the first `%`, or what the directive there writes.
#[tactic(auto, using(crate::proofs::Formats::run_text))]
fn take_step<'t>(
    text: &'t [u8],
    values: &'t [FormatValue],
    at: usize,
) -> Result<Step<'t>, FormatFault>
    requires more { 0 < length text.now }
    requires room { at + length text.now ≤ usize.MAX }
    ensures step { MatchResult result (λ s. formatted values.now text.now at ≡ put (piece_bytes s.piece) (formatted values.now s.rest.now s.at)) (λ e. formatted values.now text.now at ≡ Err e) }
    ensures shorter { IfOk result (λ s. (length s.rest.now < length text.now) × (s.at + length s.rest.now ≤ at + length text.now)) }
{
    let Some((byte, behind)) = first_byte(text) else {
        unreachable!()
    };
    if byte == b'%' {
        return match directive_step(behind, values, at) {
            Ok(step) => Ok(step),
            Err(fault) => Err(fault),
        };
    }
    let (run, rest) = text.split_at(1 + plain_len(behind));
    let piece = plain_piece(run);
    Ok(Step { piece, rest, at })
}

/// The bytes that `string.format` gives, or the first fault in the order of the format (Lua 5.1 manual, 5.4). Values
/// that no directive takes are not looked at.
#[tactic(auto, using(crate::proofs::Formats::put_done))]
pub fn format(alloc: Global, spec: &[u8], values: &[FormatValue]) -> Result<Vec<u8>, FormatFault>
    ensures { MatchResult result (λ made. formatted values.now spec.now 0 ≡ Ok made.items) (λ e. IsFault (formatted values.now spec.now 0) e) }
{
    let mut made = Vec::new(alloc);
    let mut rest = spec;
    let mut at: usize = 0;
    'pieces: while !rest.is_empty() {
        match take_step(rest, values, at) {
            Err(fault) => return Err(fault),
            Ok(next) => {
                let Step {
                    piece,
                    rest: behind,
                    at: later,
                } = next;
                match piece.write(&mut made) {
                    Ok(_) => {}
                    Err(_) => return Err(FormatFault::NoMemory),
                }
                rest = behind;
                at = later;
            }
        }
    }
    Ok(made)
}

/// How many bytes `format` gives, without making them; the greatest number where they are more.
#[tactic(auto, using(crate::proofs::Formats::length_done, crate::proofs::Formats::length_more))]
pub fn format_length(spec: &[u8], values: &[FormatValue]) -> Result<u64, FormatFault>
    ensures { MatchResult result (λ n. HasLength (formatted values.now spec.now 0) n) (λ e. formatted values.now spec.now 0 ≡ Err e) }
{
    let mut len: u64 = 0;
    let mut rest = spec;
    let mut at: usize = 0;
    'pieces: while !rest.is_empty() {
        match take_step(rest, values, at) {
            Err(fault) => return Err(fault),
            Ok(next) => {
                let Step {
                    piece,
                    rest: behind,
                    at: later,
                } = next;
                len = len.saturating_add(piece.len());
                rest = behind;
                at = later;
            }
        }
    }
    Ok(len)
}
