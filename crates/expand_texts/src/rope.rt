//! A text as pieces in a row (a rope): texts are put together without a byte of them being copied.
ghost use Rattle.std.specs.Prelude.{◌≡◌, ◌≢◌, ◌+◌, ◌++◌, ◌<◌, ◌^◌, [], bytes_eq, length, IfOk, OnOk, MatchOption};
ghost use Rattle.std.specs.Bool.{OnTrue, OnFalse};
ghost use Rattle.wk_base.specs.Space.{trim_start, trim_end, trim};
ghost use Rattle.expand_texts.specs.Ropes.{bytes_of, joined};

use crate::stack::Stack;
use crate::texts::{append, copied};
use std::alloc::Global;
use std::marker::Model;
use wk_base::{NoMemory, space};

/// Bytes of a page, or bytes that were made here.
#[derive(Drop)]
pub enum Piece<'w> {
    Borrowed(&'w [u8]),
    Owned(Vec<u8>),
}

/// A text as pieces in a row.
#[derive(Drop)]
pub struct Rope<'w> {
    pieces: Vec<Piece<'w>>,
}

impl<'w> Model for Rope<'w> {
    ghost use Rattle.std.specs.Prelude.{List, ℕ};
    ghost use Rattle.expand_texts.specs.Ropes.{joined};

    ghost Value = { List ℕ };

    ghost view = { λ r. joined r.pieces.items };
}

impl<'w> Piece<'w> {
    pub fn as_slice(&self) -> &[u8]
        ensures { result.now ≡ bytes_of self.now }
    {
        match self {
            Piece::Borrowed(bytes) => bytes,
            Piece::Owned(bytes) => bytes.as_slice(),
        }
    }

    /// The same bytes; those of a page are not copied.
    pub fn copy(&self, alloc: Global) -> Result<Piece<'w>, NoMemory>
        ensures { IfOk result (λ piece. bytes_of piece ≡ bytes_of self.now) }
    {
        match self {
            Piece::Borrowed(bytes) => Ok(Piece::Borrowed(bytes)),
            Piece::Owned(bytes) => {
                let bytes = copied(alloc, bytes.as_slice())?;
                Ok(Piece::Owned(bytes))
            }
        }
    }

    fn is_empty(&self) -> bool
        ensures empty { OnTrue result (bytes_of self.now ≡ []) }
        ensures filled { OnFalse result (bytes_of self.now ≢ []) }
    {
        matches!(self.as_slice(), [])
    }

    fn trim_start(self, alloc: Global) -> Result<Piece<'w>, NoMemory>
        ensures { IfOk result (λ piece. bytes_of piece ≡ trim_start (bytes_of self.entry)) }
    {
        match self {
            Piece::Borrowed(bytes) => Ok(Piece::Borrowed(space::trim_start(bytes))),
            Piece::Owned(bytes) => {
                let bytes = copied(alloc, space::trim_start(&bytes))?;
                Ok(Piece::Owned(bytes))
            }
        }
    }

    fn trim_end(self, alloc: Global) -> Result<Piece<'w>, NoMemory>
        ensures { IfOk result (λ piece. bytes_of piece ≡ trim_end (bytes_of self.entry)) }
    {
        match self {
            Piece::Borrowed(bytes) => Ok(Piece::Borrowed(space::trim_end(bytes))),
            Piece::Owned(bytes) => {
                let bytes = copied(alloc, space::trim_end(&bytes))?;
                Ok(Piece::Owned(bytes))
            }
        }
    }
}

impl<'w> Rope<'w> {
    /// The empty text.
    pub fn new(alloc: Global) -> Rope<'w>
        ensures { result ≡ [] }
    {
        Rope {
            pieces: Vec::new(alloc),
        }
    }

    /// A text of one piece.
    pub fn of(alloc: Global, piece: Piece<'w>) -> Result<Rope<'w>, NoMemory>
        ensures { IfOk result (λ rope. rope ≡ bytes_of piece.entry) }
    {
        let mut rope = Rope::new(alloc);
        rope.push(piece)?;
        Ok(rope)
    }

    /// A piece behind the text.
    #[tactic(auto, using(crate::proofs::RopeLaws::joined_push))]
    pub fn push(&mut self, piece: Piece<'w>) -> Result<(), NoMemory>
        ensures { OnOk result (self.new ≡ self.old ++ bytes_of piece.entry) }
    {
        match self.pieces.push(piece) {
            Ok(_) => Ok(()),
            Err(_) => Err(NoMemory),
        }
    }

    /// Another text behind the text: its pieces move.
    #[tactic(auto, using(crate::proofs::RopeLaws::joined_append))]
    pub fn append(&mut self, other: Rope<'w>) -> Result<(), NoMemory>
        ensures { OnOk result (self.new ≡ self.old ++ other.entry) }
    {
        let mut pieces = other.pieces;
        match self.pieces.append(&mut pieces) {
            Ok(_) => Ok(()),
            Err(_) => Err(NoMemory),
        }
    }

    /// What is left of so many bytes when the text takes its length, if there are as many.
    pub fn left_of(&self, bytes: u64) -> Option<u64>
        ensures { MatchOption result (bytes < length self.now) (λ rest. rest + length self.now ≡ bytes) }
    {
        left_of(self.pieces.as_slice(), bytes)
    }

    /// Whether the text is this one.
    pub fn is(&self, text: &[u8]) -> bool
        ensures { result ≡ bytes_eq self.now text.now }
    {
        is(self.pieces.as_slice(), text)
    }

    /// The text as one piece: the only one, or a new one.
    pub fn into_piece(self, alloc: Global) -> Result<Piece<'w>, NoMemory>
        ensures { IfOk result (λ piece. bytes_of piece ≡ self.entry) }
    {
        let mut pieces = self.pieces;
        if pieces.len() == 1
            && let Some(only) = pieces.pop()
        {
            return Ok(only);
        }
        let mut bytes = Vec::new(alloc);
        append_pieces(&mut bytes, pieces.as_slice())?;
        Ok(Piece::Owned(bytes))
    }

    /// The bytes of the text.
    pub fn into_vec(self, alloc: Global) -> Result<Vec<u8>, NoMemory>
        ensures { IfOk result (λ bytes. bytes.items ≡ self.entry) }
    {
        match self.into_piece(alloc)? {
            Piece::Borrowed(bytes) => copied(alloc, bytes),
            Piece::Owned(bytes) => Ok(bytes),
        }
    }

    /// The text without the white space at its ends: no more than the pieces at the ends are copied.
    pub fn trimmed(self, alloc: Global) -> Result<Rope<'w>, NoMemory>
        ensures { IfOk result (λ rope. rope ≡ trim self.entry) }
    {
        let mut pieces = Stack::of_vec(self.pieces);
        trim_front(alloc, &mut pieces)?;
        let mut pieces = pieces.into_vec();
        trim_back(alloc, &mut pieces)?;
        Ok(Rope { pieces })
    }
}

/// What is left of so many bytes when the pieces take their lengths.
fn left_of(mut pieces: &[Piece<'_>], bytes: u64) -> Option<u64>
    ensures { MatchOption result (bytes < length (joined pieces.now)) (λ rest. rest + length (joined pieces.now) ≡ bytes) }
{
    let mut rest = bytes;
    while let [first, others @ ..] = pieces {
        match rest.checked_sub(first.as_slice().len() as u64) {
            Some(fewer) => rest = fewer,
            None => return None,
        }
        pieces = others;
    }
    Some(rest)
}

/// Whether the pieces make this text.
#[tactic(auto, using(crate::proofs::RopeLaws::same_front, crate::proofs::RopeLaws::other_front))]
fn is(mut pieces: &[Piece<'_>], mut text: &[u8]) -> bool
    ensures { result ≡ bytes_eq (joined pieces.now) text.now }
{
    while let [first, others @ ..] = pieces {
        match text.strip_prefix(first.as_slice()) {
            Some(rest) => text = rest,
            None => return false,
        }
        pieces = others;
    }
    text.is_empty()
}

/// The bytes of pieces behind others.
fn append_pieces(out: &mut Vec<u8>, mut pieces: &[Piece<'_>]) -> Result<(), NoMemory>
    ensures { OnOk result (out.new.items ≡ out.old.items ++ joined pieces.now) }
{
    while let [first, others @ ..] = pieces {
        append(out, first.as_slice())?;
        pieces = others;
    }
    Ok(())
}

/// Pieces without the white space at their start.
#[tactic(auto, using(crate::proofs::RopeLaws::white_front, crate::proofs::RopeLaws::solid_front))]
fn trim_front(alloc: Global, pieces: &mut Stack<Piece<'_>>) -> Result<(), NoMemory>
    ensures { OnOk result (joined pieces.new ≡ trim_start (joined pieces.old)) }
{
    while let Some(first) = pieces.pop() {
        let first = first.trim_start(alloc)?;
        if !first.is_empty() {
            pieces.push(first)?;
            return Ok(());
        }
    }
    Ok(())
}

/// Pieces without the white space at their end.
#[tactic(auto, using(crate::proofs::RopeLaws::white_last, crate::proofs::RopeLaws::solid_last))]
fn trim_back(alloc: Global, pieces: &mut Vec<Piece<'_>>) -> Result<(), NoMemory>
    ensures { OnOk result (joined pieces.new.items ≡ trim_end (joined pieces.old.items)) }
{
    while let Some(last) = pieces.pop() {
        let last = last.trim_end(alloc)?;
        if !last.is_empty() {
            return put_back(pieces, last);
        }
    }
    Ok(())
}

fn put_back<'w>(pieces: &mut Vec<Piece<'w>>, last: Piece<'w>) -> Result<(), NoMemory>
    ensures { OnOk result (joined pieces.new.items ≡ joined pieces.old.items ++ bytes_of last.entry) }
{
    match pieces.push(last) {
        Ok(_) => Ok(()),
        Err(_) => Err(NoMemory),
    }
}
