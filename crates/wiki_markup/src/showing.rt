//! What is shown of a text: one scan that writes as it goes.
ghost use Rattle.std.specs.Prelude.{◌≡◌, ◌≤◌, ◌<◌, ◌+◌, suc, false, true, List, [], length, drop, cond, IfOk, OnOk};
ghost use Rattle.wiki_markup.specs.Shown.{Piece, KeptPiece, PlainPiece, Cut, piece_of, pieces, parts as parts_lem, has_parts as has_parts_lem, pieces_of, shown_of};
ghost use Rattle.wiki_markup.specs.Places.{result_at, place_of, put_piece, put_pieces};
ghost use Rattle.wiki_markup.specs.Order.{Ordered, Rising};

use crate::literals::last_ends;
use crate::marked::{Mode, ShownText, Span};
use crate::rules::{Ruling, at_place};
use crate::tags::{Name, find_closing, next_opening};
use std::alloc::Global;
use std::marker::Model;
use wk_base::{Bytes, List, NoMemory};

/// What is shown so far.
#[derive(Drop)]
struct Showing {
    bytes: Vec<u8>,
    literals: Vec<Span>,
    cuts: Vec<usize>,
}

impl Model for Showing {
    ghost use Rattle.wiki_markup.specs.declared.marked.ShownText.{ShownText};

    ghost Value = { ShownText };

    ghost view = { λ s. record { bytes = s.bytes.items; literals = s.literals.items; cuts = s.cuts.items } };
}

impl Showing {
    fn new(alloc: Global) -> Showing
        ensures { result ≡ record { bytes = []; literals = []; cuts = [] } }
    {
        Showing {
            bytes: Vec::new(alloc),
            literals: Vec::new(alloc),
            cuts: Vec::new(alloc),
        }
    }

    fn into_shown(self) -> ShownText
        ensures { result ≡ self }
    {
        ShownText {
            bytes: Bytes::of_vec(self.bytes),
            literals: List::of_vec(self.literals),
            cuts: List::of_vec(self.cuts),
        }
    }

    /// Shows bytes as they are.
    fn copy(&mut self, piece: &[u8]) -> Result<(), NoMemory>
        ensures { OnOk result (self.new ≡ put_piece (PlainPiece piece.now) self.old) }
    {
        match self.bytes.extend_from_slice(piece) {
            Ok(_) => Ok(()),
            Err(_) => Err(NoMemory),
        }
    }

    /// Shows bytes in which nothing is a mark.
    fn keep(&mut self, piece: &[u8]) -> Result<(), NoMemory>
        ensures { OnOk result (self.new ≡ put_piece (KeptPiece piece.now) self.old) }
    {
        let start = self.bytes.len();
        match self.bytes.extend_from_slice(piece) {
            Ok(_) => {}
            Err(_) => return Err(NoMemory),
        }
        let end = self.bytes.len();
        match self.literals.push(Span { start, end }) {
            Ok(_) => Ok(()),
            Err(_) => Err(NoMemory),
        }
    }

    /// Something was removed here.
    fn cut(&mut self) -> Result<(), NoMemory>
        ensures { OnOk result (self.new ≡ put_piece Cut self.old) }
    {
        match self.cuts.push(self.bytes.len()) {
            Ok(_) => Ok(()),
            Err(_) => Err(NoMemory),
        }
    }

    /// The piece that a rule gave at a place. The answer is the place behind it.
    fn put(&mut self, text: &[u8], at: usize, taken: Ruling) -> Result<usize, NoMemory>
        requires ahead { at < place_of taken }
        requires inside { place_of taken ≤ length text.now }
        ensures put { OnOk result (self.new
            ≡ put_piece (piece_of (drop at text.now) (result_at text.now taken)) self.old) }
        ensures place { IfOk result (λ p. p ≡ place_of taken) }
    {
        match taken {
            Ruling::Kept(p) => {
                self.keep(&text[at..p])?;
                Ok(p)
            }
            Ruling::Plain(p) => {
                self.copy(&text[at..p])?;
                Ok(p)
            }
            Ruling::Removed(p) => {
                self.cut()?;
                Ok(p)
            }
        }
    }

    /// The pieces of a text. `part` says whether it is a part between `onlyinclude` tags.
    fn show_pieces(&mut self, text: &[u8], mode: Mode, part: bool) -> Result<(), NoMemory>
        ensures { OnOk result (self.new ≡ put_pieces (pieces mode part 0 false text.now) self.old) }
    {
        let ends = last_ends(text);
        let mut line = false;
        let mut at = 0;
        while at < text.len() {
            let taken = at_place(text, &ends, mode, part, line, at);
            at = self.put(text, at, taken)?;
            line = text[at - 1] == b'\n';
        }
        Ok(())
    }

    /// The parts between `onlyinclude` tags.
    fn show_parts(&mut self, text: &[u8], mode: Mode) -> Result<(), NoMemory>
        ensures { OnOk result (self.new
            ≡ put_pieces (parts_lem mode (suc (length text.now)) text.now) self.old) }
    {
        let mut at = 0;
        'parts: loop {
            self.cut()?;
            let Some(from) = next_opening(text, at, Name::Onlyinclude) else {
                return Ok(());
            };
            let Some(tag) = find_closing(text, from, Name::Onlyinclude) else {
                self.show_pieces(&text[from..], mode, true)?;
                return Ok(());
            };
            self.show_pieces(&text[from..tag.start], mode, true)?;
            at = tag.end;
        }
    }

    /// A whole text.
    #[tactic(auto, unfolding(crate::specs::Shown::pieces_of))]
    fn show(&mut self, text: &[u8], mode: Mode) -> Result<(), NoMemory>
        ensures { OnOk result (self.new ≡ put_pieces (pieces_of mode text.now) self.old) }
    {
        if has_parts(text, mode) {
            return self.show_parts(text, mode);
        }
        self.show_pieces(text, mode, false)
    }
}

/// Whether only what stands between `onlyinclude` tags counts.
#[tactic(auto, unfolding(crate::specs::Shown::has_parts))]
fn has_parts(text: &[u8], mode: Mode) -> bool
    ensures { result ≡ has_parts_lem mode text.now }
{
    match mode {
        Mode::Direct => false,
        Mode::Transcluded => {
            let opened = next_opening(text, 0, Name::Onlyinclude);
            let closed = find_closing(text, 0, Name::Onlyinclude);
            opened.is_some() && closed.is_some()
        }
    }
}

/// What is shown of a page's text: in Direct mode for the page that is rendered, in Transcluded mode for a template.
///
/// Comments are removed, `nowiki` and `pre` are kept as written, and the include tags decide what else is removed: see
/// MediaWiki's manual, "Help:Formatting" and "Help:Templates", and docs/RULES.md for where this profile chooses. Any bytes
/// can be passed; only want of memory is an error. It takes time in proportion to the text.
pub fn shown(alloc: Global, text: &[u8], mode: Mode) -> Result<ShownText, NoMemory>
    ensures shown { IfOk result (λ s. s ≡ shown_of mode text.now) }
    // `markup` takes such a text.
    ensures spans { IfOk result (λ s. Ordered 0 s.literals) }
    ensures cuts { IfOk result (λ s. Rising 0 s.cuts) }
    ensures few { IfOk result (λ s. length s.bytes ≤ length text.now) }
{
    let mut showing = Showing::new(alloc);
    showing.show(text, mode)?;
    Ok(showing.into_shown())
}
