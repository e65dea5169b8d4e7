//! The reading of a pattern.
ghost use Rattle.std.specs.Prelude.{◌≡◌, [], ◌∷◌, ◌++◌, slice_set, ◌≤◌, ◌<◌, ◌+◌, length, slice_index, slice_get, IfSome, Some, None, ℕ, MatchOption, MatchResult, IfOk, IfErr, OnOk, Ok, Err};
ghost use Rattle.lua_pattern.specs.Read.{class_of, escaped, single_of, part_of, Cut, Took, set_body, Unclosed, Closed, Stops, Goes, last_open, after_turn, is_turned, begun, with_item, repetition, after_repetition, repeated, next, frontier, balance, back, after_escape, point_or_open, shut, marked, single_item, read_of, read_unanchored, read_from, codes, Fine, plain, set_item};
ghost use Rattle.lua_pattern.specs.declared.read.Reading.{Reading as ReadingNow};
ghost use Rattle.lua_pattern.specs.Texts.{between};
ghost use Rattle.lua_pattern.specs.SetTexts.{only_item, set_of, IsSetFault};
ghost use Rattle.lua_pattern.specs.Reads.{IsFault, IsReadFault, IsOpenAt, IsBackTo};

use crate::alphabet::Alphabet;
use crate::item::{Class, Item, Part, Set, Single};
use crate::items::Items;
use crate::pattern::Pattern;
use crate::prepared::PreparedSet;
use crate::slots::{Slot, Slots};
use crate::steps::symbol_at;
use std::alloc::Global;
use std::marker::PhantomData;
use wk_base::{List, NoMemory};

/// What has been read of a pattern.
#[derive(Drop)]
pub struct Reading {
    pub items: List<Item>,
    pub slots: Slots,
    pub marks: usize,
}

/// Why a pattern has no reading.
#[derive(Clone, Copy, Debug, PartialEq, Eq)]
pub enum PatternFault {
    /// 1 it ends with `%`; 2 a set without its `]`; 3 no `[` behind `%f`; 4 a capture that is not closed; 5 a `)` with
    /// no capture open; 6 more than 32 captures; 7 a back reference to no closed capture of a text; 8 `%b` without two
    /// characters behind it.
    At(u8),
    NoMemory,
}

impl From<NoMemory> for PatternFault {
    fn from(_error: NoMemory) -> PatternFault
        ensures { result ≡ PatternFault.NoMemory }
    {
        PatternFault::NoMemory
    }
}

/// The class of a small letter.
fn class_named(letter: u32) -> Option<Class>
    ensures { result ≡ class_of letter }
{
    match letter {
        97 => Some(Class::Letter),
        99 => Some(Class::Control),
        100 => Some(Class::Digit),
        108 => Some(Class::Lower),
        112 => Some(Class::Punctuation),
        115 => Some(Class::Space),
        117 => Some(Class::Upper),
        119 => Some(Class::Alphanumeric),
        120 => Some(Class::Hexadecimal),
        122 => Some(Class::Zero),
        _ => None,
    }
}

/// What `%` with a symbol stands for.
fn escape(symbol: char) -> Part
    ensures { result ≡ escaped symbol }
{
    let code = symbol as u32;
    let negated = 65 <= code && code <= 90;
    let small = if negated { code + 32 } else { code };
    match class_named(small) {
        Some(class) => Part::Kind(class, negated),
        None => Part::Range(symbol, symbol),
    }
}

fn alone(part: Part) -> Single
    ensures { result ≡ single_of part }
{
    match part {
        Part::Range(low, _) => Single::Plain(low),
        Part::Kind(class, negated) => Single::Kind(class, negated),
    }
}

/// A part of a set, and the text after it.
fn read_part(text: &[char]) -> Option<(Part, &[char])>
    ensures { MatchOption result (part_of text.now ≡ Cut) (λ p. (part_of text.now ≡ Took p.0 p.1.now) × (length p.1.now < length text.now)) }
{
    match text {
        [] => None,
        ['%'] => None,
        ['%', symbol, rest @ ..] => Some((escape(*symbol), rest)),
        [low, '-', high, rest @ ..] if *high != ']' && *high != '%' => {
            Some((Part::Range(*low, *high), rest))
        }
        [symbol, rest @ ..] => Some((Part::Range(*symbol, *symbol), rest)),
    }
}

/// The first symbol, and the text after it.
fn head(text: &[char]) -> Option<(char, &[char])>
    ensures { MatchOption result (text.now ≡ []) (λ p. text.now ≡ p.0 ∷ p.1.now) }
{
    match text {
        [] => None,
        [symbol, rest @ ..] => Some((*symbol, rest)),
    }
}

/// The parts of a set up to its `]`, and the text after that.
fn read_parts(alloc: Global, text: &[char]) -> Result<Option<(List<Part>, &[char])>, NoMemory>
    ensures { IfOk result (λ found. MatchOption found (set_body text.now ≡ Unclosed) (λ p. (set_body text.now ≡ Closed p.0 p.1.now) × (length p.1.now < length text.now))) }
{
    let mut parts = List::new(alloc);
    let Some((part, mut rest)) = read_part(text) else {
        return Ok(None);
    };
    parts.push(part)?;
    let mut turns = text.len();
    'parts: loop {
        let Some((symbol, after)) = head(rest) else {
            return Ok(None);
        };
        if symbol == ']' {
            return Ok(Some((parts, after)));
        }
        turns -= 1;
        let Some((part, later)) = read_part(rest) else {
            return Ok(None);
        };
        parts.push(part)?;
        rest = later;
    }
}

/// Whether a text begins with `^`, and the text behind that.
fn behind_turn(text: &[char]) -> (bool, &[char])
    ensures turned { result.0 ≡ is_turned text.now }
    ensures rest { result.1.now ≡ after_turn text.now }
    ensures short { length result.1.now ≤ length text.now }
{
    match text {
        ['^', rest @ ..] => (true, rest),
        _ => (false, text),
    }
}

/// A set behind its `[`, and the text after it.
fn read_set_body(alloc: Global, text: &[char]) -> Result<Option<(PreparedSet, &[char])>, NoMemory>
    ensures { IfOk result (λ found. MatchOption found (set_body (after_turn text.now) ≡ Unclosed) (λ p. (set_body (after_turn text.now) ≡ Closed p.0.parts p.1.now) × (p.0.negated ≡ is_turned text.now) × (length p.1.now < length text.now))) }
{
    let (negated, body) = behind_turn(text);
    match read_parts(alloc, body)? {
        Some((parts, rest)) => {
            let set = PreparedSet::new(alloc, Set { negated, parts })?;
            Ok(Some((set, rest)))
        }
        None => Ok(None),
    }
}

/// The last capture that is open: its place in the list, and its first mark.
fn find_open(slots: &[Slot]) -> Option<(usize, usize)>
    ensures value { result ≡ last_open slots.now }
    ensures inside { IfSome result (λ p. p.0 < length slots.now) }
{
    let mut left = slots;
    let mut index = 0;
    let mut found = None;
    while let [slot, rest @ ..] = left {
        if let Slot::Open(mark) = *slot {
            found = Some((index, mark));
        }
        index += 1;
        left = rest;
    }
    found
}

/// A single character with the mark of repetition after it, and the text after both.
fn repeat(single: Single, text: &[char]) -> (Item, &[char])
    ensures item { result.0 ≡ repetition single text.now }
    ensures rest { result.1.now ≡ after_repetition text.now }
    ensures short { length result.1.now ≤ length text.now }
{
    match text {
        ['*', rest @ ..] => (Item::Star(single), rest),
        ['+', rest @ ..] => (Item::Plus(single), rest),
        ['-', rest @ ..] => (Item::Minus(single), rest),
        ['?', rest @ ..] => (Item::Maybe(single), rest),
        _ => (Item::One(single), text),
    }
}

/// A back reference to a closed capture.
fn back_to(slots: &[Slot], index: usize) -> Option<Item>
    ensures { MatchOption result (IsOpenAt slots.now index) (λ item. IsBackTo slots.now index item) }
{
    match slots.get(index) {
        Some(Slot::Text(first, last)) => Some(Item::Back(*first, *last)),
        _ => None,
    }
}

/// The two marks behind `%b`.
fn read_balance(text: &[char]) -> Option<(Item, &[char])>
    ensures step { (r : ReadingNow) → MatchOption result (balance text.now r ≡ Stops 8) (λ p. balance text.now r ≡ Goes p.1.now (with_item p.0 r)) }
    ensures short { IfSome result (λ p. length p.1.now < length text.now) }
{
    match text {
        [x, y, rest @ ..] => Some((Item::Balance(*x, *y), rest)),
        _ => None,
    }
}

/// The set behind `%f`.
#[tactic(auto, using(crate::proofs::Sets::frontier_stops, crate::proofs::Sets::frontier_reads, crate::proofs::Sets::frontier_lacks))]
fn read_frontier(alloc: Global, text: &[char]) -> Result<(Item, &[char]), PatternFault>
    ensures step { (r : ReadingNow) → MatchResult result (λ p. frontier text.now r ≡ Goes p.1.now (with_item p.0 r)) (λ e. IsFault (frontier text.now r) e) }
    ensures short { IfOk result (λ p. length p.1.now < length text.now) }
{
    let Some((symbol, rest)) = head(text) else {
        return Err(PatternFault::At(3));
    };
    if symbol != '[' {
        return Err(PatternFault::At(3));
    }
    match read_set_body(alloc, rest) {
        Err(_) => Err(PatternFault::NoMemory),
        Ok(None) => Err(PatternFault::At(2)),
        Ok(Some((set, after))) => Ok((Item::Frontier(set), after)),
    }
}

/// A set behind its `[`, with its mark of repetition.
#[tactic(auto, using(crate::proofs::Sets::set_stops, crate::proofs::Sets::set_reads))]
fn read_set_item(alloc: Global, text: &[char]) -> Result<(Item, &[char]), PatternFault>
    ensures step { (r : ReadingNow) → MatchResult result (λ p. set_item (is_turned text.now) (set_body (after_turn text.now)) r ≡ Goes p.1.now (with_item p.0 r)) (λ e. IsFault (set_item (is_turned text.now) (set_body (after_turn text.now)) r) e) }
    ensures short { IfOk result (λ p. length p.1.now < length text.now) }
{
    match read_set_body(alloc, text) {
        Err(_) => Err(PatternFault::NoMemory),
        Ok(None) => Err(PatternFault::At(2)),
        Ok(Some((set, after))) => Ok(repeat(Single::Of(set), after)),
    }
}

/// A digit from 1 on.
fn is_reference(symbol: char) -> bool
    ensures { result ≡ between 49 57 symbol }
{
    '1' <= symbol && symbol <= '9'
}

/// What stands behind `%`.
#[tactic(auto, using(crate::proofs::Sets::escape_repeats))]
fn read_escape<'t>(
    alloc: Global,
    slots: &[Slot],
    text: &'t [char],
) -> Result<(Item, &'t [char]), PatternFault>
    ensures step { (r : ReadingNow) → r.slots ≡ slots.now → MatchResult result (λ p. after_escape text.now r ≡ Goes p.1.now (with_item p.0 r)) (λ e. IsFault (after_escape text.now r) e) }
    ensures short { IfOk result (λ p. length p.1.now < length text.now) }
{
    let Some((symbol, rest)) = head(text) else {
        return Err(PatternFault::At(1));
    };
    if symbol == 'b' {
        match read_balance(rest) {
            Some((item, after)) => Ok((item, after)),
            None => Err(PatternFault::At(8)),
        }
    } else if symbol == 'f' {
        read_frontier(alloc, rest)
    } else if is_reference(symbol) {
        match back_to(slots, (symbol as u32 - 49) as usize) {
            Some(item) => Ok((item, rest)),
            None => Err(PatternFault::At(7)),
        }
    } else {
        Ok(repeat(alone(escape(symbol)), rest))
    }
}

/// A plain character, or the anchor of the end.
fn read_plain(symbol: char, rest: &[char]) -> (Item, &[char])
    ensures step { (r : ReadingNow) → plain symbol rest.now r ≡ Goes result.1.now (with_item result.0 r) }
    ensures short { length result.1.now ≤ length rest.now }
{
    match rest {
        [] => {
            if symbol == '$' {
                (Item::End, rest)
            } else {
                (Item::One(Single::Plain(symbol)), rest)
            }
        }
        [_, ..] => repeat(Single::Plain(symbol), rest),
    }
}

/// An item that is no mark of a capture, behind its first symbol.
fn read_item<'t>(
    alloc: Global,
    slots: &[Slot],
    symbol: char,
    rest: &'t [char],
) -> Result<(Item, &'t [char]), PatternFault>
    ensures step { (r : ReadingNow) → r.slots ≡ slots.now → MatchResult result (λ p. single_item symbol rest.now r ≡ Goes p.1.now (with_item p.0 r)) (λ e. IsFault (single_item symbol rest.now r) e) }
    ensures short { IfOk result (λ p. length p.1.now ≤ length rest.now) }
{
    if symbol == '%' {
        read_escape(alloc, slots, rest)
    } else if symbol == '[' {
        read_set_item(alloc, rest)
    } else if symbol == '.' {
        Ok(repeat(Single::Any, rest))
    } else {
        Ok(read_plain(symbol, rest))
    }
}

impl Reading {
    fn new(alloc: Global) -> Reading
        ensures { result ≡ begun }
    {
        Reading {
            items: List::new(alloc),
            slots: Slots::new(alloc),
            marks: 0,
        }
    }

    fn item(&mut self, item: Item) -> Result<(), NoMemory>
        ensures { OnOk result (self.new ≡ with_item item self.old) }
    {
        self.items.push(item)
    }

    /// A mark, with which a capture begins.
    fn begin(&mut self, slot: Slot) -> Result<(), NoMemory>
        requires room { self.old.marks < usize.MAX }
        ensures { OnOk result (self.new ≡ marked (self.old.slots ++ slot ∷ []) self.old) }
    {
        self.items.push(Item::Mark)?;
        self.slots.push(slot)?;
        self.marks += 1;
        Ok(())
    }

    /// A mark, with which a capture ends.
    fn end(&mut self, index: usize, first: usize) -> Result<(), NoMemory>
        requires room { self.old.marks < usize.MAX }
        requires inside { index < length self.old.slots }
        ensures { OnOk result (self.new ≡ marked (slice_set self.old.slots index (Slot.Text first self.old.marks)) self.old) }
    {
        self.items.push(Item::Mark)?;
        let last = self.marks;
        self.slots.set(index, Slot::Text(first, last));
        self.marks += 1;
        Ok(())
    }

    /// A capture behind its `(`.
    fn open<'t>(&mut self, rest: &'t [char]) -> Result<&'t [char], PatternFault>
        requires room { self.old.marks < usize.MAX }
        ensures step { MatchResult result (λ after. point_or_open rest.now self.old ≡ Goes after.now self.new) (λ e. IsFault (point_or_open rest.now self.old) e) }
        ensures short { IfOk result (λ after. length after.now ≤ length rest.now) }
        ensures marks { OnOk result (self.new.marks ≡ self.old.marks + 1) }
    {
        let mark = self.marks;
        match rest {
            [')', after @ ..] => match self.begin(Slot::Point(mark)) {
                Ok(_) => Ok(after),
                Err(_) => Err(PatternFault::NoMemory),
            },
            _ => match self.begin(Slot::Open(mark)) {
                Ok(_) => Ok(rest),
                Err(_) => Err(PatternFault::NoMemory),
            },
        }
    }

    /// The end of a capture.
    fn shut<'t>(&mut self, rest: &'t [char]) -> Result<&'t [char], PatternFault>
        requires room { self.old.marks < usize.MAX }
        ensures step { MatchResult result (λ after. shut (last_open self.old.slots) rest.now self.old ≡ Goes after.now self.new) (λ e. IsFault (shut (last_open self.old.slots) rest.now self.old) e) }
        ensures short { IfOk result (λ after. length after.now ≤ length rest.now) }
        ensures marks { OnOk result (self.new.marks ≡ self.old.marks + 1) }
    {
        match find_open(self.slots.as_slice()) {
            None => Err(PatternFault::At(5)),
            Some((index, first)) => match self.end(index, first) {
                Ok(_) => Ok(rest),
                Err(_) => Err(PatternFault::NoMemory),
            },
        }
    }
}

impl Reading {
    /// One item, and the text after it.
    #[tactic(auto, using(crate::proofs::Nexts::next_open, crate::proofs::Nexts::next_full, crate::proofs::Nexts::next_shut, crate::proofs::Nexts::next_item))]
    fn step<'t>(&mut self, alloc: Global, text: &'t [char]) -> Result<&'t [char], PatternFault>
        requires room { self.old.marks + length text.now ≤ usize.MAX }
        requires more { 0 < length text.now }
        ensures step { MatchResult result (λ rest. next text.now self.old ≡ Goes rest.now self.new) (λ e. IsFault (next text.now self.old) e) }
        ensures short { IfOk result (λ rest. length rest.now < length text.now) }
        ensures marks { IfOk result (λ rest. self.new.marks + length rest.now ≤ self.old.marks + length text.now) }
    {
        let Some((symbol, rest)) = head(text) else {
            return Err(PatternFault::NoMemory);
        };
        if symbol == '(' {
            if self.slots.as_slice().len() >= 32 {
                return Err(PatternFault::At(6));
            }
            match self.open(rest) {
                Ok(after) => Ok(after),
                Err(e) => Err(e),
            }
        } else if symbol == ')' {
            match self.shut(rest) {
                Ok(after) => Ok(after),
                Err(e) => Err(e),
            }
        } else {
            match read_item(alloc, self.slots.as_slice(), symbol, rest) {
                Err(e) => Err(e),
                Ok((item, after)) => match self.item(item) {
                    Ok(_) => Ok(after),
                    Err(_) => Err(PatternFault::NoMemory),
                },
            }
        }
    }
}

/// The symbols of a text.
fn symbols_of<A: Alphabet>(alloc: Global, bytes: &[u8]) -> Result<Vec<char>, NoMemory>
    ensures { IfOk result (λ v. v.items ≡ codes A.letters bytes.now) }
{
    let mut symbols = Vec::new(alloc);
    let mut place = 0;
    'symbols: loop {
        let Some((symbol, size)) = symbol_at::<A>(bytes, place) else {
            return Ok(symbols);
        };
        match symbols.push(symbol) {
            Ok(_) => place += size,
            Err(_) => return Err(NoMemory),
        }
    }
}

/// Reads the items behind a first `^`, if there is one.
#[tactic(auto, using(crate::proofs::Nexts::read_more, crate::proofs::Nexts::read_faults, crate::proofs::Nexts::read_ends))]
fn read_items<A: Alphabet>(
    alloc: Global,
    anchored: bool,
    body: &[char],
) -> Result<Pattern<A>, PatternFault>
    ensures { MatchResult result (λ p. read_from anchored (length body.now) body.now begun ≡ Fine p.anchored p.items p.slots) (λ e. IsReadFault (read_from anchored (length body.now) body.now begun) e) }
{
    let mut reading = Reading::new(alloc);
    let mut rest = body;
    let mut turns = body.len();
    'items: while 0 < rest.len() {
        match reading.step(alloc, rest) {
            Err(e) => return Err(e),
            Ok(after) => {
                rest = after;
                turns -= 1;
            }
        }
    }
    match find_open(reading.slots.as_slice()) {
        Some(_) => Err(PatternFault::At(4)),
        None => match Items::new(alloc, reading.items) {
            Err(_) => Err(PatternFault::NoMemory),
            Ok(items) => Ok(Pattern {
                anchored,
                items,
                slots: reading.slots.into_list(),
                alphabet: PhantomData,
            }),
        },
    }
}

impl<A: Alphabet> Pattern<A> {
    /// Reads a pattern (Lua 5.1 manual, 5.4.1). The first fault in the order of reading is answered.
    pub fn read(alloc: Global, bytes: &[u8]) -> Result<Pattern<A>, PatternFault>
        ensures { MatchResult result (λ p. read_of (codes A.letters bytes.now) ≡ Fine p.anchored p.items p.slots) (λ e. IsReadFault (read_of (codes A.letters bytes.now)) e) }
    {
        match symbols_of::<A>(alloc, bytes) {
            Err(_) => Err(PatternFault::NoMemory),
            Ok(symbols) => {
                let (anchored, body) = behind_turn(symbols.as_slice());
                read_items::<A>(alloc, anchored, body)
            }
        }
    }

    /// Reads a pattern in which a first `^` is a plain character, as for `gmatch`.
    pub fn read_unanchored(alloc: Global, bytes: &[u8]) -> Result<Pattern<A>, PatternFault>
        ensures { MatchResult result (λ p. read_unanchored (codes A.letters bytes.now) ≡ Fine p.anchored p.items p.slots) (λ e. IsReadFault (read_unanchored (codes A.letters bytes.now)) e) }
    {
        match symbols_of::<A>(alloc, bytes) {
            Err(_) => Err(PatternFault::NoMemory),
            Ok(symbols) => read_items::<A>(alloc, false, symbols.as_slice()),
        }
    }
}

/// The set of a pattern that is one set and nothing else.
fn only_set<A: Alphabet>(pattern: Pattern<A>) -> Option<PreparedSet>
    ensures { MatchOption result (only_item pattern.items ≡ Err 2) (λ set. only_item pattern.items ≡ Ok set) }
{
    let mut items = pattern.items.into_list().into_vec();
    if items.len() != 1 {
        return None;
    }
    match items.pop() {
        Some(Item::One(Single::Of(set))) => Some(set),
        _ => None,
    }
}

/// Reads what stands between `[` and `]` in a pattern of one set, as `mw.text.trim` takes it. Where the text closes the
/// set before its end, the fault is 2.
pub fn read_set<A: Alphabet>(alloc: Global, bytes: &[u8]) -> Result<PreparedSet, PatternFault>
    ensures { MatchResult result (λ set. set_of (codes A.letters bytes.now) ≡ Ok set) (λ e. IsSetFault (set_of (codes A.letters bytes.now)) e) }
{
    let Ok(symbols) = bracketed::<A>(alloc, bytes) else {
        return Err(PatternFault::NoMemory);
    };
    match read_items::<A>(alloc, false, symbols.as_slice()) {
        Err(fault) => Err(fault),
        Ok(pattern) => only_set(pattern).ok_or(PatternFault::At(2)),
    }
}

/// The symbols of a text between `[` and `]`.
fn bracketed<A: Alphabet>(alloc: Global, bytes: &[u8]) -> Result<Vec<char>, NoMemory>
    ensures { IfOk result (λ v. v.items ≡ 91 ∷ codes A.letters bytes.now ++ 93 ∷ []) }
{
    let inside = symbols_of::<A>(alloc, bytes)?;
    let mut symbols = Vec::new(alloc);
    match symbols.push('[') {
        Ok(_) => {}
        Err(_) => return Err(NoMemory),
    }
    match symbols.extend_from_slice(inside.as_slice()) {
        Ok(_) => {}
        Err(_) => return Err(NoMemory),
    }
    match symbols.push(']') {
        Ok(_) => Ok(symbols),
        Err(_) => Err(NoMemory),
    }
}
