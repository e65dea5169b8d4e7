//! Many texts as one.
ghost use Rattle.std.specs.Prelude.{◌≡◌, ◌<◌, [], ◌∷◌, ◌++◌, length, get_or, IfOk, OnOk, OnErr};
ghost use Rattle.wiki_markup.specs.Held.{begin_of, texts_from, AreEnds};

use std::alloc::Global;
use std::marker::Model;
use wk_base::NoMemory;

/// Texts, each behind the one before it in one string of bytes, with the place where each ends. Its model is the list of the texts.
#[derive(Drop, Debug)]
pub struct Texts {
    bytes: Vec<u8>,
    ends: Vec<u32>,
}

impl Model for Texts {
    ghost use Rattle.std.specs.Prelude.{List, ℕ, length};
    ghost use Rattle.wiki_markup.specs.Held.{texts_from, AreEnds};

    ghost Value = { List (List ℕ) };

    ghost view = { λ t. texts_from 0 t.ends.items t.bytes.items };

    ghost invariant = { λ t. AreEnds 0 t.ends.items (length t.bytes.items) };
}

/// A place in 32 bits. A place that doesn't fit counts as want of memory.
pub fn short(place: usize) -> Result<u32, NoMemory>
    ensures { IfOk result (λ same. same ≡ place) }
{
    match u32::try_from(place) {
        Ok(same) => Ok(same),
        Err(_) => Err(NoMemory),
    }
}

/// One place more.
fn push_place(places: &mut Vec<u32>, place: usize) -> Result<(), NoMemory>
    ensures ok { OnOk result (places.new.items ≡ places.old.items ++ place ∷ []) }
    ensures err { OnErr result (places.new.items ≡ places.old.items) }
{
    let place = short(place)?;
    match places.push(place) {
        Ok(_) => Ok(()),
        Err(_) => Err(NoMemory),
    }
}

/// A text more, with the place where it ends.
fn push_text(bytes: &mut Vec<u8>, ends: &mut Vec<u32>, text: &[u8]) -> Result<(), NoMemory>
    ensures ok { OnOk result ((bytes.new.items ≡ bytes.old.items ++ text.now)
        × (ends.new.items ≡ ends.old.items ++ length (bytes.old.items ++ text.now) ∷ [])) }
    ensures err { OnErr result ((bytes.new.items ≡ bytes.old.items)
        × (ends.new.items ≡ ends.old.items)) }
{
    let before = bytes.len();
    if bytes.extend_from_slice(text).is_err() {
        return Err(NoMemory);
    }
    if push_place(ends, bytes.len()).is_err() {
        bytes.truncate(before);
        return Err(NoMemory);
    }
    Ok(())
}

/// Where the text of a number begins: where the one before it ends.
fn begin(ends: &[u32], number: usize) -> usize
    requires { number < length ends.now }
    ensures { result ≡ begin_of 0 ends.now number }
{
    if number == 0 {
        return 0;
    }
    ends[number - 1] as usize
}

/// The text of a number; an empty one where there are not so many.
fn text_at<'t>(bytes: &'t [u8], ends: &[u32], number: usize) -> &'t [u8]
    requires { AreEnds 0 ends.now (length bytes.now) }
    ensures { result.now ≡ get_or (texts_from 0 ends.now bytes.now) number [] }
{
    if number >= ends.len() {
        return b"";
    }
    let from = begin(ends, number);
    let end = ends[number] as usize;
    &bytes[from..end]
}

impl Texts {
    /// No texts.
    #[tactic(auto, unfolding(crate::specs::Held::texts_from))]
    pub fn new(alloc: Global) -> Texts
        ensures { result ≡ [] }
    {
        Texts {
            bytes: Vec::new(alloc),
            ends: Vec::new(alloc),
        }
    }

    /// The allocator that holds them.
    pub fn alloc(&self) -> Global {
        *self.bytes.allocator()
    }

    /// How many texts there are.
    pub fn len(&self) -> usize
        ensures { result ≡ length self.now }
    {
        self.ends.len()
    }

    /// Adds a text behind all others. Where memory runs out nothing changes.
    pub fn push(&mut self, text: &[u8]) -> Result<(), NoMemory>
        ensures ok { OnOk result (self.new ≡ self.old ++ text.now ∷ []) }
        ensures err { OnErr result (self.new ≡ self.old) }
    {
        push_text(&mut self.bytes, &mut self.ends, text)?;
        Ok(())
    }

    /// The text of a number, counted from 0; an empty one where there are not so many.
    pub fn get(&self, number: usize) -> &[u8]
        ensures { result.now ≡ get_or self.now number [] }
    {
        text_at(self.bytes.as_slice(), self.ends.as_slice(), number)
    }

    /// Gives back the room that isn't used.
    pub fn shrink(&mut self)
        ensures { self.new ≡ self.old }
    {
        self.bytes.shrink_to_fit();
        self.ends.shrink_to_fit();
    }
}
