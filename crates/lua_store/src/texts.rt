//! The texts of a store, each kept once.
ghost use Rattle.std.specs.Prelude.{◌≡◌, ◌<◌, [], length, slice_get, Some, IfOk, IfSome, OnOk, OnErr};
ghost use Rattle.lua_store.specs.Seen.{text_at};
ghost use Rattle.lua_store.specs.Parts.{with_text};

use bumpalo::Bump;
use indexmap::IndexSet;
use std::alloc::Global;
use std::hash::RandomState;
use std::marker::Model;
use wk_base::NoMemory;

/// How many slots remember the text that was asked for last.
const LATELY: usize = 256;

/// Byte strings, all different, in the order in which they were made. Their bytes stand in the arena.
///
/// A text that is asked for again and again, as the constants and names of a module are, is seldom hashed: its bytes are compared with
/// those of the text that was last asked for among those of the same slot.
#[derive(Drop)]
pub struct Texts<'b> {
    arena: &'b Bump,
    items: IndexSet<&'b [u8], RandomState>,
    /// For each slot the place of the text of that slot that was asked for last; where there was none, some place.
    lately: [u32; LATELY],
}

impl<'b> Model for Texts<'b> {
    ghost use Rattle.std.specs.Prelude.{ℕ, List};
    ghost use Rattle.std.specs.Coded.{coded_list, coded_ℕ};
    ghost use Rattle.lua_store.specs.Texts.{texts_of};

    ghost Value = { List (List ℕ) };

    ghost coded = { coded_list (coded_list coded_ℕ) };

    ghost view = { λ t. texts_of t.items.keys };
}

impl<'b> Texts<'b> {
    /// No texts. Their bytes are hashed from the seed, so that a module can't choose texts that collide.
    pub fn new(alloc: Global, arena: &'b Bump, seed: RandomState) -> Texts<'b>
        ensures { result ≡ [] }
    {
        Texts {
            arena,
            items: IndexSet::with_hasher(alloc, seed),
            lately: [0; LATELY],
        }
    }

    /// The place of the text with these bytes, which is made where it is not there.
    pub fn place(&mut self, bytes: &[u8]) -> Result<usize, NoMemory>
        ensures there { IfOk result (λ id. slice_get self.new id ≡ Some bytes.now) }
        ensures added { OnOk result (self.new ≡ with_text self.old bytes.now) }
        ensures err { OnErr result (self.new ≡ self.old) }
    {
        let slot = usize::from(slot_of(bytes));
        let place = self.lately.get(slot).copied().unwrap_or(0);
        if let Some(at) = asked_lately(&self.items, place, bytes) {
            return Ok(at);
        }
        let at = find_or_add(self.arena, &mut self.items, bytes)?;
        if let Some(place) = self.lately.get_mut(slot) {
            *place = u32::try_from(at).unwrap_or(0);
        }
        Ok(at)
    }

    /// The bytes of the text at a place.
    pub fn bytes(&self, id: usize) -> &'b [u8]
        requires { id < length self.now }
        ensures { result.now ≡ text_at self.now id }
    {
        match self.items.get_index(id) {
            Some(bytes) => *bytes,
            None => unreachable!(),
        }
    }
}

ghost use Rattle.lua_store.specs.Texts.{texts_of};

/// The slot of a text, by its length and three of its bytes: enough to tell the names of a module apart.
fn slot_of(bytes: &[u8]) -> u8 {
    let length = bytes.len();
    if length == 0 {
        return 0;
    }
    let ends = bytes[0].wrapping_mul(7).wrapping_add(bytes[length - 1]);
    let middle = bytes[length / 2].wrapping_mul(31);
    let size = ((length % 256) as u8).wrapping_mul(67);
    size.wrapping_add(ends).wrapping_add(middle)
}

/// This place, if the text there has these bytes.
fn asked_lately(texts: &IndexSet<&[u8], RandomState>, place: u32, bytes: &[u8]) -> Option<usize>
    ensures there { IfSome result (λ id. slice_get (texts_of texts.now.keys) id ≡ Some bytes.now) }
    ensures added { IfSome result (λ _. with_text (texts_of texts.now.keys) bytes.now ≡ texts_of texts.now.keys) }
{
    let at = place as usize;
    match texts.get_index(at) {
        Some(text) => {
            if bytes == *text {
                return Some(at);
            }
            None
        }
        None => None,
    }
}

/// The place of the text with these bytes, which is found by its hash, or made.
fn find_or_add<'b>(
    arena: &'b Bump,
    texts: &mut IndexSet<&'b [u8], RandomState>,
    bytes: &[u8],
) -> Result<usize, NoMemory>
    ensures there { IfOk result (λ id. slice_get (texts_of texts.new.keys) id ≡ Some bytes.now) }
    ensures added { OnOk result (texts_of texts.new.keys ≡ with_text (texts_of texts.old.keys) bytes.now) }
    ensures err { OnErr result (texts.new.keys ≡ texts.old.keys) }
{
    if let Some(at) = find(texts, bytes) {
        return Ok(at);
    }
    let bytes: &'b [u8] = match arena.try_alloc_slice_copy(bytes) {
        Ok(bytes) => bytes,
        Err(_) => return Err(NoMemory),
    };
    add(texts, bytes)
}

fn find(texts: &IndexSet<&[u8], RandomState>, bytes: &[u8]) -> Option<usize>
    ensures there { IfSome result (λ id. slice_get (texts_of texts.now.keys) id ≡ Some bytes.now) }
    ensures added { IfSome result (λ _. with_text (texts_of texts.now.keys) bytes.now ≡ texts_of texts.now.keys) }
{
    match texts.get_full(bytes) {
        Some((at, _)) => Some(at),
        None => None,
    }
}

fn add<'b>(texts: &mut IndexSet<&'b [u8], RandomState>, bytes: &'b [u8]) -> Result<usize, NoMemory>
    ensures there { IfOk result (λ id. slice_get (texts_of texts.new.keys) id ≡ Some bytes.entry.now) }
    ensures added { OnOk result (texts_of texts.new.keys ≡ with_text (texts_of texts.old.keys) bytes.entry.now) }
    ensures err { OnErr result (texts.new.keys ≡ texts.old.keys) }
{
    match texts.insert_full(bytes) {
        Ok((at, _)) => Ok(at),
        Err(_) => Err(NoMemory),
    }
}
