//! How far a `gsub` is.
ghost use Rattle.std.specs.Prelude.{◌≡◌, ℕ};
ghost use Rattle.lua_meaning.specs.Gsub.{nothing_yet};
ghost use Rattle.lua_replacing.specs.Seen.{far_seen, StandWithin};

use std::alloc::Global;

/// The place where a search begins, in bytes from 0, with the symbols that stand before it.
#[derive(Clone, Copy, Debug)]
pub struct Stand {
    pub at: usize,
    pub before: usize,
}

/// The text so far, the byte up to which it holds the subject, the matches, and where the next search begins, if it goes on.
#[derive(Drop, Debug)]
pub struct Far {
    pub text: Vec<u8>,
    pub copied: usize,
    pub count: usize,
    pub next: Option<Stand>,
}

impl Far {
    /// Nothing is looked at yet.
    pub fn new(alloc: Global) -> Far
        ensures nothing { far_seen result ≡ nothing_yet }
        ensures within { (size : ℕ) → StandWithin size result.next }
    {
        Far {
            text: Vec::new(alloc),
            copied: 0,
            count: 0,
            next: Some(Stand { at: 0, before: 0 }),
        }
    }
}
