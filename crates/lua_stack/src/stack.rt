//! A list of which the newest item is at hand.
ghost use Rattle.std.specs.Prelude.{◌≡◌, ◌-◌, [], ◌∷◌, length, drop, slice_get, slice_set, OnOk, OnErr, MatchOption};
ghost use Rattle.std.specs.Option.{option_copied};

use mw_frame::NoMemory;
use std::alloc::Global;
use std::marker::Model;

/// A list whose first item is the newest.
#[derive(Drop)]
pub struct Stack<T> {
    items: Vec<T>,
}

impl<T> Model for Stack<T> {
    ghost use Rattle.std.specs.Prelude.{List, reverse};
    ghost use Rattle.std.specs.Coded.{coded_list};

    ghost Value = { List T };

    ghost coded = { coded_list T.code };

    ghost view = { λ s. reverse s.items.items };
}

impl<T> Stack<T> {
    /// No item.
    pub fn new(alloc: Global) -> Stack<T>
        ensures { result ≡ [] }
    {
        Stack {
            items: Vec::new(alloc),
        }
    }

    /// How many items there are.
    pub fn len(&self) -> usize
        ensures { result ≡ length self.now }
    {
        self.items.len()
    }

    /// Takes the newest item.
    pub fn pop(&mut self) -> Option<T>
        ensures { MatchOption result ((self.old ≡ []) × (self.new ≡ [])) (λ x. self.old ≡ x ∷ self.new) }
    {
        self.items.pop()
    }

    /// The item that is so far from the newest, which is at 0.
    pub fn get(&self, at: usize) -> Option<&T>
        ensures { option_copied result ≡ slice_get self.now at }
    {
        let count = self.items.len();
        if at < count {
            return Some(&self.items[count - 1 - at]);
        }
        None
    }
}

impl<T: Drop> Stack<T> {
    /// One more item, which is the newest. Where memory runs out, the items stay as they were.
    pub fn push(&mut self, item: T) -> Result<(), NoMemory>
        ensures ok { OnOk result (self.new ≡ item ∷ self.old) }
        ensures err { OnErr result (self.new ≡ self.old) }
    {
        match self.items.push(item) {
            Ok(_) => Ok(()),
            Err(_) => Err(NoMemory),
        }
    }

    /// Another item in the place of the one that is so far from the newest, if that is there.
    pub fn set(&mut self, at: usize, item: T)
        ensures { self.new ≡ slice_set self.old at item }
    {
        let count = self.items.len();
        if at < count {
            self.items[count - 1 - at] = item;
        }
    }

    /// Keeps the oldest so many items.
    pub fn cut(&mut self, depth: usize)
        ensures { self.new ≡ drop (length self.old - depth) self.old }
    {
        self.items.truncate(depth);
    }
}
