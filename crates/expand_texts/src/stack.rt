//! A list of which the nearest item is at hand.
ghost use Rattle.std.specs.Prelude.{◌≡◌, [], ◌∷◌, IfOk, OnOk, MatchOption};
ghost use Rattle.std.specs.List.{list_any};

use std::alloc::Global;
use std::marker::Model;
use wk_base::{List, NoMemory, Title};

/// A list whose first item is the last that was put on it.
#[derive(Drop)]
pub struct Stack<T> {
    items: Vec<T>,
}

impl<T> Model for Stack<T> {
    ghost use Rattle.std.specs.Prelude.{List, reverse};
    ghost use Rattle.std.specs.Coded.{coded_list};

    ghost Value = { List T };

    ghost coded = { coded_list T.code };

    ghost view = { λ s. reverse s.items.items };
}

impl<T> Stack<T> {
    /// No item.
    pub fn new(alloc: Global) -> Stack<T>
        ensures { result ≡ [] }
    {
        Stack {
            items: Vec::new(alloc),
        }
    }

    /// The items of a list, its first one the nearest.
    pub fn of_vec(items: Vec<T>) -> Stack<T>
        ensures { result ≡ items.items }
    {
        let mut items = items;
        items.reverse();
        Stack { items }
    }

    /// The items, the nearest first.
    pub fn into_vec(self) -> Vec<T>
        ensures { result.items ≡ self }
    {
        let mut items = self.items;
        items.reverse();
        items
    }

    /// Takes the nearest item.
    pub fn pop(&mut self) -> Option<T>
        ensures { MatchOption result ((self.old ≡ []) × (self.new ≡ self.old)) (λ x. self.old ≡ x ∷ self.new) }
    {
        self.items.pop()
    }
}

impl<T: Drop> Stack<T> {
    /// An item in front of the others.
    pub fn push(&mut self, item: T) -> Result<(), NoMemory>
        ensures { OnOk result (self.new ≡ item ∷ self.old) }
    {
        match self.items.push(item) {
            Ok(_) => Ok(()),
            Err(_) => Err(NoMemory),
        }
    }
}

impl<T: PartialEq> Stack<T> {
    /// Whether an item is there.
    pub fn contains(&self, item: &T) -> bool
        ensures { result ≡ list_any (T.eq item.now) self.now }
    {
        is_among(item, self.items.as_slice())
    }
}

fn is_among<T: PartialEq>(item: &T, items: &[T]) -> bool
    ensures { result ≡ list_any (T.eq item.now) items.now }
{
    for other in items {
        if *item == *other {
            return true;
        }
    }
    false
}

impl Stack<Title> {
    /// A copy, the nearest first.
    pub fn list(&self, alloc: Global) -> Result<List<Title>, NoMemory>
        ensures { IfOk result (λ titles. titles ≡ self.now) }
    {
        let mut titles = copies(alloc, self.items.as_slice())?;
        titles.reverse();
        Ok(List::of_vec(titles))
    }
}

/// Copies of titles.
fn copies(alloc: Global, titles: &[Title]) -> Result<Vec<Title>, NoMemory>
    ensures { IfOk result (λ made. made.items ≡ titles.now) }
{
    let mut made = List::new(alloc);
    for title in titles {
        let copy = title.copy()?;
        made.push(copy)?;
    }
    Ok(made.into_vec())
}
