//! What a first look at a text tells: numbers of its names, and which of its local variables functions capture. None of it need be
//! true. A number is compared with its name, and where a variable is captured that was not told, the text is gone over again.
use crate::names::Names;
use lua_code::{Bytes, NoMemory};
use std::alloc::Global;
use std::hash::RandomState;
use std::mem::replace;

/// The names of a text, the numbers of these in the order of the text, and for each declaration, in order, whether a function captures
/// the variable.
#[derive(Drop)]
pub struct Sketch<'t> {
    pub(crate) names: Names<'t>,
    pub(crate) numbers: Vec<u32>,
    pub(crate) captured: Vec<bool>,
}

impl<'t> Sketch<'t> {
    /// No name, and nothing of variables: what going over a text finds out.
    pub fn unknown(alloc: Global, seed: RandomState) -> Sketch<'t> {
        Sketch::of_captured(alloc, seed, Vec::new(alloc))
    }

    /// No name, and nothing but which variables are captured.
    pub(crate) fn of_captured(alloc: Global, seed: RandomState, captured: Vec<bool>) -> Sketch<'t> {
        Sketch {
            names: Names::new(alloc, seed),
            numbers: Vec::new(alloc),
            captured,
        }
    }
}

/// The newest variable of a name: how many functions there are around it, and its number among the declarations.
#[derive(Clone, Copy)]
struct Newest {
    depth: usize,
    variable: usize,
}

/// A variable that is open: the number of its name, and what that stood for before.
#[derive(Clone, Copy)]
struct Open {
    name: usize,
    before: Option<Newest>,
}

/// A name that was met lately, and its number.
#[derive(Clone, Copy)]
struct Recent<'t> {
    name: &'t Bytes,
    number: usize,
}

/// A text that is looked at.
#[derive(Drop)]
pub(crate) struct Sketching<'t> {
    sketch: Sketch<'t>,
    /// Names that were met lately, at most one for each slot (`slot_of`).
    recent: Vec<Option<Recent<'t>>>,
    /// By the numbers of names.
    newest: Vec<Option<Newest>>,
    open: Vec<Open>,
    depth: usize,
}

impl<'t> Sketching<'t> {
    /// In front of a text. Names are hashed by the seed.
    pub(crate) fn new(alloc: Global, seed: RandomState) -> Result<Sketching<'t>, NoMemory> {
        Ok(Sketching {
            sketch: Sketch::unknown(alloc, seed),
            recent: no_names(alloc)?,
            newest: Vec::new(alloc),
            open: Vec::new(alloc),
            depth: 0,
        })
    }

    /// What was seen.
    pub(crate) fn into_sketch(self) -> Sketch<'t> {
        self.sketch
    }

    /// The number of a name. A name that was met lately is compared, and not hashed.
    fn number_of(&mut self, name: &'t Bytes) -> Result<usize, NoMemory> {
        let slot = slot_of(name.as_slice());
        if slot >= self.recent.len() {
            return self.sketch.names.number(name);
        }
        if let Some(recent) = self.recent[slot] {
            if *recent.name == *name {
                return Ok(recent.number);
            }
        }
        let number = self.sketch.names.number(name)?;
        self.recent[slot] = Some(Recent { name, number });
        Ok(number)
    }

    /// The number of the next name of the text.
    fn number(&mut self, name: &'t Bytes) -> Result<usize, NoMemory> {
        let number = self.number_of(name)?;
        push(&mut self.sketch.numbers, short(number))?;
        if number >= self.newest.len() {
            push(&mut self.newest, None)?;
        }
        Ok(number)
    }

    /// A name that is used. If its variable is one of a function around, it is captured.
    pub(crate) fn used(&mut self, name: &'t Bytes) -> Result<(), NoMemory> {
        let number = self.number(name)?;
        if let Some(Some(newest)) = self.newest.get(number) {
            if newest.depth < self.depth {
                mark(&mut self.sketch.captured, newest.variable);
            }
        }
        Ok(())
    }

    /// A local variable.
    pub(crate) fn declared(&mut self, name: &'t Bytes) -> Result<(), NoMemory> {
        let name = self.number(name)?;
        let newest = Newest {
            depth: self.depth,
            variable: self.sketch.captured.len(),
        };
        push(&mut self.sketch.captured, false)?;
        let before = self.stands_for(name, Some(newest));
        push(&mut self.open, Open { name, before })
    }

    /// From now on a name stands for this variable. What it stood for before.
    fn stands_for(&mut self, name: usize, newest: Option<Newest>) -> Option<Newest> {
        if name < self.newest.len() {
            replace(&mut self.newest[name], newest)
        } else {
            None
        }
    }

    /// How many variables are open.
    pub(crate) fn len(&self) -> usize {
        self.open.len()
    }

    /// Only the oldest so many variables stay open.
    pub(crate) fn close(&mut self, count: usize) {
        for _ in count..self.open.len() {
            if let Some(open) = self.open.pop() {
                let _ = self.stands_for(open.name, open.before);
            }
        }
    }

    /// A function begins.
    pub(crate) fn enter(&mut self) {
        self.depth = self.depth.saturating_add(1);
    }

    /// It ends.
    pub(crate) fn leave(&mut self) {
        self.depth = self.depth.saturating_sub(1);
    }
}

/// A number in half the room. One that is too large becomes a wrong number.
fn short(number: usize) -> u32 {
    if number < 4000000000 {
        number as u32
    } else {
        u32::MAX
    }
}

/// How many slots there are for the names that were met lately.
const SLOTS: usize = 256;

/// The slot of a name: it is soon found, and nothing is lost where many names have the same one, since these are hashed.
fn slot_of(name: &[u8]) -> usize {
    match name {
        [] => 0,
        [one] => *one as usize,
        [first, .., last] => {
            let ends = (*first as usize) * 31 + (*last as usize) * 7;
            (ends + (name.len() % SLOTS) * 13) % SLOTS
        }
    }
}

/// For each slot no name.
fn no_names<'t>(alloc: Global) -> Result<Vec<Option<Recent<'t>>>, NoMemory> {
    let mut names = Vec::new(alloc);
    for _ in 0..SLOTS {
        push(&mut names, None)?;
    }
    Ok(names)
}

/// That flag is set.
fn mark(flags: &mut [bool], at: usize) {
    if at < flags.len() {
        flags[at] = true;
    }
}

/// One more item.
fn push<T: Drop>(items: &mut Vec<T>, item: T) -> Result<(), NoMemory> {
    match items.push(item) {
        Ok(_) => Ok(()),
        Err(_) => Err(NoMemory),
    }
}
