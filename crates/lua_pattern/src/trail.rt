//! What a search goes back to: the choices that are left, and the marks that were passed.
ghost use Rattle.std.specs.Prelude.{◌≡◌, ◌∷◌, ◌++◌, [], ℕ, List, IfOk, OnOk, MatchOption, take, length, slice_index};
ghost use Rattle.lua_pattern.specs.Trail.{TrailState, tried, marks_of};

use std::alloc::Global;
use std::marker::Model;
use wk_base::NoMemory;

/// What is tried where the present way fails.
#[derive(Clone, Copy, Debug)]
pub enum Choice {
    /// The items from one on, at the places from the third number down to the second. The last number is how many
    /// marks had been passed.
    Down(usize, usize, usize, usize),
    /// One symbol more of an item that takes as few as it can, at a place: of those from the first number on, up to the
    /// second, the last one first. The last number is that of the marks.
    Up(usize, usize, usize, usize),
}

#[derive(Drop)]
pub struct Trail {
    choices: Vec<Choice>,
    marks: Vec<usize>,
}

impl Model for Trail {
    ghost use Rattle.std.specs.Prelude.{reverse, length};
    ghost use Rattle.std.specs.Coded.{codes};
    ghost use Rattle.lua_pattern.specs.Trail.{TrailState, Ordered};
    ghost use Rattle.lua_pattern.specs.contracts.trail.Choice as choice;

    ghost Value = { TrailState };

    ghost coded = { Prim.hlevel (codes, choice.the_row.coded) };

    ghost view = { λ t. record { choices = reverse t.choices.items; marks = t.marks.items } };

    ghost invariant = { λ t. Ordered (reverse t.choices.items) (length t.marks.items) };
}

impl Trail {
    ghost use Rattle.std.specs.Prelude.{Some, None};
    ghost use Rattle.lua_pattern.specs.declared.item.Item.{Item as AnItem};
    ghost use Rattle.lua_pattern.specs.Letters.{Letters};

    pub fn new(alloc: Global) -> Trail
        ensures { result ≡ record { choices = []; marks = [] } }
    {
        Trail {
            choices: Vec::new(alloc),
            marks: Vec::new(alloc),
        }
    }

    pub fn clear(&mut self)
        ensures { self.new ≡ record { choices = []; marks = [] } }
    {
        self.choices.clear();
        self.marks.clear();
    }

    pub fn down(&mut self, item: usize, low: usize, high: usize) -> Result<(), NoMemory>
        ensures { OnOk result (self.new ≡ record self.old { choices = Choice.Down item low high (length self.old.marks) ∷ self.old.choices }) }
    {
        let count = self.marks.len();
        match self.choices.push(Choice::Down(item, low, high, count)) {
            Ok(_) => Ok(()),
            Err(_) => Err(NoMemory),
        }
    }

    pub fn up(&mut self, first: usize, behind: usize, at: usize) -> Result<(), NoMemory>
        ensures { OnOk result (self.new ≡ record self.old { choices = Choice.Up first behind at (length self.old.marks) ∷ self.old.choices }) }
    {
        let count = self.marks.len();
        match self.choices.push(Choice::Up(first, behind, at, count)) {
            Ok(_) => Ok(()),
            Err(_) => Err(NoMemory),
        }
    }

    /// Passes a mark. The choices mean what they meant.
    #[tactic(auto, using(crate::proofs::TrailLemmas::ordered_more, crate::proofs::TrailLemmas::tried_mark))]
    pub fn mark(&mut self, at: usize) -> Result<(), NoMemory>
        ensures marks { OnOk result (self.new ≡ record self.old { marks = self.old.marks ++ at ∷ [] }) }
        ensures same { OnOk result ((a : Letters) (items : List AnItem) (subject : List ℕ) → tried a items subject self.new.choices self.new.marks ≡ tried a items subject self.old.choices self.old.marks) }
    {
        match self.marks.push(at) {
            Ok(_) => Ok(()),
            Err(_) => Err(NoMemory),
        }
    }

    /// Takes the last choice off, and the marks that were passed after it was made.
    pub fn pop(&mut self) -> Option<Choice>
        ensures { MatchOption result ((self.old.choices ≡ []) × (self.new ≡ self.old)) (λ c. (self.old.choices ≡ c ∷ self.new.choices) × (self.new.marks ≡ take (marks_of c) self.old.marks)) }
    {
        let Some(choice) = self.choices.pop() else {
            return None;
        };
        let count = match choice {
            Choice::Down(_, _, _, count) => count,
            Choice::Up(_, _, _, count) => count,
        };
        self.marks.truncate(count);
        Some(choice)
    }

    pub fn marks(&self) -> &[usize]
        ensures { result.now ≡ self.now.marks }
    {
        self.marks.as_slice()
    }
}
