//! What is large stands on the heap, so that tasks and how they halt stay small where they are handed on.
ghost use Rattle.std.specs.Prelude.{◌≡◌, Ok, IfOk};
ghost use Rattle.std.specs.Borrow.{Lends, sem};
ghost use Rattle.page_tasks.specs.contracts.boxed.Boxed.{the_row};

use lua_code::NoMemory;
use std::alloc::Global;
use std::marker::Model;

/// A value on the heap. Contracts see the value itself.
#[derive(Drop)]
pub struct Boxed<T> {
    held: Box<T>,
}

impl<T> Model for Boxed<T> {
    ghost use Rattle.std.specs.Prelude.{◌≡◌};

    ghost Value = { T };

    ghost coded = { T.code };

    ghost view = { λ b. b.held.value };
}

impl<T> Boxed<T> {
    /// The value.
    pub fn get(&self) -> &T
        ensures { result.now ≡ self.now }
    {
        &self.held
    }

    /// The value, which may be changed.
    pub fn get_mut(&mut self) -> &mut T
        ensures* writes_back { sem 𝓛 (Lends (the_row T.row) T.row self.entry result (λ w. w)) }
        ensures value { result.now ≡ self.old }
    {
        &mut self.held
    }

    /// The value, taken off the heap.
    pub fn into_inner(self) -> T
        ensures { result ≡ self }
    {
        let Boxed { held } = self;
        Box::into_inner(held)
    }
}

impl<T: Drop> Boxed<T> {
    /// A value, put on the heap.
    pub fn new(alloc: Global, value: T) -> Result<Boxed<T>, NoMemory>
        ensures { IfOk result (λ b. b ≡ value) }
    {
        match Box::new(alloc, value) {
            Ok(held) => Ok(Boxed { held }),
            Err(_) => Err(NoMemory),
        }
    }

    /// A value that was made, put on the heap.
    pub fn of(alloc: Global, made: Result<T, NoMemory>) -> Result<Boxed<T>, NoMemory>
        ensures { IfOk result (λ b. made ≡ Ok b) }
    {
        match made {
            Ok(value) => Boxed::new(alloc, value),
            Err(_) => Err(NoMemory),
        }
    }
}
