//! Which local variables have cells.
ghost use Rattle.std.specs.Prelude.{◌≡◌, true, false, None};

use lua_code::NoMemory;

/// For each declaration of a text, in order, whether its variable has a cell. What is not known has none; where a function
/// turns out to capture such a variable, that is noted, and the text has to be gone over again.
#[derive(Drop)]
pub(crate) struct Cells {
    flags: Vec<bool>,
    next: usize,
    /// Whether all that functions captured so far had cells.
    pub(crate) clean: bool,
}

/// A variable that is declared: its number, and whether it has a cell.
#[derive(Clone, Copy)]
pub(crate) struct Declared {
    pub(crate) number: usize,
    pub(crate) boxed: bool,
}

impl Cells {
    /// In front of a text whose variables have cells as these flags say.
    pub(crate) fn new(flags: Vec<bool>) -> Cells
        ensures { result.clean ≡ true }
    {
        Cells {
            flags,
            next: 0,
            clean: true,
        }
    }

    /// For each declaration so far, whether its variable turned out to need a cell.
    pub(crate) fn into_flags(self) -> Vec<bool> {
        self.flags
    }

    /// The next declaration of the text.
    pub(crate) fn declare(&mut self) -> Result<Declared, NoMemory>
        ensures { self.new.clean ≡ self.old.clean }
    {
        let number = self.next;
        self.next = number.checked_add(1).ok_or(NoMemory)?;
        match self.flags.get(number) {
            Some(boxed) => Ok(Declared {
                number,
                boxed: *boxed,
            }),
            None => {
                push(&mut self.flags)?;
                Ok(Declared {
                    number,
                    boxed: false,
                })
            }
        }
    }

    /// A function captures a variable; if that has no cell, this is its number.
    pub(crate) fn captured(&mut self, plain: Option<usize>)
        ensures { self.new.clean ≡ true → (self.old.clean ≡ true) × (plain ≡ None) }
    {
        if let Some(number) = plain {
            self.miss(number);
        }
    }

    /// A function captures this variable, which has no cell.
    fn miss(&mut self, number: usize)
        ensures { self.new.clean ≡ false }
    {
        self.clean = false;
        if number < self.flags.len() {
            self.flags[number] = true;
        }
    }
}

/// One more variable of which nothing is known.
fn push(flags: &mut Vec<bool>) -> Result<(), NoMemory> {
    match flags.push(false) {
        Ok(_) => Ok(()),
        Err(_) => Err(NoMemory),
    }
}
