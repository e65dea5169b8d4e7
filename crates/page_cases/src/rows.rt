//! What the lines so far say, and what a row came to.
use crate::fields::NONE;
use std::alloc::{AllocError, Global};

/// A file of the folder: its name, and its bytes with escapes.
#[derive(Clone, Copy)]
pub struct File<'t> {
    pub name: &'t [u8],
    pub text: &'t [u8],
}

/// Puts a file into the place of one of its name, or behind all others.
pub fn put<'t>(files: &mut Vec<File<'t>>, file: File<'t>) -> Result<(), AllocError> {
    for at in 0..files.len() {
        if files[at].name == file.name {
            files[at] = file;
            return Ok(());
        }
    }
    files.push(file)?;
    Ok(())
}

/// What the lines so far say, and what a row came to.
#[derive(Drop)]
pub struct Rows<'t> {
    /// The pages of the folder.
    pub files: Vec<File<'t>>,
    /// The words of the next run; none are said where it is empty and not `said`.
    pub words: Vec<String>,
    /// What the next run is to leave on standard error, with escapes.
    pub err: &'t [u8],
    /// The status that the next run is to have.
    pub status: u64,
    /// The numbers of the calls of the shelf and of the two streams that fail in the next run.
    pub fails: [u64; 3],
    /// The turns for which the next run's gate holds a page, and those for which it is to have held one in vain.
    pub held: [u64; 2],
    /// How many rows were right since they were last told.
    pub right: u64,
    /// What the last row came to: a status, or what was left; and a text.
    pub number: u64,
    pub came: Vec<u8>,
    /// What is told of the rows.
    pub told: String,
}

impl<'t> Rows<'t> {
    /// No line was read.
    pub fn new(alloc: Global) -> Rows<'t> {
        Rows {
            files: Vec::new(alloc),
            words: Vec::new(alloc),
            err: b"",
            status: 0,
            fails: [NONE, NONE, NONE],
            held: [0, 0],
            right: 0,
            number: 0,
            came: Vec::new(alloc),
            told: String::new(alloc),
        }
    }

    /// Notes what a row came to.
    pub fn note(&mut self, number: u64, text: &[u8]) -> Result<(), AllocError> {
        self.number = number;
        self.came.clear();
        self.came.extend_from_slice(text)
    }

    /// Counts a row, if it is right.
    pub fn count(&mut self, right: bool) -> bool {
        if right {
            self.right = self.right.saturating_add(1);
        }
        right
    }
}
