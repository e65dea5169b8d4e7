//! Folders, the streams, and the gate that holds a page.
ghost use Rattle.std.specs.Prelude.{None};

use crate::rows::File;
use case_text::unescaped;
use std::alloc::{AllocError, Global};
use std::hint::spin_loop;
use std::sync::atomic::{AtomicU64, Ordering};
use wiki_app::Gate;
use wk_base::{Bytes, List, NoMemory};
use wk_shelf::{MemoryFile, MemoryShelf, MemorySink, Shelf, ShelfFault, can_hold};

/// The name of a file: that of a page's title, in which a slash is written as an escape, or what stands behind an `@`.
fn file_name(alloc: Global, name: &[u8]) -> Result<Vec<u8>, AllocError> {
    if let [b'@', name @ ..] = name {
        return Vec::from_slice(alloc, name);
    }
    let mut made = Vec::new(alloc);
    for byte in name {
        if *byte == b'/' {
            made.extend_from_slice(b"%2F")?;
        } else {
            made.push(*byte)?;
        }
    }
    made.extend_from_slice(b".wiki")?;
    Ok(made)
}

fn memory_file(alloc: Global, file: &File<'_>) -> Result<MemoryFile, NoMemory> {
    Ok(MemoryFile {
        folder: Bytes::of(alloc, b"d")?,
        name: Bytes::of_vec(file_name(alloc, file.name)?),
        bytes: Bytes::of_vec(unescaped(alloc, file.text)?),
    })
}

fn memory_files(alloc: Global, files: &[File<'_>]) -> Result<List<MemoryFile>, NoMemory> {
    let mut made = List::new(alloc);
    for file in files {
        made.push(memory_file(alloc, file)?)?;
    }
    Ok(made)
}

fn one(alloc: Global, number: u64) -> Result<List<u64>, NoMemory> {
    let mut numbers = List::new(alloc);
    numbers.push(number)?;
    Ok(numbers)
}

/// A shelf with these files in a folder `d`, whose call of this number fails. Files that it can't hold count as want of memory.
pub fn shelf_of(alloc: Global, files: &[File<'_>], fails: u64) -> Result<MemoryShelf, NoMemory> {
    let fails = one(alloc, fails)?;
    let files = memory_files(alloc, files)?;
    if !can_hold(files.as_slice()) {
        return Err(NoMemory);
    }
    Ok(MemoryShelf::new(alloc, files, fails))
}

/// A folder of many empty pages, whose names end in the tail. It doesn't tell what it holds.
#[derive(Drop)]
pub struct Crowd<'t> {
    pub pages: u64,
    pub tail: &'t str,
}

fn crowd_names(alloc: Global, pages: u64, tail: &str) -> Result<Vec<String>, AllocError> {
    let mut names = Vec::new(alloc);
    for page in 0..pages {
        names.push(format!(in alloc; "{page}{tail}.wiki")?)?;
    }
    Ok(names)
}

impl<'t> Shelf for Crowd<'t> {
    ghost files = { λ _. None };

    ghost faults = { λ _. 0 };

    fn list(&mut self, alloc: Global, _folder: &str) -> Result<Vec<String>, ShelfFault> {
        match crowd_names(alloc, self.pages, self.tail) {
            Ok(names) => Ok(names),
            Err(_) => Err(ShelfFault::NoMemory),
        }
    }

    fn read(
        &mut self,
        alloc: Global,
        _folder: &str,
        _name: &str,
        _most: usize,
    ) -> Result<Bytes, ShelfFault> {
        Ok(Bytes::of_vec(Vec::new(alloc)))
    }
}

/// The two streams of a run.
#[derive(Drop)]
pub struct Streams {
    pub out: MemorySink,
    pub err: MemorySink,
}

fn sink(alloc: Global, fails: u64, room: usize) -> Result<MemorySink, NoMemory> {
    MemorySink::new(alloc, one(alloc, fails)?, room)
}

impl Streams {
    /// Streams whose puts of these numbers fail, with room for 10,000 bytes and for 1,000.
    pub fn new(alloc: Global, out_fails: u64, err_fails: u64) -> Result<Streams, NoMemory> {
        Ok(Streams {
            out: sink(alloc, out_fails, 10_000)?,
            err: sink(alloc, err_fails, 1000)?,
        })
    }
}

/// A gate that holds each page but page 1 until that one has begun, for so many turns at most; and the turns for which one was held in vain.
#[derive(Drop)]
pub struct Meeting {
    patience: u64,
    begun: AtomicU64,
    in_vain: AtomicU64,
}

impl Meeting {
    pub fn new(patience: u64) -> Meeting {
        Meeting {
            patience,
            begun: AtomicU64::new(0),
            in_vain: AtomicU64::new(0),
        }
    }

    pub fn in_vain(&self) -> u64 {
        self.in_vain.load(Ordering::SeqCst)
    }

    /// Whether page 1 begins before all turns are over.
    fn is_met(&self) -> bool {
        for _ in 0..self.patience {
            if self.begun.load(Ordering::SeqCst) == 1 {
                return true;
            }
            spin_loop();
        }
        false
    }
}

impl Gate for Meeting {
    fn started(&self, page: usize) {
        if page == 1 {
            self.begun.store(1, Ordering::SeqCst);
        } else if !self.is_met() {
            self.in_vain.store(self.patience, Ordering::SeqCst);
        }
    }
}
