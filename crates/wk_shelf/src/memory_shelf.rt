//! A shelf in memory, which tells what it holds.
ghost use Rattle.std.specs.Prelude.{◌≡◌, List, [], Some, IfOk, OnErr, ◌≤◌, map, unwrap_or, take, string_bytes, Err, true, false, ◌↔◌, ◌&&◌, not, IsTrue};
ghost use Rattle.wk_shelf.specs.States.{ShelfState, is_listed, counted};
ghost use Rattle.wk_shelf.specs.MemoryFiles.{file_of, are_files, same_place};
ghost use Rattle.wk_shelf.specs.Causes.{Rose};
ghost use Rattle.wk_shelf.specs.Files.{bytes_at, names_in, all_differ, Lists, Reads};
ghost use Rattle.std.specs.Option.{option_copied};
ghost use Rattle.std.specs.List.{list_any};
ghost use Rattle.std.specs.Str.{is_utf8};

use crate::memory_sink::is_in;
use crate::{Shelf, ShelfFault};
use std::alloc::Global;
use std::marker::Model;
use wk_base::{Bytes, List};

/// A file in memory. Its name is text in UTF-8.
#[derive(Drop)]
pub struct MemoryFile {
    pub folder: Bytes,
    pub name: Bytes,
    pub bytes: Bytes,
}

/// Whether two files agree in folder and name.
fn same_file(one: &MemoryFile, other: &MemoryFile) -> bool
    ensures { result ≡ same_place (file_of one.now) (file_of other.now) }
{
    one.folder == other.folder && one.name == other.name
}

fn is_text(name: &[u8]) -> bool
    ensures { result ≡ is_utf8 name.now }
{
    match str::from_utf8(name) {
        Ok(_) => true,
        Err(_) => false,
    }
}

/// Whether a file is one of those that follow.
fn is_among(file: &MemoryFile, others: &[MemoryFile]) -> bool
    ensures { result ≡ list_any (same_place (file_of file.now)) (map file_of others.now) }
{
    for other in others {
        if same_file(file, other) {
            return true;
        }
    }
    false
}

/// Whether a name is text, and its file is none of those that follow.
fn is_new(file: &MemoryFile, others: &[MemoryFile]) -> bool
    ensures { result
        ≡ (is_utf8 file.now.name
        && not (list_any (same_place (file_of file.now)) (map file_of others.now))) }
{
    is_text(file.name.as_slice()) && !is_among(file, others)
}

/// Whether a shelf in memory can hold these files: each name is text, and no two files agree in folder and name.
pub fn can_hold(files: &[MemoryFile]) -> bool
    ensures { result ≡ are_files (map file_of files.now) }
{
    for at in (0..files.len()).rev() {
        if !is_new(&files[at], &files[at + 1..]) {
            return false;
        }
    }
    true
}

/// Files in memory. Calls of `list` and `read` are numbered together from 0, and those whose number was handed in fail.
#[derive(Drop)]
pub struct MemoryShelf {
    files: List<MemoryFile>,
    fail: List<u64>,
    calls: u64,
    faults: u64,
    alloc: Global,
}

impl Model for MemoryShelf {
    ghost use Rattle.std.specs.Prelude.{map, ◌≡◌, true};
    ghost use Rattle.wk_shelf.specs.States.{ShelfState};
    ghost use Rattle.wk_shelf.specs.MemoryFiles.{file_of, are_files};

    ghost Value = { ShelfState };

    ghost view = { λ s. record { files = map file_of s.files; fail = s.fail; calls = s.calls; faults = s.faults } };

    ghost invariant = { λ s. are_files (map file_of s.files) ≡ true };
}

impl MemoryShelf {
    /// A shelf that holds just these files (`can_hold` tests them).
    pub fn new(alloc: Global, files: List<MemoryFile>, fail: List<u64>) -> MemoryShelf
        requires { are_files (map file_of files) ≡ true }
        ensures { result
            ≡ record { files = map file_of files; fail = fail; calls = 0; faults = 0 } }
    {
        MemoryShelf {
            files,
            fail,
            calls: 0,
            faults: 0,
            alloc,
        }
    }

    /// Counts a call. The answer is whether it fails.
    fn counts(&mut self) -> bool
        ensures fails { result ≡ is_listed self.old.fail self.old.calls }
        ensures state { self.new ≡ counted self.old }
        ensures later { self.old.faults ≤ self.new.faults }
    {
        let fails = is_in(self.fail.as_slice(), self.calls);
        self.calls = self.calls.saturating_add(1);
        if fails {
            self.faults = self.faults.saturating_add(1);
        }
        fails
    }
}

fn find_file<'f>(files: &'f [MemoryFile], folder: &[u8], name: &[u8]) -> Option<&'f Bytes>
    ensures { unwrap_or (option_copied result) []
        ≡ bytes_at folder.now name.now (map file_of files.now) }
{
    for file in files {
        if folder == file.folder.as_slice() && name == file.name.as_slice() {
            return Some(&file.bytes);
        }
    }
    None
}

/// The names of the files of a folder.
fn names_of(alloc: Global, files: &[MemoryFile], folder: &[u8]) -> Result<Vec<String>, ShelfFault>
    requires { are_files (map file_of files.now) ≡ true }
    ensures names { IfOk result (λ names.
        map string_bytes names.items ≡ names_in folder.now (map file_of files.now)) }
    ensures memory { OnErr result (result ≡ Err ShelfFault.NoMemory) }
{
    let mut names = Vec::new(alloc);
    for file in files {
        if folder == file.folder.as_slice() {
            let Ok(name) = str::from_utf8(file.name.as_slice()) else {
                unreachable!()
            };
            let Ok(name) = String::from_str(alloc, name) else {
                return Err(ShelfFault::NoMemory);
            };
            let Ok(_) = names.push(name) else {
                return Err(ShelfFault::NoMemory);
            };
        }
    }
    Ok(names)
}

/// The first `most` bytes of a file, or none.
fn first_bytes(
    alloc: Global,
    files: &[MemoryFile],
    folder: &[u8],
    name: &[u8],
    most: usize,
) -> Result<Bytes, ShelfFault>
    ensures bytes { IfOk result (λ bytes.
        bytes ≡ take most (bytes_at folder.now name.now (map file_of files.now))) }
    ensures memory { OnErr result (result ≡ Err ShelfFault.NoMemory) }
{
    match find_file(files, folder, name) {
        Some(bytes) => {
            let all = bytes.as_slice();
            match Bytes::of(alloc, &all[..all.len().min(most)]) {
                Ok(bytes) => Ok(bytes),
                Err(_) => Err(ShelfFault::NoMemory),
            }
        }
        None => Ok(Bytes::of_vec(Vec::new(alloc))),
    }
}

impl Shelf for MemoryShelf {
    ghost files = { λ s. Some s.files };

    ghost faults = { λ s. s.faults };

    /// A folder without files lists nothing.
    fn list(&mut self, alloc: Global, folder: &str) -> Result<Vec<String>, ShelfFault>
        ensures state { self.new ≡ counted self.old }
        ensures fails { (result ≡ Err ShelfFault.Failed)
            ↔ (is_listed self.old.fail self.old.calls ≡ true) }
        ensures exact { IfOk result (λ names.
            map string_bytes names.items ≡ names_in folder.now self.old.files) }
        ensures same { Some self.new.files ≡ Some self.old.files }
        ensures later { self.old.faults ≤ self.new.faults }
        ensures cause { result ≡ Err ShelfFault.Failed → Rose self.old.faults self.new.faults }
        ensures names { IfOk result (λ names.
            Lists (Some self.old.files) folder.now (map string_bytes names.items)) }
    {
        if self.counts() {
            return Err(ShelfFault::Failed);
        }
        names_of(alloc, self.files.as_slice(), folder.as_bytes())
    }

    /// A name that isn't held gives no bytes.
    fn read(
        &mut self,
        alloc: Global,
        folder: &str,
        name: &str,
        most: usize,
    ) -> Result<Bytes, ShelfFault>
        ensures state { self.new ≡ counted self.old }
        ensures fails { (result ≡ Err ShelfFault.Failed)
            ↔ (is_listed self.old.fail self.old.calls ≡ true) }
        ensures same { Some self.new.files ≡ Some self.old.files }
        ensures later { self.old.faults ≤ self.new.faults }
        ensures cause { result ≡ Err ShelfFault.Failed → Rose self.old.faults self.new.faults }
        ensures bytes { IfOk result (λ bytes.
            Reads (Some self.old.files) folder.now name.now most bytes) }
    {
        if self.counts() {
            return Err(ShelfFault::Failed);
        }
        first_bytes(
            alloc,
            self.files.as_slice(),
            folder.as_bytes(),
            name.as_bytes(),
            most,
        )
    }
}
