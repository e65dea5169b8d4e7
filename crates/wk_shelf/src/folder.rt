//! A folder of files as the pages of a wiki.
//!
//! A file whose name ends in `.wiki` or `.lua` is a page; other files are passed over. The name without that suffix, its
//! percent escapes decoded, is read as the page's title.
ghost use Rattle.std.specs.Prelude.{◌≡◌, ◌+◌, ◌≤◌, ◌++◌, List, [], ◌∷◌, ℕ, length, map, filter, Option, Some, None, Ok, Err, MatchOption, IfOk, OnOk, IfErr, IfSome, OnErr, string_bytes, codes};
ghost use Rattle.std.specs.Option.{option_copied};
ghost use Rattle.wk_shelf.specs.Causes.{Rose};
ghost use Rattle.wk_shelf.specs.Files.{names_in};
ghost use Rattle.wk_shelf.specs.Order.{in_byte_order};
ghost use Rattle.wk_shelf.specs.Folder.{files_of, file_at, stem_of, is_page, title_of_file, most_folder_bytes, first_fault, title_fault, size_fault, size_fault_after, wiki_of, IsRead, AreRead};
ghost use Rattle.wk_shelf.specs.FolderFaults.{source_line};

use crate::{Shelf, ShelfFault, sorted_names};
use indexmap::IndexSet;
use percent_encoding::percent_decode;
use std::alloc::Global;
use std::hash::RandomState;
use wk_base::{Bytes, List, Namespace, NoMemory, Title, TitleFault};

/// A page of a folder: its title, and the bytes of its file.
#[derive(Drop, Debug)]
pub struct FolderPage {
    pub title: Title,
    pub bytes: Bytes,
}

/// Why a folder is no wiki.
#[derive(Drop, Debug)]
pub enum FolderFault {
    /// The shelf failed, and counted a fault.
    Read,
    /// The folder's own fault, as a line of text.
    Source(Bytes),
    NoMemory,
}

/// How many pages a folder may hold.
const MOST_PAGES: usize = 100_000;

/// How many bytes a file may hold.
const MOST_FILE_BYTES: usize = 2_097_152;

/// How many bytes all pages of a folder may hold together.
const MOST_FOLDER_BYTES: usize = 67_108_864;

impl From<NoMemory> for FolderFault {
    ghost use Rattle.std.specs.Prelude.{◌≡◌};
    ghost use Rattle.wk_shelf.specs.declared.folder.FolderFault.TheVariants.{NoMemory};

    ghost from_gives = { λ _ fault. fault ≡ NoMemory };

    fn from(_error: NoMemory) -> FolderFault {
        FolderFault::NoMemory
    }
}

impl From<ShelfFault> for FolderFault {
    ghost use Rattle.std.specs.Prelude.{◌≡◌};
    ghost use Rattle.wk_shelf.specs.FolderFaults.{shelf_fault};

    ghost from_gives = { λ fault made. made ≡ shelf_fault fault };

    fn from(fault: ShelfFault) -> FolderFault {
        match fault {
            ShelfFault::Failed => FolderFault::Read,
            ShelfFault::NoMemory => FolderFault::NoMemory,
        }
    }
}

/// A file's name without the suffix of a page.
fn stem(name: &[u8]) -> Option<&[u8]>
    ensures { option_copied result ≡ stem_of name.now }
{
    match name.strip_suffix(b".wiki") {
        Some(stem) => Some(stem),
        None => name.strip_suffix(b".lua"),
    }
}

fn is_page(name: &[u8]) -> bool
    ensures { result ≡ is_page name.now }
{
    stem(name).is_some()
}

/// The title that a file's name stands for.
fn file_title(alloc: Global, name: &[u8]) -> Result<Option<Title>, NoMemory>
    ensures { IfOk result (λ title. title ≡ title_of_file name.now) }
{
    let Some(stem) = stem(name) else {
        return Ok(None);
    };
    let mut decoded = Vec::new(alloc);
    percent_decode(stem).append_to(&mut decoded)?;
    match Title::read(alloc, decoded.as_slice(), Namespace::Main) {
        Ok(title) => Ok(Some(title)),
        Err(TitleFault::NoMemory) => Err(NoMemory),
        Err(_) => Ok(None),
    }
}

/// Leaves the names of pages alone, in their order.
fn keep_pages(names: &mut Vec<String>)
    ensures { names.new.items ≡ filter (λ name. is_page (string_bytes name)) names.old.items }
{
    names.retain(|name| is_page(name.as_bytes()));
}

/// A source fault: what it says, and of which name.
fn fault_line(alloc: Global, name: &[u8], saying: &[u8]) -> FolderFault
    ensures { MatchOption (source_line result) (result ≡ FolderFault.NoMemory) (λ line.
        line ≡ name.now ++ saying.now) }
{
    let Ok(mut line) = name.to_vec(alloc) else {
        return FolderFault::NoMemory;
    };
    match line.extend_from_slice(saying) {
        Ok(()) => FolderFault::Source(Bytes::of_vec(line)),
        Err(_) => FolderFault::NoMemory,
    }
}

/// Tests that each name has a title, and none has an earlier one's. Titles are hashed from the seed.
fn check_titles(alloc: Global, seed: RandomState, names: &[String]) -> Result<(), FolderFault>
    ensures ok { OnOk result (first_fault title_fault [] (map string_bytes names.now) ≡ None) }
    ensures fault { IfErr result (λ fault.
        MatchOption (source_line fault) (fault ≡ FolderFault.NoMemory) (λ line.
        first_fault title_fault [] (map string_bytes names.now) ≡ Some line)) }
{
    let mut taken = IndexSet::with_hasher(alloc, seed);
    for name in names {
        let Some(title) = file_title(alloc, name.as_bytes())? else {
            return Err(fault_line(alloc, name.as_bytes(), b": not a title"));
        };
        match taken.insert(title) {
            Ok(true) => {}
            Ok(false) => return Err(fault_line(alloc, name.as_bytes(), b": title is taken")),
            Err(_) => return Err(FolderFault::NoMemory),
        }
    }
    Ok(())
}

/// Reads a file, where all so far have `total` bytes. The file's own limit comes first.
fn read_page<S: Shelf>(
    alloc: Global,
    shelf: &mut S,
    folder: &str,
    name: &str,
    total: usize,
) -> Result<Bytes, FolderFault>
    requires { total ≤ most_folder_bytes }
    ensures same { S.files shelf.new ≡ S.files shelf.old }
    ensures later { S.faults shelf.old ≤ S.faults shelf.new }
    ensures cause { result ≡ Err FolderFault.Read → Rose (S.faults shelf.old) (S.faults shelf.new) }
    ensures fits { IfOk result (λ bytes. total + length bytes ≤ most_folder_bytes) }
    ensures bytes { IfOk result (λ bytes.
        IfSome (S.files shelf.old) (λ files.
        IsRead total (file_at folder.now files name.now) bytes)) }
    ensures fault { IfErr result (λ fault.
        IfSome (source_line fault) (λ line.
        IfSome (S.files shelf.old) (λ files.
        size_fault_after total (file_at folder.now files name.now) ≡ Some line))) }
{
    let bytes = shelf.read(alloc, folder, name, MOST_FILE_BYTES + 1)?;
    let size = bytes.as_slice().len();
    if size > MOST_FILE_BYTES {
        return Err(fault_line(alloc, name.as_bytes(), b": too long"));
    }
    if size > MOST_FOLDER_BYTES - total {
        return Err(fault_line(alloc, b"too many bytes", b""));
    }
    Ok(bytes)
}

/// Reads the files in turn. Each name has a title.
fn read_pages<S: Shelf>(
    alloc: Global,
    shelf: &mut S,
    folder: &str,
    names: &[String],
) -> Result<List<FolderPage>, FolderFault>
    requires { first_fault title_fault [] (map string_bytes names.now) ≡ None }
    ensures same { S.files shelf.new ≡ S.files shelf.old }
    ensures later { S.faults shelf.old ≤ S.faults shelf.new }
    ensures cause { result ≡ Err FolderFault.Read → Rose (S.faults shelf.old) (S.faults shelf.new) }
    ensures pages { IfOk result (λ pages.
        IfSome (S.files shelf.old) (λ files.
        AreRead (map (file_at folder.now files) (map string_bytes names.now)) pages)) }
    ensures fault { IfErr result (λ fault.
        IfSome (source_line fault) (λ line.
        IfSome (S.files shelf.old) (λ files.
        first_fault size_fault []
        (map (file_at folder.now files) (map string_bytes names.now))
        ≡ Some line))) }
{
    let mut pages = List::new(alloc);
    let mut total = 0;
    for name in names {
        let bytes = read_page(alloc, shelf, folder, name.as_str(), total)?;
        total += bytes.as_slice().len();
        let Some(title) = file_title(alloc, name.as_bytes())? else {
            unreachable!()
        };
        pages.push(FolderPage { title, bytes })?;
    }
    Ok(pages)
}

/// The pages of a folder in byte order of their files' names, or its first fault: too many files, then the first name
/// that is no title or gives an earlier one's, then the first file that is too long or with which all are too long.
///
/// The seed is drawn anew for each run of the program: who does not know it can't choose names whose titles collide. No
/// answer depends on it.
pub fn read_folder<S: Shelf>(
    alloc: Global,
    seed: RandomState,
    shelf: &mut S,
    folder: &str,
) -> Result<List<FolderPage>, FolderFault>
    ensures same { S.files shelf.new ≡ S.files shelf.old }
    ensures later { S.faults shelf.old ≤ S.faults shelf.new }
    ensures cause { result ≡ Err FolderFault.Read → Rose (S.faults shelf.old) (S.faults shelf.new) }
    ensures pages { IfOk result (λ pages.
        IfSome (S.files shelf.old) (λ files. wiki_of (files_of folder.now files) ≡ Ok pages)) }
    ensures fault { IfErr result (λ fault.
        IfSome (source_line fault) (λ line.
        IfSome (S.files shelf.old) (λ files. wiki_of (files_of folder.now files) ≡ Err line))) }
{
    let mut names = sorted_names(alloc, shelf, folder)?;
    keep_pages(&mut names);
    let pages = names.as_slice();
    if pages.len() > MOST_PAGES {
        return Err(fault_line(alloc, b"too many files", b""));
    }
    check_titles(alloc, seed, pages)?;
    read_pages(alloc, shelf, folder, pages)
}
