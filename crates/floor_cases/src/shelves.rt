//! The kinds in memory by tables.
use crate::rows::{holds, sides, words};
use std::alloc::Global;
use std::hash::RandomState;
use std::io;
use std::process::Abort;
use std::random::RandomSource;
use std::test::Fail;
use wk_base::{Bytes, List, NoMemory, Title};
use wk_shelf::{
    FolderFault, FolderPage, MemoryFile, MemoryShelf, MemorySink, Shelf, ShelfFault, Sink,
    can_hold, read_folder, sorted_names,
};

/// A source whose bytes are all 5, so that each run of the tests is the same.
struct Fives;

impl RandomSource for Fives {
    fn fill_bytes(&self, bytes: &mut [u8]) -> io::Result<()> {
        bytes.fill(5);
        Ok(())
    }
}

fn fixed_seed() -> io::Result<RandomState> {
    RandomState::new(&Fives)
}

fn file(alloc: Global, folder: &str, name: &[u8], bytes: &[u8]) -> Result<MemoryFile, NoMemory> {
    let folder = Bytes::of(alloc, folder.as_bytes())?;
    let name = Bytes::of(alloc, name)?;
    let bytes = Bytes::of(alloc, bytes)?;
    Ok(MemoryFile {
        folder,
        name,
        bytes,
    })
}

/// Puts a file behind others, `FOLDER/NAME=TEXT`; where nothing else is said, in the folder `d` and with these bytes.
fn add_file(
    alloc: Global,
    files: &mut List<MemoryFile>,
    word: &str,
    bytes: &[u8],
) -> Result<(), NoMemory> {
    let (folder, named) = word.split_once('/').unwrap_or(("d", word));
    let made = match named.split_once('=') {
        Some((name, text)) => file(alloc, folder, name.as_bytes(), text.as_bytes()),
        None => file(alloc, folder, named.as_bytes(), bytes),
    };
    files.push(made?)
}

/// The files of a line, with spaces between.
fn files_of(alloc: Global, line: &str, bytes: &[u8]) -> Result<List<MemoryFile>, NoMemory> {
    let mut files = List::new(alloc);
    for word in line.split_whitespace() {
        add_file(alloc, &mut files, word, bytes)?;
    }
    Ok(files)
}

/// A list of one number.
fn one(alloc: Global, number: u64) -> Result<List<u64>, NoMemory> {
    let mut list = List::new(alloc);
    list.push(number)?;
    Ok(list)
}

fn put(line: &mut Vec<u8>, bytes: &[u8]) -> Result<(), NoMemory> {
    match line.extend_from_slice(bytes) {
        Ok(_) => Ok(()),
        Err(_) => Err(NoMemory),
    }
}

/// Puts a name with a mark behind it.
fn put_name(line: &mut Vec<u8>, name: &[u8], mark: &[u8]) -> Result<(), NoMemory> {
    put(line, name)?;
    put(line, mark)
}

/// Names, each with `/` behind it.
fn joined(alloc: Global, names: &[String]) -> Result<Vec<u8>, NoMemory> {
    let mut line = Vec::new(alloc);
    for name in names {
        put_name(&mut line, name.as_str().as_bytes(), b"/")?;
    }
    Ok(line)
}

/// Whether these are the names, each with `/` behind it.
fn are_named(alloc: Global, names: &[String], wanted: &str) -> bool {
    match joined(alloc, names) {
        Ok(line) => line.as_slice() == wanted.as_bytes(),
        Err(_) => false,
    }
}

/// Whether a call failed, as it is said of it.
fn failed_as(fault: ShelfFault, wanted: &str) -> bool {
    fault == ShelfFault::Failed && wanted == "!"
}

/// Whether a folder lists these names, or fails.
fn lists<S: Shelf>(alloc: Global, shelf: &mut S, folder: &str, wanted: &str) -> bool {
    match shelf.list(alloc, folder) {
        Ok(names) => are_named(alloc, names.as_slice(), wanted),
        Err(fault) => failed_as(fault, wanted),
    }
}

/// Whether these are the names of a folder in byte order.
fn sorts<S: Shelf>(alloc: Global, shelf: &mut S, folder: &str, wanted: &str) -> bool {
    match sorted_names(alloc, shelf, folder) {
        Ok(names) => are_named(alloc, names.as_slice(), wanted),
        Err(_) => false,
    }
}

/// Whether so many bytes of a file are these, or can't be read.
fn reads<S: Shelf>(
    alloc: Global,
    shelf: &mut S,
    folder: &str,
    name: &str,
    most: usize,
    wanted: &str,
) -> bool {
    match shelf.read(alloc, folder, name, most) {
        Ok(bytes) => bytes.as_slice() == wanted.as_bytes(),
        Err(fault) => failed_as(fault, wanted),
    }
}

/// The same, where the path stands in one text.
fn reads_path<S: Shelf>(
    alloc: Global,
    shelf: &mut S,
    path: &str,
    most: usize,
    wanted: &str,
) -> bool {
    match path.split_once('/') {
        Some((folder, name)) => reads(alloc, shelf, folder, name, most, wanted),
        None => false,
    }
}

/// Whether a call is answered so: `list FOLDER`, `sort FOLDER`, or a path and how many bytes are read.
fn gives<S: Shelf>(alloc: Global, shelf: &mut S, call: &str, wanted: &str) -> bool {
    let (name, given) = words(call);
    match name {
        "list" => lists(alloc, shelf, given, wanted),
        "sort" => sorts(alloc, shelf, given, wanted),
        _ => reads_path(
            alloc,
            shelf,
            name,
            given.parse::<usize>().unwrap_or(0),
            wanted,
        ),
    }
}

/// Whether a call is answered as its row says.
fn answers<S: Shelf>(alloc: Global, shelf: &mut S, row: &str) -> bool {
    let (call, wanted) = sides(row);
    gives(alloc, shelf, call, wanted)
}

/// Calls of a shelf, and what they give: names with `/` behind each, the bytes that are read (of a file, at most so many), or `!`
/// for a call that fails.
pub fn all_answer<S: Shelf>(rt: &impl Abort, alloc: Global, shelf: &mut S, rows: &str) {
    for row in rows.lines() {
        holds(rt, answers(alloc, shelf, row), row);
    }
}

/// Calls of a shelf in memory, of which that of the number 3 fails.
fn calls() -> &'static str {
    "list d => b/a\u{e9}/
sort d => a\u{e9}/b/
d/b 4 => abcd
d/b 4 => !
d/c 4 => "
}

const THREE_FILES: &str = "b=abcdef e/b= a\u{e9}=x";

#[test]
fn a_shelf_in_memory_tells_its_files(rt: HostRuntime) -> Result<(), Fail> {
    let files = files_of(rt.alloc(), THREE_FILES, b"")?;
    assert!(rt; can_hold(files.as_slice()));
    let fail = one(rt.alloc(), 3)?;
    let mut shelf = MemoryShelf::new(rt.alloc(), files, fail);
    all_answer(&rt, rt.alloc(), &mut shelf, calls());
    Ok(())
}

/// Whether a shelf holds no second file of a name.
fn refuses_twice(alloc: Global) -> Result<bool, NoMemory> {
    let mut files = files_of(alloc, THREE_FILES, b"")?;
    add_file(alloc, &mut files, "e/b=twice", b"")?;
    Ok(!can_hold(files.as_slice()))
}

/// Whether a shelf holds no file whose name is not UTF-8.
fn refuses_wrong(alloc: Global) -> Result<bool, NoMemory> {
    let mut files = List::new(alloc);
    files.push(file(alloc, "d", b"\xff", b"")?)?;
    Ok(!can_hold(files.as_slice()))
}

#[test]
fn a_shelf_in_memory_holds_no_two_files_of_one_name(rt: HostRuntime) -> Result<(), Fail> {
    holds(&rt, refuses_twice(rt.alloc()) == Ok(true), "twice");
    holds(&rt, refuses_wrong(rt.alloc()) == Ok(true), "not UTF-8");
    Ok(())
}

/// Puts pieces one after another. Returns whether those are taken of which it is said.
pub fn puts<S: Sink>(sink: &mut S, rows: &[(&[u8], bool)]) -> bool {
    for (piece, taken) in rows {
        if sink.put(piece).is_ok() != *taken {
            return false;
        }
    }
    true
}

/// A sink of which a call fails.
fn sink(alloc: Global, call: u64, room: usize) -> Result<MemorySink, NoMemory> {
    let fail = one(alloc, call)?;
    MemorySink::new(alloc, fail, room)
}

#[test]
fn a_sink_in_memory_keeps_what_fits(rt: HostRuntime) -> Result<(), Fail> {
    let mut sink = sink(rt.alloc(), 1, 5)?;
    let rows: [(&[u8], bool); 5] = [
        (b"abc", true),
        (b"d", false),
        (b"def", false),
        (b"de", true),
        (b"", true),
    ];
    holds(&rt, puts(&mut sink, &rows), "puts");
    holds(&rt, sink.bytes() == b"abcde".as_slice(), "bytes");
    Ok(())
}

fn add_title(line: &mut Vec<u8>, title: &Title) -> Result<(), NoMemory> {
    let text = title.text()?;
    put_name(line, text.as_slice(), b";")
}

/// The titles of pages in order, each with `;` behind it.
fn titles(alloc: Global, pages: &[FolderPage]) -> Result<Vec<u8>, NoMemory> {
    let mut line = Vec::new(alloc);
    for page in pages {
        add_title(&mut line, &page.title)?;
    }
    Ok(line)
}

fn have_titles(alloc: Global, pages: &[FolderPage], wanted: &str) -> bool {
    match titles(alloc, pages) {
        Ok(line) => line.as_slice() == wanted.as_bytes(),
        Err(_) => false,
    }
}

/// Whether these are the titles of a folder's pages in order, or the line of its fault.
fn is_folder(alloc: Global, seed: RandomState, shelf: &mut MemoryShelf, wanted: &str) -> bool {
    match read_folder(alloc, seed, shelf, "d") {
        Ok(pages) => have_titles(alloc, pages.as_slice(), wanted),
        Err(FolderFault::Source(line)) => line.as_slice() == wanted.as_bytes(),
        Err(_) => false,
    }
}

/// A shelf of files that a line names, which all hold these bytes, if it can hold them.
fn shelf_of(alloc: Global, names: &str, bytes: &[u8]) -> Option<MemoryShelf> {
    match files_of(alloc, names, bytes) {
        Ok(files) if can_hold(files.as_slice()) => {
            Some(MemoryShelf::new(alloc, files, List::new(alloc)))
        }
        _ => None,
    }
}

/// Whether a row of folders holds.
fn folder_row_holds(alloc: Global, seed: RandomState, row: &str, bytes: &[u8]) -> bool {
    let (names, wanted) = sides(row);
    match shelf_of(alloc, names, bytes) {
        Some(mut shelf) => is_folder(alloc, seed, &mut shelf, wanted),
        None => false,
    }
}

/// The names of the files of a folder, and the titles of its pages in order with `;` behind each, or the line of its fault.
fn folders() -> &'static str {
    " => 
b.wiki A.wiki notes.txt x.lua.bak => A;B;
template:foo__bar.wiki Module:x.lua => Module:X;Template:Foo bar;
caf%C3%A9.wiki Sum%2Ftestcases.lua => Sum/testcases;Caf\u{e9};
100%.wiki 50%2.wiki => 100%;50%2;
a.wiki A.wiki => a.wiki: title is taken
a.lua a.wiki => a.wiki: title is taken
A%20b.wiki A_b.wiki |.wiki => A_b.wiki: title is taken
.wiki => .wiki: not a title
Talk:.wiki A.wiki => Talk:.wiki: not a title
%FF.wiki => %FF.wiki: not a title
a%7Cb.wiki => a%7Cb.wiki: not a title
::x.wiki => ::x.wiki: not a title
WIKI a.WIKI wiki => "
}

#[test]
fn a_folder_is_a_wiki_or_has_a_first_fault(rt: HostRuntime) -> Result<(), Fail> {
    let seed = fixed_seed()?;
    for row in folders().lines() {
        holds(&rt, folder_row_holds(rt.alloc(), seed, row, b"text"), row);
    }
    Ok(())
}

/// Whether a row of folders holds for files of so many bytes.
fn holds_long(alloc: Global, seed: RandomState, count: usize, row: &str) -> bool {
    match vec![in alloc; 0u8; count] {
        Ok(bytes) => folder_row_holds(alloc, seed, row, bytes.as_slice()),
        Err(_) => false,
    }
}

#[test]
fn a_folder_has_limits_of_bytes(rt: HostRuntime) -> Result<(), Fail> {
    let seed = fixed_seed()?;
    let fits = "A.wiki => A;";
    holds(&rt, holds_long(rt.alloc(), seed, 2_097_152, fits), fits);
    let row = "B.wiki A.wiki => A.wiki: too long";
    holds(&rt, holds_long(rt.alloc(), seed, 2_097_153, row), row);
    Ok(())
}
