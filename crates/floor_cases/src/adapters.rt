//! Each adapter over the real thing: folders with files and links, and streams.
use crate::rows::{holds, words};
use crate::shelves::{all_answer, puts};
use std::alloc::{AllocError, Global};
use std::fs;
use std::os::unix::fs::symlink;
use std::test::Fail;
use wk_shelf::{FolderShelf, Shelf, StreamSink};

/// Whether a folder is made.
fn makes_folder(rt: &HostRuntime, path: &str) -> bool {
    fs::create_dir(rt, path).is_ok()
}

/// Whether a text is written into a file.
fn writes_file(rt: &HostRuntime, path: &str, text: &[u8]) -> bool {
    fs::write(rt, path, text).is_ok()
}

fn makes_two_files(rt: &HostRuntime) -> bool {
    makes_folder(rt, "d")
        && writes_file(rt, "d/B.wiki", b"two\n")
        && writes_file(rt, "d/A.wiki", b"one")
}

#[test]
fn a_folder_is_listed_and_read(rt: HostRuntime) -> Result<(), Fail> {
    holds(&rt, makes_two_files(&rt), "files");
    let mut shelf = FolderShelf::new(rt.alloc(), rt.clone()?);
    let rows = "sort d => A.wiki/B.wiki/
d/B.wiki 3 => two
d/C.wiki 3 => !
list e => !";
    all_answer(&rt, rt.alloc(), &mut shelf, rows);
    Ok(())
}

/// A text of that many bytes in which no two places are alike for long.
fn long_text(alloc: Global, length: usize) -> Result<Vec<u8>, AllocError> {
    let mut text = Vec::new(alloc);
    let mut number = 1u32;
    for _ in 0..length {
        number = number.wrapping_mul(1_664_525).wrapping_add(1_013_904_223);
        text.push(number.to_be_bytes()[0])?;
    }
    Ok(text)
}

fn lengthen(path: &mut String, count: usize) -> Result<(), AllocError> {
    for _ in 0..count {
        path.push_str("n")?;
    }
    path.push_str(".wiki")
}

/// The path of a file of the folder `pages` whose name has so many bytes, and `.wiki` behind them.
fn long_path(alloc: Global, count: usize) -> Result<String, AllocError> {
    let mut path = String::from_str(alloc, "pages/")?;
    lengthen(&mut path, count)?;
    Ok(path)
}

/// Whether the folder `pages` lists a name.
fn names<S: Shelf>(alloc: Global, shelf: &mut S, name: &str) -> bool {
    match shelf.list(alloc, "pages") {
        Ok(names) => names.iter().any(|other| other.as_str() == name),
        Err(_) => false,
    }
}

/// Whether all of a file of the folder `pages` is this text.
fn gives<S: Shelf>(alloc: Global, shelf: &mut S, name: &str, text: &[u8]) -> bool {
    match shelf.read(alloc, "pages", name, 2_097_153) {
        Ok(bytes) => bytes.as_slice() == text,
        Err(_) => false,
    }
}

/// Whether a file with this path is given whole by the shelf, and listed.
fn is_given(rt: &HostRuntime, path: &str, text: &[u8]) -> bool {
    let name = path.strip_prefix("pages/").unwrap_or("");
    match rt.clone() {
        Ok(files) => {
            let mut shelf = FolderShelf::new(rt.alloc(), files);
            gives(rt.alloc(), &mut shelf, name, text) && names(rt.alloc(), &mut shelf, name)
        }
        Err(_) => false,
    }
}

/// Whether a text is written, and then given whole.
fn is_kept(rt: &HostRuntime, path: &str, text: &[u8]) -> bool {
    writes_file(rt, path, text) && is_given(rt, path, text)
}

/// Whether a text is kept in a file whose name has so many bytes, and `.wiki` behind them.
fn is_kept_by_name(rt: &HostRuntime, count: usize, text: &[u8]) -> bool {
    match long_path(rt.alloc(), count) {
        Ok(path) => is_kept(rt, path.as_str(), text),
        Err(_) => false,
    }
}

/// The same of a text of so many bytes.
fn is_read_whole(rt: &HostRuntime, count: usize, length: usize) -> bool {
    match long_text(rt.alloc(), length) {
        Ok(text) => is_kept_by_name(rt, count, text.as_slice()),
        Err(_) => false,
    }
}

/// Whether files of names and lengths are read to their end.
fn are_read_whole(rt: &HostRuntime) -> bool {
    for (count, length) in [(1, 0), (35, 65_537), (36, 200_000), (245, 2_097_152)] {
        if !is_read_whole(rt, count, length) {
            return false;
        }
    }
    true
}

#[test]
fn files_are_read_to_their_end_whatever_their_name(rt: HostRuntime) -> Result<(), Fail> {
    holds(&rt, makes_folder(&rt, "pages"), "a folder");
    holds(&rt, are_read_whole(&rt), "files");
    Ok(())
}

/// What is made in the folder `strange`, line by line: a link and its target.
fn links() -> &'static str {
    "strange/broken.wiki nowhere
strange/itself.wiki itself.wiki
strange/to_folder.wiki folder.wiki
strange/to_device.wiki /dev/null
strange/to_file.wiki text"
}

fn makes_link(rt: &HostRuntime, link: &str, target: &str) -> bool {
    symlink(rt, target, link).is_ok()
}

fn makes_links(rt: &HostRuntime) -> bool {
    for line in links().lines() {
        let (link, target) = words(line);
        if !makes_link(rt, link, target) {
            return false;
        }
    }
    true
}

fn makes_strange(rt: &HostRuntime) -> bool {
    makes_folder(rt, "strange")
        && makes_folder(rt, "strange/folder.wiki")
        && writes_file(rt, "strange/text", b"linked")
        && makes_links(rt)
}

#[test]
fn what_is_no_file_is_not_read(rt: HostRuntime) -> Result<(), Fail> {
    holds(&rt, makes_strange(&rt), "links");
    let mut shelf = FolderShelf::new(rt.alloc(), rt.clone()?);
    let rows = "strange/folder.wiki 3 => !
strange/broken.wiki 3 => !
strange/itself.wiki 3 => !
strange/to_folder.wiki 3 => !
strange/to_device.wiki 3 => !
strange/to_file.wiki 9 => linked";
    all_answer(&rt, rt.alloc(), &mut shelf, rows);
    Ok(())
}

/// Whether pieces are put into a file as it is said of them.
fn writes(rt: &HostRuntime, path: &str, rows: &[(&[u8], bool)]) -> bool {
    match fs::create(rt, path) {
        Ok(file) => puts(&mut StreamSink::new(rt.alloc(), file), rows),
        Err(_) => false,
    }
}

/// Whether a file has these bytes.
fn has_bytes(rt: &HostRuntime, path: &str, bytes: &[u8]) -> bool {
    match fs::read(rt, path) {
        Ok(read) => read.as_slice() == bytes,
        Err(_) => false,
    }
}

/// Whether a text of so many bytes is put into a file in one piece.
fn writes_long(rt: &HostRuntime, length: usize) -> bool {
    match long_text(rt.alloc(), length) {
        Ok(text) => {
            writes(rt, "long", &[(text.as_slice(), true)]) && has_bytes(rt, "long", &text)
        }
        Err(_) => false,
    }
}

#[test]
fn a_stream_takes_a_piece_whole(rt: HostRuntime) -> Result<(), Fail> {
    let pieces: [(&[u8], bool); 2] = [(b"some ", true), (b"text", true)];
    holds(&rt, writes(&rt, "written", &pieces), "pieces");
    holds(&rt, has_bytes(&rt, "written", b"some text"), "written");
    holds(&rt, writes_long(&rt, 200_000), "a long piece");
    Ok(())
}

/// Whether a piece is refused by a stream with room for three bytes, and an empty one taken.
fn is_full(alloc: Global) -> bool {
    let mut room = [0u8; 3];
    let mut full = StreamSink::new(alloc, room.as_mut_slice());
    puts(&mut full, &[(b"abcd", false), (b"", true)])
}

#[test]
fn a_stream_that_takes_nothing_counts_a_fault(rt: HostRuntime) -> Result<(), Fail> {
    let piece: [(&[u8], bool); 1] = [(b"a", false)];
    holds(&rt, writes(&rt, "/dev/full", &piece), "a full device");
    holds(&rt, is_full(rt.alloc()), "a full slice");
    Ok(())
}
