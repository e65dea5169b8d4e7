//! A shelf over the folders of the file system.
ghost use Rattle.std.specs.Prelude.{◌≡◌, ◌≤◌, None};
ghost use Rattle.wk_shelf.specs.Causes.{Rose};

use crate::{Shelf, ShelfFault};
use std::alloc::Global;
use std::io::Read;
use std::marker::Model;
use std::rt::Files;
use std::{fs, io};
use wk_base::Bytes;

/// Real folders. It tells no content, and counts the calls that failed.
#[derive(Drop)]
pub struct FolderShelf<F> {
    files: F,
    alloc: Global,
    faults: u64,
}

impl<F> Model for FolderShelf<F> {
    ghost use Rattle.std.specs.Prelude.{ℕ};

    ghost Value = { ℕ };

    ghost view = { λ s. s.faults };
}

impl<F> FolderShelf<F> {
    /// A shelf over the runtime's own file system.
    pub fn new(alloc: Global, files: F) -> FolderShelf<F>
        ensures { result ≡ 0 }
    {
        FolderShelf {
            files,
            alloc,
            faults: 0,
        }
    }
}

fn names<F: Files + AllocGlobal + Clone + Drop>(
    files: &F,
    folder: &str,
) -> io::Result<Vec<String>> {
    let mut names = Vec::new(files.alloc());
    for entry in fs::read_dir(files, folder)? {
        let entry = entry?;
        let name = String::from_str(files.alloc(), entry.file_name())?;
        names.push(name)?;
    }
    Ok(names)
}

/// The bytes of a file up to `most` of them. A pipe, a socket, a device or a folder of that name, also behind a link, is no
/// file: it is not opened, since what opens or reads it could wait for ever.
fn first_bytes<F: Files + AllocGlobal + Clone + Drop>(
    files: &F,
    folder: &str,
    name: &str,
    most: usize,
) -> io::Result<Vec<u8>> {
    let path = format!(in files.alloc(); "{folder}/{name}")?;
    let metadata = fs::metadata(files, path.as_str())?;
    if !metadata.is_file() {
        return Err(io::Error::from(io::ErrorKind::InvalidInput));
    }
    let file = fs::open(files, path.as_str())?;
    // With room for one byte more than there are, the end is found without growing.
    let size = usize::try_from(metadata.len()).unwrap_or(most).min(most);
    let mut bytes = Vec::with_capacity(files.alloc(), size.saturating_add(1))?;
    file.take(u64::try_from(most).unwrap_or(u64::MAX))
        .read_to_end(&mut bytes)?;
    Ok(bytes)
}

/// What an error of the file system is to the shelf. Each but want of memory is counted.
fn counted_fault(faults: &mut u64, error: &io::Error) -> ShelfFault
    ensures later { faults.old ≤ faults.new }
    ensures cause { result ≡ ShelfFault.Failed → Rose faults.old faults.new }
{
    if error.kind() == io::ErrorKind::OutOfMemory {
        return ShelfFault::NoMemory;
    }
    *faults = faults.saturating_add(1);
    ShelfFault::Failed
}

impl<F: Files + AllocGlobal + Clone + Drop> Shelf for FolderShelf<F> {
    ghost files = { λ _. None };

    ghost faults = { λ s. s };

    fn list(&mut self, alloc: Global, folder: &str) -> Result<Vec<String>, ShelfFault> {
        match names(&self.files, folder) {
            Ok(names) => Ok(names),
            Err(error) => Err(counted_fault(&mut self.faults, &error)),
        }
    }

    fn read(
        &mut self,
        alloc: Global,
        folder: &str,
        name: &str,
        most: usize,
    ) -> Result<Bytes, ShelfFault> {
        match first_bytes(&self.files, folder, name, most) {
            Ok(bytes) => Ok(Bytes::of_vec(bytes)),
            Err(error) => Err(counted_fault(&mut self.faults, &error)),
        }
    }
}
