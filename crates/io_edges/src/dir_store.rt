// The store over the file system. It tells no answers.
ghost use Rattle.std.specs.Prelude.{◌≡◌, ℕ, ◌+◌, ◌<◌, ◌^◌, None, Some, IfOk, IfSome, MatchResult};
ghost use Rattle.io_edges.specs.Files.{found_in};
ghost use Rattle.io_edges.specs.Outside.{refused_faults};

use crate::bytes::{FileBytes, PathText};
use crate::ends::{Found, Listed, Store, StoreFail};
use std::alloc::Global;
use std::fs::DirEntry;
use std::io::{ErrorKind, Read};
use std::marker::Model;
use std::{fs, io};

/// The most bytes that a file may have to be given.
const MOST_BYTES: usize = 4_194_304;

/// The file system of the process.
#[derive(Drop)]
pub struct DirStore {
    rt: HostRuntime,
    faults: u64,
}

impl Model for DirStore {
    ghost use Rattle.std.specs.Prelude.{ℕ};

    ghost Value = { ℕ };

    ghost view = { λ s. s.faults };
}

impl DirStore {
    /// The file system, with no faults yet.
    pub fn new(rt: &HostRuntime) -> DirStore
        ensures { result ≡ 0 }
    {
        DirStore { rt: *rt, faults: 0 }
    }

    /// The refusal for an error of the system; one that isn't want of memory is counted.
    fn refuse(&mut self, error: &io::Error) -> StoreFail
        requires { self.old + 1 < 2 ^ 64 }
        ensures { self.new ≡ refused_faults result self.old }
    {
        if error.kind() == ErrorKind::OutOfMemory {
            return StoreFail::NoMemory;
        }
        self.faults += 1;
        StoreFail::Failed
    }
}

impl Store for DirStore {
    ghost answers = { λ _. None };

    ghost faults = { λ s. s };

    /// The regular files under a folder, at every depth. Links aren't followed, and a folder that is missing or may not
    /// be read has no files. A name that isn't UTF-8 gives one `NoText`, and isn't entered if it is a folder's.
    fn list(&mut self, alloc: Global, root: &str) -> Result<Vec<Listed>, StoreFail>
        requires { self.old + 1 < 2 ^ 64 }
        ensures after { MatchResult result (λ _. self.new ≡ self.old) (λ e. self.new ≡ refused_faults e self.old) }
    {
        match walk(alloc, &self.rt, root) {
            Ok(found) => Ok(found),
            Err(error) => Err(self.refuse(&error)),
        }
    }

    /// The bytes of the regular file with this path. What isn't there, isn't a regular file or may not be opened is
    /// absent.
    fn read(&mut self, alloc: Global, path: &str) -> Result<Found, StoreFail>
        requires { self.old + 1 < 2 ^ 64 }
        ensures after { MatchResult result (λ _. self.new ≡ self.old) (λ e. self.new ≡ refused_faults e self.old) }
    {
        match read_file(alloc, &self.rt, path) {
            Ok(found) => Ok(found),
            Err(error) if is_missing(error.kind()) => Ok(Found::Absent),
            Err(error) => Err(self.refuse(&error)),
        }
    }
}

/// Whether an error says that a path names nothing that may be opened: the last three come where a path is too long,
/// has a link that leads back to itself, or has a zero byte.
fn is_missing(kind: ErrorKind) -> bool {
    matches!(
        kind,
        ErrorKind::NotFound
            | ErrorKind::PermissionDenied
            | ErrorKind::NotADirectory
            | ErrorKind::InvalidFilename
            | ErrorKind::FilesystemLoop
            | ErrorKind::InvalidInput
    )
}

/// What a path has. Its metadata are asked for first, since opening a fifo waits for its other end.
fn read_file(alloc: Global, rt: &HostRuntime, path: &str) -> io::Result<Found> {
    let metadata = fs::metadata(rt, path)?;
    if !metadata.is_file() {
        return Ok(Found::Absent);
    }
    if metadata.len() > MOST_BYTES as u64 {
        return Ok(Found::TooLarge);
    }
    read_bytes(alloc, fs::open(rt, path)?)
}

/// The bytes of a file, which may have grown since.
fn read_bytes<R: Read + Drop>(alloc: Global, file: R) -> io::Result<Found>
    ensures { IfOk result (λ found. IfSome (R.remaining file) (λ bytes. found ≡ found_in (Some bytes))) }
{
    let mut bytes = Vec::new(alloc);
    file.take(MOST_BYTES as u64 + 1).read_to_end(&mut bytes)?;
    if bytes.len() > MOST_BYTES {
        return Ok(Found::TooLarge);
    }
    Ok(Found::Bytes(FileBytes::from_vec(bytes)))
}

/// The regular files under a folder.
fn walk(alloc: Global, rt: &HostRuntime, root: &str) -> io::Result<Vec<Listed>> {
    let mut found = Vec::new(alloc);
    let mut folders = Vec::new(alloc);
    folders.push(String::from_str(alloc, root)?)?;
    for _ in 0..u64::MAX {
        let Some(folder) = folders.pop() else {
            break;
        };
        match list_folder(alloc, rt, folder.as_str(), &mut found, &mut folders) {
            Ok(()) => {}
            Err(error) if is_missing(error.kind()) => {}
            Err(error) => return Err(error),
        }
    }
    Ok(found)
}

/// Adds the files of one folder to `found`, and its folders to `folders`.
fn list_folder(
    alloc: Global,
    rt: &HostRuntime,
    folder: &str,
    found: &mut Vec<Listed>,
    folders: &mut Vec<String>,
) -> io::Result<()> {
    for entry in fs::read_dir(rt, folder)? {
        match entry {
            Ok(entry) => add_entry(alloc, &entry, found, folders)?,
            Err(error) if error.kind() == ErrorKind::InvalidFilename => found.push(Listed::NoText)?,
            Err(error) => return Err(error),
        }
    }
    Ok(())
}

/// Adds an entry of a folder where it belongs; one that has gone by now, and one of another kind, is passed over.
fn add_entry(
    alloc: Global,
    entry: &DirEntry,
    found: &mut Vec<Listed>,
    folders: &mut Vec<String>,
) -> io::Result<()> {
    let kind = match entry.file_type() {
        Ok(kind) => kind,
        Err(error) if is_missing(error.kind()) => return Ok(()),
        Err(error) => return Err(error),
    };
    if kind.is_dir() {
        folders.push(String::from_str(alloc, entry.path().as_str())?)?;
    } else if kind.is_file() {
        let path = PathText::from_string(String::from_str(alloc, entry.path().as_str())?);
        found.push(Listed::File(path))?;
    }
    Ok(())
}
