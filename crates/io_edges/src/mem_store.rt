// The store in memory.
ghost use Rattle.std.specs.Prelude.{◌≡◌, ℕ, ◌+◌, ◌<◌, ◌≤◌, ◌^◌, Some, false, [], ◌++◌, length, map, reverse, option_map, ◌&&◌, not, IfOk, IfErr, OnErr, MatchResult};
ghost use Rattle.std.specs.String.{string_bytes};
ghost use Rattle.std.specs.Str.{bytes_eq};
ghost use Rattle.std.specs.List.{list_any, find};
ghost use Rattle.io_edges.specs.Store.{Entry, Lists, Reads, after_answer, IsCounted};
ghost use Rattle.io_edges.specs.Files.{
  MemoryStore,
  answers_of,
  bytes_at,
  found_at,
  has_path,
  is_under,
  listed,
  store_fails,
  store_listed,
  store_read,
  is_fault,
  IsRefused,
};

use crate::bytes::{FileBytes, PathText};
use crate::ends::{Found, Listed, Store, StoreFail};
use std::alloc::{AllocError, Global};
use std::marker::Model;

/// The most bytes that a file may have to be given.
const MOST_BYTES: usize = 4_194_304;

/// A call that a store answered.
#[derive(Drop)]
enum Made {
    List(PathText),
    Read(PathText),
}

/// A store in memory: it has a few files, and fails where it is told to.
#[derive(Drop)]
pub struct MemStore {
    files: Vec<(String, Vec<u8>)>,
    failing: Vec<u64>,
    calls: Vec<Made>,
    reads: u64,
    faults: u64,
}

impl Model for MemStore {
    ghost use Rattle.std.specs.Prelude.{map};
    ghost use Rattle.std.specs.String.{string_bytes};
    ghost use Rattle.io_edges.specs.Files.{MemoryStore};
    ghost use Rattle.io_edges.specs.Made.{made_call};

    ghost Value = { MemoryStore };

    ghost view = { λ s. record {
      files = map (λ f. (string_bytes f.0, f.1.items)) s.files.items;
      failing = s.failing.items;
      calls = map made_call s.calls.items;
      reads = s.reads;
      faults = s.faults;
    } };
}

impl MemStore {
    /// A store with these files, each a path and its bytes; of two with one path the last counts. It fails at the reads
    /// with the numbers in `failing`; the first read has the number 1.
    pub fn new(alloc: Global, files: Vec<(String, Vec<u8>)>, failing: Vec<u64>) -> MemStore
        ensures { result ≡ record {
          files = map (λ f. (string_bytes f.0, f.1.items)) files.items;
          failing = failing.items;
          calls = [];
          reads = 0;
          faults = 0;
        } }
    {
        MemStore {
            files,
            failing,
            calls: Vec::new(alloc),
            reads: 0,
            faults: 0,
        }
    }

    /// Answers a read that doesn't fail.
    fn answer_read(&mut self, alloc: Global, path: &str) -> Result<Found, AllocError>
        ensures gives { IfOk result (λ found. found ≡ found_at self.old.files path.now) }
        ensures after { IfOk result (λ _. self.new ≡ store_read self.old path.now) }
        ensures refused { OnErr result (self.new ≡ self.old) }
    {
        let found = find(alloc, &self.files, path)?;
        let call = Made::Read(PathText::from_string(String::from_str(alloc, path)?));
        self.calls.push(call).map_err(AllocError::from)?;
        self.reads = self.reads.saturating_add(1);
        Ok(found)
    }
}

impl Store for MemStore {
    ghost answers = { λ s. Some (answers_of s) };

    ghost faults = { λ s. s.faults };

    /// The paths of its files under the root, each once. It fails for want of memory alone, and changes nothing then.
    fn list(&mut self, alloc: Global, root: &str) -> Result<Vec<Listed>, StoreFail>
        requires { self.old.faults + 1 < 2 ^ 64 }
        ensures listed { IfOk result (λ found. answers_of self.new ≡ after_answer (Lists root.now found.items) (answers_of self.old)) }
        ensures failed { OnErr result (answers_of self.new ≡ answers_of self.old) }
        ensures counted { MatchResult result (λ _. self.new.faults ≡ self.old.faults) (λ e. IsCounted e self.old.faults self.new.faults) }
        ensures gives { IfOk result (λ found. found.items ≡ listed self.old.files root.now) }
        ensures after { IfOk result (λ _. self.new ≡ store_listed self.old root.now) }
        ensures memory { IfErr result (λ e. e ≡ StoreFail.NoMemory) }
        ensures refused { OnErr result (self.new ≡ self.old) }
    {
        let found = list_files(alloc, &self.files, root)?;
        let call = Made::List(PathText::from_string(String::from_str(alloc, root)?));
        self.calls.push(call).map_err(AllocError::from)?;
        Ok(found)
    }

    /// What the file with this path is. It fails where its number is listed; a read that fails counts as a read, and one
    /// that finds no memory changes nothing.
    fn read(&mut self, alloc: Global, path: &str) -> Result<Found, StoreFail>
        requires { self.old.faults + 1 < 2 ^ 64 }
        ensures found { IfOk result (λ found. answers_of self.new ≡ after_answer (Reads path.now found) (answers_of self.old)) }
        ensures failed { OnErr result (answers_of self.new ≡ answers_of self.old) }
        ensures counted { MatchResult result (λ _. self.new.faults ≡ self.old.faults) (λ e. IsCounted e self.old.faults self.new.faults) }
        ensures once { self.new.faults ≤ self.old.faults + 1 }
        ensures fails { MatchResult result (λ _. store_fails self.old ≡ false) (λ e. store_fails self.old ≡ is_fault e) }
        ensures gives { IfOk result (λ found. found ≡ found_at self.old.files path.now) }
        ensures after { IfOk result (λ _. self.new ≡ store_read self.old path.now) }
        ensures refused { IfErr result (λ e. IsRefused e self.old self.new) }
    {
        let number = self.reads.saturating_add(1);
        if self.failing.contains(&number) {
            self.reads = number;
            self.faults += 1;
            return Err(StoreFail::Failed);
        }
        match self.answer_read(alloc, path) {
            Ok(found) => Ok(found),
            Err(AllocError) => Err(StoreFail::NoMemory),
        }
    }
}

/// Whether one of these files has this path.
fn has_path(files: &[(String, Vec<u8>)], path: &str) -> bool
    ensures { result ≡ list_any (λ f. bytes_eq (string_bytes f.0) path.now) files.now }
{
    files.iter().any(|file| file.0.as_str() == path)
}

/// The bytes of the last file with this path.
fn bytes_at<'a>(files: &'a [(String, Vec<u8>)], path: &str) -> Option<&'a [u8]>
    ensures { option_map (λ b. b.now) result ≡ option_map (λ f. f.1.items) (find (λ f. bytes_eq (string_bytes f.0) path.now) (reverse files.now)) }
{
    files
        .iter()
        .rev()
        .find(|file| file.0.as_str() == path)
        .map(|file| file.1.as_slice())
}

/// A copy of what is found at this path.
#[tactic(auto, using(crate::proofs::FileLemmas::bytes_shown))]
fn find(alloc: Global, files: &[(String, Vec<u8>)], path: &str) -> Result<Found, AllocError>
    ensures { IfOk result (λ found. found ≡ found_at (map (λ f. (string_bytes f.0, f.1.items)) files.now) path.now) }
{
    match bytes_at(files, path) {
        None => Ok(Found::Absent),
        Some(bytes) if bytes.len() > MOST_BYTES => Ok(Found::TooLarge),
        Some(bytes) => Ok(Found::Bytes(FileBytes::from_vec(Vec::from_slice(alloc, bytes)?))),
    }
}

/// Whether a path stands under a root.
fn is_under(root: &str, path: &str) -> bool
    ensures { result ≡ is_under root.now path.now }
{
    let (root, path) = (root.as_bytes(), path.as_bytes());
    if root == b"/".as_slice() {
        return true;
    }
    if !path.starts_with(root) {
        return false;
    }
    let (_, rest) = path.split_at(root.len());
    match rest.first() {
        None => true,
        Some(byte) => *byte == b'/',
    }
}

/// Whether a path stands under a root and isn't that of a file that follows.
#[tactic(auto, using(crate::proofs::FileLemmas::has_shown))]
fn is_listed(root: &str, path: &str, behind: &[(String, Vec<u8>)]) -> bool
    ensures { result ≡ (is_under root.now path.now && not (has_path (map (λ f. (string_bytes f.0, f.1.items)) behind.now) path.now)) }
{
    is_under(root, path) && !has_path(behind, path)
}

/// The paths of the files under a root, each once.
fn list_files(
    alloc: Global,
    files: &[(String, Vec<u8>)],
    root: &str,
) -> Result<Vec<Listed>, AllocError>
    ensures { IfOk result (λ found. found.items ≡ listed (map (λ f. (string_bytes f.0, f.1.items)) files.now) root.now) }
{
    let mut found = Vec::new(alloc);
    let mut rest = files;
    while let Some((file, behind)) = rest.split_first() {
        rest = behind;
        let path = file.0.as_str();
        if !is_listed(root, path, behind) {
            continue;
        }
        let path = PathText::from_string(String::from_str(alloc, path)?);
        found.push(Listed::File(path)).map_err(AllocError::from)?;
    }
    Ok(found)
}
