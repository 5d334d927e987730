// The three ends as traits.
ghost use Rattle.std.specs.Prelude.{◌≡◌, ℕ, ◌+◌, ◌<◌, ◌≤◌, ◌^◌, Option, List, [], ◌∷◌, ◌++◌, length, take, option_map, IfOk, OnErr, IfSome, MatchResult};
ghost use Rattle.io_edges.specs.Store.{Entry, Lists, Reads, after_answer, IsCounted};
ghost use Rattle.io_edges.specs.Wire.{Traffic, after_read, after_write};

use crate::bytes::{FileBytes, PathText};
use std::alloc::Global;

/// A call of a source or a sink that failed. The end's count of faults rose in that call, and nothing else changed.
#[derive(Clone, Copy, Debug, PartialEq, Eq)]
pub struct Failed;

/// The numbers of bytes taken from a wire's source and written to its sink, at one moment.
#[derive(Clone, Copy, Debug, PartialEq, Eq)]
pub struct Mark {
    pub taken: u64,
    pub written: u64,
}

/// A regular file that a store lists.
#[derive(Debug, Drop)]
pub enum Listed {
    /// Its path.
    File(PathText),
    /// A name that isn't UTF-8.
    NoText,
}

/// What a store has at a path.
#[derive(Debug, Drop)]
pub enum Found {
    /// There is no file, or none that may be opened.
    Absent,
    /// A file of more than 4,194,304 bytes.
    TooLarge,
    /// A file's bytes.
    Bytes(FileBytes),
}

/// Why a call of a store gave no answer.
#[derive(Clone, Copy, Debug, PartialEq, Eq)]
pub enum StoreFail {
    /// A fault, which was counted.
    Failed,
    /// Want of memory.
    NoMemory,
}

/// Where a client's bytes come from, the source, and where the replies go, the sink.
pub trait Wire {
    /// What it tells of its content; None tells nothing.
    ghost told: { Self → Option Traffic };

    /// The faults of the source so far.
    ghost read_faults: { Self → ℕ };

    /// The faults of the sink so far.
    ghost write_faults: { Self → ℕ };

    /// Takes the next bytes into the front of `into`, and answers how many; 0 says that the input is at its end.
    fn read(&mut self, into: &mut [u8]) -> Result<usize, Failed>
        requires room { 0 < length into.old }
        requires countable { read_faults self.old + 1 < 2 ^ 64 }
        ensures within { IfOk result (λ n. n ≤ length into.old) }
        ensures taken { IfOk result (λ n. told self.new ≡ option_map (after_read (take n into.new)) (told self.old)) }
        ensures front { IfOk result (λ n. IfSome (told self.old) (λ t. take n t.left ≡ take n into.new)) }
        ensures at_end { IfOk result (λ n. n ≡ 0 → IfSome (told self.old) (λ t. t.left ≡ [])) }
        ensures failed { OnErr result (told self.new ≡ told self.old) }
        ensures counted { MatchResult result (λ _. read_faults self.new ≡ read_faults self.old)
            (λ _. read_faults self.old < read_faults self.new) }
        ensures other_side { write_faults self.new ≡ write_faults self.old };

    /// Writes a front of the bytes, and answers its length, which isn't 0.
    fn write(&mut self, bytes: &[u8]) -> Result<usize, Failed>
        requires some { 0 < length bytes.now }
        requires countable { write_faults self.old + 1 < 2 ^ 64 }
        ensures amount { IfOk result (λ n. (0 < n) × (n ≤ length bytes.now)) }
        ensures written { IfOk result (λ n. told self.new ≡ option_map (after_write (take n bytes.now)) (told self.old)) }
        ensures failed { OnErr result (told self.new ≡ told self.old) }
        ensures counted { MatchResult result (λ _. write_faults self.new ≡ write_faults self.old)
            (λ _. write_faults self.old < write_faults self.new) }
        ensures other_side { read_faults self.new ≡ read_faults self.old };
}

/// Where bytes go.
pub trait Sink {
    /// The bytes written so far; None tells nothing.
    ghost written: { Self → Option (List ℕ) };

    /// The faults so far.
    ghost faults: { Self → ℕ };

    /// Writes a front of the bytes, and answers its length, which isn't 0.
    fn write(&mut self, bytes: &[u8]) -> Result<usize, Failed>
        requires some { 0 < length bytes.now }
        requires countable { faults self.old + 1 < 2 ^ 64 }
        ensures amount { IfOk result (λ n. (0 < n) × (n ≤ length bytes.now)) }
        ensures appended { IfOk result (λ n. written self.new ≡ option_map (λ all. all ++ take n bytes.now) (written self.old)) }
        ensures failed { OnErr result (written self.new ≡ written self.old) }
        ensures counted { MatchResult result (λ _. faults self.new ≡ faults self.old)
            (λ _. faults self.old < faults self.new) };
}

/// Where files are read.
pub trait Store {
    /// Its answers so far, in order, each with its call; None tells nothing. A refused call adds none.
    ghost answers: { Self → Option (List Entry) };

    /// The faults so far.
    ghost faults: { Self → ℕ };

    /// The regular files under the root, at every depth, links not followed, in any order.
    fn list(&mut self, alloc: Global, root: &str) -> Result<Vec<Listed>, StoreFail>
        requires { faults self.old + 1 < 2 ^ 64 }
        ensures listed { IfOk result (λ found. answers self.new ≡ option_map (after_answer (Lists root.now found.items)) (answers self.old)) }
        ensures failed { OnErr result (answers self.new ≡ answers self.old) }
        ensures counted { MatchResult result (λ _. faults self.new ≡ faults self.old)
            (λ e. IsCounted e (faults self.old) (faults self.new)) };

    /// What the store has at a path.
    fn read(&mut self, alloc: Global, path: &str) -> Result<Found, StoreFail>
        requires { faults self.old + 1 < 2 ^ 64 }
        ensures found { IfOk result (λ found. answers self.new ≡ option_map (after_answer (Reads path.now found)) (answers self.old)) }
        ensures failed { OnErr result (answers self.new ≡ answers self.old) }
        ensures counted { MatchResult result (λ _. faults self.new ≡ faults self.old)
            (λ e. IsCounted e (faults self.old) (faults self.new)) };
}
