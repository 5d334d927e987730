//! Cuts a stream of bytes into the frames of the Language Server Protocol's base protocol (LSP 3.17, "Base Protocol").
//!
//! A frame is a header part and a content. The header part is lines that end with CR LF, the last of them empty. A line
//! is a field: a name, `:` and a value. The field `Content-Length` states how many bytes the content has.
#![tactic(auto)]

ghost use Rattle.std.specs.Prelude.{◌≡◌, ℕ, ◌+◌, ◌-◌, ◌^◌, ◌<◌, ◌≤◌, List, [], ◌++◌, length, take, drop, OnOk, OnErr, IsTrue, ◌↔◌, slice_get, Some};
ghost use Rattle.lsp_framing.specs.declared.FrameError.TheVariants.{NoMemory};
ghost use Rattle.lsp_framing.specs.Frames.{frames, Empty, Bad};
ghost use Rattle.lsp_framing.specs.Kinds.{kind_name};
ghost use Rattle.lsp_framing.specs.Known.{Known, KnowsContent, IsSettled};
ghost use Rattle.lsp_framing.specs.Standing.{Follows, IsEmptyOrOpen, IfContent, OnOpen, IfFault, OnNoMemory};

pub mod facts;
mod header;
mod lines;

use crate::header::{State, read_on};
use std::alloc::{AllocError, Global};
use std::marker::Model;

/// What is wrong with the bytes where a frame was to begin.
///
/// Lines are looked at one after the other, each once its CR LF is there, and on one line the faults are looked for in
/// the order `BadField`, `BadLength`, `ContentLong`.
#[derive(Clone, Copy, Debug, PartialEq, Eq)]
pub enum FrameKind {
    /// The empty line is met and no `Content-Length` stood before it. Its place is the byte after the empty line.
    NoLength,
    /// The value of a `Content-Length` has no digits, has a byte that is no digit, or states another number than an
    /// earlier one. Its place is the line's first byte.
    BadLength,
    /// The line has no name before a `:`, or a CR or LF stands inside the line. Its place is the line's first byte.
    BadField,
    /// The first 4,096 bytes of the header part hold no bad line and not the end of the empty line. Its place is the
    /// header part's first byte.
    HeaderLong,
    /// A `Content-Length` states more than 16,777,216. Its place is the line's first byte.
    ContentLong,
    /// The input ended inside a frame. `Frames` can't know this, and never answers it.
    Cut,
}

impl FrameKind {
    /// The variant's name.
    pub fn name(self) -> &'static str
        ensures { result.now ≡ kind_name self }
    {
        match self {
            FrameKind::NoLength => "NoLength",
            FrameKind::BadLength => "BadLength",
            FrameKind::BadField => "BadField",
            FrameKind::HeaderLong => "HeaderLong",
            FrameKind::ContentLong => "ContentLong",
            FrameKind::Cut => "Cut",
        }
    }
}

/// Why there is no next content.
#[derive(Clone, Copy, Debug, PartialEq, Eq)]
pub enum FrameError {
    /// What stands is faulty. `place` counts bytes from the start of the input.
    Fault { place: u64, kind: FrameKind },
    /// There was no memory for the content, and nothing changed.
    NoMemory,
}

impl From<AllocError> for FrameError {
    ghost from_gives = { λ _ e. e ≡ NoMemory };

    fn from(_: AllocError) -> FrameError {
        FrameError::NoMemory
    }
}

/// A reader of frames: bytes are fed in pieces of any size, and contents are given in order.
///
/// A contract sees the bytes that were fed and belong to no content that was given, and how many bytes stand before them.
#[derive(Drop)]
pub struct Frames {
    alloc: Global,
    /// Bytes that were fed, without some that were given.
    bytes: Vec<u8>,
    /// Where in `bytes` those begin that were not given.
    start: usize,
    /// How many bytes of the input stand before these.
    place: u64,
    /// What is known of these.
    state: State,
}

impl Model for Frames {
    ghost use Rattle.std.specs.Prelude.{◌+◌, ◌-◌, ◌^◌, ◌<◌, ◌≤◌, drop, length};
    ghost use Rattle.lsp_framing.specs.Standing.{Standing};
    ghost use Rattle.lsp_framing.specs.Known.{Known};

    ghost Value = { Standing };

    ghost view = { λ f. record { place = f.place; bytes = drop f.start f.bytes.items } };

    ghost invariant = { λ f.
        (f.start ≤ length f.bytes.items)
        × (f.place + (length f.bytes.items - f.start) < 2 ^ 63)
        × Known f.state (drop f.start f.bytes.items) };
}

impl Frames {
    /// A reader to which nothing was fed. It takes no memory.
    pub fn new(alloc: Global) -> Frames
        ensures { Follows [] 0 result }
    {
        Frames {
            alloc,
            bytes: Vec::new(alloc),
            start: 0,
            place: 0,
            state: State::START,
        }
    }

    /// Takes the next bytes of the input. An `Err` changes nothing.
    ///
    /// No byte is moved more than a constant number of times, however the input is cut.
    pub fn feed(&mut self, bytes: &[u8]) -> Result<(), AllocError>
        // Fewer than 2^63 bytes are fed in all.
        requires { self.old.place + length self.old.bytes + length bytes.now < 2 ^ 63 }
        ensures ok { OnOk result (self.new ≡ record self.old { bytes = self.old.bytes ++ bytes.now }) }
        ensures fed { OnOk result ((fed : List ℕ) (given : ℕ)
            → Follows fed given self.old → Follows (fed ++ bytes.now) given self.new) }
        ensures err { OnErr result (self.new ≡ self.old) }
    {
        self.compact();
        self.bytes.extend_from_slice(bytes)?;
        Ok(())
    }

    /// Gives up the bytes that were given, where these are at least as many as the others.
    fn compact(&mut self)
        ensures { self.new ≡ self.old }
    {
        let start = self.start;
        if self.bytes.len() - start <= start {
            remove_front(&mut self.bytes, start);
            self.start = 0;
        }
    }

    /// The content of the next frame, or `None` exactly where what stands is empty or may yet become a frame. It is an
    /// `Err` exactly where what stands is faulty, from then on for good, or where there is no memory for the content.
    ///
    /// The cost of all calls is linear in the bytes of the input: no header part is read again from its front.
    pub fn next(&mut self) -> Result<Option<Vec<u8>>, FrameError>
        // It is the content of the input's next frame, which is given then.
        ensures content { IfContent result (λ content. (fed : List ℕ) (given : ℕ)
            → Follows fed given self.old
            → (slice_get (frames fed).contents given ≡ Some content) × Follows fed (given + 1) self.new) }
        ensures shrinks { IfContent result (λ _. length self.new.bytes < length self.old.bytes) }
        // Every frame was given, and what stands may yet become one.
        ensures open { OnOpen result ((fed : List ℕ) (given : ℕ)
            → Follows fed given self.old
            → (length (frames fed).contents ≡ given) × IsEmptyOrOpen (frames fed).rest) }
        ensures open_stays { OnOpen result (self.new ≡ self.old) }
        // Every frame was given, and what stands is faulty.
        ensures fault { IfFault result (λ place kind. (fed : List ℕ) (given : ℕ)
            → Follows fed given self.old
            → (length (frames fed).contents ≡ given) × ((frames fed).rest ≡ Bad place kind)) }
        ensures fault_stays { IfFault result (λ place kind. self.new ≡ self.old) }
        // A content is there to be given, and no memory for it.
        ensures wanted { OnNoMemory result ((fed : List ℕ) (given : ℕ)
            → Follows fed given self.old → given < length (frames fed).contents) }
        ensures memory { OnNoMemory result (self.new ≡ self.old) }
        // No byte is lost.
        ensures count { self.new.place + length self.new.bytes ≡ self.old.place + length self.old.bytes }
    {
        match self.read_on() {
            State::Header { .. } => Ok(None),
            State::Content { header, length } => self.next_content(header, length as usize),
            State::Faulty { at, kind } => Err(FrameError::Fault {
                place: self.place + at as u64,
                kind,
            }),
        }
    }

    /// What is known of the bytes that stand, once all of them are read.
    fn read_on(&mut self) -> State
        ensures unchanged { self.new ≡ self.old }
        ensures known { Known result self.new.bytes }
        ensures settled { IsSettled result self.new.bytes }
    {
        let state = read_on(self.bytes.split_at(self.start).1, self.state);
        self.state = state;
        state
    }

    /// The content behind a header part of `header` bytes that states `size`, where it is whole.
    fn next_content(&mut self, header: usize, size: usize) -> Result<Option<Vec<u8>>, FrameError>
        requires { KnowsContent header size self.old.bytes }
        ensures content { IfContent result (λ content. content ≡ take size (drop header self.old.bytes)) }
        ensures whole { IfContent result (λ content. header + size ≤ length self.old.bytes) }
        ensures next { IfContent result (λ content. self.new ≡ record {
          place = self.old.place + (header + size);
          bytes = drop (header + size) self.old.bytes;
        }) }
        ensures open { OnOpen result (length self.old.bytes < header + size) }
        ensures fault { IfFault result (λ place kind. ⊥) }
        ensures memory { OnNoMemory result (header + size ≤ length self.old.bytes) }
        ensures open_stays { OnOpen result (self.new ≡ self.old) }
        ensures memory_stays { OnNoMemory result (self.new ≡ self.old) }
    {
        let standing = self.bytes.split_at(self.start).1;
        let end = header + size;
        if standing.len() < end {
            return Ok(None);
        }
        let content = Vec::from_slice(self.alloc, standing.split_at(header).1.split_at(size).0)?;
        self.start += end;
        self.place += end as u64;
        self.state = State::START;
        Ok(Some(content))
    }

    /// True exactly where no byte is left over: the input is whole frames, and each was given. It takes no memory.
    pub fn idle(&self) -> bool
        ensures idle { (fed : List ℕ) (given : ℕ) → Follows fed given self.now
            → (IsTrue result ↔ ((length (frames fed).contents ≡ given) × ((frames fed).rest ≡ Empty))) }
        ensures bytes { IsTrue result ↔ (self.now.bytes ≡ []) }
    {
        self.start == self.bytes.len()
    }
}

/// Removes the first `count` elements.
fn remove_front(bytes: &mut Vec<u8>, count: usize)
    requires { count ≤ length bytes.old.items }
    ensures { bytes.new.items ≡ drop count bytes.old.items }
{
    let rest = bytes.len() - count;
    bytes.copy_within(count.., 0);
    bytes.truncate(rest);
}
