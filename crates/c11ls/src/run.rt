// The loops of a call: read, handle each whole frame, and read again.
ghost use Rattle.std.specs.Prelude.{◌≡◌, ◌+◌, ◌<◌, ◌≤◌, ◌^◌, length, take, option_map, IfOk, IfSome, OnErr, MatchResult, vec_len, None, Some, []};
ghost use Rattle.io_edges.specs.Wire.{after_read};
ghost use Rattle.c11ls.specs.Ties.Going.{Drained, Ended, EndsInput, IsInStep};
ghost use Rattle.c_session.specs.Ties.Sessions.{state_of, handled_by};
ghost use Rattle.project_conf.specs.Defines.{AreUsable};
ghost use Rattle.project_conf.specs.declared.options.Options.{Options};
ghost use Rattle.c11ls.specs.Ties.Turn.{IsCounted};

use crate::status::Status;
use crate::turn::turn;
use c_session::Session;
use io_edges::{Failed, Store, Wire};
use lsp_framing::facts::{bad_stays, contents_few, contents_stay};
use lsp_framing::{FrameError, FrameKind, Frames};
use project_conf::Options;
use std::alloc::{AllocError, Global};
use std::sync::ledger::Ledger;
use steps::Steps;

/// The most bytes that a read takes.
const READ_SIZE: usize = 65_536;

/// The number of bytes behind which no more are read.
const LONG_INPUT: u64 = 1 << 62;

/// Handles each whole frame that stands. None where what stands may yet become a frame, else the status of the end.
fn drain<W: Wire, D: Store, L: Ledger>(
    session: &mut Session,
    frames: &mut Frames,
    wire: &mut W,
    store: &mut D,
    steps: &mut Steps<L>,
) -> Option<Status>
    requires sink { W.write_faults wire.old + 1 < 2 ^ 64 }
    requires store { D.faults store.old + 1 < 2 ^ 64 }
    requires step { IsInStep frames.old (handled_by session.old) }
    ensures step { result ≡ None → IsInStep frames.new (handled_by session.new) }
    ensures drained { (options : Options) → Drained options result (W.told wire.old) (W.told wire.new) (D.answers store.old) (D.answers store.new) (state_of session.old) (state_of session.new) frames.old frames.new }
    ensures counted { IsCounted result (W.read_faults wire.old) (W.read_faults wire.new) (W.write_faults wire.old) (W.write_faults wire.new) (D.faults store.old) (D.faults store.new) }
{
    // laws, for `drained` and for the condition of `handle`
    contents_stay();
    bad_stays();
    contents_few();
    'frames: loop {
        let content = match frames.next() {
            Ok(Some(content)) => content,
            Ok(None) => return None,
            Err(FrameError::Fault { place, kind }) => {
                return Some(Status::BadFrame { place, kind });
            }
            Err(FrameError::NoMemory) => return Some(Status::NoMemory),
        };
        match turn(session, content.as_slice(), wire, store, steps) {
            None => {}
            Some(status) => return Some(status),
        }
    }
}

/// Reads the next bytes into the front of the buffer, and answers how many.
fn read_into<W: Wire>(wire: &mut W, buffer: &mut Vec<u8>) -> Result<usize, Failed>
    requires room { 0 < vec_len buffer.old }
    requires source { W.read_faults wire.old + 1 < 2 ^ 64 }
    ensures size { vec_len buffer.new ≡ vec_len buffer.old }
    ensures within { IfOk result (λ n. n ≤ vec_len buffer.new) }
    ensures in_items { IfOk result (λ n. n ≤ length buffer.new.items) }
    ensures taken { IfOk result (λ n. W.told wire.new ≡ option_map (after_read (take n buffer.new.items)) (W.told wire.old)) }
    ensures front { IfOk result (λ n. IfSome (W.told wire.old) (λ t. take n t.left ≡ take n buffer.new.items)) }
    ensures at_end { IfOk result (λ n. n ≡ 0 → IfSome (W.told wire.old) (λ t. t.left ≡ [])) }
    ensures failed { OnErr result (W.told wire.new ≡ W.told wire.old) }
    ensures counted { MatchResult result (λ _. W.read_faults wire.new ≡ W.read_faults wire.old)
        (λ _. W.read_faults wire.old < W.read_faults wire.new) }
    ensures other_side { W.write_faults wire.new ≡ W.write_faults wire.old }
{
    wire.read(buffer.as_mut_slice())
}

/// How a call ends where the input does, `taken` being the number of its bytes.
fn end_of_input(frames: &Frames, taken: u64) -> Status
    ensures { EndsInput result frames.now taken }
{
    if frames.idle() {
        return Status::Unclean;
    }
    Status::BadFrame {
        place: taken,
        kind: FrameKind::Cut,
    }
}

/// Room for one read.
fn new_buffer(alloc: Global) -> Result<Vec<u8>, AllocError>
    ensures { IfOk result (λ buffer. vec_len buffer ≡ 65536) }
{
    vec![in alloc; 0u8; READ_SIZE]
}

/// Reads and handles until the call ends.
fn reads<W: Wire, D: Store, L: Ledger>(
    alloc: Global,
    options: Options,
    buffer: &mut Vec<u8>,
    wire: &mut W,
    store: &mut D,
    steps: &mut Steps<L>,
) -> Status
    requires room { vec_len buffer.old ≡ 65536 }
    requires usable { AreUsable 131072 options.defines }
    requires source { W.read_faults wire.old + 1 < 2 ^ 64 }
    requires sink { W.write_faults wire.old + 1 < 2 ^ 64 }
    requires store { D.faults store.old + 1 < 2 ^ 64 }
    ensures ended { Ended options result (W.told wire.old) (W.told wire.new) (D.answers store.old) (D.answers store.new) }
    ensures counted { IsCounted (Some result) (W.read_faults wire.old) (W.read_faults wire.new) (W.write_faults wire.old) (W.write_faults wire.new) (D.faults store.old) (D.faults store.new) }
{
    // a law, for `ended`
    contents_stay();
    let mut session = Session::new(alloc, options);
    let mut frames = Frames::new(alloc);
    let mut taken: u64 = 0;
    'reads: loop {
        match drain(&mut session, &mut frames, wire, store, steps) {
            None => {}
            Some(status) => return status,
        }
        if taken >= LONG_INPUT {
            return Status::LongInput;
        }
        let count = match read_into(wire, buffer) {
            Ok(count) => count,
            Err(_) => return Status::ReadFault,
        };
        if count == 0 {
            return end_of_input(&frames, taken);
        }
        match frames.feed(buffer.as_slice().split_at(count).0) {
            Ok(()) => {}
            Err(_) => return Status::NoMemory,
        }
        taken += count as u64;
    }
}

/// Serves the client until the call ends.
pub fn run<W: Wire, D: Store, L: Ledger>(
    alloc: Global,
    options: Options,
    wire: &mut W,
    store: &mut D,
    steps: &mut Steps<L>,
) -> Status
    requires usable { AreUsable 131072 options.defines }
    requires source { W.read_faults wire.old + 1 < 2 ^ 64 }
    requires sink { W.write_faults wire.old + 1 < 2 ^ 64 }
    requires store { D.faults store.old + 1 < 2 ^ 64 }
    ensures ended { Ended options result (W.told wire.old) (W.told wire.new) (D.answers store.old) (D.answers store.new) }
    ensures counted { IsCounted (Some result) (W.read_faults wire.old) (W.read_faults wire.new) (W.write_faults wire.old) (W.write_faults wire.new) (D.faults store.old) (D.faults store.new) }
{
    match new_buffer(alloc) {
        Ok(mut buffer) => reads(alloc, options, &mut buffer, wire, store, steps),
        Err(_) => Status::NoMemory,
    }
}
