// The sink in memory.
ghost use Rattle.std.specs.Prelude.{◌≡◌, ℕ, ◌+◌, ◌<◌, ◌≤◌, ◌^◌, Some, [], ◌++◌, length, take, is_err, option_map, IfOk, OnErr, MatchResult};
ghost use Rattle.io_edges.specs.Memory.{MemorySink, write_fails, write_takes, sink_wrote, sink_failed};

use crate::ends::{Failed, Sink};
use std::alloc::{AllocError, Global};
use std::marker::Model;

/// The bytes that a sink in memory has room for.
pub const SINK_ROOM: usize = 4_194_304;

/// A sink in memory: it takes a few bytes per call, has room for 4,194,304 bytes, and fails where it is told to.
#[derive(Drop)]
pub struct MemSink {
    bytes: Vec<u8>,
    most: usize,
    failing: Vec<u64>,
    calls: u64,
    faults: u64,
}

impl Model for MemSink {
    ghost use Rattle.std.specs.Prelude.{◌≤◌, length};
    ghost use Rattle.std.specs.Vec.{vec_capacity};
    ghost use Rattle.io_edges.specs.Memory.{MemorySink};

    ghost Value = { MemorySink };

    ghost view = { λ s. record { written = s.bytes.items; most = s.most; failing = s.failing.items; calls = s.calls; faults = s.faults } };

    ghost invariant = { λ s. (1 ≤ s.most) × (length s.bytes.items ≤ 4194304) × (4194304 ≤ vec_capacity s.bytes) };
}

impl MemSink {
    /// A sink that takes at most `most` bytes per call, and that fails at the calls with the numbers in `failing`; the
    /// first call has the number 1. It takes its room as it is made.
    pub fn new(alloc: Global, most: usize, failing: Vec<u64>) -> Result<MemSink, AllocError>
        requires { 1 ≤ most }
        ensures { IfOk result (λ s. s ≡ record { written = []; most = most; failing = failing.items; calls = 0; faults = 0 }) }
    {
        let bytes = Vec::with_capacity(alloc, SINK_ROOM)?;
        Ok(MemSink {
            bytes,
            most,
            failing,
            calls: 0,
            faults: 0,
        })
    }

    /// The bytes written so far.
    pub fn written(&self) -> &[u8]
        ensures written { result.now ≡ self.now.written }
        ensures within { length result.now ≤ 4194304 }
    {
        self.bytes.as_slice()
    }
}

impl Sink for MemSink {
    ghost written = { λ s. Some s.written };

    ghost faults = { λ s. s.faults };

    /// Takes as many bytes as one call may take and there is room for. It fails where its number is listed or no room
    /// is left; a call that fails counts as a call.
    fn write(&mut self, bytes: &[u8]) -> Result<usize, Failed>
        requires some { 0 < length bytes.now }
        requires countable { self.old.faults + 1 < 2 ^ 64 }
        ensures amount { IfOk result (λ n. (0 < n) × (n ≤ length bytes.now)) }
        ensures appended { IfOk result (λ n. self.new.written ≡ self.old.written ++ take n bytes.now) }
        ensures failed { OnErr result (self.new.written ≡ self.old.written) }
        ensures counted { MatchResult result (λ _. self.new.faults ≡ self.old.faults) (λ _. self.old.faults < self.new.faults) }
        ensures once { self.new.faults ≤ self.old.faults + 1 }
        ensures fails { is_err result ≡ write_fails self.old }
        ensures taken { IfOk result (λ n. n ≡ write_takes self.old (length bytes.now)) }
        ensures after { MatchResult result (λ n. self.new ≡ sink_wrote self.old (take n bytes.now)) (λ _. self.new ≡ sink_failed self.old) }
    {
        self.calls = self.calls.saturating_add(1);
        let room = SINK_ROOM - self.bytes.len();
        let taken = self.most.min(bytes.len()).min(room);
        let fails = self.failing.contains(&self.calls) || room == 0;
        // Where there is room, the copy isn't refused.
        if fails || self.bytes.extend_from_slice(&bytes[..taken]).is_err() {
            self.faults += 1;
            return Err(Failed);
        }
        Ok(taken)
    }
}
