// The wire in memory.
ghost use Rattle.std.specs.Prelude.{◌≡◌, ℕ, ◌+◌, ◌<◌, ◌≤◌, ◌^◌, Some, [], ◌++◌, length, take, map, is_err, IsTrue, ◌↔◌, option_map, IfOk, OnErr, IfSome, MatchResult};
ghost use Rattle.std.specs.List.{concat};
ghost use Rattle.io_edges.specs.Wire.{after_read, after_write};
ghost use Rattle.io_edges.specs.Memory.{
  MemoryWire,
  traffic,
  read_fails,
  read_takes,
  wire_read,
  wire_failed,
  write_fails,
  write_takes,
  sink_wrote,
  sink_failed,
};

use crate::ends::{Failed, Mark, Sink, Wire};
use crate::mem_sink::MemSink;
use crate::pieces::{Pieces, count_bytes, fit};
use std::alloc::{AllocError, Global};
use std::marker::Model;

/// A wire in memory: it gives its bytes in pieces, at most one piece per read, and writes to a sink in memory.
#[derive(Drop)]
pub struct MemWire {
    pieces: Pieces,
    taken: u64,
    marks: Vec<Mark>,
    failing: Vec<u64>,
    reads: u64,
    faults: u64,
    sink: MemSink,
}

impl Model for MemWire {
    ghost use Rattle.std.specs.Prelude.{◌+◌, ◌≤◌, ◌^◌, length};
    ghost use Rattle.std.specs.List.{concat};
    ghost use Rattle.std.specs.Vec.{vec_capacity};
    ghost use Rattle.io_edges.specs.Memory.{MemoryWire};

    ghost Value = { MemoryWire };

    ghost view = { λ w. record {
      pieces = w.pieces;
      taken = w.taken;
      marks = w.marks.items;
      failing = w.failing.items;
      reads = w.reads;
      faults = w.faults;
      sink = w.sink;
    } };

    ghost invariant = { λ w. (w.taken + length (concat w.pieces) ≤ 2 ^ 32) × (length w.marks.items + length (concat w.pieces) ≤ vec_capacity w.marks) };
}

impl MemWire {
    /// Whether a wire may have these pieces: together they have at most 2^32 bytes.
    pub fn fits(pieces: &[Vec<u8>]) -> bool
        ensures { IsTrue result ↔ (length (concat (map (λ p. p.items) pieces.now)) ≤ 2 ^ 32) }
    {
        fit(pieces)
    }

    /// A wire that gives these pieces, at most one per read, empty ones passed over, and that fails at the reads with
    /// the numbers in `failing`; the first read has the number 1. It takes the room for its marks as it is made.
    pub fn new(
        alloc: Global,
        pieces: Vec<Vec<u8>>,
        failing: Vec<u64>,
        sink: MemSink,
    ) -> Result<MemWire, AllocError>
        requires { length (concat (map (λ p. p.items) pieces.items)) ≤ 2 ^ 32 }
        ensures { IfOk result (λ w. w ≡ record {
          pieces = map (λ p. p.items) pieces.items;
          taken = 0;
          marks = [];
          failing = failing.items;
          reads = 0;
          faults = 0;
          sink = sink;
        }) }
    {
        let marks = Vec::with_capacity(alloc, count_bytes(&pieces))?;
        let pieces = Pieces::new(pieces);
        Ok(MemWire {
            pieces,
            taken: 0,
            marks,
            failing,
            reads: 0,
            faults: 0,
            sink,
        })
    }

    /// The sink that it writes to.
    pub fn sink(&self) -> &MemSink
        ensures { result.now ≡ self.now.sink }
    {
        &self.sink
    }
}

impl Wire for MemWire {
    ghost told = { λ w. Some (traffic w) };

    ghost read_faults = { λ w. w.faults };

    ghost write_faults = { λ w. w.sink.faults };

    /// Takes as many bytes as `into` has places and the next piece has. It fails where its number is listed; a read that
    /// fails counts as a read, and so does one at the end.
    fn read(&mut self, into: &mut [u8]) -> Result<usize, Failed>
        requires room { 0 < length into.old }
        requires countable { self.old.faults + 1 < 2 ^ 64 }
        ensures within { IfOk result (λ n. n ≤ length into.old) }
        ensures taken { IfOk result (λ n. traffic self.new ≡ after_read (take n into.new) (traffic self.old)) }
        ensures front { IfOk result (λ n. take n (concat self.old.pieces) ≡ take n into.new) }
        ensures at_end { IfOk result (λ n. n ≡ 0 → concat self.old.pieces ≡ []) }
        ensures failed { OnErr result (traffic self.new ≡ traffic self.old) }
        ensures counted { MatchResult result (λ _. self.new.faults ≡ self.old.faults) (λ _. self.old.faults < self.new.faults) }
        ensures other_side { self.new.sink.faults ≡ self.old.sink.faults }
        ensures once { self.new.faults ≤ self.old.faults + 1 }
        ensures fails { is_err result ≡ read_fails self.old }
        ensures takes { IfOk result (λ n. n ≡ read_takes self.old (length into.old)) }
        ensures after { MatchResult result (λ n. self.new ≡ wire_read self.old n) (λ _. self.new ≡ wire_failed self.old) }
    {
        self.reads = self.reads.saturating_add(1);
        if self.failing.contains(&self.reads) {
            self.faults += 1;
            return Err(Failed);
        }
        let mark = Mark {
            taken: self.taken,
            written: self.sink.written().len() as u64,
        };
        let count = self.pieces.take(into);
        if count == 0 {
            return Ok(0);
        }
        self.taken += count as u64;
        // There is room for a mark for each byte.
        self.marks.push_reserved(mark);
        Ok(count)
    }

    /// Writes to the sink in memory.
    fn write(&mut self, bytes: &[u8]) -> Result<usize, Failed>
        requires some { 0 < length bytes.now }
        requires countable { self.old.sink.faults + 1 < 2 ^ 64 }
        ensures amount { IfOk result (λ n. (0 < n) × (n ≤ length bytes.now)) }
        ensures written { IfOk result (λ n. traffic self.new ≡ after_write (take n bytes.now) (traffic self.old)) }
        ensures failed { OnErr result (traffic self.new ≡ traffic self.old) }
        ensures counted { MatchResult result (λ _. self.new.sink.faults ≡ self.old.sink.faults) (λ _. self.old.sink.faults < self.new.sink.faults) }
        ensures other_side { self.new.faults ≡ self.old.faults }
        ensures once { self.new.sink.faults ≤ self.old.sink.faults + 1 }
        ensures fails { is_err result ≡ write_fails self.old.sink }
        ensures takes { IfOk result (λ n. n ≡ write_takes self.old.sink (length bytes.now)) }
        ensures after { MatchResult result (λ n. self.new ≡ record self.old { sink = sink_wrote self.old.sink (take n bytes.now) })
            (λ _. self.new ≡ record self.old { sink = sink_failed self.old.sink }) }
    {
        self.sink.write(bytes)
    }
}
