// The ends over standard input, output and error. They tell no content.
ghost use Rattle.std.specs.Prelude.{◌≡◌, ℕ, ◌+◌, ◌<◌, ◌≤◌, ◌^◌, None, length, take, IfOk, OnErr, MatchResult};
ghost use Rattle.std.specs.Io.KnownBytes.{Appends, Consumes, IsAtEnd, Keeps};
ghost use Rattle.io_edges.specs.Outside.{WireFaults};

use crate::ends::{Failed, Sink, Wire};
use std::io::{ErrorKind, Read, Stderr, Stdin, Stdout, Write};
use std::marker::Model;

/// Standard input and standard output.
#[derive(Drop)]
pub struct StdWire {
    input: Stdin,
    output: Stdout,
    read_faults: u64,
    write_faults: u64,
}

impl Model for StdWire {
    ghost use Rattle.io_edges.specs.Outside.{WireFaults};

    ghost Value = { WireFaults };

    ghost view = { λ w. record { source = w.read_faults; sink = w.write_faults } };
}

impl StdWire {
    /// The process's standard input and output, with no faults yet.
    pub fn new(rt: &HostRuntime) -> StdWire
        ensures { result ≡ record { source = 0; sink = 0 } }
    {
        StdWire {
            input: rt.stdin(),
            output: rt.stdout(),
            read_faults: 0,
            write_faults: 0,
        }
    }
}

impl Wire for StdWire {
    ghost told = { λ _. None };

    ghost read_faults = { λ w. w.source };

    ghost write_faults = { λ w. w.sink };

    /// One read of standard input. Each error is a fault, but for a signal's interruption, after which it reads again.
    fn read(&mut self, into: &mut [u8]) -> Result<usize, Failed>
        requires room { 0 < length into.old }
        requires countable { self.old.source + 1 < 2 ^ 64 }
        ensures within { IfOk result (λ n. n ≤ length into.old) }
        ensures after { MatchResult result (λ _. self.new ≡ self.old) (λ _. self.new ≡ record self.old { source = self.old.source + 1 }) }
    {
        let answer = read_some(&mut self.input, into);
        if answer.is_err() {
            self.read_faults += 1;
        }
        answer
    }

    /// One write to standard output, flushed. Each error is a fault, but for a signal's interruption, after which it
    /// writes again; and so is a write that takes nothing.
    fn write(&mut self, bytes: &[u8]) -> Result<usize, Failed>
        requires some { 0 < length bytes.now }
        requires countable { self.old.sink + 1 < 2 ^ 64 }
        ensures amount { IfOk result (λ n. (0 < n) × (n ≤ length bytes.now)) }
        ensures after { MatchResult result (λ _. self.new ≡ self.old) (λ _. self.new ≡ record self.old { sink = self.old.sink + 1 }) }
    {
        let answer = write_through(&mut self.output, bytes);
        if answer.is_err() {
            self.write_faults += 1;
        }
        answer
    }
}

/// Standard error.
#[derive(Drop)]
pub struct StderrSink {
    output: Stderr,
    faults: u64,
}

impl Model for StderrSink {
    ghost use Rattle.std.specs.Prelude.{ℕ};

    ghost Value = { ℕ };

    ghost view = { λ s. s.faults };
}

impl StderrSink {
    /// The process's standard error, with no faults yet.
    pub fn new(rt: &HostRuntime) -> StderrSink
        ensures { result ≡ 0 }
    {
        StderrSink {
            output: rt.stderr(),
            faults: 0,
        }
    }
}

impl Sink for StderrSink {
    ghost written = { λ _. None };

    ghost faults = { λ s. s };

    /// One write to standard error, as one to standard output.
    fn write(&mut self, bytes: &[u8]) -> Result<usize, Failed>
        requires some { 0 < length bytes.now }
        requires countable { self.old + 1 < 2 ^ 64 }
        ensures amount { IfOk result (λ n. (0 < n) × (n ≤ length bytes.now)) }
        ensures after { MatchResult result (λ _. self.new ≡ self.old) (λ _. self.new ≡ self.old + 1) }
    {
        let answer = write_through(&mut self.output, bytes);
        if answer.is_err() {
            self.faults += 1;
        }
        answer
    }
}

/// One read, again where a signal interrupts it.
fn read_some<R: Read>(input: &mut R, into: &mut [u8]) -> Result<usize, Failed>
    ensures within { IfOk result (λ n. n ≤ length into.old) }
    ensures consumed { IfOk result (λ n. Consumes (R.remaining input.old) (R.remaining input.new) (take n into.new)) }
    ensures at_end { IfOk result (λ n. n ≡ 0 → 0 < length into.old → IsAtEnd (R.remaining input.new)) }
    ensures failed { OnErr result (Keeps (R.remaining input.old) (R.remaining input.new)) }
{
    for _ in 0..u64::MAX {
        match input.read(into) {
            Ok(count) => return Ok(count),
            Err(error) if error.kind() == ErrorKind::Interrupted => {}
            Err(_) => return Err(Failed),
        }
    }
    Err(Failed)
}

/// One write, again where a signal interrupts it. A write that takes nothing failed.
fn write_some<W: Write>(output: &mut W, bytes: &[u8]) -> Result<usize, Failed>
    requires { 0 < length bytes.now }
    ensures amount { IfOk result (λ n. (0 < n) × (n ≤ length bytes.now)) }
    ensures appended { IfOk result (λ n. Appends (W.contents output.old) (W.contents output.new) (take n bytes.now)) }
    ensures failed { OnErr result (Keeps (W.contents output.old) (W.contents output.new)) }
{
    for _ in 0..u64::MAX {
        match output.write(bytes) {
            Ok(0) => return Err(Failed),
            Ok(count) => return Ok(count),
            Err(error) if error.kind() == ErrorKind::Interrupted => {}
            Err(_) => return Err(Failed),
        }
    }
    Err(Failed)
}

/// One write and then a flush.
fn write_through<W: Write>(output: &mut W, bytes: &[u8]) -> Result<usize, Failed>
    requires { 0 < length bytes.now }
    ensures amount { IfOk result (λ n. (0 < n) × (n ≤ length bytes.now)) }
    ensures appended { IfOk result (λ n. Appends (W.contents output.old) (W.contents output.new) (take n bytes.now)) }
{
    let count = write_some(output, bytes)?;
    match output.flush() {
        Ok(()) => Ok(count),
        Err(_) => Err(Failed),
    }
}
