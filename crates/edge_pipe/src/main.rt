// Copies standard input to standard output through the ends over the real thing, a few bytes at a time, and says on
// standard error that it has.
#![tactic(auto)]

ghost use Rattle.std.specs.Prelude.{◌≡◌, ◌+◌, ◌<◌, ◌^◌, OnOk};

use io_edges::{Failed, Sink, StdWire, StderrSink, Wire};
use std::process::ExitCode;

fn main(rt: HostRuntime) -> ExitCode {
    match run(&mut StdWire::new(&rt), &mut StderrSink::new(&rt)) {
        Ok(()) => ExitCode::SUCCESS,
        Err(Failed) => ExitCode::FAILURE,
    }
}

fn run(wire: &mut StdWire, errs: &mut StderrSink) -> Result<(), Failed>
    requires source { wire.old.source + 1 < 2 ^ 64 }
    requires sink { wire.old.sink + 1 < 2 ^ 64 }
    requires errs { errs.old + 1 < 2 ^ 64 }
{
    let mut into = [0; 5];
    for _ in 0..u64::MAX {
        let count = wire.read(&mut into)?;
        if count == 0 {
            errs.write(b"copied\n")?;
            return Ok(());
        }
        write_whole(wire, &into[..count])?;
    }
    Err(Failed)
}

fn write_whole(wire: &mut StdWire, bytes: &[u8]) -> Result<(), Failed>
    requires { wire.old.sink + 1 < 2 ^ 64 }
    ensures { OnOk result (wire.new ≡ wire.old) }
{
    let mut rest = bytes;
    while !rest.is_empty() {
        let count = wire.write(rest)?;
        let (_, behind) = rest.split_at(count);
        rest = behind;
    }
    Ok(())
}
