// The language server for C11: bytes from standard input to bytes on standard output.
#![tactic(auto)]

ghost use Rattle.std.specs.Prelude.{◌≡◌, ◌⊎◌, ◌<◌, false};
ghost use Rattle.project_conf.specs.Words.{texts, are_grammatical};
ghost use Rattle.c11ls.specs.declared.status.Status.TheVariants as Status;

mod generated;
mod laws;
mod lines;
mod run;
mod serve;
mod status;
mod turn;
mod writing;

use crate::serve::{serve, tell};
use crate::status::Status;
use io_edges::{DirStore, StdWire, StderrSink};
use std::marker::Brand;
use std::process::ExitCode;
use std::sync::ledger::{Blank, Ledger};
use std::{env, io};
use steps::Steps;

/// The words after the program's name.
fn words_of(rt: &HostRuntime) -> io::Result<Vec<String>> {
    let mut words = Vec::new(rt.alloc());
    for word in env::args(rt)?.skip(1) {
        words.push(word)?;
    }
    Ok(words)
}

/// Serves standard input and output.
fn start<L: Ledger>(rt: &HostRuntime, words: &[String], blank: Blank) -> Status
    requires name { blank.name ≡ L.name }
    requires parts { blank.parts ≡ L.parts }
    requires some { 0 < L.parts }
    ensures usage { result ≡ Status.Usage → are_grammatical (texts words.now) ≡ false }
    ensures refused { are_grammatical (texts words.now) ≡ false → (result ≡ Status.Usage) ⊎ (result ≡ Status.NoMemory) }
{
    let mut steps = Steps::<L>::open(blank);
    let mut wire = StdWire::new(rt);
    let mut errs = StderrSink::new(rt);
    let mut store = DirStore::new(rt);
    serve(
        rt.alloc(),
        words,
        &mut wire,
        &mut errs,
        &mut store,
        &mut steps,
    )
}

/// The status for words that can't be read: one that isn't UTF-8 is in no grammar.
fn unread(rt: &HostRuntime, error: &io::Error) -> Status
    ensures { (result ≡ Status.Usage) ⊎ (result ≡ Status.NoMemory) }
{
    let status = match error.kind() {
        io::ErrorKind::OutOfMemory => Status::NoMemory,
        _ => Status::Usage,
    };
    tell(&mut StderrSink::new(rt), status);
    status
}

fn main(rt: HostRuntime) -> ExitCode {
    let status = match words_of(&rt) {
        Ok(words) => start::<Brand>(&rt, words.as_slice(), Blank::new(1)),
        Err(error) => unread(&rt, &error),
    };
    ExitCode::from(status.code())
}
