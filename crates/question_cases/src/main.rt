// Questions about projects: reads the texts and the questions from standard input and prints the answers. Between two projects stands an
// empty line. A line `PATH TEXT` puts a file on disk, in which `%` and two hexadecimal digits stand for a byte; `? PATH LINE CHARACTER` asks
// for the hover, the definition, the references with declarations and without, and the file's symbols, in UTF-16.
#![tactic(auto)]

ghost use Rattle.std.specs.Prelude.{◌≡◌, ◌<◌};

mod project;

use c_session::analysed;
use project::{ask_all, docs_of, plain_conf};
use std::alloc::{AllocError, Global};
use std::io;
use std::io::Read;
use std::marker::Brand;
use std::sync::ledger::{Blank, Ledger};
use steps::Steps;

// A project with the answers to its questions.
fn answers<L: Ledger>(alloc: Global, blank: Blank, project: &String) -> Result<String, AllocError>
    requires name { blank.name ≡ L.name }
    requires parts { blank.parts ≡ L.parts }
    requires some { 0 < L.parts }
{
    let mut steps = Steps::<L>::open(blank);
    let docs = docs_of(alloc, project.as_str())?;
    let conf = plain_conf(alloc);
    let kept = analysed(alloc, &docs, &conf, &mut steps)?;
    ask_all(alloc, &kept, &docs, project.as_str())
}

fn show(rt: &HostRuntime, project: &str) -> io::Result<()> {
    let project = String::from_str(rt.alloc(), project)?;
    let text = answers::<Brand>(rt.alloc(), Blank::new(1), &project)?;
    let shown = text.as_str();
    print!(rt; "{shown}")
}

fn main(rt: HostRuntime) -> io::Result<()> {
    let mut text = String::new(rt.alloc());
    rt.stdin().read_to_string(&mut text)?;
    for project in text.split("\n\n") {
        show(&rt, project)?;
    }
    Ok(())
}
