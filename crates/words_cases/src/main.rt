// The words of the command line, case by case: reads cases from standard input and prints what comes of each. A case is a line for
// each word, `word TEXT`, or `long NUMBER END TEXT`, which is the text and then the end so often, and at last the line `options`,
// behind which the folders, the definitions and the number of a generated run are printed, or the refusal. Texts are
// percent-encoded; of one with more than 100 bytes the number of bytes is printed.
#![tactic(auto)]

mod cases;
mod shown;

use cases::{decoded, long};
use shown::show;
use std::io;
use std::io::Read;

fn main(rt: HostRuntime) -> io::Result<()> {
    let alloc = rt.alloc();
    let mut text = String::new(alloc);
    rt.stdin().read_to_string(&mut text)?;
    let mut words = Vec::new(alloc);
    for line in text.as_str().split('\n') {
        if let Some(word) = line.strip_prefix("word ") {
            words.push(decoded(alloc, word)?)?;
            continue;
        }
        if let Some(word) = line.strip_prefix("long ") {
            words.push(long(alloc, word)?)?;
            continue;
        }
        if line == "options" {
            println!(rt; "{line}")?;
            show(&rt, words.as_slice())?;
            words = Vec::new(alloc);
        }
    }
    Ok(())
}
