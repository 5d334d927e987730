// What a unit means as its texts change, line by line: each line of standard input is its text without directives, with that of its header in front of an `@`; behind it
// stands each fault, with the number of its token, and how many occurrences and entities the unit has. What items mean is taken over from the lines before where they stayed.
#![tactic(auto)]

mod reading;

use reading::{own_text, tokens_of};
use scope_tables::UnitMeaning;
use std::io;
use std::io::Read;
use stmt_checks::{KeptItems, fold_items};
use tok_data::{FileId, ShownFault};

/// A unit has so many tokens at most.
const MOST_TOKENS: usize = 2_000_000;

fn show_fault(rt: &HostRuntime, fault: &ShownFault) -> io::Result<()> {
    let at = fault.tok.at;
    let rule = fault.rule;
    let text = fault.text.as_str();
    println!(rt; "{at} {rule} {text}")
}

fn show_meaning(rt: &HostRuntime, meaning: &UnitMeaning) -> io::Result<()> {
    for fault in meaning.faults.as_slice() {
        show_fault(rt, fault)?;
    }
    let occs = meaning.occs.as_slice().len();
    let entities = meaning.entities.as_slice().len();
    println!(rt; "{occs} {entities}")
}

fn show(rt: &HostRuntime, kept: KeptItems, own: &FileId, line: &str) -> io::Result<KeptItems> {
    println!(rt; "> {line}")?;
    let tokens = tokens_of(rt.alloc(), line)?;
    if MOST_TOKENS < tokens.len() {
        println!(rt; "too many tokens")?;
        return Ok(kept);
    }
    let (meaning, kept) = fold_items(rt.alloc(), kept, own, tokens, &[])?;
    show_meaning(rt, &meaning)?;
    Ok(kept)
}

fn main(rt: HostRuntime) -> io::Result<()> {
    let mut text = String::new(rt.alloc());
    rt.stdin().read_to_string(&mut text)?;
    let own = own_text(rt.alloc())?;
    let mut kept = KeptItems::none(rt.alloc());
    for line in text.as_str().lines() {
        kept = show(&rt, kept, &own, line)?;
    }
    Ok(())
}
