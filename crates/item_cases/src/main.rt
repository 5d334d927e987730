// Items, line by line: each line of standard input is the text of a unit without directives; behind it stand its items,
// each as the number of its first token, the number behind its last, and its label.
#![tactic(auto)]

mod reading;

use item_cut::{cut, label};
use reading::tokens_of;
use std::io;
use std::io::Read;
use tok_data::OutToken;

// More tokens are no unit.
const MOST_TOKENS: usize = 2_000_000;

fn show_item(rt: &HostRuntime, tokens: &[OutToken], start: u32, end: u32) -> io::Result<()> {
    let Some(item) = tokens.get(start as usize..end as usize) else {
        return Ok(());
    };
    let name = label(rt.alloc(), item)?;
    let name = name.as_str();
    println!(rt; "{start} {end} {name}")
}

fn show(rt: &HostRuntime, line: &str) -> io::Result<()> {
    println!(rt; "> {line}")?;
    let tokens = tokens_of(rt.alloc(), line)?;
    let tokens = tokens.as_slice();
    if MOST_TOKENS < tokens.len() {
        return Ok(());
    }
    let items = cut(rt.alloc(), tokens)?;
    for item in items.as_slice() {
        show_item(rt, tokens, item.0, item.1)?;
    }
    Ok(())
}

fn main(rt: HostRuntime) -> io::Result<()> {
    let mut text = String::new(rt.alloc());
    rt.stdin().read_to_string(&mut text)?;
    for line in text.as_str().lines() {
        show(&rt, line)?;
    }
    Ok(())
}
