// The steps of bodies, line by line: each line of standard input is the text of a body without directives; behind it stands a step a word,
// `;` between two, or why the body has no tree. Tokens are given by their numbers; an expression by its token, or as `..` where it has
// several. A line `deep N` is a body of so many `do`, one in another without braces, of which the number of steps is told.
#![tactic(auto)]

mod deep;
mod reading;
mod shown;

use c_parser::{NameSet, ParseError};
use deep::deep_body;
use reading::tokens_of;
use shown::shown;
use std::alloc::{AllocError, Global};
use std::io;
use std::io::Read;
use stmt_acts::acts_of;
use stmt_parser::parse_body;
use tok_data::OutToken;

// More tokens are no body.
const MOST_TOKENS: usize = 2_000_000;

fn no_names(alloc: Global) -> NameSet {
    NameSet::from_vec(Vec::new(alloc))
}

fn show_error(rt: &HostRuntime, error: ParseError) -> io::Result<()> {
    match error {
        ParseError::Syntax(at) => println!(rt; "syntax {at}"),
        ParseError::TooDeep(at) => println!(rt; "too deep {at}"),
        ParseError::NoMemory => println!(rt; "no memory"),
    }
}

fn show_body(rt: &HostRuntime, tokens: &[OutToken]) -> io::Result<()> {
    if MOST_TOKENS < tokens.len() {
        return Ok(());
    }
    match parse_body(rt.alloc(), tokens, &no_names(rt.alloc())) {
        Ok(body) => {
            let acts = acts_of(rt.alloc(), &body)?;
            let text = shown(rt.alloc(), tokens, acts.as_slice())?;
            let text = text.as_str();
            println!(rt; "{text}")
        }
        Err(error) => show_error(rt, error),
    }
}

fn show_count(rt: &HostRuntime, text: &str) -> io::Result<()> {
    let tokens = tokens_of(rt.alloc(), text)?;
    if MOST_TOKENS < tokens.len() {
        return Ok(());
    }
    match parse_body(rt.alloc(), tokens.as_slice(), &no_names(rt.alloc())) {
        Ok(body) => {
            let acts = acts_of(rt.alloc(), &body)?;
            let count = acts.len();
            println!(rt; "{count} steps")
        }
        Err(error) => show_error(rt, error),
    }
}

fn show(rt: &HostRuntime, line: &str) -> io::Result<()> {
    println!(rt; "> {line}")?;
    match line.strip_prefix("deep ") {
        Some(number) => {
            let text = deep_body(rt.alloc(), number)?;
            show_count(rt, text.as_str())
        }
        None => {
            let tokens = tokens_of(rt.alloc(), line)?;
            show_body(rt, tokens.as_slice())
        }
    }
}

fn main(rt: HostRuntime) -> io::Result<()> {
    let mut text = String::new(rt.alloc());
    rt.stdin().read_to_string(&mut text)?;
    for line in text.as_str().lines() {
        show(&rt, line)?;
    }
    Ok(())
}
