// Expressions, names of types, heads and bodies, line by line: a line `names` with typedef names, then texts of one line each, those of
// names behind the word `type-name`, those of heads behind `head`, those of bodies behind `body`. Behind each stands its tree as an
// S-expression, or why there is none. With words behind the program's name, the first of which is `unit`, standard input is one unit, whose items
// are parsed under the others as typedef names.
#![tactic(auto)]

mod bodies;
mod heads;
mod reading;
mod shown;
mod unit;

use bodies::shown_body;
use c_parser::{NameSet, ParseError, parse_expr, parse_head, parse_type_name};
use heads::shown_head;
use reading::tokens_of;
use shared_text::Name;
use shown::{shown, shown_name};
use std::alloc::{AllocError, Global};
use std::io::Read;
use std::{env, io};
use stmt_parser::parse_body;
use tok_data::OutToken;
use tree_data::TypeName;
use unit::show_unit;

// More tokens are no expression.
const MOST_TOKENS: usize = 2_000_000;

fn names_of(alloc: Global, line: &str) -> Result<NameSet, AllocError> {
    let mut names = Vec::new(alloc);
    for word in line.split_ascii_whitespace() {
        names.push(Name::from_str(alloc, word)?)?;
    }
    Ok(NameSet::from_vec(names))
}

fn show_error(rt: &HostRuntime, error: ParseError) -> io::Result<()> {
    match error {
        ParseError::Syntax(at) => println!(rt; "syntax {at}"),
        ParseError::TooDeep(at) => println!(rt; "too deep {at}"),
        ParseError::NoMemory => println!(rt; "no memory"),
    }
}

fn show_expr(rt: &HostRuntime, names: &NameSet, tokens: &[OutToken]) -> io::Result<()> {
    if MOST_TOKENS < tokens.len() {
        return Ok(());
    }
    match parse_expr(rt.alloc(), tokens, names) {
        Ok(expr) => {
            let text = shown(rt.alloc(), tokens, &expr)?;
            let text = text.as_str();
            println!(rt; "{text}")
        }
        Err(error) => show_error(rt, error),
    }
}

fn show_type_name(rt: &HostRuntime, names: &NameSet, tokens: &[OutToken]) -> io::Result<()> {
    if MOST_TOKENS < tokens.len() {
        return Ok(());
    }
    match parse_type_name(rt.alloc(), tokens, names) {
        Ok((specs, declarator)) => {
            let name = TypeName::new(specs, declarator);
            let text = shown_name(rt.alloc(), tokens, &name)?;
            let text = text.as_str();
            println!(rt; "{text}")
        }
        Err(error) => show_error(rt, error),
    }
}

fn show_head(rt: &HostRuntime, names: &NameSet, tokens: &[OutToken]) -> io::Result<()> {
    if MOST_TOKENS < tokens.len() {
        return Ok(());
    }
    match parse_head(rt.alloc(), tokens, names) {
        Ok(head) => {
            let text = shown_head(rt.alloc(), tokens, &head)?;
            let text = text.as_str();
            println!(rt; "{text}")
        }
        Err(error) => show_error(rt, error),
    }
}

fn show_body(rt: &HostRuntime, names: &NameSet, tokens: &[OutToken]) -> io::Result<()> {
    if MOST_TOKENS < tokens.len() {
        return Ok(());
    }
    match parse_body(rt.alloc(), tokens, names) {
        Ok(body) => {
            let text = shown_body(rt.alloc(), tokens, &body)?;
            let text = text.as_str();
            println!(rt; "{text}")
        }
        Err(error) => show_error(rt, error),
    }
}

fn show(rt: &HostRuntime, names: &NameSet, line: &str) -> io::Result<()> {
    println!(rt; "> {line}")?;
    if let Some(text) = line.strip_prefix("head ") {
        let tokens = tokens_of(rt.alloc(), text)?;
        return show_head(rt, names, tokens.as_slice());
    }
    if let Some(text) = line.strip_prefix("body ") {
        let tokens = tokens_of(rt.alloc(), text)?;
        return show_body(rt, names, tokens.as_slice());
    }
    match line.strip_prefix("type-name") {
        Some(text) => {
            let tokens = tokens_of(rt.alloc(), text)?;
            show_type_name(rt, names, tokens.as_slice())
        }
        None => {
            let tokens = tokens_of(rt.alloc(), line)?;
            show_expr(rt, names, tokens.as_slice())
        }
    }
}

// The typedef names of a unit, where the program's words say that it reads one.
fn words(rt: &HostRuntime) -> io::Result<Option<NameSet>> {
    let mut words = env::args(rt)?.skip(1);
    let Some(first) = words.next() else {
        return Ok(None);
    };
    if first.as_str() != "unit" {
        return Ok(None);
    }
    let mut names = Vec::new(rt.alloc());
    for word in words {
        names.push(Name::from_str(rt.alloc(), word.as_str())?)?;
    }
    Ok(Some(NameSet::from_vec(names)))
}

fn main(rt: HostRuntime) -> io::Result<()> {
    let mut text = String::new(rt.alloc());
    rt.stdin().read_to_string(&mut text)?;
    if let Some(names) = words(&rt)? {
        return show_unit(&rt, &names, text.as_str());
    }
    let mut names = names_of(rt.alloc(), "")?;
    for line in text.as_str().lines() {
        match line.strip_prefix("names") {
            Some(words) => names = names_of(rt.alloc(), words)?,
            None => show(&rt, &names, line)?,
        }
    }
    Ok(())
}
