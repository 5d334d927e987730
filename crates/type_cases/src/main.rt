// Types and their relations, case by case: reads calls from standard input, one a line, and prints the answer of each behind
// its line. Types are in postfix notation. `promote`, `usual` and `composite` have the wanted answer as the last type,
// `layout` and `size_align` as words of their own, and these print whether it is the one. `print` shows a type's text, `message`
// that of a fault.
#![tactic(auto)]

mod laying;
mod notation;
mod words;

use notation::Notes;
use shared_text::Name;
use std::alloc::{AllocError, Global};
use std::io;
use std::io::Read;

/// The answer to a line, or none where it isn't a call.
fn answered(alloc: Global, line: &str) -> Result<Option<bool>, AllocError> {
    let mut words = line.split_ascii_whitespace();
    let Some(call) = words.next() else {
        return Ok(None);
    };
    let mut read = Notes::new(alloc);
    for word in words {
        if !read.word(alloc, word)? {
            drop(read);
            return Ok(None);
        }
    }
    let answer = read.answer(alloc, call);
    drop(read);
    answer
}

/// The text of a type, or none where the words aren't one: they begin with its own qualifiers and a name, `-` for none.
fn printed(alloc: Global, words: &str) -> Result<Option<String>, AllocError> {
    let mut words = words.split_ascii_whitespace();
    let (Some(quals), Some(name)) = (words.next(), words.next()) else {
        return Ok(None);
    };
    let mut read = Notes::new(alloc);
    for word in words {
        if !read.word(alloc, word)? {
            drop(read);
            return Ok(None);
        }
    }
    let text = read.printed(alloc, quals, if name == "-" { "" } else { name });
    drop(read);
    text
}

fn show_printed(rt: &HostRuntime, line: &str, words: &str) -> io::Result<()> {
    match printed(rt.alloc(), words)? {
        Some(text) => {
            let text = text.as_str();
            println!(rt; "{line} = {text}")
        }
        None => println!(rt; "{line} is no type"),
    }
}

/// The message of a rule, or none where the words aren't one: they begin with its number and its names, and types follow.
fn messaged(alloc: Global, words: &str) -> Result<Option<Name>, AllocError> {
    let mut words = words.split_ascii_whitespace();
    let (Some(rule), Some(names)) = (words.next(), words.next()) else {
        return Ok(None);
    };
    let Ok(rule) = rule.parse::<u16>() else {
        return Ok(None);
    };
    let mut read = Notes::new(alloc);
    for word in words {
        if !read.word(alloc, word)? {
            drop(read);
            return Ok(None);
        }
    }
    let Ok(message) = read.message(alloc, rule, names) else {
        drop(read);
        return Err(AllocError);
    };
    drop(read);
    Ok(Some(message))
}

fn show_message(rt: &HostRuntime, line: &str, words: &str) -> io::Result<()> {
    match messaged(rt.alloc(), words)? {
        Some(text) => {
            let text = text.as_str();
            println!(rt; "{line} = {text}")
        }
        None => println!(rt; "{line} is no message"),
    }
}

fn show(rt: &HostRuntime, line: &str) -> io::Result<()> {
    if let Some(words) = line.strip_prefix("print ") {
        return show_printed(rt, line, words);
    }
    if let Some(words) = line.strip_prefix("message ") {
        return show_message(rt, line, words);
    }
    match answered(rt.alloc(), line)? {
        Some(true) => println!(rt; "{line} = true"),
        Some(false) => println!(rt; "{line} = false"),
        None => println!(rt; "{line} is no call"),
    }
}

fn main(rt: HostRuntime) -> io::Result<()> {
    let mut text = String::new(rt.alloc());
    rt.stdin().read_to_string(&mut text)?;
    for line in text.lines() {
        show(&rt, line)?;
    }
    Ok(())
}
