// The words of a case.
use percent_encoding::percent_decode;
use std::alloc::{AllocError, Global};

pub fn decoded(alloc: Global, text: &str) -> Result<String, AllocError> {
    let mut bytes = Vec::new(alloc);
    percent_decode(text.as_bytes()).append_to(&mut bytes)?;
    match String::from_utf8(bytes) {
        Ok(text) => Ok(text),
        Err(_) => Ok(String::new(alloc)),
    }
}

fn repeated(alloc: Global, number: u32, end: &str, text: String) -> Result<String, AllocError> {
    let mut text = text;
    for _ in 0..number {
        text.push_str(end)?;
    }
    Ok(text)
}

/// A number, an end and a text: the text, and then the end so often.
pub fn long(alloc: Global, line: &str) -> Result<String, AllocError> {
    let (number, rest) = line.split_once(' ').unwrap_or((line, ""));
    let (end, text) = rest.split_once(' ').unwrap_or((rest, ""));
    let number = number.parse::<u32>().unwrap_or(0);
    let end = decoded(alloc, end)?;
    let text = decoded(alloc, text)?;
    repeated(alloc, number, end.as_str(), text)
}
