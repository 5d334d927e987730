// Statements within one another.
use std::alloc::{AllocError, Global};

// More statements are none.
const MOST: u32 = 100_000;

fn number_of(text: &str) -> u32 {
    match text.parse::<u32>() {
        Ok(number) => number.min(MOST),
        Err(_) => 0,
    }
}

/// A body of so many `do`, one in another.
pub fn deep_body(alloc: Global, number: &str) -> Result<String, AllocError> {
    let number = number_of(number);
    let mut out = String::new(alloc);
    out.push_str("{ ")?;
    for _ in 0..number {
        out.push_str("do ")?;
    }
    out.push_str(";")?;
    for _ in 0..number {
        out.push_str(" while (a);")?;
    }
    out.push_str(" }")?;
    Ok(out)
}
