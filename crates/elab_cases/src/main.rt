// Expressions, line by line: a line with `#` in front declares what stands in front of them (`src/lines.rt`), and each other is an
// expression, with `?` in front one of which all is shown that it means. Behind it stands its meaning.
#![tactic(auto)]

mod lines;
mod reading;
mod setting;
mod shown;

use lines::take;
use reading::tokens_of;
use setting::{Setting, elaborated, nothing};
use shown::shown;
use std::alloc::{AllocError, Global};
use std::io;
use std::io::Read;

fn answer(alloc: Global, setting: &Setting, text: &str, long: bool) -> Result<String, AllocError> {
    let tokens = tokens_of(alloc, text)?;
    let meant = elaborated(alloc, setting, tokens.as_slice())?;
    shown(alloc, setting, &meant, long)
}

fn show(rt: &HostRuntime, setting: &Setting, line: &str) -> io::Result<()> {
    let shown = match line.strip_prefix("?") {
        Some(text) => answer(rt.alloc(), setting, text, true)?,
        None => answer(rt.alloc(), setting, line, false)?,
    };
    let shown = shown.as_str();
    println!(rt; "{line}\n    {shown}")
}

fn main(rt: HostRuntime) -> io::Result<()> {
    let mut text = String::new(rt.alloc());
    rt.stdin().read_to_string(&mut text)?;
    let mut setting = nothing(rt.alloc());
    for line in text.lines() {
        match line.strip_prefix("#") {
            Some(words) => take(rt.alloc(), &mut setting, words.trim())?,
            None => show(&rt, &setting, line)?,
        }
    }
    Ok(())
}
