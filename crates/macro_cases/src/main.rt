// Macro expansion, case by case: reads cases from standard input and prints what the text of each expands to. Behind
// `answer ` a `#define` line prints whether its name is new or has the same definition, or the token that it clashes
// with; `undef ` and a name say whether it was a macro, and `look ` what it is defined as. With a
// word, standard input is one text: `#define` lines, and behind them what is expanded; it prints how many tokens came
// of it, no more than the word says where it is a number, how many replacements were made and how many faults there
// were. `bench/run` times that.
#![tactic(auto)]

mod cases;
mod reading;
mod shown;

use cases::{Case, defines};
use macro_expand::expand_within;
use macro_table::MacroTable;
use reading::tokens_of;
use std::alloc::{AllocError, Global};
use std::io::Read;
use std::{env, io};

// A text, and behind it what it expands to.
fn show(rt: &HostRuntime, case: &Case, text: &str) -> io::Result<()> {
    let expansion = case.expansion(rt.alloc(), text)?;
    let lines = expansion.as_str();
    print!(rt; "> {text}\n{lines}")
}

fn answer(rt: &HostRuntime, case: &mut Case, line: &str) -> io::Result<()> {
    let text = case.answer(rt.alloc(), line)?;
    let answer = text.as_str();
    print!(rt; "> {line}\n{answer}")
}

fn undef(rt: &HostRuntime, case: &mut Case, name: &str) -> io::Result<()> {
    let answer = case.undef(name);
    print!(rt; "> undef {name}\n{answer}")
}

fn look(rt: &HostRuntime, case: &Case, name: &str) -> io::Result<()> {
    let text = case.look(rt.alloc(), name)?;
    let found = text.as_str();
    print!(rt; "> look {name}\n{found}")
}

// A line that says how a case is.
fn is_said(alloc: Global, case: &mut Case, line: &str) -> Result<bool, AllocError> {
    if let Some(budget) = line.strip_prefix("budget ") {
        *case = Case::begun(alloc, budget);
        return Ok(true);
    }
    if let Some(room) = line.strip_prefix("room ") {
        case.limit(room);
        return Ok(true);
    }
    if line == "no lines" {
        case.without_lines();
        return Ok(true);
    }
    if line.starts_with("#define ") {
        case.define(alloc, line)?;
        return Ok(true);
    }
    Ok(line.is_empty())
}

fn step(rt: &HostRuntime, case: &mut Case, line: &str) -> io::Result<()> {
    if is_said(rt.alloc(), case, line)? {
        return Ok(());
    }
    if let Some(text) = line.strip_prefix("answer ") {
        return answer(rt, case, text);
    }
    if let Some(name) = line.strip_prefix("undef ") {
        return undef(rt, case, name);
    }
    if let Some(name) = line.strip_prefix("look ") {
        return look(rt, case, name);
    }
    show(rt, case, line)
}

fn play(rt: &HostRuntime, text: &str) -> io::Result<()> {
    let mut case = Case::begun(rt.alloc(), "0");
    for line in text.split('\n') {
        step(rt, &mut case, line)?;
    }
    Ok(())
}

// Enters the macros that the `#define` lines at a text's front define, and answers what stands behind these lines.
fn defined<'a>(
    alloc: Global,
    table: &mut MacroTable,
    text: &'a str,
) -> Result<&'a str, AllocError> {
    let mut rest = text;
    while let Some((line, behind)) = rest.split_once('\n') {
        if !line.starts_with("#define ") {
            break;
        }
        rest = behind;
        defines(alloc, table, "/m.h", line)?;
    }
    Ok(rest)
}

// The numbers of tokens, replacements and faults that a text comes to.
fn counts(alloc: Global, text: &str, room: usize) -> Result<(usize, u32, usize), AllocError> {
    let mut table = MacroTable::new(alloc);
    let rest = defined(alloc, &mut table, text)?;
    let tokens = tokens_of(alloc, "/t.c", rest)?;
    let within = expand_within(alloc, tokens.as_slice(), &table, &[], u32::MAX, room)?;
    let expanded = &within.expanded;
    Ok((
        expanded.tokens.as_slice().len(),
        expanded.used,
        expanded.faults.as_slice().len(),
    ))
}

fn count(rt: &HostRuntime, text: &str, room: usize) -> io::Result<()> {
    let (count, used, faults) = counts(rt.alloc(), text, room)?;
    println!(rt; "{count} {used} {faults}")
}

fn main(rt: HostRuntime) -> io::Result<()> {
    let mut text = String::new(rt.alloc());
    rt.stdin().read_to_string(&mut text)?;
    if let Some(word) = env::args(&rt)?.skip(1).next() {
        return count(
            &rt,
            text.as_str(),
            word.parse::<usize>().unwrap_or(usize::MAX),
        );
    }
    play(&rt, text.as_str())
}
