// Statements, case by case: reads the type of a function and, behind `:`, the statements of its body from each line of standard input,
// `;` between two, and prints the faults, each with the number of its statement and what its text prints. Statements are `if` and `loop`
// with a condition, `switch` with an expression, `end` and `end switch`, which end a loop and a `switch`, `case` with a value (`?` isn't
// told, `!` is faulty), `default`, `break`, `continue`, `label` and `goto` with a name, `return` with an expression or without, and `for` with
// the words of its first part (`src/firsts.rt`); types are those of `src/types.rt`, expressions those of `src/operands.rt`. `cases N` makes a
// `switch` of so many cases, the last value twice.
#![tactic(auto)]

mod body;
mod firsts;
mod operands;
mod speed;
mod types;

use body::Body;
use speed::long_switch;
use std::alloc::{AllocError, Global};
use std::io;
use std::io::Read;
use type_data::{Fault, Tags};
use type_print::print;
use types::{name_tags, plain, type_named};

fn push_fault(
    alloc: Global,
    tags: &Tags,
    out: &mut String,
    fault: &Fault,
) -> Result<(), AllocError> {
    let at = fault.at;
    let rule = fault.rule;
    let shown = format!(in alloc; " {at}: {rule}")?;
    out.push_str(shown.as_str())?;
    for name in fault.names.as_slice() {
        out.push_str(" ")?;
        out.push_str(name.as_str())?;
    }
    let mut parted = " ";
    for ty in fault.types.as_slice() {
        let ty = print(alloc, ty, plain(), "", tags)?;
        out.push_str(parted)?;
        out.push_str(ty.as_str())?;
        parted = ", ";
    }
    out.push_str(";")
}

fn shown_faults(alloc: Global, tags: &Tags, faults: &[Fault]) -> Result<String, AllocError> {
    let mut out = String::new(alloc);
    for fault in faults {
        push_fault(alloc, tags, &mut out, fault)?;
    }
    Ok(out)
}

fn read_all(alloc: Global, body: &mut Body, statements: &str) -> Result<(), AllocError> {
    body.begin()?;
    let mut at: u32 = 0;
    for statement in statements.split(';') {
        at = at.wrapping_add(1);
        body.read(alloc, at, statement.trim())?;
    }
    body.finish(alloc)
}

fn answers(
    alloc: Global,
    tags: &Tags,
    body: &mut Body,
    statements: &str,
) -> Result<String, AllocError> {
    read_all(alloc, body, statements)?;
    shown_faults(alloc, tags, body.faults.as_slice())
}

fn answer(alloc: Global, tags: &Tags, line: &str) -> Result<String, AllocError> {
    let (word, statements) = match line.split_once(':') {
        Some(pair) => pair,
        None => (line, ""),
    };
    let ty = type_named(alloc, word)?;
    let mut body = Body::new(alloc, ty);
    let shown = answers(alloc, tags, &mut body, statements);
    drop(body);
    shown
}

fn number_behind(line: &str, word: &str) -> Option<u32> {
    match line.strip_prefix(word) {
        Some(rest) => match rest.trim().parse::<u32>() {
            Ok(number) => Some(number),
            Err(_) => None,
        },
        None => None,
    }
}

fn shown(alloc: Global, tags: &Tags, line: &str) -> Result<String, AllocError> {
    if let Some(count) = number_behind(line, "cases ") {
        let mut faults = Vec::new(alloc);
        long_switch(alloc, count, &mut faults)?;
        return shown_faults(alloc, tags, faults.as_slice());
    }
    answer(alloc, tags, line)
}

fn show_lines(rt: &HostRuntime, tags: &mut Tags) -> io::Result<()> {
    name_tags(rt.alloc(), tags)?;
    let mut text = String::new(rt.alloc());
    rt.stdin().read_to_string(&mut text)?;
    for line in text.lines() {
        let shown = shown(rt.alloc(), tags, line)?;
        let shown = shown.as_str();
        println!(rt; "{line} ={shown}")?;
    }
    Ok(())
}

fn main(rt: HostRuntime) -> io::Result<()> {
    let mut tags = Tags::new(rt.alloc());
    show_lines(&rt, &mut tags)
}
