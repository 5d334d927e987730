// Operators, case by case: reads a construct and its judged parts from each line of standard input, and prints what it makes of them
// or the rule that it breaks, with what its text prints. Behind the words of the construct each part stands behind a `|`: its type
// in postfix notation, `@` and its place, `=` and what kind of constant it is (`src/types.rt`, `src/operands.rt`).
#![tactic(auto)]

mod forms;
mod operands;
mod tags;
mod types;
mod words;

use expr_rules::{Operator, judge};
use forms::form_named;
use operands::{part_named, shown_part};
use std::alloc::{AllocError, Global};
use std::io;
use std::io::Read;
use tags::tags_of;
use type_data::{CheckError, Fault, Judged, Qual, Tags};
use type_print::print;

fn shown_fault(alloc: Global, tags: &Tags, fault: &Fault) -> Result<String, AllocError> {
    let rule = fault.rule;
    let mut out = format!(in alloc; "{rule}:")?;
    for name in fault.names.as_slice() {
        out.push_str(" ")?;
        out.push_str(name.as_str())?;
    }
    let plain = Qual {
        is_const: false,
        is_restrict: false,
        is_volatile: false,
    };
    let mut parted = " ";
    for ty in fault.types.as_slice() {
        let ty = print(alloc, ty, plain, "", tags)?;
        out.push_str(parted)?;
        out.push_str(ty.as_str())?;
        parted = ", ";
    }
    Ok(out)
}

fn answered(
    alloc: Global,
    tags: &Tags,
    operator: &Operator,
    parts: &[Judged],
) -> Result<String, AllocError> {
    match judge(alloc, operator, parts, tags) {
        Ok(judged) => {
            let shown = shown_part(alloc, tags, &judged);
            drop(judged);
            shown
        }
        Err(CheckError::Broken(fault)) => shown_fault(alloc, tags, &fault),
        Err(CheckError::NoMemory) => String::from_str(alloc, "no memory"),
    }
}

// The parts behind the words of the construct.
fn parts_of(alloc: Global, line: &str) -> Result<Vec<Judged>, AllocError> {
    let mut parts = Vec::new(alloc);
    for piece in line.split('|').skip(1) {
        let part = part_named(alloc, piece.trim())?;
        parts.push(part)?;
    }
    Ok(parts)
}

fn operator_of(alloc: Global, line: &str) -> Result<Option<Operator>, AllocError> {
    let words = line.split('|').next().unwrap_or("");
    match form_named(alloc, words)? {
        Some(form) => Ok(Some(Operator { at: 7, form })),
        None => Ok(None),
    }
}

fn answer(alloc: Global, tags: &Tags, line: &str) -> Result<String, AllocError> {
    let parts = parts_of(alloc, line)?;
    match operator_of(alloc, line)? {
        Some(operator) => {
            let shown = answered(alloc, tags, &operator, parts.as_slice());
            drop(operator);
            shown
        }
        None => String::from_str(alloc, "no construct"),
    }
}

fn main(rt: HostRuntime) -> io::Result<()> {
    let mut text = String::new(rt.alloc());
    rt.stdin().read_to_string(&mut text)?;
    let tags = tags_of(rt.alloc())?;
    for line in text.lines() {
        let shown = answer(rt.alloc(), &tags, line)?;
        let shown = shown.as_str();
        println!(rt; "{line} = {shown}")?;
    }
    Ok(())
}
