// Initializers, case by case: reads a type, `static` or `auto`, and the pieces of an initializer from each line of standard input, and
// prints the faults, each behind the number of its piece, and the type that the object has then. A piece is `{`, `}`, `.` and a
// name, a number in brackets (`[?]` where its value isn't told, `[!R]` where it breaks the rule R), `"` and the type of a string
// literal, or an expression (`src/operands.rt`); types and tags are those of `src/types.rt` and `src/tags.rt`. `elements N`,
// `members N` and `names N` read a list of so many initializers for an array, for a structure, and for its members by their names.
#![tactic(auto)]

mod lists;
mod operands;
mod pieces;
mod tags;
mod types;

use init_rules::{InitPiece, InitState, Stack, completed, init_step};
use lists::{element_list, member_list};
use pieces::piece_named;
use std::alloc::{AllocError, Global};
use std::io;
use std::io::Read;
use tags::tags_of;
use type_data::{CType, CheckError, Fault, Tags};
use type_print::print;
use types::{plain, type_named};

// The state before the first piece.
pub fn started(alloc: Global, ty: CType, constant: bool) -> InitState {
    InitState {
        ty,
        open_places: Stack::new(alloc),
        at: 0,
        constant,
        designating: false,
        reached: 0,
    }
}

fn shown_fault(alloc: Global, tags: &Tags, fault: &Fault) -> Result<String, AllocError> {
    let at = fault.at;
    let rule = fault.rule;
    let mut out = format!(in alloc; " {at}: {rule}")?;
    let mut parted = " ";
    for ty in fault.types.as_slice() {
        let ty = print(alloc, ty, plain(), "", tags)?;
        out.push_str(parted)?;
        out.push_str(ty.as_str())?;
        parted = ", ";
    }
    out.push_str(";")?;
    Ok(out)
}

fn stepped(
    alloc: Global,
    state: &mut InitState,
    piece: &InitPiece,
    tags: &Tags,
) -> Result<String, AllocError> {
    match init_step(alloc, state, piece, tags) {
        Ok(()) => String::from_str(alloc, ""),
        Err(CheckError::Broken(fault)) => shown_fault(alloc, tags, &fault),
        Err(CheckError::NoMemory) => String::from_str(alloc, " no memory;"),
    }
}

fn step_by(
    alloc: Global,
    state: &mut InitState,
    word: &str,
    tags: &Tags,
) -> Result<String, AllocError> {
    let piece = piece_named(alloc, word)?;
    let shown = stepped(alloc, state, &piece, tags);
    drop(piece);
    shown
}

fn push_type(
    alloc: Global,
    tags: &Tags,
    state: &InitState,
    out: &mut String,
) -> Result<(), AllocError> {
    let ty = completed(alloc, state)?;
    let shown = print(alloc, &ty, plain(), "", tags);
    drop(ty);
    let shown = shown?;
    out.push_str(" ")?;
    out.push_str(shown.as_str())
}

// The answers to the pieces behind the first two words, and the type.
fn answers(
    alloc: Global,
    tags: &Tags,
    state: &mut InitState,
    line: &str,
) -> Result<String, AllocError> {
    let mut out = String::new(alloc);
    for word in line.split_ascii_whitespace().skip(2) {
        state.at = state.at.wrapping_add(1);
        let shown = step_by(alloc, state, word, tags)?;
        out.push_str(shown.as_str())?;
    }
    push_type(alloc, tags, state, &mut out)?;
    Ok(out)
}

fn answer(alloc: Global, tags: &Tags, line: &str) -> Result<String, AllocError> {
    let mut words = line.split_ascii_whitespace();
    let ty = type_named(alloc, words.next().unwrap_or(""))?;
    let constant = words.next().unwrap_or("") == "static";
    let mut state = started(alloc, ty, constant);
    answers(alloc, tags, &mut state, line)
}

fn number_behind(line: &str, word: &str) -> Option<u32> {
    match line.strip_prefix(word) {
        Some(rest) => match rest.trim().parse::<u32>() {
            Ok(number) => Some(number),
            Err(_) => None,
        },
        None => None,
    }
}

fn shown(alloc: Global, tags: &Tags, line: &str) -> Result<String, AllocError> {
    if let Some(count) = number_behind(line, "elements ") {
        return element_list(alloc, tags, count);
    }
    if let Some(count) = number_behind(line, "members ") {
        return member_list(alloc, count, false);
    }
    if let Some(count) = number_behind(line, "names ") {
        return member_list(alloc, count, true);
    }
    answer(alloc, tags, line)
}

fn main(rt: HostRuntime) -> io::Result<()> {
    let mut text = String::new(rt.alloc());
    rt.stdin().read_to_string(&mut text)?;
    let tags = tags_of(rt.alloc())?;
    for line in text.lines() {
        let shown = shown(rt.alloc(), &tags, line)?;
        let shown = shown.as_str();
        println!(rt; "{line} ={shown}")?;
    }
    Ok(())
}
