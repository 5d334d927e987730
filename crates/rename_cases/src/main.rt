// Renames, line by line: `unit PATH` begins a unit and `changed PATH` one as it is after the edits; `occ FILE AT ROLE ANCHOR` and
// `kinds FILE KINDS` tell of the last one. `class FILE AT` prints a token's class and what stands in the way, `rename FILE AT NAME`
// what its rename comes to, and `end` forgets the units.
#![tactic(auto)]

mod answers;
mod project;
mod reading;

use answers::{show_class, show_rename};
use project::Units;
use reading::token;
use std::alloc::{AllocError, Global};
use std::io;
use std::io::Read;
use tok_data::TokId;

/// Units before and after the edits, and which of them are told of.
#[derive(Drop)]
struct Case {
    before: Units,
    after: Units,
    is_after: bool,
}

impl Case {
    fn new(alloc: Global) -> Case {
        Case {
            before: Units::new(alloc),
            after: Units::new(alloc),
            is_after: false,
        }
    }
}

/// The token that a line names.
fn token_of(alloc: Global, line: &str) -> Result<Option<TokId>, AllocError> {
    let mut words = line.split_ascii_whitespace().skip(1);
    let file = words.next().unwrap_or("");
    let at = words.next().unwrap_or("");
    token(alloc, file, at)
}

/// Tells of the last unit.
fn tell_last(alloc: Global, units: &mut Units, call: &str, line: &str) -> Result<(), AllocError> {
    if call == "occ" {
        return units.add_occ(alloc, line);
    }
    if call == "kinds" {
        return units.add_kinds(alloc, line);
    }
    Ok(())
}

fn tell(alloc: Global, case: &mut Case, call: &str, line: &str) -> Result<(), AllocError> {
    let path = line.split_ascii_whitespace().skip(1).next().unwrap_or("");
    if call == "unit" {
        case.is_after = false;
        return case.before.begin(alloc, path);
    }
    if call == "changed" {
        case.is_after = true;
        return case.after.begin(alloc, path);
    }
    if case.is_after {
        return tell_last(alloc, &mut case.after, call, line);
    }
    tell_last(alloc, &mut case.before, call, line)
}

fn answer(rt: &HostRuntime, case: &Case, call: &str, line: &str) -> io::Result<()> {
    let Some(tok) = token_of(rt.alloc(), line)? else {
        return Ok(());
    };
    println!(rt; "{line}")?;
    if call == "class" {
        return show_class(rt, &case.before, &tok);
    }
    let name = line.split_ascii_whitespace().skip(3).next().unwrap_or("");
    show_rename(rt, &case.before, &case.after, &tok, name)
}

fn act(rt: &HostRuntime, case: &mut Case, line: &str) -> io::Result<()> {
    let call = line.split_ascii_whitespace().next().unwrap_or("");
    if call == "class" || call == "rename" {
        return answer(rt, case, call, line);
    }
    tell(rt.alloc(), case, call, line)?;
    Ok(())
}

fn play(rt: &HostRuntime, case: &mut Case, text: &str) -> io::Result<()> {
    for line in text.lines() {
        if line == "end" {
            case.before.forget();
            case.after.forget();
        } else {
            act(rt, case, line)?;
        }
    }
    Ok(())
}

fn play_new(rt: &HostRuntime, text: &str) -> io::Result<()> {
    let mut case = Case::new(rt.alloc());
    play(rt, &mut case, text)
}

fn main(rt: HostRuntime) -> io::Result<()> {
    let mut text = String::new(rt.alloc());
    rt.stdin().read_to_string(&mut text)?;
    play_new(&rt, text.as_str())
}
