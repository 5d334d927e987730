// Conditions, case by case, and the library texts: reads cases from standard input and prints what the condition of each
// says. A line `libraries` asks for the library texts: a line each with its name and the number of its lexical faults.
// With a word, standard input is one condition; it prints its truth and the number of replacements. `bench/run` times that.
#![tactic(auto)]

mod cases;
mod reading;
mod shown;

use c_tokens::lex;
use cases::Case;
use lib_texts::{library, names};
use macro_table::MacroTable;
use pp_cond::condition;
use reading::tokens_of;
use shown::{push_truth, shown};
use std::io::Read;
use std::{env, io};

fn show(rt: &HostRuntime, case: &Case, text: &str) -> io::Result<()> {
    let said = case.said(rt.alloc(), text)?;
    let lines = said.as_str();
    print!(rt; "#if {text}\n{lines}")
}

fn show_library(rt: &HostRuntime, name: &str) -> io::Result<()> {
    let Some(text) = library(name) else {
        return println!(rt; "{name} -");
    };
    if text.len() > 4_000_000_000 {
        return Ok(());
    }
    let lexed = lex(rt.alloc(), text)?;
    let faults = lexed.faults.as_slice().len();
    println!(rt; "{name} {faults}")
}

fn show_libraries(rt: &HostRuntime) -> io::Result<()> {
    for name in names() {
        show_library(rt, name)?;
    }
    Ok(())
}

fn play(rt: &HostRuntime, text: &str) -> io::Result<()> {
    let alloc = rt.alloc();
    let mut case = Case::begun(alloc, "0");
    for line in text.split('\n') {
        if let Some(budget) = line.strip_prefix("budget ") {
            case = Case::begun(alloc, budget);
        } else if line == "no lines" {
            case.without_lines();
        } else if line == "libraries" {
            show_libraries(rt)?;
        } else if line.starts_with("#define ") {
            case.define(alloc, line)?;
        } else if let Some(text) = line.strip_prefix("#if ") {
            show(rt, &case, text)?;
        }
    }
    Ok(())
}

fn say(rt: &HostRuntime, text: &str) -> io::Result<()> {
    let alloc = rt.alloc();
    let tokens = tokens_of(alloc, "/t.c", text)?;
    let table = MacroTable::new(alloc);
    let cond = condition(alloc, tokens.as_slice(), &table, &[], u32::MAX)?;
    let mut out = String::new(alloc);
    push_truth(alloc, &mut out, &cond)?;
    let line = out.as_str();
    print!(rt; "{line}")
}

fn main(rt: HostRuntime) -> io::Result<()> {
    let mut text = String::new(rt.alloc());
    rt.stdin().read_to_string(&mut text)?;
    if let Some(_) = env::args(&rt)?.skip(1).next() {
        return say(&rt, text.as_str());
    }
    play(&rt, text.as_str())
}
