// Constants, case by case: reads calls from standard input, one a line, and prints the answer of each behind its line. A
// value is its number, `?` where it is Unknown, `!` and a rule where it is Faulty, `-` where it isn't read. `integer
// SPELLING` asks what a preprocessing number is as a constant, `character SPELLING` what a character constant is, `string
// PIECES` with a bar between two pieces what a string literal is: its prefix's number and its units.
#![tactic(auto)]

mod words;

use c_literals::{LitError, Literal, character, convert, integer, string_pieces, value_op};
use shared_text::Name;
use std::alloc::{AllocError, Global};
use std::io;
use std::io::Read;
use type_data::Value;
use words::{floating_name, op_named, type_name, type_named, value_read};

/// The answer to a call's words, or none where they aren't a call.
fn answered(line: &str) -> Option<Value> {
    let mut words = line.split_whitespace();
    let call = words.next()?;
    let ty = type_named(words.next()?)?;
    let first = value_read(words.next()?)?;
    if call == "convert" {
        return Some(convert(ty, first));
    }
    let second = value_read(words.next()?)?;
    Some(value_op(op_named(call)?, ty, first, second))
}

fn show_literal(rt: &HostRuntime, line: &str, literal: Literal) -> io::Result<()> {
    match literal {
        Literal::Int(ty, value) => {
            let name = type_name(ty);
            println!(rt; "{line} = Int {name} {value}")
        }
        Literal::Floating(ty) => {
            let name = floating_name(ty);
            println!(rt; "{line} = Floating {name}")
        }
        Literal::Bad(rule) => println!(rt; "{line} = Bad {rule}"),
    }
}

fn pieces_of(alloc: Global, line: &str) -> Result<Vec<Name>, AllocError> {
    let mut pieces = Vec::new(alloc);
    for piece in line.split('|') {
        pieces.push(Name::from_str(alloc, piece)?)?;
    }
    Ok(pieces)
}

fn show_units(rt: &HostRuntime, units: &[u32]) -> io::Result<()> {
    for unit in units {
        let unit = *unit;
        print!(rt; " {unit}")?;
    }
    println!(rt; "")
}

fn show_string(rt: &HostRuntime, line: &str, spellings: &str) -> io::Result<()> {
    let pieces = pieces_of(rt.alloc(), spellings)?;
    match string_pieces(rt.alloc(), pieces.as_slice()) {
        Ok(text) => {
            let prefix = text.prefix;
            print!(rt; "{line} = {prefix}:")?;
            show_units(rt, text.units.as_slice())
        }
        Err(LitError::Bad(rule)) => println!(rt; "{line} = Bad {rule}"),
        Err(LitError::NoMemory) => println!(rt; "{line} = no memory"),
    }
}

fn show(rt: &HostRuntime, line: &str) -> io::Result<()> {
    if let Some(spelling) = line.strip_prefix("integer ") {
        return show_literal(rt, line, integer(spelling));
    }
    if let Some(spelling) = line.strip_prefix("character ") {
        return show_literal(rt, line, character(spelling));
    }
    if let Some(spellings) = line.strip_prefix("string ") {
        return show_string(rt, line, spellings);
    }
    match answered(line) {
        Some(Value::Known(number)) => println!(rt; "{line} = {number}"),
        Some(Value::Unknown) => println!(rt; "{line} = ?"),
        Some(Value::Faulty(rule)) => println!(rt; "{line} = !{rule}"),
        None => println!(rt; "{line} is no call"),
    }
}

fn main(rt: HostRuntime) -> io::Result<()> {
    let mut text = String::new(rt.alloc());
    rt.stdin().read_to_string(&mut text)?;
    for line in text.lines() {
        show(&rt, line)?;
    }
    Ok(())
}
