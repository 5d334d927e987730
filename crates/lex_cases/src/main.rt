// Lexing, case by case: reads texts from standard input, one a line, in which `%` and two hexadecimal digits stand for a
// byte, and prints the tokens, places and faults of each. A token is its kind, `_` after white space, `^` first in its
// line, its range in bytes and its spelling; a fault follows `!`.
#![tactic(auto)]

use c_tokens::{LexFault, PpKind, PpToken, lex};
use percent_encoding::percent_decode;
use std::alloc::{AllocError, Global};
use std::io;
use std::io::Read;

fn kind_name(kind: PpKind) -> &'static str {
    match kind {
        PpKind::Ident => "Ident",
        PpKind::Number => "Number",
        PpKind::Char => "Char",
        PpKind::Str => "Str",
        PpKind::Header => "Header",
        PpKind::Punct => "Punct",
        PpKind::Stray => "Stray",
    }
}

fn shown_token(alloc: Global, token: &PpToken, place: (u32, u32)) -> Result<String, AllocError> {
    let space = if token.space_before { "_" } else { "." };
    let front = if token.line_start { "^" } else { "." };
    let kind = kind_name(token.kind);
    let (start, end) = place;
    let spelling = token.spelling.as_str();
    format!(in alloc; "{kind} {space}{front} {start}-{end} {spelling}\n")
}

fn shown_fault(alloc: Global, fault: &LexFault) -> Result<String, AllocError> {
    let (rule, start, end) = (fault.rule, fault.start, fault.end);
    match fault.tok {
        Some(number) => format!(in alloc; "! {rule} {start}-{end} {number}\n"),
        None => format!(in alloc; "! {rule} {start}-{end}\n"),
    }
}

fn shown(alloc: Global, text: &str) -> Result<String, AllocError> {
    let mut out = String::new(alloc);
    if 4_290_772_992 < text.len() {
        return Ok(out);
    }
    let lexed = lex(alloc, text)?;
    for (token, place) in lexed.tokens.as_slice().iter().zip(lexed.places.as_slice()) {
        out.push_str(shown_token(alloc, token, *place)?.as_str())?;
    }
    for fault in lexed.faults.as_slice() {
        out.push_str(shown_fault(alloc, fault)?.as_str())?;
    }
    Ok(out)
}

/// The text that a line stands for, or none where its bytes aren't UTF-8.
fn text_of(alloc: Global, line: &str) -> Result<Option<String>, AllocError> {
    let mut bytes = Vec::new(alloc);
    percent_decode(line.as_bytes()).append_to(&mut bytes)?;
    Ok(String::from_utf8(bytes).ok())
}

fn show(rt: &HostRuntime, line: &str) -> io::Result<()> {
    match text_of(rt.alloc(), line)? {
        Some(text) => {
            let found = shown(rt.alloc(), text.as_str())?;
            let tokens = found.as_str();
            print!(rt; "> {line}\n{tokens}")
        }
        None => println!(rt; "> {line}\nno text"),
    }
}

fn main(rt: HostRuntime) -> io::Result<()> {
    let mut text = String::new(rt.alloc());
    rt.stdin().read_to_string(&mut text)?;
    for line in text.lines() {
        show(&rt, line)?;
    }
    Ok(())
}
