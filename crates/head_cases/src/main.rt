// Parts of declarations, case by case: reads lists of enumerators and members, bodies, alignments, static assertions, declarations without
// a declarator and declarators from standard input, one a line, and prints what each comes to.
#![tactic(auto)]

mod lines;
mod lists;
mod notation;
mod showing;
mod words;

use lines::{assert, bare, body, declarator, place};
use lists::{alignment, enumeration, enumeration_info, structure};
use notation::token;
use scope_tables::{ScopeKind, Scopes};
use std::alloc::{AllocError, Global};
use std::io;
use std::io::Read;
use type_data::{TagKind, Tags};

fn row(alloc: Global, tags: &Tags, word: &str, line: &str) -> Result<String, AllocError> {
    match word {
        "align" => alignment(alloc, tags, line),
        "body" => body(alloc, tags, line),
        "assert" => assert(alloc, line),
        "bare" => bare(alloc, line),
        "declarator" => declarator(alloc, line),
        "place" => place(alloc, line),
        _ => String::from_str(alloc, "no row"),
    }
}

fn add_row(
    alloc: Global,
    scopes: &mut Scopes,
    tags: &mut Tags,
    out: &mut String,
    word: &str,
    line: &str,
) -> Result<(), AllocError> {
    match word {
        "enum" => enumeration(alloc, scopes, out, line),
        "struct" => structure(alloc, tags, out, TagKind::Struct, line),
        "union" => structure(alloc, tags, out, TagKind::Union, line),
        _ => {
            let shown = row(alloc, tags, word, line)?;
            out.push_str(shown.as_str())
        }
    }
}

// What a line comes to.
fn shown(
    alloc: Global,
    scopes: &mut Scopes,
    tags: &mut Tags,
    line: &str,
) -> Result<String, AllocError> {
    let (word, rest) = line.split_once(" ").unwrap_or((line, ""));
    let mut out = String::new(alloc);
    if word == "enter" {
        scopes.enter(ScopeKind::Block)?;
        return Ok(out);
    }
    out.push_str(" = ")?;
    add_row(alloc, scopes, tags, &mut out, word, rest)?;
    Ok(out)
}

fn main(rt: HostRuntime) -> io::Result<()> {
    let mut text = String::new(rt.alloc());
    rt.stdin().read_to_string(&mut text)?;
    let mut scopes = Scopes::new(rt.alloc());
    scopes.enter(ScopeKind::File)?;
    let mut tags = Tags::new(rt.alloc());
    let info = enumeration_info(rt.alloc(), &tags)?;
    tags.insert(token(rt.alloc(), 101)?, info)?;
    for line in text.lines() {
        let shown = shown(rt.alloc(), &mut scopes, &mut tags, line)?;
        let shown = shown.as_str();
        println!(rt; "{line}{shown}")?;
    }
    Ok(())
}
