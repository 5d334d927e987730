// What questions about a text are answered with, line by line: reads tokens and questions from standard input, one a line, and
// prints the message that answers each question.
//
//   token URI LINE CHARACTER LINE CHARACTER KIND NAME    one more token, from a place to a place
//   none                                                 no token any more
//   locations ID, symbols ID                             the tokens that there are
//   hover ID LINE CHARACTER LINE CHARACTER TEXT          plain text about a range
//   renamable ID LINE CHARACTER LINE CHARACTER NAME      a name that may be renamed
//   edits ID NAME                                        the tokens that there are get a name
#![tactic(auto)]

ghost use Rattle.std.specs.Prelude.{OnOk};

use json_view::Id;
use lsp_answers::{
    JsonText, Located, edits, hover, locations, renamable, response, response_of, symbols,
};
use shared_text::Name;
use std::alloc::Global;
use std::io;
use std::io::Read;
use std::str::SplitWhitespace;
use text_lines::Pos;

fn number(words: &mut SplitWhitespace<'_>) -> u32 {
    match words.next() {
        Some(word) => match word.parse::<u32>() {
            Ok(number) => number,
            Err(_) => 0,
        },
        None => 0,
    }
}

fn place(words: &mut SplitWhitespace<'_>) -> Pos {
    let line = number(words);
    let character = number(words);
    Pos { line, character }
}

fn kind(words: &mut SplitWhitespace<'_>) -> u8 {
    match words.next() {
        Some(word) => match word.parse::<u8>() {
            Ok(kind) => kind,
            Err(_) => 0,
        },
        None => 0,
    }
}

fn name(alloc: Global, words: &mut SplitWhitespace<'_>) -> io::Result<Name> {
    let name = Name::from_str(alloc, words.next().unwrap_or(""))?;
    Ok(name)
}

fn token(alloc: Global, words: &mut SplitWhitespace<'_>) -> io::Result<Located> {
    let uri = name(alloc, words)?;
    let start = place(words);
    let end = place(words);
    let kind = kind(words);
    let name = name(alloc, words)?;
    Ok(Located {
        uri,
        start,
        end,
        kind,
        name,
    })
}

// A message's header and its content, a line each.
fn show(rt: &HostRuntime, message: Vec<u8>) -> io::Result<()> {
    match String::from_utf8(message) {
        Ok(text) => {
            for line in text.lines() {
                println!(rt; "{line}")?;
            }
            Ok(())
        }
        Err(_) => {
            println!(rt; "no text")?;
            Ok(())
        }
    }
}

fn show_listed(rt: &HostRuntime, id: u32, answer: JsonText) -> io::Result<()> {
    let message = response_of(rt.alloc(), &Id::Big(u64::from(id)), &answer)?;
    show(rt, message)
}

fn show_hover(rt: &HostRuntime, words: &mut SplitWhitespace<'_>) -> io::Result<()> {
    let id = number(words);
    let start = place(words);
    let end = place(words);
    let text = words.next().unwrap_or("");
    let answer = hover(rt.alloc(), text, start, end)?;
    let message = response(rt.alloc(), &Id::Big(u64::from(id)), answer)?;
    show(rt, message)
}

fn show_renamable(rt: &HostRuntime, words: &mut SplitWhitespace<'_>) -> io::Result<()> {
    let id = number(words);
    let start = place(words);
    let end = place(words);
    let text = words.next().unwrap_or("");
    let answer = renamable(rt.alloc(), text, start, end)?;
    let message = response(rt.alloc(), &Id::Big(u64::from(id)), answer)?;
    show(rt, message)
}

fn show_edits(
    rt: &HostRuntime,
    toks: &[Located],
    words: &mut SplitWhitespace<'_>,
) -> io::Result<()> {
    let id = number(words);
    let name = words.next().unwrap_or("");
    let answer = edits(rt.alloc(), toks, name)?;
    show_listed(rt, id, answer)
}

fn answer(rt: &HostRuntime, toks: &mut Vec<Located>, line: &str) -> io::Result<()> {
    let mut words = line.split_whitespace();
    match words.next().unwrap_or("") {
        "token" => {
            let tok = token(rt.alloc(), &mut words)?;
            toks.push(tok)?;
            Ok(())
        }
        "none" => {
            toks.clear();
            Ok(())
        }
        "locations" => {
            let answer = locations(rt.alloc(), toks.as_slice())?;
            show_listed(rt, number(&mut words), answer)
        }
        "symbols" => {
            let answer = symbols(rt.alloc(), toks.as_slice())?;
            show_listed(rt, number(&mut words), answer)
        }
        "hover" => show_hover(rt, &mut words),
        "renamable" => show_renamable(rt, &mut words),
        "edits" => show_edits(rt, toks.as_slice(), &mut words),
        _ => {
            println!(rt; "no question")?;
            Ok(())
        }
    }
}

fn main(rt: HostRuntime) -> io::Result<()> {
    let mut text = String::new(rt.alloc());
    rt.stdin().read_to_string(&mut text)?;
    let mut toks = Vec::new(rt.alloc());
    for line in text.lines() {
        println!(rt; "> {line}")?;
        answer(&rt, &mut toks, line)?;
    }
    Ok(())
}
