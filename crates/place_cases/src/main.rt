// Positions of texts: reads texts from standard input, each a line that is a JSON string. It prints of each text the offsets of 24
// positions, a line for UTF-8, UTF-16 and UTF-32 each, and then of each byte, and of the end, its line, its character in each of
// the three encodings, and the position in UTF-16 that a walk over the text gives.
#![tactic(auto)]

ghost use Rattle.std.specs.Prelude.{◌≡◌, ◌≤◌, length};
ghost use Rattle.text_lines.specs.Positions.{line_starts};

use serde_json::Value;
use std::alloc::{AllocError, Global};
use std::io;
use std::io::Read;
use text_lines::{Encoding, LineTable, Pos, Walk};

const LINES: [u32; 4] = [0, 1, 2, 5];

const CHARACTERS: [u32; 6] = [0, 1, 2, 3, 5, 99];

/// The offsets of each of the lines with each of the characters, from left to right.
fn offsets(
    alloc: Global,
    table: &LineTable,
    text: &str,
    encoding: Encoding,
) -> Result<String, AllocError>
    requires table { table.now ≡ line_starts text.now }
    requires short { length text.now ≤ 1000 }
{
    let mut row = String::new(alloc);
    for line in LINES {
        for character in CHARACTERS {
            let pos = Pos { line, character };
            let offset = table.offset(text, pos, encoding);
            let cell = format!(in alloc; " {offset}")?;
            row.push_str(cell.as_str())?;
        }
    }
    Ok(row)
}

fn show_offsets(rt: &HostRuntime, table: &LineTable, text: &str) -> io::Result<()>
    requires table { table.now ≡ line_starts text.now }
    requires short { length text.now ≤ 1000 }
{
    for encoding in [Encoding::Utf8, Encoding::Utf16, Encoding::Utf32] {
        let row = offsets(rt.alloc(), table, text, encoding)?;
        let row = row.as_str();
        println!(rt; "offsets{row}")?;
    }
    Ok(())
}

/// One place, by the table and by a walk.
fn show_place(
    rt: &HostRuntime,
    table: &LineTable,
    text: &str,
    offset: u32,
    walked: Pos,
) -> io::Result<()>
    requires table { table.now ≡ line_starts text.now }
    requires short { length text.now ≤ 1000 }
    requires inside { offset ≤ length text.now }
{
    let line = table.line(offset);
    let bytes = table.pos(text, offset, Encoding::Utf8);
    let units = table.pos(text, offset, Encoding::Utf16);
    let points = table.pos(text, offset, Encoding::Utf32);
    let lines = format!(in rt.alloc(); "{} {} {}", bytes.line, units.line, points.line)?;
    let characters = format!(in rt.alloc();
        "{} {} {}",
        bytes.character, units.character, points.character
    )?;
    let (lines, characters) = (lines.as_str(), characters.as_str());
    println!(rt;
        "place {line} {lines} {characters} walk {} {}",
        walked.line, walked.character
    )
}

fn show_places(rt: &HostRuntime, table: &LineTable, text: &str) -> io::Result<()>
    requires table { table.now ≡ line_starts text.now }
    requires short { length text.now ≤ 1000 }
{
    let mut walk = Walk::new(text, Encoding::Utf16);
    let mut offset: u32 = 0;
    'places: while offset as usize <= text.len() {
        let walked = walk.pos(offset);
        show_place(rt, table, text, offset, walked)?;
        offset += 1;
    }
    let first = walk.pos(0);
    println!(rt; "walk back {} {}", first.line, first.character)
}

fn show(rt: &HostRuntime, text: &str) -> io::Result<()> {
    if 1000 < text.len() {
        println!(rt; "too long")?;
        return Ok(());
    }
    let table = LineTable::new(rt.alloc(), text)?;
    show_offsets(rt, &table, text)?;
    show_places(rt, &table, text)
}

fn show_line(rt: &HostRuntime, line: &str) -> io::Result<()> {
    println!(rt; "> {line}")?;
    match Value::from_slice(rt.alloc(), line.as_bytes()) {
        Ok(Value::String(text)) => show(rt, text.as_str()),
        _ => {
            println!(rt; "no text")?;
            Ok(())
        }
    }
}

fn main(rt: HostRuntime) -> io::Result<()> {
    let mut text = String::new(rt.alloc());
    rt.stdin().read_to_string(&mut text)?;
    for line in text.lines() {
        show_line(&rt, line)?;
    }
    Ok(())
}
