// Places of a text as positions, and positions as places. Prints the sums for a short text. With the words `pos LINES COUNT`
// or `offset LINES COUNT` it makes so many calls over a text of so many lines, and prints their sum; `bench/run` times these.
#![tactic(auto)]

ghost use Rattle.std.specs.Prelude.{◌≡◌, ◌≤◌, length};
ghost use Rattle.text_lines.specs.Positions.{line_starts};

use std::alloc::{AllocError, Global};
use std::{env, io};
use text_lines::{Encoding, LineTable, Pos};

/// What is called.
#[derive(Drop)]
enum Call {
    /// `pos`, with offsets all over the text.
    Pos,
    /// `offset`, with positions all over the text.
    Offset,
}

/// A line of 52 bytes, 50 UTF-16 units and 49 code points, its end with it.
const LINE: &str = "    while (first != NULL && \"😀\" != first->key) {\n";

fn text_of(alloc: Global, lines: u32) -> Result<String, AllocError> {
    let mut text = String::new(alloc);
    for _ in 0..lines {
        text.push_str(LINE)?;
    }
    Ok(text)
}

/// The sum of the lines and characters of so many offsets.
fn sum_of_positions(table: &LineTable, text: &str, encoding: Encoding, count: u32) -> u64
    requires table { table.now ≡ line_starts text.now }
    requires short { length text.now ≤ 4290772992 }
{
    let places = text.len() as u64 + 1;
    let mut sum: u64 = 0;
    for turn in 0..count {
        let offset = (turn as u64 * 7919 % places) as u32;
        let pos = table.pos(text, offset, encoding);
        sum = sum.wrapping_add(pos.line as u64 + pos.character as u64);
    }
    sum
}

/// The sum of the offsets of so many positions.
fn sum_of_offsets(table: &LineTable, text: &str, encoding: Encoding, lines: u32, count: u32) -> u64
    requires table { table.now ≡ line_starts text.now }
    requires short { length text.now ≤ 4290772992 }
{
    let mut sum: u64 = 0;
    for turn in 0..count {
        let line = (turn as u64 * 7919 % (lines as u64 + 1)) as u32;
        let pos = Pos {
            line,
            character: turn % 50,
        };
        sum = sum.wrapping_add(table.offset(text, pos, encoding) as u64);
    }
    sum
}

/// Prints the sum of so many calls over a text of so many lines.
fn show(
    rt: &HostRuntime,
    call: Call,
    encoding: Encoding,
    lines: u32,
    count: u32,
) -> io::Result<()> {
    let text = text_of(rt.alloc(), lines)?;
    if text.len() > 4_290_772_992 {
        return println!(rt; "too long");
    }
    let table = LineTable::new(rt.alloc(), text.as_str())?;
    let sum = match call {
        Call::Pos => sum_of_positions(&table, text.as_str(), encoding, count),
        Call::Offset => sum_of_offsets(&table, text.as_str(), encoding, lines, count),
    };
    println!(rt; "{sum}")
}

fn show_all(rt: &HostRuntime) -> io::Result<()> {
    for encoding in [Encoding::Utf8, Encoding::Utf16, Encoding::Utf32] {
        show(rt, Call::Pos, encoding, 10, 1_000)?;
        show(rt, Call::Offset, encoding, 10, 1_000)?;
    }
    Ok(())
}

/// The words after the program's name.
fn words(rt: &HostRuntime) -> io::Result<Vec<String>> {
    let mut words = Vec::new(rt.alloc());
    for word in env::args(rt)?.skip(1) {
        words.push(word)?;
    }
    Ok(words)
}

fn call_of(word: &str) -> Option<Call> {
    match word {
        "pos" => Some(Call::Pos),
        "offset" => Some(Call::Offset),
        _ => None,
    }
}

fn main(rt: HostRuntime) -> io::Result<()> {
    let words = words(&rt)?;
    let [call, lines, count] = words.as_slice() else {
        return show_all(&rt)
    };
    match (
        call_of(call.as_str()),
        lines.parse::<u32>(),
        count.parse::<u32>(),
    ) {
        (Some(call), Ok(lines), Ok(count)) => show(&rt, call, Encoding::Utf16, lines, count),
        _ => show_all(&rt),
    }
}
