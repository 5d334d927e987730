// Meanings of units, case by case: reads units from the lines of standard input and prints what each means. A line is one of: `text FILE AT
// WORD..`, tokens of a text from this number on, which are output tokens; `made FILE AT WORD`, an output token that was made and falls there;
// `enter FILE FROM AT`, a text that was entered by this token; `head ITEM`, the head of the item of this number, and `inline ITEM`, one with
// `inline` and without `extern`; `body ITEM`, its body; of the head or body that was named last, with numbers of tokens in the item: `occ AT
// ANCHOR ROLE`, `object NAME ANCHOR TYPE`, `tag NAME ANCHOR ITEM.AT MEMBERS`, `stated HOW NAME AT`, `symbol KIND AT`, `fault RULE AT NAME
// TYPE`. An anchor is `=NAME` where it has external linkage, else `ITEM.AT`. `end` ends a unit.
#![tactic(auto)]

mod parts;
mod shown;
mod unit;
mod words;

use std::io::Read;
use std::{io, mem};
use unit::Unit;

fn show_unit(rt: &HostRuntime, unit: &mut Unit) -> io::Result<()> {
    let shown = unit.meaning(rt.alloc())?;
    let shown = shown.as_str();
    print!(rt; "{shown}")?;
    let before = mem::replace(unit, Unit::new(rt.alloc()));
    drop(before);
    Ok(())
}

fn show_line(rt: &HostRuntime, unit: &mut Unit, line: &str) -> io::Result<()> {
    if line == "end" {
        return show_unit(rt, unit);
    }
    if !unit.read(rt.alloc(), line)? {
        println!(rt; "{line} is no line")?;
    }
    Ok(())
}

fn show_all(rt: &HostRuntime, unit: &mut Unit, text: &str) -> io::Result<()> {
    for line in text.lines() {
        show_line(rt, unit, line)?;
    }
    Ok(())
}

fn show_lines(rt: &HostRuntime) -> io::Result<()> {
    let mut text = String::new(rt.alloc());
    rt.stdin().read_to_string(&mut text)?;
    let mut unit = Unit::new(rt.alloc());
    let shown = show_all(rt, &mut unit, text.as_str());
    drop(unit);
    shown
}

fn main(rt: HostRuntime) -> io::Result<()> {
    show_lines(&rt)
}
