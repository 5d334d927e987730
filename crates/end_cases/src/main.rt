// Ends of units, case by case: reads a unit from each line of standard input and prints its faults. Items stand between `;`, what
// an item does between `,`: `defines NAME LINKAGE TYPE`, and so with `tentative`, `refused` and `declares`; `uses NAME`, and `body
// NAME` where its body does; `within NAME LINKAGE TYPE` where its body declares it; `completes TAG` and `mentions TAG`, for a
// structure. A fault is told by its rule, the name, and
// where the name stands: the number of the item, and of the name in it. With a number as a word it makes a unit of so many
// functions and prints how many faults it has: `bench/run` times this.
#![tactic(auto)]

mod items;
mod speed;
mod words;

use items::Items;
use std::alloc::{AllocError, Global};
use std::io::Read;
use std::{env, io};
use type_data::{Fault, ItemName};
use unit_ends::end_faults;

fn push_fault(
    alloc: Global,
    out: &mut String,
    item: &ItemName,
    fault: &Fault,
) -> Result<(), AllocError> {
    let rule = fault.rule;
    let number = item.nth;
    let at = fault.at;
    for name in fault.names.as_slice() {
        let name = name.as_str();
        let shown = format!(in alloc; " {rule} {name} {number}.{at}")?;
        out.push_str(shown.as_str())?;
    }
    Ok(())
}

// The faults of the unit of a line, or none where the line has no unit.
fn faults_of(alloc: Global, line: &str) -> Result<Option<String>, AllocError> {
    let mut items = Items::new(alloc);
    for item in line.split(';') {
        if !items.read(alloc, item)? {
            return Ok(None);
        }
    }
    let faults = end_faults(alloc, items.heads.as_slice(), items.bodies.as_slice())?;
    let mut out = String::new(alloc);
    for (item, fault) in faults.as_slice() {
        push_fault(alloc, &mut out, item, fault)?;
    }
    Ok(Some(out))
}

fn show(rt: &HostRuntime, line: &str) -> io::Result<()> {
    match faults_of(rt.alloc(), line)? {
        Some(faults) => {
            let faults = faults.as_str();
            println!(rt; "{line} ={faults}")
        }
        None => println!(rt; "{line} is no unit"),
    }
}

fn show_lines(rt: &HostRuntime) -> io::Result<()> {
    let mut text = String::new(rt.alloc());
    rt.stdin().read_to_string(&mut text)?;
    for line in text.lines() {
        show(rt, line)?;
    }
    Ok(())
}

/// The number behind the program's name.
fn number_asked(rt: &HostRuntime) -> io::Result<Option<u32>> {
    for word in env::args(rt)?.skip(1) {
        if let Ok(number) = word.parse::<u32>() {
            return Ok(Some(number));
        }
    }
    Ok(None)
}

fn main(rt: HostRuntime) -> io::Result<()> {
    match number_asked(&rt)? {
        Some(number) => {
            let count = speed::play(rt.alloc(), number)?;
            println!(rt; "{count}")
        }
        None => show_lines(&rt),
    }
}
