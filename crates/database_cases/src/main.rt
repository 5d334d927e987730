// Databases of compilations, case by case: reads cases from standard input and prints what comes of each. A case begins with the
// line `root PATH` and ends with `commands TEXT`, behind which its entries are printed, or with `units` or `units TEXT`, behind
// which the refusal and the units are printed, without a database or with one. Before `units` stand `include FOLDER` and `define
// NAME TEXT`, which the words give, and `path PATH` and `open PATH`, the texts on disk and the open documents, in order of path.
// `many NUMBER TEXT` is a database that has an entry so often, of which the number of units is printed. Texts are percent-encoded.
#![tactic(auto)]

mod cases;
mod shown;

use cases::Case;
use std::io;
use std::io::Read;

fn main(rt: HostRuntime) -> io::Result<()> {
    let alloc = rt.alloc();
    let mut text = String::new(alloc);
    rt.stdin().read_to_string(&mut text)?;
    let mut case = Case::new(alloc);
    for line in text.as_str().split('\n') {
        if let Some(root) = line.strip_prefix("root ") {
            println!(rt; "{line}")?;
            case = Case::new(alloc);
            case.take_root(alloc, root)?;
            continue;
        }
        if let Some(text) = line.strip_prefix("commands ") {
            shown::commands_shown(&rt, &case, text)?;
            continue;
        }
        if let Some(text) = line.strip_prefix("many ") {
            shown::many_shown(&rt, &case, text)?;
            continue;
        }
        if let Some(text) = line.strip_prefix("units") {
            shown::units_shown(&rt, &case, text)?;
            continue;
        }
        case.take_line(alloc, line)?;
    }
    Ok(())
}
