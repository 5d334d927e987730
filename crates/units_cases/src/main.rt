// Units, case by case: reads cases from standard input and prints what comes of each unit. A case is lines `include FOLDER`,
// `set NAME TEXT` and `unset NAME` (definitions), `text PATH TEXT`, `brief`, and at its end `unit PATH`; texts and the
// paths of texts are percent-encoded. A line T is a token, F a fault, R a path that was read, S a token that was spelled,
// E a text that was entered, M an occurrence of a macro's name, without those of the first lines of `<command>`. Where
// `brief` is said, there is the number of tokens instead (N), and their spellings (P) where these are few.
#![tactic(auto)]

mod cases;
mod shown;

use cases::Case;
use shown::show;
use std::io;
use std::io::Read;

fn run(rt: &HostRuntime, case: Case, path: &str) -> io::Result<()> {
    let brief = case.is_brief();
    match case.unit(rt.alloc(), path)? {
        Some(unit) => show(rt, &unit, brief),
        None => println!(rt; "no unit"),
    }
}

fn main(rt: HostRuntime) -> io::Result<()> {
    let alloc = rt.alloc();
    let mut text = String::new(alloc);
    rt.stdin().read_to_string(&mut text)?;
    let mut case = Case::new(alloc);
    for line in text.as_str().split('\n') {
        if let Some(path) = line.strip_prefix("unit ") {
            println!(rt; "unit {path}")?;
            run(&rt, case, path)?;
            case = Case::new(alloc);
            continue;
        }
        case.take_line(alloc, line)?;
    }
    Ok(())
}
