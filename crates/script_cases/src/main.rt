// The generated session, number by number: reads numbers from standard input, one a line, and prints the contents for each.
#![tactic(auto)]

ghost use Rattle.std.specs.Prelude.{◌≤◌};

use gen_project::generate;
use std::io;
use std::io::Read;

fn show(rt: &HostRuntime, number: u32) -> io::Result<()>
    requires { 1 ≤ number × number ≤ 512 }
{
    println!(rt; "> {number}")?;
    for content in generate(rt.alloc(), number)?.as_slice() {
        let content = content.as_str();
        println!(rt; "{content}")?;
    }
    Ok(())
}

fn show_other(rt: &HostRuntime, line: &str) -> io::Result<()> {
    println!(rt; "> {line}\nno number from 1 to 512")
}

fn show_line(rt: &HostRuntime, line: &str) -> io::Result<()> {
    let Ok(number) = line.parse::<u32>() else {
        return show_other(rt, line);
    };
    if number < 1 {
        return show_other(rt, line);
    }
    if 512 < number {
        return show_other(rt, line);
    }
    show(rt, number)
}

fn main(rt: HostRuntime) -> io::Result<()> {
    let mut text = String::new(rt.alloc());
    rt.stdin().read_to_string(&mut text)?;
    for line in text.lines() {
        show_line(&rt, line)?;
    }
    Ok(())
}
