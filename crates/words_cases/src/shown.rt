// What comes of a case, printed.
use percent_encoding::{NON_ALPHANUMERIC, utf8_percent_encode};
use project_conf::{Define, Options, WordError, words};
use std::alloc::{AllocError, Global};
use std::io;

const LONG: usize = 100;

fn escaped(alloc: Global, text: &str) -> Result<String, AllocError> {
    if text.len() > LONG {
        let length = text.len();
        return format!(in alloc; "{length} bytes");
    }
    let mut out = String::new(alloc);
    utf8_percent_encode(text, NON_ALPHANUMERIC).append_to(&mut out)?;
    Ok(out)
}

fn show_define(rt: &HostRuntime, define: &Define) -> io::Result<()> {
    match define {
        Define::Set(name, text) => {
            let name = escaped(rt.alloc(), name.as_str())?;
            let text = escaped(rt.alloc(), text.as_str())?;
            println!(rt; "set {name} {text}")
        }
        Define::Unset(name) => {
            let name = escaped(rt.alloc(), name.as_str())?;
            println!(rt; "unset {name}")
        }
    }
}

fn show_options(rt: &HostRuntime, options: &Options) -> io::Result<()> {
    for folder in options.includes.as_slice() {
        let folder = escaped(rt.alloc(), folder.as_str())?;
        println!(rt; "include {folder}")?;
    }
    for define in options.defines.as_slice() {
        show_define(rt, define)?;
    }
    match options.generate {
        Some(number) => println!(rt; "generate {number}"),
        None => Ok(()),
    }
}

/// What some words say.
pub fn show(rt: &HostRuntime, given: &[String]) -> io::Result<()> {
    match words(rt.alloc(), given) {
        Ok(options) => show_options(rt, &options),
        Err(WordError::Usage) => println!(rt; "Usage"),
        Err(WordError::NoMemory) => println!(rt; "no memory"),
    }
}
