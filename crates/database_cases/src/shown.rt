// What comes of a case, printed.
use crate::cases::{Case, decoded};
use percent_encoding::{NON_ALPHANUMERIC, utf8_percent_encode};
use project_conf::{
    Conf, ConfError, Define, Entries, UnitConf, UnitConfs, commands, is_unit, with_entry,
};
use std::alloc::{AllocError, Global};
use std::io;
use uri_paths::Path;

// A longer text is no database.
const MOST_BYTES: usize = 4_194_304;

fn show_define(rt: &HostRuntime, define: &Define) -> io::Result<()> {
    match define {
        Define::Set(name, text) => {
            let mut escaped = String::new(rt.alloc());
            utf8_percent_encode(text.as_str(), NON_ALPHANUMERIC).append_to(&mut escaped)?;
            let name = name.as_str();
            let text = escaped.as_str();
            println!(rt; "set {name} {text}")
        }
        Define::Unset(name) => {
            let name = name.as_str();
            println!(rt; "unset {name}")
        }
    }
}

fn show_unit(rt: &HostRuntime, unit: &UnitConf) -> io::Result<()> {
    let file = unit.file.as_str();
    println!(rt; "unit {file}")?;
    for folder in unit.includes.as_slice() {
        let folder = folder.as_str();
        println!(rt; "include {folder}")?;
    }
    for define in unit.defines.as_slice() {
        show_define(rt, define)?;
    }
    Ok(())
}

fn show_all(rt: &HostRuntime, units: &[UnitConf]) -> io::Result<()> {
    for unit in units {
        show_unit(rt, unit)?;
    }
    Ok(())
}

fn read(alloc: Global, case: &Case, text: &str) -> Result<UnitConfs, ConfError> {
    if text.len() > MOST_BYTES {
        return Err(ConfError::NotJson);
    }
    match &case.root {
        Some(root) => commands(alloc, text, root),
        None => Err(ConfError::NotJson),
    }
}

fn show_error(rt: &HostRuntime, error: ConfError) -> io::Result<()> {
    let name = error.name();
    match error {
        ConfError::Entry(number) => println!(rt; "{name} {number}"),
        _ => println!(rt; "{name}"),
    }
}

/// The entries of a database.
pub fn commands_shown(rt: &HostRuntime, case: &Case, text: &str) -> io::Result<()> {
    let text = decoded(rt.alloc(), text)?;
    match read(rt.alloc(), case, text.as_str()) {
        Ok(units) => show_all(rt, units.as_slice()),
        Err(error) => show_error(rt, error),
    }
}

fn repeated(alloc: Global, number: u32, entry: &str) -> Result<String, AllocError> {
    let mut text = String::from_str(alloc, "[")?;
    for i in 0..number {
        if i > 0 {
            text.push(',')?;
        }
        text.push_str(entry)?;
    }
    text.push(']')?;
    Ok(text)
}

/// How many units a database has that has one entry many times.
pub fn many_shown(rt: &HostRuntime, case: &Case, line: &str) -> io::Result<()> {
    let Some((number, entry)) = line.split_once(' ') else {
        return Ok(());
    };
    let entry = decoded(rt.alloc(), entry)?;
    let number = number.parse::<u32>().unwrap_or(0);
    let text = repeated(rt.alloc(), number, entry.as_str())?;
    match read(rt.alloc(), case, text.as_str()) {
        Ok(units) => {
            let number = units.as_slice().len();
            println!(rt; "{number} units")
        }
        Err(error) => show_error(rt, error),
    }
}

fn show_text(
    rt: &HostRuntime,
    conf: &Conf,
    entries: Option<&Entries<'_>>,
    text: &(Path, bool),
) -> io::Result<()> {
    if !is_unit(entries, text.1, &text.0) {
        return Ok(());
    }
    let entry = match entries {
        Some(entries) => entries.get(&text.0),
        None => None,
    };
    let unit = with_entry(rt.alloc(), conf, &text.0, entry)?;
    show_unit(rt, &unit)
}

fn show_texts(
    rt: &HostRuntime,
    case: &Case,
    conf: &Conf,
    entries: Option<&Entries<'_>>,
) -> io::Result<()> {
    for text in case.texts.as_slice() {
        show_text(rt, conf, entries, text)?;
    }
    Ok(())
}

fn show_units(rt: &HostRuntime, case: &Case, database: Option<UnitConfs>) -> io::Result<()> {
    let conf = case.conf(rt.alloc(), database)?;
    match &conf.database {
        Some(units) => {
            let entries = Entries::of(rt.alloc(), units.as_slice())?;
            show_texts(rt, case, &conf, Some(&entries))
        }
        None => show_texts(rt, case, &conf, None),
    }
}

/// The units of a case, and why its database is none.
pub fn units_shown(rt: &HostRuntime, case: &Case, text: &str) -> io::Result<()> {
    if text.is_empty() {
        return show_units(rt, case, None);
    }
    let text = decoded(rt.alloc(), text.trim_start())?;
    match read(rt.alloc(), case, text.as_str()) {
        Ok(units) => show_units(rt, case, Some(units)),
        Err(error) => {
            let name = error.name();
            println!(rt; "log {name}")?;
            show_units(rt, case, None)
        }
    }
}
