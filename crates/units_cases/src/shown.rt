// A unit's tokens and what was met on the way, line by line.
use include_units::{Entered, UnitTokens};
use std::alloc::{AllocError, Global};
use std::io;
use tok_data::{MacroOcc, MacroRole, OutToken, PpFault, PpKind, Spelt, TokId};

fn kind_name(kind: PpKind) -> &'static str {
    match kind {
        PpKind::Ident => "Ident",
        PpKind::Number => "Number",
        PpKind::Char => "Char",
        PpKind::Str => "Str",
        PpKind::Header => "Header",
        PpKind::Punct => "Punct",
        PpKind::Stray => "Stray",
    }
}

fn role_name(role: MacroRole) -> &'static str {
    match role {
        MacroRole::Defines => "Defines",
        MacroRole::Undefines => "Undefines",
        MacroRole::Tests => "Tests",
        MacroRole::Uses => "Uses",
    }
}

fn flag(holds: bool) -> &'static str {
    if holds { "1" } else { "0" }
}

fn place(alloc: Global, tok: &TokId) -> Result<String, AllocError> {
    let file = tok.file.as_str();
    let at = tok.at;
    format!(in alloc; "{file}:{at}")
}

fn spelt_at(alloc: Global, spelt: &Spelt) -> Result<String, AllocError> {
    match spelt {
        Spelt::At(tok) => place(alloc, tok),
        Spelt::Made => String::from_str(alloc, "-"),
    }
}

fn definition(alloc: Global, def: &Option<TokId>) -> Result<String, AllocError> {
    match def {
        Some(tok) => place(alloc, tok),
        None => String::from_str(alloc, "-"),
    }
}

fn show_token(rt: &HostRuntime, token: &OutToken) -> io::Result<()> {
    let alloc = rt.alloc();
    let kind = kind_name(token.kind);
    let space = flag(token.space_before);
    let spelt = spelt_at(alloc, &token.spelt)?;
    let site = place(alloc, &token.site)?;
    let spelling = token.spelling.as_str();
    println!(rt; "T {kind} {space} {spelt} {site} {spelling}")
}

fn show_tokens(rt: &HostRuntime, tokens: &[OutToken]) -> io::Result<()> {
    for token in tokens {
        show_token(rt, token)?;
    }
    Ok(())
}

fn show_spellings(rt: &HostRuntime, tokens: &[OutToken]) -> io::Result<()> {
    print!(rt; "P")?;
    for token in tokens {
        let spelling = token.spelling.as_str();
        print!(rt; " {spelling}")?;
    }
    println!(rt; "")
}

fn show_number(rt: &HostRuntime, tokens: &[OutToken]) -> io::Result<()> {
    let number = tokens.len();
    println!(rt; "N {number}")?;
    if number < 5_000 {
        return show_spellings(rt, tokens);
    }
    Ok(())
}

fn show_faults(rt: &HostRuntime, faults: &[PpFault]) -> io::Result<()> {
    for fault in faults {
        let rule = fault.rule;
        let at = place(rt.alloc(), &fault.tok)?;
        let text = fault.text.as_str();
        println!(rt; "F {rule} {at} {text}")?;
    }
    Ok(())
}

fn show_spelled(rt: &HostRuntime, toks: &[TokId]) -> io::Result<()> {
    for tok in toks {
        let at = place(rt.alloc(), tok)?;
        println!(rt; "S {at}")?;
    }
    Ok(())
}

fn show_entered(rt: &HostRuntime, entered: &[Entered]) -> io::Result<()> {
    for one in entered {
        let file = one.file.as_str();
        let by = place(rt.alloc(), &one.by)?;
        println!(rt; "E {file} {by}")?;
    }
    Ok(())
}

fn show_macro(rt: &HostRuntime, occ: &MacroOcc) -> io::Result<()> {
    let alloc = rt.alloc();
    let at = place(alloc, &occ.tok)?;
    let name = occ.name.as_str();
    let role = role_name(occ.role);
    let def = definition(alloc, &occ.def)?;
    let made = flag(occ.made);
    println!(rt; "M {at} {name} {role} {def} {made}")
}

// The names that the first lines of `<command>` define have occurrences of their own, the first nine.
fn show_macros(rt: &HostRuntime, macros: &[MacroOcc]) -> io::Result<()> {
    if macros.len() > 409 {
        return Ok(());
    }
    let mut number = 0u32;
    for occ in macros {
        if number < 9 {
            number += 1;
            continue;
        }
        show_macro(rt, occ)?;
    }
    Ok(())
}

pub fn show(rt: &HostRuntime, unit: &UnitTokens, brief: bool) -> io::Result<()> {
    if brief {
        show_number(rt, unit.tokens.as_slice())?;
    } else {
        show_tokens(rt, unit.tokens.as_slice())?;
    }
    show_faults(rt, unit.faults.as_slice())?;
    for path in unit.reads.as_slice() {
        let path = path.as_str();
        println!(rt; "R {path}")?;
    }
    show_spelled(rt, unit.spelled.as_slice())?;
    show_entered(rt, unit.entered.as_slice())?;
    show_macros(rt, unit.macros.as_slice())
}
