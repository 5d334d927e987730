// What a condition gives: its truth and the number of replacements, and behind `@` each occurrence of a macro's name.
// Where it asks for a line there are neither.
use pp_cond::{Cond, Truth};
use std::alloc::{AllocError, Global};
use tok_data::{MacroOcc, MacroRole, TokId};

fn role_name(role: MacroRole) -> &'static str {
    match role {
        MacroRole::Defines => "Defines",
        MacroRole::Undefines => "Undefines",
        MacroRole::Tests => "Tests",
        MacroRole::Uses => "Uses",
    }
}

fn shown_tok(alloc: Global, tok: &TokId) -> Result<String, AllocError> {
    let file = tok.file.as_str();
    let at = tok.at;
    format!(in alloc; "{file}:{at}")
}

fn shown_def(alloc: Global, def: &Option<TokId>) -> Result<String, AllocError> {
    match def {
        Some(tok) => shown_tok(alloc, tok),
        None => String::from_str(alloc, "-"),
    }
}

fn shown_occ(alloc: Global, occ: &MacroOcc) -> Result<String, AllocError> {
    let tok = shown_tok(alloc, &occ.tok)?;
    let name = occ.name.as_str();
    let role = role_name(occ.role);
    let def = shown_def(alloc, &occ.def)?;
    let made = if occ.made { "1" } else { "0" };
    format!(in alloc; "@ {tok} {name} {role} {def} {made}\n")
}

/// The line of the truth.
pub fn push_truth(alloc: Global, out: &mut String, cond: &Cond) -> Result<(), AllocError> {
    let used = cond.used;
    let line = match &cond.truth {
        Truth::Yes => format!(in alloc; "Yes {used}\n")?,
        Truth::No => format!(in alloc; "No {used}\n")?,
        Truth::Bad => format!(in alloc; "Bad {used}\n")?,
        Truth::Asks(site) => {
            let site = shown_tok(alloc, site)?;
            format!(in alloc; "Asks {site}\n")?
        }
    };
    out.push_str(line.as_str())
}

/// The lines of a condition.
pub fn shown(alloc: Global, cond: &Cond) -> Result<String, AllocError> {
    let mut out = String::new(alloc);
    push_truth(alloc, &mut out, cond)?;
    for occ in cond.macros.as_slice() {
        out.push_str(shown_occ(alloc, occ)?.as_str())?;
    }
    Ok(out)
}
