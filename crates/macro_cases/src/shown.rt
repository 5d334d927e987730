// What expansion gives, a line for each thing: the number of replacements behind `=`; a token (its kind, `_` after
// white space, where it is spelt, its site and its spelling); a fault behind `!`; a token that `#` spelled behind `#`;
// an occurrence of a macro's name behind `@`; behind `?` the site whose line isn't known; and behind `~` the site of the
// first token that is left out.
use macro_expand::Within;
use macro_table::{Defined, MacroDef};
use std::alloc::{AllocError, Global};
use tok_data::{MacroOcc, MacroRole, OutToken, PpFault, PpKind, Spelt, TokId};

fn kind_name(kind: PpKind) -> &'static str {
    match kind {
        PpKind::Ident => "Ident",
        PpKind::Number => "Number",
        PpKind::Char => "Char",
        PpKind::Str => "Str",
        PpKind::Header => "Header",
        PpKind::Punct => "Punct",
        PpKind::Stray => "Stray",
    }
}

fn role_name(role: MacroRole) -> &'static str {
    match role {
        MacroRole::Defines => "Defines",
        MacroRole::Undefines => "Undefines",
        MacroRole::Tests => "Tests",
        MacroRole::Uses => "Uses",
    }
}

fn shown_tok(alloc: Global, tok: &TokId) -> Result<String, AllocError> {
    let file = tok.file.as_str();
    let at = tok.at;
    format!(in alloc; "{file}:{at}")
}

fn shown_spelt(alloc: Global, spelt: &Spelt) -> Result<String, AllocError> {
    match spelt {
        Spelt::At(tok) => shown_tok(alloc, tok),
        Spelt::Made => String::from_str(alloc, "-"),
    }
}

fn shown_option(alloc: Global, def: &Option<TokId>) -> Result<String, AllocError> {
    match def {
        Some(tok) => shown_tok(alloc, tok),
        None => String::from_str(alloc, "-"),
    }
}

fn shown_token(alloc: Global, token: &OutToken) -> Result<String, AllocError> {
    let spelt = shown_spelt(alloc, &token.spelt)?;
    let site = shown_tok(alloc, &token.site)?;
    let kind = kind_name(token.kind);
    let space = if token.space_before { "_" } else { "." };
    let spelling = token.spelling.as_str();
    format!(in alloc; "{kind} {space} {spelt} {site} {spelling}\n")
}

fn shown_fault(alloc: Global, fault: &PpFault) -> Result<String, AllocError> {
    let tok = shown_tok(alloc, &fault.tok)?;
    let rule = fault.rule;
    let text = fault.text.as_str();
    format!(in alloc; "! {rule} {tok} {text}\n")
}

fn shown_occ(alloc: Global, occ: &MacroOcc) -> Result<String, AllocError> {
    let tok = shown_tok(alloc, &occ.tok)?;
    let def = shown_option(alloc, &occ.def)?;
    let name = occ.name.as_str();
    let role = role_name(occ.role);
    let made = if occ.made { "1" } else { "0" };
    format!(in alloc; "@ {tok} {name} {role} {def} {made}\n")
}

// A token behind its mark.
fn shown_mark(alloc: Global, mark: &str, tok: &TokId) -> Result<String, AllocError> {
    let tok = shown_tok(alloc, tok)?;
    format!(in alloc; "{mark} {tok}\n")
}

fn push_tokens(alloc: Global, out: &mut String, tokens: &[OutToken]) -> Result<(), AllocError> {
    for token in tokens {
        out.push_str(shown_token(alloc, token)?.as_str())?;
    }
    Ok(())
}

fn push_faults(alloc: Global, out: &mut String, faults: &[PpFault]) -> Result<(), AllocError> {
    for fault in faults {
        out.push_str(shown_fault(alloc, fault)?.as_str())?;
    }
    Ok(())
}

fn push_spelled(alloc: Global, out: &mut String, spelled: &[TokId]) -> Result<(), AllocError> {
    for tok in spelled {
        out.push_str(shown_mark(alloc, "#", tok)?.as_str())?;
    }
    Ok(())
}

fn push_macros(alloc: Global, out: &mut String, macros: &[MacroOcc]) -> Result<(), AllocError> {
    for occ in macros {
        out.push_str(shown_occ(alloc, occ)?.as_str())?;
    }
    Ok(())
}

fn push_mark(
    alloc: Global,
    out: &mut String,
    mark: &str,
    tok: &Option<TokId>,
) -> Result<(), AllocError> {
    match tok {
        Some(tok) => {
            let text = shown_mark(alloc, mark, tok)?;
            out.push_str(text.as_str())
        }
        None => Ok(()),
    }
}

fn push_expanded(alloc: Global, out: &mut String, within: &Within) -> Result<(), AllocError> {
    let expanded = &within.expanded;
    push_tokens(alloc, out, expanded.tokens.as_slice())?;
    push_faults(alloc, out, expanded.faults.as_slice())?;
    push_spelled(alloc, out, expanded.spelled.as_slice())?;
    push_macros(alloc, out, expanded.macros.as_slice())?;
    push_mark(alloc, out, "?", &expanded.asked)?;
    push_mark(alloc, out, "~", &within.left_out)
}

/// The lines of an expansion.
pub fn shown(alloc: Global, within: &Within) -> Result<String, AllocError> {
    let used = within.expanded.used;
    let mut out = format!(in alloc; "= {used}\n")?;
    push_expanded(alloc, &mut out, within)?;
    Ok(out)
}

/// The line of what a definition answers.
pub fn shown_answer(alloc: Global, answer: &Option<Defined>) -> Result<String, AllocError> {
    match answer {
        Some(Defined::Fresh) => String::from_str(alloc, "fresh\n"),
        Some(Defined::Same) => String::from_str(alloc, "same\n"),
        Some(Defined::Clash(tok)) => shown_mark(alloc, "clash", tok),
        None => String::from_str(alloc, "no name\n"),
    }
}

/// The line of a definition: its name's token, the number of its parameters, and of the tokens of its replacement list.
pub fn shown_def(alloc: Global, def: &MacroDef) -> Result<String, AllocError> {
    let params = match &def.params {
        Some(params) => params.as_slice().len(),
        None => 0,
    };
    let tokens = def.body.as_slice().len();
    let tok = shown_tok(alloc, &def.tok)?;
    format!(in alloc; "{tok} {params} {tokens}\n")
}
