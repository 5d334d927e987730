// The occurrences of macros' names in a condition.
ghost use Rattle.std.specs.Prelude.{◌≡◌, ◌++◌, option_map, option_to_list, IfOk};
ghost use Rattle.std.specs.FinMap as map;
ghost use Rattle.pp_cond.specs.Defined as spec;

use crate::defined::{definition, is_ident, read};
use macro_table::MacroTable;
use std::alloc::{AllocError, Global};
use tok_data::{MacroOcc, MacroRole, OutToken, Spelt, TokId};

fn is_made(spelt: &Spelt) -> bool
    ensures { result ≡ spec.is_made spelt.now }
{
    match spelt {
        Spelt::At(_) => false,
        Spelt::Made => true,
    }
}

fn place(token: &OutToken) -> Result<TokId, AllocError>
    ensures { IfOk result (λ tok. tok ≡ spec.place_by token.now.site token.now.spelt) }
{
    match &token.spelt {
        Spelt::At(tok) => tok.copy(),
        Spelt::Made => token.site.copy(),
    }
}

fn occurrence(table: &MacroTable, role: MacroRole, token: &OutToken) -> Result<MacroOcc, AllocError>
    ensures { IfOk result (λ occ. occ ≡ spec.occurrence (map.get table.now) role token.now) }
{
    let tok = place(token)?;
    let name = token.spelling.share()?;
    let def = definition(table, token.spelling.as_str())?;
    Ok(MacroOcc {
        tok,
        name,
        role,
        def,
        made: is_made(&token.spelt),
    })
}

fn is_left(token: &OutToken) -> bool
    ensures { result ≡ spec.is_left token.now }
{
    is_ident(token.kind) && token.spelling.as_str() != "defined"
}

fn occurrence_of(
    table: &MacroTable,
    left: bool,
    token: &OutToken,
    operand: Option<&OutToken>,
) -> Result<Option<MacroOcc>, AllocError>
    ensures { IfOk result (λ occ. option_to_list occ ≡ spec.occurrences_of (map.get table.now) left (spec.piece token.now (option_map (λ u. u.now) operand.entry))) }
{
    if let Some(name) = operand {
        let occ = occurrence(table, MacroRole::Tests, name)?;
        return Ok(Some(occ));
    }
    if left && is_left(token) {
        let occ = occurrence(table, MacroRole::Uses, token)?;
        return Ok(Some(occ));
    }
    Ok(None)
}

// Where names stand in a list: the operands of `defined`, and where `left` says so the identifiers that are left.
pub(crate) fn occurrences(
    alloc: Global,
    table: &MacroTable,
    left: bool,
    tokens: &[OutToken],
) -> Result<Vec<MacroOcc>, AllocError>
    ensures { IfOk result (λ v. v.items ≡ spec.occurrences (map.get table.now) left tokens.now) }
{
    let mut out = Vec::new(alloc);
    let mut rest = tokens;
    while let Some((token, behind)) = rest.split_first() {
        let (operand, after) = read(token, behind);
        rest = after;
        let Some(occ) = occurrence_of(table, left, token, operand)? else {
            continue;
        };
        out.push(occ)?;
    }
    Ok(out)
}
