// The operator `defined` (ISO C11 6.10.1p1, p4).
ghost use Rattle.std.specs.Prelude.{◌≡◌, ◌≤◌, ◌+◌, length, drop, codes, option_map, IfSome, IfOk};
ghost use Rattle.std.specs.List.{list_any};
ghost use Rattle.std.specs.FinMap as map;
ghost use Rattle.pp_cond.specs.Defined as spec;

use macro_table::MacroTable;
use shared_text::Name;
use std::alloc::{AllocError, Global};
use tok_data::{OutToken, PpKind, Spelt, TokId};

pub(crate) fn is_ident(kind: PpKind) -> bool
    ensures { result ≡ spec.is_ident kind }
{
    match kind {
        PpKind::Ident => true,
        _ => false,
    }
}

fn is_punct(kind: PpKind) -> bool
    ensures { result ≡ spec.is_punct kind }
{
    match kind {
        PpKind::Punct => true,
        _ => false,
    }
}

fn is_word(text: &str, token: &OutToken) -> bool
    ensures { result ≡ spec.is_word text.now token.now }
{
    is_ident(token.kind) && token.spelling.as_str() == text
}

#[tactic(auto, unfolding(macro_expand::specs::Tokens::is_mark))]
fn is_mark(text: &str, token: &OutToken) -> bool
    ensures { result ≡ spec.is_mark text.now token.now }
{
    is_punct(token.kind) && token.spelling.as_str() == text
}

fn closes(tokens: &[OutToken]) -> bool
    ensures { result ≡ spec.closes tokens.now }
{
    match tokens.split_first() {
        Some((token, _)) => is_mark(")", token),
        None => false,
    }
}

// `identifier )`: the identifier, and how many tokens these are with the parenthesis before them.
fn in_parens(tokens: &[OutToken]) -> Option<(&OutToken, usize)>
    ensures value { option_map (λ p. (p.0.now, p.1)) result ≡ spec.in_parens tokens.now }
    ensures within { IfSome result (λ p. p.1 ≤ length tokens.now + 1) }
{
    let Some((token, behind)) = tokens.split_first() else {
        return None;
    };
    if is_ident(token.kind) && closes(behind) {
        return Some((token, 3));
    }
    None
}

// `identifier` or `( identifier )`: the identifier, and how many tokens these are.
fn operand(tokens: &[OutToken]) -> Option<(&OutToken, usize)>
    ensures value { option_map (λ p. (p.0.now, p.1)) result ≡ spec.operand tokens.now }
    ensures within { IfSome result (λ p. p.1 ≤ length tokens.now) }
{
    let Some((token, behind)) = tokens.split_first() else {
        return None;
    };
    if is_ident(token.kind) {
        return Some((token, 1));
    }
    if is_mark("(", token) {
        return in_parens(behind);
    }
    None
}

// What `defined` tests, where the token is that.
fn tested<'a>(token: &OutToken, behind: &'a [OutToken]) -> Option<(&'a OutToken, usize)>
    ensures value { option_map (λ p. (p.0.now, p.1)) result ≡ spec.tested token.now behind.now }
    ensures within { IfSome result (λ p. p.1 ≤ length behind.now) }
{
    if is_word("defined", token) {
        return operand(behind);
    }
    None
}

// The operand that `defined` has here, and what is left behind the piece that the token begins.
pub(crate) fn read<'a>(
    token: &OutToken,
    behind: &'a [OutToken],
) -> (Option<&'a OutToken>, &'a [OutToken])
    ensures operand { option_map (λ t. t.now) result.0 ≡ spec.name_in (spec.tested token.now behind.now) }
    ensures behind { result.1.now ≡ drop (spec.width (spec.tested token.now behind.now)) behind.now }
    ensures shorter { length result.1.now ≤ length behind.now }
{
    match tested(token, behind) {
        Some((operand, width)) => (Some(operand), behind.split_at(width).1),
        None => (None, behind),
    }
}

fn is_predefined(name: &str) -> bool
    ensures { result ≡ spec.is_predefined name.now }
{
    name == "__LINE__" || name == "__FILE__"
}

pub(crate) fn is_defined(table: &MacroTable, name: &str) -> bool
    ensures { result ≡ spec.is_defined (map.get table.now) name.now }
{
    is_predefined(name) || table.get(name).is_some()
}

// The name's token in the definition that is in force.
pub(crate) fn definition(table: &MacroTable, name: &str) -> Result<Option<TokId>, AllocError>
    ensures { IfOk result (λ def. def ≡ spec.definition (map.get table.now) name.now) }
{
    if is_predefined(name) {
        return Ok(None);
    }
    match table.get(name) {
        Some(def) => {
            let tok = def.tok.copy()?;
            Ok(Some(tok))
        }
        None => Ok(None),
    }
}

// What `defined` becomes before the expansion.
fn answer(alloc: Global, token: &OutToken, holds: bool) -> Result<OutToken, AllocError>
    ensures { IfOk result (λ t. t ≡ spec.answer token.now holds) }
{
    let spelling = Name::from_str(alloc, if holds { "1" } else { "0" })?;
    let site = token.site.copy()?;
    Ok(OutToken {
        kind: PpKind::Number,
        spelling,
        space_before: token.space_before,
        spelt: Spelt::Made,
        site,
    })
}

fn written(
    alloc: Global,
    table: &MacroTable,
    token: &OutToken,
    operand: Option<&OutToken>,
) -> Result<OutToken, AllocError>
    ensures { IfOk result (λ t. t ≡ spec.written (map.get table.now) (spec.piece token.now (option_map (λ u. u.now) operand.entry))) }
{
    match operand {
        Some(name) => answer(alloc, token, is_defined(table, name.spelling.as_str())),
        None => token.copy(),
    }
}

pub(crate) fn mentions_defined(tokens: &[OutToken]) -> bool
    ensures { result ≡ list_any (spec.is_word (codes "defined")) tokens.now }
{
    tokens.iter().any(|token| is_word("defined", token))
}

// The tokens of a condition as they are expanded: `defined` with its operand is 1 or 0.
pub(crate) fn prepared(
    alloc: Global,
    table: &MacroTable,
    tokens: &[OutToken],
) -> Result<Vec<OutToken>, AllocError>
    ensures { IfOk result (λ v. v.items ≡ spec.prepared (map.get table.now) tokens.now) }
{
    let mut out = Vec::new(alloc);
    let mut rest = tokens;
    while let Some((token, behind)) = rest.split_first() {
        let (operand, after) = read(token, behind);
        rest = after;
        let written = written(alloc, table, token, operand)?;
        out.push(written)?;
    }
    Ok(out)
}
