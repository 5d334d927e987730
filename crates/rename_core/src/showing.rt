// What the tokens of a class show of it.
ghost use Rattle.std.specs.Prelude.{◌≡◌, option_map, IfOk};
ghost use Rattle.std.specs.List.{find};
ghost use Rattle.rename_core.specs.Found as spec;
ghost use Rattle.rename_core.specs.Ties.Lists.{listed};
ghost use Rattle.scope_tables.specs.Occurrences.{same_tok};
ghost use Rattle.rename_core.specs.Occurrences.{first_some};
ghost use Rattle.rename_core.specs.Showing;

use crate::class::TwoMeanings;
use crate::grown::Grown;
use crate::lists::list_of;
use crate::marks::has_token;
use crate::mentions::Told;
use scope_tables::Anchor;
use shared_text::Name;
use std::alloc::AllocError;
use std::collections::{HashMap, HashSet};
use tok_data::{FileId, TokId};

/// Whether a text is one of the library's.
fn is_library(file: &FileId) -> bool
    ensures { result ≡ Showing.is_library file.now }
{
    match file.as_str().as_bytes().split_first() {
        Some((first, _)) => *first == b'<',
        None => false,
    }
}

/// The first token in a library text.
#[tactic(auto, unfolding(crate::specs::Showing::library))]
pub(crate) fn library(toks: &[TokId]) -> Result<Option<TokId>, AllocError>
    ensures { IfOk result (λ o. o ≡ Showing.library toks.now) }
{
    let mut rest = toks;
    'toks: while let Some((tok, behind)) = rest.split_first() {
        if is_library(&tok.file) {
            let tok = tok.copy()?;
            return Ok(Some(tok));
        }
        rest = behind;
    }
    Ok(None)
}

/// The first token that the set has.
pub(crate) fn first_in(set: &HashSet<TokId>, toks: &[TokId]) -> Result<Option<TokId>, AllocError>
    ensures { IfOk result (λ o. o ≡ find (spec.has_tok set.now) toks.now) }
{
    let mut rest = toks;
    'toks: while let Some((tok, behind)) = rest.split_first() {
        if has_token(set, tok) {
            let tok = tok.copy()?;
            return Ok(Some(tok));
        }
        rest = behind;
    }
    Ok(None)
}

/// Two anchors in one unit.
fn two_told(told: &[Told]) -> Option<(&Anchor, &Anchor)>
    ensures { option_map (λ p. (p.0.now, p.1.now)) result ≡ spec.two_told told.now }
{
    let Some((one, behind)) = told.split_first() else {
        return None;
    };
    let mut first = one;
    let mut rest = behind;
    'told: while let Some((next, others)) = rest.split_first() {
        rest = others;
        if next.unit != first.unit {
            first = next;
            continue;
        }
        if first.anchor == next.anchor {
            continue;
        }
        return Some((&first.anchor, &next.anchor));
    }
    None
}

fn meanings(tok: &TokId, told: &[Told]) -> Result<Option<TwoMeanings>, AllocError>
    ensures { IfOk result (λ o. o ≡ spec.meanings_told tok.now told.now) }
{
    match two_told(told) {
        Some((first, second)) => {
            let tok = tok.copy()?;
            let first = first.share()?;
            let second = second.share()?;
            Ok(Some(TwoMeanings { tok, first, second }))
        }
        None => Ok(None),
    }
}

/// The first token with two anchors in one unit.
pub(crate) fn two(
    told: &HashMap<TokId, Grown<Told>>,
    toks: &[TokId],
) -> Result<Option<TwoMeanings>, AllocError>
    ensures { IfOk result (λ o. o ≡ first_some (λ t. spec.meanings_told t (listed same_tok told.now t)) toks.now) }
{
    let mut rest = toks;
    'toks: while let Some((tok, behind)) = rest.split_first() {
        let found = meanings(tok, list_of(told, tok))?;
        if found.is_some() {
            return Ok(found);
        }
        rest = behind;
    }
    Ok(None)
}

/// The first name with external linkage.
fn name_told(told: &[Told]) -> Option<&Name>
    ensures { option_map (λ name. name.now) result ≡ spec.name_told told.now }
{
    let mut rest = told;
    'told: while let Some((one, behind)) = rest.split_first() {
        if let Anchor::External(name) = &one.anchor {
            return Some(name);
        }
        rest = behind;
    }
    None
}

/// The name with external linkage of the first token that has one.
pub(crate) fn external(
    told: &HashMap<TokId, Grown<Told>>,
    toks: &[TokId],
) -> Result<Option<Name>, AllocError>
    ensures { IfOk result (λ o. o ≡ first_some (λ t. spec.name_told (listed same_tok told.now t)) toks.now) }
{
    let mut rest = toks;
    'toks: while let Some((tok, behind)) = rest.split_first() {
        if let Some(name) = name_told(list_of(told, tok)) {
            let name = name.share()?;
            return Ok(Some(name));
        }
        rest = behind;
    }
    Ok(None)
}
