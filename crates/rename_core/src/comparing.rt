// Occurrences and kinds before and after an edit, compared.
ghost use Rattle.std.specs.Prelude.{◌≡◌, Some, option_map, IfOk};
ghost use Rattle.std.specs.List.{find};
ghost use Rattle.rename_core.specs.Clashes as spec;
ghost use Rattle.rename_core.specs.Kept.{at, is_text, other_at, other_kinds_at};
ghost use Rattle.scope_tables.specs.Occurrences as occurs;
ghost use Rattle.rename_core.specs.Occurrences.{first_some};

use crate::class::Plan;
use crate::lookups::{kinds_at, occs_at};
use crate::views::UnitView;
use scope_tables::{Anchor, Occ};
use shared_text::Name;
use std::alloc::AllocError;
use std::collections::HashMap;
use tok_data::{FileId, PpKind, TokId};
use uri_paths::Path;

/// Whether an anchor is this name with external linkage.
fn names(name: &Name, anchor: &Anchor) -> bool
    ensures { result ≡ spec.names name.now anchor.now }
{
    match anchor {
        Anchor::External(other) => *other == *name,
        Anchor::Local(_) => false,
        Anchor::Made(_, _) => false,
        Anchor::Macro(_) => false,
    }
}

fn named_in(name: &Name, occs: &[Occ]) -> Result<Option<TokId>, AllocError>
    ensures { IfOk result (λ t. t ≡ option_map (λ o. o.tok) (find (spec.is_named name.now) occs.now)) }
{
    let mut rest = occs;
    'occs: while let Some((occ, behind)) = rest.split_first() {
        if names(name, &occ.anchor) {
            let tok = occ.tok.copy()?;
            return Ok(Some(tok));
        }
        rest = behind;
    }
    Ok(None)
}

/// The first token, unit by unit, that denotes what has this name with external linkage.
pub(crate) fn first_named(name: &Name, views: &[UnitView<'_>]) -> Result<Option<TokId>, AllocError>
    ensures { IfOk result (λ o. o ≡ first_some (spec.named_in name.now) views.now) }
{
    let mut place = 0;
    'views: loop {
        let Some(view) = views.get(place) else {
            return Ok(None);
        };
        let found = named_in(name, view.occs())?;
        if let Some(tok) = found {
            return Ok(Some(tok));
        }
        place += 1;
    }
}

fn same_kinds(before: Option<&[PpKind]>, after: Option<&[PpKind]>) -> bool
    ensures { result ≡ spec.same_kinds (option_map (λ k. k.now) before.entry) (option_map (λ k. k.now) after.entry) }
{
    match before {
        None => match after {
            None => true,
            Some(_) => false,
        },
        Some(kinds) => match after {
            None => false,
            Some(others) => *kinds == *others,
        },
    }
}

fn is_text(known: Option<&FileId>, file: &FileId) -> bool
    ensures { result ≡ is_text (option_map (λ f. f.now) known.entry) file.now }
{
    match known {
        None => false,
        Some(known) => *known == *file,
    }
}

fn is_same_in(
    before: &HashMap<FileId, &[PpKind]>,
    after: &HashMap<FileId, &[PpKind]>,
    file: &FileId,
) -> bool
    ensures { result ≡ spec.same_kinds (at before.now file.now) (at after.now file.now) }
{
    same_kinds(kinds_at(before, file), kinds_at(after, file))
}

/// The first token in a text with other kinds of tokens than before. Tokens of one text stand side by side, and its kinds are
/// compared once.
pub(crate) fn first_in_other(
    before: &HashMap<FileId, &[PpKind]>,
    after: &HashMap<FileId, &[PpKind]>,
    toks: &[TokId],
) -> Result<Option<TokId>, AllocError>
    ensures { IfOk result (λ o. o ≡ find (other_kinds_at (at before.now) (at after.now)) toks.now) }
{
    let mut rest = toks;
    let mut known: Option<&FileId> = None;
    'toks: while let Some((tok, behind)) = rest.split_first() {
        rest = behind;
        if is_text(known, &tok.file) {
            continue;
        }
        if is_same_in(before, after, &tok.file) {
            known = Some(&tok.file);
            continue;
        }
        let tok = tok.copy()?;
        return Ok(Some(tok));
    }
    Ok(None)
}

fn same_anchor(before: &Anchor, after: &Anchor) -> bool
    ensures { result ≡ occurs.same_anchor before.now after.now }
{
    *before == *after
}

/// Whether one anchor became the other, where a name became another one.
fn became_named(old: &Name, new: &Name, before: &Anchor, after: &Anchor) -> bool
    ensures { result ≡ occurs.same_anchor (spec.renamed (Some old.now) new.now before.now) after.now }
{
    if names(old, before) {
        return names(new, after);
    }
    same_anchor(before, after)
}

/// Whether one anchor became the other.
fn became(plan: &Plan, before: &Anchor, after: &Anchor) -> bool
    ensures { result ≡ occurs.same_anchor (spec.renamed plan.now.class.external plan.now.new_name before.now) after.now }
{
    match &plan.class.external {
        Some(old) => became_named(old, &plan.new_name, before, after),
        None => same_anchor(before, after),
    }
}

fn same_occ(plan: &Plan, before: &Occ, after: &Occ) -> bool
    ensures { result ≡ spec.same_occ (spec.moved plan.now before.now) after.now }
{
    before.tok == after.tok
        && (before.role == after.role && became(plan, &before.anchor, &after.anchor))
}

fn first_tok(occs: &[Occ]) -> Result<Option<TokId>, AllocError>
    ensures { IfOk result (λ o. o ≡ spec.first_tok occs.now) }
{
    match occs.split_first() {
        Some((occ, _)) => {
            let tok = occ.tok.copy()?;
            Ok(Some(tok))
        }
        None => Ok(None),
    }
}

/// The first token of which an occurrence differs in a unit.
fn first_other(plan: &Plan, before: &[Occ], after: &[Occ]) -> Result<Option<TokId>, AllocError>
    ensures { IfOk result (λ o. o ≡ spec.first_other plan.now before.now after.now) }
{
    let mut rest = before;
    let mut others = after;
    'occs: loop {
        let Some((occ, behind)) = rest.split_first() else {
            let tok = first_tok(others)?;
            return Ok(tok);
        };
        let Some((next, later)) = others.split_first() else {
            let tok = occ.tok.copy()?;
            return Ok(Some(tok));
        };
        if !same_occ(plan, occ, next) {
            let tok = occ.tok.copy()?;
            return Ok(Some(tok));
        }
        rest = behind;
        others = later;
    }
}

fn other_at(
    plan: &Plan,
    after: &HashMap<Path, &[Occ]>,
    view: &UnitView<'_>,
) -> Result<Option<TokId>, AllocError>
    ensures { IfOk result (λ o. o ≡ other_at plan.now (at after.now) view.now) }
{
    match occs_at(after, view.unit()) {
        Some(occs) => {
            let tok = first_other(plan, view.occs(), occs)?;
            Ok(tok)
        }
        None => Ok(None),
    }
}

/// The first token of which an occurrence differs, unit by unit.
pub(crate) fn first_since(
    plan: &Plan,
    before: &[UnitView<'_>],
    after: &HashMap<Path, &[Occ]>,
) -> Result<Option<TokId>, AllocError>
    ensures { IfOk result (λ o. o ≡ first_some (other_at plan.now (at after.now)) before.now) }
{
    let mut place = 0;
    'views: loop {
        let Some(view) = before.get(place) else {
            return Ok(None);
        };
        let found = other_at(plan, after, view)?;
        if let Some(tok) = found {
            return Ok(Some(tok));
        }
        place += 1;
    }
}
