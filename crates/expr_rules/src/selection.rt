// Generic selections (ISO C11 6.5.1.1).
ghost use Rattle.std.specs.Prelude.{◌≡◌, ◌≢◌, ◌≤◌, Err, option_map, length, IfOk};
ghost use Rattle.std.specs.List.{list_any};
ghost use Rattle.expr_rules.specs.Selection as spec;
ghost use Rattle.type_data.specs.declared.judged.CheckError.TheVariants.{NoMemory};

use crate::answers::{refuse, refuse_type};
use crate::constants::settled;
use crate::parts::Association;
use std::alloc::{AllocError, Global};
use type_data::{CType, CheckError, Judged, Tags};
use type_rel::{UNQUALIFIED, compatible, converted, is_complete};

fn is_proper(tags: &Tags, association: &Association) -> bool
    ensures { result ≡ spec.is_proper tags.now association.now }
{
    match association {
        Association::Typed(ty, _) => is_complete(tags, ty),
        Association::Default => true,
    }
}

fn are_alike(a: &Association, b: &Association) -> bool
    ensures { result ≡ spec.are_alike a.now b.now }
{
    match a {
        Association::Typed(t, q) => match b {
            Association::Typed(u, r) => q == r && compatible(t, u),
            Association::Default => false,
        },
        Association::Default => match b {
            Association::Typed(_, _) => false,
            Association::Default => true,
        },
    }
}

fn is_alike_any(association: &Association, others: &[Association]) -> bool
    ensures { result ≡ list_any (spec.are_alike association.now) others.now }
{
    others.iter().any(|other| are_alike(association, other))
}

// Whether no two of them are alike. Each pair is compared, as the constraint says (p2), at a cost of the square of their number: no
// order brings together what is compatible, since `int (*)[]` is compatible with `int (*)[2]` and `int (*)[3]`, which aren't so.
fn are_apart(associations: &[Association]) -> bool
    ensures { result ≡ spec.are_apart associations.now }
{
    let mut rest = associations;
    while let Some((association, others)) = rest.split_first() {
        if is_alike_any(association, others) {
            return false;
        }
        rest = others;
    }
    true
}

fn are_proper(tags: &Tags, associations: &[Association]) -> bool
    ensures { result ≡ spec.are_proper tags.now associations.now }
{
    associations.iter().all(|a| is_proper(tags, a))
}

fn are_fit(tags: &Tags, associations: &[Association]) -> bool
    ensures { result ≡ spec.are_fit tags.now associations.now }
{
    are_proper(tags, associations) && are_apart(associations)
}

fn is_match(ty: &CType, association: &Association) -> bool
    ensures { result ≡ spec.is_match ty.now association.now }
{
    match association {
        Association::Typed(other, qual) => UNQUALIFIED == *qual && compatible(ty, other),
        Association::Default => false,
    }
}

fn is_default(association: &Association) -> bool
    ensures { result ≡ spec.is_default association.now }
{
    match association {
        Association::Default => true,
        Association::Typed(_, _) => false,
    }
}

fn matches_any(ty: &CType, associations: &[Association]) -> bool
    ensures { result ≡ list_any (spec.is_match ty.now) associations.now }
{
    associations.iter().any(|a| is_match(ty, a))
}

// One type, and no other one, is compatible with that of the controlling expression.
fn matches_one(ty: &CType, associations: &[Association]) -> bool
    ensures { result ≡ spec.matches_one ty.now associations.now }
{
    let mut rest = associations;
    while let Some((association, others)) = rest.split_first() {
        if is_match(ty, association) {
            return !matches_any(ty, others);
        }
        rest = others;
    }
    false
}

fn first_match<'a>(
    ty: &CType,
    associations: &[Association],
    parts: &'a [Judged],
) -> Option<&'a Judged>
    ensures { option_map (λ e. e.now) result ≡ spec.first_of (spec.is_match ty.now) associations.now parts.now }
{
    let mut rest = associations;
    let mut left = parts;
    while let Some((association, others)) = rest.split_first() {
        let Some((part, behind)) = left.split_first() else {
            return None;
        };
        if is_match(ty, association) {
            return Some(part);
        }
        rest = others;
        left = behind;
    }
    None
}

fn first_default<'a>(associations: &[Association], parts: &'a [Judged]) -> Option<&'a Judged>
    ensures { option_map (λ e. e.now) result ≡ spec.first_of spec.is_default associations.now parts.now }
{
    let mut rest = associations;
    let mut left = parts;
    while let Some((association, others)) = rest.split_first() {
        let Some((part, behind)) = left.split_first() else {
            return None;
        };
        if is_default(association) {
            return Some(part);
        }
        rest = others;
        left = behind;
    }
    None
}

// A part as it is chosen.
fn selected_part(part: Judged) -> Judged
    ensures { result ≡ spec.selected_part part }
{
    let Judged {
        ty,
        qual,
        place,
        constant,
    } = part;
    let constant = settled(&ty, constant);
    Judged {
        ty,
        qual,
        place,
        constant,
    }
}

fn chosen(alloc: Global, at: u32, ty: &CType, part: Option<&Judged>) -> Result<Judged, CheckError>
    ensures { result ≢ Err NoMemory → result ≡ spec.chosen at ty.now (option_map (λ e. e.now) part.entry) }
{
    match part {
        Some(part) => match part.share() {
            Ok(part) => Ok(selected_part(part)),
            Err(_) => Err(CheckError::NoMemory),
        },
        None => refuse_type(alloc, at, 503, ty),
    }
}

#[tactic(auto, unfolding(crate::specs::Selection::selected))]
fn selected(
    alloc: Global,
    at: u32,
    ty: &CType,
    associations: &[Association],
    parts: &[Judged],
) -> Result<Judged, CheckError>
    ensures { result ≢ Err NoMemory → result ≡ spec.selected at ty.now associations.now parts.now }
{
    if matches_one(ty, associations) {
        return chosen(alloc, at, ty, first_match(ty, associations, parts));
    }
    if matches_any(ty, associations) {
        return refuse_type(alloc, at, 503, ty);
    }
    chosen(alloc, at, ty, first_default(associations, parts))
}

/// A generic selection, by its controlling expression and the parts of its associations.
pub(crate) fn generic(
    alloc: Global,
    at: u32,
    tags: &Tags,
    associations: &[Association],
    controlling: &Judged,
    parts: &[Judged],
) -> Result<Judged, CheckError>
    ensures { result ≢ Err NoMemory → result ≡ spec.generic at tags.now associations.now controlling.now parts.now }
{
    if are_fit(tags, associations) {
        let Ok(controlling) = converted(alloc, controlling) else {
            return Err(CheckError::NoMemory);
        };
        let judged = selected(alloc, at, &controlling.ty, associations, parts);
        drop(controlling);
        return judged;
    }
    refuse(alloc, at, 502)
}
