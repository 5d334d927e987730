// Sets of names, found at a constant cost.
ghost use Rattle.std.specs.Prelude.{◌≡◌, ◌&&◌, ◌||◌, ℕ, false, List, nat_eq, IfOk, OnOk};
ghost use Rattle.std.specs.Cmp.Lexicographic.{pointwise};
ghost use Rattle.unit_ends.specs.Ends as spec;
ghost use Rattle.unit_ends.specs.Kept.{asks, has};

use crate::asked::{Asked, is_asked, is_external, is_type};
use scope_tables::{BodyMeaning, Entity, HeadMeaning, Stated};
use shared_text::Name;
use std::alloc::{AllocError, Global};
use std::collections::HashSet;

/// No names.
#[tactic(auto, unfolding(crate::specs::Kept::has))]
pub(crate) fn no_names(alloc: Global) -> HashSet<Name>
    ensures { (q : List ℕ) → has result q ≡ false }
{
    HashSet::new(alloc)
}

#[tactic(auto, unfolding(crate::specs::Kept::has))]
fn note(names: &mut HashSet<Name>, name: &Name) -> Result<(), AllocError>
    ensures { OnOk result ((q : List ℕ) → has names.new q ≡ has names.old q || pointwise nat_eq name.now q) }
{
    let name = name.share()?;
    names.insert(name).map_err(AllocError::from)?;
    Ok(())
}

/// Whether the set has a name.
#[tactic(auto, unfolding(crate::specs::Kept::has))]
pub(crate) fn has(names: &HashSet<Name>, name: &Name) -> bool
    ensures { result ≡ has names.now name.now }
{
    names.contains(name)
}

/// Notes the name of a statement that is what is asked for.
pub(crate) fn note_stated(
    names: &mut HashSet<Name>,
    asked: Asked,
    stated: &Stated,
) -> Result<(), AllocError>
    ensures { OnOk result ((q : List ℕ) → has names.new q ≡ has names.old q || (asks asked stated.now.how && spec.is_it q stated.now)) }
{
    if !is_asked(asked, stated) {
        return Ok(());
    }
    note(names, &stated.name)
}

fn note_statements(
    names: &mut HashSet<Name>,
    asked: Asked,
    list: &[Stated],
) -> Result<(), AllocError>
    ensures { OnOk result ((q : List ℕ) → has names.new q ≡ has names.old q || spec.states (asks asked) q list.now) }
{
    let mut rest = list;
    while let Some((stated, behind)) = rest.split_first() {
        note_stated(names, asked, stated)?;
        rest = behind;
    }
    Ok(())
}

// The names of all statements of a unit that are what is asked for.
fn names_stated(
    alloc: Global,
    asked: Asked,
    heads: &[HeadMeaning],
) -> Result<HashSet<Name>, AllocError>
    ensures { IfOk result (λ names. (q : List ℕ) → has names q ≡ spec.stated (asks asked) q heads.now) }
{
    let mut names = no_names(alloc);
    let mut rest = heads;
    while let Some((head, behind)) = rest.split_first() {
        note_statements(&mut names, asked, head.stated.as_slice())?;
        rest = behind;
    }
    Ok(names)
}

/// The names that the statements of a unit define, those that they define tentatively, and those that they define or would.
pub(crate) fn names_given(
    alloc: Global,
    heads: &[HeadMeaning],
) -> Result<(HashSet<Name>, HashSet<Name>, HashSet<Name>), AllocError>
    ensures defined { IfOk result (λ r. (q : List ℕ) → has r.0 q ≡ spec.stated spec.defines q heads.now) }
    ensures tentative { IfOk result (λ r. (q : List ℕ) → has r.1 q ≡ spec.stated spec.is_tentative q heads.now) }
    ensures given { IfOk result (λ r. (q : List ℕ) → has r.2 q ≡ spec.stated spec.gives q heads.now) }
{
    let defined = names_stated(alloc, Asked::Defined, heads)?;
    let tentative = names_stated(alloc, Asked::Tentative, heads)?;
    let given = names_stated(alloc, Asked::Given, heads)?;
    Ok((defined, tentative, given))
}

fn note_all(names: &mut HashSet<Name>, used: &[Name]) -> Result<(), AllocError>
    ensures { OnOk result ((q : List ℕ) → has names.new q ≡ has names.old q || spec.uses q used.now) }
{
    let mut rest = used;
    while let Some((name, behind)) = rest.split_first() {
        note(names, name)?;
        rest = behind;
    }
    Ok(())
}

fn note_heads(names: &mut HashSet<Name>, heads: &[HeadMeaning]) -> Result<(), AllocError>
    ensures { OnOk result ((q : List ℕ) → has names.new q ≡ has names.old q || spec.heads_use q heads.now) }
{
    let mut rest = heads;
    while let Some((head, behind)) = rest.split_first() {
        note_all(names, head.used.as_slice())?;
        rest = behind;
    }
    Ok(())
}

fn note_bodies(names: &mut HashSet<Name>, bodies: &[BodyMeaning]) -> Result<(), AllocError>
    ensures { OnOk result ((q : List ℕ) → has names.new q ≡ has names.old q || spec.bodies_use q bodies.now) }
{
    let mut rest = bodies;
    while let Some((body, behind)) = rest.split_first() {
        note_all(names, body.used.as_slice())?;
        rest = behind;
    }
    Ok(())
}

// The names that the heads and bodies of a unit use.
fn names_used(
    alloc: Global,
    heads: &[HeadMeaning],
    bodies: &[BodyMeaning],
) -> Result<HashSet<Name>, AllocError>
    ensures { IfOk result (λ names. (q : List ℕ) → has names q ≡ spec.is_used q heads.now bodies.now) }
{
    let mut names = no_names(alloc);
    note_heads(&mut names, heads)?;
    note_bodies(&mut names, bodies)?;
    Ok(names)
}

fn note_external(names: &mut HashSet<Name>, entity: &Entity) -> Result<(), AllocError>
    ensures { OnOk result ((q : List ℕ) → has names.new q ≡ has names.old q || spec.declares_external q entity.now) }
{
    if !is_external(entity.linkage) {
        return Ok(());
    }
    if !is_type(&entity.ty) {
        return Ok(());
    }
    note(names, &entity.name)
}

fn note_externals(names: &mut HashSet<Name>, entities: &[Entity]) -> Result<(), AllocError>
    ensures { OnOk result ((q : List ℕ) → has names.new q ≡ has names.old q || spec.declare_external q entities.now) }
{
    let mut rest = entities;
    while let Some((entity, behind)) = rest.split_first() {
        note_external(names, entity)?;
        rest = behind;
    }
    Ok(())
}

// The names that bodies declare with external linkage.
fn names_external(alloc: Global, bodies: &[BodyMeaning]) -> Result<HashSet<Name>, AllocError>
    ensures { IfOk result (λ names. (q : List ℕ) → has names q ≡ spec.bodies_declare q bodies.now) }
{
    let mut names = no_names(alloc);
    let mut rest = bodies;
    while let Some((body, behind)) = rest.split_first() {
        note_externals(&mut names, body.entities.as_slice())?;
        rest = behind;
    }
    Ok(names)
}

/// The names that the heads and bodies of a unit use, and those that bodies declare with external linkage.
pub(crate) fn names_mentioned(
    alloc: Global,
    heads: &[HeadMeaning],
    bodies: &[BodyMeaning],
) -> Result<(HashSet<Name>, HashSet<Name>), AllocError>
    ensures used { IfOk result (λ r. (q : List ℕ) → has r.0 q ≡ spec.is_used q heads.now bodies.now) }
    ensures external { IfOk result (λ r. (q : List ℕ) → has r.1 q ≡ spec.bodies_declare q bodies.now) }
{
    let used = names_used(alloc, heads, bodies)?;
    let external = names_external(alloc, bodies)?;
    Ok((used, external))
}
