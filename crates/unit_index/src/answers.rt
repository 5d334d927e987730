// The questions on a token, over all units.
ghost use Rattle.std.specs.Prelude.{◌≡◌, option_map, IfOk};
ghost use Rattle.std.specs.List.{filter};
ghost use Rattle.unit_index.specs.Definition.{definition, defining};
ghost use Rattle.unit_index.specs.Occurrences.{shared};
ghost use Rattle.unit_index.specs.References as spec;
ghost use Rattle.unit_index.specs.Seen.{speech_of};
ghost use Rattle.unit_index.specs.Speaking;
ghost use Rattle.unit_index.specs.Tokens.{in_order, is_outside};

use crate::introduced::uses_among;
use crate::sets::is_outside;
use crate::shared::{Asked, anchors_of, tokens_of};
use crate::unit::IndexedUnit;
use scope_tables::{Anchor, UnitEntity};
use std::alloc::{AllocError, Global};
use tok_data::TokId;

fn all_outside(alloc: Global, tokens: &[TokId]) -> Result<Vec<TokId>, AllocError>
    ensures { IfOk result (λ out. out.items ≡ filter is_outside tokens.now) }
{
    let mut out = Vec::new(alloc);
    let mut rest = tokens;
    'tokens: while let Some((tok, behind)) = rest.split_first() {
        rest = behind;
        if !is_outside(tok) {
            continue;
        }
        out.push(tok.copy()?)?;
    }
    Ok(out)
}

// The tokens that define what a token denotes, else those that declare it.
fn defining(alloc: Global, units: &[IndexedUnit], tok: &TokId) -> Result<Vec<TokId>, AllocError>
    ensures { IfOk result (λ tokens. tokens.items ≡ in_order (defining (shared units.now tok.now))) }
{
    let anchors = anchors_of(alloc, units, tok)?;
    let defined = tokens_of(alloc, Asked::Defining, units, tok, &anchors)?;
    if !defined.is_empty() {
        return Ok(defined);
    }
    let declared = tokens_of(alloc, Asked::Declaring, units, tok, &anchors)?;
    Ok(declared)
}

/// The tokens that define the entities which a token denotes, in all units; where there is none, those that declare them. Tokens
/// of library texts are left out. What the token denotes in one unit counts in each. They stand in order of text, then place, each
/// once; no entity of the token's, or none outside the library, leaves none. The cost is a look-up a unit and anchor, and beyond it linear in
/// the occurrences of these entities, times the logarithm of their number. It fails for want of memory alone.
#[tactic(auto, unfolding(crate::specs::Definition::definition))]
pub fn definition(
    alloc: Global,
    units: &[IndexedUnit],
    tok: &TokId,
) -> Result<Vec<TokId>, AllocError>
    ensures { IfOk result (λ out. out.items ≡ definition units.now tok.now) }
{
    let tokens = defining(alloc, units, tok)?;
    let out = all_outside(alloc, tokens.as_slice())?;
    Ok(out)
}

// With declarations all outside the library, else those that only use.
fn narrowed(
    alloc: Global,
    units: &[IndexedUnit],
    declarations: bool,
    tokens: &[TokId],
) -> Result<Vec<TokId>, AllocError>
    ensures { IfOk result (λ out. out.items ≡ filter (spec.is_wanted units.now declarations) tokens.now) }
{
    if declarations {
        let out = all_outside(alloc, tokens)?;
        return Ok(out);
    }
    let out = uses_among(alloc, units, tokens)?;
    Ok(out)
}

/// The tokens that mention the entities which a token denotes, in all units; without declarations those alone that only use, in each unit
/// in which they denote something. Tokens of library texts are left out. What the token denotes in one unit counts in each. They stand in
/// order of text, then place, each once. The cost is that of `definition`; without declarations a look-up more for
/// each text in which a unit declares something, and for each mention and unit that declares something in the mention's text. It fails for want of memory alone.
#[tactic(auto, unfolding(crate::specs::References::references))]
pub fn references(
    alloc: Global,
    units: &[IndexedUnit],
    tok: &TokId,
    declarations: bool,
) -> Result<Vec<TokId>, AllocError>
    ensures { IfOk result (λ out. out.items ≡ spec.references units.now tok.now declarations) }
{
    let anchors = anchors_of(alloc, units, tok)?;
    let tokens = tokens_of(alloc, Asked::All, units, tok, &anchors)?;
    let out = narrowed(alloc, units, declarations, tokens.as_slice())?;
    Ok(out)
}

/// A unit that speaks for a token, and the entity that the token denotes there.
#[derive(Clone, Copy, Drop)]
pub struct Speaker<'a> {
    pub unit: &'a IndexedUnit,
    pub entity: &'a UnitEntity,
}

fn with_unit<'a>(unit: &'a IndexedUnit, anchor: &Anchor) -> Option<Speaker<'a>>
    ensures { option_map speech_of result ≡ Speaking.entity_at anchor.now unit.now }
{
    match unit.entity(anchor) {
        Some(entity) => Some(Speaker { unit, entity }),
        None => None,
    }
}

/// The first unit in which a token denotes an entity, and the entity that its first occurrence there denotes; none exactly where no
/// unit has the token as an occurrence, or the unit that has it lacks the entity. It takes no memory, and a look-up a unit.
pub fn speaking<'a>(units: &'a [IndexedUnit], tok: &TokId) -> Option<Speaker<'a>>
    ensures { option_map speech_of result ≡ Speaking.speaking units.now tok.now }
{
    let mut rest = units;
    'units: while let Some((unit, behind)) = rest.split_first() {
        if let Some(occ) = unit.first(tok) {
            return with_unit(unit, &occ.anchor);
        }
        rest = behind;
    }
    None
}
