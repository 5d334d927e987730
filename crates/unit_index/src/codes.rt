// Numbers by which keys are told apart before they are compared: keys that are the same have the same number.
ghost use Rattle.std.specs.Prelude.{◌≡◌, map, IfOk};
ghost use Rattle.unit_index.specs.Codes as spec;

use scope_tables::{Anchor, Occ, UnitEntity};
use std::alloc::{AllocError, Global};
use std::hash::{FoldHasher, Hasher};
use tok_data::TokId;

// It spreads the numbers of tokens of one text.
const SPREAD: u32 = 0x9e37_79b1;

#[tactic(auto, unfolding(crate::specs::Codes::text_code))]
fn text_code(text: &str) -> u32
    ensures { result ≡ spec.text_code text.now }
{
    let mut hasher = FoldHasher::default();
    hasher.write(text.as_bytes());
    (hasher.finish() % 0x1_0000_0000) as u32
}

/// That of a token.
#[tactic(auto, unfolding(crate::specs::Codes::token_code))]
pub(crate) fn token_code(tok: &TokId) -> u32
    ensures { result ≡ spec.token_code tok.now }
{
    text_code(tok.file.as_str()).wrapping_add(tok.at.wrapping_mul(SPREAD))
}

/// That of an anchor.
#[tactic(auto, unfolding(crate::specs::Codes::anchor_code))]
pub(crate) fn anchor_code(anchor: &Anchor) -> u32
    ensures { result ≡ spec.anchor_code anchor.now }
{
    match anchor {
        Anchor::External(name) => text_code(name.as_str()),
        Anchor::Local(tok) => token_code(tok),
        // (one place may make many names)
        Anchor::Made(tok, name) => token_code(tok).wrapping_add(text_code(name.as_str())),
        Anchor::Macro(name) => text_code(name.as_str()),
    }
}

/// Those of the tokens of occurrences.
pub(crate) fn token_codes(alloc: Global, occs: &[Occ]) -> Result<Vec<u32>, AllocError>
    ensures { IfOk result (λ codes. codes.items ≡ map spec.by_token occs.now) }
{
    let mut codes = Vec::with_capacity(alloc, occs.len())?;
    let mut rest = occs;
    'occs: while let Some((occ, behind)) = rest.split_first() {
        codes.push(token_code(&occ.tok))?;
        rest = behind;
    }
    Ok(codes)
}

/// Those of the anchors of occurrences.
pub(crate) fn anchor_codes(alloc: Global, occs: &[Occ]) -> Result<Vec<u32>, AllocError>
    ensures { IfOk result (λ codes. codes.items ≡ map spec.by_anchor occs.now) }
{
    let mut codes = Vec::with_capacity(alloc, occs.len())?;
    let mut rest = occs;
    'occs: while let Some((occ, behind)) = rest.split_first() {
        codes.push(anchor_code(&occ.anchor))?;
        rest = behind;
    }
    Ok(codes)
}

/// Those of the anchors of entities.
pub(crate) fn entity_codes(alloc: Global, entities: &[UnitEntity]) -> Result<Vec<u32>, AllocError>
    ensures { IfOk result (λ codes. codes.items ≡ map spec.by_name entities.now) }
{
    let mut codes = Vec::with_capacity(alloc, entities.len())?;
    let mut rest = entities;
    'entities: while let Some((entity, behind)) = rest.split_first() {
        codes.push(anchor_code(entity.anchor()))?;
        rest = behind;
    }
    Ok(codes)
}
