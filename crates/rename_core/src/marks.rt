// Marks of tokens that were made or spelled (ISO C11 6.10.3.2, 6.10.3.3).
ghost use Rattle.std.specs.Prelude.{◌≡◌, ◌||◌, false, map, IfOk, OnOk};
ghost use Rattle.std.specs.List.{list_any};
ghost use Rattle.tok_data.specs.declared.sources.TokId.{TokId as Token};
ghost use Rattle.rename_core.specs.Found as spec;
ghost use Rattle.scope_tables.specs.Occurrences.{same_tok};
ghost use Rattle.rename_core.specs.Showing;

use crate::mentions::denoted_in;
use crate::walk::Walk;
use scope_tables::{Occ, Role};
use std::alloc::{AllocError, Global};
use std::collections::HashSet;
use tok_data::TokId;

fn is_pasted(role: Role) -> bool
    ensures { result ≡ Showing.is_pasted role }
{
    match role {
        Role::Pasted => true,
        Role::Defines => false,
        Role::Declares => false,
        Role::Uses => false,
        Role::Spelled => false,
    }
}

fn is_spelled(role: Role) -> bool
    ensures { result ≡ Showing.is_spelled role }
{
    match role {
        Role::Spelled => true,
        Role::Pasted => false,
        Role::Defines => false,
        Role::Declares => false,
        Role::Uses => false,
    }
}

#[tactic(auto, unfolding(crate::specs::Found::has_tok))]
fn no_tokens(alloc: Global) -> HashSet<TokId>
    ensures { (q : Token) → spec.has_tok result q ≡ false }
{
    HashSet::new(alloc)
}

#[tactic(auto, unfolding(crate::specs::Found::has_tok))]
fn note_token(set: &mut HashSet<TokId>, tok: &TokId) -> Result<(), AllocError>
    ensures { OnOk result ((q : Token) → spec.has_tok set.new q ≡ spec.has_tok set.old q || same_tok tok.now q) }
{
    let tok = tok.copy()?;
    set.insert(tok).map_err(AllocError::from)?;
    Ok(())
}

/// Whether the set has a token.
#[tactic(auto, unfolding(crate::specs::Found::has_tok))]
pub(crate) fn has_token(set: &HashSet<TokId>, tok: &TokId) -> bool
    ensures { result ≡ spec.has_tok set.now tok.now }
{
    set.contains(tok)
}

fn note_occ(set: &mut HashSet<TokId>, occ: &Occ) -> Result<(), AllocError>
    ensures { OnOk result ((q : Token) → spec.has_tok set.new q ≡ spec.has_tok set.old q || Showing.is_spelled_at q occ.now) }
{
    if !is_spelled(occ.role) {
        return Ok(());
    }
    note_token(set, &occ.tok)?;
    Ok(())
}

fn note_unit(set: &mut HashSet<TokId>, occs: &[Occ]) -> Result<(), AllocError>
    ensures { OnOk result ((q : Token) → spec.has_tok set.new q ≡ spec.has_tok set.old q || list_any (Showing.is_spelled_at q) occs.now) }
{
    let mut rest = occs;
    'occs: while let Some((occ, behind)) = rest.split_first() {
        note_occ(set, occ)?;
        rest = behind;
    }
    Ok(())
}

/// The tokens that some unit spells.
pub(crate) fn spelled_tokens(alloc: Global, units: &[&[Occ]]) -> Result<HashSet<TokId>, AllocError>
    ensures { IfOk result (λ set. (q : Token) → spec.has_tok set q ≡ Showing.spelled_in (map (λ os. os.now) units.now) q) }
{
    let mut set = no_tokens(alloc);
    let mut unit = 0;
    'units: loop {
        let Some(occs) = units.get(unit) else {
            return Ok(set);
        };
        note_unit(&mut set, occs)?;
        unit += 1;
    }
}

fn is_pasted_as(walk: &Walk, unit: usize, occ: &Occ) -> Result<bool, AllocError>
    ensures { IfOk result (λ b. b ≡ spec.is_pasted_as unit walk.now.denoted occ.now) }
{
    if !is_pasted(occ.role) {
        return Ok(false);
    }
    let key = denoted_in(unit, &occ.anchor)?;
    Ok(walk.has(&key))
}

fn pasted_at(walk: &Walk, unit: usize, occs: &[Occ]) -> Result<Option<TokId>, AllocError>
    ensures { IfOk result (λ o. o ≡ spec.pasted_at unit walk.now.denoted occs.now) }
{
    let mut rest = occs;
    'occs: while let Some((occ, behind)) = rest.split_first() {
        if is_pasted_as(walk, unit, occ)? {
            let tok = occ.tok.copy()?;
            return Ok(Some(tok));
        }
        rest = behind;
    }
    Ok(None)
}

/// The place at which the first token was made that denotes what the tokens come to denote.
pub(crate) fn pasted(walk: &Walk, units: &[&[Occ]]) -> Result<Option<TokId>, AllocError>
    ensures { IfOk result (λ o. o ≡ spec.pasted_from 0 walk.now.denoted (map (λ os. os.now) units.now)) }
{
    let mut unit = 0;
    'units: loop {
        let Some(occs) = units.get(unit) else {
            return Ok(None);
        };
        let found = pasted_at(walk, unit, occs)?;
        if let Some(tok) = found {
            return Ok(Some(tok));
        }
        unit += 1;
    }
}
