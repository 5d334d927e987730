// What units say of tokens: what each one denotes, and which tokens denote the same.
ghost use Rattle.std.specs.Prelude.{◌≡◌, ◌∷◌, [], ◌++◌, List, map, IfOk, OnOk, if◌then◌else◌};
ghost use Rattle.tok_data.specs.declared.sources.TokId.{TokId as Token};
ghost use Rattle.rename_core.specs.declared.mentions.Denoted.{Denoted as Key};
ghost use Rattle.rename_core.specs.Ties.Lists.{listed};
ghost use Rattle.rename_core.specs.Mentions as spec;
ghost use Rattle.scope_tables.specs.Occurrences as occurs;
ghost use Rattle.rename_core.specs.Occurrences;

use crate::grown::Grown;
use crate::lists::{add_to, no_lists};
use scope_tables::{Anchor, Occ, Role};
use shared_text::Name;
use std::alloc::{AllocError, Global};
use std::collections::HashMap;
use tok_data::TokId;

/// What a unit says that a token denotes there.
#[derive(Drop)]
pub(crate) struct Told {
    pub(crate) unit: usize,
    pub(crate) anchor: Anchor,
}

/// What a token denotes: a name with external linkage is one in all units (ISO C11 6.2.2p2), all else is of one unit.
#[derive(PartialEq, Eq, Hash, Drop)]
pub(crate) enum Denoted {
    Everywhere(Name),
    Within(usize, Anchor),
}

/// Whether a token with this role denotes an entity.
pub(crate) fn counts(role: Role) -> bool
    ensures { result ≡ occurs.counts role }
{
    match role {
        Role::Defines => true,
        Role::Declares => true,
        Role::Uses => true,
        Role::Pasted => false,
        Role::Spelled => false,
    }
}

/// What an anchor in the unit with this number denotes.
pub(crate) fn denoted_in(unit: usize, anchor: &Anchor) -> Result<Denoted, AllocError>
    ensures { IfOk result (λ d. d ≡ spec.denoted_in unit anchor.now) }
{
    match anchor {
        Anchor::External(name) => Ok(Denoted::Everywhere(name.share()?)),
        Anchor::Local(_) => Ok(Denoted::Within(unit, anchor.share()?)),
        Anchor::Made(_, _) => Ok(Denoted::Within(unit, anchor.share()?)),
        Anchor::Macro(_) => Ok(Denoted::Within(unit, anchor.share()?)),
    }
}

fn tell_one(
    alloc: Global,
    told: &mut HashMap<TokId, Grown<Told>>,
    unit: usize,
    occ: &Occ,
) -> Result<(), AllocError>
    ensures { OnOk result ((q : Token) → listed occurs.same_tok told.new q ≡ (if occurs.is_at q occ.now then listed occurs.same_tok told.old q ++ spec.told_in unit occ.now.anchor ∷ [] else listed occurs.same_tok told.old q)) }
{
    if !counts(occ.role) {
        return Ok(());
    }
    let tok = occ.tok.copy()?;
    let anchor = occ.anchor.share()?;
    add_to(alloc, told, tok, Told { unit, anchor })?;
    Ok(())
}

fn tell_unit(
    alloc: Global,
    told: &mut HashMap<TokId, Grown<Told>>,
    unit: usize,
    occs: &[Occ],
) -> Result<(), AllocError>
    ensures { OnOk result ((q : Token) → listed occurs.same_tok told.new q ≡ listed occurs.same_tok told.old q ++ map (spec.told_in unit) (Occurrences.anchors_at q occs.now)) }
{
    let mut rest = occs;
    'occs: while let Some((occ, behind)) = rest.split_first() {
        tell_one(alloc, told, unit, occ)?;
        rest = behind;
    }
    Ok(())
}

/// What the units say of each token. The units have numbers from 0 on.
pub(crate) fn tell_all(
    alloc: Global,
    units: &[&[Occ]],
) -> Result<HashMap<TokId, Grown<Told>>, AllocError>
    ensures { IfOk result (λ r. (q : Token) → listed occurs.same_tok r q ≡ spec.tolds 0 q (map (λ os. os.now) units.now)) }
{
    let mut told = no_lists(alloc);
    let mut unit = 0;
    'units: loop {
        let Some(occs) = units.get(unit) else {
            return Ok(told);
        };
        tell_unit(alloc, &mut told, unit, occs)?;
        unit += 1;
    }
}

fn mention_one(
    alloc: Global,
    mentioned: &mut HashMap<Denoted, Grown<TokId>>,
    unit: usize,
    occ: &Occ,
) -> Result<(), AllocError>
    ensures { OnOk result ((q : Key) → listed spec.same_denoted mentioned.new q ≡ (if spec.is_of unit q occ.now then listed spec.same_denoted mentioned.old q ++ occ.now.tok ∷ [] else listed spec.same_denoted mentioned.old q)) }
{
    if !counts(occ.role) {
        return Ok(());
    }
    let tok = occ.tok.copy()?;
    let key = denoted_in(unit, &occ.anchor)?;
    add_to(alloc, mentioned, key, tok)?;
    Ok(())
}

fn mention_unit(
    alloc: Global,
    mentioned: &mut HashMap<Denoted, Grown<TokId>>,
    unit: usize,
    occs: &[Occ],
) -> Result<(), AllocError>
    ensures { OnOk result ((q : Key) → listed spec.same_denoted mentioned.new q ≡ listed spec.same_denoted mentioned.old q ++ spec.tokens_in unit q occs.now) }
{
    let mut rest = occs;
    'occs: while let Some((occ, behind)) = rest.split_first() {
        mention_one(alloc, mentioned, unit, occ)?;
        rest = behind;
    }
    Ok(())
}

/// Of all that is denoted in the units, which tokens denote it.
pub(crate) fn mention_all(
    alloc: Global,
    units: &[&[Occ]],
) -> Result<HashMap<Denoted, Grown<TokId>>, AllocError>
    ensures { IfOk result (λ r. (q : Key) → listed spec.same_denoted r q ≡ spec.tokens_of 0 q (map (λ os. os.now) units.now)) }
{
    let mut mentioned = no_lists(alloc);
    let mut unit = 0;
    'units: loop {
        let Some(occs) = units.get(unit) else {
            return Ok(mentioned);
        };
        mention_unit(alloc, &mut mentioned, unit, occs)?;
        unit += 1;
    }
}
