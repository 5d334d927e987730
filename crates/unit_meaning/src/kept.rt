// What a unit says of its names, found at a constant cost.
ghost use Rattle.std.specs.Prelude.{◌≡◌, IfOk, is_some, map, option_map};
ghost use Rattle.unit_meaning.specs.Exports as spec;

use crate::firsts::{first_tokens, token_of};
use crate::statements::{all_first_stated, is_among, outside};
use scope_tables::{HeadMeaning, Occ};
use shared_text::Name;
use std::alloc::{AllocError, Global};
use std::collections::{HashMap, HashSet};
use std::marker::Model;
use tok_data::TokId;
use type_data::CType;
use type_rel::is_bad;

/// The occurrences and heads of a unit, of which each question on a name is answered at a constant cost. Contracts see these.
#[derive(Drop)]
pub(crate) struct Kept<'a> {
    occs: &'a [&'a Occ],
    heads: &'a [HeadMeaning],
    firsts: HashMap<Name, TokId>,
    defined: HashMap<Name, TokId>,
    tentative: HashMap<Name, TokId>,
    refused: HashMap<Name, TokId>,
    outside: HashSet<Name>,
}

impl<'a> Model for Kept<'a> {
    ghost use Rattle.std.specs.Coded.{codes};
    ghost use Rattle.std.specs.Prelude.{map};
    ghost use Rattle.type_data.specs.contracts.types.CType as types;
    ghost use Rattle.unit_meaning.specs.Kept.{AreKept, Named, at, has};

    ghost Value = { Named };

    ghost coded = { Prim.hlevel (codes, types.the_row.coded) };

    ghost view = { λ k. record { occs = map (λ o. o.now) k.occs.now; heads = k.heads.now } };

    ghost invariant = { λ k. AreKept (record { occs = map (λ o. o.now) k.occs.now; heads = k.heads.now }) (at k.firsts) (at k.defined) (at k.tentative) (at k.refused) (has k.outside) };
}

impl<'a> Kept<'a> {
    pub(crate) fn new(
        alloc: Global,
        occs: &'a [&'a Occ],
        heads: &'a [HeadMeaning],
    ) -> Result<Kept<'a>, AllocError>
        ensures { IfOk result (λ k. k ≡ record { occs = map (λ o. o.now) occs.now; heads = heads.now }) }
    {
        let firsts = first_tokens(alloc, occs)?;
        let outside = outside(alloc, heads)?;
        let (defined, tentative, refused) = all_first_stated(alloc, heads)?;
        Ok(Kept {
            occs,
            heads,
            firsts,
            defined,
            tentative,
            refused,
            outside,
        })
    }

    /// The first token of a name with external linkage.
    pub(crate) fn first_token(&self, name: &Name) -> Option<&TokId>
        ensures { option_map (λ t. t.now) result ≡ spec.first_token name.now self.now.occs }
    {
        token_of(&self.firsts, name)
    }

    /// Some head defines it tentatively.
    pub(crate) fn is_tentative(&self, name: &Name) -> bool
        ensures { result ≡ is_some (spec.first_stated spec.is_tentative name.now self.now.heads) }
    {
        token_of(&self.tentative, name).is_some()
    }

    fn is_outside(&self, name: &Name) -> bool
        ensures { result ≡ is_some (spec.outside name.now self.now.heads) }
    {
        is_among(&self.outside, name)
    }

    fn either(&self, name: &Name) -> Option<&TokId>
        ensures { option_map (λ t. t.now) result ≡ spec.either (spec.first_stated spec.defines name.now self.now.heads) (spec.first_stated spec.is_tentative name.now self.now.heads) }
    {
        match token_of(&self.defined, name) {
            Some(tok) => Some(tok),
            None => token_of(&self.tentative, name),
        }
    }

    fn of_faulty(&self, ty: &CType, name: &Name) -> Option<&TokId>
        ensures { option_map (λ t. t.now) result ≡ spec.of_faulty ty.now name.now self.now.heads }
    {
        if !is_bad(ty) {
            return None;
        }
        token_of(&self.refused, name)
    }

    fn defining(&self, ty: &CType, name: &Name) -> Option<&TokId>
        ensures { option_map (λ t. t.now) result ≡ spec.defining ty.now name.now self.now.heads }
    {
        match self.either(name) {
            Some(tok) => Some(tok),
            None => self.of_faulty(ty, name),
        }
    }

    /// The token that defines what has the name and this type, for other units.
    pub(crate) fn definition(&self, ty: &CType, name: &Name) -> Option<&TokId>
        ensures { option_map (λ t. t.now) result ≡ spec.definition ty.now name.now self.now.heads }
    {
        if !self.is_outside(name) {
            return None;
        }
        self.defining(ty, name)
    }
}
