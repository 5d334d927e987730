// A walk from a token to all that have to be renamed with it.
ghost use Rattle.std.specs.Prelude.{◌≡◌, ◌<◌, ◌^◌, [], map, slice_get, IfOk, IfSome, OnOk};
ghost use Rattle.std.specs.List.{list_any};
ghost use Rattle.indexmap.specs.IndexSet.{insert_key};
ghost use Rattle.tok_data.specs.declared.sources.TokId.{TokId as Token};
ghost use Rattle.rename_core.specs.declared.mentions.Denoted.{Denoted as Key};
ghost use Rattle.rename_core.specs.Ties.Lists.{listed};
ghost use Rattle.rename_core.specs.Mentions.{denoted_by, same_denoted};
ghost use Rattle.scope_tables.specs.Occurrences.{same_tok};
ghost use Rattle.rename_core.specs.Ties.Steps as spec;
ghost use Rattle.rename_core.specs.Ties.Walked.{IsWalked};

use crate::grown::Grown;
use crate::lists::list_of;
use crate::mentions::{Denoted, Told, denoted_in};
use indexmap::IndexSet;
use std::alloc::{AllocError, Global};
use std::collections::HashMap;
use std::marker::Model;
use tok_data::TokId;

/// The tokens that a walk has come to, in order, and what they denote, each once.
#[derive(Drop)]
pub(crate) struct Walk {
    toks: IndexSet<TokId>,
    denoted: IndexSet<Denoted>,
}

impl Model for Walk {
    ghost use Rattle.tok_data.specs.declared.sources.TokId.{TokId};
    ghost use Rattle.rename_core.specs.declared.mentions.Denoted.{Denoted};
    ghost use Rattle.rename_core.specs.Ties.Steps.{Seen};

    ghost Value = { Seen TokId Denoted };

    ghost view = { λ w. record { toks = w.toks.keys; denoted = w.denoted.keys } };
}

fn note(toks: &mut IndexSet<TokId>, tok: &TokId) -> Result<(), AllocError>
    ensures { OnOk result (toks.new.keys ≡ insert_key same_tok toks.old.keys tok.now) }
{
    let tok = tok.copy()?;
    toks.insert(tok)?;
    Ok(())
}

fn note_all(toks: &mut IndexSet<TokId>, found: &[TokId]) -> Result<(), AllocError>
    ensures { OnOk result (toks.new.keys ≡ spec.noted_all same_tok toks.old.keys found.now) }
{
    let mut rest = found;
    'found: while let Some((tok, behind)) = rest.split_first() {
        note(toks, tok)?;
        rest = behind;
    }
    Ok(())
}

impl Walk {
    fn new(alloc: Global) -> Walk
        ensures { result ≡ record { toks = []; denoted = [] } }
    {
        Walk {
            toks: IndexSet::new(alloc),
            denoted: IndexSet::new(alloc),
        }
    }

    /// The tokens come to.
    pub(crate) fn toks(&self) -> &[TokId]
        ensures { result.now ≡ self.now.toks }
    {
        self.toks.as_slice()
    }

    /// Whether a token come to denotes this.
    pub(crate) fn has(&self, key: &Denoted) -> bool
        ensures { result ≡ list_any (same_denoted key.now) self.now.denoted }
    {
        self.denoted.contains(key)
    }

    fn at(&self, place: u64) -> Result<Option<TokId>, AllocError>
        ensures tok { IfOk result (λ o. o ≡ slice_get self.now.toks place) }
        ensures small { IfOk result (λ o. IfSome o (λ _. place < 2 ^ 63)) }
    {
        match self.toks.as_slice().get(place as usize) {
            Some(tok) => Ok(Some(tok.copy()?)),
            None => Ok(None),
        }
    }

    fn step(
        &mut self,
        mentioned: &HashMap<Denoted, Grown<TokId>>,
        told: &Told,
    ) -> Result<(), AllocError>
        ensures { OnOk result (self.new ≡ spec.step same_tok same_denoted (listed same_denoted mentioned.now) self.old (denoted_by told.now)) }
    {
        let key = denoted_in(told.unit, &told.anchor)?;
        if self.denoted.contains(&key) {
            return Ok(());
        }
        note_all(&mut self.toks, list_of(mentioned, &key))?;
        self.denoted.insert(key).map_err(AllocError::from)?;
        Ok(())
    }

    fn steps(
        &mut self,
        mentioned: &HashMap<Denoted, Grown<TokId>>,
        told: &[Told],
    ) -> Result<(), AllocError>
        ensures { OnOk result (self.new ≡ spec.steps same_tok same_denoted (listed same_denoted mentioned.now) self.old (map denoted_by told.now)) }
    {
        let mut rest = told;
        'told: while let Some((one, behind)) = rest.split_first() {
            self.step(mentioned, one)?;
            rest = behind;
        }
        Ok(())
    }
}

/// Comes to all tokens that a chain of links leads to. Each token's list and each denoted thing's list is gone through once.
pub(crate) fn walk_from(
    alloc: Global,
    told: &HashMap<TokId, Grown<Told>>,
    mentioned: &HashMap<Denoted, Grown<TokId>>,
    tok: &TokId,
) -> Result<Walk, AllocError>
    ensures { IfOk result (λ w. IsWalked same_tok same_denoted (λ (q : Token). map denoted_by (listed same_tok told.now q)) (listed same_denoted mentioned.now) tok.now w) }
{
    let mut walk = Walk::new(alloc);
    walk.steps(mentioned, list_of(told, tok))?;
    let mut place = 0;
    'toks: loop {
        let Some(next) = walk.at(place)? else {
            return Ok(walk);
        };
        walk.steps(mentioned, list_of(told, &next))?;
        place += 1;
    }
}
