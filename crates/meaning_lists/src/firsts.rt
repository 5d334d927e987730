// Where things stand: by the first tokens that denote them.
ghost use Rattle.std.specs.Prelude.{◌≡◌, map, IfOk, OnOk};
ghost use Rattle.meaning_lists.specs.Firsts as spec;
ghost use Rattle.meaning_lists.specs.Order.{ascends_from};

use indexmap::IndexMap;
use scope_tables::{Anchor, Binding, Entity, HeadSymbol, Occ};
use std::alloc::{AllocError, Global};
use std::marker::Model;
use type_data::Fault;

// The first token of each anchor. Contracts see the list of what the first occurrences say.
#[derive(Drop)]
pub(crate) struct Firsts {
    map: IndexMap<Anchor, u32>,
}

impl Model for Firsts {
    ghost use Rattle.std.specs.Prelude.{List, ℕ};
    ghost use Rattle.scope_tables.specs.declared.entities.Anchor.{Anchor};

    ghost Value = { List (Anchor × ℕ) };

    ghost view = { λ f. f.map.entries };
}

impl Firsts {
    fn new(alloc: Global) -> Firsts
        ensures { result ≡ spec.none_first }
    {
        Firsts {
            map: IndexMap::new(alloc),
        }
    }

    fn note(&mut self, occ: &Occ) -> Result<(), AllocError>
        ensures { OnOk result (self.new ≡ spec.with_occ self.old occ.now) }
    {
        if self.map.get(&occ.anchor).is_some() {
            return Ok(());
        }
        let anchor = occ.anchor.share()?;
        self.map.insert(anchor, occ.tok.at)?;
        Ok(())
    }

    fn of(&self, anchor: &Anchor) -> u32
        ensures { result ≡ spec.first_of self.now anchor.now }
    {
        match self.map.get(anchor) {
            Some(at) => *at,
            None => own_place(anchor),
        }
    }
}

fn own_place(anchor: &Anchor) -> u32
    ensures { result ≡ spec.own_place anchor.now }
{
    match anchor {
        Anchor::Local(tok) => tok.at,
        Anchor::Made(tok, _) => tok.at,
        Anchor::External(_) => 0,
        Anchor::Macro(_) => 0,
    }
}

// By occurrences in order.
pub(crate) fn first_places(alloc: Global, occs: &[Occ]) -> Result<Firsts, AllocError>
    ensures { IfOk result (λ f. f ≡ spec.firsts occs.now) }
{
    let mut firsts = Firsts::new(alloc);
    let mut rest = occs;
    'occs: while let Some((occ, others)) = rest.split_first() {
        firsts.note(occ)?;
        rest = others;
    }
    Ok(firsts)
}

// Whether none stands in front of the one before it.
pub(crate) fn occs_ascend(occs: &[Occ]) -> bool
    ensures { result ≡ ascends_from 0 (map spec.placed_occ occs.now) }
{
    let mut last = 0u32;
    let mut rest = occs;
    'occs: while let Some((occ, others)) = rest.split_first() {
        if occ.tok.at < last {
            return false;
        }
        last = occ.tok.at;
        rest = others;
    }
    true
}

pub(crate) fn entities_ascend(firsts: &Firsts, entities: &[Entity]) -> bool
    ensures { result ≡ ascends_from 0 (map (spec.placed_entity firsts.now) entities.now) }
{
    let mut last = 0u32;
    let mut rest = entities;
    'entities: while let Some((entity, others)) = rest.split_first() {
        let at = firsts.of(&entity.anchor);
        if at < last {
            return false;
        }
        last = at;
        rest = others;
    }
    true
}

pub(crate) fn bindings_ascend(firsts: &Firsts, bindings: &[Binding]) -> bool
    ensures { result ≡ ascends_from 0 (map (spec.placed_binding firsts.now) bindings.now) }
{
    let mut last = 0u32;
    let mut rest = bindings;
    'bindings: while let Some((binding, others)) = rest.split_first() {
        let at = firsts.of(&binding.entity.anchor);
        if at < last {
            return false;
        }
        last = at;
        rest = others;
    }
    true
}

pub(crate) fn placed_occs(alloc: Global, occs: Vec<Occ>) -> Result<Vec<(u32, Occ)>, AllocError>
    ensures { IfOk result (λ v. v.items ≡ map spec.placed_occ occs.items) }
{
    let mut out = Vec::with_capacity(alloc, occs.len())?;
    'occs: for occ in occs {
        out.push((occ.tok.at, occ))?;
    }
    Ok(out)
}

pub(crate) fn placed_faults(
    alloc: Global,
    faults: Vec<Fault>,
) -> Result<Vec<(u32, Fault)>, AllocError>
    ensures { IfOk result (λ v. v.items ≡ map spec.placed_fault faults.items) }
{
    let mut out = Vec::with_capacity(alloc, faults.len())?;
    'faults: for fault in faults {
        out.push((fault.at, fault))?;
    }
    Ok(out)
}

pub(crate) fn placed_symbols(
    alloc: Global,
    symbols: Vec<HeadSymbol>,
) -> Result<Vec<(u32, HeadSymbol)>, AllocError>
    ensures { IfOk result (λ v. v.items ≡ map spec.placed_symbol symbols.items) }
{
    let mut out = Vec::with_capacity(alloc, symbols.len())?;
    'symbols: for symbol in symbols {
        out.push((symbol.at, symbol))?;
    }
    Ok(out)
}

pub(crate) fn placed_entities(
    alloc: Global,
    firsts: &Firsts,
    entities: Vec<Entity>,
) -> Result<Vec<(u32, Entity)>, AllocError>
    ensures { IfOk result (λ v. v.items ≡ map (spec.placed_entity firsts.now) entities.items) }
{
    let mut out = Vec::with_capacity(alloc, entities.len())?;
    'entities: for entity in entities {
        out.push((firsts.of(&entity.anchor), entity))?;
    }
    Ok(out)
}

pub(crate) fn placed_bindings(
    alloc: Global,
    firsts: &Firsts,
    bindings: Vec<Binding>,
) -> Result<Vec<(u32, Binding)>, AllocError>
    ensures { IfOk result (λ v. v.items ≡ map (spec.placed_binding firsts.now) bindings.items) }
{
    let mut out = Vec::with_capacity(alloc, bindings.len())?;
    'bindings: for binding in bindings {
        out.push((firsts.of(&binding.entity.anchor), binding))?;
    }
    Ok(out)
}
