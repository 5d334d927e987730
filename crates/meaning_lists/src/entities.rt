// Entities as they stand at the end.
ghost use Rattle.std.specs.Prelude.{◌≡◌, IfOk, OnOk};
ghost use Rattle.std.specs.List.{list_any};
ghost use Rattle.scope_tables.specs.Occurrences.{same_anchor};
ghost use Rattle.meaning_lists.specs.Entities as spec;

use crate::order::FEW;
use indexmap::IndexMap;
use scope_tables::{Anchor, Entity};
use std::alloc::{AllocError, Global};
use std::marker::Model;

// The last entity of each anchor. Contracts see the list, in the order of the first ones.
#[derive(Drop)]
struct Lasts {
    map: IndexMap<Anchor, Entity>,
}

impl Model for Lasts {
    ghost use Rattle.std.specs.Prelude.{List};
    ghost use Rattle.std.specs.Coded.{codes};
    ghost use Rattle.type_data.specs.contracts.types.CType as types;
    ghost use Rattle.scope_tables.specs.declared.entities.Anchor.{Anchor};
    ghost use Rattle.scope_tables.specs.declared.entities.Entity.{Entity};

    ghost Value = { List (Anchor × Entity) };

    ghost coded = { Prim.hlevel (codes, types.the_row.coded) };

    ghost view = { λ l. l.map.entries };
}

impl Lasts {
    fn new(alloc: Global) -> Lasts
        ensures { result ≡ spec.none_last }
    {
        Lasts {
            map: IndexMap::new(alloc),
        }
    }

    fn put(&mut self, anchor: Anchor, entity: Entity) -> Result<(), AllocError>
        ensures { OnOk result (self.new ≡ spec.with_anchor self.old anchor entity) }
    {
        self.map.insert(anchor, entity)?;
        Ok(())
    }

    fn add(&mut self, entity: Entity) -> Result<(), AllocError>
        ensures { OnOk result (self.new ≡ spec.with_entity self.old entity) }
    {
        match entity.anchor.share() {
            Ok(anchor) => self.put(anchor, entity),
            Err(error) => Err(error),
        }
    }
}

fn ends_of(alloc: Global, entities: Vec<Entity>) -> Result<Lasts, AllocError>
    ensures { IfOk result (λ lasts. lasts ≡ spec.with_all spec.none_last entities.items) }
{
    let mut lasts = Lasts::new(alloc);
    'entities: for entity in entities {
        lasts.add(entity)?;
    }
    Ok(lasts)
}

fn has_anchor(entities: &[Entity], anchor: &Anchor) -> bool
    ensures { result ≡ list_any (λ e. same_anchor e.anchor anchor.now) entities.now }
{
    entities.iter().any(|entity| entity.anchor == *anchor)
}

// No anchor comes twice.
fn are_apart(entities: &[Entity]) -> bool
    ensures { result ≡ spec.are_apart entities.now }
{
    let mut rest = entities;
    'entities: while let Some((entity, others)) = rest.split_first() {
        if has_anchor(others, &entity.anchor) {
            return false;
        }
        rest = others;
    }
    true
}

// The last entity of each anchor, in the order of the first ones. (Most lists are short and have no anchor twice.)
pub(crate) fn last_entities(alloc: Global, entities: Vec<Entity>) -> Result<Vec<Entity>, AllocError>
    ensures { IfOk result (λ v. v.items ≡ spec.last_entities entities.items) }
{
    if entities.len() <= FEW && are_apart(entities.as_slice()) {
        return Ok(entities);
    }
    let lasts = ends_of(alloc, entities)?;
    let mut out = Vec::with_capacity(alloc, lasts.map.len())?;
    'lasts: for entity in lasts.map.into_values() {
        out.push(entity)?;
    }
    Ok(out)
}
