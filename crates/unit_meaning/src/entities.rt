// The entities of a unit, one for each anchor.
ghost use Rattle.std.specs.Prelude.{◌≡◌, [], ◌++◌, IfOk, OnOk};
ghost use Rattle.std.specs.Map.{values_of};
ghost use Rattle.unit_meaning.specs.Entities as spec;

use crate::order::{part_bodies, part_heads};
use crate::room;
use indexmap::IndexMap;
use scope_tables::{Anchor, BodyMeaning, Entities, HeadMeaning, UnitEntity};
use std::alloc::{AllocError, Global};
use std::marker::Model;
use unit_items::{Item, Sources};

// Entities by their anchors, in the order of the first one of each. Contracts see the list.
#[derive(Drop)]
struct ByAnchor {
    map: IndexMap<Anchor, UnitEntity>,
}

impl Model for ByAnchor {
    ghost use Rattle.std.specs.Prelude.{List};
    ghost use Rattle.std.specs.Coded.{codes};
    ghost use Rattle.type_data.specs.contracts.types.CType as types;
    ghost use Rattle.scope_tables.specs.declared.entities.Anchor.{Anchor};
    ghost use Rattle.scope_tables.specs.declared.entities.Entity.{Entity};

    ghost Value = { List (Anchor × Entity) };

    ghost coded = { Prim.hlevel (codes, types.the_row.coded) };

    ghost view = { λ b. b.map.entries };
}

impl ByAnchor {
    fn with_capacity(alloc: Global, capacity: usize) -> Result<ByAnchor, AllocError>
        ensures { IfOk result (λ all. all ≡ []) }
    {
        let map = IndexMap::with_capacity(alloc, capacity)?;
        Ok(ByAnchor { map })
    }

    fn put(&mut self, entity: UnitEntity) -> Result<(), AllocError>
        ensures { OnOk result (self.new ≡ spec.put self.old entity) }
    {
        let Ok(anchor) = entity.anchor().share() else {
            drop(entity);
            return Err(AllocError);
        };
        self.map.insert(anchor, entity)?;
        Ok(())
    }

    fn into_entities(self, alloc: Global) -> Result<Vec<UnitEntity>, AllocError>
        ensures { IfOk result (λ out. out.items ≡ values_of self) }
    {
        let mut out = Vec::with_capacity(alloc, self.map.len())?;
        'entities: for entity in self.map.into_values() {
            out.push(entity)?;
        }
        Ok(out)
    }
}

fn put_all(all: &mut ByAnchor, sources: &Sources<'_>, entities: &Entities) -> Result<(), AllocError>
    ensures { OnOk result (all.new ≡ spec.put_all sources.now all.old entities.now) }
{
    let count = entities.as_slice().len();
    let mut rest = entities.as_slice();
    'entities: while let Some((one, behind)) = rest.split_first() {
        let anchor = sources.anchor(&one.anchor)?;
        let one = entities.anchored(count - rest.len(), anchor)?;
        rest = behind;
        all.put(one)?;
    }
    Ok(())
}

fn with_heads(
    all: &mut ByAnchor,
    sources: &Sources<'_>,
    heads: &[HeadMeaning],
) -> Result<(), AllocError>
    ensures { OnOk result (all.new ≡ spec.with_heads sources.now all.old heads.now) }
{
    let mut rest = heads;
    'heads: while let Some((head, behind)) = rest.split_first() {
        rest = behind;
        put_all(all, sources, &head.entities)?;
    }
    Ok(())
}

fn with_bodies(
    all: &mut ByAnchor,
    sources: &Sources<'_>,
    bodies: &[BodyMeaning],
) -> Result<(), AllocError>
    ensures { OnOk result (all.new ≡ spec.with_bodies sources.now all.old bodies.now) }
{
    let mut rest = bodies;
    'bodies: while let Some((body, behind)) = rest.split_first() {
        rest = behind;
        put_all(all, sources, &body.entities)?;
    }
    Ok(())
}

fn with_items(
    alloc: Global,
    sources: &Sources<'_>,
    items: &[Item],
    heads: &[HeadMeaning],
    bodies: &[BodyMeaning],
) -> Result<ByAnchor, AllocError>
    ensures { IfOk result (λ all. all ≡ spec.with_items sources.now [] items.now heads.now bodies.now) }
{
    let mut all = ByAnchor::with_capacity(alloc, room::of_entities(heads, bodies))?;
    let mut later_heads = heads;
    let mut later_bodies = bodies;
    let mut rest = items;
    'items: while let Some((item, behind)) = rest.split_first() {
        rest = behind;
        let (own_heads, behind_heads) = part_heads(later_heads, &item.name);
        later_heads = behind_heads;
        with_heads(&mut all, sources, own_heads)?;
        let (own_bodies, behind_bodies) = part_bodies(later_bodies, &item.name);
        later_bodies = behind_bodies;
        with_bodies(&mut all, sources, own_bodies)?;
    }
    Ok(all)
}

/// The entities of a unit, by its items.
pub(crate) fn entities(
    alloc: Global,
    sources: &Sources<'_>,
    items: &[Item],
    heads: &[HeadMeaning],
    bodies: &[BodyMeaning],
) -> Result<Vec<UnitEntity>, AllocError>
    ensures { IfOk result (λ out. out.items ≡ values_of (spec.with_items sources.now [] items.now heads.now bodies.now)) }
{
    let all = with_items(alloc, sources, items, heads, bodies)?;
    let out = all.into_entities(alloc)?;
    Ok(out)
}
