// The tags that items declare, as they leave them (ISO C11 6.7.2.3).
ghost use Rattle.std.specs.Prelude.{◌≡◌, ◌<◌, ◌∷◌, None, Some, drop, option_map, IfOk, IfSome, IsTrue, OnOk};
ghost use Rattle.earlier_items.specs.Before as spec;
ghost use Rattle.earlier_items.specs.Before.{members_only, tags_before};
ghost use Rattle.elab_state.specs.declared.wants.Wanted.{Wanted as Question};
ghost use Rattle.scope_tables.specs.Scopes.{or_outside};

use crate::differences::same_entity;
use scope_tables::{Binding, Entities, Entity, EntityKind, HeadMeaning, UnitEntity};
use std::alloc::{AllocError, Global};
use type_data::Space;

// The entity at a place, shared.
fn shared(
    entities: &Entities,
    at: usize,
    entity: &Entity,
    behind: &[Entity],
) -> Result<UnitEntity, AllocError>
    requires { drop at entities.now ≡ entity.now ∷ behind.now }
    ensures { IfOk result (λ one. one ≡ entity.now) }
{
    let anchor = entity.anchor.share()?;
    entities.anchored(at, anchor)
}

// Adds the entity at a place, if it is a tag.
fn add_tag(
    tags: &mut Vec<UnitEntity>,
    entities: &Entities,
    at: usize,
    entity: &Entity,
    behind: &[Entity],
) -> Result<(), AllocError>
    requires { drop at entities.now ≡ entity.now ∷ behind.now }
    ensures { OnOk result ((q : Question) → spec.tag q tags.new.items ≡ or_outside (spec.tag_by q entity.now entity.now.kind) (spec.tag q tags.old.items)) }
{
    match &entity.kind {
        EntityKind::Tag(_, _) => {
            let one = shared(entities, at, entity, behind)?;
            tags.push(one)?;
            Ok(())
        }
        EntityKind::Object => Ok(()),
        EntityKind::Function => Ok(()),
        EntityKind::Typedef => Ok(()),
        EntityKind::Enumerator => Ok(()),
        EntityKind::Member => Ok(()),
        EntityKind::Label => Ok(()),
    }
}

// Adds those of an item.
fn add_tags(tags: &mut Vec<UnitEntity>, entities: &Entities) -> Result<(), AllocError>
    ensures { OnOk result ((q : Question) → spec.tag q tags.new.items ≡ or_outside (spec.tag q entities.now) (spec.tag q tags.old.items)) }
{
    let mut at = 0;
    let mut rest = entities.as_slice();
    'entities: while let Some((entity, behind)) = rest.split_first() {
        add_tag(tags, entities, at, entity, behind)?;
        at += 1;
        rest = behind;
    }
    Ok(())
}

// Whether it isn't a tag's own name space.
fn is_other(space: &Space) -> bool
    ensures { result ≡ spec.is_other space.now }
{
    match space {
        Space::Labels => true,
        Space::Tags => true,
        Space::Members(_) => false,
        Space::Ordinary => true,
    }
}

fn are_other(bindings: &[Binding]) -> bool
    ensures { IsTrue result → (q : Question) → members_only q.space (spec.bound q bindings.now) ≡ None }
{
    let mut rest = bindings;
    'bindings: while let Some((binding, behind)) = rest.split_first() {
        if !is_other(&binding.space) {
            return false;
        }
        rest = behind;
    }
    true
}

/// The tags that these heads declare, one declaration after another, as these leave them. None where one binds something in a tag's own name space, which no declaration does.
/// The cost is linear in what they declare. It fails for want of memory alone.
pub fn tags_of(alloc: Global, heads: &[HeadMeaning]) -> Result<Option<Vec<UnitEntity>>, AllocError>
    ensures { IfOk result (λ found. IfSome found (λ tags. (q : Question) → tags_before heads.now q ≡ option_map Some (spec.tag q tags.items))) }
{
    let mut tags = Vec::new(alloc);
    let mut rest = heads;
    'heads: while let Some((head, behind)) = rest.split_first() {
        if !are_other(head.declared.as_slice()) {
            return Ok(None);
        }
        add_tags(&mut tags, &head.entities)?;
        rest = behind;
    }
    Ok(Some(tags))
}

#[tactic(auto, using(crate::proofs::Entities::same_anchor))]
fn same_anchor(one: &UnitEntity, other: &UnitEntity) -> bool
    ensures { IsTrue result → one.now.anchor ≡ other.now.anchor }
{
    *one.anchor() == *other.anchor()
}

fn same_tag(one: &UnitEntity, other: &UnitEntity) -> bool
    ensures { IsTrue result → one.now ≡ other.now }
{
    same_anchor(one, other) && same_entity(one.declared(), other.declared())
}

/// Whether these are the same. The cost is linear in what is said of them.
pub fn same_tags(some: &[UnitEntity], others: &[UnitEntity]) -> bool
    ensures { IsTrue result → some.now ≡ others.now }
{
    let mut rest = some;
    let mut left = others;
    'tags: while let Some((one, behind)) = rest.split_first() {
        let Some((other, more)) = left.split_first() else {
            return false;
        };
        if !same_tag(one, other) {
            return false;
        }
        rest = behind;
        left = more;
    }
    left.is_empty()
}
