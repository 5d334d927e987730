// The tags of a unit.
ghost use Rattle.std.specs.Prelude.{◌≡◌, IfOk, OnOk};
ghost use Rattle.unit_meaning.specs.Tags as spec;

use scope_tables::{BodyMeaning, Entity, EntityKind, HeadMeaning};
use std::alloc::{AllocError, Global};
use type_data::Tags;

fn note_kind(alloc: Global, tags: &mut Tags, kind: &EntityKind) -> Result<(), AllocError>
    ensures { OnOk result (tags.new ≡ spec.noted_kind tags.old kind.now) }
{
    match kind {
        EntityKind::Tag(id, info) => {
            let id = id.share()?;
            let info = info.share(alloc)?;
            tags.insert(id, info)
        }
        EntityKind::Object => Ok(()),
        EntityKind::Function => Ok(()),
        EntityKind::Typedef => Ok(()),
        EntityKind::Enumerator => Ok(()),
        EntityKind::Member => Ok(()),
        EntityKind::Label => Ok(()),
    }
}

fn note(alloc: Global, tags: &mut Tags, entities: &[Entity]) -> Result<(), AllocError>
    ensures { OnOk result (tags.new ≡ spec.noted tags.old entities.now) }
{
    let mut rest = entities;
    'entities: while let Some((entity, behind)) = rest.split_first() {
        rest = behind;
        note_kind(alloc, tags, &entity.kind)?;
    }
    Ok(())
}

fn of_heads(alloc: Global, tags: &mut Tags, heads: &[HeadMeaning]) -> Result<(), AllocError>
    ensures { OnOk result (tags.new ≡ spec.of_heads tags.old heads.now) }
{
    let mut rest = heads;
    'heads: while let Some((head, behind)) = rest.split_first() {
        rest = behind;
        note(alloc, tags, head.entities.as_slice())?;
    }
    Ok(())
}

fn of_bodies(alloc: Global, tags: &mut Tags, bodies: &[BodyMeaning]) -> Result<(), AllocError>
    ensures { OnOk result (tags.new ≡ spec.of_bodies tags.old bodies.now) }
{
    let mut rest = bodies;
    'bodies: while let Some((body, behind)) = rest.split_first() {
        rest = behind;
        note(alloc, tags, body.entities.as_slice())?;
    }
    Ok(())
}

/// What is known of the tags of a unit at its end.
pub(crate) fn tags(
    alloc: Global,
    heads: &[HeadMeaning],
    bodies: &[BodyMeaning],
) -> Result<Tags, AllocError>
    ensures { IfOk result (λ tags. tags ≡ spec.tags heads.now bodies.now) }
{
    let mut tags = Tags::new(alloc);
    of_heads(alloc, &mut tags, heads)?;
    of_bodies(alloc, &mut tags, bodies)?;
    Ok(tags)
}
