// What the names and tags of a unit are at its end (ISO C11 6.2.7p4, 6.7.2.3).
ghost use Rattle.std.specs.Prelude.{◌≡◌, ◌||◌, ◌&&◌, ℕ, false, List, None, Some, nat_eq, option_map, if◌then◌else◌, IfOk, OnOk};
ghost use Rattle.std.specs.Cmp.Lexicographic.{pointwise};
ghost use Rattle.type_data.specs.declared.names.TagId.{TagId as Tag};
ghost use Rattle.type_data.specs.Same.{same_tag};
ghost use Rattle.scope_tables.specs.Scopes.{or_outside};
ghost use Rattle.unit_ends.specs.Kept.{at, has_tag};
ghost use Rattle.unit_ends.specs.Last as spec;

use scope_tables::{Binding, Entity, EntityKind, HeadMeaning, Linkage};
use shared_text::Name;
use std::alloc::{AllocError, Global};
use std::collections::{HashMap, HashSet};
use type_data::{Extent, Space, TagId};

/// The entity of a name, as its last declaration at file scope leaves it.
#[tactic(auto, unfolding(crate::specs::Kept::at))]
pub(crate) fn last<'a>(entities: &HashMap<Name, &'a Entity>, name: &Name) -> Option<&'a Entity>
    ensures { option_map (λ e. e.now) result ≡ at entities.now name.now }
{
    entities.get(name).copied()
}

#[tactic(auto, unfolding(crate::specs::Kept::at))]
fn no_entities<'a>(alloc: Global) -> HashMap<Name, &'a Entity>
    ensures { (q : List ℕ) → at result q ≡ None }
{
    HashMap::new(alloc)
}

#[tactic(auto, unfolding(crate::specs::Kept::at))]
fn put<'a>(
    entities: &mut HashMap<Name, &'a Entity>,
    name: &Name,
    entity: &'a Entity,
) -> Result<(), AllocError>
    ensures { OnOk result ((q : List ℕ) → at entities.new q ≡ (if pointwise nat_eq name.now q then Some entity.now else at entities.old q)) }
{
    let name = name.share()?;
    entities.insert(name, entity).map_err(AllocError::from)?;
    Ok(())
}

// The name of an ordinary binding denotes its entity from here on.
#[tactic(auto, unfolding(scope_tables::specs::Scopes::binds))]
fn bind<'a>(
    entities: &mut HashMap<Name, &'a Entity>,
    binding: &'a Binding,
) -> Result<(), AllocError>
    ensures { OnOk result ((q : List ℕ) → at entities.new q ≡ (if spec.is_it q binding.now then Some binding.now.entity else at entities.old q)) }
{
    if binding.space != Space::Ordinary {
        return Ok(());
    }
    put(entities, &binding.name, &binding.entity)
}

fn bind_all<'a>(
    entities: &mut HashMap<Name, &'a Entity>,
    bindings: &'a [Binding],
) -> Result<(), AllocError>
    ensures { OnOk result ((q : List ℕ) → at entities.new q ≡ or_outside (spec.last_here q bindings.now) (at entities.old q)) }
{
    let mut rest = bindings;
    while let Some((binding, behind)) = rest.split_first() {
        bind(entities, binding)?;
        rest = behind;
    }
    Ok(())
}

// The entities of all names that the heads of a unit declare at file scope.
fn entities_at_end<'a>(
    alloc: Global,
    heads: &'a [HeadMeaning],
) -> Result<HashMap<Name, &'a Entity>, AllocError>
    ensures { IfOk result (λ entities. (q : List ℕ) → at entities q ≡ spec.last q heads.now) }
{
    let mut entities = no_entities(alloc);
    let mut rest = heads;
    while let Some((head, behind)) = rest.split_first() {
        bind_all(&mut entities, head.declared.as_slice())?;
        rest = behind;
    }
    Ok(entities)
}

#[tactic(auto, unfolding(crate::specs::Kept::has_tag))]
fn no_tags(alloc: Global) -> HashSet<TagId>
    ensures { (q : Tag) → has_tag result q ≡ false }
{
    HashSet::new(alloc)
}

#[tactic(auto, unfolding(crate::specs::Kept::has_tag))]
fn note_tag(tags: &mut HashSet<TagId>, id: &TagId) -> Result<(), AllocError>
    ensures { OnOk result ((q : Tag) → has_tag tags.new q ≡ has_tag tags.old q || same_tag id.now q) }
{
    let id = id.share()?;
    tags.insert(id).map_err(AllocError::from)?;
    Ok(())
}

/// Whether the set has a tag.
#[tactic(auto, unfolding(crate::specs::Kept::has_tag))]
pub(crate) fn has_tag(tags: &HashSet<TagId>, id: &TagId) -> bool
    ensures { result ≡ has_tag tags.now id.now }
{
    tags.contains(id)
}

// Notes the tag that an entity completes.
fn note_entity(tags: &mut HashSet<TagId>, kind: &EntityKind) -> Result<(), AllocError>
    ensures { OnOk result ((q : Tag) → has_tag tags.new q ≡ has_tag tags.old q || spec.completes q kind.now) }
{
    match kind {
        EntityKind::Tag(id, info) => {
            if info.members.is_none() {
                return Ok(());
            }
            note_tag(tags, id)
        }
        EntityKind::Object => Ok(()),
        EntityKind::Function => Ok(()),
        EntityKind::Typedef => Ok(()),
        EntityKind::Enumerator => Ok(()),
        EntityKind::Member => Ok(()),
        EntityKind::Label => Ok(()),
    }
}

fn note_entities(tags: &mut HashSet<TagId>, entities: &[Entity]) -> Result<(), AllocError>
    ensures { OnOk result ((q : Tag) → has_tag tags.new q ≡ has_tag tags.old q || spec.completed q entities.now) }
{
    let mut rest = entities;
    while let Some((entity, behind)) = rest.split_first() {
        note_entity(tags, &entity.kind)?;
        rest = behind;
    }
    Ok(())
}

// The tags that the heads of a unit complete.
fn complete_tags(alloc: Global, heads: &[HeadMeaning]) -> Result<HashSet<TagId>, AllocError>
    ensures { IfOk result (λ tags. (q : Tag) → has_tag tags q ≡ spec.is_complete q heads.now) }
{
    let mut tags = no_tags(alloc);
    let mut rest = heads;
    while let Some((head, behind)) = rest.split_first() {
        note_entities(&mut tags, head.entities.as_slice())?;
        rest = behind;
    }
    Ok(tags)
}

/// The entities of the names of a unit, and its complete tags.
pub(crate) fn known_at_end<'a>(
    alloc: Global,
    heads: &'a [HeadMeaning],
) -> Result<(HashMap<Name, &'a Entity>, HashSet<TagId>), AllocError>
    ensures entities { IfOk result (λ r. (q : List ℕ) → at r.0 q ≡ spec.last q heads.now) }
    ensures tags { IfOk result (λ r. (q : Tag) → has_tag r.1 q ≡ spec.is_complete q heads.now) }
{
    let entities = entities_at_end(alloc, heads)?;
    let tags = complete_tags(alloc, heads)?;
    Ok((entities, tags))
}

pub(crate) fn has_one(linkage: Linkage) -> bool
    ensures { result ≡ spec.has_one linkage }
{
    match linkage {
        Linkage::External => true,
        Linkage::Internal => false,
        Linkage::None => false,
    }
}

pub(crate) fn unsized_extent(extent: Extent) -> bool
    ensures { result ≡ spec.unsized extent }
{
    match extent {
        Extent::None => true,
        Extent::Size(_) => false,
        Extent::Unknown => false,
    }
}
