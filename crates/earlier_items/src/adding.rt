// What the head of an item declares is noted as the answers to what is asked for.
ghost use Rattle.std.specs.Prelude.{◌≡◌, None, Some, if◌then◌else◌, IfOk, OnOk, option_map};
ghost use Rattle.earlier_items.specs.Before as spec;
ghost use Rattle.earlier_items.specs.Before.{or_answer, said};
ghost use Rattle.elab_state.specs.Same.{same_wanted};
ghost use Rattle.elab_state.specs.Wants as wants;
ghost use Rattle.elab_state.specs.Wants.{answered};
ghost use Rattle.elab_state.specs.declared.wants.Wanted.{Wanted as Question};

use elab_state::{Known, Wanted};
use scope_tables::{Binding, Entity, EntityKind, HeadMeaning};
use std::alloc::{AllocError, Global};
use type_data::Space;

/// Nothing is declared: each question is answered so.
#[tactic(auto, unfolding(crate::specs::Before::said))]
pub(crate) fn nothing(alloc: Global) -> Known
    ensures said { (q : Question) → said result q ≡ None }
    ensures whole { result.others ≡ Some None }
{
    Known::whole(alloc)
}

/// No tag is declared: no question has an answer.
#[tactic(auto, unfolding(crate::specs::Before::said))]
pub(crate) fn no_tags(alloc: Global) -> Known
    ensures { (q : Question) → answered result q ≡ None }
{
    Known::new(alloc)
}

/// What is said of a question.
#[tactic(auto, unfolding(crate::specs::Before::said))]
pub(crate) fn said_of<'a>(known: &'a Known, wanted: &Wanted) -> Option<&'a Entity>
    ensures { option_map (λ e. e.now) result ≡ said known.now wanted.now }
{
    match known.get(wanted) {
        Some(answer) => borrowed(answer),
        None => None,
    }
}

fn borrowed(answer: &Option<Entity>) -> Option<&Entity>
    ensures { option_map (λ e. e.now) result ≡ answer.now }
{
    match answer {
        Some(entity) => Some(entity),
        None => None,
    }
}

/// The answer to a question is this entity from now on.
#[tactic(auto, using(crate::proofs::Inserted::answered_then))]
pub(crate) fn put(
    alloc: Global,
    known: &mut Known,
    wanted: Wanted,
    entity: &Entity,
) -> Result<(), AllocError>
    ensures said { OnOk result ((q : Question) → answered known.new q ≡ (if same_wanted wanted q then Some (Some entity.now) else answered known.old q)) }
    ensures others { known.new.others ≡ known.old.others }
{
    let entity = entity.share(alloc)?;
    known.insert(wanted, Some(entity))
}

fn share_space(space: &Space) -> Result<Space, AllocError>
    ensures { IfOk result (λ copy. copy ≡ space.now) }
{
    match space {
        Space::Labels => Ok(Space::Labels),
        Space::Tags => Ok(Space::Tags),
        Space::Members(id) => {
            let id = id.share()?;
            Ok(Space::Members(id))
        }
        Space::Ordinary => Ok(Space::Ordinary),
    }
}

fn wanted_of(binding: &Binding) -> Result<Wanted, AllocError>
    ensures { IfOk result (λ w. w ≡ wants.wanted binding.now.space binding.now.name) }
{
    let space = share_space(&binding.space)?;
    let name = binding.name.share()?;
    Ok(Wanted { space, name })
}

fn bind(alloc: Global, known: &mut Known, binding: &Binding) -> Result<(), AllocError>
    ensures said { OnOk result ((q : Question) → answered known.new q ≡ or_answer (spec.if_it (wants.wanted binding.now.space binding.now.name) q binding.now.entity) (answered known.old q)) }
    ensures others { known.new.others ≡ known.old.others }
{
    let wanted = wanted_of(binding)?;
    put(alloc, known, wanted, &binding.entity)
}

// Notes what is bound; of two bindings of one name the later one counts.
fn bind_all(alloc: Global, known: &mut Known, bindings: &[Binding]) -> Result<(), AllocError>
    ensures said { OnOk result ((q : Question) → answered known.new q ≡ or_answer (spec.bound q bindings.now) (answered known.old q)) }
    ensures others { known.new.others ≡ known.old.others }
{
    let mut rest = bindings;
    'bindings: while let Some((binding, behind)) = rest.split_first() {
        bind(alloc, known, binding)?;
        rest = behind;
    }
    Ok(())
}

// Notes what is bound in the name space of a tag's members; nothing else.
fn bind_member(alloc: Global, known: &mut Known, binding: &Binding) -> Result<(), AllocError>
    ensures said { OnOk result ((q : Question) → answered known.new q ≡ or_answer (spec.members_only q.space (spec.if_it (wants.wanted binding.now.space binding.now.name) q binding.now.entity)) (answered known.old q)) }
{
    match &binding.space {
        Space::Members(_) => bind(alloc, known, binding),
        Space::Labels => Ok(()),
        Space::Tags => Ok(()),
        Space::Ordinary => Ok(()),
    }
}

// Notes what is bound in the name spaces of tags' members, and nothing else; of two bindings of one name the later one counts.
fn bind_members(alloc: Global, known: &mut Known, bindings: &[Binding]) -> Result<(), AllocError>
    ensures said { OnOk result ((q : Question) → answered known.new q ≡ or_answer (spec.members_only q.space (spec.bound q bindings.now)) (answered known.old q)) }
{
    let mut rest = bindings;
    'bindings: while let Some((binding, behind)) = rest.split_first() {
        bind_member(alloc, known, binding)?;
        rest = behind;
    }
    Ok(())
}

fn note_tag(alloc: Global, known: &mut Known, entity: &Entity) -> Result<(), AllocError>
    ensures said { OnOk result ((q : Question) → answered known.new q ≡ or_answer (spec.tag_by q entity.now entity.now.kind) (answered known.old q)) }
    ensures others { known.new.others ≡ known.old.others }
{
    match &entity.kind {
        EntityKind::Tag(id, _) => {
            let wanted = Wanted::of_members(alloc, id)?;
            put(alloc, known, wanted, entity)
        }
        EntityKind::Object => Ok(()),
        EntityKind::Function => Ok(()),
        EntityKind::Typedef => Ok(()),
        EntityKind::Enumerator => Ok(()),
        EntityKind::Member => Ok(()),
        EntityKind::Label => Ok(()),
    }
}

// Notes what is known of tags.
fn note_tags(alloc: Global, known: &mut Known, entities: &[Entity]) -> Result<(), AllocError>
    ensures said { OnOk result ((q : Question) → answered known.new q ≡ or_answer (spec.tag q entities.now) (answered known.old q)) }
    ensures others { known.new.others ≡ known.old.others }
{
    let mut rest = entities;
    'entities: while let Some((entity, behind)) = rest.split_first() {
        note_tag(alloc, known, entity)?;
        rest = behind;
    }
    Ok(())
}

/// Notes what a head declares.
pub(crate) fn note_head(
    alloc: Global,
    known: &mut Known,
    head: &HeadMeaning,
) -> Result<(), AllocError>
    ensures said { OnOk result ((q : Question) → answered known.new q ≡ or_answer (spec.in_head q head.now) (answered known.old q)) }
    ensures others { known.new.others ≡ known.old.others }
{
    bind_all(alloc, known, head.declared.as_slice())?;
    note_tags(alloc, known, head.entities.as_slice())?;
    Ok(())
}

/// Notes what a head says of the members of tags, and nothing else.
pub(crate) fn note_members(
    alloc: Global,
    known: &mut Known,
    head: &HeadMeaning,
) -> Result<(), AllocError>
    ensures said { OnOk result ((q : Question) → answered known.new q ≡ or_answer (spec.members_only q.space (spec.in_head q head.now)) (answered known.old q)) }
{
    bind_members(alloc, known, head.declared.as_slice())?;
    note_tags(alloc, known, head.entities.as_slice())?;
    Ok(())
}
