// What the parameter list of a function definition declares (ISO C11 6.2.1p4).
ghost use Rattle.std.specs.Prelude.{◌≡◌, ◌++◌, drop, IfOk, OnOk, option_map};
ghost use Rattle.elab_core.specs.Parameters;
ghost use Rattle.elab_core.specs.Prototypes as spec;

use crate::shapes::Step;
use elab_state::{Made, Where};
use init_rules::Stack;
use scope_tables::{Binding, Entity, EntityKind};
use shared_list::Listing;
use std::alloc::{AllocError, Global};
use type_data::Space;

fn space_of(kind: &EntityKind) -> Option<Space>
    ensures { result ≡ spec.space_of kind.now }
{
    match kind {
        EntityKind::Tag(_, _) => Some(Space::Tags),
        EntityKind::Object => Some(Space::Ordinary),
        EntityKind::Function => Some(Space::Ordinary),
        EntityKind::Typedef => Some(Space::Ordinary),
        EntityKind::Enumerator => Some(Space::Ordinary),
        EntityKind::Member => None,
        EntityKind::Label => None,
    }
}

fn add_same(
    alloc: Global,
    out: &mut Vec<Binding>,
    space: Space,
    entity: &Entity,
    found: &Entity,
) -> Result<(), AllocError>
    ensures { OnOk result (out.new.items ≡ out.old.items ++ spec.if_same space entity.now found.now) }
{
    if found.anchor != entity.anchor {
        return Ok(());
    }
    let name = entity.name.share()?;
    let entity = found.share(alloc)?;
    out.push(Binding {
        space,
        name,
        entity,
    })?;
    Ok(())
}

fn add_found(
    alloc: Global,
    out: &mut Vec<Binding>,
    space: Space,
    entity: &Entity,
    found: Option<&Entity>,
) -> Result<(), AllocError>
    ensures { OnOk result (out.new.items ≡ out.old.items ++ spec.binding_to space entity.now (option_map (λ e. e.now) found.entry)) }
{
    match found {
        Some(found) => add_same(alloc, out, space, entity, found),
        None => Ok(()),
    }
}

fn add(
    alloc: Global,
    out: &mut Vec<Binding>,
    made: &Made,
    entity: &Entity,
) -> Result<(), AllocError>
    ensures { OnOk result (out.new.items ≡ out.old.items ++ spec.binding_of made.now entity.now) }
{
    match space_of(&entity.kind) {
        Some(space) => {
            let found = made.names.find_here(&space, entity.name.as_str());
            add_found(alloc, out, space, entity, found)
        }
        None => Ok(()),
    }
}

fn bindings_of(alloc: Global, made: &Made, entities: &[Entity]) -> Result<Vec<Binding>, AllocError>
    ensures { IfOk result (λ v. v.items ≡ spec.bindings_of made.now entities.now) }
{
    let mut out = Vec::new(alloc);
    let mut rest = entities;
    'entities: while let Some((entity, others)) = rest.split_first() {
        add(alloc, &mut out, made, entity)?;
        rest = others;
    }
    Ok(out)
}

// The bindings of the innermost scope to the entities that were declared behind the first `before` ones.
fn bound_since(alloc: Global, made: &Made, before: usize) -> Result<Listing<Binding>, AllocError>
    ensures { IfOk result (λ l. l ≡ spec.bound_since before made.now) }
{
    let all = made.entities.as_slice();
    if before >= all.len() {
        return Ok(Listing::from_vec(Vec::new(alloc)));
    }
    let (_, behind) = all.split_at(before);
    let bindings = bindings_of(alloc, made, behind)?;
    Ok(Listing::from_vec(bindings))
}

/// Within a parameter list, or the brackets of an array: no list there is that of the function definition.
pub fn in_list(place: Where) -> Where
    ensures { result ≡ spec.in_list place }
{
    Where {
        counted: place.counted,
        defining: false,
    }
}

/// Behind these steps of the same declarator: the list of a function definition stands next to the name.
pub fn nearest(place: Where, steps: &Stack<Step>) -> Where
    ensures { result ≡ spec.nearest place steps.now }
{
    if steps.top().is_none() {
        return place;
    }
    in_list(place)
}

fn keep(alloc: Global, made: &mut Made, place: Where, before: usize) -> Result<(), AllocError>
    ensures { OnOk result (made.new ≡ spec.kept place before made.old) }
{
    if !place.defining {
        return Ok(());
    }
    let bindings = bound_since(alloc, made, before)?;
    made.params = Some(bindings);
    Ok(())
}

fn leave(made: &mut Made)
    ensures { made.new ≡ Parameters.out_of_prototype made.old }
{
    if made.names.depth() > 0 {
        made.names.leave();
    }
}

/// Behind a parameter list, in front of which there were `before` entities: its scope ends. What it binds is kept where it is the list of a
/// function definition. Its cost is linear in the number of entities behind these.
pub fn leave_list(
    alloc: Global,
    made: &mut Made,
    place: Where,
    before: usize,
) -> Result<(), AllocError>
    ensures { OnOk result (made.new ≡ spec.out_of place before made.old) }
{
    keep(alloc, made, place, before)?;
    leave(made);
    Ok(())
}
