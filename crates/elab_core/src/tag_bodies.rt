// Tags with a body (ISO C11 6.7.2.3).
ghost use Rattle.std.specs.Prelude.{◌≡◌, IfOk, OnOk, option_map};
ghost use Rattle.elab_core.specs.Parameters;
ghost use Rattle.elab_core.specs.TagBodies as spec;
ghost use Rattle.elab_core.specs.Tags as tags;
ghost use Rattle.elab_state.specs.Comes.{Comes, Leads};
ghost use Rattle.elab_state.specs.Looks as looks;
ghost use Rattle.elab_state.specs.Seen.{context_of, told_of};
ghost use Rattle.elab_state.specs.Contexts.{own_tag as own_tag_of};
ghost use Rattle.elab_state.specs.Tokens.{spelling as spelling_of};

use crate::braced::is_file;
use crate::names::{found_at, share};
use crate::notes::{mark_if, name_token, renumbered};
use crate::operators::keyword_kind;
use crate::shapes::Typed;
use crate::tags::{bind_tag, know_tag, of_kind, same_kind, tag_entity, typed};
use elab_state::{Around, Halt, Made, mark, name_at, own_tag, own_token, spelling, tell};
use head_rules::{Begun, begin_body as begin_tag, completed};
use scope_tables::{Anchor, Entity, EntityKind, Life, Linkage, Role};
use shared_list::Listing;
use shared_text::Name;
use std::alloc::{AllocError, Global};
use type_data::{Fault, Member, Space, TagId, TagInfo, TagKind};
use type_rel::UNQUALIFIED;

/// A tag whose body is read.
#[derive(Drop)]
pub struct OpenBody {
    pub kind: TagKind,
    pub id: TagId,
    pub name: Option<Name>,
    /// What is complete behind the body; none where the body was refused.
    pub entity: Option<Entity>,
}

fn in_scope<'a>(around: &Around<'a>, made: &'a Made, name: &Name) -> Option<&'a Entity>
    ensures { option_map (λ e. e.now) result ≡ spec.in_scope (context_of around.now) name.now made.now }
{
    if let Some(entity) = made.names.find_here(&Space::Tags, name.as_str()) {
        return Some(entity);
    }
    if made.names.depth() == 1 {
        return around.outer.find_here(&Space::Tags, name.as_str());
    }
    None
}

fn found_in_scope(
    alloc: Global,
    around: &Around<'_>,
    made: &Made,
    at: u32,
) -> Result<Option<Entity>, AllocError>
    ensures { IfOk result (λ e. e ≡ spec.in_scope (context_of around.now) (spelling_of (context_of around.now).tokens at) made.now) }
{
    let name = name_at(alloc, around.tokens, at)?;
    share(alloc, in_scope(around, made, &name))
}

// What the tag denotes in its scope.
pub(crate) fn before(
    alloc: Global,
    around: &Around<'_>,
    made: &Made,
    at: u32,
) -> Result<Option<Entity>, Halt>
    ensures { Comes (told_of around.now) (spec.before (context_of around.now) (spelling_of (context_of around.now).tokens at) made.now) (λ e. e) result made.now }
{
    if is_file(made.kind()) {
        return found_at(alloc, around, made, Space::Tags, at);
    }
    match found_in_scope(alloc, around, made, at) {
        Ok(entity) => Ok(entity),
        Err(_) => Err(Halt::NoMemory),
    }
}

fn of_same_kind(kind: TagKind, has: &EntityKind) -> Result<Option<TagId>, AllocError>
    ensures { IfOk result (λ id. id ≡ spec.of_same_kind kind has.now) }
{
    match has {
        EntityKind::Tag(id, info) => {
            if !same_kind(info.kind, kind) {
                return Ok(None);
            }
            let id = id.share()?;
            Ok(Some(id))
        }
        EntityKind::Object => Ok(None),
        EntityKind::Function => Ok(None),
        EntityKind::Typedef => Ok(None),
        EntityKind::Enumerator => Ok(None),
        EntityKind::Member => Ok(None),
        EntityKind::Label => Ok(None),
    }
}

fn tested_id(kind: TagKind, entity: &Option<Entity>) -> Result<Option<TagId>, AllocError>
    ensures { IfOk result (λ id. id ≡ spec.tested_id kind entity.now) }
{
    match entity {
        Some(entity) => of_same_kind(kind, &entity.kind),
        None => Ok(None),
    }
}

fn test(
    alloc: Global,
    around: &Around<'_>,
    made: &mut Made,
    kind: TagKind,
    entity: &Option<Entity>,
) -> Result<(), Halt>
    ensures { Leads (told_of around.now) (spec.tested (context_of around.now) kind entity.now made.old) result made.new }
{
    let Ok(id) = tested_id(kind, entity) else {
        return Err(Halt::NoMemory);
    };
    match id {
        Some(id) => tell(alloc, around, made, &id),
        None => Ok(()),
    }
}

fn open_new_tag(
    alloc: Global,
    around: &Around<'_>,
    made: &mut Made,
    kind: TagKind,
    at: u32,
    entity: &Entity,
) -> Result<(), AllocError>
    ensures { OnOk result (made.new ≡ spec.new_tag (context_of around.now) kind at entity.now made.old) }
{
    mark(around, made, at, &entity.anchor, Role::Defines)?;
    bind_tag(alloc, made, entity)?;
    know_tag(around, made, kind, at, &entity.name)
}

fn new_body(
    alloc: Global,
    around: &Around<'_>,
    made: &mut Made,
    kind: TagKind,
    at: u32,
) -> Result<OpenBody, AllocError>
    ensures { IfOk result (λ o. (o, made.new) ≡ spec.new_body (context_of around.now) kind at made.old) }
{
    let id = own_tag(around, at)?;
    let name = name_at(alloc, around.tokens, at)?;
    let entity = tag_entity(alloc, around, kind, at)?;
    let Ok(()) = open_new_tag(alloc, around, made, kind, at, &entity) else {
        drop(entity);
        return Err(AllocError);
    };
    Ok(OpenBody {
        kind,
        id,
        name: Some(name),
        entity: Some(entity),
    })
}

fn anchor_of(entity: &Option<Entity>) -> Result<Option<Anchor>, AllocError>
    ensures { IfOk result (λ a. a ≡ Parameters.anchor_of entity.now) }
{
    match entity {
        Some(entity) => {
            let anchor = entity.anchor.share()?;
            Ok(Some(anchor))
        }
        None => Ok(None),
    }
}

fn mark_again(
    around: &Around<'_>,
    made: &mut Made,
    at: u32,
    entity: &Option<Entity>,
) -> Result<(), AllocError>
    ensures { OnOk result (made.new ≡ spec.marked_again (context_of around.now) at entity.now made.old) }
{
    let anchor = anchor_of(entity)?;
    mark_if(around, made, at, Role::Defines, &anchor)
}

fn again(
    alloc: Global,
    around: &Around<'_>,
    made: &mut Made,
    kind: TagKind,
    at: u32,
    id: TagId,
    entity: Option<Entity>,
) -> Result<OpenBody, AllocError>
    ensures { IfOk result (λ o. (o, made.new) ≡ spec.again (context_of around.now) kind at id entity made.old) }
{
    let Ok(()) = mark_again(around, made, at, &entity) else {
        drop(entity);
        return Err(AllocError);
    };
    let Ok(name) = name_at(alloc, around.tokens, at) else {
        drop(entity);
        return Err(AllocError);
    };
    Ok(OpenBody {
        kind,
        id,
        name: Some(name),
        entity,
    })
}

fn note_refused(
    around: &Around<'_>,
    made: &mut Made,
    at: u32,
    entity: &Option<Entity>,
    fault: Fault,
) -> Result<(), AllocError>
    ensures { OnOk result (made.new ≡ spec.noted_refused (context_of around.now) at (Parameters.anchor_of entity.now) fault made.old) }
{
    made.faults.push(renumbered(around, fault))?;
    mark_again(around, made, at, entity)
}

fn refuse(
    alloc: Global,
    around: &Around<'_>,
    made: &mut Made,
    kind: TagKind,
    at: u32,
    entity: &Option<Entity>,
    fault: Fault,
) -> Result<OpenBody, AllocError>
    ensures { IfOk result (λ o. (o, made.new) ≡ spec.refused (context_of around.now) kind at entity.now fault made.old) }
{
    note_refused(around, made, at, entity, fault)?;
    let name = name_at(alloc, around.tokens, at)?;
    know_tag(around, made, kind, at, &name)?;
    let id = own_tag(around, at)?;
    Ok(OpenBody {
        kind,
        id,
        name: Some(name),
        entity: None,
    })
}

fn by_row(
    alloc: Global,
    around: &Around<'_>,
    made: &mut Made,
    kind: TagKind,
    at: u32,
    entity: Option<Entity>,
    begun: Begun,
) -> Result<OpenBody, AllocError>
    ensures { IfOk result (λ o. (o, made.new) ≡ spec.by_row (context_of around.now) kind at entity begun made.old) }
{
    match begun {
        Begun::New => {
            drop(entity);
            new_body(alloc, around, made, kind, at)
        }
        Begun::Again(id) => again(alloc, around, made, kind, at, id, entity),
        Begun::Refused(fault) => {
            let done = refuse(alloc, around, made, kind, at, &entity, fault);
            drop(entity);
            done
        }
    }
}

pub(crate) fn borrowed(entity: &Option<Entity>) -> Option<&Entity>
    ensures { option_map (λ e. e.now) result ≡ entity.now }
{
    match entity {
        Some(entity) => Some(entity),
        None => None,
    }
}

fn row(
    alloc: Global,
    around: &Around<'_>,
    made: &Made,
    kind: TagKind,
    at: u32,
    entity: &Option<Entity>,
) -> Result<Begun, AllocError>
    ensures { IfOk result (λ b. b ≡ spec.row (context_of around.now) kind at entity.now made.now) }
{
    let name = name_token(alloc, around, at)?;
    let round = made.round.as_slice();
    begin_tag(alloc, kind, &name, borrowed(entity), &made.tags, round)
}

fn stand(made: &mut Made, id: &TagId) -> Result<(), AllocError>
    ensures { OnOk result (made.new ≡ spec.standing id.now made.old) }
{
    let id = id.share()?;
    made.round.push(id)?;
    Ok(())
}

fn begin_by(
    alloc: Global,
    around: &Around<'_>,
    made: &mut Made,
    kind: TagKind,
    at: u32,
    entity: Option<Entity>,
) -> Result<OpenBody, AllocError>
    ensures { IfOk result (λ o. (o, made.new) ≡ spec.begun_by (context_of around.now) kind at entity made.old) }
{
    let Ok(begun) = row(alloc, around, made, kind, at, &entity) else {
        drop(entity);
        return Err(AllocError);
    };
    by_row(alloc, around, made, kind, at, entity, begun)
}

fn begin_as(
    alloc: Global,
    around: &Around<'_>,
    made: &mut Made,
    kind: TagKind,
    at: u32,
    entity: Option<Entity>,
) -> Result<OpenBody, AllocError>
    ensures { IfOk result (λ o. (o, made.new) ≡ spec.begun_as (context_of around.now) kind at entity made.old) }
{
    let body = begin_by(alloc, around, made, kind, at, entity)?;
    let Ok(()) = stand(made, &body.id) else {
        drop(body);
        return Err(AllocError);
    };
    Ok(body)
}

fn begin_tested(
    alloc: Global,
    around: &Around<'_>,
    made: &mut Made,
    kind: TagKind,
    at: u32,
    entity: Option<Entity>,
) -> Result<OpenBody, Halt>
    ensures { Comes (told_of around.now) (spec.begun_tested (context_of around.now) kind at entity made.old) (λ o. o) result made.new }
{
    match test(alloc, around, made, kind, &entity) {
        Ok(()) => (),
        Err(halt) => {
            drop(entity);
            return Err(halt);
        }
    }
    match begin_as(alloc, around, made, kind, at, entity) {
        Ok(open) => Ok(open),
        Err(_) => Err(Halt::NoMemory),
    }
}

// The body of a tag of this kind, which is the token `at`.
fn begin_named(
    alloc: Global,
    around: &Around<'_>,
    made: &mut Made,
    kind: TagKind,
    at: u32,
) -> Result<OpenBody, Halt>
    ensures { Comes (told_of around.now) (spec.begun_named (context_of around.now) kind at made.old) (λ o. o) result made.new }
{
    let entity = match before(alloc, around, made, at) {
        Ok(entity) => entity,
        Err(halt) => return Err(halt),
    };
    begin_tested(alloc, around, made, kind, at, entity)
}

fn nameless_info(kind: TagKind) -> TagInfo
    ensures { result ≡ spec.nameless_info kind }
{
    TagInfo {
        kind,
        name: None,
        members: None,
        layout: None,
    }
}

fn nameless(
    alloc: Global,
    around: &Around<'_>,
    kind: TagKind,
    at: u32,
) -> Result<Entity, AllocError>
    ensures { IfOk result (λ e. e ≡ spec.nameless (context_of around.now) kind at) }
{
    let name = Name::from_str(alloc, "")?;
    let id = own_tag(around, at)?;
    let tok = own_token(around, at)?;
    let ty = of_kind(kind, own_tag(around, at)?);
    Ok(Entity {
        name,
        kind: EntityKind::Tag(id, nameless_info(kind)),
        ty,
        qual: UNQUALIFIED,
        linkage: Linkage::None,
        life: Life::Without,
        value: None,
        anchor: Anchor::Local(tok),
    })
}

fn know_nameless(
    around: &Around<'_>,
    made: &mut Made,
    kind: TagKind,
    at: u32,
) -> Result<(), AllocError>
    ensures { OnOk result (made.new ≡ looks.with_tag (own_tag_of (context_of around.now) at) (spec.nameless_info kind) made.old) }
{
    let id = own_tag(around, at)?;
    made.tags.insert(id, nameless_info(kind))?;
    Ok(())
}

fn nameless_body(
    alloc: Global,
    around: &Around<'_>,
    made: &mut Made,
    kind: TagKind,
    at: u32,
) -> Result<OpenBody, AllocError>
    ensures { IfOk result (λ o. (o, made.new) ≡ spec.nameless_body (context_of around.now) kind at made.old) }
{
    know_nameless(around, made, kind, at)?;
    let id = own_tag(around, at)?;
    let entity = nameless(alloc, around, kind, at)?;
    Ok(OpenBody {
        kind,
        id,
        name: None,
        entity: Some(entity),
    })
}

// That of a structure, union or enumeration without a tag, which is told by its keyword, the token `at`.
fn begin_nameless(
    alloc: Global,
    around: &Around<'_>,
    made: &mut Made,
    kind: TagKind,
    at: u32,
) -> Result<OpenBody, AllocError>
    ensures { IfOk result (λ o. (o, made.new) ≡ spec.begun_nameless (context_of around.now) kind at made.old) }
{
    let body = nameless_body(alloc, around, made, kind, at)?;
    let Ok(()) = stand(made, &body.id) else {
        drop(body);
        return Err(AllocError);
    };
    Ok(body)
}

/// A body of the tag that is the token `tag`, behind its keyword: it defines a new tag, or the one that its scope has, of which what is
/// known is asked for. Its fault is noted: 412 or 413; then it defines none. Without a tag it is told by its keyword.
pub fn begin_body(
    alloc: Global,
    around: &Around<'_>,
    made: &mut Made,
    keyword: u32,
    tag: Option<u32>,
) -> Result<OpenBody, Halt>
    ensures { Comes (told_of around.now) (spec.begun_body (context_of around.now) keyword tag made.old) (λ o. o) result made.new }
{
    let kind = keyword_kind(spelling(around.tokens, keyword));
    match tag {
        Some(at) => begin_named(alloc, around, made, kind, at),
        None => match begin_nameless(alloc, around, made, kind, keyword) {
            Ok(body) => Ok(body),
            Err(_) => Err(Halt::NoMemory),
        },
    }
}

fn kind_of(alloc: Global, id: &TagId, info: &TagInfo) -> Result<EntityKind, AllocError>
    ensures { IfOk result (λ k. k ≡ spec.kind_of id.now info.now) }
{
    let id = id.share()?;
    let info = info.share(alloc)?;
    Ok(EntityKind::Tag(id, info))
}

fn completed_entity(
    alloc: Global,
    id: &TagId,
    info: &TagInfo,
    entity: &Entity,
) -> Result<Entity, AllocError>
    ensures { IfOk result (λ e. e ≡ spec.completed_entity id.now info.now entity.now) }
{
    let name = entity.name.share()?;
    let ty = entity.ty.share()?;
    let Ok(anchor) = entity.anchor.share() else {
        drop(ty);
        return Err(AllocError);
    };
    let Ok(kind) = kind_of(alloc, id, info) else {
        drop(anchor);
        drop(ty);
        return Err(AllocError);
    };
    Ok(Entity {
        name,
        kind,
        ty,
        qual: entity.qual,
        linkage: entity.linkage,
        life: entity.life,
        value: entity.value,
        anchor,
    })
}

fn bind_if(alloc: Global, made: &mut Made, named: bool, entity: &Entity) -> Result<(), AllocError>
    ensures { OnOk result (made.new ≡ spec.bound_if named entity.now made.old) }
{
    if !named {
        return Ok(());
    }
    bind_tag(alloc, made, entity)
}

fn know(alloc: Global, made: &mut Made, named: bool, entity: Entity) -> Result<(), AllocError>
    ensures { OnOk result (made.new ≡ spec.known named entity made.old) }
{
    let Ok(()) = bind_if(alloc, made, named, &entity) else {
        drop(entity);
        return Err(AllocError);
    };
    made.entities.push(entity)?;
    Ok(())
}

fn know_if(
    alloc: Global,
    made: &mut Made,
    named: bool,
    id: &TagId,
    info: &TagInfo,
    entity: &Option<Entity>,
) -> Result<(), AllocError>
    ensures { OnOk result (made.new ≡ spec.known_if named id.now info.now entity.now made.old) }
{
    match entity {
        Some(entity) => {
            let entity = completed_entity(alloc, id, info, entity)?;
            know(alloc, made, named, entity)
        }
        None => Ok(()),
    }
}

fn know_info(alloc: Global, made: &mut Made, id: &TagId, info: &TagInfo) -> Result<(), AllocError>
    ensures { OnOk result (made.new ≡ looks.with_tag id.now info.now made.old) }
{
    let id = id.share()?;
    let info = info.share(alloc)?;
    made.tags.insert(id, info)?;
    Ok(())
}

fn end_by(
    alloc: Global,
    made: &mut Made,
    named: bool,
    id: &TagId,
    info: &TagInfo,
    entity: &Option<Entity>,
) -> Result<(), AllocError>
    ensures { OnOk result (made.new ≡ spec.ended_by named id.now info.now entity.now made.old) }
{
    know_info(alloc, made, id, info)?;
    know_if(alloc, made, named, id, info, entity)
}

fn share_name(name: &Option<Name>) -> Result<Option<Name>, AllocError>
    ensures { IfOk result (λ n. n ≡ name.now) }
{
    match name {
        Some(name) => {
            let name = name.share()?;
            Ok(Some(name))
        }
        None => Ok(None),
    }
}

fn finished(
    alloc: Global,
    made: &Made,
    body: &OpenBody,
    members: Listing<Member>,
) -> Result<TagInfo, AllocError>
    ensures { IfOk result (λ i. i ≡ spec.finished body.now members made.now) }
{
    let name = share_name(&body.name)?;
    completed(alloc, body.kind, name, members, &made.tags)
}

/// The end of a body, whose list has these members: the tag is complete from here on, with the layout of these.
pub(crate) fn end_body(
    alloc: Global,
    made: &mut Made,
    body: &OpenBody,
    members: Listing<Member>,
) -> Result<(), AllocError>
    ensures { OnOk result (made.new ≡ spec.ended body.now members made.old) }
{
    let info = finished(alloc, made, body, members)?;
    end_by(
        alloc,
        made,
        body.name.is_some(),
        &body.id,
        &info,
        &body.entity,
    )?;
    made.round.pop();
    Ok(())
}

/// The type that a body specifies; none where it was refused.
pub(crate) fn body_type(body: &OpenBody) -> Result<Option<Typed>, AllocError>
    ensures { IfOk result (λ t. t ≡ spec.type_of body.now) }
{
    if body.entity.is_none() {
        return Ok(None);
    }
    let id = body.id.share()?;
    Ok(Some(typed(of_kind(body.kind, id))))
}
