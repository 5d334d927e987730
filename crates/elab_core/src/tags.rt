// Tags without a body, and typedef names, as type specifiers (ISO C11 6.7.2.3, 6.7.8).
ghost use Rattle.std.specs.Prelude.{◌≡◌, IfOk, OnOk, option_map};
ghost use Rattle.elab_core.specs.Specifiers;
ghost use Rattle.elab_core.specs.Tags as spec;
ghost use Rattle.elab_state.specs.Comes.{Comes};
ghost use Rattle.elab_state.specs.Contexts.{own_tag as own_tag_of};
ghost use Rattle.elab_state.specs.Looks as looks;
ghost use Rattle.elab_state.specs.Seen.{context_of, told_of};
ghost use Rattle.elab_state.specs.Tokens.{spelling as spelling_of};

use crate::names::found_at;
use crate::operators::keyword_kind;
use crate::shapes::Typed;
use elab_state::{
    Around, Halt, Made, bind, denoted, mark, name_at, own_tag, own_token, spelling, tell,
    use_entity,
};
use scope_tables::{Anchor, Binding, Entity, EntityKind, Life, Linkage, Role};
use shared_list::Listing;
use shared_text::Name;
use std::alloc::{AllocError, Global};
use type_data::{CType, Fault, Node, Space, TagId, TagInfo, TagKind};
use type_rel::{UNQUALIFIED, has_members};

pub(crate) fn typed(ty: CType) -> Typed
    ensures { result ≡ Specifiers.unqualified_type ty }
{
    Typed {
        ty,
        qual: UNQUALIFIED,
    }
}

fn named_type(entity: &Entity) -> Result<Option<Typed>, AllocError>
    ensures { IfOk result (λ t. t ≡ spec.named_type entity.now.kind entity.now) }
{
    match &entity.kind {
        EntityKind::Typedef => {
            let ty = entity.ty.share()?;
            Ok(Some(Typed {
                ty,
                qual: entity.qual,
            }))
        }
        EntityKind::Object => Ok(None),
        EntityKind::Function => Ok(None),
        EntityKind::Tag(_, _) => Ok(None),
        EntityKind::Enumerator => Ok(None),
        EntityKind::Member => Ok(None),
        EntityKind::Label => Ok(None),
    }
}

fn typedef_found(
    around: &Around<'_>,
    made: &mut Made,
    counted: bool,
    at: u32,
    entity: &Option<Entity>,
) -> Result<Option<Typed>, AllocError>
    ensures { IfOk result (λ t. (t, made.new) ≡ spec.typedef_found (context_of around.now) counted at entity.now made.old) }
{
    match entity {
        Some(entity) => {
            let typed = named_type(entity)?;
            let Ok(()) = use_entity(around, made, counted, at, entity) else {
                drop(typed);
                return Err(AllocError);
            };
            Ok(typed)
        }
        None => Ok(None),
    }
}

/// The type of a typedef name, which is used there; none where it denotes something else.
pub fn typedef_name(
    alloc: Global,
    around: &Around<'_>,
    made: &mut Made,
    counted: bool,
    at: u32,
) -> Result<Option<Typed>, Halt>
    ensures { Comes (told_of around.now) (spec.typedef_name (context_of around.now) counted at made.old) (λ t. t) result made.new }
{
    let entity = match found_at(alloc, around, made, Space::Ordinary, at) {
        Ok(entity) => entity,
        Err(halt) => return Err(halt),
    };
    match typedef_found(around, made, counted, at, &entity) {
        Ok(typed) => {
            drop(entity);
            Ok(typed)
        }
        Err(_) => {
            drop(entity);
            Err(Halt::NoMemory)
        }
    }
}

pub(crate) fn same_kind(a: TagKind, b: TagKind) -> bool
    ensures { result ≡ spec.same_kind a b }
{
    match a {
        TagKind::Struct => match b {
            TagKind::Struct => true,
            TagKind::Union => false,
            TagKind::Enum => false,
        },
        TagKind::Union => match b {
            TagKind::Union => true,
            TagKind::Struct => false,
            TagKind::Enum => false,
        },
        TagKind::Enum => match b {
            TagKind::Enum => true,
            TagKind::Struct => false,
            TagKind::Union => false,
        },
    }
}

pub(crate) fn of_kind(kind: TagKind, id: TagId) -> CType
    ensures { result ≡ spec.of_kind kind id }
{
    match kind {
        TagKind::Struct => CType::of(Node::Tagged(id)),
        TagKind::Union => CType::of(Node::Tagged(id)),
        TagKind::Enum => CType::of(Node::Enumerated(id)),
    }
}

fn unknown_info(kind: TagKind, name: &Name) -> Result<TagInfo, AllocError>
    ensures { IfOk result (λ i. i ≡ spec.unknown_info kind name.now) }
{
    let name = name.share()?;
    Ok(TagInfo {
        kind,
        name: Some(name),
        members: None,
        layout: None,
    })
}

pub(crate) fn tag_entity(
    alloc: Global,
    around: &Around<'_>,
    kind: TagKind,
    at: u32,
) -> Result<Entity, AllocError>
    ensures { IfOk result (λ e. e ≡ spec.tag_entity (context_of around.now) kind at) }
{
    let name = name_at(alloc, around.tokens, at)?;
    let tok = own_token(around, at)?;
    let id = own_tag(around, at)?;
    let info = unknown_info(kind, &name)?;
    let ty = of_kind(kind, own_tag(around, at)?);
    Ok(Entity {
        name,
        kind: EntityKind::Tag(id, info),
        ty,
        qual: UNQUALIFIED,
        linkage: Linkage::None,
        life: Life::Without,
        value: None,
        anchor: Anchor::Local(tok),
    })
}

pub(crate) fn bind_tag(alloc: Global, made: &mut Made, entity: &Entity) -> Result<(), AllocError>
    ensures { OnOk result (made.new ≡ spec.bound_tag entity.now made.old) }
{
    let name = entity.name.share()?;
    let copy = entity.share(alloc)?;
    bind(
        alloc,
        made,
        Binding {
            space: Space::Tags,
            name,
            entity: copy,
        },
    )
}

pub(crate) fn know_tag(
    around: &Around<'_>,
    made: &mut Made,
    kind: TagKind,
    at: u32,
    name: &Name,
) -> Result<(), AllocError>
    ensures { OnOk result (made.new ≡ looks.with_tag (own_tag_of (context_of around.now) at) (spec.unknown_info kind name.now) made.old) }
{
    let id = own_tag(around, at)?;
    let info = unknown_info(kind, name)?;
    made.tags.insert(id, info)?;
    Ok(())
}

fn declare_tag(
    alloc: Global,
    around: &Around<'_>,
    made: &mut Made,
    kind: TagKind,
    at: u32,
    entity: Entity,
) -> Result<(), AllocError>
    ensures { OnOk result (made.new ≡ spec.declared_tag (context_of around.now) kind at entity made.old) }
{
    let Ok(()) = mark(around, made, at, &entity.anchor, Role::Declares) else {
        drop(entity);
        return Err(AllocError);
    };
    let Ok(()) = bind_tag(alloc, made, &entity) else {
        drop(entity);
        return Err(AllocError);
    };
    let Ok(()) = know_tag(around, made, kind, at, &entity.name) else {
        drop(entity);
        return Err(AllocError);
    };
    made.entities.push(entity)?;
    Ok(())
}

pub(crate) fn new_tag(
    alloc: Global,
    around: &Around<'_>,
    made: &mut Made,
    kind: TagKind,
    at: u32,
) -> Result<Option<Typed>, AllocError>
    ensures { IfOk result (λ t. (t, made.new) ≡ spec.new_tag (context_of around.now) kind at made.old) }
{
    let id = own_tag(around, at)?;
    let entity = tag_entity(alloc, around, kind, at)?;
    declare_tag(alloc, around, made, kind, at, entity)?;
    Ok(Some(typed(of_kind(kind, id))))
}

// A fault that prints the tag.
pub(crate) fn note_tag(
    alloc: Global,
    around: &Around<'_>,
    made: &mut Made,
    rule: u16,
    at: u32,
) -> Result<(), AllocError>
    ensures { OnOk result (made.new ≡ spec.tag_fault rule (context_of around.now) at made.old) }
{
    let name = name_at(alloc, around.tokens, at)?;
    let names = vec![in alloc; name]?;
    made.faults.push(Fault {
        rule,
        at,
        names: Listing::from_vec(names),
        types: Listing::from_vec(Vec::new(alloc)),
    })?;
    Ok(())
}

fn not_visible(
    alloc: Global,
    around: &Around<'_>,
    made: &mut Made,
    kind: TagKind,
    at: u32,
) -> Result<Option<Typed>, AllocError>
    ensures { IfOk result (λ t. (t, made.new) ≡ spec.not_visible (context_of around.now) kind at made.old) }
{
    match kind {
        TagKind::Struct => new_tag(alloc, around, made, TagKind::Struct, at),
        TagKind::Union => new_tag(alloc, around, made, TagKind::Union, at),
        TagKind::Enum => {
            note_tag(alloc, around, made, 414, at)?;
            Ok(None)
        }
    }
}

fn enum_now(
    alloc: Global,
    around: &Around<'_>,
    made: &mut Made,
    at: u32,
    id: &TagId,
) -> Result<Option<Typed>, AllocError>
    ensures { IfOk result (λ t. (t, made.new) ≡ spec.enum_now (context_of around.now) at id.now made.old) }
{
    if has_members(&made.tags, id) {
        let id = id.share()?;
        return Ok(Some(typed(CType::of(Node::Enumerated(id)))));
    }
    note_tag(alloc, around, made, 414, at)?;
    Ok(None)
}

fn visible_enum(
    alloc: Global,
    around: &Around<'_>,
    made: &mut Made,
    at: u32,
    id: &TagId,
) -> Result<Option<Typed>, Halt>
    ensures { Comes (told_of around.now) (spec.visible_enum (context_of around.now) at id.now made.old) (λ t. t) result made.new }
{
    match tell(alloc, around, made, id) {
        Ok(()) => (),
        Err(halt) => return Err(halt),
    }
    match enum_now(alloc, around, made, at, id) {
        Ok(typed) => Ok(typed),
        Err(_) => Err(Halt::NoMemory),
    }
}

fn tagged(id: &TagId) -> Result<Option<Typed>, Halt>
    ensures { IfOk result (λ t. t ≡ spec.tagged id.now) }
{
    match id.share() {
        Ok(id) => Ok(Some(typed(CType::of(Node::Tagged(id))))),
        Err(_) => Err(Halt::NoMemory),
    }
}

fn visible_tag(
    alloc: Global,
    around: &Around<'_>,
    made: &mut Made,
    kind: TagKind,
    at: u32,
    id: &TagId,
) -> Result<Option<Typed>, Halt>
    ensures { Comes (told_of around.now) (spec.visible_tag (context_of around.now) kind at id.now made.old) (λ t. t) result made.new }
{
    match kind {
        TagKind::Struct => match tagged(id) {
            Ok(typed) => Ok(typed),
            Err(_) => Err(Halt::NoMemory),
        },
        TagKind::Union => match tagged(id) {
            Ok(typed) => Ok(typed),
            Err(_) => Err(Halt::NoMemory),
        },
        TagKind::Enum => visible_enum(alloc, around, made, at, id),
    }
}

fn of_other_kind(
    alloc: Global,
    around: &Around<'_>,
    made: &mut Made,
    at: u32,
    anchor: &Anchor,
) -> Result<(), AllocError>
    ensures { OnOk result (made.new ≡ spec.other_kind (context_of around.now) at anchor.now made.old) }
{
    note_tag(alloc, around, made, 412, at)?;
    mark(around, made, at, anchor, Role::Uses)
}

fn mentioned_tag(
    alloc: Global,
    around: &Around<'_>,
    made: &mut Made,
    kind: TagKind,
    at: u32,
    anchor: &Anchor,
    id: &TagId,
    had: TagKind,
) -> Result<Option<Typed>, Halt>
    ensures { Comes (told_of around.now) (spec.mentioned_tag (context_of around.now) kind at anchor.now id.now had made.old) (λ t. t) result made.new }
{
    if same_kind(had, kind) {
        let Ok(()) = mark(around, made, at, anchor, Role::Uses) else {
            return Err(Halt::NoMemory);
        };
        return visible_tag(alloc, around, made, kind, at, id);
    }
    let Ok(()) = of_other_kind(alloc, around, made, at, anchor) else {
        return Err(Halt::NoMemory);
    };
    Ok(None)
}

// What a name denotes among tags, as far as it is asked.
#[derive(Drop)]
pub(crate) enum Mention {
    Nothing,
    // Something else.
    Other,
    // By what its occurrences are told, the tag, and its kind.
    Tag(Anchor, TagId, TagKind),
}

pub(crate) fn mention_of(entity: Option<&Entity>) -> Result<Mention, AllocError>
    ensures { IfOk result (λ mention. mention ≡ spec.mention_of (option_map (λ e. e.now) entity.entry)) }
{
    let Some(entity) = entity else {
        return Ok(Mention::Nothing);
    };
    match &entity.kind {
        EntityKind::Tag(id, info) => {
            let anchor = entity.anchor.share()?;
            let id = id.share()?;
            Ok(Mention::Tag(anchor, id, info.kind))
        }
        EntityKind::Object => Ok(Mention::Other),
        EntityKind::Function => Ok(Mention::Other),
        EntityKind::Typedef => Ok(Mention::Other),
        EntityKind::Enumerator => Ok(Mention::Other),
        EntityKind::Member => Ok(Mention::Other),
        EntityKind::Label => Ok(Mention::Other),
    }
}

// What a name denotes among tags, without a copy of a tag's members.
fn mentioned(around: &Around<'_>, made: &Made, name: &Name) -> Result<Mention, Halt>
    ensures { Comes (told_of around.now) (spec.mentioned (context_of around.now) name.now made.now) (λ mention. mention) result made.now }
{
    match denoted(around, made, Space::Tags, name) {
        Ok(entity) => match mention_of(entity) {
            Ok(mention) => Ok(mention),
            Err(_) => Err(Halt::NoMemory),
        },
        Err(halt) => Err(halt),
    }
}

fn tag_found(
    alloc: Global,
    around: &Around<'_>,
    made: &mut Made,
    kind: TagKind,
    at: u32,
    mention: &Mention,
) -> Result<Option<Typed>, Halt>
    ensures { Comes (told_of around.now) (spec.tag_found (context_of around.now) kind at mention.now made.old) (λ t. t) result made.new }
{
    match mention {
        Mention::Tag(anchor, id, had) => {
            mentioned_tag(alloc, around, made, kind, at, anchor, id, *had)
        }
        Mention::Other => Ok(None),
        Mention::Nothing => match not_visible(alloc, around, made, kind, at) {
            Ok(typed) => Ok(typed),
            Err(_) => Err(Halt::NoMemory),
        },
    }
}

fn mentioned_at(alloc: Global, around: &Around<'_>, made: &Made, at: u32) -> Result<Mention, Halt>
    ensures { Comes (told_of around.now) (spec.mentioned (context_of around.now) (spelling_of (context_of around.now).tokens at) made.now) (λ mention. mention) result made.now }
{
    let Ok(name) = name_at(alloc, around.tokens, at) else {
        return Err(Halt::NoMemory);
    };
    mentioned(around, made, &name)
}

fn tag_behind(
    alloc: Global,
    around: &Around<'_>,
    made: &mut Made,
    keyword: u32,
    at: u32,
    mention: &Mention,
) -> Result<Option<Typed>, Halt>
    ensures { Comes (told_of around.now) (spec.tag_found (context_of around.now) (spec.keyword_kind (spelling_of (context_of around.now).tokens keyword)) at mention.now made.old) (λ t. t) result made.new }
{
    let kind = keyword_kind(spelling(around.tokens, keyword));
    tag_found(alloc, around, made, kind, at, mention)
}

/// The type of a tag behind its keyword: that of the visible tag, or of a new one, which is declared in the innermost scope; none where it
/// has a fault, which is noted: 412 for a tag of another kind, 414 for an enumeration that isn't complete.
pub fn tag(
    alloc: Global,
    around: &Around<'_>,
    made: &mut Made,
    keyword: u32,
    at: u32,
) -> Result<Option<Typed>, Halt>
    ensures { Comes (told_of around.now) (spec.tag (context_of around.now) keyword at made.old) (λ t. t) result made.new }
{
    let mention = match mentioned_at(alloc, around, made, at) {
        Ok(mention) => mention,
        Err(halt) => return Err(halt),
    };
    tag_behind(alloc, around, made, keyword, at, &mention)
}
