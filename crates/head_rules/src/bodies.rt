// Tags with a body (ISO C11 6.7.2.3).
ghost use Rattle.std.specs.Prelude.{◌≡◌, IfOk, option_map};
ghost use Rattle.head_rules.specs.Bodies as spec;

use crate::faults::of_name;
use crate::naming::NameToken;
use crate::outcomes::Begun;
use scope_tables::{Entity, EntityKind};
use shared_list::Listing;
use shared_text::Name;
use std::alloc::{AllocError, Global};
use type_data::{Layout, Member, Members, TagId, TagInfo, TagKind, Tags};
use type_rel::{has_members, is_inside, layout};

fn same_kind(a: TagKind, b: TagKind) -> bool
    ensures { result ≡ spec.same_kind a b }
{
    match a {
        TagKind::Struct => match b {
            TagKind::Struct => true,
            TagKind::Union => false,
            TagKind::Enum => false,
        },
        TagKind::Union => match b {
            TagKind::Union => true,
            TagKind::Struct => false,
            TagKind::Enum => false,
        },
        TagKind::Enum => match b {
            TagKind::Enum => true,
            TagKind::Struct => false,
            TagKind::Union => false,
        },
    }
}

fn is_defined(tags: &Tags, round: &[TagId], id: &TagId) -> bool
    ensures { result ≡ spec.is_defined tags.now round.now id.now }
{
    is_inside(round, id) || has_members(tags, id)
}

fn again(
    alloc: Global,
    name: &NameToken,
    tags: &Tags,
    round: &[TagId],
    id: &TagId,
) -> Result<Begun, AllocError>
    ensures { IfOk result (λ b. b ≡ spec.again name.now tags.now round.now id.now) }
{
    if is_defined(tags, round, id) {
        let fault = of_name(alloc, 413, name.id.at, &name.name)?;
        return Ok(Begun::Refused(fault));
    }
    let id = id.share()?;
    Ok(Begun::Again(id))
}

fn by_kind(
    alloc: Global,
    kind: TagKind,
    name: &NameToken,
    tags: &Tags,
    round: &[TagId],
    has: &EntityKind,
) -> Result<Begun, AllocError>
    ensures { IfOk result (λ b. b ≡ spec.by_kind kind name.now tags.now round.now has.now) }
{
    match has {
        EntityKind::Tag(id, info) => {
            if same_kind(info.kind, kind) {
                return again(alloc, name, tags, round, id);
            }
            let fault = of_name(alloc, 412, name.id.at, &name.name)?;
            Ok(Begun::Refused(fault))
        }
        EntityKind::Object => Ok(Begun::New),
        EntityKind::Function => Ok(Begun::New),
        EntityKind::Typedef => Ok(Begun::New),
        EntityKind::Enumerator => Ok(Begun::New),
        EntityKind::Member => Ok(Begun::New),
        EntityKind::Label => Ok(Begun::New),
    }
}

/// Which tag `struct T {`, `union T {` or `enum T {` defines (ISO C11 6.7.2.3): the one that its scope has under this name (`before`),
/// else a new one. Its fault is 412 where that is of another kind (p2), 413 where it is defined (p1), or `round`, the tags whose bodies
/// stand round this one, has it.
pub fn begin_body(
    alloc: Global,
    kind: TagKind,
    name: &NameToken,
    before: Option<&Entity>,
    tags: &Tags,
    round: &[TagId],
) -> Result<Begun, AllocError>
    ensures { IfOk result (λ b. b ≡ spec.begun kind name.now (option_map (λ e. e.now) before.entry) tags.now round.now) }
{
    match before {
        Some(entity) => by_kind(alloc, kind, name, tags, round, &entity.kind),
        None => Ok(Begun::New),
    }
}

fn laid(
    alloc: Global,
    kind: TagKind,
    members: &[Member],
    tags: &Tags,
) -> Result<Option<Layout>, AllocError>
    ensures { IfOk result (λ l. l ≡ spec.laid kind members.now tags.now) }
{
    match kind {
        TagKind::Struct => layout(alloc, TagKind::Struct, members, tags),
        TagKind::Union => layout(alloc, TagKind::Union, members, tags),
        TagKind::Enum => Ok(None),
    }
}

/// What is known of a tag behind its body (ISO C11 6.7.2.3p4): it is complete, and a structure or union has the layout that
/// `type_rel` gives its members.
pub fn completed(
    alloc: Global,
    kind: TagKind,
    name: Option<Name>,
    members: Listing<Member>,
    tags: &Tags,
) -> Result<TagInfo, AllocError>
    ensures { IfOk result (λ i. i ≡ spec.completed kind name members tags.now) }
{
    let layout = laid(alloc, kind, members.as_slice(), tags)?;
    let members = Members::from_vec(alloc, members.into_vec())?;
    Ok(TagInfo {
        kind,
        name,
        members: Some(members),
        layout,
    })
}
