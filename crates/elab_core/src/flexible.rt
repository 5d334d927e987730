// Structures with a flexible array member, and unions that hold one (ISO C11 6.7.2.1p3, p18).
ghost use Rattle.std.specs.Prelude.{◌≡◌, IfOk, option_map};
ghost use Rattle.elab_core.specs.Flexible as spec;

use std::alloc::{AllocError, Global};
use type_data::{CType, Member, Node, TagId, TagInfo, TagKind, Tags};
use type_rel::{deeper, is_inside, is_open_array, most_tags};

/// What a walk is about: the tags, those that it is inside of, and how deep it may still go.
#[derive(Clone, Copy)]
struct Walk<'a, 'b> {
    tags: &'a Tags,
    inside: &'b [TagId],
    bound: u64,
}

fn ends_open(members: &[Member]) -> bool
    ensures { result ≡ spec.ends_open members.now }
{
    let mut open = false;
    let mut rest = members;
    'members: while let Some((member, others)) = rest.split_first() {
        open = is_open_array(&member.ty);
        rest = others;
    }
    open
}

#[cycle(flexible)]
fn of_type(alloc: Global, walk: &Walk<'_, '_>, ty: &CType) -> Result<bool, AllocError>
    ensures { IfOk result (λ b. b ≡ spec.of_type (λ id. spec.flexible_in walk.now.bound walk.now.tags.now walk.now.inside.now id) ty.now) }
{
    match ty.node() {
        Node::Tagged(id) => flexible_in(alloc, walk, id),
        Node::Void => Ok(false),
        Node::Basic(_) => Ok(false),
        Node::Enumerated(_) => Ok(false),
        Node::Pointer(_, _) => Ok(false),
        Node::Array(_, _, _) => Ok(false),
        Node::Function(_, _, _) => Ok(false),
        Node::Bad => Ok(false),
    }
}

#[cycle(flexible)]
fn holds_open(alloc: Global, walk: &Walk<'_, '_>, members: &[Member]) -> Result<bool, AllocError>
    ensures { IfOk result (λ b. b ≡ spec.holds_open (λ id. spec.flexible_in walk.now.bound walk.now.tags.now walk.now.inside.now id) members.now) }
{
    let mut rest = members;
    'members: while let Some((member, others)) = rest.split_first() {
        if of_type(alloc, walk, &member.ty)? {
            return Ok(true);
        }
        rest = others;
    }
    Ok(false)
}

#[cycle(flexible)]
fn of_info(alloc: Global, walk: &Walk<'_, '_>, info: &TagInfo) -> Result<bool, AllocError>
    ensures { IfOk result (λ b. b ≡ spec.of_members (λ id. spec.flexible_in walk.now.bound walk.now.tags.now walk.now.inside.now id) info.now.kind info.now.members) }
{
    let Some(members) = &info.members else {
        return Ok(false);
    };
    match info.kind {
        TagKind::Struct => Ok(ends_open(members.as_slice())),
        TagKind::Union => holds_open(alloc, walk, members.as_slice()),
        TagKind::Enum => Ok(false),
    }
}

#[cycle(flexible)]
fn flexible_in(alloc: Global, walk: &Walk<'_, '_>, id: &TagId) -> Result<bool, AllocError>
    ensures { IfOk result (λ b. b ≡ spec.flexible_in walk.now.bound walk.now.tags.now walk.now.inside.now id.now) }
{
    if walk.bound == 0 {
        return Ok(false);
    }
    if is_inside(walk.inside, id) {
        return Ok(false);
    }
    let Some(info) = walk.tags.get(id) else {
        return Ok(false);
    };
    let inside = deeper(alloc, walk.inside, id)?;
    let below = Walk {
        tags: walk.tags,
        inside: inside.as_slice(),
        bound: walk.bound - 1,
    };
    of_info(alloc, &below, info)
}

/// Whether a type is a structure with a flexible array member, or a union that holds one at any depth.
#[tactic(auto, unfolding(crate::specs::Flexible::is_flexible))]
pub(crate) fn is_flexible(alloc: Global, tags: &Tags, ty: &CType) -> Result<bool, AllocError>
    ensures { IfOk result (λ b. b ≡ spec.is_flexible tags.now ty.now) }
{
    let walk = Walk {
        tags,
        inside: &[],
        bound: most_tags(),
    };
    of_type(alloc, &walk, ty)
}
