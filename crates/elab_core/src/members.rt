// Which member a name means (ISO C11 6.5.2.3, 6.7.2.1p13).
ghost use Rattle.std.specs.Prelude.{◌≡◌, IfOk, option_map};
ghost use Rattle.elab_core.specs.Members as spec;

use elab_state::token;
use scope_tables::{Anchor, item_file};
use std::alloc::{AllocError, Global};
use type_data::{CType, Member, Node, TagId, Tags};
use type_rel::{deeper, is_inside, most_tags};

/// What a walk is about: the tags, those that it is inside of, the name that it looks for, and how deep it may still go.
#[derive(Clone, Copy)]
struct Walk<'a, 'b> {
    tags: &'a Tags,
    inside: &'b [TagId],
    name: &'b str,
    bound: u64,
}

#[cycle(members)]
fn of_type<'a>(
    alloc: Global,
    walk: &Walk<'a, '_>,
    ty: &CType,
) -> Result<Option<&'a Member>, AllocError>
    ensures { IfOk result (λ m. option_map (λ one. one.now) m ≡ spec.of_type (λ id. spec.member_in walk.now.bound walk.now.tags.now walk.now.inside.now walk.now.name.now id) ty.now) }
{
    match ty.node() {
        Node::Tagged(id) => member_in(alloc, walk, id),
        Node::Void => Ok(None),
        Node::Basic(_) => Ok(None),
        Node::Enumerated(_) => Ok(None),
        Node::Pointer(_, _) => Ok(None),
        Node::Array(_, _, _) => Ok(None),
        Node::Function(_, _, _) => Ok(None),
        Node::Bad => Ok(None),
    }
}

#[cycle(members)]
fn named<'a>(
    alloc: Global,
    walk: &Walk<'a, '_>,
    member: &'a Member,
) -> Result<Option<&'a Member>, AllocError>
    ensures { IfOk result (λ m. option_map (λ one. one.now) m ≡ spec.named (λ id. spec.member_in walk.now.bound walk.now.tags.now walk.now.inside.now walk.now.name.now id) walk.now.name.now member.now member.now.name) }
{
    if let Some(own) = &member.name {
        if own.as_str() == walk.name {
            return Ok(Some(member));
        }
        return Ok(None);
    }
    of_type(alloc, walk, &member.ty)
}

#[cycle(members)]
fn among<'a>(
    alloc: Global,
    walk: &Walk<'a, '_>,
    members: &'a [Member],
) -> Result<Option<&'a Member>, AllocError>
    ensures { IfOk result (λ m. option_map (λ one. one.now) m ≡ spec.among (λ id. spec.member_in walk.now.bound walk.now.tags.now walk.now.inside.now walk.now.name.now id) walk.now.name.now members.now) }
{
    let mut rest = members;
    'members: while let Some((member, others)) = rest.split_first() {
        let here = named(alloc, walk, member)?;
        if let Some(found) = here {
            return Ok(Some(found));
        }
        rest = others;
    }
    Ok(None)
}

#[cycle(members)]
fn member_in<'a>(
    alloc: Global,
    walk: &Walk<'a, '_>,
    id: &TagId,
) -> Result<Option<&'a Member>, AllocError>
    ensures { IfOk result (λ m. option_map (λ one. one.now) m ≡ spec.member_in walk.now.bound walk.now.tags.now walk.now.inside.now walk.now.name.now id.now) }
{
    if walk.bound == 0 {
        return Ok(None);
    }
    if is_inside(walk.inside, id) {
        return Ok(None);
    }
    let Some(info) = walk.tags.get(id) else {
        return Ok(None);
    };
    let Some(members) = &info.members else {
        return Ok(None);
    };
    let inside = deeper(alloc, walk.inside, id)?;
    let below = Walk {
        tags: walk.tags,
        inside: inside.as_slice(),
        name: walk.name,
        bound: walk.bound - 1,
    };
    among(alloc, &below, members.as_slice())
}

/// The member that a name means in a structure or union, or in the anonymous ones inside it.
#[tactic(auto, unfolding(crate::specs::Members::member_of))]
pub(crate) fn member_of<'a>(
    alloc: Global,
    tags: &'a Tags,
    name: &str,
    ty: &CType,
) -> Result<Option<&'a Member>, AllocError>
    ensures { IfOk result (λ m. option_map (λ one. one.now) m ≡ spec.member_of tags.now name.now ty.now) }
{
    let inside = Vec::new(alloc);
    let walk = Walk {
        tags,
        inside: inside.as_slice(),
        name,
        bound: most_tags(),
    };
    of_type(alloc, &walk, ty)
}

fn anchored(alloc: Global, at: &Option<TagId>) -> Result<Option<Anchor>, AllocError>
    ensures { IfOk result (λ a. a ≡ spec.anchored at.now) }
{
    match at {
        Some(id) => {
            let file = item_file(alloc, &id.item)?;
            let tok = token(&file, id.at)?;
            Ok(Some(Anchor::Local(tok)))
        }
        None => Ok(None),
    }
}

/// By what the occurrences of a member are told.
pub(crate) fn anchor_of(
    alloc: Global,
    member: Option<&Member>,
) -> Result<Option<Anchor>, AllocError>
    ensures { IfOk result (λ a. a ≡ spec.anchor_of (option_map (λ one. one.now) member.entry)) }
{
    match member {
        Some(member) => anchored(alloc, &member.at),
        None => Ok(None),
    }
}

/// What an operand of `->` points to.
pub(crate) fn pointed(ty: &CType) -> Result<CType, AllocError>
    ensures { IfOk result (λ t. t ≡ spec.pointed ty.now) }
{
    match ty.node() {
        Node::Pointer(to, _) => to.share(),
        Node::Array(of, _, _) => of.share(),
        Node::Function(_, _, _) => Ok(CType::of(Node::Bad)),
        Node::Void => Ok(CType::of(Node::Bad)),
        Node::Basic(_) => Ok(CType::of(Node::Bad)),
        Node::Enumerated(_) => Ok(CType::of(Node::Bad)),
        Node::Tagged(_) => Ok(CType::of(Node::Bad)),
        Node::Bad => Ok(CType::of(Node::Bad)),
    }
}

/// The type of an array's elements.
pub fn element_of(ty: &CType) -> Result<CType, AllocError>
    ensures { IfOk result (λ t. t ≡ spec.element_of ty.now) }
{
    match ty.node() {
        Node::Array(of, _, _) => of.share(),
        Node::Pointer(_, _) => Ok(CType::of(Node::Bad)),
        Node::Function(_, _, _) => Ok(CType::of(Node::Bad)),
        Node::Void => Ok(CType::of(Node::Bad)),
        Node::Basic(_) => Ok(CType::of(Node::Bad)),
        Node::Enumerated(_) => Ok(CType::of(Node::Bad)),
        Node::Tagged(_) => Ok(CType::of(Node::Bad)),
        Node::Bad => Ok(CType::of(Node::Bad)),
    }
}

pub(crate) fn type_of(member: Option<&Member>) -> Result<CType, AllocError>
    ensures { IfOk result (λ t. t ≡ spec.type_of (option_map (λ one. one.now) member.entry)) }
{
    match member {
        Some(member) => member.ty.share(),
        None => Ok(CType::of(Node::Bad)),
    }
}
