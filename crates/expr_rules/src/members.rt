// Members of structures and unions (ISO C11 6.7.2.1p13): a walk down through the anonymous ones.
ghost use Rattle.std.specs.Prelude.{◌≡◌, IfOk, option_map};
ghost use Rattle.expr_rules.specs.Members as spec;
ghost use Rattle.expr_rules.specs.Shown.{shown};

use crate::kinds::{both_quals, is_array};
use std::alloc::{AllocError, Global};
use type_data::{CType, Layout, Member, Node, Qual, TagId, Tags};
use type_rel::{deeper, is_inside, most_tags};

/// A member that was found: its type, its qualifiers and those of the anonymous structures round it, its width, and its place
/// from the front in bits where the layouts tell it.
#[derive(Clone, Copy)]
pub(crate) struct Found<'a> {
    pub ty: &'a CType,
    pub qual: Qual,
    pub width: Option<u8>,
    pub place: Option<u128>,
}

fn first_place(places: &[u64]) -> Option<u128>
    ensures { result ≡ spec.first_place places.now }
{
    match places.split_first() {
        Some((place, _)) => Some(*place as u128),
        None => None,
    }
}

fn other_places(places: &[u64]) -> &[u64]
    ensures { result.now ≡ spec.other_places places.now }
{
    match places.split_first() {
        Some((_, others)) => others,
        None => places,
    }
}

// Of two places that are there.
#[tactic(auto, unfolding(crate::specs::Members::small))]
fn sum(a: Option<u128>, b: Option<u128>) -> Option<u128>
    ensures { result ≡ spec.sum a b }
{
    let Some(a) = a else {
        return None;
    };
    let Some(b) = b else {
        return None;
    };
    if b <= u128::MAX - a {
        return Some(a + b);
    }
    None
}

fn within<'a>(member: &Member, place: Option<u128>, found: Option<Found<'a>>) -> Option<Found<'a>>
    ensures { option_map shown result ≡ spec.within member.now place (option_map shown found.entry) }
{
    match found {
        Some(found) => Some(Found {
            ty: found.ty,
            qual: both_quals(member.qual, found.qual),
            width: found.width,
            place: sum(place, found.place),
        }),
        None => None,
    }
}

fn itself<'a>(member: &'a Member, place: Option<u128>) -> Found<'a>
    ensures { shown result ≡ spec.itself member.now place }
{
    Found {
        ty: &member.ty,
        qual: member.qual,
        width: member.width,
        place,
    }
}

/// What a walk is about: the tags, those that it is inside of, the name that it looks for, and how deep it may still go.
#[derive(Clone, Copy)]
struct Walk<'a, 'b> {
    tags: &'a Tags,
    inside: &'b [TagId],
    name: &'b str,
    bound: u64,
}

#[cycle(members)]
fn named<'a>(
    alloc: Global,
    walk: &Walk<'a, '_>,
    member: &'a Member,
    place: Option<u128>,
) -> Result<Option<Found<'a>>, AllocError>
    ensures { IfOk result (λ f. option_map shown f ≡ spec.named (λ other. spec.member_in walk.now.bound walk.now.tags.now walk.now.inside.now walk.now.name.now other) walk.now.name.now member.now place member.now.name) }
{
    if let Some(own) = &member.name {
        if own.as_str() == walk.name {
            return Ok(Some(itself(member, place)));
        }
        return Ok(None);
    }
    match member.ty.node() {
        Node::Tagged(id) => {
            let found = member_in(alloc, walk, id)?;
            Ok(within(member, place, found))
        }
        _ => Ok(None),
    }
}

#[cycle(members)]
fn among<'a>(
    alloc: Global,
    walk: &Walk<'a, '_>,
    members: &'a [Member],
    places: &[u64],
) -> Result<Option<Found<'a>>, AllocError>
    ensures { IfOk result (λ f. option_map shown f ≡ spec.among (λ other. spec.member_in walk.now.bound walk.now.tags.now walk.now.inside.now walk.now.name.now other) walk.now.name.now members.now places.now) }
{
    let mut rest = members;
    let mut left = places;
    'members: while let Some((member, others)) = rest.split_first() {
        let here = named(alloc, walk, member, first_place(left))?;
        if let Some(found) = here {
            return Ok(Some(found));
        }
        rest = others;
        left = other_places(left);
    }
    Ok(None)
}

#[cycle(members)]
fn member_in<'a>(
    alloc: Global,
    walk: &Walk<'a, '_>,
    id: &TagId,
) -> Result<Option<Found<'a>>, AllocError>
    ensures { IfOk result (λ f. option_map shown f ≡ spec.member_in walk.now.bound walk.now.tags.now walk.now.inside.now walk.now.name.now id.now) }
{
    if walk.bound == 0 {
        return Ok(None);
    }
    if is_inside(walk.inside, id) {
        return Ok(None);
    }
    let Some(info) = walk.tags.get(id) else {
        return Ok(None);
    };
    let Some(members) = &info.members else {
        return Ok(None);
    };
    let inside = deeper(alloc, walk.inside, id)?;
    let below = Walk {
        tags: walk.tags,
        inside: inside.as_slice(),
        name: walk.name,
        bound: walk.bound - 1,
    };
    match &info.layout {
        Some(layout) => among(alloc, &below, members.as_slice(), layout.offsets()),
        None => {
            let places: [u64; 0] = [];
            among(alloc, &below, members.as_slice(), places.as_slice())
        }
    }
}

/// The member of a structure or union with this name.
#[tactic(auto, unfolding(crate::specs::Members::member))]
pub(crate) fn member<'a>(
    alloc: Global,
    tags: &'a Tags,
    name: &str,
    id: &TagId,
) -> Result<Option<Found<'a>>, AllocError>
    ensures { IfOk result (λ f. option_map shown f ≡ spec.member tags.now name.now id.now) }
{
    let inside = Vec::new(alloc);
    let walk = Walk {
        tags,
        inside: inside.as_slice(),
        name,
        bound: most_tags(),
    };
    member_in(alloc, &walk, id)
}
