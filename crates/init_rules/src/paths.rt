// Where a structure or union has the member that a designator names (ISO C11 6.7.9p7, 6.7.2.1p13).
ghost use Rattle.std.specs.Prelude;
ghost use Rattle.std.specs.Prelude.{◌≡◌, ◌∷◌, [], IfOk};
ghost use Rattle.init_rules.specs.Paths as spec;

use crate::parts::{after, members_from};
use crate::stack::Stack;
use std::alloc::{AllocError, Global};
use type_data::{Member, Node, TagId, Tags};
use type_rel::{deeper, is_inside, most_tags};

/// The numbers of the members on the way, the outermost on top.
pub(crate) type Path = Stack<u128>;

/// What a walk is about: the tags, those that it is inside of, the name that it looks for, and how deep it may still go.
#[derive(Clone, Copy)]
struct Walk<'a, 'b> {
    tags: &'a Tags,
    inside: &'b [TagId],
    name: &'b str,
    bound: u64,
}

fn with_front(path: Option<Path>, number: u128) -> Result<Option<Path>, AllocError>
    ensures { IfOk result (λ p. p ≡ spec.below number path) }
{
    match path {
        Some(path) => {
            let mut path = path;
            path.push(number)?;
            Ok(Some(path))
        }
        None => Ok(None),
    }
}

fn itself(alloc: Global, number: u128) -> Result<Option<Path>, AllocError>
    ensures { IfOk result (λ p. p ≡ spec.below number (Prelude.Some [])) }
{
    let mut path = Stack::new(alloc);
    path.push(number)?;
    Ok(Some(path))
}

#[cycle(members)]
fn named(
    alloc: Global,
    walk: &Walk<'_, '_>,
    member: &Member,
    number: u128,
) -> Result<Option<Path>, AllocError>
    ensures { IfOk result (λ p. p ≡ spec.named (λ other. spec.path_in walk.now.bound walk.now.tags.now walk.now.inside.now walk.now.name.now other) walk.now.name.now number member.now.ty member.now.name) }
{
    if let Some(own) = &member.name {
        if own.as_str() == walk.name {
            return itself(alloc, number);
        }
        return Ok(None);
    }
    match member.ty.node() {
        Node::Tagged(id) => {
            let path = path_in(alloc, walk, id)?;
            with_front(path, number)
        }
        _ => Ok(None),
    }
}

#[cycle(members)]
fn among(
    alloc: Global,
    walk: &Walk<'_, '_>,
    members: &[Member],
    number: u128,
) -> Result<Option<Path>, AllocError>
    ensures { IfOk result (λ p. p ≡ spec.among (λ other. spec.path_in walk.now.bound walk.now.tags.now walk.now.inside.now walk.now.name.now other) walk.now.name.now number members.now) }
{
    let mut rest = members;
    let mut at = number;
    'members: while let Some((member, others)) = rest.split_first() {
        let here = named(alloc, walk, member, at)?;
        if let Some(path) = here {
            return Ok(Some(path));
        }
        rest = others;
        at = after(at);
    }
    Ok(None)
}

#[cycle(members)]
fn path_in(alloc: Global, walk: &Walk<'_, '_>, id: &TagId) -> Result<Option<Path>, AllocError>
    ensures { IfOk result (λ p. p ≡ spec.path_in walk.now.bound walk.now.tags.now walk.now.inside.now walk.now.name.now id.now) }
{
    if walk.bound == 0 {
        return Ok(None);
    }
    if is_inside(walk.inside, id) {
        return Ok(None);
    }
    let Some(info) = walk.tags.get(id) else {
        return Ok(None);
    };
    let Some(members) = &info.members else {
        return Ok(None);
    };
    let inside = deeper(alloc, walk.inside, id)?;
    let below = Walk {
        tags: walk.tags,
        inside: inside.as_slice(),
        name: walk.name,
        bound: walk.bound - 1,
    };
    among(alloc, &below, members.as_slice(), 0)
}

fn from_next(
    alloc: Global,
    walk: &Walk<'_, '_>,
    members: &[Member],
    next: u128,
) -> Result<Option<Path>, AllocError>
    ensures { IfOk result (λ p. p ≡ spec.from_next (λ other. spec.path_in walk.now.bound walk.now.tags.now walk.now.inside.now walk.now.name.now other) walk.now.name.now next (Prelude.Some members.now)) }
{
    let behind = among(alloc, walk, members_from(members, next), next)?;
    if let Some(path) = behind {
        return Ok(Some(path));
    }
    among(alloc, walk, members, 0)
}

/// The way to the member of a structure or union with this name.
#[tactic(auto, unfolding(crate::specs::Paths::path))]
pub(crate) fn path(
    alloc: Global,
    tags: &Tags,
    name: &str,
    next: u128,
    id: &TagId,
) -> Result<Option<Path>, AllocError>
    ensures { IfOk result (λ p. p ≡ spec.path tags.now name.now next id.now) }
{
    let Some(info) = tags.get(id) else {
        return Ok(None);
    };
    let Some(members) = &info.members else {
        return Ok(None);
    };
    let none = Vec::new(alloc);
    let inside = deeper(alloc, none.as_slice(), id)?;
    let walk = Walk {
        tags,
        inside: inside.as_slice(),
        name,
        bound: most_tags(),
    };
    from_next(alloc, &walk, members.as_slice(), next)
}
