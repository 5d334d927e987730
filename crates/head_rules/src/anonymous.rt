// The names of anonymous structures and unions (ISO C11 6.7.2.1p13).
ghost use Rattle.std.specs.Prelude.{◌≡◌, ◌++◌, IfOk, OnOk};
ghost use Rattle.head_rules.specs.Anonymous as spec;

use shared_text::Name;
use std::alloc::{AllocError, Global};
use type_data::{CType, Member, Node, TagId, Tags};
use type_rel::{deeper, is_inside, most_tags};

/// What a walk is about: the tags, those that it is inside of, and how deep it may still go.
#[derive(Clone, Copy)]
struct Walk<'a, 'b> {
    tags: &'a Tags,
    inside: &'b [TagId],
    bound: u64,
}

fn itself(name: &Name, at: &Option<TagId>, out: &mut Vec<(Name, TagId)>) -> Result<(), AllocError>
    ensures { OnOk result (out.new.items ≡ out.old.items ++ spec.itself name.now at.now) }
{
    let Some(id) = at else {
        return Ok(());
    };
    let id = id.share()?;
    let name = name.share()?;
    out.push((name, id))?;
    Ok(())
}

#[cycle(anonymous)]
fn of_type(
    alloc: Global,
    walk: &Walk<'_, '_>,
    ty: &CType,
    out: &mut Vec<(Name, TagId)>,
) -> Result<(), AllocError>
    ensures { OnOk result (out.new.items ≡ out.old.items ++ spec.of_type (λ other. spec.names_in walk.now.bound walk.now.tags.now walk.now.inside.now other) ty.now) }
{
    match ty.node() {
        Node::Tagged(id) => names_in(alloc, walk, id, out),
        Node::Void => Ok(()),
        Node::Basic(_) => Ok(()),
        Node::Enumerated(_) => Ok(()),
        Node::Pointer(_, _) => Ok(()),
        Node::Array(_, _, _) => Ok(()),
        Node::Function(_, _, _) => Ok(()),
        Node::Bad => Ok(()),
    }
}

#[cycle(anonymous)]
fn of_member(
    alloc: Global,
    walk: &Walk<'_, '_>,
    member: &Member,
    out: &mut Vec<(Name, TagId)>,
) -> Result<(), AllocError>
    ensures { OnOk result (out.new.items ≡ out.old.items ++ spec.of_member (λ other. spec.names_in walk.now.bound walk.now.tags.now walk.now.inside.now other) member.now member.now.name) }
{
    match &member.name {
        Some(name) => itself(name, &member.at, out),
        None => of_type(alloc, walk, &member.ty, out),
    }
}

#[cycle(anonymous)]
fn names_from(
    alloc: Global,
    walk: &Walk<'_, '_>,
    members: &[Member],
    out: &mut Vec<(Name, TagId)>,
) -> Result<(), AllocError>
    ensures { OnOk result (out.new.items ≡ out.old.items ++ spec.names_from (λ other. spec.names_in walk.now.bound walk.now.tags.now walk.now.inside.now other) members.now) }
{
    let mut rest = members;
    'members: while let Some((member, others)) = rest.split_first() {
        of_member(alloc, walk, member, out)?;
        rest = others;
    }
    Ok(())
}

#[cycle(anonymous)]
fn names_in(
    alloc: Global,
    walk: &Walk<'_, '_>,
    id: &TagId,
    out: &mut Vec<(Name, TagId)>,
) -> Result<(), AllocError>
    ensures { OnOk result (out.new.items ≡ out.old.items ++ spec.names_in walk.now.bound walk.now.tags.now walk.now.inside.now id.now) }
{
    if walk.bound == 0 {
        return Ok(());
    }
    if is_inside(walk.inside, id) {
        return Ok(());
    }
    let Some(info) = walk.tags.get(id) else {
        return Ok(());
    };
    let Some(members) = &info.members else {
        return Ok(());
    };
    let inside = deeper(alloc, walk.inside, id)?;
    let below = Walk {
        tags: walk.tags,
        inside: inside.as_slice(),
        bound: walk.bound - 1,
    };
    names_from(alloc, &below, members.as_slice(), out)
}

// The names of a structure or union, each with the token that declares it.
#[tactic(auto, unfolding(crate::specs::Anonymous::names_of_type))]
pub(crate) fn names_of_type(
    alloc: Global,
    tags: &Tags,
    ty: &CType,
) -> Result<Vec<(Name, TagId)>, AllocError>
    ensures { IfOk result (λ ns. ns.items ≡ spec.names_of_type tags.now ty.now) }
{
    let walk = Walk {
        tags,
        inside: &[],
        bound: most_tags(),
    };
    let mut out = Vec::new(alloc);
    of_type(alloc, &walk, ty, &mut out)?;
    Ok(out)
}
