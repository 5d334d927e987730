// The parts of an object (ISO C11 6.7.9p9, p11, p17).
ghost use Rattle.std.specs.Prelude.{◌≡◌, drop, option_map};
ghost use Rattle.std.specs.Map.{lookup};
ghost use Rattle.type_data.specs.Same.{same_tag};
ghost use Rattle.init_rules.specs.Parts as spec;
ghost use Rattle.init_rules.specs.Shown.{shown};

use type_data::{CType, Extent, Member, Node, TagId, TagInfo, TagKind, Tags};

/// A part by its number, with its type.
#[derive(Clone, Copy)]
pub(crate) struct Part<'a> {
    pub number: u128,
    pub ty: &'a CType,
}

/// The number behind this one.
#[tactic(auto, unfolding(crate::specs::Parts::after))]
pub(crate) fn after(n: u128) -> u128
    ensures { result ≡ spec.after n }
{
    if n < u128::MAX { n + 1 } else { n }
}

fn is_skipped(member: &Member) -> bool
    ensures { result ≡ spec.is_skipped member.now }
{
    member.name.is_none() && member.width.is_some()
}

fn first_part<'a>(members: &'a [Member], number: u128) -> Option<Part<'a>>
    ensures { option_map shown result ≡ spec.first_part number members.now }
{
    let mut rest = members;
    let mut at = number;
    while let Some((member, behind)) = rest.split_first() {
        if !is_skipped(member) {
            return Some(Part {
                number: at,
                ty: &member.ty,
            });
        }
        rest = behind;
        at = after(at);
    }
    None
}

/// The members from the one with this number on.
pub(crate) fn members_from(members: &[Member], number: u128) -> &[Member]
    ensures { result.now ≡ drop number members.now }
{
    let count = members.len();
    if number < count as u128 {
        return members.split_at(number as usize).1;
    }
    members.split_at(count).1
}

fn is_union(kind: TagKind) -> bool
    ensures { result ≡ spec.is_union kind }
{
    match kind {
        TagKind::Union => true,
        TagKind::Struct => false,
        TagKind::Enum => false,
    }
}

fn of_members<'a>(
    designated: bool,
    next: u128,
    kind: TagKind,
    members: &'a [Member],
) -> Option<Part<'a>>
    ensures { option_map shown result ≡ spec.of_members designated next kind members.now }
{
    if is_union(kind) && !designated && !(next == 0) {
        return None;
    }
    first_part(members_from(members, next), next)
}

fn of_listed<'a>(designated: bool, next: u128, info: &'a TagInfo) -> Option<Part<'a>>
    ensures { option_map shown result ≡ spec.of_listed designated next info.now.kind info.now.members }
{
    match &info.members {
        Some(members) => of_members(designated, next, info.kind, members.as_slice()),
        None => None,
    }
}

/// The part of a structure or union.
pub(crate) fn of_tag<'a>(
    tags: &'a Tags,
    designated: bool,
    next: u128,
    id: &TagId,
) -> Option<Part<'a>>
    ensures { option_map shown result ≡ spec.of_tag designated next (lookup (same_tag id.now) tags.now) }
{
    match tags.get(id) {
        Some(info) => of_listed(designated, next, info),
        None => None,
    }
}

fn element<'a>(next: u128, ty: &'a CType, extent: Extent) -> Option<Part<'a>>
    ensures { option_map shown result ≡ spec.element next ty.now extent }
{
    match extent {
        Extent::Size(count) => {
            if next < count as u128 {
                return Some(Part { number: next, ty });
            }
            None
        }
        Extent::None => Some(Part { number: next, ty }),
        Extent::Unknown => Some(Part { number: next, ty }),
    }
}

fn itself<'a>(next: u128, ty: &'a CType) -> Option<Part<'a>>
    ensures { option_map shown result ≡ spec.itself next ty.now }
{
    if next == 0 {
        return Some(Part { number: 0, ty });
    }
    None
}

/// The part of an object of a type, from this number on.
pub(crate) fn part_at<'a>(
    tags: &'a Tags,
    designated: bool,
    ty: &'a CType,
    next: u128,
) -> Option<Part<'a>>
    ensures { option_map shown result ≡ spec.part_at tags.now designated ty.now next }
{
    match ty.node() {
        Node::Array(of, _, extent) => element(next, of, *extent),
        Node::Tagged(id) => of_tag(tags, designated, next, id),
        _ => itself(next, ty),
    }
}

pub(crate) fn has_parts(ty: &CType) -> bool
    ensures { result ≡ spec.has_parts ty.now }
{
    match ty.node() {
        Node::Array(_, _, _) => true,
        Node::Tagged(_) => true,
        Node::Bad => true,
        _ => false,
    }
}
