// When types of two units are compatible (ISO C11 6.2.7p1).
ghost use Rattle.std.specs.Prelude.{◌≡◌, option_map, IfOk};
ghost use Rattle.unit_index.specs.Members as members;
ghost use Rattle.unit_index.specs.Matching as spec;
ghost use Rattle.unit_index.specs.Needs.{Needed, noted, provided};

use crate::members::{note_members, same_name};
use crate::needs::note_types;
use crate::pairs::Pairs;
use shared_text::Name;
use std::alloc::{AllocError, Global};
use type_data::{CType, Member, TagInfo, TagKind, Tags};

fn kind_of(kind: TagKind, info: Option<&TagInfo>) -> TagKind
    ensures { result ≡ spec.kind_of kind (option_map (λ i. i.now) info.entry) }
{
    match info {
        Some(info) => info.kind,
        None => kind,
    }
}

fn same_names(left: Option<&TagInfo>, right: Option<&TagInfo>) -> bool
    ensures { result ≡ members.same_name (spec.name_of (option_map (λ i. i.now) left.entry)) (spec.name_of (option_map (λ i. i.now) right.entry)) }
{
    match left {
        Some(left) => match right {
            Some(right) => same_name(&left.name, &right.name),
            None => left.name.is_none(),
        },
        None => match right {
            Some(right) => right.name.is_none(),
            None => true,
        },
    }
}

fn same_head(kind: TagKind, left: Option<&TagInfo>, right: Option<&TagInfo>) -> bool
    ensures { result ≡ spec.same_head kind (option_map (λ i. i.now) left.entry) (option_map (λ i. i.now) right.entry) }
{
    kind_of(kind, left) == kind_of(kind, right) && same_names(left, right)
}

fn members_of(info: Option<&TagInfo>) -> Option<&[Member]>
    ensures { option_map (λ ms. ms.now) result ≡ spec.members_of (option_map (λ i. i.now) info.entry) }
{
    let Some(info) = info else {
        return None;
    };
    match &info.members {
        Some(members) => Some(members.as_slice()),
        None => None,
    }
}

fn note_complete(
    alloc: Global,
    pairs: &mut Pairs,
    kind: TagKind,
    left_tags: &Tags,
    right_tags: &Tags,
    left: Option<&[Member]>,
    right: Option<&[Member]>,
) -> Result<bool, AllocError>
    ensures { IfOk result (λ fits. (more : Needed) → noted pairs.old (spec.complete_need kind left_tags.now right_tags.now (option_map (λ ms. ms.now) left.entry) (option_map (λ ms. ms.now) right.entry) more) ≡ provided fits (noted pairs.new more)) }
{
    let Some(left) = left else {
        return Ok(true);
    };
    let Some(right) = right else {
        return Ok(true);
    };
    note_members(alloc, pairs, kind, left_tags, right_tags, left, right)
}

// Whether two tags of which this is known may match. If so, comes to the pairs that they need.
fn note_infos(
    alloc: Global,
    pairs: &mut Pairs,
    kind: TagKind,
    left_tags: &Tags,
    right_tags: &Tags,
    left: Option<&TagInfo>,
    right: Option<&TagInfo>,
) -> Result<bool, AllocError>
    ensures { IfOk result (λ fits. (more : Needed) → noted pairs.old (spec.tags_need kind left_tags.now right_tags.now (option_map (λ i. i.now) left.entry) (option_map (λ i. i.now) right.entry) more) ≡ provided fits (noted pairs.new more)) }
{
    if !same_head(kind, left, right) {
        return Ok(false);
    }
    let own = kind_of(kind, left);
    note_complete(
        alloc,
        pairs,
        own,
        left_tags,
        right_tags,
        members_of(left),
        members_of(right),
    )
}

/// Whether a type of one unit is compatible with one of another, whose tags are these. Each pair of tags that the types lead to is
/// looked at once; the cost is linear in the members of all of them. It fails for want of memory alone.
pub(crate) fn matches(
    alloc: Global,
    left_tags: &Tags,
    right_tags: &Tags,
    left: &CType,
    right: &CType,
) -> Result<bool, AllocError>
    ensures { IfOk result (λ yes. spec.Told left_tags.now right_tags.now left.now right.now yes) }
{
    let mut pairs = Pairs::new(alloc);
    if !note_types(&mut pairs, left, right)? {
        return Ok(false);
    }
    let mut place = 0;
    'pairs: loop {
        let Some(pair) = pairs.at(place) else {
            return Ok(true);
        };
        let kind = pair.read_as;
        let left_info = left_tags.get(&pair.left);
        let right_info = right_tags.get(&pair.right);
        if !note_infos(
            alloc, &mut pairs, kind, left_tags, right_tags, left_info, right_info,
        )? {
            return Ok(false);
        }
        place += 1;
    }
}
