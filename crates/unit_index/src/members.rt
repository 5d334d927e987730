// What members need for corresponding (ISO C11 6.2.7p1).
ghost use Rattle.std.specs.Prelude.{◌≡◌, nat_eq, length, IfOk};
ghost use Rattle.type_data.specs.Same.{same_qual};
ghost use Rattle.unit_index.specs.Handles as handles;
ghost use Rattle.unit_index.specs.Keyed.{at};
ghost use Rattle.unit_index.specs.Members as spec;
ghost use Rattle.unit_index.specs.Needs.{Needed, needs, noted, provided};

use crate::handles::{found, handle, keyed, next_nameless};
use crate::needs::note_types;
use crate::pairs::Pairs;
use shared_text::Name;
use std::alloc::{AllocError, Global};
use std::collections::HashMap;
use type_data::{Member, TagKind, Tags, Value};

/// Whether both have the same name, or none.
pub(crate) fn same_name(a: &Option<Name>, b: &Option<Name>) -> bool
    ensures { result ≡ spec.same_name a.now b.now }
{
    match a {
        Some(a) => match b {
            Some(b) => a == b,
            None => false,
        },
        None => match b {
            Some(_) => false,
            None => true,
        },
    }
}

fn same_width(a: Option<u8>, b: Option<u8>) -> bool
    ensures { result ≡ spec.same_number a b }
{
    match (a, b) {
        (Some(m), Some(n)) => m == n,
        (None, None) => true,
        _ => false,
    }
}

fn same_align(a: Option<u64>, b: Option<u64>) -> bool
    ensures { result ≡ spec.same_number a b }
{
    match (a, b) {
        (Some(m), Some(n)) => m == n,
        (None, None) => true,
        _ => false,
    }
}

fn values_agree(a: Option<Value>, b: Option<Value>) -> bool
    ensures { result ≡ spec.values_agree a b }
{
    match (a, b) {
        (Some(Value::Known(m)), Some(Value::Known(n))) => m == n,
        _ => true,
    }
}

fn same_form(x: &Member, y: &Member) -> bool
    ensures { result ≡ spec.same_form x.now y.now }
{
    same_name(&x.name, &y.name)
        && same_width(x.width, y.width)
        && same_align(x.align, y.align)
        && values_agree(x.value, y.value)
}

fn note_qualified(pairs: &mut Pairs, x: &Member, y: &Member) -> Result<bool, AllocError>
    ensures { IfOk result (λ fits. (more : Needed) → noted pairs.old (provided (same_qual x.now.qual y.now.qual) (needs x.now.ty y.now.ty more)) ≡ provided fits (noted pairs.new more)) }
{
    if x.qual == y.qual {
        return note_types(pairs, &x.ty, &y.ty);
    }
    Ok(false)
}

fn note_member(pairs: &mut Pairs, kind: TagKind, x: &Member, y: &Member) -> Result<bool, AllocError>
    ensures { IfOk result (λ fits. (more : Needed) → noted pairs.old (spec.member_needs kind x.now y.now more) ≡ provided fits (noted pairs.new more)) }
{
    if !same_form(x, y) {
        return Ok(false);
    }
    match kind {
        TagKind::Enum => Ok(true),
        TagKind::Struct => note_qualified(pairs, x, y),
        TagKind::Union => note_qualified(pairs, x, y),
    }
}

fn note_in_order(
    pairs: &mut Pairs,
    kind: TagKind,
    left: &[Member],
    right: &[Member],
) -> Result<bool, AllocError>
    ensures { IfOk result (λ fits. (more : Needed) → noted pairs.old (spec.in_order kind left.now right.now more) ≡ provided fits (noted pairs.new more)) }
{
    let mut xs = left;
    let mut ys = right;
    'members: loop {
        let Some((x, more_left)) = xs.split_first() else {
            return Ok(ys.first().is_none());
        };
        let Some((y, more_right)) = ys.split_first() else {
            return Ok(false);
        };
        if !note_member(pairs, kind, x, y)? {
            return Ok(false);
        }
        xs = more_left;
        ys = more_right;
    }
}

// Those without a handle, in order.
fn note_nameless(
    pairs: &mut Pairs,
    kind: TagKind,
    left_tags: &Tags,
    right_tags: &Tags,
    left: &[Member],
    right: &[Member],
) -> Result<bool, AllocError>
    ensures { IfOk result (λ fits. (more : Needed) → noted pairs.old (spec.in_order kind (spec.nameless left_tags.now left.now) (spec.nameless right_tags.now right.now) more) ≡ provided fits (noted pairs.new more)) }
{
    let mut xs = left;
    let mut ys = right;
    'members: loop {
        let Some((x, more_left)) = next_nameless(left_tags, xs) else {
            return Ok(next_nameless(right_tags, ys).is_none());
        };
        let Some((y, more_right)) = next_nameless(right_tags, ys) else {
            return Ok(false);
        };
        if !note_member(pairs, kind, x, y)? {
            return Ok(false);
        }
        xs = more_left;
        ys = more_right;
    }
}

fn note_by_handle(
    pairs: &mut Pairs,
    kind: TagKind,
    tags: &Tags,
    others: &HashMap<Name, &Member>,
    x: &Member,
) -> Result<bool, AllocError>
    ensures { IfOk result (λ fits. (more : Needed) → noted pairs.old (spec.by_handle kind (at others.now) (handles.handle tags.now x.now) x.now more) ≡ provided fits (noted pairs.new more)) }
{
    let Some(name) = handle(tags, x) else {
        return Ok(true);
    };
    let Some(y) = found(others, name) else {
        return Ok(false);
    };
    note_member(pairs, kind, x, y)
}

fn note_by_handles(
    pairs: &mut Pairs,
    kind: TagKind,
    tags: &Tags,
    others: &HashMap<Name, &Member>,
    members: &[Member],
) -> Result<bool, AllocError>
    ensures { IfOk result (λ fits. (more : Needed) → noted pairs.old (spec.by_handles kind tags.now (at others.now) members.now more) ≡ provided fits (noted pairs.new more)) }
{
    let mut rest = members;
    'members: loop {
        let Some((x, behind)) = rest.split_first() else {
            return Ok(true);
        };
        if !note_by_handle(pairs, kind, tags, others, x)? {
            return Ok(false);
        }
        rest = behind;
    }
}

fn are_as_many(left: &[Member], right: &[Member]) -> bool
    ensures { result ≡ nat_eq (length left.now) (length right.now) }
{
    left.len() == right.len()
}

fn note_in_any_order(
    alloc: Global,
    pairs: &mut Pairs,
    kind: TagKind,
    left_tags: &Tags,
    right_tags: &Tags,
    left: &[Member],
    right: &[Member],
) -> Result<bool, AllocError>
    ensures { IfOk result (λ fits. (more : Needed) → noted pairs.old (spec.in_any_order kind left_tags.now right_tags.now left.now right.now more) ≡ provided fits (noted pairs.new more)) }
{
    if !are_as_many(left, right) {
        return Ok(false);
    }
    let others = keyed(alloc, right_tags, right)?;
    if !note_by_handles(pairs, kind, left_tags, &others, left)? {
        return Ok(false);
    }
    let fits = note_nameless(pairs, kind, left_tags, right_tags, left, right)?;
    Ok(fits)
}

/// Whether the members of two tags of this kind may correspond. If so, comes to the pairs of tags that they need. The cost is linear in
/// their number.
pub(crate) fn note_members(
    alloc: Global,
    pairs: &mut Pairs,
    kind: TagKind,
    left_tags: &Tags,
    right_tags: &Tags,
    left: &[Member],
    right: &[Member],
) -> Result<bool, AllocError>
    ensures { IfOk result (λ fits. (more : Needed) → noted pairs.old (spec.members_need kind left_tags.now right_tags.now left.now right.now more) ≡ provided fits (noted pairs.new more)) }
{
    match kind {
        TagKind::Struct => note_in_order(pairs, TagKind::Struct, left, right),
        TagKind::Union => note_in_any_order(
            alloc,
            pairs,
            TagKind::Union,
            left_tags,
            right_tags,
            left,
            right,
        ),
        TagKind::Enum => note_in_any_order(
            alloc,
            pairs,
            TagKind::Enum,
            left_tags,
            right_tags,
            left,
            right,
        ),
    }
}
