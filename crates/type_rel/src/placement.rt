// Layouts of structures and unions (ISO C11 6.7.2.1).
ghost use Rattle.std.specs.Prelude.{◌≡◌, ℕ, ◌≤◌, ◌+◌, ◌-◌, ◌*◌, ◌&&◌, IfSome, IfOk, not, option_map};
ghost use Rattle.type_rel.specs.Layout as spec;
ghost use Rattle.type_rel.specs.Steps.{step_of};

use crate::sizes::size_align;
use std::alloc::{AllocError, Global};
use type_data::{CType, Extent, Layout, Member, Node, TagKind, Tags};

/// The greatest place, in bits: 2^60-1 bytes.
const MOST_BITS: u128 = 0x7FFF_FFFF_FFFF_FFF8;

// The first multiple of the unit that isn't in front of the place.
#[tactic(auto, unfolding(crate::specs::Layout::rounded))]
fn rounded(at: u128, unit: u128) -> u128
    requires some { 1 ≤ unit }
    requires near { at ≤ 9223372036854775800 }
    requires small { unit ≤ 147573952589676412920 }
    ensures value { result ≡ spec.rounded at unit }
    ensures within { result ≤ at + (unit - 1) }
{
    let last = at + (unit - 1);
    last - last % unit
}

#[tactic(auto, unfolding(crate::specs::Layout::greater))]
fn greater(m: u64, n: u64) -> u64
    ensures value { result ≡ spec.greater m n }
    ensures left { m ≤ result }
    ensures right { n ≤ result }
    ensures least { (k : ℕ) → m ≤ k → n ≤ k → result ≤ k }
{
    if m < n { n } else { m }
}

fn raised(stated: Option<u64>, natural: u64) -> u64
    ensures value { result ≡ spec.raised stated natural }
    ensures some { natural ≤ result }
{
    match stated {
        Some(stated) => greater(stated, natural),
        None => natural,
    }
}

#[tactic(auto, unfolding(crate::specs::Layout::field_start))]
fn field_start(width: u8, unit: u64, at: u64) -> u128
    requires some { 1 ≤ unit }
    requires near { at ≤ 9223372036854775800 }
    ensures value { result ≡ spec.field_start width unit at }
    ensures within { result ≤ 147573952589676412920 * 2 }
{
    if width == 0 {
        return rounded(at as u128, unit as u128);
    }
    if (at % unit) as u128 + width as u128 <= unit as u128 {
        return at as u128;
    }
    rounded(at as u128, unit as u128)
}

fn start(width: Option<u8>, size: u64, align: u64, at: u64) -> u128
    requires most { size ≤ 1152921504606846975 }
    requires some { 1 ≤ align }
    requires near { at ≤ 9223372036854775800 }
    ensures value { result ≡ spec.start width size align at }
    ensures within { result ≤ 147573952589676412920 * 2 }
{
    match width {
        Some(width) => field_start(width, greater(1, 8 * size), at),
        None => rounded(at as u128, 8 * align as u128),
    }
}

fn bits(width: Option<u8>, size: u64) -> u64
    requires { size ≤ 1152921504606846975 }
    ensures value { result ≡ spec.bits width size }
    ensures within { result ≤ 9223372036854775800 }
{
    match width {
        Some(width) => width as u64,
        None => 8 * size,
    }
}

/// Where a member begins, where the next one may begin, in bits, and the alignment so far, in bytes.
#[derive(Clone, Copy, Drop)]
struct Step {
    begins: u64,
    at: u64,
    align: u64,
}

// The size and alignment of an array of no size at the end of a structure, or of another member there.
fn last_size(ty: &CType, tags: &Tags) -> Option<(u64, u64)>
    ensures value { result ≡ spec.last_size tags.now ty.now }
    ensures within { IfSome result (λ r. (r.0 ≤ 1152921504606846975) × (1 ≤ r.1)) }
{
    match ty.node() {
        Node::Array(of, _, Extent::None) => {
            let (_, align) = size_align(of, tags)?;
            Some((0, align))
        }
        _ => size_align(ty, tags),
    }
}

#[tactic(auto, unfolding(crate::specs::Layout::member_size))]
fn member_size(last: bool, ty: &CType, tags: &Tags) -> Option<(u64, u64)>
    ensures value { result ≡ spec.member_size tags.now last ty.now }
    ensures within { IfSome result (λ r. (r.0 ≤ 1152921504606846975) × (1 ≤ r.1)) }
{
    if last {
        last_size(ty, tags)
    } else {
        size_align(ty, tags)
    }
}

fn overlaid(member: &Member, size: u64, natural: u64, at: u64, align: u64) -> Option<Step>
    requires most { size ≤ 1152921504606846975 }
    requires near { at ≤ 9223372036854775800 }
    requires some { 1 ≤ align }
    ensures value { option_map step_of result ≡ spec.overlaid member.now (size, natural) at align }
    ensures bounded { IfSome result (λ s. (s.at ≤ 9223372036854775800) × (1 ≤ s.align)) }
{
    let at = greater(at, bits(member.width, size));
    let align = greater(align, raised(member.align, natural));
    Some(Step {
        begins: 0,
        at,
        align,
    })
}

#[tactic(auto, unfolding(crate::specs::Layout::behind, crate::specs::Layout::within))]
fn behind(member: &Member, size: u64, natural: u64, at: u64, align: u64) -> Option<Step>
    requires most { size ≤ 1152921504606846975 }
    requires natural { 1 ≤ natural }
    requires near { at ≤ 9223372036854775800 }
    requires some { 1 ≤ align }
    ensures value { option_map step_of result ≡ spec.behind member.now (size, natural) at align }
    ensures bounded { IfSome result (λ s. (s.at ≤ 9223372036854775800) × (1 ≤ s.align)) }
{
    let own = raised(member.align, natural);
    let begins = start(member.width, size, own, at);
    let end = begins + bits(member.width, size) as u128;
    if end > MOST_BITS {
        return None;
    }
    let align = greater(align, own);
    Some(Step {
        begins: begins as u64,
        at: end as u64,
        align,
    })
}

fn laid(
    is_union: bool,
    last: bool,
    member: &Member,
    tags: &Tags,
    at: u64,
    align: u64,
) -> Option<Step>
    requires near { at ≤ 9223372036854775800 }
    requires some { 1 ≤ align }
    ensures value { option_map step_of result ≡ spec.step is_union member.now (spec.member_size tags.now last member.now.ty) at align }
    ensures bounded { IfSome result (λ s. (s.at ≤ 9223372036854775800) × (1 ≤ s.align)) }
{
    let (size, natural) = member_size(last, &member.ty, tags)?;
    if is_union {
        overlaid(member, size, natural, at, align)
    } else {
        behind(member, size, natural, at, align)
    }
}

#[tactic(auto, unfolding(crate::specs::Layout::ended))]
fn ended(
    alloc: Global,
    offsets: Vec<u64>,
    at: u64,
    align: u64,
) -> Result<Option<Layout>, AllocError>
    requires near { at ≤ 9223372036854775800 }
    requires some { 1 ≤ align }
    ensures { IfOk result (λ l. l ≡ spec.ended offsets.items at align) }
{
    let end = rounded(at as u128, 8 * align as u128);
    if end <= MOST_BITS {
        let layout = Layout::new(alloc, (end / 8) as u64, align, offsets)?;
        return Ok(Some(layout));
    }
    Ok(None)
}

fn is_union(kind: TagKind) -> bool
    ensures { result ≡ spec.is_union kind }
{
    match kind {
        TagKind::Union => true,
        TagKind::Struct => false,
        TagKind::Enum => false,
    }
}

/// The layout of a structure or union with these members, in turn; none exactly where the size of a member is none or the
/// whole would pass 2^60-1 bytes (ISO C11 6.7.2.1). A bit-field doesn't cross a unit of its type; the last member of a
/// structure may be an array of no size, which takes no bytes.
pub fn layout(
    alloc: Global,
    kind: TagKind,
    members: &[Member],
    tags: &Tags,
) -> Result<Option<Layout>, AllocError>
    ensures { IfOk result (λ l. l ≡ spec.layout kind members.now tags.now) }
{
    let union = is_union(kind);
    let mut offsets = Vec::new(alloc);
    let mut at: u64 = 0;
    let mut align: u64 = 1;
    let mut rest = members;
    while let Some((member, behind)) = rest.split_first() {
        rest = behind;
        let last = !union && behind.is_empty();
        let Some(step) = laid(union, last, member, tags, at, align) else {
            return Ok(None);
        };
        offsets.push(step.begins)?;
        at = step.at;
        align = step.align;
    }
    ended(alloc, offsets, at, align)
}
