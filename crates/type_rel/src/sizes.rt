// Sizes and alignments of types (ISO C11 6.2.8, 6.5.3.4).
ghost use Rattle.std.specs.Prelude.{◌≡◌, ◌≤◌, IfSome};
ghost use Rattle.type_data.specs.Types;
ghost use Rattle.type_rel.specs.Sizes;

use type_data::{Basic, CType, Extent, Node, TagId, Tags};

/// The greatest size of a type, in bytes.
pub(crate) const MOST: u64 = 0x0FFF_FFFF_FFFF_FFFF;

fn basic_size(basic: Basic) -> u64
    ensures value { result ≡ Sizes.basic_size basic }
    ensures some { 1 ≤ result }
    ensures most { result ≤ 16 }
{
    match basic {
        Basic::Bool | Basic::Char | Basic::SChar | Basic::UChar => 1,
        Basic::Short | Basic::UShort => 2,
        Basic::Int | Basic::UInt | Basic::Float => 4,
        Basic::Long | Basic::ULong | Basic::LongLong | Basic::ULongLong | Basic::Double => 8,
        Basic::LongDouble => 16,
    }
}

#[tactic(auto, unfolding(crate::specs::Sizes::times))]
fn times(count: u64, size: u64, align: u64) -> Option<(u64, u64)>
    requires { 1 ≤ align }
    ensures value { result ≡ Sizes.times count (size, align) }
    ensures within { IfSome result (λ r. (r.0 ≤ 1152921504606846975) × (1 ≤ r.1)) }
{
    let total = count as u128 * size as u128;
    if total <= MOST as u128 {
        return Some((total as u64, align));
    }
    None
}

fn enumerated_size(tags: &Tags, id: &TagId) -> Option<(u64, u64)>
    ensures value { result ≡ Sizes.size_align tags.now (Types.Enumerated_type id.now) }
    ensures within { IfSome result (λ r. (r.0 ≤ 1152921504606846975) × (1 ≤ r.1)) }
{
    match tags.get(id) {
        Some(info) if info.members.is_some() => Some((4, 4)),
        _ => None,
    }
}

fn tagged_size(tags: &Tags, id: &TagId) -> Option<(u64, u64)>
    ensures value { result ≡ Sizes.size_align tags.now (Types.Tagged_type id.now) }
    ensures within { IfSome result (λ r. (r.0 ≤ 1152921504606846975) × (1 ≤ r.1)) }
{
    let Some(info) = tags.get(id) else {
        return None;
    };
    match &info.layout {
        Some(layout) => Some((layout.size(), layout.align())),
        None => None,
    }
}

/// The size and alignment of a type, in bytes; none exactly where it is void, a function, incomplete, of unknown size or has a
/// fault (ISO C11 6.5.3.4p1). It takes no memory.
pub fn size_align(ty: &CType, tags: &Tags) -> Option<(u64, u64)>
    ensures value { result ≡ Sizes.size_align tags.now ty.now }
    ensures within { IfSome result (λ r. (r.0 ≤ 1152921504606846975) × (1 ≤ r.1)) }
{
    match ty.node() {
        Node::Basic(basic) => {
            let size = basic_size(*basic);
            Some((size, size))
        }
        Node::Enumerated(id) => enumerated_size(tags, id),
        Node::Tagged(id) => tagged_size(tags, id),
        Node::Pointer(_, _) => Some((8, 8)),
        Node::Array(of, _, Extent::Size(count)) => {
            let (size, align) = size_align(of, tags)?;
            times(*count, size, align)
        }
        _ => None,
    }
}
