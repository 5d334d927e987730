// Which types are complete (ISO C11 6.2.5).
ghost use Rattle.std.specs.Prelude.{◌≡◌};
ghost use Rattle.std.specs.Map.{lookup};
ghost use Rattle.type_data.specs.Same.{same_tag};
ghost use Rattle.type_rel.specs.Completeness as spec;

use type_data::{CType, Extent, Node, TagId, Tags};

fn is_sized(extent: Extent) -> bool
    ensures { result ≡ spec.is_sized extent }
{
    match extent {
        Extent::None => false,
        _ => true,
    }
}

/// The tag's members are known (6.7.2.1p8, 6.7.2.3p4).
pub fn has_members(tags: &Tags, id: &TagId) -> bool
    ensures { result ≡ spec.has_members (lookup (same_tag id.now) tags.now) }
{
    match tags.get(id) {
        Some(info) => info.members.is_some(),
        None => false,
    }
}

/// A complete object type; nothing is said of a type with a fault (6.2.5p1, p19, p22, p23).
pub fn is_complete(tags: &Tags, ty: &CType) -> bool
    ensures { result ≡ spec.is_complete tags.now ty.now }
{
    match ty.node() {
        Node::Void | Node::Function(_, _, _) => false,
        Node::Basic(_) | Node::Pointer(_, _) | Node::Bad => true,
        Node::Enumerated(id) => has_members(tags, id),
        Node::Tagged(id) => has_members(tags, id),
        Node::Array(_, _, extent) => is_sized(*extent),
    }
}

/// An array of no size.
pub fn is_open_array(ty: &CType) -> bool
    ensures { result ≡ spec.is_open_array ty.now }
{
    match ty.node() {
        Node::Array(_, _, Extent::None) => true,
        _ => false,
    }
}
