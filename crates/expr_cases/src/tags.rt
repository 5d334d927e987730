// The tags of the cases: `struct S { int x; int b : 2; }`, `struct I` of no members, `enum E`, `struct K { const int k; }`, `union U {
// struct { int y; }; int c; }`, and `struct D { char a; struct { int c[3]; } d; }`; and two heaps of 200 structures, each of which
// holds the one before twice: `struct N` on `struct S`, whose hundredth is `H`, and `struct M` on `struct K`.
use crate::types::plain;
use shared_text::Name;
use std::alloc::{AllocError, Global};
use type_data::{
    Basic, CType, Extent, ItemName, Layout, Member, Members, Node, Qual, TagId, TagInfo, TagKind,
    Tags,
};

/// A tag by its number.
pub fn tag(alloc: Global, at: u32) -> Result<TagId, AllocError> {
    let label = Name::from_str(alloc, "")?;
    let item = ItemName { label, nth: 0 };
    Ok(TagId { item, at })
}

fn named(alloc: Global, name: &str) -> Result<Option<Name>, AllocError> {
    if name.is_empty() {
        return Ok(None);
    }
    let name = Name::from_str(alloc, name)?;
    Ok(Some(name))
}

fn member(alloc: Global, name: &str, ty: CType) -> Result<Member, AllocError> {
    let name = named(alloc, name)?;
    Ok(Member {
        name,
        ty,
        qual: plain(),
        width: None,
        align: None,
        value: None,
        at: None,
    })
}

fn basic(basic: Basic) -> CType {
    CType::of(Node::Basic(basic))
}

// A tag with these members is known by its number.
fn know(
    alloc: Global,
    tags: &mut Tags,
    at: u32,
    kind: TagKind,
    name: &str,
    members: Vec<Member>,
    layout: Option<Layout>,
) -> Result<(), AllocError> {
    let id = tag(alloc, at)?;
    let name = named(alloc, name)?;
    let members = Members::from_vec(alloc, members)?;
    let info = TagInfo {
        kind,
        name,
        members: Some(members),
        layout,
    };
    tags.insert(id, info)?;
    Ok(())
}

fn both(alloc: Global, first: Member, second: Member) -> Result<Vec<Member>, AllocError> {
    let members = vec![in alloc; first, second]?;
    Ok(members)
}

fn laid(alloc: Global, size: u64, align: u64, second: Option<u64>) -> Result<Layout, AllocError> {
    let mut offsets = Vec::new(alloc);
    offsets.push(0u64)?;
    if let Some(place) = second {
        offsets.push(place)?;
    }
    if size <= 1024 && 1 <= align {
        return Layout::new(alloc, size, align, offsets);
    }
    Layout::new(alloc, 1, 1, offsets)
}

fn with_field(alloc: Global, tags: &mut Tags) -> Result<(), AllocError> {
    let x = member(alloc, "x", basic(Basic::Int))?;
    let Ok(mut b) = member(alloc, "b", basic(Basic::Int)) else {
        drop(x);
        return Err(AllocError);
    };
    b.width = Some(2);
    let members = both(alloc, x, b)?;
    let layout = laid(alloc, 8, 4, Some(32))?;
    know(alloc, tags, 1, TagKind::Struct, "S", members, Some(layout))
}

fn incomplete(alloc: Global, tags: &mut Tags) -> Result<(), AllocError> {
    let id = tag(alloc, 2)?;
    let name = named(alloc, "I")?;
    let info = TagInfo {
        kind: TagKind::Struct,
        name,
        members: None,
        layout: None,
    };
    tags.insert(id, info)?;
    Ok(())
}

fn with_const(alloc: Global, tags: &mut Tags) -> Result<(), AllocError> {
    let mut k = member(alloc, "k", basic(Basic::Int))?;
    k.qual = Qual {
        is_const: true,
        is_restrict: false,
        is_volatile: false,
    };
    let members = vec![in alloc; k]?;
    let layout = laid(alloc, 4, 4, None)?;
    know(alloc, tags, 4, TagKind::Struct, "K", members, Some(layout))
}

// The members of a structure or union whose other member is a tag.
fn beside(
    alloc: Global,
    first: Member,
    name: &str,
    number: u32,
) -> Result<Vec<Member>, AllocError> {
    let Ok(id) = tag(alloc, number) else {
        drop(first);
        return Err(AllocError);
    };
    let Ok(second) = member(alloc, name, CType::of(Node::Tagged(id))) else {
        drop(first);
        return Err(AllocError);
    };
    both(alloc, first, second)
}

fn with_anonymous(alloc: Global, tags: &mut Tags) -> Result<(), AllocError> {
    let inner = CType::of(Node::Tagged(tag(alloc, 6)?));
    let anonymous = member(alloc, "", inner)?;
    let Ok(c) = member(alloc, "c", basic(Basic::Int)) else {
        drop(anonymous);
        return Err(AllocError);
    };
    let members = both(alloc, anonymous, c)?;
    let layout = laid(alloc, 4, 4, Some(0))?;
    know(alloc, tags, 5, TagKind::Union, "U", members, Some(layout))
}

fn structure_in_union(alloc: Global, tags: &mut Tags) -> Result<(), AllocError> {
    let y = member(alloc, "y", basic(Basic::Int))?;
    let members = vec![in alloc; y]?;
    let layout = laid(alloc, 4, 4, None)?;
    know(alloc, tags, 6, TagKind::Struct, "", members, Some(layout))
}

fn with_array(alloc: Global, tags: &mut Tags) -> Result<(), AllocError> {
    let a = member(alloc, "a", basic(Basic::Char))?;
    let members = beside(alloc, a, "d", 8)?;
    let layout = laid(alloc, 16, 4, Some(32))?;
    know(alloc, tags, 7, TagKind::Struct, "D", members, Some(layout))
}

fn structure_of_array(alloc: Global, tags: &mut Tags) -> Result<(), AllocError> {
    let ty = CType::array(alloc, basic(Basic::Int), plain(), Extent::Size(3))?;
    let c = member(alloc, "c", ty)?;
    let members = vec![in alloc; c]?;
    let layout = laid(alloc, 12, 4, None)?;
    know(alloc, tags, 8, TagKind::Struct, "", members, Some(layout))
}

// A structure that holds another one twice. Its size is too large to be told.
fn double(
    alloc: Global,
    tags: &mut Tags,
    at: u32,
    name: &str,
    held: u32,
) -> Result<(), AllocError> {
    let first = member(alloc, "p", CType::of(Node::Tagged(tag(alloc, held)?)))?;
    let members = beside(alloc, first, "q", held)?;
    know(alloc, tags, at, TagKind::Struct, name, members, None)
}

// Structures from a number on, each of which holds the one before twice.
fn heaped(
    alloc: Global,
    tags: &mut Tags,
    name: &str,
    bottom: u32,
    from: u32,
) -> Result<(), AllocError> {
    let mut below = bottom;
    for number in 0u32..200 {
        let number = from.wrapping_add(number);
        double(alloc, tags, number, name, below)?;
        below = number;
    }
    Ok(())
}

fn tell_all(alloc: Global, tags: &mut Tags) -> Result<(), AllocError> {
    with_field(alloc, tags)?;
    incomplete(alloc, tags)?;
    know(alloc, tags, 3, TagKind::Enum, "E", Vec::new(alloc), None)?;
    with_const(alloc, tags)?;
    with_anonymous(alloc, tags)?;
    structure_in_union(alloc, tags)?;
    with_array(alloc, tags)?;
    structure_of_array(alloc, tags)?;
    heaped(alloc, tags, "N", 1, 1000)?;
    heaped(alloc, tags, "M", 4, 2000)
}

/// What is known of these tags.
pub fn tags_of(alloc: Global) -> Result<Tags, AllocError> {
    let mut tags = Tags::new(alloc);
    tell_all(alloc, &mut tags)?;
    Ok(tags)
}
