// Types in postfix notation, a character a part: `i` int, `c` char, `l` long, `m` unsigned long, `u` unsigned int, `v` void, `S` a structure,
// `A` one without a name, `E` an enumeration, `P` to `Z` a structure or union that the unit tells, `F` to `H` such an enumeration, `B` a
// type with a fault; then `*` a pointer, `k` a pointer to what is const, a digit an array of that size, `_` one of no size, `?` one of an
// untold size, `o` a function `()`, `z` one of `(void)`, `n` one of `(int)`, `q` of `(char)`, `r` of `(float)`, `p` of a pointer to `P`,
// `w` of `(int, ...)`.
use shared_text::Name;
use std::alloc::{AllocError, Global};
use type_data::{
    Basic, CType, Extent, ItemName, Members, Node, ParamList, Params, Proto, Qual, TagId, TagInfo,
    TagKind, Tags,
};

pub fn plain() -> Qual {
    Qual {
        is_const: false,
        is_restrict: false,
        is_volatile: false,
    }
}

fn constant() -> Qual {
    Qual {
        is_const: true,
        is_restrict: false,
        is_volatile: false,
    }
}

pub fn tag(alloc: Global, at: u32) -> Result<TagId, AllocError> {
    let label = Name::from_str(alloc, "")?;
    let item = ItemName { label, nth: 0 };
    Ok(TagId { item, at })
}

/// A structure, union or enumeration of this name, `-` for none.
pub fn tag_info(alloc: Global, kind: TagKind, name: &str) -> Result<TagInfo, AllocError> {
    let name = if name == "-" {
        None
    } else {
        Some(Name::from_str(alloc, name)?)
    };
    Ok(TagInfo {
        kind,
        name,
        members: Some(Members::from_vec(alloc, Vec::new(alloc))?),
        layout: None,
    })
}

fn add_tag(
    alloc: Global,
    tags: &mut Tags,
    at: u32,
    kind: TagKind,
    name: &str,
) -> Result<(), AllocError> {
    let id = tag(alloc, at)?;
    let info = tag_info(alloc, kind, name)?;
    tags.insert(id, info)
}

/// The tags that types name.
pub fn add_tags(alloc: Global, tags: &mut Tags) -> Result<(), AllocError> {
    add_tag(alloc, tags, 1, TagKind::Struct, "S")?;
    add_tag(alloc, tags, 2, TagKind::Struct, "-")?;
    add_tag(alloc, tags, 3, TagKind::Enum, "E")
}

fn basic(letter: u8) -> Option<Basic> {
    match letter {
        b'i' => Some(Basic::Int),
        b'c' => Some(Basic::Char),
        b'l' => Some(Basic::Long),
        b'm' => Some(Basic::ULong),
        b'u' => Some(Basic::UInt),
        _ => None,
    }
}

fn base(alloc: Global, letter: u8) -> Result<CType, AllocError> {
    if let Some(basic) = basic(letter) {
        return Ok(CType::of(Node::Basic(basic)));
    }
    match letter {
        b'v' => Ok(CType::of(Node::Void)),
        b'S' => Ok(CType::of(Node::Tagged(tag(alloc, 1)?))),
        b'A' => Ok(CType::of(Node::Tagged(tag(alloc, 2)?))),
        b'E' => Ok(CType::of(Node::Enumerated(tag(alloc, 3)?))),
        b'P'..=b'Z' => Ok(CType::of(Node::Tagged(tag(alloc, u32::from(letter))?))),
        b'F'..=b'H' => Ok(CType::of(Node::Enumerated(tag(alloc, u32::from(letter))?))),
        _ => Ok(CType::of(Node::Bad)),
    }
}

fn one(alloc: Global, basic: Basic) -> Result<Params, AllocError> {
    let ty = CType::of(Node::Basic(basic));
    Params::first(alloc, ty, plain(), Params::of(ParamList::Empty))
}

fn to_structure(alloc: Global) -> Result<Params, AllocError> {
    let structure = CType::of(Node::Tagged(tag(alloc, u32::from(b'P'))?));
    let ty = CType::pointer(alloc, structure, plain())?;
    Params::first(alloc, ty, constant(), Params::of(ParamList::Empty))
}

fn function(alloc: Global, of: CType, letter: u8) -> Result<CType, AllocError> {
    match letter {
        b'o' => CType::function(alloc, of, Params::of(ParamList::Empty), Proto::Old),
        b'n' => {
            let params = one(alloc, Basic::Int)?;
            CType::function(alloc, of, params, Proto::Fixed)
        }
        b'q' => {
            let params = one(alloc, Basic::Char)?;
            CType::function(alloc, of, params, Proto::Fixed)
        }
        b'r' => {
            let params = one(alloc, Basic::Float)?;
            CType::function(alloc, of, params, Proto::Fixed)
        }
        b'p' => {
            let params = to_structure(alloc)?;
            CType::function(alloc, of, params, Proto::Fixed)
        }
        b'w' => {
            let params = one(alloc, Basic::Int)?;
            CType::function(alloc, of, params, Proto::Variadic)
        }
        _ => CType::function(alloc, of, Params::of(ParamList::Empty), Proto::Fixed),
    }
}

fn extent(letter: u8) -> Option<Extent> {
    match letter {
        b'_' => Some(Extent::None),
        b'?' => Some(Extent::Unknown),
        b'0'..=b'9' => Some(Extent::Size(u64::from(letter) - 48)),
        _ => None,
    }
}

fn around(alloc: Global, of: CType, letter: u8) -> Result<CType, AllocError> {
    if let Some(extent) = extent(letter) {
        return CType::array(alloc, of, plain(), extent);
    }
    match letter {
        b'*' => CType::pointer(alloc, of, plain()),
        b'k' => CType::pointer(alloc, of, constant()),
        _ => function(alloc, of, letter),
    }
}

/// The type that a word stands for.
pub fn type_named(alloc: Global, word: &str) -> Result<CType, AllocError> {
    let Some((first, letters)) = word.as_bytes().split_first() else {
        return Ok(CType::of(Node::Bad));
    };
    let mut ty = base(alloc, *first)?;
    for letter in letters {
        ty = around(alloc, ty, *letter)?;
    }
    Ok(ty)
}
