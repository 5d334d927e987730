// Types in postfix notation, a character a part: `b` _Bool, `c` char, `i` int, `u` unsigned int, `l` long, `d` double, `v` void, `E` an
// enumeration, `S` and `T` structures, `#` a type with a fault; then `*` a pointer, a digit an array of that size, and `z` a function
// without parameters.
use shared_text::Name;
use std::alloc::{AllocError, Global};
use type_data::{
    Basic, CType, Extent, ItemName, Node, ParamList, Params, Proto, Qual, TagId, TagInfo, TagKind,
    Tags,
};

pub fn plain() -> Qual {
    Qual {
        is_const: false,
        is_restrict: false,
        is_volatile: false,
    }
}

fn basic(letter: u8) -> Option<Basic> {
    match letter {
        b'b' => Some(Basic::Bool),
        b'c' => Some(Basic::Char),
        b'i' => Some(Basic::Int),
        b'u' => Some(Basic::UInt),
        b'l' => Some(Basic::Long),
        b'd' => Some(Basic::Double),
        _ => None,
    }
}

fn tag(alloc: Global, letter: u8) -> Result<TagId, AllocError> {
    let label = Name::from_str(alloc, "")?;
    let item = ItemName { label, nth: 0 };
    let at = u32::from(letter);
    Ok(TagId { item, at })
}

fn base(alloc: Global, letter: u8) -> Result<CType, AllocError> {
    if let Some(basic) = basic(letter) {
        return Ok(CType::of(Node::Basic(basic)));
    }
    if letter == b'v' {
        return Ok(CType::of(Node::Void));
    }
    if letter == b'#' {
        return Ok(CType::of(Node::Bad));
    }
    let id = tag(alloc, letter)?;
    if letter == b'E' {
        return Ok(CType::of(Node::Enumerated(id)));
    }
    Ok(CType::of(Node::Tagged(id)))
}

fn around(alloc: Global, of: CType, letter: u8) -> Result<CType, AllocError> {
    match letter {
        b'*' => CType::pointer(alloc, of, plain()),
        b'0'..=b'9' => {
            let size = Extent::Size(u64::from(letter) - 48);
            CType::array(alloc, of, plain(), size)
        }
        _ => CType::function(alloc, of, Params::of(ParamList::Empty), Proto::Fixed),
    }
}

/// The type that a word stands for.
pub fn type_named(alloc: Global, word: &str) -> Result<CType, AllocError> {
    let Some((first, letters)) = word.as_bytes().split_first() else {
        return Ok(CType::of(Node::Bad));
    };
    let mut ty = base(alloc, *first)?;
    for letter in letters {
        ty = around(alloc, ty, *letter)?;
    }
    Ok(ty)
}

fn insert(alloc: Global, tags: &mut Tags, letter: u8, name: &str) -> Result<(), AllocError> {
    let id = tag(alloc, letter)?;
    let name = Name::from_str(alloc, name)?;
    let kind = if letter == b'E' {
        TagKind::Enum
    } else {
        TagKind::Struct
    };
    let info = TagInfo {
        kind,
        name: Some(name),
        members: None,
        layout: None,
    };
    tags.insert(id, info)
}

/// The names of the tags.
pub fn name_tags(alloc: Global, tags: &mut Tags) -> Result<(), AllocError> {
    insert(alloc, tags, b'S', "S")?;
    insert(alloc, tags, b'T', "T")?;
    insert(alloc, tags, b'E', "E")
}
