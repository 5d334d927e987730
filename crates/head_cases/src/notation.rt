// Types in postfix notation, a character a part: `i` int, `c` char, `t` _Bool, `l` long, `d` double, `v` void, `e` a complete enumeration,
// `b` the type of what has a fault, a capital the structure or union of that name; then `*` a pointer, a digit an array of that
// size, `_` one of no size, `o` a function.
use shared_text::Name;
use std::alloc::{AllocError, Global};
use type_data::{Basic, CType, Extent, ItemName, Node, ParamList, Params, Proto, Qual, TagId};

pub fn plain() -> Qual {
    Qual {
        is_const: false,
        is_restrict: false,
        is_volatile: false,
    }
}

/// A token of the item, by its number, which tells a tag or a member.
pub fn token(alloc: Global, at: u32) -> Result<TagId, AllocError> {
    let label = Name::from_str(alloc, "")?;
    let item = ItemName { label, nth: 0 };
    Ok(TagId { item, at })
}

fn basic(letter: u8) -> Option<Basic> {
    match letter {
        b'i' => Some(Basic::Int),
        b'c' => Some(Basic::Char),
        b't' => Some(Basic::Bool),
        b'l' => Some(Basic::Long),
        b'd' => Some(Basic::Double),
        _ => None,
    }
}

fn base(alloc: Global, letter: u8) -> Result<CType, AllocError> {
    if let Some(basic) = basic(letter) {
        return Ok(CType::of(Node::Basic(basic)));
    }
    match letter {
        b'v' => Ok(CType::of(Node::Void)),
        b'e' => Ok(CType::of(Node::Enumerated(token(alloc, 101)?))),
        b'A'..=b'Z' => Ok(CType::of(Node::Tagged(token(alloc, u32::from(letter))?))),
        _ => Ok(CType::of(Node::Bad)),
    }
}

fn around(alloc: Global, of: CType, letter: u8) -> Result<CType, AllocError> {
    match letter {
        b'*' => CType::pointer(alloc, of, plain()),
        b'_' => CType::array(alloc, of, plain(), Extent::None),
        b'0'..=b'9' => CType::array(alloc, of, plain(), Extent::Size(u64::from(letter) - 48)),
        _ => CType::function(alloc, of, Params::of(ParamList::Empty), Proto::Old),
    }
}

/// The type that a word stands for.
pub fn type_named(alloc: Global, word: &str) -> Result<CType, AllocError> {
    let Some((first, letters)) = word.as_bytes().split_first() else {
        return Ok(CType::of(Node::Bad));
    };
    let mut ty = base(alloc, *first)?;
    for letter in letters {
        ty = around(alloc, ty, *letter)?;
    }
    Ok(ty)
}

fn basic_letter(basic: Basic) -> &'static str {
    match basic {
        Basic::Int => "i",
        Basic::Char => "c",
        Basic::Bool => "t",
        Basic::Long => "l",
        _ => "d",
    }
}

fn extent_shown(alloc: Global, extent: Extent) -> Result<String, AllocError> {
    match extent {
        Extent::None => String::from_str(alloc, "_"),
        Extent::Unknown => String::from_str(alloc, "?"),
        Extent::Size(size) => format!(in alloc; "{size}"),
    }
}

fn with_suffix(shown: String, suffix: &str) -> Result<String, AllocError> {
    let mut out = shown;
    out.push_str(suffix)?;
    Ok(out)
}

/// A type in the notation, a structure or union by the number of its letter.
pub fn shown_type(alloc: Global, ty: &CType) -> Result<String, AllocError> {
    match ty.node() {
        Node::Void => String::from_str(alloc, "v"),
        Node::Basic(basic) => String::from_str(alloc, basic_letter(*basic)),
        Node::Enumerated(_) => String::from_str(alloc, "e"),
        Node::Tagged(id) => {
            let number = id.at;
            format!(in alloc; "tag{number}")
        }
        Node::Pointer(to, _) => with_suffix(shown_type(alloc, to)?, "*"),
        Node::Array(of, _, extent) => {
            let extent = extent_shown(alloc, *extent)?;
            with_suffix(shown_type(alloc, of)?, extent.as_str())
        }
        Node::Function(of, _, _) => with_suffix(shown_type(alloc, of)?, "o"),
        Node::Bad => String::from_str(alloc, "b"),
    }
}
