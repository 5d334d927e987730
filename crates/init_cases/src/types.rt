// Types in postfix notation, a character a part: `b` _Bool, `c` char, `x` signed char, `y` unsigned char, `s` short, `w` unsigned short,
// `i` int, `u` unsigned int, `l` long, `f` float, `d` double, `v` void, `E` an enumeration, `#` a type with a fault, another capital letter
// the tag of that letter, `q` a structure of which nothing is known; then `*` a pointer, a digit an array of that size, `_` one of no size, `?` one of an untold size, `k` const
// for what the next pointer or array is of, and `z` a function without parameters.
use crate::tags::tag;
use std::alloc::{AllocError, Global};
use type_data::{Basic, CType, Extent, Node, ParamList, Params, Proto, Qual};

pub fn plain() -> Qual {
    Qual {
        is_const: false,
        is_restrict: false,
        is_volatile: false,
    }
}

fn basic(letter: u8) -> Option<Basic> {
    match letter {
        b'b' => Some(Basic::Bool),
        b'c' => Some(Basic::Char),
        b'x' => Some(Basic::SChar),
        b'y' => Some(Basic::UChar),
        b's' => Some(Basic::Short),
        b'w' => Some(Basic::UShort),
        b'i' => Some(Basic::Int),
        b'u' => Some(Basic::UInt),
        b'l' => Some(Basic::Long),
        b'f' => Some(Basic::Float),
        b'd' => Some(Basic::Double),
        _ => None,
    }
}

fn base(alloc: Global, letter: u8) -> Result<CType, AllocError> {
    if let Some(basic) = basic(letter) {
        return Ok(CType::of(Node::Basic(basic)));
    }
    if letter == b'v' {
        return Ok(CType::of(Node::Void));
    }
    if letter == b'#' {
        return Ok(CType::of(Node::Bad));
    }
    let id = tag(alloc, letter)?;
    if letter == b'E' {
        return Ok(CType::of(Node::Enumerated(id)));
    }
    Ok(CType::of(Node::Tagged(id)))
}

fn extent(letter: u8) -> Option<Extent> {
    match letter {
        b'_' => Some(Extent::None),
        b'?' => Some(Extent::Unknown),
        b'0'..=b'9' => Some(Extent::Size(u64::from(letter) - 48)),
        _ => None,
    }
}

fn around(alloc: Global, of: CType, qual: Qual, letter: u8) -> Result<CType, AllocError> {
    if let Some(extent) = extent(letter) {
        return CType::array(alloc, of, qual, extent);
    }
    if letter == b'*' {
        return CType::pointer(alloc, of, qual);
    }
    CType::function(alloc, of, Params::of(ParamList::Empty), Proto::Fixed)
}

/// The type that a word stands for.
pub fn type_named(alloc: Global, word: &str) -> Result<CType, AllocError> {
    let Some((first, letters)) = word.as_bytes().split_first() else {
        return Ok(CType::of(Node::Bad));
    };
    let mut ty = base(alloc, *first)?;
    let mut qual = plain();
    for letter in letters {
        if *letter == b'k' {
            qual.is_const = true;
            continue;
        }
        ty = around(alloc, ty, qual, *letter)?;
        qual = plain();
    }
    Ok(ty)
}
