// Types in postfix notation, a character a part: `v` void, `b` _Bool, `c` char, `s` short, `i` int, `u` unsigned int, `l` long, `m`
// unsigned long, `f` float, `d` double, `S` `K` `U` `D` `H` `N` `M` complete structures and unions, `I` an incomplete one, `E` an
// enumeration, `B` a type with a fault; then `*` a pointer, a digit an array of that size, `_` one of no size, `?` one of an untold
// size, `k` const for what the next pointer or array is of, and a function: `o` `()`, `z` `(void)`, `n` `(int)`, `t` `(int, int)`,
// `V` `(int, ...)`, `p` `(int *)`.
use crate::tags::tag;
use std::alloc::{AllocError, Global};
use type_data::{Basic, CType, Extent, Node, ParamList, Params, Proto, Qual};

pub fn plain() -> Qual {
    Qual {
        is_const: false,
        is_restrict: false,
        is_volatile: false,
    }
}

fn basic(letter: u8) -> Option<Basic> {
    match letter {
        b'b' => Some(Basic::Bool),
        b'c' => Some(Basic::Char),
        b's' => Some(Basic::Short),
        b'i' => Some(Basic::Int),
        b'u' => Some(Basic::UInt),
        b'l' => Some(Basic::Long),
        b'm' => Some(Basic::ULong),
        b'f' => Some(Basic::Float),
        b'd' => Some(Basic::Double),
        _ => None,
    }
}

fn tagged(letter: u8) -> Option<u32> {
    match letter {
        b'S' => Some(1),
        b'I' => Some(2),
        b'K' => Some(4),
        b'U' => Some(5),
        b'D' => Some(7),
        b'H' => Some(1099),
        b'N' => Some(1199),
        b'M' => Some(2199),
        _ => None,
    }
}

fn base(alloc: Global, letter: u8) -> Result<CType, AllocError> {
    if let Some(basic) = basic(letter) {
        return Ok(CType::of(Node::Basic(basic)));
    }
    if let Some(number) = tagged(letter) {
        let id = tag(alloc, number)?;
        return Ok(CType::of(Node::Tagged(id)));
    }
    if letter == b'E' {
        let id = tag(alloc, 3)?;
        return Ok(CType::of(Node::Enumerated(id)));
    }
    if letter == b'v' {
        return Ok(CType::of(Node::Void));
    }
    Ok(CType::of(Node::Bad))
}

fn int() -> CType {
    CType::of(Node::Basic(Basic::Int))
}

fn one(alloc: Global, ty: CType) -> Result<Params, AllocError> {
    Params::first(alloc, ty, plain(), Params::of(ParamList::Empty))
}

fn two(alloc: Global) -> Result<Params, AllocError> {
    let more = one(alloc, int())?;
    Params::first(alloc, int(), plain(), more)
}

fn params(alloc: Global, letter: u8) -> Result<Params, AllocError> {
    match letter {
        b'n' => one(alloc, int()),
        b't' => two(alloc),
        b'V' => one(alloc, int()),
        b'p' => {
            let pointer = CType::pointer(alloc, int(), plain())?;
            one(alloc, pointer)
        }
        _ => Ok(Params::of(ParamList::Empty)),
    }
}

fn proto(letter: u8) -> Proto {
    match letter {
        b'o' => Proto::Old,
        b'V' => Proto::Variadic,
        _ => Proto::Fixed,
    }
}

fn function(alloc: Global, of: CType, letter: u8) -> Result<CType, AllocError> {
    let Ok(params) = params(alloc, letter) else {
        drop(of);
        return Err(AllocError);
    };
    CType::function(alloc, of, params, proto(letter))
}

fn extent(letter: u8) -> Option<Extent> {
    match letter {
        b'_' => Some(Extent::None),
        b'?' => Some(Extent::Unknown),
        b'0'..=b'9' => Some(Extent::Size(u64::from(letter) - 48)),
        _ => None,
    }
}

fn around(alloc: Global, of: CType, qual: Qual, letter: u8) -> Result<CType, AllocError> {
    if let Some(extent) = extent(letter) {
        return CType::array(alloc, of, qual, extent);
    }
    if letter == b'*' {
        return CType::pointer(alloc, of, qual);
    }
    function(alloc, of, letter)
}

/// The type that a word stands for.
pub fn type_named(alloc: Global, word: &str) -> Result<CType, AllocError> {
    let Some((first, letters)) = word.as_bytes().split_first() else {
        return Ok(CType::of(Node::Bad));
    };
    let mut ty = base(alloc, *first)?;
    let mut qual = plain();
    for letter in letters {
        if *letter == b'k' {
            qual.is_const = true;
            continue;
        }
        ty = around(alloc, ty, qual, *letter)?;
        qual = plain();
    }
    Ok(ty)
}
