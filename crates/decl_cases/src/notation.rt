// Types in postfix notation, a character a part: `i` int, `c` char, `l` long, `d` double, `v` void, `S` and `I` a complete and
// an incomplete structure, `E` an enumeration, `B` a type with a fault; then `*` a pointer, a digit an array of that size, `_`
// one of no size, `?` one of an untold size, `o` a function `()`, `z` one of `(void)`, `n` one of `(int)`, `q` of `(char)`.
use shared_text::Name;
use std::alloc::{AllocError, Global};
use type_data::{Basic, CType, Extent, ItemName, Node, ParamList, Params, Proto, Qual, TagId};

pub fn plain() -> Qual {
    Qual {
        is_const: false,
        is_restrict: false,
        is_volatile: false,
    }
}

pub fn tag(alloc: Global, at: u32) -> Result<TagId, AllocError> {
    let label = Name::from_str(alloc, "")?;
    let item = ItemName { label, nth: 0 };
    Ok(TagId { item, at })
}

fn basic(letter: u8) -> Option<Basic> {
    match letter {
        b'i' => Some(Basic::Int),
        b'c' => Some(Basic::Char),
        b'l' => Some(Basic::Long),
        b'd' => Some(Basic::Double),
        _ => None,
    }
}

fn base(alloc: Global, letter: u8) -> Result<CType, AllocError> {
    if let Some(basic) = basic(letter) {
        return Ok(CType::of(Node::Basic(basic)));
    }
    match letter {
        b'v' => Ok(CType::of(Node::Void)),
        b'S' => Ok(CType::of(Node::Tagged(tag(alloc, 1)?))),
        b'I' => Ok(CType::of(Node::Tagged(tag(alloc, 2)?))),
        b'E' => Ok(CType::of(Node::Enumerated(tag(alloc, 3)?))),
        _ => Ok(CType::of(Node::Bad)),
    }
}

fn one(alloc: Global, basic: Basic) -> Result<Params, AllocError> {
    let ty = CType::of(Node::Basic(basic));
    Params::first(alloc, ty, plain(), Params::of(ParamList::Empty))
}

fn params(alloc: Global, letter: u8) -> Result<Params, AllocError> {
    match letter {
        b'n' => one(alloc, Basic::Int),
        b'q' => one(alloc, Basic::Char),
        _ => Ok(Params::of(ParamList::Empty)),
    }
}

fn proto(letter: u8) -> Proto {
    match letter {
        b'o' => Proto::Old,
        _ => Proto::Fixed,
    }
}

fn function(alloc: Global, of: CType, letter: u8) -> Result<CType, AllocError> {
    let Ok(params) = params(alloc, letter) else {
        drop(of);
        return Err(AllocError);
    };
    CType::function(alloc, of, params, proto(letter))
}

fn extent(letter: u8) -> Option<Extent> {
    match letter {
        b'_' => Some(Extent::None),
        b'?' => Some(Extent::Unknown),
        b'0'..=b'9' => Some(Extent::Size(u64::from(letter) - 48)),
        _ => None,
    }
}

fn around(alloc: Global, of: CType, letter: u8) -> Result<CType, AllocError> {
    if let Some(extent) = extent(letter) {
        return CType::array(alloc, of, plain(), extent);
    }
    if letter == b'*' {
        return CType::pointer(alloc, of, plain());
    }
    function(alloc, of, letter)
}

/// The type that a word stands for.
pub fn type_named(alloc: Global, word: &str) -> Result<CType, AllocError> {
    let Some((first, letters)) = word.as_bytes().split_first() else {
        return Ok(CType::of(Node::Bad));
    };
    let mut ty = base(alloc, *first)?;
    for letter in letters {
        ty = around(alloc, ty, *letter)?;
    }
    Ok(ty)
}

fn basic_letter(basic: Basic) -> &'static str {
    match basic {
        Basic::Int => "i",
        Basic::Char => "c",
        Basic::Long => "l",
        _ => "d",
    }
}

fn params_letter(params: &Params, proto: Proto) -> &'static str {
    match (params.list(), proto) {
        (_, Proto::Old) => "o",
        (ParamList::Empty, _) => "z",
        (ParamList::First(ty, _, _), _) => match ty.node() {
            Node::Basic(Basic::Char) => "q",
            _ => "n",
        },
    }
}

fn tag_letter(id: &TagId) -> &'static str {
    match id.at {
        1 => "S",
        2 => "I",
        _ => "E",
    }
}

fn extent_shown(alloc: Global, extent: Extent) -> Result<String, AllocError> {
    match extent {
        Extent::None => String::from_str(alloc, "_"),
        Extent::Unknown => String::from_str(alloc, "?"),
        Extent::Size(size) => format!(in alloc; "{size}"),
    }
}

/// A type in the notation.
pub fn shown_type(alloc: Global, ty: &CType) -> Result<String, AllocError> {
    match ty.node() {
        Node::Void => String::from_str(alloc, "v"),
        Node::Basic(basic) => String::from_str(alloc, basic_letter(*basic)),
        Node::Enumerated(id) => String::from_str(alloc, tag_letter(id)),
        Node::Tagged(id) => String::from_str(alloc, tag_letter(id)),
        Node::Pointer(to, _) => {
            let mut out = shown_type(alloc, to)?;
            out.push_str("*")?;
            Ok(out)
        }
        Node::Array(of, _, extent) => {
            let mut out = shown_type(alloc, of)?;
            let extent = extent_shown(alloc, *extent)?;
            out.push_str(extent.as_str())?;
            Ok(out)
        }
        Node::Function(of, params, proto) => {
            let mut out = shown_type(alloc, of)?;
            out.push_str(params_letter(params, *proto))?;
            Ok(out)
        }
        Node::Bad => String::from_str(alloc, "B"),
    }
}
