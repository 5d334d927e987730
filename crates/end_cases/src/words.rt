// What the words of a part stand for.
use scope_tables::{How, Linkage};
use shared_text::Name;
use std::alloc::{AllocError, Global};
use type_data::{
    Basic, CType, Extent, ItemName, Members, Node, ParamList, Params, Proto, Qual, TagId, TagInfo,
    TagKind,
};

pub fn how_named(word: &str) -> Option<How> {
    match word {
        "defines" => Some(How::Defines),
        "tentative" => Some(How::Tentative),
        "refused" => Some(How::Refused),
        "declares" => Some(How::Declares),
        _ => None,
    }
}

pub fn linkage_named(word: &str) -> Option<Linkage> {
    match word {
        "none" => Some(Linkage::None),
        "internal" => Some(Linkage::Internal),
        "external" => Some(Linkage::External),
        _ => None,
    }
}

pub fn plain() -> Qual {
    Qual {
        is_const: false,
        is_restrict: false,
        is_volatile: false,
    }
}

pub fn item_of(alloc: Global, nth: u32) -> Result<ItemName, AllocError> {
    let label = Name::from_str(alloc, "")?;
    Ok(ItemName { label, nth })
}

pub fn tag_of(alloc: Global, at: u32) -> Result<TagId, AllocError> {
    let item = item_of(alloc, 0)?;
    Ok(TagId { item, at })
}

pub fn info_of(members: Option<Members>) -> TagInfo {
    TagInfo {
        kind: TagKind::Struct,
        name: None,
        members,
        layout: None,
    }
}

pub fn int() -> CType {
    CType::of(Node::Basic(Basic::Int))
}

fn array(alloc: Global, extent: Extent) -> Result<Option<CType>, AllocError> {
    let ty = CType::array(alloc, int(), plain(), extent)?;
    Ok(Some(ty))
}

fn function(alloc: Global) -> Result<Option<CType>, AllocError> {
    let ty = CType::function(alloc, int(), Params::of(ParamList::Empty), Proto::Fixed)?;
    Ok(Some(ty))
}

/// A type: `void`, `int`, `bad`, `function`, `pointer`, an array of no size, of a known one and of an untold one, or the number
/// of a structure's tag.
pub fn type_named(alloc: Global, word: &str) -> Result<Option<CType>, AllocError> {
    match word {
        "void" => Ok(Some(CType::of(Node::Void))),
        "int" => Ok(Some(int())),
        "bad" => Ok(Some(CType::of(Node::Bad))),
        "function" => function(alloc),
        "pointer" => {
            let ty = CType::pointer(alloc, int(), plain())?;
            Ok(Some(ty))
        }
        "array" => array(alloc, Extent::None),
        "array3" => array(alloc, Extent::Size(3)),
        "array?" => array(alloc, Extent::Unknown),
        _ => tagged(alloc, word),
    }
}

fn tagged(alloc: Global, word: &str) -> Result<Option<CType>, AllocError> {
    let Ok(at) = word.parse::<u32>() else {
        return Ok(None);
    };
    let id = tag_of(alloc, at)?;
    Ok(Some(CType::of(Node::Tagged(id))))
}
