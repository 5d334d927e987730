// What the words of a line stand for.
use scope_tables::{How, Role, SymbolKind};
use shared_text::Name;
use std::alloc::{AllocError, Global};
use tok_data::{FileId, OutToken, PpKind, Spelt, TokId};
use type_data::{Basic, CType, Extent, ItemName, Node, Qual, TagId};

pub fn number(word: Option<&str>) -> u32 {
    match word {
        Some(word) => word.parse::<u32>().unwrap_or(0),
        None => 0,
    }
}

pub fn plain() -> Qual {
    Qual {
        is_const: false,
        is_restrict: false,
        is_volatile: false,
    }
}

pub fn token_id(alloc: Global, file: &str, at: u32) -> Result<TokId, AllocError> {
    let name = Name::from_str(alloc, file)?;
    Ok(TokId {
        file: FileId::from_name(name),
        at,
    })
}

fn kind_of(word: &str) -> PpKind {
    match word.as_bytes().first() {
        Some(first) => {
            if first.is_ascii_alphabetic() || *first == b'_' {
                return PpKind::Ident;
            }
            if first.is_ascii_digit() {
                return PpKind::Number;
            }
            PpKind::Punct
        }
        None => PpKind::Punct,
    }
}

pub fn out_token(
    alloc: Global,
    word: &str,
    spelt: Spelt,
    site: TokId,
) -> Result<OutToken, AllocError> {
    let spelling = Name::from_str(alloc, word)?;
    Ok(OutToken {
        kind: kind_of(word),
        spelling,
        space_before: true,
        spelt,
        site,
    })
}

pub fn role_named(word: &str) -> Option<Role> {
    match word {
        "defines" => Some(Role::Defines),
        "declares" => Some(Role::Declares),
        "uses" => Some(Role::Uses),
        _ => None,
    }
}

pub fn how_named(word: &str) -> Option<How> {
    match word {
        "defines" => Some(How::Defines),
        "tentative" => Some(How::Tentative),
        "refused" => Some(How::Refused),
        "declares" => Some(How::Declares),
        _ => None,
    }
}

pub fn symbol_named(word: &str) -> Option<SymbolKind> {
    match word {
        "object" => Some(SymbolKind::Object),
        "function" => Some(SymbolKind::Function),
        "enum" => Some(SymbolKind::Enumeration),
        "enumerator" => Some(SymbolKind::Enumerator),
        "struct" => Some(SymbolKind::Structure),
        _ => None,
    }
}

pub fn share_item(item: &ItemName) -> Result<ItemName, AllocError> {
    let label = item.label.share()?;
    Ok(ItemName {
        label,
        nth: item.nth,
    })
}

/// A type: `int`, `array` (of no size), `array3`, or a structure by the number of its tag's token in the item.
pub fn type_named(alloc: Global, item: &ItemName, word: &str) -> Result<CType, AllocError> {
    let int = CType::of(Node::Basic(Basic::Int));
    if word == "array" {
        return CType::array(alloc, int, plain(), Extent::None);
    }
    if word == "array3" {
        return CType::array(alloc, int, plain(), Extent::Size(3));
    }
    let Ok(at) = word.parse::<u32>() else {
        return Ok(int);
    };
    drop(int);
    let item = share_item(item)?;
    Ok(CType::of(Node::Tagged(TagId { item, at })))
}
