// Words of a line, read.
use scope_tables::{Anchor, Occ, Role};
use shared_text::Name;
use std::alloc::{AllocError, Global};
use tok_data::{FileId, PpKind, TokId};

/// The token of the text with this name that has this number, where it is one.
pub fn token(alloc: Global, file: &str, at: &str) -> Result<Option<TokId>, AllocError> {
    let Ok(at) = at.parse::<u32>() else {
        return Ok(None);
    };
    let name = Name::from_str(alloc, file)?;
    Ok(Some(TokId {
        file: FileId::from_name(name),
        at,
    }))
}

fn role(word: &str) -> Option<Role> {
    if word == "defines" {
        return Some(Role::Defines);
    }
    if word == "declares" {
        return Some(Role::Declares);
    }
    if word == "uses" {
        return Some(Role::Uses);
    }
    if word == "pasted" {
        return Some(Role::Pasted);
    }
    if word == "spelled" {
        return Some(Role::Spelled);
    }
    None
}

/// `external NAME`, `local FILE AT` or `made FILE AT NAME`.
fn anchor(
    alloc: Global,
    kind: &str,
    first: &str,
    second: &str,
    third: &str,
) -> Result<Option<Anchor>, AllocError> {
    if kind == "external" {
        let name = Name::from_str(alloc, first)?;
        return Ok(Some(Anchor::External(name)));
    }
    let Some(tok) = token(alloc, first, second)? else {
        return Ok(None);
    };
    if kind == "local" {
        return Ok(Some(Anchor::Local(tok)));
    }
    if kind == "made" {
        let name = Name::from_str(alloc, third)?;
        return Ok(Some(Anchor::Made(tok, name)));
    }
    Ok(None)
}

/// `FILE AT ROLE` and an anchor.
pub fn occurrence(alloc: Global, line: &str) -> Result<Option<Occ>, AllocError> {
    let mut words = line.split_ascii_whitespace().skip(1);
    let file = words.next().unwrap_or("");
    let at = words.next().unwrap_or("");
    let Some(role) = role(words.next().unwrap_or("")) else {
        return Ok(None);
    };
    let kind = words.next().unwrap_or("");
    let first = words.next().unwrap_or("");
    let second = words.next().unwrap_or("");
    let third = words.next().unwrap_or("");
    let Some(tok) = token(alloc, file, at)? else {
        return Ok(None);
    };
    match anchor(alloc, kind, first, second, third) {
        Ok(Some(anchor)) => Ok(Some(Occ { tok, anchor, role })),
        Ok(None) => Ok(None),
        Err(error) => Err(error),
    }
}

/// A token's kind by its first letters.
pub fn kind(word: &str) -> PpKind {
    if word == "ident" {
        return PpKind::Ident;
    }
    if word == "number" {
        return PpKind::Number;
    }
    if word == "char" {
        return PpKind::Char;
    }
    if word == "string" {
        return PpKind::Str;
    }
    if word == "punct" {
        return PpKind::Punct;
    }
    PpKind::Stray
}
