// What words stand for.
use scope_tables::{Anchor, Role, SymbolKind};
use shared_text::Name;
use std::alloc::{AllocError, Global};
use tok_data::{FileId, TokId};
use uri_paths::Path;

fn token_of(alloc: Global, file: &str, at: u32) -> Result<TokId, AllocError> {
    let name = Name::from_str(alloc, file)?;
    Ok(TokId {
        file: FileId::from_name(name),
        at,
    })
}

/// A token: `FILE:NUMBER`.
pub fn token_named(alloc: Global, word: &str) -> Result<TokId, AllocError> {
    let Some((file, number)) = word.rsplit_once(':') else {
        return token_of(alloc, word, 0);
    };
    token_of(alloc, file, number.parse::<u32>().unwrap_or(0))
}

fn made(alloc: Global, word: &str) -> Result<Anchor, AllocError> {
    let Some((tok, name)) = word.rsplit_once(':') else {
        return Ok(Anchor::Local(token_named(alloc, word)?));
    };
    let tok = token_named(alloc, tok)?;
    let name = Name::from_str(alloc, name)?;
    Ok(Anchor::Made(tok, name))
}

/// An anchor: `external:NAME`, `local:TOKEN` or `made:TOKEN:NAME`.
pub fn anchor_named(alloc: Global, word: &str) -> Result<Anchor, AllocError> {
    if let Some(name) = word.strip_prefix("external:") {
        return Ok(Anchor::External(Name::from_str(alloc, name)?));
    }
    if let Some(rest) = word.strip_prefix("made:") {
        return made(alloc, rest);
    }
    let rest = word.strip_prefix("local:").unwrap_or(word);
    Ok(Anchor::Local(token_named(alloc, rest)?))
}

pub fn role_named(word: &str) -> Role {
    match word {
        "defines" => Role::Defines,
        "declares" => Role::Declares,
        "pasted" => Role::Pasted,
        "spelled" => Role::Spelled,
        _ => Role::Uses,
    }
}

pub fn symbol_named(word: &str) -> SymbolKind {
    match word {
        "function" => SymbolKind::Function,
        "enum" => SymbolKind::Enumeration,
        "enumerator" => SymbolKind::Enumerator,
        "struct" => SymbolKind::Structure,
        _ => SymbolKind::Object,
    }
}

/// A path; none where the word is none.
pub fn path_named(alloc: Global, word: &str) -> Result<Option<Path>, AllocError> {
    Path::read(alloc, word)
}
