// What the words of a line stand for.
use scope_tables::{Life, ScopeKind};
use shared_text::Name;
use std::alloc::{AllocError, Global};
use type_data::{ItemName, Space, TagId};

pub fn kind_named(word: &str) -> Option<ScopeKind> {
    if word == "file" {
        return Some(ScopeKind::File);
    }
    if word == "function" {
        return Some(ScopeKind::Function);
    }
    if word == "block" {
        return Some(ScopeKind::Block);
    }
    if word == "prototype" {
        return Some(ScopeKind::Prototype);
    }
    None
}

pub fn life_named(word: &str) -> Option<Life> {
    if word == "static" {
        return Some(Life::Static);
    }
    if word == "thread" {
        return Some(Life::Thread);
    }
    if word == "automatic" {
        return Some(Life::Automatic);
    }
    if word == "register" {
        return Some(Life::Register);
    }
    if word == "without" {
        return Some(Life::Without);
    }
    None
}

/// A name space: `labels`, `tags`, `ordinary`, or the number of a tag, whose members it is.
pub fn space_named(alloc: Global, word: &str) -> Result<Option<Space>, AllocError> {
    if word == "labels" {
        return Ok(Some(Space::Labels));
    }
    if word == "tags" {
        return Ok(Some(Space::Tags));
    }
    if word == "ordinary" {
        return Ok(Some(Space::Ordinary));
    }
    let Ok(at) = word.parse::<u32>() else {
        return Ok(None);
    };
    let label = Name::from_str(alloc, "")?;
    let item = ItemName { label, nth: 0 };
    Ok(Some(Space::Members(TagId { item, at })))
}
